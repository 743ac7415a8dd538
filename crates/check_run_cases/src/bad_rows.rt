// Check of sheets that are refused by 4, with the place of the first bad row.
use crate::cases::{try_check, try_d, try_d_twice, try_start};
use crate::sheets::{d, d_start, longest, plain};
use std::io;

// A mask bit at F in an action or a rule.
pub fn high_writes(rt: &impl Print) -> io::Result<()> {
    try_d(rt, "D, byte 16 is 4", 16, 4)?;
    try_d(rt, "need1 4", 0, 4)?;
    try_d(rt, "need0 4", 2, 4)?;
    try_d(rt, "need1 4 of action 2", 4, 4)?;
    try_d(rt, "need0 4 of action 2", 6, 4)?;
    try_d(rt, "cond1 4", 10, 4)?;
    try_d(rt, "cond0 4", 12, 4)?;
    try_d(rt, "set1 4", 14, 4)?;
    try_d(rt, "cond1 4 of rule 2", 20, 4)?;
    try_d(rt, "cond0 4 of rule 2", 22, 4)?;
    try_d(rt, "set1 4 of rule 2", 24, 4)?;
    try_d(rt, "set0 4 of rule 2", 26, 4)
}

// A mask bit at F in a clause.
pub fn high_clauses(rt: &impl Print) -> io::Result<()> {
    try_start(rt, "start (4,1)", 4, 1)?;
    try_start(rt, "start (0,4)", 0, 4)?;
    try_d(rt, "goal (4,0)", 28, 4)?;
    try_d(rt, "goal (2,4)", 30, 4)?;
    try_check(rt, "goal (4,0) behind a start", d_start(0, 1).put(32, 4))?;
    try_check(rt, "goal (2,4) behind a start", d_start(0, 1).put(34, 4))
}

// A mask bit at F or above where F is at a bound, and in the last row of each part.
pub fn high_at_bounds(rt: &impl Print) -> io::Result<()> {
    try_check(rt, "F 1, need1 2", plain(1).put(0, 2))?;
    try_check(rt, "F 12, need1 2048", plain(12).put(0, 2048))?;
    try_check(rt, "F 12, need1 4096", plain(12).put(0, 4096))?;
    try_check(rt, "F 12, need1 32768", plain(12).put(0, 32768))?;
    try_check(rt, "F 12, need0 32768", plain(12).put(2, 32768))?;
    try_check(rt, "the longest, last need bad", longest().put(46, 4096))?;
    try_check(rt, "the longest, last rule bad", longest().put(286, 4096))?;
    try_check(rt, "the longest, last start bad", longest().put(348, 32768))?;
    try_check(rt, "the longest, last goal bad", longest().put(414, 4096))
}

// Pairs that overlap: refused in a need, a condition and a write, not in a clause nor across pairs.
pub fn overlaps(rt: &impl Print) -> io::Result<()> {
    try_d_twice(rt, "need (1,1)", 0, 1, 2, 1)?;
    try_d_twice(rt, "need (3,2) of action 2", 4, 3, 6, 2)?;
    try_d_twice(rt, "cond (1,1)", 10, 1, 12, 1)?;
    try_d_twice(rt, "cond (1,3) of rule 2", 20, 1, 22, 3)?;
    try_d(rt, "set (1,1)", 14, 1)?;
    try_d_twice(rt, "set (3,2) of rule 2", 24, 3, 26, 2)?;
    try_d(rt, "cond and set alike", 12, 1)?;
    try_check(
        rt,
        "start (3,3) and goal (3,3)",
        d_start(3, 3).put(32, 3).put(34, 3),
    )
}

// A rule's action outside 1..A.
pub fn actions(rt: &impl Print) -> io::Result<()> {
    try_d(rt, "rule's action 0", 8, 0)?;
    try_d(rt, "rule's action 3", 8, 3)?;
    try_d(rt, "rule's action 256", 8, 0x0100)?;
    try_d(rt, "rule's action 257", 8, 0x0101)?;
    try_d(rt, "rule 2's action 3", 18, 3)
}

// Two bad rows: the place is that of the first in the file.
pub fn two_rows(rt: &impl Print) -> io::Result<()> {
    try_d_twice(rt, "both needs", 4, 4, 0, 4)?;
    try_check(rt, "need 2 and rule 1", d().put(8, 0).put(4, 1).put(6, 1))?;
    try_d_twice(rt, "both rules", 18, 3, 8, 0)?;
    try_check(rt, "rule 2 and start", d_start(4, 0).put(24, 4))?;
    try_check(rt, "start and goal", d_start(4, 0).put(32, 4))?;
    try_d_twice(rt, "need 1 and goal", 28, 4, 0, 4)
}
