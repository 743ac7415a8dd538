// Check of sheets that are read: how many starts, or none.
use crate::cases::{try_check, try_d, try_d_twice, try_start};
use crate::sheets::{d, d_starts, longest, plain};
use std::io;

// Start clauses that hold in some states, in all and in none.
pub fn starts(rt: &impl Print) -> io::Result<()> {
    try_check(rt, "D", d())?;
    try_d(rt, "D, H 1", 42, 1)?;
    try_start(rt, "D, start (0,1)", 0, 1)?;
    try_start(rt, "D, start (2,0)", 2, 0)?;
    try_start(rt, "D, start (3,0)", 3, 0)?;
    try_start(rt, "D, start (1,2)", 1, 2)?;
    try_start(rt, "D, start (3,3)", 3, 3)?;
    try_start(rt, "D, start (1,1)", 1, 1)?;
    try_check(rt, "D, starts (1,0) (0,2)", d_starts(1, 0, 0, 2))?;
    try_check(rt, "D, starts (1,0) (0,1)", d_starts(1, 0, 0, 1))?;
    try_start(rt, "D, blank start", 0, 0)?;
    try_check(rt, "D, starts (1,1) blank", d_starts(1, 1, 0, 0))
}

// Goal clauses, which check does not count, and the smallest and the largest sheets.
pub fn goals_and_sizes(rt: &impl Print) -> io::Result<()> {
    try_d(rt, "D, blank goal", 28, 0)?;
    try_d_twice(rt, "D, goal (3,3)", 28, 3, 30, 3)?;
    try_check(rt, "the smallest", plain(1))?;
    try_check(rt, "F 12", plain(12))?;
    try_check(rt, "the longest", longest())
}
