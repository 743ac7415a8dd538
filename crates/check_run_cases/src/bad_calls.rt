// Runs that are refused by 10, and refusals that come before it.
use crate::cases::try_run;
use crate::sheets::{Sheet, clash, d, d_need, d_start, longest, plain};
use std::io;

// A state bit at F or above, of all 32.
pub fn states(rt: &impl Print) -> io::Result<()> {
    try_run(rt, "D, nothing from 3", d(), 3, &[])?;
    try_run(rt, "D, nothing from 4", d(), 4, &[])?;
    try_run(rt, "D, nothing from 65536", d(), 0x10000, &[])?;
    try_run(rt, "D, nothing from 65537", d(), 0x10001, &[])?;
    try_run(rt, "D, nothing from 4294967295", d(), 0xFFFFFFFF, &[])?;
    try_run(rt, "F 12, nothing from 4096", plain(12), 4096, &[])
}

// Too many entries, or an entry above A, also behind a step that fails.
pub fn entries(rt: &impl Print) -> io::Result<()> {
    try_run(rt, "D, 9 ones from 1", d(), 1, &[1; 9])?;
    try_run(rt, "D, 9 idle from 1", d(), 1, &[0; 9])?;
    try_run(rt, "D, 9 idle from 4", d(), 4, &[0; 9])?;
    try_run(rt, "D, 3 from 1", d(), 1, &[3])?;
    try_run(rt, "D, 1 2 3 from 1", d(), 1, &[1, 2, 3])?;
    try_run(rt, "D, 255 from 1", d(), 1, &[255])?;
    try_run(rt, "D, 3 from 4", d(), 4, &[3])?;
    try_run(rt, "D, need0 1, 2 3 from 1", d_need(), 1, &[2, 3])?;
    try_run(rt, "clash, 1 2 from 1", clash(), 1, &[1, 2])?;
    try_run(rt, "the longest, 13 from 0", longest(), 0, &[13])?;
    try_run(rt, "the longest, 12 from 0", longest(), 0, &[12])
}

// A refused sheet in a bad call: the sheet's refusal answers; a sheet without a start is none.
pub fn refused_sheets(rt: &impl Print) -> io::Result<()> {
    try_run(rt, "no bytes, 3 from 4", Sheet::new(), 4, &[3])?;
    try_run(rt, "mark wrong, 3 from 4", d().put(46, 0), 4, &[3])?;
    try_run(rt, "F 0, 3 from 4", d().put(32, 0), 4, &[3])?;
    try_run(rt, "back 31, 3 from 4", d().put(44, 31), 4, &[3])?;
    try_run(rt, "a bad rule, 3 from 4", d().put(16, 4), 4, &[3])?;
    try_run(rt, "a bad rule, 9 idle from 1", d().put(16, 4), 1, &[0; 9])?;
    try_run(rt, "a bad rule, 1 2 from 1", d().put(16, 4), 1, &[1, 2])?;
    try_run(rt, "blank start, 3 from 4", d_start(0, 0), 4, &[3])
}
