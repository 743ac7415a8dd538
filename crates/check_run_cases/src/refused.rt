// Check of sheets that are refused by 1, 2 and 3.
use crate::cases::{try_check, try_d, try_d_twice};
use crate::sheets::{Sheet, d, d_after};
use std::io;

// Where the numbers of D's trailer stand.
const F: usize = 32;

const A: usize = 34;

const R: usize = 36;

const I: usize = 38;

const G: usize = 40;

const H: usize = 42;

const BACK: usize = 44;

const MARK: usize = 46;

// 1: too few bytes, or a wrong mark.
pub fn unmarked(rt: &impl Print) -> io::Result<()> {
    try_check(rt, "no bytes", Sheet::new())?;
    try_check(rt, "the last 15 bytes of D", d().without(33))?;
    try_check(rt, "the last 16 bytes of D", d().without(32))?;
    try_check(rt, "16 zeros", Sheet::new().pairs(4, 0, 0))?;
    try_check(
        rt,
        "14 zeros and the mark",
        Sheet::new().pairs(3, 0, 0).back(0),
    )?;
    try_d(rt, "mark swapped", MARK, 0x5253)?;
    try_d(rt, "mark's first byte wrong", MARK, 0x5351)?;
    try_d(rt, "mark's second byte wrong", MARK, 0x5452)?;
    try_check(rt, "a byte behind the mark", d().byte(0))?;
    try_d_twice(rt, "mark wrong and F 0", MARK, 0, F, 0)
}

// 2: a count outside its bounds, which comes before 3 and 4.
pub fn unbounded(rt: &impl Print) -> io::Result<()> {
    try_d(rt, "D, F 0", F, 0)?;
    try_d(rt, "D, F 13", F, 13)?;
    try_d(rt, "D, F 258", F, 0x0102)?;
    try_d(rt, "D, A 0", A, 0)?;
    try_d(rt, "D, A 13", A, 13)?;
    try_d(rt, "D, R 25", R, 25)?;
    try_d(rt, "D, I 17", I, 17)?;
    try_d(rt, "D, G 17", G, 17)?;
    try_d(rt, "D, H 9", H, 9)?;
    try_d(rt, "D, H 256", H, 256)?;
    try_d_twice(rt, "D, H 9 and back 31", H, 9, BACK, 31)?;
    try_d_twice(rt, "D, F 0 and a bad row", F, 0, 16, 4)
}

// Each count at a bound, where it is not refused by 2.
pub fn bounded(rt: &impl Print) -> io::Result<()> {
    try_d(rt, "D, F 12", F, 12)?;
    try_d(rt, "D, A 12", A, 12)?;
    try_d(rt, "D, R 24", R, 24)?;
    try_d(rt, "D, I 16", I, 16)?;
    try_d(rt, "D, G 16", G, 16)?;
    try_d(rt, "D, H 0", H, 0)?;
    try_d(rt, "D, H 8", H, 8)
}

// 3: back or the length disagrees, which comes before 4.
pub fn disagreeing(rt: &impl Print) -> io::Result<()> {
    let byte_before = d_after(Sheet::new().byte(0));
    let row_before = d_after(Sheet::new().pair(0, 0));
    try_d(rt, "D, back 31", BACK, 31)?;
    try_d(rt, "D, back 33", BACK, 33)?;
    try_d(rt, "D, back 288", BACK, 288)?;
    try_check(rt, "a byte in front of D", byte_before)?;
    try_check(rt, "D without its first byte", d().without(1))?;
    try_check(rt, "4 bytes in front of D", row_before)?;
    try_check(
        rt,
        "4 bytes in front of D, back 36",
        row_before.put(BACK + 4, 36),
    )?;
    try_check(
        rt,
        "D without its first 4 bytes, back 28",
        d().without(4).put(BACK, 28),
    )?;
    try_d_twice(rt, "D, back 31 and a bad row", BACK, 31, 16, 4)
}
