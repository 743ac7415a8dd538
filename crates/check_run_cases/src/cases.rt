// One case a call: a line with its label, the code, and the numbers of the answer.
use crate::sheets::{Sheet, d, d_start};
use std::io;

// A line: the label, the code, the answer's numbers, low byte first.
fn line(rt: &impl Print, label: &str, code: u32, answer: &[u8]) -> io::Result<()> {
    print!(rt; "{label}: {code}")?;
    for n in answer.as_chunks::<4>().0 {
        print!(rt; " {}", u32::from_le_bytes(*n))?;
    }
    println!(rt)
}

// The sheet's bytes, lent.
fn lent(bytes: &[u8; 512], s: Sheet) -> &[u8] {
    let all = &bytes[..];
    let from = s.from;
    let end = s.end;
    if from <= end && end <= all.len() {
        return &all[from..end];
    }
    &all[..0]
}

// Check of a sheet: place and count.
pub fn try_check(rt: &impl Print, label: &str, s: Sheet) -> io::Result<()> {
    let bytes = s.bytes;
    let mut answer = [0xEEu8; 8];
    let code = bringup::bringup_check(lent(&bytes, s), &mut answer);
    line(rt, label, code, &answer)
}

// Check of D with another number at an offset.
pub fn try_d(rt: &impl Print, label: &str, at: usize, n: u16) -> io::Result<()> {
    try_check(rt, label, d().put(at, n))
}

// Check of D with two other numbers.
pub fn try_d_twice(
    rt: &impl Print,
    label: &str,
    at1: usize,
    n1: u16,
    at2: usize,
    n2: u16,
) -> io::Result<()> {
    try_check(rt, label, d().put(at1, n1).put(at2, n2))
}

// Check of D with a start clause.
pub fn try_start(rt: &impl Print, label: &str, pos: u16, neg: u16) -> io::Result<()> {
    try_check(rt, label, d_start(pos, neg))
}

// Run of a schedule from a state: place, steps done, the state reached, the goal.
pub fn try_run(
    rt: &impl Print,
    label: &str,
    s: Sheet,
    state: u32,
    schedule: &[u8],
) -> io::Result<()> {
    let bytes = s.bytes;
    let mut answer = [0xEEu8; 16];
    let code = bringup::bringup_run(lent(&bytes, s), state, schedule, &mut answer);
    line(rt, label, code, &answer)
}

// A line: the label, the answer slice's length, the code, and the twenty bytes of which the slice was the front, in base 16.
fn line_into(
    rt: &impl Print,
    label: &str,
    n: usize,
    code: u32,
    bytes: &[u8; 20],
) -> io::Result<()> {
    print!(rt; "{label} into {n}: {code}")?;
    for b in bytes {
        print!(rt; " {b:02x}")?;
    }
    println!(rt)
}

// Check into the first n of twenty bytes.
pub fn check_into(rt: &impl Print, label: &str, s: Sheet, n: usize) -> io::Result<()> {
    let bytes = s.bytes;
    let mut answer = [0xEEu8; 20];
    if n <= 20 {
        let code = bringup::bringup_check(lent(&bytes, s), &mut answer[0..n]);
        line_into(rt, label, n, code, &answer)?;
    }
    Ok(())
}

// Run into the first n of twenty bytes.
pub fn run_into(
    rt: &impl Print,
    label: &str,
    s: Sheet,
    state: u32,
    schedule: &[u8],
    n: usize,
) -> io::Result<()> {
    let bytes = s.bytes;
    let mut answer = [0xEEu8; 20];
    if n <= 20 {
        let code = bringup::bringup_run(lent(&bytes, s), state, schedule, &mut answer[0..n]);
        line_into(rt, label, n, code, &answer)?;
    }
    Ok(())
}
