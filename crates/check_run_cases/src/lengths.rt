// Answer slices that are the front of 20 bytes ee: what is written, and that the rest is untouched.
use crate::cases::{check_into, run_into};
use crate::sheets::d;
use std::io;

fn at_length(rt: &impl Print, n: usize) -> io::Result<()> {
    check_into(rt, "check", d(), n)?;
    check_into(rt, "refused check", d().put(16, 4), n)?;
    run_into(rt, "run", d(), 1, &[2, 1, 2], n)?;
    run_into(rt, "refused run", d(), 4, &[2, 1, 2], n)
}

pub fn lengths(rt: &impl Print) -> io::Result<()> {
    for n in [0, 3, 4, 7, 8, 11, 12, 15, 16, 19] {
        at_length(rt, n)?;
    }
    Ok(())
}
