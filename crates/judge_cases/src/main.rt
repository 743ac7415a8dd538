// Judge, called as C calls it, on the cases of standard input: one line a case. The head of the file stdin says how they are written.
#![tactic(auto)]

mod cases;
mod given;
mod lines;

use std::io;

// As much of the input is read. Each program of cases has this `main`: one function over both would take the cases as a closure, and a
// call of it would be as long.
const MOST: usize = 65536;

fn main(rt: HostRuntime) -> io::Result<()> {
    let mut buf = [0u8; MOST];
    let n = text::read_full(&mut rt.reader(), &mut buf)?;
    cases::try_all(&rt, &buf[..n])
}
