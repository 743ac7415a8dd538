// The program: a sheet from standard input, one line to standard output. A buffer one byte longer than the longest sheet tells it from longer input.
#![tactic(auto)]

use std::io;

fn main(rt: HostRuntime) -> io::Result<()> {
    let mut input = [0u8; 4609];
    let n = text::read_full(&mut rt.reader(), &mut input)?;
    let mut out = [0u8; 128];
    let end = program::print(&input[..n], &mut out);
    rt.write_all(&out[..end])
}
