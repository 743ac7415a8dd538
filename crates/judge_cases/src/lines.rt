// Lines of the output: the label, the code, and the numbers or the bytes of the answer.
ghost use Rattle.std.specs.Prelude.{◌+◌, ◌≤◌};

use std::io;

// The number of four bytes from an offset on, low byte first.
fn number(b: &[u8; 12], at: usize) -> u32
    requires { at + 4 ≤ 12 }
{
    u32::from_le_bytes([b[at], b[at + 1], b[at + 2], b[at + 3]])
}

// A line: the label, the code, the place and the value.
pub fn line(rt: &impl Print, label: &[u8], code: u32, answer: &[u8; 12]) -> io::Result<()> {
    let place = number(answer, 0);
    let value = number(answer, 4);
    rt.write_all(label)?;
    println!(rt; ": {code} {place} {value}")
}

// A line: the label, the answer slice's length, the code, and the twelve bytes of which the slice was the front, in base 16.
pub fn line_into(
    rt: &impl Print,
    label: &[u8],
    n: usize,
    code: u32,
    answer: &[u8; 12],
) -> io::Result<()> {
    rt.write_all(label)?;
    print!(rt; " into {n}: {code}")?;
    for b in answer {
        print!(rt; " {b:02x}")?;
    }
    println!(rt)
}
