// Lines of the output: the label, the code, and the numbers or the bytes of the answer.
use std::io;

// The numbers of four bytes each, low byte first, each behind a space.
pub fn print_numbers(rt: &impl Print, bytes: &[u8]) -> io::Result<()> {
    for n in bytes.as_chunks::<4>().0 {
        print!(rt; " {}", u32::from_le_bytes(*n))?;
    }
    Ok(())
}

// The bytes in base 16, each behind a space.
fn print_bytes(rt: &impl Print, bytes: &[u8]) -> io::Result<()> {
    for b in bytes {
        print!(rt; " {b:02x}")?;
    }
    Ok(())
}

// A line: the bytes of a schedule buffer and those behind it.
pub fn line_schedule(rt: &impl Print, bytes: &[u8; 12]) -> io::Result<()> {
    print!(rt; " schedule:")?;
    print_bytes(rt, bytes)?;
    println!(rt)
}

// A line for an answer slice of n bytes, the front of 24: the label and the code; the place, the horizon, the effort, the rows and
// the root where all fit with no byte left, else the slice's length and the 24 bytes.
pub fn line(
    rt: &impl Print,
    label: &[u8],
    n: usize,
    code: u32,
    answer: &[u8; 24],
) -> io::Result<()> {
    rt.write_all(label)?;
    print!(rt; ": {code}")?;
    if n == 20 {
        print_numbers(rt, &answer[..20])?;
    } else {
        print!(rt; " into {n}")?;
        print_bytes(rt, answer)?;
    }
    println!(rt)
}
