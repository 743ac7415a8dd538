// The line that tells of every byte of a row buffer: rows, behind them zeros, behind those bytes as they were lent.
ghost use Rattle.std.specs.Prelude.{◌≡◌, ◌≤◌, length, IfOk, vec_len};

use crate::lines::print_numbers;
use std::alloc::{AllocError, Global};
use std::io;

// The byte that fills a row buffer when it is lent.
const LENT: u8 = 0xEE;

// Bytes of which row buffers are the front, two rows more than 65,536; the `ensures` gives their number, which lending them needs.
pub fn fresh(alloc: Global) -> Result<Vec<u8>, AllocError>
    ensures { IfOk result (λ v. 1048608 ≡ vec_len v) }
{
    vec![in alloc; LENT; 1048608]
}

// Where the bytes at the end begin that are b.
fn front(bytes: &[u8], b: u8) -> usize
    ensures { result ≤ length bytes.now }
{
    bytes.iter().rposition(|x| *x != b).map_or(0, |i| i + 1)
}

// A sum that depends on the bytes' order.
fn sum(bytes: &[u8]) -> u64 {
    bytes.iter().fold(
        0u64,
        |sum, b| (sum % 4294967291 * 257 + u64::from(*b)) % 4294967291,
    )
}

// The rows: up to 24 of them all; of more the first, the last and the sum.
fn print_table(rt: &impl Print, bytes: &[u8]) -> io::Result<()> {
    let rows = bytes.as_chunks::<16>().0;
    print!(rt; " {} rows:", rows.len())?;
    match rows {
        [first, .., last] if rows.len() > 24 => {
            print_numbers(rt, first)?;
            print!(rt; ",..")?;
            print_numbers(rt, last)?;
            print!(rt; ", sum {},", sum(bytes))
        }
        _ => {
            for row in rows {
                print_numbers(rt, row)?;
                print!(rt; ",")?;
            }
            Ok(())
        }
    }
}

// A line: the rows, then how many bytes are zero and how many are as they were lent.
pub fn line_rows(rt: &impl Print, bytes: &[u8]) -> io::Result<()> {
    let end = front(bytes, LENT);
    let last = front(&bytes[..end], 0);
    let whole = last.next_multiple_of(16);
    if whole <= end {
        print_table(rt, &bytes[..whole])?;
        print!(rt; " {} zero,", end - whole)?;
    } else {
        print!(rt; " no whole rows,")?;
    }
    println!(rt; " {} as lent", bytes.len() - end)
}
