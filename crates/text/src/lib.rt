// What the programs read: standard input into a lent buffer, and in the text of cases lines and the numbers in them.
#![tactic(auto)]

ghost use Rattle.std.specs.Prelude.{◌≡◌, [], ◌∷◌, ◌++◌, ◌<◌, ◌≤◌, ◌-◌, ◌/◌, ◌%◌, length, take, drop, IfOk};
ghost use Rattle.text.specs.Numbers as spec;
ghost use Rattle.text.specs.Lent.{added, two};

use std::io;
use std::io::Read;

// Reads until the buffer is full or the input ends, and gives how many bytes came. A loop: std's `read_exact` fails where the input is
// shorter, and its `read_to_end` fills a `Vec`, which may run out of memory.
pub fn read_full(input: &mut impl Read, buf: &mut [u8]) -> io::Result<usize>
    ensures { IfOk result (λ n. n ≤ length buf.new) }
{
    let mut done = 0;
    while done < buf.len() {
        let n = input.read(&mut buf[done..])?;
        if n == 0 {
            return Ok(done);
        }
        done += n;
    }
    Ok(done)
}

// The first place of a byte from a place on, or the end.
pub fn find(text: &[u8], from: usize, b: u8) -> usize
    requires { from ≤ length text.now }
    ensures { (from ≤ result) × (result ≤ length text.now) }
{
    text[from..]
        .iter()
        .position(|x| *x == b)
        .map_or(text.len(), |i| from + i)
}

// A number that was read, and the place behind it.
#[derive(Clone, Copy)]
pub struct Word {
    pub value: u32,
    pub end: usize,
}

// The first digit from a place on, or the end.
pub fn find_digit(text: &[u8], from: usize) -> usize
    requires { from ≤ length text.now }
    ensures { (from ≤ result) × (result ≤ length text.now) }
{
    match text[from..].iter().position(|x| x.is_ascii_digit()) {
        Some(i) => from + i,
        None => text.len(),
    }
}

// A digit more, while the number is below 2^32.
fn more(n: u64, digit: u8) -> u64
    ensures { result ≡ spec.more n digit }
{
    if n < 4294967296 {
        return 10 * n + u64::from(digit % 16);
    }
    n
}

// The decimal number of some digits.
pub fn value(digits: &[u8]) -> u32
    ensures { result ≡ spec.number digits.now }
{
    let n = digits.iter().fold(0, |n, digit| more(n, *digit));
    (n % 4294967296) as u32
}

// The decimal number at a digit's place, up to what is no digit or to the end.
pub fn number(text: &[u8], from: usize) -> Word
    requires { from < length text.now }
    ensures places { (from < result.end) × (result.end ≤ length text.now) }
    ensures number { result.value ≡ spec.number (take (result.end - from) (drop from text.now)) }
{
    let end = text[from + 1..]
        .iter()
        .position(|x| !x.is_ascii_digit())
        .map_or(text.len(), |i| from + 1 + i);
    Word {
        value: value(&text[from..end]),
        end,
    }
}

// The bytes are all[..end]. An array and no `Vec`, so that no number of a line can run out of memory.
#[derive(Clone, Copy)]
pub struct Bytes<const N: usize> {
    all: [u8; N],
    end: usize,
    ghost inside: { end ≤ N },
}

impl<const N: usize> Bytes<N> {
    pub fn new() -> Bytes<N>
        ensures { take result.end result.all ≡ [] }
    {
        Bytes {
            all: [0u8; N],
            end: 0,
        }
    }

    // A number's low byte more, where there is room; by a remainder, as the clause says it.
    pub fn byte(mut self, n: u32) -> Bytes<N>
        ensures { take result.end result.all ≡ added N (take self.entry.end self.entry.all) (n % 256 ∷ []) }
    {
        let at = self.end;
        if at < N {
            self.all[at] = (n % 256) as u8;
            self.end = at + 1;
        }
        self
    }

    // A 16-bit number more, low byte first.
    pub fn word(self, n: u32) -> Bytes<N>
        ensures { take result.end result.all ≡ added N (take self.entry.end self.entry.all) (two n) }
    {
        self.byte(n).byte(n / 256)
    }

    // A 32-bit number more, low byte first.
    #[tactic(auto, using(crate::proofs::Laws::added_twice))]
    pub fn long(self, n: u32) -> Bytes<N>
        ensures { take result.end result.all ≡ added N (take self.entry.end self.entry.all) (two n ++ two (n / 65536)) }
    {
        self.word(n).word(n / 65536)
    }

    // The first n of the bytes, or bytes 0 behind them too.
    pub fn cut(mut self, n: usize) -> Bytes<N>
        ensures { take result.end result.all ≡ take n self.entry.all }
    {
        self.end = n.min(N);
        self
    }

    // The bytes, lent.
    pub fn lent(&self) -> &[u8]
        ensures bytes { result.now ≡ take self.now.end self.now.all }
        ensures short { length result.now ≤ N }
    {
        &self.all[..self.end]
    }
}
