// Numbers in decimal, written into a lent slice: the program's line.
#![tactic(auto)]

ghost use Rattle.std.specs.Prelude.{◌∷◌, [], ◌+◌, ◌^◌, ◌≤◌, ◌<◌, length};
ghost use Rattle.paper.specs.Lists.{each};
ghost use Rattle.paper.specs.Program as paper;
ghost use Rattle.line.specs.Written.{Writes};

use itoa::Buffer;

// A lent slice, and the place of the next byte in it.
#[derive(Drop)]
struct Writer<'a> {
    out: &'a mut [u8],
    at: usize,
}

impl<'a> Writer<'a> {
    ghost use Rattle.line.specs.Adds.{Adds};

    // Bytes more.
    fn push(&mut self, bytes: &[u8])
        requires { self.old.at + length bytes.now ≤ length self.old.out.now }
        ensures { Adds bytes.now self.old self.new }
    {
        let end = self.at + bytes.len();
        self.out[self.at..end].copy_from_slice(bytes);
        self.at = end;
    }

    // A number.
    fn number(&mut self, n: u32)
        requires { self.old.at + length (paper.decimal n) ≤ length self.old.out.now }
        ensures { Adds (paper.decimal n) self.old self.new }
    {
        self.push(Buffer::new().format(n).as_bytes());
    }

    // A space, then a number.
    fn spaced(&mut self, n: u32)
        requires { self.old.at + 11 ≤ length self.old.out.now }
        ensures { Adds (paper.spaced n) self.old self.new }
    {
        self.push(b" ");
        self.number(n);
    }

    // Entries.
    fn entries(&mut self, s: &[u8])
        requires { (length s.now ≤ 8) × (self.old.at + 88 ≤ length self.old.out.now) }
        ensures { Adds (each s.now paper.spaced) self.old self.new }
    {
        for e in s {
            self.spaced(u32::from(*e));
        }
    }
}

// A number of at most k digits, as `decimal_in` says, from a place on.
pub fn number(out: &mut [u8], at: usize, n: u32, k: usize) -> usize
    requires { (1 ≤ k) × (k ≤ 10) × (n < 10 ^ k) × (at + k ≤ length out.old) }
    ensures { Writes at (paper.decimal_in k n) out.old out.new result }
{
    let mut writer = Writer { out, at };
    writer.number(n);
    writer.at
}

// The program's line: code, place, horizon and entries, and a newline.
pub fn line(code: u32, place: u32, horizon: u32, s: &[u8], out: &mut [u8]) -> usize
    requires { (length s.now ≤ 8) × (128 ≤ length out.old) }
    ensures { Writes 0 (paper.line code (place ∷ horizon ∷ s.now)) out.old out.new result }
{
    let mut writer = Writer { out, at: 0 };
    writer.number(code);
    writer.spaced(place);
    writer.spaced(horizon);
    writer.entries(s);
    writer.push(b"\n");
    writer.at
}
