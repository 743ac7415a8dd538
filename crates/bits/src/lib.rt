// Bits of a mask and numbers in bytes: what the machine's operations say of a mask's bits stands in proofs/.
#![tactic(auto)]

ghost use Rattle.std.specs.Prelude.{◌≡◌, cond, ◌++◌, ◌+◌, ◌^◌, ◌≤◌, ◌<◌, length, drop};
ghost use Rattle.paper.specs.Counting as counting;
ghost use Rattle.paper.specs.Sheet as sheet;
ghost use Rattle.paper.specs.Operations as operation;
ghost use Rattle.paper.specs.Answers.{told};

// Fact k of a mask.
pub fn bit(m: u16, k: usize) -> bool
    requires { k < 16 }
    ensures { result ≡ counting.bit m k }
{
    (m >> k) % 2 == 1
}

// The weight of fact k, which is also how many masks there are of the facts below k.
pub fn weight(k: usize) -> u32
    requires { k < 32 }
    ensures { result ≡ 2 ^ k }
{
    1u32 << k
}

// A test as a number, in the words of what is counted.
#[tactic(auto, unfolding(paper::specs::Counting::worth))]
pub fn one_if(t: bool) -> u32
    ensures { (result ≡ cond t 1 0) × (result ≡ counting.worth t 1) × (result ≤ 1) }
{
    u32::from(t)
}

// The 16-bit number at a place, low byte first.
pub fn word(b: &[u8], at: usize) -> u16
    requires { at + 1 < length b.now }
    ensures { result ≡ sheet.word b.now at }
{
    u16::from_le_bytes([b[at], b[at + 1]])
}

// The 32-bit number at a place, low byte first.
pub fn long(b: &[u8], at: usize) -> u32
    requires { at + 3 < length b.now }
    ensures { result ≡ operation.long b.now at }
{
    u32::from_le_bytes([b[at], b[at + 1], b[at + 2], b[at + 3]])
}

// A number's four bytes at the front, low byte first.
fn put(out: &mut [u8], n: u32)
    requires { 4 ≤ length out.old }
    ensures { out.new ≡ operation.bytes4 n ++ drop 4 out.old }
{
    out[..4].copy_from_slice(&n.to_le_bytes());
}

// The numbers from the front, as many as fit whole; the rest is untouched.
// A recursion: of a slice written through `chunks_exact_mut` no more than its length would be known.
#[tactic(auto, using(crate::proofs::Told::told_none, crate::proofs::Told::told_short, crate::proofs::Told::told_more))]
pub fn tell(out: &mut [u8], ns: &[u32])
    ensures { out.new ≡ told ns.now out.old }
{
    if let [n, others @ ..] = ns {
        if 4 <= out.len() {
            put(out, *n);
            tell(&mut out[4..], others);
        }
    }
}
