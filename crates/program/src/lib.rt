// The program's job on slices: the bytes that it read, and the line that it prints for them.
#![tactic(auto)]

ghost use Rattle.std.specs.Prelude.{◌≡◌, ◌++◌, ◌≤◌, length, drop};
ghost use Rattle.paper.specs.Operations as operation;
ghost use Rattle.paper.specs.Program as paper;
ghost use Rattle.line.specs.Written.{Writes};
ghost use Rattle.program.specs.Entries as spec;

use paper::{Fault, Planned};

// The effort limit of every plan.
const EFFORT: u32 = 1_000_000;

// The bytes of 4,000 rows.
const ROWS: usize = 64_000;

// A sheet has at most so many bytes.
const LONGEST: usize = 4_608;

// How many entries an answer has: a plan has one for each step.
fn entries(p: Result<Planned, Fault>) -> usize
    ensures { result ≡ spec.entries p }
{
    match p {
        Ok(Planned::Found { horizon, .. }) => horizon as usize,
        _ => 0,
    }
}

// The line for a sheet: it is planned with an effort limit of 1,000,000, in room for 4,000 rows.
fn plan_line(input: &[u8], out: &mut [u8]) -> usize
    requires { 128 ≤ length out.old }
    ensures { Writes 0 (paper.plan_line (operation.plan_of input.now 1000000 4000 8)) out.old out.new result }
{
    let mut rows = [0u8; ROWS];
    let mut schedule = [0u8; 8];
    let p = plan::plan(input, EFFORT, &mut rows, &mut schedule);
    let numbers = answers::plan_numbers(p);
    let code = answers::plan_code(p);
    line::line(code, numbers[0], numbers[1], &schedule[..entries(p)], out)
}

// What the program prints for its input, and how many bytes that are; input over 4,608 bytes is no sheet.
pub fn print(input: &[u8], out: &mut [u8]) -> usize
    requires { 128 ≤ length out.old }
    ensures printed { out.new ≡ paper.printed input.now ++ drop (length (paper.printed input.now)) out.old }
    ensures length { result ≡ length (paper.printed input.now) }
    ensures fits { result ≤ length out.new }
{
    if input.len() > LONGEST {
        return line::line(3, 0, 0, &[], out);
    }
    plan_line(input, out)
}
