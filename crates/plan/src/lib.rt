// The operation plan: horizons in order, both limits afresh at each; the first that gives 7, 8 or a schedule ends it.
#![tactic(auto)]

ghost use Rattle.std.specs.Prelude.{◌≡◌, ◌++◌, ◌≤◌, length, take, drop, Ok};
ghost use Rattle.paper.specs.Operations as operation;
ghost use Rattle.paper.specs.Answers.{plan_rows, plan_schedule};
ghost use Rattle.sheet.specs.Contents.{contents};
ghost use Rattle.prefixes.specs.Words.{Starts};
ghost use Rattle.plan.specs.Horizons as spec;

use paper::{Built, Fault, Limit, Planned, Whole};
use prefixes::{Circuit, Prefix};
use sheet::Sheet;
use variables::Numbering;

// A horizon that was tried: what compile answered, and what the search found in a whole circuit: eight entries, as nothing is allocated, of which as
// many count as the horizon has steps.
#[derive(Clone, Copy)]
pub struct Tried {
    pub built: Built,
    pub found: Option<[u8; 8]>,
}

// Compile at horizon n, and where the circuit is whole look for the first plan. A horizon is a number, as the definitions count it, so its bound is a clause.
fn try_horizon(
    sheet: Sheet,
    n: usize,
    limit: u32,
    table: &mut [u8],
    starts: &[u64; 64],
    values: &mut [u64; 65536],
) -> Tried
    requires { (n ≤ 8) × Starts (contents sheet) starts.now }
    ensures { spec.Tries (contents sheet.entry) limit table.old n result table.new }
{
    let built = compile::compile_theory(sheet, n, table, limit);
    match built {
        Err(_) => Tried { built, found: None },
        Ok(whole) => {
            let numbers = Numbering {
                trailer: sheet.parts.trailer,
            };
            let circuit = Circuit {
                numbers,
                steps: n,
                table,
                count: whole.rows,
                root: whole.root,
                starts,
            };
            let found = seek::seek(&circuit, values, Prefix::none(), n);
            Tried { built, found }
        }
    }
}

// The planner ends with this horizon: a limit was passed, or there is a plan.
fn ends(tried: Tried) -> bool
    ensures { result ≡ spec.ends tried.built tried.found }
{
    match tried.built {
        Err(_) => true,
        Ok(_) => tried.found.is_some(),
    }
}

// The first n entries into the schedule buffer.
fn copy(out: &mut [u8], s: [u8; 8], n: usize)
    requires { (n ≤ 8) × (n ≤ length out.old) }
    ensures { out.new ≡ take n s ++ drop n out.old }
{
    out[..n].copy_from_slice(&s[..n]);
}

// The answer where the circuit is whole, with the plan's entries in the schedule buffer if there is a plan.
fn finish_whole(n: usize, circuit: Whole, found: Option<[u8; 8]>, out: &mut [u8]) -> Planned
    requires { (n ≤ 8) × (n ≤ length out.old) }
    ensures answer { result ≡ spec.plan_or_none n circuit found }
    ensures schedule { out.new ≡ spec.written n found out.old }
{
    let horizon = n as u32;
    match found {
        None => Planned::NoPlan { horizon, circuit },
        Some(entries) => {
            copy(out, entries, n);
            Planned::Found { horizon, circuit }
        }
    }
}

// The answer and the schedule buffer at the last horizon that was tried.
fn finish(n: usize, tried: Tried, out: &mut [u8]) -> Planned
    requires { (n ≤ 8) × (n ≤ length out.old) }
    ensures answer { result ≡ spec.closing n tried.built tried.found }
    ensures schedule { out.new ≡ spec.scheduled n tried.built tried.found out.old }
{
    let horizon = n as u32;
    match tried.built {
        Err(Limit::TooMuch) => Planned::TooMuch { horizon },
        Err(Limit::NoRoom(effort)) => Planned::NoRoom { horizon, effort },
        Ok(circuit) => finish_whole(n, circuit, tried.found, out),
    }
}

// Horizons 0, 1, .. up to the sheet's. Limit, table and schedule go down to here one by one, as the call lends them.
fn horizons(sheet: Sheet, limit: u32, table: &mut [u8], schedule: &mut [u8]) -> Planned
    requires { sheet.parts.trailer.horizon ≤ length schedule.old }
    ensures { spec.Plans table.old schedule.old (Ok (operation.plan_from (contents sheet.entry) limit (operation.room table.old) sheet.entry.parts.trailer.horizon 0)) (Ok result) table.new schedule.new }
{
    let starts = starts::start_words(sheet.parts);
    let mut values = [0u64; 65536];
    let last = sheet.parts.trailer.horizon;
    for n in 0..last {
        let tried = try_horizon(sheet, n, limit, table, &starts, &mut values);
        if ends(tried) {
            return finish(n, tried, schedule);
        }
    }
    // The last horizon stands behind the loop: it always answers, where a loop over it too would have an end without an answer.
    let tried = try_horizon(sheet, last, limit, table, &starts, &mut values);
    finish(last, tried, schedule)
}

// A sheet that was accepted: a schedule buffer of fewer than H bytes is refused, and so is a sheet without a start.
fn plan_sheet(
    sheet: Sheet,
    limit: u32,
    table: &mut [u8],
    schedule: &mut [u8],
) -> Result<Planned, Fault>
    ensures { spec.Plans table.old schedule.old (operation.plan_sheet limit (operation.room table.old) (length schedule.old) (contents sheet.entry)) result table.new schedule.new }
{
    if schedule.len() < sheet.parts.trailer.horizon {
        return Err(Fault::ShortSchedule);
    }
    if starts::start_count(sheet.parts) == 0 {
        return Err(Fault::NoStart);
    }
    Ok(horizons(sheet, limit, table, schedule))
}

// The operation plan.
#[tactic(auto, unfolding(paper::specs::Operations::plan_of))]
pub fn plan(b: &[u8], limit: u32, table: &mut [u8], schedule: &mut [u8]) -> Result<Planned, Fault>
    ensures answer { result ≡ operation.answer_of (operation.plan_of b.now limit (operation.room table.old) (length schedule.old)) }
    ensures rows { table.new ≡ plan_rows table.old (operation.plan_of b.now limit (operation.room table.old) (length schedule.old)) }
    ensures schedule { schedule.new ≡ plan_schedule schedule.old (operation.plan_of b.now limit (operation.room table.old) (length schedule.old)) }
{
    let sheet = Sheet::read(b)?;
    plan_sheet(sheet, limit, table, schedule)
}
