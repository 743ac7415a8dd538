// One step, a schedule from a state, and the operation run.
#![tactic(auto)]

ghost use Rattle.std.specs.Prelude.{◌≡◌, true, not, ◌&&◌, ◌||◌, List, [], ℕ, ◌-◌, ◌^◌, ◌≤◌, ◌<◌, length, get_or, leb};
ghost use Rattle.paper.specs.Counting.{bit, some_below};
ghost use Rattle.paper.specs.Lists.{all};
ghost use Rattle.paper.specs.Sheet as decoded;
ghost use Rattle.paper.specs.Operations as operation;
ghost use Rattle.sheet.specs.Contents.{contents, sheet_in};
ghost use Rattle.paper.specs.Step as paper;
ghost use Rattle.sheet.specs.Writes.{Writes};
ghost use Rattle.run.specs.Firing as spec;

use paper::{Ended, Failure, Fault, Moment, Run};
use sheet::{Parts, Sheet};

// Every fact in one is 1 and every fact in nil is 0, however many facts the masks are of.
fn meets(one: u16, nil: u16, s: u16) -> bool
    ensures { (F : ℕ) → one < 2 ^ F → nil < 2 ^ F → result ≡ paper.meets F s one nil }
{
    (one & s == one) & (nil & s == 0)
}

// The rule is one of action a, and its conditions hold.
fn fires(rule: [u16; 5], a: u16, s: u16) -> bool
    ensures { (F : ℕ) → get_or rule 1 0 < 2 ^ F → get_or rule 2 0 < 2 ^ F → result ≡ spec.fires F rule a s }
{
    let own = rule[0] == a;
    own & meets(rule[1], rule[2], s)
}

// Number i of the rule where it fires, no fact where it does not.
fn fired(rule: [u16; 5], a: u16, s: u16, i: usize) -> u16
    requires { i < 5 }
    ensures { (F k : ℕ) → get_or rule 1 0 < 2 ^ F → get_or rule 2 0 < 2 ^ F → bit result k ≡ (spec.fires F rule a s && bit (get_or rule i 0) k) }
{
    if fires(rule, a, s) {
        return rule[i];
    }
    0
}

// The facts that number i of the firing rules holds, together.
fn set_mask(rules: [[u16; 5]; 24], n: usize, a: u16, s: u16, i: usize) -> u16
    requires { (n ≤ 24) × (i < 5) }
    ensures { (F k : ℕ) → ((j : ℕ) → j < n → (get_or (get_or rules j []) 1 0 < 2 ^ F) × (get_or (get_or rules j []) 2 0 < 2 ^ F)) → bit result k ≡ some_below n (λ j. spec.fires F (get_or rules j []) a s && bit (get_or (get_or rules j []) i 0) k) }
{
    let mut mask = 0;
    for rule in &rules[..n] {
        mask |= fired(*rule, a, s, i);
    }
    mask
}

// Facts of ones become 1, facts of zeros become 0, the others stay.
fn apply(s: u16, ones: u16, zeros: u16) -> u16
    ensures { (k : ℕ) → k < 16 → bit result k ≡ (bit ones k || (bit s k && not (bit zeros k))) }
{
    ones | (s & !zeros)
}

// Action a, numbered from 1, in state s: needs before clash.
fn act(
    needs: [[u16; 2]; 12],
    rules: [[u16; 5]; 24],
    n: usize,
    a: usize,
    s: u16,
) -> Result<u16, Failure>
    requires { (n ≤ 24) × (1 ≤ a) × (a ≤ 12) }
    ensures { (p : decoded.Sheet) → Writes p needs rules n → a ≤ p.A → s < 2 ^ p.F → result ≡ paper.act p (a - 1) s }
{
    let i = a - 1;
    let need = needs[i];
    if !meets(need[0], need[1], s) {
        return Err(Failure::NeedUnmet);
    }
    let ones = set_mask(rules, n, a as u16, s, 3);
    let zeros = set_mask(rules, n, a as u16, s, 4);
    if ones & zeros != 0 {
        return Err(Failure::Clashed);
    }
    Ok(apply(s, ones, zeros))
}

// An entry of a schedule in state s: 0 is idle.
// The arrays stand beside their count, and `Writes` is a premise: a type that tied them to a sheet would ask callers for one.
pub fn step(
    needs: [[u16; 2]; 12],
    rules: [[u16; 5]; 24],
    n: usize,
    e: usize,
    s: u16,
) -> Result<u16, Failure>
    requires { (n ≤ 24) × (e ≤ 12) }
    ensures { (p : decoded.Sheet) → Writes p needs rules n → e ≤ p.A → s < 2 ^ p.F → result ≡ paper.step p e s }
{
    if e == 0 {
        return Ok(s);
    }
    act(needs, rules, n, e, s)
}

// A schedule from a state: a step that fails ends it.
pub fn walk(needs: [[u16; 2]; 12], rules: [[u16; 5]; 24], n: usize, schedule: &[u8], s: u16) -> Run
    requires { (n ≤ 24) × (length schedule.now ≤ 8) × ((i : ℕ) → i < length schedule.now → get_or schedule.now i 0 ≤ 12) }
    ensures { (result.done ≤ 8) × ((p : decoded.Sheet) → Writes p needs rules n → paper.entries_fit p schedule.now ≡ true → s < 2 ^ p.F → result ≡ paper.run p s schedule.now) }
{
    let mut state = s;
    let mut at = Moment::first();
    for entry in schedule {
        let now = at.step();
        let Ok(next) = step(needs, rules, n, usize::from(*entry), state) else {
            return Run {
                done: now.0,
                state,
                whole: false,
            };
        };
        state = next;
        at = now.after();
    }
    Run {
        done: at.0,
        state,
        whole: true,
    }
}

// Every entry is 0..a.
fn entries_fit(schedule: &[u8], a: usize) -> bool
    ensures { result ≡ all (λ e. leb e a) schedule.now }
{
    schedule.iter().all(|e| usize::from(*e) <= a)
}

// The state is one of F facts, and the schedule has 0..8 entries, each 0..A.
#[tactic(auto, unfolding(paper::specs::Operations::good_run, paper::specs::Step::entries_fit))]
fn good_run(parts: Parts, state: u32, schedule: &[u8]) -> bool
    ensures { result ≡ operation.good_run (sheet_in parts.entry) state schedule.now }
{
    sheet::fits(parts.facts(), state)
        && schedule.len() <= 8
        && entries_fit(schedule, parts.actions())
}

fn run_sheet(sheet: Sheet, state: u32, schedule: &[u8]) -> Result<Ended, Fault>
    ensures { result ≡ operation.run_sheet state schedule.now (contents sheet.entry) }
{
    if !good_run(sheet.parts, state, schedule) {
        return Err(Fault::BadCall);
    }
    let count = sheet.parts.trailer.rules;
    let r = walk(
        sheet.parts.needs(),
        sheet.parts.rules(),
        count,
        schedule,
        state as u16,
    );
    let goal = starts::is_goal(sheet.parts, r.state);
    Ok(Ended {
        done: r.done as u32,
        state: r.state,
        goal: r.whole & goal,
    })
}

// The operation run.
#[tactic(auto, unfolding(paper::specs::Operations::run_of))]
pub fn run(b: &[u8], state: u32, schedule: &[u8]) -> Result<Ended, Fault>
    ensures { result ≡ operation.run_of b.now state schedule.now }
{
    let sheet = Sheet::read(b)?;
    run_sheet(sheet, state, schedule)
}
