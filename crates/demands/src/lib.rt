// What is demanded of the planner and of the circuit, over the promises of the functions that answer: each function here makes their calls and promises what they mean together.
#![tactic(auto)]

ghost use Rattle.std.specs.Prelude.{◌≡◌, [], ◌≤◌, length, drop, Ok};
ghost use Rattle.paper.specs.Clauses as clauses;
ghost use Rattle.paper.specs.Circuit as circuit;
ghost use Rattle.paper.specs.Operations as operation;
ghost use Rattle.paper.specs.Answers.{compile_left, compile_rows, plan_left};
ghost use Rattle.sheet.specs.Contents.{contents};
ghost use Rattle.theory.specs.Flat.{Stored};
ghost use Rattle.sets.specs.Lent.{clauses_in};
ghost use Rattle.demands.specs.Demands as spec;
ghost use Rattle.demands.specs.Plans as plans;

use paper::Built;
use sets::Clauses;
use sheet::Sheet;
use theory::Filled;

// T(P) is the run: with a state and marks, the clauses in the arrays can be satisfied exactly if the run leads from a start to the goal.
pub fn theory_is_the_run(sheet: Sheet, n: usize, literals: &mut [u16], ends: &mut [u16]) -> Filled
    requires { (n ≤ 8) × (18720 ≤ length literals.old) × (6896 ≤ length ends.old) }
    ensures stored { Stored literals.new ends.new result (clauses.theory (contents sheet.entry) n) [] }
    ensures behind { (drop result.literals literals.new ≡ drop result.literals literals.old) × (drop result.clauses ends.new ≡ drop result.clauses ends.old) }
    ensures runs { spec.Runs (contents sheet.entry) n literals.new ends.new result }
{
    theory::theory(sheet, n, literals, ends)
}

// The circuit is the projection: with any variables forgotten, its root is true exactly if the values of the others extend to an assignment that satisfies the clauses.
pub fn circuit_is_the_projection(clauses: Clauses, table: &mut [u8], limit: u32) -> Built
    requires { (length clauses.literals.now ≤ 18720) × (length clauses.ends.now ≤ 6896) }
    ensures built { result ≡ circuit.built_of limit (operation.room table.old) (clauses_in clauses.entry) }
    ensures rows { table.new ≡ compile_rows (circuit.compile (clauses_in clauses.entry)).table table.old (Ok result) }
    ensures projects { spec.Projects (clauses_in clauses.entry) table.new result }
{
    compile::compile_clauses(clauses, table, limit)
}

// What a call of plan answered: its code, and the numbers behind the place.
#[derive(Clone, Copy)]
pub struct Told {
    pub code: u32,
    pub horizon: u32,
    pub effort: u32,
    pub rows: u32,
    pub root: u32,
}

// Demand 2: plan any sheet, with any limit and buffers; the answer is the least horizon and the first schedule, or says why there is none.
pub fn demand2(sheet: &[u8], limit: u32, rows: &mut [u8], schedule: &mut [u8]) -> Told
    ensures told { result ≡ plans.told_of sheet.now limit rows.old schedule.old }
    ensures filled { rows.new ≡ (plan_left sheet.now limit rows.old schedule.old spec.twenty).rows }
    ensures scheduled { schedule.new ≡ (plan_left sheet.now limit rows.old schedule.old spec.twenty).schedule }
    ensures demand2 { plans.Demand2 sheet.now limit (operation.room rows.old) (length schedule.old) result schedule.new }
{
    let mut told = [0u8; 20];
    let code = bringup::bringup_plan(sheet, limit, rows, schedule, &mut told);
    Told {
        code,
        horizon: bits::long(&told, 4),
        effort: bits::long(&told, 8),
        rows: bits::long(&told, 12),
        root: bits::long(&told, 16),
    }
}

// What two calls answered: the code of compile, the code of judge, the value that judge gave.
#[derive(Clone, Copy)]
pub struct Asked {
    pub compiled: u32,
    pub judged: u32,
    pub value: u32,
}

// Demand 3: compile a sheet, then judge the rows that it left, by the count and root that it told, in any state and with any marks.
pub fn demand3(
    sheet: &[u8],
    horizon: u32,
    limit: u32,
    rows: &mut [u8],
    state: u32,
    masks: &[u8],
) -> Asked
    ensures asked { result ≡ spec.asked_of sheet.now horizon limit rows.old state masks.now }
    ensures filled { rows.new ≡ (compile_left sheet.now horizon limit rows.old spec.twenty).rows }
    ensures demand3 { spec.Demand3 sheet.now horizon state masks.now result }
{
    let mut told = [0u8; 20];
    let compiled = bringup::bringup_compile(sheet, horizon, limit, rows, &mut told);
    // Count and root are the numbers 3 and 4 of the answer, four bytes each.
    let count = bits::long(&told, 12);
    let root = bits::long(&told, 16);
    let mut answer = [0u8; 8];
    let judged = bringup::bringup_judge(
        sheet,
        horizon,
        rows,
        count,
        root,
        state,
        masks,
        &mut answer,
    );
    let value = bits::long(&answer, 4);
    Asked {
        compiled,
        judged,
        value,
    }
}
