// The operations for C, as functions of a static library: each is the function of `bringup` with its name, and has its clauses.
#![tactic(auto)]

ghost use Rattle.std.specs.Prelude.{◌≡◌};
ghost use Rattle.paper.specs.Answers.{check_left, run_left, compile_left, judge_left, plan_left};

// Check: place and count into the answer.
#[unsafe(no_mangle)]
pub extern "C" fn bringup_check(sheet: &[u8], answer: &mut [u8]) -> u32
    ensures code { result ≡ (check_left sheet.now answer.old).code }
    ensures written { answer.new ≡ (check_left sheet.now answer.old).answer }
{
    bringup::bringup_check(sheet, answer)
}

// Run: place, steps done, the state reached and the goal into the answer.
#[unsafe(no_mangle)]
pub extern "C" fn bringup_run(sheet: &[u8], state: u32, schedule: &[u8], answer: &mut [u8]) -> u32
    ensures code { result ≡ (run_left sheet.now state schedule.now answer.old).code }
    ensures written { answer.new ≡ (run_left sheet.now state schedule.now answer.old).answer }
{
    bringup::bringup_run(sheet, state, schedule, answer)
}

// Compile: place, horizon, effort, rows and root into the answer, the circuit into the rows.
#[unsafe(no_mangle)]
pub extern "C" fn bringup_compile(
    sheet: &[u8],
    horizon: u32,
    limit: u32,
    rows: &mut [u8],
    answer: &mut [u8],
) -> u32
    ensures code { result ≡ (compile_left sheet.now horizon limit rows.old answer.old).code }
    ensures written { answer.new ≡ (compile_left sheet.now horizon limit rows.old answer.old).answer }
    ensures filled { rows.new ≡ (compile_left sheet.now horizon limit rows.old answer.old).rows }
{
    bringup::bringup_compile(sheet, horizon, limit, rows, answer)
}

// Judge: place and the root's value into the answer.
#[unsafe(no_mangle)]
pub extern "C" fn bringup_judge(
    sheet: &[u8],
    horizon: u32,
    rows: &[u8],
    count: u32,
    root: u32,
    state: u32,
    masks: &[u8],
    answer: &mut [u8],
) -> u32
    ensures code { result ≡ (judge_left sheet.now horizon rows.now count root state masks.now answer.old).code }
    ensures written { answer.new ≡ (judge_left sheet.now horizon rows.now count root state masks.now answer.old).answer }
{
    bringup::bringup_judge(sheet, horizon, rows, count, root, state, masks, answer)
}

// Plan: place, horizon, effort, rows and root into the answer, the last circuit into the rows, on 0 the entries into the schedule.
#[unsafe(no_mangle)]
pub extern "C" fn bringup_plan(
    sheet: &[u8],
    limit: u32,
    rows: &mut [u8],
    schedule: &mut [u8],
    answer: &mut [u8],
) -> u32
    ensures code { result ≡ (plan_left sheet.now limit rows.old schedule.old answer.old).code }
    ensures written { answer.new ≡ (plan_left sheet.now limit rows.old schedule.old answer.old).answer }
    ensures filled { rows.new ≡ (plan_left sheet.now limit rows.old schedule.old answer.old).rows }
    ensures scheduled { schedule.new ≡ (plan_left sheet.now limit rows.old schedule.old answer.old).schedule }
{
    bringup::bringup_plan(sheet, limit, rows, schedule, answer)
}
