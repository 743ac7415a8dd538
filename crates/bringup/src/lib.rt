// The operations as C calls them, which `bringup_c` exports: numbers and byte slices in; the code returned, the numbers written into the answer slice.
#![tactic(auto, unfolding(paper::specs::Answers::check_left, paper::specs::Answers::run_left, paper::specs::Answers::compile_left, paper::specs::Answers::judge_left, paper::specs::Answers::plan_left))]

ghost use Rattle.std.specs.Prelude.{◌≡◌};
ghost use Rattle.paper.specs.Answers.{check_left, run_left, compile_left, judge_left, plan_left};

// Check: place and count into the answer.
pub fn bringup_check(sheet: &[u8], answer: &mut [u8]) -> u32
    ensures code { result ≡ (check_left sheet.now answer.old).code }
    ensures written { answer.new ≡ (check_left sheet.now answer.old).answer }
{
    let c = starts::check(sheet);
    let numbers = answers::check_numbers(c);
    bits::tell(answer, &numbers);
    answers::code(c)
}

// Run: place, steps done, the state reached and the goal into the answer.
pub fn bringup_run(sheet: &[u8], state: u32, schedule: &[u8], answer: &mut [u8]) -> u32
    ensures code { result ≡ (run_left sheet.now state schedule.now answer.old).code }
    ensures written { answer.new ≡ (run_left sheet.now state schedule.now answer.old).answer }
{
    let e = run::run(sheet, state, schedule);
    let numbers = answers::run_numbers(e);
    bits::tell(answer, &numbers);
    answers::code(e)
}

// Compile: place, horizon, effort, rows and root into the answer, the circuit into the rows.
pub fn bringup_compile(
    sheet: &[u8],
    horizon: u32,
    limit: u32,
    rows: &mut [u8],
    answer: &mut [u8],
) -> u32
    ensures code { result ≡ (compile_left sheet.now horizon limit rows.old answer.old).code }
    ensures written { answer.new ≡ (compile_left sheet.now horizon limit rows.old answer.old).answer }
    ensures filled { rows.new ≡ (compile_left sheet.now horizon limit rows.old answer.old).rows }
{
    let c = compile::compile(sheet, horizon, limit, rows);
    let numbers = answers::compile_numbers(horizon, c);
    bits::tell(answer, &numbers);
    answers::compile_code(c)
}

// Judge: place and the root's value into the answer.
pub fn bringup_judge(
    sheet: &[u8],
    horizon: u32,
    rows: &[u8],
    count: u32,
    root: u32,
    state: u32,
    masks: &[u8],
    answer: &mut [u8],
) -> u32
    ensures code { result ≡ (judge_left sheet.now horizon rows.now count root state masks.now answer.old).code }
    ensures written { answer.new ≡ (judge_left sheet.now horizon rows.now count root state masks.now answer.old).answer }
{
    let j = judge::judge(sheet, horizon, rows, count, root, state, masks);
    let numbers = answers::judge_numbers(j);
    bits::tell(answer, &numbers);
    answers::code(j)
}

// Plan: place, horizon, effort, rows and root into the answer, the last circuit into the rows, on 0 the entries into the schedule.
pub fn bringup_plan(
    sheet: &[u8],
    limit: u32,
    rows: &mut [u8],
    schedule: &mut [u8],
    answer: &mut [u8],
) -> u32
    ensures code { result ≡ (plan_left sheet.now limit rows.old schedule.old answer.old).code }
    ensures written { answer.new ≡ (plan_left sheet.now limit rows.old schedule.old answer.old).answer }
    ensures filled { rows.new ≡ (plan_left sheet.now limit rows.old schedule.old answer.old).rows }
    ensures scheduled { schedule.new ≡ (plan_left sheet.now limit rows.old schedule.old answer.old).schedule }
{
    let p = plan::plan(sheet, limit, rows, schedule);
    let numbers = answers::plan_numbers(p);
    bits::tell(answer, &numbers);
    answers::plan_code(p)
}
