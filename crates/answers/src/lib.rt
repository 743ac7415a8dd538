// What comes back: the code and the numbers of an answer.
#![tactic(auto)]

ghost use Rattle.std.specs.Prelude.{◌≡◌};
ghost use Rattle.paper.specs.Answers.{code, check_numbers, run_numbers, compile_code, compile_numbers, judge_numbers, plan_code, plan_numbers};

use paper::{Built, Ended, Fault, Limit, Planned};

// Check, run and judge: the refusal's number, or 0.
pub fn code<T: Copy>(answer: Result<T, Fault>) -> u32
    ensures { result ≡ code answer }
{
    match answer {
        Ok(_) => 0,
        Err(f) => f.number(),
    }
}

// Place and count.
pub fn check_numbers(starts: Result<u32, Fault>) -> [u32; 2]
    ensures { result ≡ check_numbers starts }
{
    match starts {
        Ok(n) => [0, n],
        Err(f) => [f.place(), 0],
    }
}

// Place, steps done, the state reached, and the goal as 1 or 0.
pub fn run_numbers(end: Result<Ended, Fault>) -> [u32; 4]
    ensures { result ≡ run_numbers end }
{
    match end {
        Ok(e) => [0, e.done, u32::from(e.state), u32::from(e.goal)],
        Err(f) => [f.place(), 0, 0, 0],
    }
}

// Compile: the number of the refusal or of the limit that was passed, or 0.
pub fn compile_code(c: Result<Built, Fault>) -> u32
    ensures { result ≡ compile_code c }
{
    match c {
        Err(f) => f.number(),
        Ok(Err(limit)) => limit.number(),
        Ok(Ok(_)) => 0,
    }
}

// Place, the horizon where a limit ended it, effort, rows and root.
pub fn compile_numbers(n: u32, c: Result<Built, Fault>) -> [u32; 5]
    ensures { result ≡ compile_numbers n c }
{
    match c {
        Err(f) => [f.place(), 0, 0, 0, 0],
        Ok(Err(Limit::TooMuch)) => [0, n, 0, 0, 0],
        Ok(Err(Limit::NoRoom(effort))) => [0, n, effort, 0, 0],
        Ok(Ok(circuit)) => [0, 0, circuit.effort, circuit.rows, circuit.root],
    }
}

// Place, and the value as 1 or 0.
pub fn judge_numbers(value: Result<bool, Fault>) -> [u32; 2]
    ensures { result ≡ judge_numbers value }
{
    match value {
        Ok(v) => [0, u32::from(v)],
        Err(f) => [f.place(), 0],
    }
}

// Plan: the refusal's number, 7 or 8 by the limit that was passed, 9 where there is no plan, or 0.
pub fn plan_code(p: Result<Planned, Fault>) -> u32
    ensures { result ≡ plan_code p }
{
    match p {
        Err(f) => f.number(),
        Ok(Planned::TooMuch { .. }) => 7,
        Ok(Planned::NoRoom { .. }) => 8,
        Ok(Planned::NoPlan { .. }) => 9,
        Ok(Planned::Found { .. }) => 0,
    }
}

// Place, horizon, effort, rows and root.
pub fn plan_numbers(p: Result<Planned, Fault>) -> [u32; 5]
    ensures { result ≡ plan_numbers p }
{
    match p {
        Err(f) => [f.place(), 0, 0, 0, 0],
        Ok(Planned::TooMuch { horizon }) => [0, horizon, 0, 0, 0],
        Ok(Planned::NoRoom { horizon, effort }) => [0, horizon, effort, 0, 0],
        Ok(Planned::NoPlan { horizon, circuit }) => {
            [0, horizon, circuit.effort, circuit.rows, circuit.root]
        }
        Ok(Planned::Found { horizon, circuit }) => {
            [0, horizon, circuit.effort, circuit.rows, circuit.root]
        }
    }
}
