// Runs: steps done, the state reached, the goal.
use crate::cases::try_run;
use crate::sheets::{
    alike, chain, clash, d, d_goals, d_need, d_start, gated, longest, plain, swap, three,
    two_actions,
};
use std::io;

// Schedules of D, the empty one among them.
pub fn schedules(rt: &impl Print) -> io::Result<()> {
    try_run(rt, "D, 2 1 2 from 1", d(), 1, &[2, 1, 2])?;
    try_run(rt, "D, 1 2 from 3", d(), 3, &[1, 2])?;
    try_run(rt, "D, 2 from 1", d(), 1, &[2])?;
    try_run(rt, "D, 2 from 0", d(), 0, &[2])?;
    try_run(rt, "D, nothing from 2", d(), 2, &[])?;
    try_run(rt, "D, nothing from 1", d(), 1, &[])
}

// Idle entries, and the most entries there may be.
pub fn idle(rt: &impl Print) -> io::Result<()> {
    try_run(rt, "D, 0 from 3", d(), 3, &[0])?;
    try_run(rt, "D, 0 0 from 1", d(), 1, &[0, 0])?;
    try_run(rt, "D, 0 1 0 2 0 from 1", d(), 1, &[0, 1, 0, 2, 0])?;
    try_run(
        rt,
        "D, 2 2 2 2 1 1 0 2 from 1",
        d(),
        1,
        &[2, 2, 2, 2, 1, 1, 0, 2],
    )?;
    try_run(rt, "D, 8 idle from 2", d(), 2, &[0; 8])
}

// The state need not be a start, nor need there be one; goals of each kind.
pub fn clauses(rt: &impl Print) -> io::Result<()> {
    try_run(rt, "start (0,1), 1 2 from 1", d_start(0, 1), 1, &[1, 2])?;
    try_run(rt, "start (2,0), nothing from 1", d_start(2, 0), 1, &[])?;
    try_run(rt, "blank start, 1 2 from 3", d_start(0, 0), 3, &[1, 2])?;
    try_run(rt, "blank goal, 1 2 from 3", d().put(28, 0), 3, &[1, 2])?;
    try_run(
        rt,
        "goal (1,1), 1 from 0",
        d().put(28, 1).put(30, 1),
        0,
        &[1],
    )?;
    try_run(rt, "two goals, 1 2 from 0", d_goals(1, 0), 0, &[1, 2])?;
    try_run(rt, "two goals, 2 from 0", d_goals(0, 1), 0, &[2])
}

// Needs that are met and needs that are not, which fail the schedule even in a state that is wanted.
pub fn needs(rt: &impl Print) -> io::Result<()> {
    try_run(rt, "D, need0 1, 2 1 2 from 1", d_need(), 1, &[2, 1, 2])?;
    try_run(rt, "D, need0 1, 1 2 from 1", d_need(), 1, &[1, 2])?;
    try_run(rt, "need (1,0), 1 1 2 from 0", gated(1, 0), 0, &[1, 1, 2])?;
    try_run(rt, "need (1,0), 2 from 2", gated(1, 0), 2, &[2])?;
    try_run(rt, "need (1,0), 2 from 3", gated(1, 0), 3, &[2])?;
    try_run(rt, "need (1,0), 2 from 1", gated(1, 0), 1, &[2])?;
    try_run(rt, "need (0,1), 2 from 3", gated(0, 1), 3, &[2])?;
    try_run(rt, "need (0,1), 2 from 2", gated(0, 1), 2, &[2])?;
    try_run(rt, "need (0,2), 2 1 2 from 0", gated(0, 2), 0, &[2, 1, 2])
}

// Needs of two facts.
pub fn double_needs(rt: &impl Print) -> io::Result<()> {
    try_run(rt, "need (3,0), 2 from 2", gated(3, 0), 2, &[2])?;
    try_run(rt, "need (3,0), 2 from 3", gated(3, 0), 3, &[2])?;
    try_run(rt, "need (0,3), 2 from 2", gated(0, 3), 2, &[2])?;
    try_run(rt, "need (0,3), 2 from 0", gated(0, 3), 0, &[2])?;
    try_run(rt, "need (2,1), 2 from 3", gated(2, 1), 3, &[2])?;
    try_run(rt, "need (2,1), 2 from 2", gated(2, 1), 2, &[2])
}

// Clashes, and the same rules where they do not clash.
pub fn clashes(rt: &impl Print) -> io::Result<()> {
    try_run(rt, "clash, 1 from 1", clash(), 1, &[1])?;
    try_run(rt, "clash, 1 from 3", clash(), 3, &[1])?;
    try_run(rt, "clash, 1 from 2", clash(), 2, &[1])?;
    try_run(rt, "clash, 0 1 from 1", clash(), 1, &[0, 1])?;
    try_run(rt, "clash, nothing from 1", clash(), 1, &[])
}

// Clashing rules and a need: either fails the schedule.
pub fn clashes_and_needs(rt: &impl Print) -> io::Result<()> {
    try_run(
        rt,
        "clash, need (2,0), 1 from 1",
        clash().put(0, 2),
        1,
        &[1],
    )?;
    try_run(
        rt,
        "clash, need (2,0), 1 from 3",
        clash().put(0, 2),
        3,
        &[1],
    )?;
    try_run(
        rt,
        "clash, need (2,0), 1 from 2",
        clash().put(0, 2),
        2,
        &[1],
    )?;
    try_run(
        rt,
        "clash, need (2,0), 1 from 0",
        clash().put(0, 2),
        0,
        &[1],
    )
}

// Rules that clash across a third one, and rules of two actions, which do not clash.
pub fn apart(rt: &impl Print) -> io::Result<()> {
    try_run(rt, "three rules, 1 from 0", three(), 0, &[1])?;
    try_run(rt, "three rules, 1 from 2", three(), 2, &[1])?;
    try_run(rt, "three rules, 1 1 from 2", three(), 2, &[1, 1])?;
    try_run(
        rt,
        "two actions, 1 2 1 from 2",
        two_actions(),
        2,
        &[1, 2, 1],
    )
}

// Conditions are read at the moment before; rules that write the same do not clash.
pub fn rules_together(rt: &impl Print) -> io::Result<()> {
    try_run(rt, "swap, 1 from 0", swap(), 0, &[1])?;
    try_run(rt, "swap, 1 from 1", swap(), 1, &[1])?;
    try_run(rt, "swap, 1 from 2", swap(), 2, &[1])?;
    try_run(rt, "swap, 1 from 3", swap(), 3, &[1])?;
    try_run(rt, "swap, 1 1 1 from 1", swap(), 1, &[1, 1, 1])?;
    try_run(rt, "chain, 1 from 0", chain(), 0, &[1])?;
    try_run(rt, "chain, 1 1 from 0", chain(), 0, &[1, 1])?;
    try_run(rt, "alike, 1 from 2", alike(), 2, &[1])?;
    try_run(rt, "alike, 1 from 1", alike(), 1, &[1])
}

// An action without rules, twelve facts, and every count at its bound.
pub fn sizes(rt: &impl Print) -> io::Result<()> {
    try_run(rt, "no rules, 1 from 1", plain(1), 1, &[1])?;
    try_run(rt, "F 12, nothing from 4095", plain(12), 0x0FFF, &[])?;
    try_run(rt, "F 12, 1 from 4095", plain(12), 0x0FFF, &[1])?;
    try_run(rt, "the longest, 12 from 4095", longest(), 0x0FFF, &[12])?;
    try_run(
        rt,
        "the longest, 12 12 from 4095",
        longest(),
        0x0FFF,
        &[12, 12],
    )?;
    try_run(rt, "the longest, 1 from 4094", longest(), 0x0FFE, &[1])?;
    try_run(
        rt,
        "the longest, 1 2 3 4 5 6 11 1 from 2046",
        longest(),
        0x07FE,
        &[1, 2, 3, 4, 5, 6, 11, 1],
    )?;
    try_run(rt, "the longest, nothing from 2046", longest(), 0x07FE, &[])
}
