// Check and run, called as C calls them, on sheets, schedules and answer slices: one line a case.
#![tactic(auto)]

mod accepted;
mod bad_calls;
mod bad_rows;
mod cases;
mod lengths;
mod refused;
mod runs;
mod sheets;

use std::io;

// Check: accepted sheets, then 1, 2, 3 and 4.
fn checks(rt: &impl Print) -> io::Result<()> {
    accepted::starts(rt)?;
    accepted::goals_and_sizes(rt)?;
    refused::unmarked(rt)?;
    refused::unbounded(rt)?;
    refused::bounded(rt)?;
    refused::disagreeing(rt)?;
    bad_rows::high_writes(rt)?;
    bad_rows::high_clauses(rt)?;
    bad_rows::high_at_bounds(rt)?;
    bad_rows::overlaps(rt)?;
    bad_rows::actions(rt)?;
    bad_rows::two_rows(rt)
}

// Run: schedules that are run, then 10.
fn schedules(rt: &impl Print) -> io::Result<()> {
    runs::schedules(rt)?;
    runs::idle(rt)?;
    runs::clauses(rt)?;
    runs::needs(rt)?;
    runs::double_needs(rt)?;
    runs::clashes(rt)?;
    runs::clashes_and_needs(rt)?;
    runs::apart(rt)?;
    runs::rules_together(rt)?;
    runs::sizes(rt)?;
    bad_calls::states(rt)?;
    bad_calls::entries(rt)?;
    bad_calls::refused_sheets(rt)
}

fn main(rt: HostRuntime) -> io::Result<()> {
    checks(&rt)?;
    schedules(&rt)?;
    lengths::lengths(&rt)
}
