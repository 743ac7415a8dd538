// The planner's search: a step's entries in order, then one step fewer left; a prefix that cannot succeed from every start is dropped.
#![tactic(auto)]

ghost use Rattle.std.specs.Prelude.{◌+◌, ◌≤◌};
ghost use Rattle.paper.specs.Sheet as paper;
ghost use Rattle.prefixes.specs.Circuits.{Of, fixed_steps, passes_of};
ghost use Rattle.seek.specs.Seeking.{Says, entries_of};

use prefixes::{Circuit, Prefix};

// The first schedule, if there is one, that begins with the steps fixed and has so many steps more.
pub fn seek(
    circuit: &Circuit,
    values: &mut [u64; 65536],
    prefix: Prefix,
    left: usize,
) -> Option<[u8; 8]>
    requires { prefix.len + left ≤ 8 }
    ensures { (p : paper.Sheet) → Of circuit.now p → Says (passes_of circuit.now p) circuit.now.numbers.trailer.actions left (fixed_steps prefix) (entries_of (prefix.len + left) result) }
{
    if !circuit.passes(prefix, values) {
        return None;
    }
    if left == 0 {
        return Some(prefix.entries);
    }
    for e in 0..=circuit.numbers.trailer.actions {
        let found = seek(circuit, values, prefix.then(e as u8), left - 1);
        if found.is_some() {
            return found;
        }
    }
    None
}
