// How the variables of T(P) are numbered: the one place that knows. Facts are asked for by moment, actions and z by step.
#![tactic(auto)]

ghost use Rattle.std.specs.Prelude.{◌≡◌, ℕ, ◌+◌, ◌*◌, ◌≤◌, ◌<◌};
ghost use Rattle.paper.specs.Sheet.{Sheet, Bounded};
ghost use Rattle.paper.specs.Clauses as clauses;
ghost use Rattle.variables.specs.Numbering as spec;

use paper::{Moment, Step, Trailer};

// What judge takes a variable for: a fact of moment 0, an action of a step, or another one.
#[derive(Clone, Copy)]
pub enum Meaning {
    Start(usize),
    Action(Step, usize),
    Other,
}

// The counts of a trailer within their bounds: they alone say which number a variable has.
#[derive(Clone, Copy)]
pub struct Numbering {
    pub trailer: Trailer,
    pub ghost bounded: { Bounded trailer },
}

impl Numbering {
    // How many variables a step has.
    fn stride(self) -> usize
        ensures { (result ≡ spec.stride_of self.trailer) × (1 ≤ result) × (result ≤ 48) }
    {
        self.trailer.actions + self.trailer.rules + self.trailer.facts
    }

    // Where the variables of moment i, and of the step that follows it, begin.
    fn base(self, i: usize) -> usize
        requires { i ≤ 8 }
        ensures { (result ≡ i * spec.stride_of self.trailer) × (result ≤ 384) }
    {
        i * self.stride()
    }

    // The variable of fact k at a moment.
    #[tactic(auto, using(crate::proofs::Laws::fact_is))]
    pub fn fact(self, m: Moment, k: usize) -> u16
        requires { (m.0 ≤ 8) × (k < 12) }
        ensures { ((p : Sheet) (n : ℕ) → spec.Counts p self.trailer → result ≡ clauses.fact p n m k) × (result ≤ 396) }
    {
        (self.base(m.0) + k + 1) as u16
    }

    // The variable of action a, from 0, at a step.
    #[tactic(auto, using(crate::proofs::Laws::action_is))]
    pub fn action(self, i: Step, a: usize) -> u16
        requires { (i.0 < 8) × (a < 12) }
        ensures { ((p : Sheet) (n : ℕ) → spec.Counts p self.trailer → result ≡ clauses.action p n i a) × (result ≤ 408) }
    {
        (self.base(i.0) + self.trailer.facts + a + 1) as u16
    }

    // The variable z of rule j at a step.
    #[tactic(auto, using(crate::proofs::Laws::z_is))]
    pub fn z(self, i: Step, j: usize) -> u16
        requires { (i.0 < 8) × (j < 24) }
        ensures { ((p : Sheet) (n : ℕ) → spec.Counts p self.trailer → result ≡ clauses.z p n i j) × (result ≤ 432) }
    {
        (self.base(i.0) + self.trailer.facts + self.trailer.actions + j + 1) as u16
    }

    // How many variables there are at horizon n.
    #[tactic(auto, using(crate::proofs::Laws::total_is))]
    pub fn total(self, n: usize) -> u32
        requires { n ≤ 8 }
        ensures { ((p : Sheet) → spec.Counts p self.trailer → result ≡ clauses.variables p n) × (result ≤ 396) }
    {
        (self.trailer.facts + self.base(n)) as u32
    }

    // What the variable x + 1 stands for.
    #[tactic(auto, using(crate::proofs::Laws::naming))]
    pub fn named(self, x: usize) -> Meaning
        ensures { result ≡ spec.name_of self.trailer x }
    {
        let t = self.trailer;
        if x < t.facts {
            return Meaning::Start(x);
        }
        let past = x - t.facts;
        let width = self.stride();
        let k = past % width;
        if k < t.actions {
            return Meaning::Action(Step(past / width), k);
        }
        Meaning::Other
    }
}
