// The clause maker: T(P) of a sheet at a horizon, the start clauses first, then the goal clauses, then step by step, literals by variable, in two flat
// arrays.
#![tactic(auto)]

ghost use Rattle.std.specs.Prelude.{◌≡◌, true, false, not, ◌&&◌, [], ◌∷◌, ◌++◌, map, ℕ, ◌+◌, ◌*◌, ◌≤◌, ◌<◌, ltb, length, get_or, drop};
ghost use Rattle.paper.specs.Lists.{only};
ghost use Rattle.paper.specs.Counting.{bit, before, after};
ghost use Rattle.paper.specs.Sheet as paper;
ghost use Rattle.paper.specs.Clauses as clauses;
ghost use Rattle.sheet.specs.Contents.{contents};
ghost use Rattle.sheet.specs.Reading.{fives, pairs_of, fives_of};
ghost use Rattle.theory.specs.Flat.{code_of, Stored};
ghost use Rattle.theory.specs.Making as spec;

use paper::{Moment, Step};
use sheet::Sheet;
use variables::Numbering;

// How much of the two arrays is filled.
#[derive(Clone, Copy)]
pub struct Filled {
    pub literals: u16,
    pub clauses: u16,
}

// A variable or its opposite. There are 48 variables a step at most, and at most eight steps and a moment.
#[derive(Clone, Copy)]
struct Literal {
    var: u16,
    sign: bool,
    ghost small: { var ≤ 432 },
}

// Two masks of facts: those that are 1, and those that are 0.
#[derive(Clone, Copy)]
struct Masks {
    one: u16,
    nil: u16,
}

// What the clause maker works on: the two arrays that are lent to it, with how much of them is filled, which `theory` hands back; the sheet, the
// numbers of its variables, and its needs and rules decoded.
#[derive(Drop)]
struct Builder<'a, 'b> {
    literals: &'a mut [u16],
    ends: &'a mut [u16],
    made: Filled,
    sheet: Sheet<'b>,
    numbers: Numbering,
    needs: [[u16; 2]; 12],
    rules: [[u16; 5]; 24],
    ghost numbers_are: { numbers.trailer ≡ sheet.parts.trailer },
    ghost needs_are: { needs ≡ pairs_of (contents sheet) },
    ghost rules_are: { rules ≡ fives_of (contents sheet) },
}

impl Literal {
    ghost use Rattle.theory.specs.Building.{as_lit};

    // As a number.
    fn code(self) -> u16
        ensures { result ≡ code_of (as_lit self) }
    {
        if self.sign {
            2 * self.var
        } else {
            2 * self.var + 1
        }
    }

    // The opposite.
    fn opposite(self) -> Literal
        ensures { as_lit result ≡ clauses.neg (as_lit self) }
    {
        Literal {
            var: self.var,
            sign: !self.sign,
        }
    }
}

impl Masks {
    ghost use Rattle.theory.specs.Building.{as_masks};

    // The masks of a clause of a sheet.
    #[tactic(auto, unfolding(paper::specs::Sheet::masks_at))]
    fn read(bytes: &[u8], at: usize) -> Masks
        requires { at + 4 ≤ length bytes.now }
        ensures { as_masks result ≡ paper.masks_at bytes.now at }
    {
        Masks {
            one: bits::word(bytes, at),
            nil: bits::word(bytes, at + 2),
        }
    }
}

// Actions a and b, named in this order, exclude each other: every pair of different actions does.
fn excludes(a: usize, b: usize) -> bool
    ensures { result ≡ (ltb a b && clauses.every_pair a b) }
{
    a < b
}

// Bounds of moments and steps are clauses, since the definitions build both types (`before`, `after`); so are those of facts, actions and rules.
impl Builder<'_, '_> {
    ghost use Rattle.paper.specs.Step.{need_of, rule_of};
    ghost use Rattle.theory.specs.Building.{as_lit, as_masks, Pushes, Ends, Adds};

    // The literal of fact k at a moment. Facts, actions and z have a function each, as the definitions have: one would go by a kind.
    #[tactic(auto, using(crate::proofs::Building::counts_of))]
    fn fact(&self, moment: Moment, k: usize, sign: bool) -> Literal
        requires { (moment.0 ≤ 8) × (k < 12) }
        ensures { (n : ℕ) → as_lit result ≡ spec.lit (clauses.fact (contents self.now.sheet) n moment k) sign }
    {
        Literal {
            var: self.numbers.fact(moment, k),
            sign,
        }
    }

    // The literal of action a, from 0, at a step.
    #[tactic(auto, using(crate::proofs::Building::counts_of))]
    fn action(&self, step: Step, a: usize, sign: bool) -> Literal
        requires { (step.0 < 8) × (a < 12) }
        ensures { (n : ℕ) → as_lit result ≡ spec.lit (clauses.action (contents self.now.sheet) n step a) sign }
    {
        Literal {
            var: self.numbers.action(step, a),
            sign,
        }
    }

    // The literal of the z of rule j at a step.
    #[tactic(auto, using(crate::proofs::Building::counts_of))]
    fn z(&self, step: Step, j: usize, sign: bool) -> Literal
        requires { (step.0 < 8) × (j < 24) }
        ensures { (n : ℕ) → as_lit result ≡ spec.lit (clauses.z (contents self.now.sheet) n step j) sign }
    {
        Literal {
            var: self.numbers.z(step, j),
            sign,
        }
    }

    // What action a needs.
    #[tactic(auto, using(crate::proofs::Parts::need_is))]
    fn need(&self, a: usize) -> Masks
        requires { a < 12 }
        ensures one { result.one ≡ (need_of (contents self.now.sheet) a).need1 }
        ensures nil { result.nil ≡ (need_of (contents self.now.sheet) a).need0 }
    {
        let need = self.needs[a];
        Masks {
            one: need[0],
            nil: need[1],
        }
    }

    // Rule j: action, cond1, cond0, set1, set0. Its action is one of the sheet's.
    #[tactic(auto, using(crate::proofs::Parts::rule_is, crate::proofs::Parts::rule_acts))]
    fn rule(&self, j: usize) -> [u16; 5]
        requires { j < 24 }
        ensures is { result ≡ fives (rule_of (contents self.now.sheet) j) }
        ensures acts { j < self.now.sheet.parts.trailer.rules → (1 ≤ get_or result 0 0) × (get_or result 0 0 ≤ 12) }
    {
        self.rules[j]
    }

    // Rule j sets fact k to this value.
    fn sets(&self, j: usize, k: usize, value: bool) -> bool
        requires { (j < 24) × (k < 12) }
        ensures { result ≡ bit (spec.set_to value (rule_of (contents self.now.sheet) j)) k }
    {
        let rule = self.rule(j);
        if value {
            return bits::bit(rule[3], k);
        }
        bits::bit(rule[4], k)
    }

    // One literal more in the clause that is not ended yet; what finds no place is left out.
    fn push(&mut self, l: Literal)
        ensures { Pushes (λ p n. as_lit l ∷ []) self.old self.new }
    {
        let at = self.made.literals as usize;
        if self.literals.len() <= at {
            return;
        }
        if self.made.literals == u16::MAX {
            return;
        }
        self.literals[at] = l.code();
        self.made.literals += 1;
    }

    // A literal more where it is wanted.
    fn push_if(&mut self, wanted: bool, l: Literal)
        ensures { Pushes (λ p n. only wanted (as_lit l)) self.old self.new }
    {
        if wanted {
            self.push(l);
        }
    }

    // The clause ends here.
    fn end(&mut self)
        ensures { Ends self.old self.new }
    {
        let at = self.made.clauses as usize;
        if self.ends.len() <= at {
            return;
        }
        if self.made.clauses == u16::MAX {
            return;
        }
        self.ends[at] = self.made.literals;
        self.made.clauses += 1;
    }

    // A clause of two literals.
    fn pair(&mut self, first: Literal, second: Literal)
        ensures { Adds (λ p n. (as_lit first ∷ (as_lit second ∷ [])) ∷ []) self.old self.new }
    {
        self.push(first);
        self.push(second);
        self.end();
    }

    // A clause of a literal and x, which stands ahead or behind, as `besides` has it, where it is wanted.
    fn pair_if(&mut self, wanted: bool, l: Literal, x: Literal, ahead: bool)
        ensures { Adds (λ p n. only wanted (spec.beside ahead (as_lit x) (as_lit l))) self.old self.new }
    {
        if !wanted {
            return;
        }
        if ahead {
            return self.pair(x, l);
        }
        self.pair(l, x)
    }

    // The literals that fact k has in two masks at a moment.
    fn push_fact(&mut self, moment: Moment, masks: Masks, sign: bool, k: usize)
        requires { (moment.0 ≤ 8) × (k < 12) }
        ensures { Pushes (λ p n. spec.fact_as p n sign moment masks.one masks.nil k) self.old self.new }
    {
        let x = self.fact(moment, k, sign);
        self.push_if(bits::bit(masks.one, k), x);
        self.push_if(bits::bit(masks.nil, k), x.opposite());
    }

    // The literals of two masks at a moment, by fact, those of the first with this sign, those of the second with the other.
    fn push_facts(&mut self, moment: Moment, masks: Masks, sign: bool)
        requires { moment.0 ≤ 8 }
        ensures { Pushes (λ p n. spec.literals_as p n sign moment masks.one masks.nil) self.old self.new }
    {
        let facts = self.sheet.parts.trailer.facts;
        for k in 0..facts {
            self.push_fact(moment, masks, sign, k);
        }
    }

    // The clauses of x and the literals that fact k has in two masks.
    fn pair_fact(&mut self, x: Literal, ahead: bool, moment: Moment, masks: Masks, k: usize)
        requires { (moment.0 ≤ 8) × (k < 12) }
        ensures { Adds (λ p n. map (spec.beside ahead (as_lit x)) (spec.fact_as p n true moment masks.one masks.nil k)) self.old self.new }
    {
        let y = self.fact(moment, k, true);
        self.pair_if(bits::bit(masks.one, k), y, x, ahead);
        self.pair_if(bits::bit(masks.nil, k), y.opposite(), x, ahead);
    }

    // A clause of x with each literal of two masks at a moment.
    fn pair_facts(&mut self, x: Literal, ahead: bool, moment: Moment, masks: Masks)
        requires { moment.0 ≤ 8 }
        ensures { Adds (λ p n. map (spec.beside ahead (as_lit x)) (clauses.literals p n moment masks.one masks.nil)) self.old self.new }
    {
        let facts = self.sheet.parts.trailer.facts;
        for k in 0..facts {
            self.pair_fact(x, ahead, moment, masks, k);
        }
    }

    // Action a's step needs its precondition.
    fn need_clauses(&mut self, step: Step, a: usize)
        requires { (step.0 < 8) × (a < 12) }
        ensures { Adds (λ p n. spec.need_part p n step a) self.old self.new }
    {
        let x = self.action(step, a, false);
        let need = self.need(a);
        self.pair_facts(x, false, step.before(), need);
    }

    // What every action needs. The loops of a step have one shape: over a closure each would bring its contract along, which is no shorter.
    fn needs_of_step(&mut self, step: Step)
        requires { step.0 < 8 }
        ensures { Adds (λ p n. clauses.need_clauses p n step) self.old self.new }
    {
        let actions = self.sheet.parts.trailer.actions;
        for a in 0..actions {
            self.need_clauses(step, a);
        }
    }

    // The conditions and the action of a rule, as opposites, and its z: where they hold, it does.
    fn z_follows(&mut self, moment: Moment, conditions: Masks, action: Literal, z: Literal)
        requires { moment.0 ≤ 8 }
        ensures { Adds (λ p n. (map clauses.neg (clauses.literals p n moment conditions.one conditions.nil) ++ (as_lit action ∷ (as_lit z ∷ []))) ∷ []) self.old self.new }
    {
        self.push_facts(moment, conditions, false);
        self.push(action);
        self.push(z);
        self.end();
    }

    // The z of rule j is equivalent to its action and conditions.
    fn z_clauses(&mut self, step: Step, j: usize)
        requires { (step.0 < 8) × (j < self.old.sheet.parts.trailer.rules) }
        ensures { Adds (λ p n. spec.z_part p n step j) self.old self.new }
    {
        let rule = self.rule(j);
        let number = rule[0] as usize;
        let action = self.action(step, number - 1, true);
        let z = self.z(step, j, false);
        let conditions = Masks {
            one: rule[1],
            nil: rule[2],
        };
        self.pair(action, z);
        self.pair_facts(z, false, step.before(), conditions);
        self.z_follows(step.before(), conditions, action.opposite(), z.opposite());
    }

    // The clauses of every rule's z.
    fn z_of_step(&mut self, step: Step)
        requires { step.0 < 8 }
        ensures { Adds (λ p n. clauses.z_clauses p n step) self.old self.new }
    {
        let rules = self.sheet.parts.trailer.rules;
        for j in 0..rules {
            self.z_clauses(step, j);
        }
    }

    // What rule j sets where its z holds.
    fn effect_clauses(&mut self, step: Step, j: usize)
        requires { (step.0 < 8) × (j < 24) }
        ensures { Adds (λ p n. spec.effect_part p n step j) self.old self.new }
    {
        let rule = self.rule(j);
        let x = self.z(step, j, false);
        let sets = Masks {
            one: rule[3],
            nil: rule[4],
        };
        self.pair_facts(x, true, step.after(), sets);
    }

    // What every rule sets.
    fn effects_of_step(&mut self, step: Step)
        requires { step.0 < 8 }
        ensures { Adds (λ p n. clauses.effect_clauses p n step) self.old self.new }
    {
        let rules = self.sheet.parts.trailer.rules;
        for j in 0..rules {
            self.effect_clauses(step, j);
        }
    }

    // Of two actions that exclude each other at most one is chosen.
    fn exclusion(&mut self, step: Step, a: usize, b: usize)
        requires { (step.0 < 8) × (a < 12) × (b < 12) }
        ensures { Adds (λ p n. spec.exclusion_part p n step a b) self.old self.new }
    {
        if excludes(a, b) {
            let x = self.action(step, a, false);
            let y = self.action(step, b, false);
            self.pair(x, y);
        }
    }

    // The exclusions that name action a first.
    fn exclusions_of(&mut self, step: Step, a: usize)
        requires { (step.0 < 8) × (a < 12) }
        ensures { Adds (λ p n. spec.exclusions_of p n step a) self.old self.new }
    {
        let actions = self.sheet.parts.trailer.actions;
        for b in 0..actions {
            self.exclusion(step, a, b);
        }
    }

    // All exclusions of a step.
    fn exclusions_of_step(&mut self, step: Step)
        requires { step.0 < 8 }
        ensures { Adds (λ p n. clauses.exclusions p n clauses.every_pair step) self.old self.new }
    {
        let actions = self.sheet.parts.trailer.actions;
        for a in 0..actions {
            self.exclusions_of(step, a);
        }
    }

    // The z of the rules that set fact k to this value.
    fn push_setters(&mut self, step: Step, k: usize, value: bool)
        requires { (step.0 < 8) × (k < 12) }
        ensures { Pushes (λ p n. spec.setters_to p n step value k) self.old self.new }
    {
        let rules = self.sheet.parts.trailer.rules;
        for j in 0..rules {
            let wanted = self.sets(j, k, value);
            let z = self.z(step, j, true);
            self.push_if(wanted, z);
        }
    }

    // Fact k keeps the other value than this, unless a rule fires that sets it to this one.
    fn frame(&mut self, step: Step, k: usize, value: bool)
        requires { (step.0 < 8) × (k < 12) }
        ensures { Adds (λ p n. spec.frame_to p n step value k ∷ []) self.old self.new }
    {
        let x = self.fact(step.before(), k, value);
        let y = self.fact(step.after(), k, !value);
        self.push(x);
        self.push_setters(step, k, value);
        self.push(y);
        self.end();
    }

    // A fact that is 1 stays 1 unless a rule sets it to 0, and the other way round.
    fn frames_of(&mut self, step: Step, k: usize)
        requires { (step.0 < 8) × (k < 12) }
        ensures { Adds (λ p n. spec.frame_part p n step k) self.old self.new }
    {
        self.frame(step, k, false);
        self.frame(step, k, true);
    }

    // Every fact keeps its value unless a rule sets it.
    fn frames_of_step(&mut self, step: Step)
        requires { step.0 < 8 }
        ensures { Adds (λ p n. clauses.frames p n step) self.old self.new }
    {
        let facts = self.sheet.parts.trailer.facts;
        for k in 0..facts {
            self.frames_of(step, k);
        }
    }

    // Precondition, z, effect, exclusion and frame clauses of a step.
    fn step_clauses(&mut self, step: Step)
        requires { step.0 < 8 }
        ensures { Adds (λ p n. clauses.step_clauses p n clauses.every_pair step) self.old self.new }
    {
        self.needs_of_step(step);
        self.z_of_step(step);
        self.effects_of_step(step);
        self.exclusions_of_step(step);
        self.frames_of_step(step);
    }

    // The clauses of steps 0 to n - 1.
    fn steps(&mut self, n: usize)
        requires { n ≤ 8 }
        ensures { Adds (λ p m. spec.steps_of p n) self.old self.new }
    {
        for i in 0..n {
            self.step_clauses(Step(i));
        }
    }

    // A clause of the sheet at a moment; one that always holds is left out.
    fn clause(&mut self, moment: Moment, masks: Masks)
        requires { moment.0 ≤ 8 }
        ensures { Adds (λ p n. clauses.at_moment p n moment (as_masks masks ∷ [])) self.old self.new }
    {
        if masks.one & masks.nil != 0 {
            return;
        }
        self.push_facts(moment, masks, true);
        self.end();
    }

    // So many clauses of the sheet, which stand in bytes from an offset on, at a moment.
    fn clauses_at(&mut self, moment: Moment, bytes: &[u8], from: usize, count: usize)
        requires { (moment.0 ≤ 8) × (from + 4 * count ≤ length bytes.now) }
        ensures { Adds (λ p n. clauses.at_moment p n moment (map (paper.masks_at bytes.now) (paper.offsets from 4 count))) self.old self.new }
    {
        // A clause is named by its offset in the sheet, as the definitions name it.
        for i in 0..count {
            self.clause(moment, Masks::read(bytes, from + 4 * i));
        }
    }

    // The start clauses at moment 0, the goal clauses at moment n, the clauses of each step.
    fn theory(&mut self, n: usize)
        requires { n ≤ 8 }
        ensures { Adds (λ p m. clauses.theory p n) self.old self.new }
    {
        let parts = self.sheet.parts;
        let counts = parts.trailer;
        self.clauses_at(Moment(0), parts.bytes, parts.starts_at(), counts.starts);
        self.clauses_at(Moment(n), parts.bytes, parts.goals_at(), counts.goals);
        self.steps(n);
    }
}

// T(P) at horizon n: the start clauses at moment 0, the goal clauses at moment n, the clauses of each step.
pub fn theory(sheet: Sheet, n: usize, literals: &mut [u16], ends: &mut [u16]) -> Filled
    requires { (n ≤ 8) × (18720 ≤ length literals.old) × (6896 ≤ length ends.old) }
    ensures stored { Stored literals.new ends.new result (clauses.theory (contents sheet.entry) n) [] }
    ensures behind { (drop result.literals literals.new ≡ drop result.literals literals.old) × (drop result.clauses ends.new ≡ drop result.clauses ends.old) }
{
    let mut builder = Builder {
        literals,
        ends,
        made: Filled {
            literals: 0,
            clauses: 0,
        },
        sheet,
        numbers: Numbering {
            trailer: sheet.parts.trailer,
        },
        needs: sheet.parts.needs(),
        rules: sheet.parts.rules(),
    };
    builder.theory(n);
    builder.made
}
