// The vocabulary of document 01: the types that every crate shares. What they mean stands in specs/.
#![tactic(auto)]

ghost use Rattle.std.specs.Prelude.{◌≡◌, ◌<◌};
ghost use Rattle.paper.specs.Counting.{before, after};

// Moments run 0..n and steps 0..n-1: two counts, of two types.
#[derive(Clone, Copy, Debug, PartialEq, Eq)]
pub struct Moment(pub usize);

#[derive(Clone, Copy, Debug, PartialEq, Eq)]
pub struct Step(pub usize);

impl Moment {
    // The moment before any step.
    pub fn first() -> Moment
        ensures { result.0 ≡ 0 }
    {
        Moment(0)
    }

    // The step that leads on from this moment.
    pub fn step(self) -> Step
        ensures { before result ≡ self }
    {
        Step(self.0)
    }
}

impl Step {
    // The moment that the step leads from.
    pub fn before(self) -> Moment
        ensures { result ≡ before self }
    {
        Moment(self.0)
    }

    // The moment that the step leads to.
    pub fn after(self) -> Moment
        requires { self.0 < 8 }
        ensures { result ≡ after self }
    {
        Moment(self.0 + 1)
    }
}

// A sheet's trailer: how many facts, actions, rules, start clauses and goal clauses; the horizon; the bytes back to the body.
#[derive(Clone, Copy, Debug, PartialEq, Eq)]
pub struct Trailer {
    pub facts: usize,
    pub actions: usize,
    pub rules: usize,
    pub starts: usize,
    pub goals: usize,
    pub horizon: usize,
    pub back: usize,
}

// A variable of T(P), or its opposite.
#[derive(Clone, Copy, Debug, PartialEq, Eq)]
pub struct Lit {
    pub var: u32,
    pub sign: bool,
}

// A row of a circuit: children are row numbers; a choice has its variable, then the side where that is true.
#[derive(Clone, Copy, Debug, PartialEq, Eq)]
pub enum Row {
    False,
    True,
    Literal(Lit),
    Conjunction(u32, u32),
    Choice(u32, u32, u32),
}

// Why a step fails: its action's need is not met, or its rules set a fact to both values.
#[derive(Clone, Copy, Debug, PartialEq, Eq)]
pub enum Failure {
    NeedUnmet,
    Clashed,
}

// A schedule from a state: steps done, the state reached, and whether no step failed.
#[derive(Clone, Copy, Debug, PartialEq, Eq)]
pub struct Run {
    pub done: usize,
    pub state: u16,
    pub whole: bool,
}

// What refuses a call and leaves every buffer but the answer untouched. Two know a place.
#[derive(Clone, Copy, Debug, PartialEq, Eq)]
pub enum Fault {
    Unmarked,
    Unbounded,
    Disagrees,
    BadRow(u32),
    ShortSchedule,
    NoStart,
    BadCall,
    BadTable(u32),
}

impl Fault {
    ghost use Rattle.paper.specs.Answers.{fault_code, fault_place};

    pub fn number(self) -> u32
        ensures { result ≡ fault_code self }
    {
        match self {
            Fault::Unmarked => 1,
            Fault::Unbounded => 2,
            Fault::Disagrees => 3,
            Fault::BadRow(_) => 4,
            Fault::ShortSchedule => 5,
            Fault::NoStart => 6,
            Fault::BadCall => 10,
            Fault::BadTable(_) => 11,
        }
    }

    // The place of 4 and 11.
    pub fn place(self) -> u32
        ensures { result ≡ fault_place self }
    {
        match self {
            Fault::BadRow(at) | Fault::BadTable(at) => at,
            _ => 0,
        }
    }
}

// Where a schedule ends: steps done, the state reached, and whether that is a goal and no step failed.
#[derive(Clone, Copy, Debug, PartialEq, Eq)]
pub struct Ended {
    pub done: u32,
    pub state: u16,
    pub goal: bool,
}

// A circuit that stays within its two limits: its effort, its rows, and its root's number.
#[derive(Clone, Copy, Debug, PartialEq, Eq)]
pub struct Whole {
    pub effort: u32,
    pub rows: u32,
    pub root: u32,
}

// The limit that a circuit passes: effort above its limit; rows above room, with the effort.
#[derive(Clone, Copy, Debug, PartialEq, Eq)]
pub enum Limit {
    TooMuch,
    NoRoom(u32),
}

impl Limit {
    ghost use Rattle.paper.specs.Answers.{limit_code};

    pub fn number(self) -> u32
        ensures { result ≡ limit_code self }
    {
        match self {
            Limit::TooMuch => 7,
            Limit::NoRoom(_) => 8,
        }
    }
}

// How a circuit is built under its two limits.
pub type Built = Result<Whole, Limit>;

// How planning ends: the horizon, and the limit passed there or the whole circuit of it.
#[derive(Clone, Copy, Debug, PartialEq, Eq)]
pub enum Planned {
    TooMuch { horizon: u32 },
    NoRoom { horizon: u32, effort: u32 },
    NoPlan { horizon: u32, circuit: Whole },
    Found { horizon: u32, circuit: Whole },
}
