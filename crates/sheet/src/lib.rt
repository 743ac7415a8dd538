// A sheet's bytes: refused by the first of 1, 2, 3 and 4 that applies, or accepted, with its trailer and its rows decoded.
#![tactic(auto, unfolding(paper::specs::Sheet::marked, paper::specs::Sheet::trailer, paper::specs::Sheet::within, paper::specs::Sheet::body_length, paper::specs::Sheet::fits, paper::specs::Sheet::body_at, paper::specs::Sheet::sheet_of))]

ghost use Rattle.std.specs.Prelude.{◌≡◌, not, map, ◌+◌, ◌*◌, ◌≤◌, ◌<◌, length};
ghost use Rattle.paper.specs.Lists.{up_from};
ghost use Rattle.paper.specs.Sheet as paper;
ghost use Rattle.sheet.specs.Reading as spec;

use paper::{Fault, Trailer};
use std::array;

// The kinds of rows: of two masks that may not overlap, of an action and two such pairs, of two masks.
#[derive(Clone, Copy)]
pub enum Part {
    Needs,
    Rules,
    Clauses,
}

impl Part {
    // The bytes of a row.
    fn width(self) -> usize
        ensures { result ≡ spec.width self }
    {
        match self {
            Part::Needs | Part::Clauses => 4,
            Part::Rules => 10,
        }
    }
}

// Bytes whose trailer's counts are within their bounds and agree with the length: it is known where each part lies.
#[derive(Clone, Copy)]
pub struct Parts<'a> {
    pub bytes: &'a [u8],
    pub trailer: Trailer,
    pub ghost whole: { spec.Whole bytes.now trailer },
}

// An accepted sheet: no row of its parts is refused.
#[derive(Clone, Copy)]
pub struct Sheet<'a> {
    pub parts: Parts<'a>,
    pub ghost fine: { paper.Fine (paper.sheet_of parts.bytes.now parts.trailer) },
}

// The 16-bit number at a place, as a count.
fn count(b: &[u8], at: usize) -> usize
    requires { at + 1 < length b.now }
    ensures { result ≡ paper.word b.now at }
{
    usize::from(bits::word(b, at))
}

// 1 does not apply: 16 bytes or more, the last two of which are the mark.
fn marked(b: &[u8]) -> bool
    ensures { result ≡ paper.marked b.now }
{
    let n = b.len();
    16 <= n && b[n - 2] == 0x52 && b[n - 1] == 0x53
}

// The trailer is the file's last 16 bytes.
fn read_trailer(b: &[u8]) -> Trailer
    requires { 16 ≤ length b.now }
    ensures { result ≡ paper.trailer b.now }
{
    let t = b.len() - 16;
    Trailer {
        facts: count(b, t),
        actions: count(b, t + 2),
        rules: count(b, t + 4),
        starts: count(b, t + 6),
        goals: count(b, t + 8),
        horizon: count(b, t + 10),
        back: count(b, t + 12),
    }
}

// 2 does not apply: every count is within its bounds.
fn within(t: Trailer) -> bool
    ensures { result ≡ paper.within t }
{
    let facts = (1 <= t.facts) & (t.facts <= 12);
    let actions = (1 <= t.actions) & (t.actions <= 12);
    let lists = (t.starts <= 16) & ((t.goals <= 16) & (t.horizon <= 8));
    facts & (actions & ((t.rules <= 24) & lists))
}

// The bytes of the body, by its counts.
fn body_length(t: Trailer) -> usize
    requires { paper.Bounded t }
    ensures { (result ≡ paper.body_length t) × (result ≤ 416) }
{
    4 * t.actions + 10 * t.rules + 4 * t.starts + 4 * t.goals
}

// 3 does not apply: back is the body's length, and the file has no other byte.
#[tactic(auto, using(crate::proofs::Laws::agrees_is))]
fn agrees(b: &[u8], t: Trailer) -> bool
    requires { paper.Bounded t }
    ensures { result ≡ paper.agrees b.now t }
{
    let body = body_length(t);
    (t.back == body) & (b.len() == body + 16)
}

// No bit of the mask is at f or above. The bound of f is a clause here and below: f may be a count of facts or of actions.
pub fn fits(f: usize, m: u32) -> bool
    requires { f ≤ 12 }
    ensures { result ≡ paper.fits f m }
{
    m < bits::weight(f)
}

// Two masks of f facts that do not overlap.
#[tactic(auto, unfolding(paper::specs::Sheet::good_pair, paper::specs::Counting::overlap), using(bits::proofs::Machine::apart))]
fn good_pair(f: usize, one: u16, nil: u16) -> bool
    requires { f ≤ 12 }
    ensures { result ≡ paper.good_pair f one nil }
{
    fits(f, u32::from(one)) & fits(f, u32::from(nil)) & (one & nil == 0)
}

// A row of N numbers at an offset.
fn row<const N: usize>(b: &[u8], at: usize) -> [u16; N]
    requires { at + 2 * N ≤ length b.now }
    ensures { result ≡ spec.numbers b.now at N }
{
    array::from_fn(|k| bits::word(b, at + 2 * k))
}

#[tactic(auto, using(crate::proofs::Laws::words_2), unfolding(paper::specs::Sheet::good_need, paper::specs::Sheet::need_at))]
fn good_need(b: &[u8], f: usize, at: usize) -> bool
    requires { (f ≤ 12) × (at + 4 ≤ length b.now) }
    ensures { result ≡ paper.good_need f (paper.need_at b.now at) }
{
    let [one, nil] = row::<2>(b, at);
    good_pair(f, one, nil)
}

#[tactic(auto, using(crate::proofs::Laws::words_5), unfolding(paper::specs::Sheet::good_rule, paper::specs::Sheet::rule_at))]
fn good_rule(b: &[u8], f: usize, a: usize, at: usize) -> bool
    requires { (f ≤ 12) × (at + 10 ≤ length b.now) }
    ensures { result ≡ paper.good_rule f a (paper.rule_at b.now at) }
{
    let [action, cond1, cond0, set1, set0] = row::<5>(b, at);
    let action = usize::from(action);
    let cond = good_pair(f, cond1, cond0);
    let set = good_pair(f, set1, set0);
    ((1 <= action) & (action <= a)) & (cond & set)
}

#[tactic(auto, using(crate::proofs::Laws::words_2), unfolding(paper::specs::Sheet::good_masks, paper::specs::Sheet::masks_at, paper::specs::Sheet::need_at))]
fn good_masks(b: &[u8], f: usize, at: usize) -> bool
    requires { (f ≤ 12) × (at + 4 ≤ length b.now) }
    ensures { result ≡ paper.good_masks f (paper.masks_at b.now at) }
{
    let [pos, neg] = row::<2>(b, at);
    fits(f, u32::from(pos)) & fits(f, u32::from(neg))
}

// M rows of N numbers, of which the first n follow each other from an offset on, and the others are zeros.
fn rows<const N: usize, const M: usize>(b: &[u8], from: usize, n: usize) -> [[u16; N]; M]
    requires { from + 2 * N * n ≤ length b.now }
    ensures { result ≡ map (spec.row_below b.now from N n) (up_from 0 M) }
{
    array::from_fn(
        |j|
            requires { from + 2 * N * n ≤ length b.now }
            ensures { result ≡ spec.row_below b.entry.now from N n j }
        {
            if j < n {
                row(b, from + 2 * N * j)
            } else {
                [0; N]
            }
        },
    )
}

impl<'a> Parts<'a> {
    ghost use Rattle.sheet.specs.Contents.{sheet_in};

    // Where the body begins.
    fn body_at(self) -> usize
        ensures { result ≡ paper.body_at self.entry.bytes.now self.entry.trailer }
    {
        self.bytes.len() - 16 - self.trailer.back
    }

    // The parts of the body follow each other without gaps.
    fn rules_at(self) -> usize
        ensures { result ≡ paper.body_at self.entry.bytes.now self.entry.trailer + 4 * self.entry.trailer.actions }
    {
        self.body_at() + 4 * self.trailer.actions
    }

    pub fn starts_at(self) -> usize
        ensures { result ≡ paper.body_at self.entry.bytes.now self.entry.trailer + 4 * self.entry.trailer.actions + 10 * self.entry.trailer.rules }
    {
        self.rules_at() + 10 * self.trailer.rules
    }

    pub fn goals_at(self) -> usize
        ensures { result ≡ paper.body_at self.entry.bytes.now self.entry.trailer + 4 * self.entry.trailer.actions + 10 * self.entry.trailer.rules + 4 * self.entry.trailer.starts }
    {
        self.starts_at() + 4 * self.trailer.starts
    }

    // 4 applies to the row at an offset. Its kind is a value and no closure, as the definitions go by it.
    fn bad_row(self, part: Part, at: usize) -> bool
        requires { at + spec.width part ≤ length self.bytes.now }
        ensures { result ≡ spec.bad_row self.entry.bytes.now self.entry.trailer part at }
    {
        let facts = self.trailer.facts;
        !match part {
            Part::Needs => good_need(self.bytes, facts, at),
            Part::Rules => good_rule(self.bytes, facts, self.trailer.actions, at),
            Part::Clauses => good_masks(self.bytes, facts, at),
        }
    }

    // The first of n rows from an offset on that is refused.
    #[tactic(auto, unfolding(crate::specs::Reading::first_bad))]
    fn first_bad(self, part: Part, from: usize, n: usize) -> Option<u32>
        requires { from + spec.width part * n ≤ length self.bytes.now }
        ensures { result ≡ spec.first_bad self.entry.bytes.now self.entry.trailer part from n }
    {
        let width = part.width();
        (0..n)
            .map(|k| (from + width * k) as u32)
            .find(|at| self.bad_row(part, *at as usize))
    }

    // The first refused row of the body, in the order of the file.
    #[tactic(auto, using(crate::proofs::Laws::first_rows))]
    fn first_bad_row(self) -> Option<u32>
        ensures { result ≡ spec.first_in (paper.bad_rows self.entry.bytes.now self.entry.trailer) }
    {
        let t = self.trailer;
        let needs = self.first_bad(Part::Needs, self.body_at(), t.actions);
        let rules = self.first_bad(Part::Rules, self.rules_at(), t.rules);
        let starts = self.first_bad(Part::Clauses, self.starts_at(), t.starts);
        let goals = self.first_bad(Part::Clauses, self.goals_at(), t.goals);
        needs.or(rules).or(starts).or(goals)
    }

    // How many facts there are.
    pub fn facts(self) -> usize
        ensures { (result ≡ (sheet_in self.entry).F) × (result ≤ 12) }
    {
        self.trailer.facts
    }

    // How many actions there are.
    pub fn actions(self) -> usize
        ensures { result ≡ (sheet_in self.entry).A }
    {
        self.trailer.actions
    }

    // The needs of the actions: need1, need0.
    #[tactic(auto, using(crate::proofs::Laws::needs_are))]
    pub fn needs(self) -> [[u16; 2]; 12]
        ensures { result ≡ spec.pairs_of (sheet_in self.entry) }
    {
        rows(self.bytes, self.body_at(), self.trailer.actions)
    }

    // The decoded rules: action, cond1, cond0, set1, set0.
    #[tactic(auto, using(crate::proofs::Laws::rules_are))]
    pub fn rules(self) -> [[u16; 5]; 24]
        ensures { result ≡ spec.fives_of (sheet_in self.entry) }
    {
        rows(self.bytes, self.rules_at(), self.trailer.rules)
    }
}

impl<'a> Sheet<'a> {
    ghost use Rattle.std.specs.Prelude.{IfOk};
    ghost use Rattle.sheet.specs.Contents.{read_as};

    // The first refusal that applies, or the sheet.
    #[tactic(auto, using(crate::proofs::Laws::reading))]
    pub fn read(b: &'a [u8]) -> Result<Sheet<'a>, Fault>
        ensures answer { read_as result ≡ paper.decode b.now }
        ensures bytes { IfOk result (λ s. s.parts.bytes.now ≡ b.now) }
    {
        if !marked(b) {
            return Err(Fault::Unmarked);
        }
        let trailer = read_trailer(b);
        if !within(trailer) {
            return Err(Fault::Unbounded);
        }
        if !agrees(b, trailer) {
            return Err(Fault::Disagrees);
        }
        let parts = Parts { bytes: b, trailer };
        match parts.first_bad_row() {
            Some(at) => Err(Fault::BadRow(at)),
            None => Ok(Sheet { parts }),
        }
    }
}
