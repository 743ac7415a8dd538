// The lines of the input: they tell what is lent, or are cases.
use crate::given::{Given, Kind};
use crate::lines::{line, line_into};
use std::io;
use text::{find, value};

// Judge of what is given, into an answer slice.
fn judge_into(g: Given, answer: &mut [u8]) -> u32 {
    let [horizon, count, root, state] = g.call;
    bringup::bringup_judge(
        g.sheet.lent(),
        horizon,
        g.table.lent(),
        count,
        root,
        state,
        g.masks.lent(),
        answer,
    )
}

// A case: the numbers of its answer, or the answer's bytes where a line has told its length.
fn try_case(rt: &impl Print, g: Given, label: &[u8]) -> io::Result<()> {
    let mut answer = [0xEEu8; 12];
    let n = g.into;
    if n <= 12 {
        let code = judge_into(g, &mut answer[0..n]);
        line_into(rt, label, n, code, &answer)
    } else {
        let code = judge_into(g, &mut answer[0..8]);
        line(rt, label, code, &answer)
    }
}

// The numbers of a line of this kind. Each program of cases has these lines for its own `Given`: a function of `text` over both would owe
// a contract, and std's `split` does not say which its parts are. A loop: what a closure of `fold` is given and gives is copied once more.
fn take(g: Given, kind: Kind, text: &[u8]) -> Given {
    let mut given = g.begin(kind);
    let numbers = text.split(|b| !b.is_ascii_digit());
    for digits in numbers.filter(|digits| !digits.is_empty()) {
        given = given.put(kind, value(digits));
    }
    given
}

// A line: its first byte is its kind; its numbers stand behind a colon, in front of which a case has its label.
fn try_line(rt: &impl Print, g: Given, text: &[u8]) -> io::Result<Given> {
    if text.len() < 2 {
        return Ok(g);
    }
    let Some(kind) = Kind::of(text[0]) else {
        return Ok(g);
    };
    let colon = find(text, 2, b':');
    let given = take(g, kind, &text[colon..]);
    if matches!(kind, Kind::Case) {
        try_case(rt, given, &text[2..colon])?;
    }
    Ok(given)
}

// Each line of the input. Each program of cases has this loop: one function over both would take `try_line` as a closure, and a call of it
// would be as long as the loop.
pub fn try_all(rt: &impl Print, text: &[u8]) -> io::Result<()> {
    let mut given = Given::new();
    for line in text.split(|b| *b == b'\n') {
        given = try_line(rt, given, line)?;
    }
    Ok(())
}
