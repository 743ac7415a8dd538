// The lines of the input: they tell what is lent, or are cases.
use crate::given::{Given, Kind};
use crate::lines::{line, line_schedule};
use crate::tables::{fresh, line_rows};
use std::io;
use text::{find, value};

// Lends to a case a row buffer of n bytes, the front of one with two rows more than 65,536.
fn with_rows<R: AllocGlobal, F: FnOnce(&mut [u8]) -> io::Result<()>>(
    rt: &R,
    n: u32,
    case: F,
) -> io::Result<()>
    requires { F.IsAlwaysCallable case }
{
    let mut all = fresh(rt.alloc())?;
    case(&mut all[..(n as usize).min(1048608)])
}

// Compile of what is given, into a row buffer and an answer slice.
fn compile_into(g: Given, rows: &mut [u8], answer: &mut [u8]) -> u32 {
    bringup::bringup_compile(g.sheet.lent(), g.call[0], g.call[1], rows, answer)
}

// A case of compile with the row buffer that is lent: a line of the answer, and one of the rows.
fn compile_rows(rt: &impl Print, g: Given, label: &[u8], rows: &mut [u8]) -> io::Result<()> {
    let mut answer = [0xEEu8; 24];
    let n = g.into.min(24);
    let code = compile_into(g, rows, &mut answer[0..n]);
    line(rt, label, n, code, &answer)?;
    line_rows(rt, rows)
}

// Plan of what is given, into a row buffer, a schedule buffer and an answer slice.
fn plan_into(g: Given, rows: &mut [u8], schedule: &mut [u8], answer: &mut [u8]) -> u32 {
    bringup::bringup_plan(g.sheet.lent(), g.call[0], rows, schedule, answer)
}

// A case of plan with the row buffer that is lent: lines of the answer, of the schedule buffer and of the rows.
fn plan_rows(rt: &impl Print, g: Given, label: &[u8], rows: &mut [u8]) -> io::Result<()> {
    let mut answer = [0xEEu8; 24];
    let mut schedule = [0xEEu8; 12];
    let n = g.into.min(24);
    let m = (g.call[2] as usize).min(12);
    let code = plan_into(g, rows, &mut schedule[0..m], &mut answer[0..n]);
    line(rt, label, n, code, &answer)?;
    line_schedule(rt, &schedule)?;
    line_rows(rt, rows)
}

// A case of the program: so many zero bytes, then the sheet; the line that it prints for them.
fn try_print(rt: &impl Print, g: Given, label: &[u8]) -> io::Result<()> {
    let mut input = [0u8; 5121];
    let bytes = g.sheet.lent();
    let front = (g.call[0] as usize).min(4609);
    let end = front + bytes.len();
    input[front..end].copy_from_slice(bytes);
    let mut out = [0u8; 128];
    let written = program::print(&input[..end], &mut out);
    rt.write_all(label)?;
    rt.write_all(b": ")?;
    rt.write_all(&out[..written])
}

// The numbers of a line of this kind. Each program of cases has these lines for its own `Given`: a function of `text` over both would owe
// a contract, and std's `split` does not say which its parts are. A loop: what a closure of `fold` is given and gives is copied once more.
fn take(g: Given, kind: Kind, text: &[u8]) -> Given {
    let mut given = g.begin(kind);
    let numbers = text.split(|b| !b.is_ascii_digit());
    for digits in numbers.filter(|digits| !digits.is_empty()) {
        given = given.put(kind, value(digits));
    }
    given
}

// A line: its first byte is its kind; its numbers stand behind a colon, in front of which a case has its label.
// The numbers of compile are horizon, limit and the length of its row buffer; of plan limit, that of its row buffer and that of its
// schedule buffer, the front of one of 12 bytes.
fn try_line<R: Print + AllocGlobal>(rt: &R, g: Given, text: &[u8]) -> io::Result<Given> {
    if text.len() < 2 {
        return Ok(g);
    }
    let Some(kind) = Kind::of(text[0]) else {
        return Ok(g);
    };
    let colon = find(text, 2, b':');
    let given = take(g, kind, &text[colon..]);
    let label = &text[2..colon];
    let [_, second, third] = given.call;
    match kind {
        Kind::Compile => with_rows(rt, third, |rows| compile_rows(rt, given, label, rows))?,
        Kind::Plan => with_rows(rt, second, |rows| plan_rows(rt, given, label, rows))?,
        Kind::Print => try_print(rt, given, label)?,
        Kind::Sheet | Kind::Answer => {}
    }
    Ok(given)
}

// Each line of the input. Each program of cases has this loop: one function over both would take `try_line` as a closure, and a call of it
// would be as long as the loop.
pub fn try_all<R: Print + AllocGlobal>(rt: &R, text: &[u8]) -> io::Result<()> {
    let mut given = Given::new();
    for line in text.split(|b| *b == b'\n') {
        given = try_line(rt, given, line)?;
    }
    Ok(())
}
