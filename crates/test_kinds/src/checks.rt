// Each mode by what it is told by: all bytes, or the codes of the tables and their neighbours. A line sums up each mode.
use crate::answers::Answer;
use crate::{answers, tables};
use protocol::refusal::Refusal;
use protocol::tables::line_at;
use test_cases::Output;

// Lines of a table of codes that are taken: more than there are.
const LINES: u32 = 16;

// Three codes of each line of two tables.
const CODES: u32 = 6 * LINES;

// The tags at the numbers below `most`, each decoded.
fn check<F: Fn(u32) -> Option<u32>>(to: &mut Output, mode: u8, what: &str, most: u32, tag_at: F)
    requires { F.IsAlwaysCallable tag_at }
{
    let (mut tried, mut in_table, mut wrong): (usize, usize, usize) = (0, 0, 0);
    for number in 0..most {
        if let Some(tag) = tag_at(number) {
            tried += 1;
            if tables::find(mode, tag).is_some() {
                in_table += 1;
            }
            if !answers::is_right(to, mode, tag) {
                wrong += 1;
            }
        }
    }
    write!(to, "mode {mode}: {tried} {what}, {in_table} in the table, ");
    if wrong == 0 {
        writeln!(to, "decoded as it says");
    } else {
        writeln!(to, "{wrong} not decoded as it says");
    }
}

pub fn every_byte(to: &mut Output, mode: u8) {
    check(to, mode, "bytes", 256, |byte| Some(byte));
}

// A code of modes 2 and 5, the one below it and the one above it. Behind a table's end the code is 0, so 4294967295, 0 and 1 are among them.
fn code_at(number: u32) -> u32 {
    let mode = if number % 2 == 0 { 2 } else { 5 };
    let code = line_at(mode, (number / 6) as usize).map_or(0, |line| line.1);
    match number / 2 % 3 {
        0 => code.wrapping_sub(1),
        1 => code,
        _ => code.wrapping_add(1),
    }
}

// The code at a number, if none below it has the same.
fn first_code_at(number: u32) -> Option<u32> {
    let code = code_at(number);
    (0..number)
        .all(|earlier| code_at(earlier) != code)
        .then_some(code)
}

// Each code once.
pub fn codes_around(to: &mut Output, mode: u8) {
    check(to, mode, "codes", CODES, first_code_at);
}

// A mode above 5 has no table, and is refused before anything else.
pub fn no_other_mode(to: &mut Output) {
    let unknown = Answer::refused(Refusal::ModeUnknown, 0);
    let wrong = (6..=255)
        .filter(|mode| { line_at(*mode, 0).is_some() | !answers::gets(to, *mode, 0, 4, unknown) })
        .count();
    if wrong == 0 {
        writeln!(to, "modes 6 to 255: no table, refused");
    } else {
        writeln!(to, "{wrong} modes above 5 have a table or are not refused");
    }
}
