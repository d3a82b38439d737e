// The fields that are given, and a pass over those that are read.
ghost use Rattle.std.specs.Prelude.{◌<◌};

use codec::Cursor;
use protocol::refusal::Refused;
use protocol::{Span, rules_of};
use test_cases::{Output, filled};

pub const COUNT: usize = 40000;

// Room for the frame and four bytes more.
pub const ROOM: usize = 120010;

fn code_of(i: usize) -> u8 {
    (1 + i % 255) as u8
}

fn letter_of(i: usize) -> u8 {
    (1 + i % 251) as u8
}

// What the encoder is given: each field's code, its string's length, and all strings joined.
#[derive(Drop)]
pub struct Fields {
    codes: [u8; COUNT],
    lengths: [u32; COUNT],
    joined: [u8; COUNT],
}

impl Fields {
    pub fn new() -> Fields {
        let mut codes: [u8; COUNT] = filled(0);
        let mut joined: [u8; COUNT] = filled(0);
        for (i, (code, letter)) in codes.iter_mut().zip(joined.iter_mut()).enumerate() {
            *code = code_of(i);
            *letter = letter_of(i);
        }
        Fields {
            codes,
            lengths: filled(1),
            joined,
        }
    }

    // The error, written into an output.
    pub fn write(&self, out: &mut [u8]) -> Result<usize, Refused> {
        encode::response::error_response(&self.codes, &self.lengths, &self.joined, out)
    }
}

// Whether field i is read as it was given: its code, and its string of one byte, at its place.
fn is_field(frame: &[u8], i: usize, code: u8, string: Span) -> bool
    requires { i < 40000 }
{
    let place = Span {
        start: 6 + i * 3,
        len: 1,
    };
    let bytes = decode::part(frame, string.start, string.len);
    code == code_of(i) && string == place && bytes == [letter_of(i)].as_slice()
}

// Each field by one call, from the place that the one before it gave.
pub fn write_pass(to: &mut Output, frame: &[u8; ROOM]) {
    let mut c = Cursor { at: 5 };
    let mut right: usize = 0;
    for i in 0..COUNT {
        let Ok(((code, string), next)) = items::response::error_field(rules_of(1), frame, c) else {
            writeln!(to, "one pass: cut");
            return;
        };
        if is_field(frame, i, code, string) && next.at == 8 + i * 3 {
            right += 1;
        }
        c = next;
    }
    writeln!(to, "one pass: {right} fields right, ended at {}", c.at);
}
