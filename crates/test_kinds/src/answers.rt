// What decoding answers to a header alone, and whether that is what a table's line says.
use crate::tables;
use crate::tables::{has_codes, is_bare};
use protocol::kinds::Line;
use protocol::refusal::{Refusal, Unread};
use std::fmt;
use test_cases::Output;
use test_cases::shown::Shown;

// What decode answers, of a record only the bytes consumed.
#[derive(Clone, Copy, PartialEq, Eq)]
pub struct Answer(Result<usize, Unread>);

impl Answer {
    fn record(bytes: usize) -> Answer {
        Answer(Ok(bytes))
    }

    pub fn refused(refusal: Refusal, place: usize) -> Answer {
        Answer(Err(Unread::Refused(refusal.at(place))))
    }
}

impl fmt::Display for Answer {
    fn fmt<W: fmt::Write>(&self, f: &mut fmt::Formatter<W>) -> fmt::Result {
        match self.0 {
            Ok(bytes) => write!(f, "a record of {bytes}"),
            Err(unread) => write!(f, "{}", Shown(unread)),
        }
    }
}

// A header and nothing behind it: the length and a code, or a type byte and the length; in modes 3 and 4 the one byte.
fn answer_to(mode: u8, tag: u32, length: u32) -> Answer {
    let [a, b, c, d] = length.to_be_bytes();
    let [e, f, g, byte] = tag.to_be_bytes();
    let decoded = if has_codes(mode) {
        decode::decode(mode, &[a, b, c, d, e, f, g, byte])
    } else if is_bare(mode) {
        decode::decode(mode, &[byte])
    } else {
        decode::decode(mode, &[byte, a, b, c, d])
    };
    Answer(decoded.map(|(_, consumed)| consumed))
}

// Whether the header gets the answer; where it gets another, a line says so.
pub fn gets(to: &mut Output, mode: u8, tag: u32, length: u32, wanted: Answer) -> bool {
    let answer = answer_to(mode, tag, length);
    if answer != wanted {
        write!(to, "mode {mode}, tag {tag}, length {length}: ");
        writeln!(to, "{answer}, but the table says {wanted}");
    }
    answer == wanted
}

// No line has the tag: whatever the length is, the tag is refused where it stands.
fn is_unknown(to: &mut Output, mode: u8, tag: u32) -> bool {
    let place = if has_codes(mode) { 4 } else { 0 };
    let unknown = Answer::refused(Refusal::TypeUnknown, place);
    let none = gets(to, mode, tag, 0, unknown);
    let short = gets(to, mode, tag, 16, unknown);
    let long = gets(to, mode, tag, 1048577, unknown);
    let negative = gets(to, mode, tag, u32::MAX, unknown);
    none && short && long && negative
}

// A frame of the smallest length: the header is all of it, where no body is asked for.
fn smallest_frame(mode: u8, smallest: u32) -> Answer {
    let smallest = smallest as usize;
    let (header, frame) = if has_codes(mode) {
        (8, smallest)
    } else {
        (5, smallest + 1)
    };
    if header < frame {
        Answer(Err(Unread::NeedMore))
    } else {
        Answer::record(frame)
    }
}

// The lengths of a line, and one below and one above them. A type byte is not counted by the length, and stands before it.
fn is_bounded(to: &mut Output, mode: u8, line: Line) -> bool {
    let Line(_, tag, smallest, limit, _) = line;
    let place = if has_codes(mode) { 0 } else { 1 };
    let below = Answer::refused(Refusal::LengthTooSmall, place);
    let above = Answer::refused(Refusal::LengthAboveLimit, place);
    let refused_below = gets(to, mode, tag, smallest.wrapping_sub(1), below);
    let taken_from = gets(to, mode, tag, smallest, smallest_frame(mode, smallest));
    let taken_to = gets(to, mode, tag, limit, Answer(Err(Unread::NeedMore)));
    let refused_above = gets(to, mode, tag, limit.wrapping_add(1), above);
    refused_below && taken_from && taken_to && refused_above
}

// Whether decoding does with a type byte, an answer byte or a code what the mode's table says. An answer byte is all of a frame, or none.
pub fn is_right(to: &mut Output, mode: u8, tag: u32) -> bool {
    match tables::find(mode, tag) {
        Some(_) if is_bare(mode) => gets(to, mode, tag, 0, Answer::record(1)),
        None if is_bare(mode) => gets(to, mode, tag, 0, Answer::refused(Refusal::TypeUnknown, 0)),
        Some(line) => is_bounded(to, mode, line),
        None => is_unknown(to, mode, tag),
    }
}
