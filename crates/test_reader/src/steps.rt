// A step at a place of a frame: what the function of a slice and a place answers, and then what a reader sent there answers.
use crate::through;
use codec::Cursor;
use protocol::Span;
use protocol::refusal::{Refusal, Refused};
use std::fmt;
use test_cases::Output;
use test_cases::shown::Shown;

// A step that can only be cut: what is read, and the next place.
#[derive(Clone, Copy)]
struct Step<T>(Option<(T, Cursor)>);

impl<T: fmt::Display> fmt::Display for Step<T> {
    fn fmt<W: fmt::Write>(&self, f: &mut fmt::Formatter<W>) -> fmt::Result {
        match &self.0 {
            Some((read, next)) => write!(f, "{read} next {}", next.at),
            None => f.write_str("cut"),
        }
    }
}

fn string(step: Option<(Span, Cursor)>) -> Step<Shown<Span>> {
    Step(step.map(|(span, next)| (Shown(span), next)))
}

#[derive(Clone, Copy)]
struct Value(Result<(Option<Span>, Cursor), Refused>);

impl fmt::Display for Value {
    fn fmt<W: fmt::Write>(&self, f: &mut fmt::Formatter<W>) -> fmt::Result {
        match self.0 {
            Ok((Some(value), next)) => write!(f, "{} next {}", Shown(value), next.at),
            Ok((None, next)) => write!(f, "null next {}", next.at),
            Err(refused) if refused.refusal == Refusal::Cut => f.write_str("cut"),
            Err(_) => f.write_str("below null"),
        }
    }
}

fn write_both<D: fmt::Display + Drop>(to: &mut Output, direct: D, by_reader: D) -> Option<()> {
    write!(to, "{direct}; by a reader {by_reader}");
    Some(())
}

pub fn answer(to: &mut Output, name: u8, frame: &[u8], at: usize) -> Option<()> {
    match name {
        b'b' => write_both(
            to,
            Step(reader::byte_at(frame, at)),
            Step(through::byte_through(frame, at)),
        ),
        b'h' => write_both(
            to,
            Step(reader::half_at(frame, at)),
            Step(through::half_through(frame, at)),
        ),
        b'w' => write_both(
            to,
            Step(reader::word_at(frame, at)),
            Step(through::word_through(frame, at)),
        ),
        b's' => write_both(
            to,
            string(reader::string_at(frame, at)),
            string(through::string_through(frame, at)),
        ),
        b'v' => write_both(
            to,
            Value(reader::value_at(frame, at)),
            Value(through::value_through(frame, at)),
        ),
        _ => None,
    }
}
