// Answers of the library, in text.
use protocol::refusal::{Refused, Unread};
use protocol::{List, Span};
use std::fmt;

// A value of the library, as the programs write it.
#[derive(Clone, Copy)]
pub struct Shown<T>(pub T);

// A string, a value or a rest.
impl fmt::Display for Shown<Span> {
    fn fmt<W: fmt::Write>(&self, f: &mut fmt::Formatter<W>) -> fmt::Result {
        write!(f, "{}+{}", self.0.start, self.0.len)
    }
}

impl fmt::Display for Shown<List> {
    fn fmt<W: fmt::Write>(&self, f: &mut fmt::Formatter<W>) -> fmt::Result {
        write!(f, "{}x{}", self.0.start, self.0.count)
    }
}

impl fmt::Display for Shown<Refused> {
    fn fmt<W: fmt::Write>(&self, f: &mut fmt::Formatter<W>) -> fmt::Result {
        write!(f, "refused {} at {}", self.0.refusal.number(), self.0.place)
    }
}

impl fmt::Display for Shown<Unread> {
    fn fmt<W: fmt::Write>(&self, f: &mut fmt::Formatter<W>) -> fmt::Result {
        match self.0 {
            Unread::NeedMore => f.write_str("need-more"),
            Unread::Refused(refused) => write!(f, "{}", Shown(refused)),
        }
    }
}

// What an encoder answers.
impl fmt::Display for Shown<Result<usize, Refused>> {
    fn fmt<W: fmt::Write>(&self, f: &mut fmt::Formatter<W>) -> fmt::Result {
        match self.0 {
            Ok(size) => write!(f, "done {size}"),
            Err(refused) => write!(f, "{}", Shown(refused)),
        }
    }
}

// Bytes in hexadecimal digits, each after a space.
#[derive(Clone, Copy)]
pub struct Hex<'a>(pub &'a [u8]);

impl fmt::Display for Hex<'_> {
    fn fmt<W: fmt::Write>(&self, f: &mut fmt::Formatter<W>) -> fmt::Result {
        for byte in self.0 {
            write!(f, " {byte:02x}")?;
        }
        Ok(())
    }
}

// Items, each after a space.
#[derive(Clone, Copy)]
pub struct Spaced<'a, T>(pub &'a [T]);

impl<T: fmt::Display> fmt::Display for Spaced<'_, T> {
    fn fmt<W: fmt::Write>(&self, f: &mut fmt::Formatter<W>) -> fmt::Result {
        for item in self.0 {
            write!(f, " {item}")?;
        }
        Ok(())
    }
}
