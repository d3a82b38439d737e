// Why a message is refused, with the refusals' numbers (docs/FORMAT.md 6), and what stands in an answer's place where nothing was read.
ghost use Rattle.std.specs.Prelude.{◌≡◌, Some};
ghost use Rattle.protocol.specs.Told.{number_of};
ghost use Rattle.protocol.specs.Words.{refusal_words, refused_words, unread_words};
ghost use Rattle.protocol.specs.declared.refusal.Unread.TheVariants as U;

use std::error::Error;
use std::fmt;

#[derive(Clone, Copy, Debug, PartialEq, Eq)]
pub enum Refusal {
    // The mode is none of 0 to 5.
    ModeUnknown = 1,
    // The type byte, the answer byte or the code is none of the mode's.
    TypeUnknown = 2,
    // The length word is below the kind's smallest length.
    LengthTooSmall = 3,
    // The length word is above the kind's limit.
    LengthAboveLimit = 4,
    // A count is negative, or larger than the bytes after it allow.
    BadCount = 5,
    // A number, code byte, string or value is cut by the frame's end.
    Cut = 6,
    // A target or status byte that is none, or a value's length below -1.
    NotAllowed = 7,
    // Bytes are left over after the last field.
    BytesLeft = 8,
    // Encoding: the output is too short.
    OutputTooShort = 9,
    // Encoding: the message cannot be written.
    NotRepresentable = 10,
    // Elements: the kind has no such list, or the list no such element.
    NoSuchElement = 11,
}

impl Refusal {
    pub fn number(self) -> u8
        ensures { result ≡ number_of self }
    {
        self as u8
    }

    // The refusal of what stands at a place, or begins there.
    pub fn at(self, place: usize) -> Refused
        ensures { result ≡ record { refusal = self; place = place } }
    {
        Refused {
            refusal: self,
            place,
        }
    }
}

impl fmt::Display for Refusal {
    ghost output = { λ x. Some (refusal_words x) };

    fn fmt<W: fmt::Write>(&self, f: &mut fmt::Formatter<W>) -> fmt::Result {
        f.write_str(match self {
            Refusal::ModeUnknown => "the mode is unknown",
            Refusal::TypeUnknown => "the type byte, answer byte or code is unknown",
            Refusal::LengthTooSmall => "the length is too small",
            Refusal::LengthAboveLimit => "the length is above the kind's limit",
            Refusal::BadCount => "a count is negative, or too large for the frame",
            Refusal::Cut => "a number, code byte, string or value is cut by the frame's end",
            Refusal::NotAllowed => "a target, a status, or a value's length below -1",
            Refusal::BytesLeft => "bytes are left over after the last field",
            Refusal::OutputTooShort => "the output is too short",
            Refusal::NotRepresentable => "the message cannot be written",
            Refusal::NoSuchElement => "the element's number is too large, or there is no such list",
        })
    }
}

// A refusal with its place: where what is refused stands, counted from the buffer's first byte.
#[derive(Clone, Copy, Debug, PartialEq, Eq)]
pub struct Refused {
    pub refusal: Refusal,
    pub place: usize,
}

impl fmt::Display for Refused {
    ghost output = { λ x. Some (refused_words x) };

    fn fmt<W: fmt::Write>(&self, f: &mut fmt::Formatter<W>) -> fmt::Result {
        write!(f, "{}, at {}", self.refusal, self.place)
    }
}

impl Error for Refused {}

// Why nothing was read: the frame's end has not arrived, or the message is refused.
#[derive(Clone, Copy, Debug, PartialEq, Eq)]
pub enum Unread {
    NeedMore,
    Refused(Refused),
}

impl From<Refused> for Unread {
    ghost from_gives = { λ refused unread. unread ≡ U.Refused refused };

    fn from(refused: Refused) -> Unread {
        Unread::Refused(refused)
    }
}

impl fmt::Display for Unread {
    ghost output = { λ x. Some (unread_words x) };

    fn fmt<W: fmt::Write>(&self, f: &mut fmt::Formatter<W>) -> fmt::Result {
        match self {
            Unread::NeedMore => f.write_str("the frame's end has not arrived"),
            Unread::Refused(refused) => write!(f, "{refused}"),
        }
    }
}

impl Error for Unread {}
