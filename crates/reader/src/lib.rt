// A frame reader that keeps a reference to the frame's bytes, for hosts that read field after field. Each method that reads takes
// the reader apart and leaves the work to a function over a plain slice and a place, which calls the cursor.
#![tactic(auto)]

ghost use Rattle.std.specs.Prelude.{◌≡◌};
ghost use Rattle.protocol.specs.Reading.{read_number, read_text, read_value};
ghost use Rattle.codec.specs.CursorRead.{step_read, value_read};

pub mod row;

use codec::Cursor;
use protocol::refusal::Refused;
use protocol::{Span, rules_of};

// A frame, and where its next field begins.
#[derive(Clone, Copy)]
pub struct FrameReader<'a> {
    pub frame: &'a [u8],
    pub at: usize,
}

// ---- the cursor over a plain slice, at a place

pub fn byte_at(frame: &[u8], at: usize) -> Option<(u8, Cursor)>
    ensures { step_read at result ≡ read_number 1 frame.now at }
{
    Cursor { at }.byte(frame)
}

pub fn half_at(frame: &[u8], at: usize) -> Option<(u16, Cursor)>
    ensures { step_read at result ≡ read_number 2 frame.now at }
{
    Cursor { at }.half(frame)
}

pub fn word_at(frame: &[u8], at: usize) -> Option<(u32, Cursor)>
    ensures { step_read at result ≡ read_number 4 frame.now at }
{
    Cursor { at }.word(frame)
}

pub fn string_at(frame: &[u8], at: usize) -> Option<(Span, Cursor)>
    ensures { step_read at result ≡ read_text frame.now at }
{
    Cursor { at }.text(rules_of(0), frame)
}

pub fn value_at(frame: &[u8], at: usize) -> Result<(Option<Span>, Cursor), Refused>
    ensures { value_read result ≡ read_value frame.now at }
{
    Cursor { at }.value(frame)
}

// ---- the reader

impl<'a> FrameReader<'a> {
    // A reader of a frame with a type byte and a length, at its body.
    pub fn new(frame: &'a [u8]) -> FrameReader<'a>
        ensures { (result.frame ≡ frame.entry) × (result.at ≡ 5) }
    {
        FrameReader { frame, at: 5 }
    }

    // The reader at a place, as a step's answer gives it.
    pub fn to(self, at: usize) -> FrameReader<'a>
        ensures { (result.frame ≡ self.entry.frame) × (result.at ≡ at) }
    {
        FrameReader { at, ..self }
    }

    pub fn byte(self) -> Option<(u8, Cursor)>
        ensures { step_read self.entry.at result ≡ read_number 1 self.entry.frame.now self.entry.at }
    {
        byte_at(self.frame, self.at)
    }

    pub fn half(self) -> Option<(u16, Cursor)>
        ensures { step_read self.entry.at result ≡ read_number 2 self.entry.frame.now self.entry.at }
    {
        half_at(self.frame, self.at)
    }

    pub fn word(self) -> Option<(u32, Cursor)>
        ensures { step_read self.entry.at result ≡ read_number 4 self.entry.frame.now self.entry.at }
    {
        word_at(self.frame, self.at)
    }

    pub fn string(self) -> Option<(Span, Cursor)>
        ensures { step_read self.entry.at result ≡ read_text self.entry.frame.now self.entry.at }
    {
        string_at(self.frame, self.at)
    }

    pub fn value(self) -> Result<(Option<Span>, Cursor), Refused>
        ensures { value_read result ≡ read_value self.entry.frame.now self.entry.at }
    {
        value_at(self.frame, self.at)
    }
}
