// The cursor over one frame, as codec.rs reads a buffer: it goes in by value and comes back advanced, or the answer is a fault.
// The frame ends where the lent slice ends, so nothing past it can be read.
// Its functions are inner: for crates of this library alone (docs/INNER.md). Those for a byte, a half and a word, and for signed
// ones, stay three, as their types do: a generic one would want a trait of three impls for `from_be_bytes` or `cast_signed`, which is longer than they are.
#![tactic(auto)]

ghost use Rattle.std.specs.Prelude.{◌+◌, ◌*◌, ◌/◌, ◌%◌, ◌^◌, ◌≤◌, ◌<◌, ◌≡◌, ltb, get_or, length};
ghost use Rattle.protocol.specs.Bytes.{number_at, signed_of};
ghost use Rattle.protocol.specs.Fields.{most, text};
ghost use Rattle.protocol.specs.Kinds.{formats, nullable, oids, values};
ghost use Rattle.protocol.specs.Reading.{got, pass_items, read, read_atom, read_count, read_number, read_rest, read_value};
ghost use Rattle.codec.specs.CursorRead.{listed_read, passed_read, step_read, value_read};
ghost use Rattle.codec.specs.Fixed.{read_fixed};
ghost use Rattle.codec.specs.Words.{WordsEnd};

use protocol::kinds::{LONGEST, MOST_SIGNED};
use protocol::refusal::{Refusal, Refused};
use protocol::{Count, List, Rules, Span};
use scan::zero_from;

// The largest count that is not negative, as its two bytes are read.
const MOST: u16 = MOST_SIGNED as u16;

// The length word that stands for NULL: -1.
pub const NULL: u32 = u32::MAX;

// Each step goes from a cursor to the next one, and answers the field with it: None where the field is cut, so that its refusal's place is the cursor's own;
// a refusal with its place where there are several. A cursor is a place alone: with the frame in it, each step's contract would have to say too that the next
// cursor has the same frame.
#[derive(Clone, Copy, Debug, PartialEq, Eq)]
pub struct Cursor {
    pub at: usize,
}

// A number of 1, 2 or 4 bytes, read as a signed one in two's complement.
pub fn signed8(byte: u8) -> i8
    ensures { result ≡ signed_of 1 byte }
{
    byte.cast_signed()
}

pub fn signed16(half: u16) -> i16
    ensures { result ≡ signed_of 2 half }
{
    half.cast_signed()
}

pub fn signed32(word: u32) -> i32
    ensures { result ≡ signed_of 4 word }
{
    word.cast_signed()
}

// Whether a count is negative, which one without a sign never is. That it has two bytes is told too, for the proof of its caller.
fn negative(reading: Count, count: u16) -> bool
    ensures { (result ≡ ltb (most reading) count) × (count < 256 ^ 2) }
{
    match reading {
        Count::Signed => MOST < count,
        Count::Unsigned => false,
    }
}

// The word at a place.
fn word_at(s: &[u8], at: usize) -> u32
    requires { at + 4 ≤ length s.now }
    ensures { result ≡ number_at 4 s.now at }
{
    u32::from_be_bytes([s[at], s[at + 1], s[at + 2], s[at + 3]])
}

// Where the places end at which a length word fits; 0 where there is none, or the frame is too long for the test below. It is no Option: no place is below 0, so
// that one comparison tells both.
fn words_end(frame: &[u8]) -> usize
    ensures { WordsEnd frame.now result }
{
    if frame.len() < 4 {
        return 0;
    }
    if (LONGEST as usize) < frame.len() {
        return 0;
    }
    frame.len() - 3
}

impl Cursor {
    pub fn byte(self, frame: &[u8]) -> Option<(u8, Cursor)>
        ensures { step_read self.at result ≡ read_number 1 frame.now self.at }
    {
        let at = self.at;
        let byte = frame.get(at)?;
        Some((*byte, Cursor { at: at + 1 }))
    }

    pub fn half(self, frame: &[u8]) -> Option<(u16, Cursor)>
        ensures { step_read self.at result ≡ read_number 2 frame.now self.at }
    {
        let at = self.at;
        let [a, b, ..] = frame.get(at..)? else {
            return None;
        };
        Some((u16::from_be_bytes([*a, *b]), Cursor { at: at + 2 }))
    }

    pub fn word(self, frame: &[u8]) -> Option<(u32, Cursor)>
        ensures { step_read self.at result ≡ read_number 4 frame.now self.at }
    {
        let at = self.at;
        let [a, b, c, d, ..] = frame.get(at..)? else {
            return None;
        };
        Some((u32::from_be_bytes([*a, *b, *c, *d]), Cursor { at: at + 4 }))
    }

    // A string, up to its zero byte. A missing zero byte is a cut string, never an empty one. The rules say how texts are read.
    pub fn text(self, rules: Rules, frame: &[u8]) -> Option<(Span, Cursor)>
        ensures { step_read self.at result ≡ read_atom rules text frame.now self.at }
    {
        let start = self.at;
        let zero = zero_from(frame, start);
        if zero < frame.len() {
            let len = zero - start;
            Some((Span { start, len }, Cursor { at: zero + 1 }))
        } else {
            None
        }
    }

    // A value: a signed 32-bit length and that many bytes, or NULL.
    pub fn value(self, frame: &[u8]) -> Result<(Option<Span>, Cursor), Refused>
        ensures { value_read result ≡ read_value frame.now self.at }
    {
        let Some((len, c)) = self.word(frame) else {
            return Err(Refusal::Cut.at(self.at));
        };
        if len == NULL {
            return Ok((None, c));
        }
        if LONGEST < len {
            return Err(Refusal::NotAllowed.at(self.at));
        }
        let start = c.at;
        let len = len as usize;
        if frame.len() - start < len {
            return Err(Refusal::Cut.at(self.at));
        }
        Ok((Some(Span { start, len }), Cursor { at: start + len }))
    }

    // All that is left of the frame. It has no fault, and ends where the frame ends.
    pub fn rest(self, frame: &[u8]) -> Span
        ensures { got result (length frame.now) ≡ read_rest frame.now self.at }
    {
        let start = self.at;
        Span {
            start,
            len: frame.len().saturating_sub(start),
        }
    }

    // The count of a list whose elements have at least `least` bytes each, read as the list's row says. The list starts after it.
    pub fn count(self, reading: Count, frame: &[u8], least: u8) -> Result<(List, Cursor), Refused>
        ensures { listed_read result ≡ read_count reading least frame.now self.at }
    {
        let Some((count, c)) = self.half(frame) else {
            return Err(Refusal::Cut.at(self.at));
        };
        if negative(reading, count) {
            return Err(Refusal::BadCount.at(self.at));
        }
        let start = c.at;
        let count = count as usize;
        if frame.len() - start < count * (least as usize) {
            return Err(Refusal::BadCount.at(self.at));
        }
        Ok((List { start, count }, c))
    }

    // A list whose elements have `size` bytes each is passed by arithmetic.
    fn fixed(self, reading: Count, frame: &[u8], size: u8) -> Result<(List, Cursor), Refused>
        ensures { listed_read result ≡ read_fixed reading size frame.now self.at }
    {
        let (list, c) = self.count(reading, frame, size)?;
        let at = c.at + list.count * (size as usize);
        Ok((list, Cursor { at }))
    }

    pub fn oids(self, rules: Rules, reading: Count, frame: &[u8]) -> Result<(List, Cursor), Refused>
        ensures { listed_read result ≡ read rules (oids reading) frame.now self.at }
    {
        self.fixed(reading, frame, 4)
    }

    pub fn formats(
        self,
        rules: Rules,
        reading: Count,
        frame: &[u8],
    ) -> Result<(List, Cursor), Refused>
        ensures { listed_read result ≡ read rules (formats reading) frame.now self.at }
    {
        self.fixed(reading, frame, 2)
    }

    // Past a value. Most are there and whole, which one comparison tells: a negative length is never below `ends`. NULL is told next.
    fn pass_value(self, rules: Rules, frame: &[u8], ends: usize) -> Result<Cursor, Refused>
        requires { WordsEnd frame.now ends }
        ensures { passed_read result ≡ pass_items rules nullable 1 frame.now self.at }
    {
        let at = self.at;
        if at < ends {
            let word = word_at(frame, at);
            let len = word as usize;
            if len < ends - at {
                return Ok(Cursor { at: at + 4 + len });
            }
            if word == NULL {
                return Ok(Cursor { at: at + 4 });
            }
        }
        let (_, next) = self.value(frame)?;
        Ok(next)
    }

    // Past `count` values, each checked.
    pub fn pass_values(self, rules: Rules, frame: &[u8], count: usize) -> Result<Cursor, Refused>
        ensures { passed_read result ≡ pass_items rules nullable count frame.now self.at }
    {
        let ends = words_end(frame);
        let mut c = self;
        for _ in 0..count {
            c = c.pass_value(rules, frame, ends)?;
        }
        Ok(c)
    }

    // Every value is checked.
    pub fn values(
        self,
        rules: Rules,
        reading: Count,
        frame: &[u8],
    ) -> Result<(List, Cursor), Refused>
        ensures { listed_read result ≡ read rules (values reading) frame.now self.at }
    {
        let (list, c) = self.count(reading, frame, 4)?;
        let c = c.pass_values(rules, frame, list.count)?;
        Ok((list, c))
    }
}
