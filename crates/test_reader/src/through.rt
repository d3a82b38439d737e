// By a frame reader: it is made over the frame and sent to a place, and reads there.
ghost use Rattle.std.specs.Prelude.{◌≡◌};
ghost use Rattle.protocol.specs.Reading.{read_number, read_text, read_value};
ghost use Rattle.codec.specs.CursorRead.{step_read, value_read};

use codec::Cursor;
use protocol::Span;
use protocol::refusal::Refused;
use reader::FrameReader;

pub fn byte_through(frame: &[u8], at: usize) -> Option<(u8, Cursor)>
    ensures { step_read at result ≡ read_number 1 frame.now at }
{
    FrameReader::new(frame).to(at).byte()
}

pub fn half_through(frame: &[u8], at: usize) -> Option<(u16, Cursor)>
    ensures { step_read at result ≡ read_number 2 frame.now at }
{
    FrameReader::new(frame).to(at).half()
}

pub fn word_through(frame: &[u8], at: usize) -> Option<(u32, Cursor)>
    ensures { step_read at result ≡ read_number 4 frame.now at }
{
    FrameReader::new(frame).to(at).word()
}

pub fn string_through(frame: &[u8], at: usize) -> Option<(Span, Cursor)>
    ensures { step_read at result ≡ read_text frame.now at }
{
    FrameReader::new(frame).to(at).string()
}

pub fn value_through(frame: &[u8], at: usize) -> Result<(Option<Span>, Cursor), Refused>
    ensures { value_read result ≡ read_value frame.now at }
{
    FrameReader::new(frame).to(at).value()
}

// Where a reader stands when it is made.
pub fn place_of_new(frame: &[u8]) -> usize
    ensures { result ≡ 5 }
{
    FrameReader::new(frame).at
}
