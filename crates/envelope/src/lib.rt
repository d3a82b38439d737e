// What stands around a body, in the order of docs/FORMAT.md 3: the length, checked by the kind's line, before it, and nothing behind it.
// Inner: for crates of this library alone (docs/INNER.md).
#![tactic(auto)]

ghost use Rattle.std.specs.Prelude.{[], ◌≡◌, MatchResult, length};
ghost use Rattle.protocol.specs.Bytes.{signed_of};
ghost use Rattle.protocol.specs.Decode.{closed, decoded_by};
ghost use Rattle.protocol.specs.Kinds as K;
ghost use Rattle.protocol.specs.Told.{decoded};
ghost use Rattle.protocol.specs.declared.refusal.Refusal.TheVariants as R;
ghost use Rattle.protocol.specs.declared.refusal.Unread.TheVariants as U;
ghost use Rattle.envelope.specs.Steps.{Framed, decode_made, end_in, end_of, headed, unread};

use codec::Cursor;
use protocol::kinds::{LONGEST, Line};
use protocol::refusal::{Refusal, Unread};
use protocol::{Message, Rules};

// Where the body of a frame starts: after a type byte and the length, and after the length and a code.
pub const TYPED_BODY: usize = 5;

pub const UNTYPED_BODY: usize = 8;

// Where the frame ends, by the length's checks by a line: `line.2` is the smallest length, `line.3` the limit. The length word stands at `place`, and counts
// itself and all that follows it; `have` bytes are there.
fn frame_end(length: u32, line: Line, place: u8, have: usize) -> Result<usize, Unread>
    ensures { headed result ≡ end_of line place have (signed_of 4 «length») }
{
    let place = place as usize;
    if LONGEST < length {
        return Err(Unread::Refused(Refusal::LengthTooSmall.at(place)));
    }
    if length < line.2 {
        return Err(Unread::Refused(Refusal::LengthTooSmall.at(place)));
    }
    if line.3 < length {
        return Err(Unread::Refused(Refusal::LengthAboveLimit.at(place)));
    }
    let end = place + (length as usize);
    if have < end {
        return Err(Unread::NeedMore);
    }
    Ok(end)
}

// The frame, of a type byte and then its length.
pub fn typed(buf: &[u8], line: Line) -> Result<&[u8], Unread>
    ensures { MatchResult result (λ f. Framed (end_in K.typed line buf.now) buf.now f.now) (λ u. unread u ≡ end_in K.typed line buf.now) }
{
    let c = Cursor { at: 1 };
    let Some((length, _)) = c.word(buf) else {
        return Err(Unread::NeedMore);
    };
    let end = frame_end(length, line, 1, buf.len())?;
    Ok(&buf[..end])
}

// The frame, of its length and then a code. It waits for the code too, so that one function for both would have to be told which it is.
pub fn untyped(buf: &[u8], line: Line) -> Result<&[u8], Unread>
    ensures { MatchResult result (λ f. Framed (end_in K.untyped line buf.now) buf.now f.now) (λ u. unread u ≡ end_in K.untyped line buf.now) }
{
    if buf.len() < UNTYPED_BODY {
        return Err(Unread::NeedMore);
    }
    let c = Cursor { at: 0 };
    let Some((length, _)) = c.word(buf) else {
        return Err(Unread::NeedMore);
    };
    let end = frame_end(length, line, 0, buf.len())?;
    Ok(&buf[..end])
}

// What begins at the cursor is cut by the frame's end.
pub fn cut(c: Cursor) -> Unread
    ensures { result ≡ U.Refused (record { refusal = R.Cut; place = c.at }) }
{
    Unread::Refused(Refusal::Cut.at(c.at))
}

// After the last field: the record and the bytes consumed, or the first byte left over.
pub fn finished(frame: &[u8], c: Cursor, message: Message) -> Result<(Message, usize), Unread>
    ensures { decoded result ≡ decoded_by (closed frame.now c.at message) (length frame.now) }
{
    let at = c.at;
    if at < frame.len() {
        return Err(Unread::Refused(Refusal::BytesLeft.at(at)));
    }
    Ok((message, frame.len()))
}

// A kind with no field.
pub fn fieldless(
    rules: Rules,
    buf: &[u8],
    line: Line,
    message: Message,
) -> Result<(Message, usize), Unread>
    ensures { decoded result ≡ decode_made rules K.typed line [] (λ _. message) buf.now }
{
    let frame = typed(buf, line)?;
    finished(frame, Cursor { at: TYPED_BODY }, message)
}
