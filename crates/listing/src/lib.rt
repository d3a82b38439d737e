// The listing of a stream of frames: a line for each frame, and the end that follows them.
#![tactic(auto)]

ghost use Rattle.std.specs.Prelude.{◌+◌, ◌/◌, ◌≤◌, ◌≡◌, drop, length, Err};
ghost use Rattle.protocol.specs.Rules.{rules_of};
ghost use Rattle.protocol.specs.Stream.{step_at, step_by, stop};
ghost use Rattle.protocol.specs.Told.{decoded, mode_number};
ghost use Rattle.listing.specs.Listing.{Fills, Lined, end_told, line_from, line_of, lines_of, opening_of, opening_told, step_line, step_of, step_told};
ghost use Rattle.listing.specs.declared.BadInput.TheVariants as B;
ghost use Rattle.listing.specs.declared.Left.TheVariants as L;

mod lines;
mod names;
mod text;

use lines::{put_bad, put_end, put_frame};
use protocol::Message;
use protocol::mode::{Mode, UnknownMode};
use protocol::refusal::{Refusal, Refused, Unread};
use writers::put_bytes;

// The most bytes that may follow the mode.
pub const MOST: usize = 65536;

// What is wrong with an input: no mode is named at its start, or too many bytes follow it.
#[derive(Clone, Copy, Debug, PartialEq, Eq)]
pub enum BadInput {
    NoMode,
    Oversize,
}

impl From<UnknownMode> for BadInput {
    ghost from_gives = { λ _ bad. bad ≡ B.NoMode };

    fn from(_mode: UnknownMode) -> BadInput {
        BadInput::NoMode
    }
}

// How a stream ends: no byte is left, a frame's end has not arrived, or a frame is refused.
#[derive(Clone, Copy, Debug, PartialEq, Eq)]
pub enum End {
    Whole,
    NeedMore,
    Refused(Refusal),
}

impl From<Unread> for End {
    ghost from_gives = { λ unread end. stop (end_told end) ≡ step_by (decoded (Err unread)) };

    fn from(unread: Unread) -> End {
        match unread {
            Unread::NeedMore => End::NeedMore,
            Unread::Refused(Refused { refusal, .. }) => End::Refused(refusal),
        }
    }
}

// What is left of a listing: all of it, the lines from a place of the stream on, or nothing. It is no Option, since `Nothing` is a state that a listing
// comes to, and no answer in which a place is missing.
#[derive(Clone, Copy, Debug, PartialEq, Eq)]
pub enum Left {
    All,
    From(usize),
    Nothing,
}

// Where what was written ends, which is how many bytes it has from the output's start on, and what is left.
#[derive(Clone, Copy, Debug, PartialEq, Eq)]
pub struct Filled {
    pub count: usize,
    pub left: Left,
}

// What stands at a place of a stream: a frame's message and its bytes, or how the stream ends.
pub fn step_at(mode: u8, stream: &[u8], at: usize) -> Result<(Message, usize), End>
    ensures { step_of (step_told result) ≡ step_at (rules_of mode) stream.now at }
{
    if stream.len() <= at {
        return Err(End::Whole);
    }
    Ok(decode::decode(mode, &stream[at..])?)
}

// The mode that an input's first byte names. It is tested first, and then how many bytes follow it.
pub fn opening_of(input: &[u8]) -> Result<Mode, BadInput>
    ensures { opening_told result ≡ opening_of input.now }
{
    let [digit, stream @ ..] = input else {
        return Err(BadInput::NoMode);
    };
    let mode = Mode::try_from(digit.wrapping_sub(b'0'))?;
    if MOST < stream.len() {
        return Err(BadInput::Oversize);
    }
    Ok(mode)
}

impl Filled {
    // Nothing is left.
    fn last(count: usize) -> Filled
        ensures { result ≡ record { count = count; left = L.Nothing } }
    {
        Filled {
            count,
            left: Left::Nothing,
        }
    }
}

// The line at a place of a stream.
fn put_step(mode: Mode, stream: &[u8], place: usize, out: &mut [u8], at: usize) -> Filled
    requires { at + 64 ≤ length out.old }
    ensures { Lined (step_line place (step_at (rules_of (mode_number mode)) stream.now place)) out.old at out.new result }
{
    match step_at(mode as u8, stream, place) {
        Ok((message, bytes)) => Filled {
            count: put_frame(out, at, place, message, bytes),
            left: Left::From(place + bytes),
        },
        Err(end) => Filled::last(put_end(out, at, end, place)),
    }
}

// The line at a place of an input's stream, or what is wrong with the input.
fn put_from(input: &[u8], place: usize, out: &mut [u8], at: usize) -> Filled
    requires { at + 64 ≤ length out.old }
    ensures { Lined (line_from (opening_of input.now) (drop 1 input.now) place) out.old at out.new result }
{
    match opening_of(input) {
        Ok(mode) => put_step(mode, &input[1..], place, out, at),
        Err(bad) => Filled::last(put_bad(out, at, bad)),
    }
}

// The next line.
fn put_line(input: &[u8], left: Left, out: &mut [u8], at: usize) -> Filled
    requires { at + 64 ≤ length out.old }
    ensures { Lined (line_of input.now left) out.old at out.new result }
{
    match left {
        Left::All => Filled {
            count: put_bytes(out, at, b"at kind bytes\n"),
            left: Left::From(0),
        },
        Left::From(place) => put_from(input, place, out, at),
        Left::Nothing => Filled::last(at),
    }
}

// Writes the next lines at the start of `out`, one for each 64 bytes of it, or as many as are left.
pub fn fill(input: &[u8], left: Left, out: &mut [u8]) -> Filled
    ensures { Fills (lines_of (length out.old / 64) input.now left) out.old out.new result }
{
    let mut filled = Filled { count: 0, left };
    for _ in 0..out.len() / 64 {
        filled = put_line(input, filled.left, out, filled.count);
    }
    filled
}
