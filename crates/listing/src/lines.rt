// The lines of a listing. Each has room for the longest. Like the writers that it calls, each takes the output and a place, and the place comes back advanced.
ghost use Rattle.std.specs.Prelude.{◌+◌, ◌≤◌, ◌++◌, length};
ghost use Rattle.protocol.specs.Stream.{refused};
ghost use Rattle.protocol.specs.Told.{number_of};
ghost use Rattle.listing.specs.Listing.{bad_line, end_line, end_told, frame_line, newline};
ghost use Rattle.listing.specs.Text.{Wrote, decimal};

use crate::names::put_name;
use crate::text::put_number;
use crate::{BadInput, End};
use protocol::Message;
use protocol::refusal::Refusal;
use writers::{put_byte, put_bytes};

// The line of a frame: its place, its kind's name and its bytes.
pub fn put_frame(out: &mut [u8], at: usize, place: usize, message: Message, bytes: usize) -> usize
    requires { at + 64 ≤ length out.old }
    ensures wrote { Wrote out.old at (frame_line place message bytes) out.new result }
    ensures upper_bound { result ≤ at + 64 }
{
    let at = put_number(out, at, place);
    let at = put_byte(out, at, b' ');
    let at = put_name(out, at, message);
    let at = put_byte(out, at, b' ');
    let at = put_number(out, at, bytes);
    put_byte(out, at, b'\n')
}

// Words and a place.
fn put_words(out: &mut [u8], at: usize, words: &[u8], place: usize) -> usize
    requires { (at + 64 ≤ length out.old) × (length words.now ≤ 14) }
    ensures wrote { Wrote out.old at (words.now ++ decimal place ++ newline) out.new result }
    ensures upper_bound { result ≤ at + 64 }
{
    let at = put_bytes(out, at, words);
    let at = put_number(out, at, place);
    put_byte(out, at, b'\n')
}

// How a stream ends, and the place where the unread frame begins.
pub fn put_end(out: &mut [u8], at: usize, end: End, place: usize) -> usize
    requires { at + 64 ≤ length out.old }
    ensures wrote { Wrote out.old at (end_line (end_told end) place) out.new result }
    ensures upper_bound { result ≤ at + 64 }
{
    match end {
        End::Whole => put_words(out, at, b"end whole ", place),
        End::NeedMore => put_words(out, at, b"end need-more ", place),
        End::Refused(refusal) => put_refused(out, at, refusal, place),
    }
}

fn put_refused(out: &mut [u8], at: usize, refusal: Refusal, place: usize) -> usize
    requires { at + 64 ≤ length out.old }
    ensures wrote { Wrote out.old at (end_line (refused (number_of refusal)) place) out.new result }
    ensures upper_bound { result ≤ at + 64 }
{
    let at = put_bytes(out, at, b"end refused ");
    let at = put_number(out, at, refusal.number() as usize);
    let at = put_byte(out, at, b' ');
    let at = put_number(out, at, place);
    put_byte(out, at, b'\n')
}

// What is wrong with an input.
pub fn put_bad(out: &mut [u8], at: usize, bad: BadInput) -> usize
    requires { at + 64 ≤ length out.old }
    ensures wrote { Wrote out.old at (bad_line bad) out.new result }
    ensures upper_bound { result ≤ at + 64 }
{
    match bad {
        BadInput::NoMode => put_bytes(out, at, b"end mode 0\n"),
        BadInput::Oversize => put_bytes(out, at, b"end oversize 0\n"),
    }
}
