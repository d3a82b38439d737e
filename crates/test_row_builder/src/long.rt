// Calls on a long room. Behind an answer stand the room's first 12 bytes (7, where it is shorter), the row's last 4 with 4 behind it (none, where the
// room ends before), and how many of the room's bytes are spare.
use crate::calls::Call;
use protocol::kinds::LARGE_FRAME;
use row_builder::Row;
use test_cases::case::first;
use test_cases::shown::Hex;
use test_cases::{Output, SPARE, filled};

// Room for the longest frame and 15 bytes more.
pub const ROOM: usize = LARGE_FRAME + 15;

// What values are taken from: letters a, more than a row has room for.
#[derive(Drop)]
pub struct Letters([u8; ROOM]);

impl Letters {
    pub fn new() -> Letters {
        Letters(filled(b'a'))
    }

    // A value of so many letters.
    pub fn append(&self, count: usize) -> Call<'_> {
        Call::Append(first(&self.0, count))
    }
}

// How many of at most 255 bytes are spare.
fn spare_in_part(part: &[u8]) -> u8 {
    part.iter().fold(0, |spare: u8, byte| {
        spare.wrapping_add((*byte == SPARE) as u8)
    })
}

// The same of all. A part's count is a byte, since the compiler then compares many bytes at once.
fn spare_in(room: &[u8]) -> usize {
    room.chunks(255).fold(0, |spare: usize, part| {
        spare.wrapping_add(spare_in_part(part) as usize)
    })
}

// `most` bytes from a place on; where the room ends before, `least`.
fn part(room: &[u8], start: usize, most: usize, least: usize) -> Hex<'_> {
    let part = decode::part(room, start, most);
    if part.is_empty() {
        Hex(decode::part(room, start, least))
    } else {
        Hex(part)
    }
}

// A call, and what it leaves.
fn answer(to: &mut Output, call: Call<'_>, row: Row, room: &mut [u8]) -> Row {
    write!(to, "{call}: ");
    let next = call.answer(to, row, room);
    let end = next.size.wrapping_sub(4);
    write!(
        to,
        "; first{}; end{}",
        part(room, 0, 12, 7),
        part(room, end, 8, 4)
    );
    writeln!(to, "; spare {}", spare_in(room));
    next
}

// Calls one after the other, and the row that is kept behind the last.
pub fn answer_all(to: &mut Output, calls: &[Call<'_>], row: Row, room: &mut [u8]) -> Row {
    let mut row = row;
    for call in calls {
        row = answer(to, *call, row, room);
    }
    row
}
