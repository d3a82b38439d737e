// Histories in text: each line is a call, or changes between two calls what the caller keeps. It is written back with the answer and every byte of
// the room that is lent.
use crate::calls::Call;
use row_builder::Row;
use test_cases::case::{Head, first, read_bytes, read_head};
use test_cases::shown::Hex;
use test_cases::{Output, SPARE, answer_lines};

// The longest room.
const ROOM: usize = 64;

// What the caller keeps beside the room: how many of its bytes are lent, and the row.
#[derive(Clone, Copy)]
struct Kept {
    lent: usize,
    row: Row,
}

impl Kept {
    // Of a room that no call has seen: the row is one that no room begins with.
    fn new(lent: usize) -> Kept {
        let row = Row {
            columns: 0,
            size: 0,
        };
        Kept { lent, row }
    }
}

// Those that the room has a place for.
fn put_bytes(room: &mut [u8], place: usize, bytes: &[u8]) {
    for (i, byte) in bytes.iter().enumerate() {
        if let Some(to) = room.get_mut(place.wrapping_add(i)) {
            *to = *byte;
        }
    }
}

// A change between two calls, by the first letter of its name.
fn change(name: u8, head: Head<'_>, kept: Kept, room: &mut [u8], bytes: &[u8]) -> Option<Kept> {
    match name {
        b'r' => {
            room.fill(SPARE);
            Some(Kept::new(head.second))
        }
        b'l' => Some(Kept {
            lent: head.second,
            ..kept
        }),
        b's' => {
            let row = Row {
                columns: head.first,
                size: head.second,
            };
            Some(Kept { row, ..kept })
        }
        b'p' => {
            put_bytes(room, head.second, bytes);
            Some(kept)
        }
        _ => None,
    }
}

// A call, by the first letter of its name.
fn call_of(name: u8, value: &[u8]) -> Option<Call<'_>> {
    match name {
        b'b' => Some(Call::Begin),
        b'v' => Some(Call::Append(value)),
        b'n' => Some(Call::AppendNull),
        b'd' => Some(Call::DropLast),
        b'f' => Some(Call::Finish),
        _ => None,
    }
}

fn answer(to: &mut Output, line: &[u8], kept: Kept, room: &mut [u8]) -> Option<Kept> {
    let name = *line.first()?;
    let head = read_head(line);
    let mut given = [0u8; ROOM];
    let bytes = read_bytes(head.digits, &mut given)?;
    let Some(call) = call_of(name, bytes) else {
        return change(name, head, kept, room, bytes);
    };
    let lent = room.get_mut(..kept.lent)?;
    let row = call.answer(to, kept.row, lent);
    write!(to, "; ");
    Some(Kept { row, ..kept })
}

// No history uses a room that another left: each begins with a new one.
pub fn answer_each(to: &mut Output, input: &[u8]) {
    let mut room = [SPARE; ROOM];
    let mut kept = Kept::new(0);
    answer_lines(to, input, |to: &mut Output, line: &[u8]| {
        match answer(to, line, kept, &mut room) {
            Some(next) => kept = next,
            None => write!(to, "malformed case"),
        }
        write!(to, "room{}", Hex(first(&room, kept.lent)));
        Some(())
    });
}
