// The limit of a row's length, 1,048,576, which is 00 10 00 00: its frame has 1,048,577 bytes. A row of one value of n bytes has the length
// 4 + 2 + 4 + n: the limit is reached with n = 1,048,566 (00 0F FF F6), and with n = 1,048,562 (00 0F FF F2) and 4 bytes, NULL or an empty value.
use crate::calls::Call;
use crate::long::{Letters, ROOM, answer_all};
use row_builder::Row;
use test_cases::{Output, SPARE, filled};

// The row before the first call.
const NONE: Row = Row {
    columns: 0,
    size: 0,
};

// One byte above the limit, and the limit; then what a full row refuses. A room that is too short as well does not change 4 to 9.
fn by_value(to: &mut Output, letters: &Letters, room: &mut [u8]) {
    let calls = [
        Call::Begin,
        letters.append(1048567),
        letters.append(1048566),
        Call::AppendNull,
        letters.append(0),
        Call::Finish,
        Call::DropLast,
    ];
    writeln!(
        to,
        "the limit by a value, in a room of {} bytes",
        room.len()
    );
    answer_all(to, &calls, NONE, room);
}

// In as many bytes as are lent.
fn by_value_in(to: &mut Output, letters: &Letters, lent: usize) {
    let mut room: [u8; ROOM] = filled(SPARE);
    if let Some(room) = room.get_mut(..lent) {
        by_value(to, letters, room);
    }
}

// With numbers that are not the row's, 10 comes before 4.
fn forged(to: &mut Output, letters: &Letters, room: &mut [u8]) {
    let row = Row {
        columns: 2,
        size: 1048574,
    };
    let calls = [
        letters.append(1048567),
        Call::AppendNull,
        Call::DropLast,
        Call::Finish,
    ];
    writeln!(to, "with a count of 2 kept");
    answer_all(to, &calls, row, room);
}

// NULL reaches the limit, and another is refused; an empty value reaches it too. With one byte more in the first column both are above it.
fn by_null(to: &mut Output, letters: &Letters) {
    let mut room: [u8; ROOM] = filled(SPARE);
    let calls = [
        Call::Begin,
        letters.append(1048562),
        Call::AppendNull,
        Call::AppendNull,
        Call::DropLast,
        letters.append(0),
        Call::DropLast,
        Call::DropLast,
        letters.append(1048563),
        Call::AppendNull,
        letters.append(0),
        Call::Finish,
    ];
    writeln!(to, "the limit by NULL, in a room of {ROOM} bytes");
    answer_all(to, &calls, NONE, &mut room);
    forged(to, letters, &mut room);
}

// Space behind the longest frame; exactly its size, and one byte less; an empty row's.
pub fn answer_each(to: &mut Output) {
    let letters = Letters::new();
    for lent in [ROOM, 1048577, 1048576, 7] {
        by_value_in(to, &letters, lent);
    }
    by_null(to, &letters);
}
