// The most columns, 32,767. As many NULLs have a frame of 7 + 4 * 32,767 = 131,075 bytes, and one fewer 131,071. To build these by calls would take
// long, as each call passes over every column: a row of 32,766 is encoded, and its numbers are the row, as 32,766 calls would give it.
use crate::calls::Call;
use crate::long::{Letters, ROOM, answer_all};
use protocol::Message;
use row_builder::Row;
use test_cases::shown::Shown;
use test_cases::{Output, SPARE, filled};

// A count of 32,768 has its top bit set; so many NULLs have a frame of 131,079 bytes, and the length 131,078 (00 02 00 06).
const TOO_MANY: usize = 131079;

fn write_decoded(to: &mut Output, room: &[u8]) {
    write!(to, "decoded: ");
    match decode::decode(1, room) {
        Ok((Message::DataRow(row), consumed)) => {
            writeln!(to, "{}, {consumed} consumed", Shown(row.data))
        }
        Ok((_, consumed)) => writeln!(to, "another message, {consumed} consumed"),
        Err(unread) => writeln!(to, "{}", Shown(unread)),
    }
}

fn put_nulls(to: &mut Output, room: &mut [u8]) {
    let lengths = [-1i32; 32766];
    write!(
        to,
        "32766 columns of NULL, in a room of {} bytes: ",
        room.len()
    );
    writeln!(to, "{}", Shown(encode::data::data_row(&lengths, b"", room)));
}

// The last column that there may be. One more is refused before its length is looked at. After a drop there may be one more again.
fn full_row(to: &mut Output, letters: &Letters, room: &mut [u8]) {
    let row = Row {
        columns: 32766,
        size: 131071,
    };
    let calls = [
        Call::Finish,
        Call::AppendNull,
        Call::AppendNull,
        letters.append(0),
        letters.append(1),
        letters.append(1048567),
        Call::Finish,
        Call::DropLast,
        letters.append(1),
    ];
    put_nulls(to, room);
    let row = answer_all(to, &calls, row, room);
    write_decoded(to, room);
    answer_all(to, &[Call::DropLast, Call::AppendNull], row, room);
}

// In as many bytes as are lent.
fn full_row_in(to: &mut Output, letters: &Letters, lent: usize) {
    let mut room: [u8; ROOM] = filled(SPARE);
    if let Some(room) = room.get_mut(..lent) {
        full_row(to, letters, room);
    }
}

// A frame of one column more than there may be, with its right numbers.
fn too_many(to: &mut Output, letters: &Letters) {
    let mut room: [u8; TOO_MANY] = filled(255);
    let row = Row {
        columns: 32768,
        size: TOO_MANY,
    };
    let calls = [
        letters.append(1),
        Call::AppendNull,
        Call::DropLast,
        Call::Finish,
    ];
    room[..7].copy_from_slice(b"D\0\x02\0\x06\x80\0");
    write!(to, "32768 columns of NULL, ");
    write_decoded(to, &room);
    answer_all(to, &calls, row, &mut room);
}

// Space behind the longest; exactly the size of 32,767 NULLs, and one byte less.
pub fn answer_each(to: &mut Output) {
    let letters = Letters::new();
    for lent in [131088, 131075, 131074] {
        full_row_in(to, &letters, lent);
    }
    too_many(to, &letters);
}
