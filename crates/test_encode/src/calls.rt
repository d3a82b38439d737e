// A case's call, and the rest of its line.
use crate::call::Call;
use crate::case::{Case, ROOM};
use crate::text::write_answer;
use crate::{boundary, direct, long};
use protocol::Span;
use protocol::data::FieldDescription;
use test_cases::case::first;
use test_cases::{Output, SPARE};

// The encoder's answer, and its output after the call. The boundary's, in an output of its own, are the same.
fn answer_in(to: &mut Output, call: &Call<'_>, out: &mut [u8], other: &mut [u8]) {
    let encoded = direct::encode(call, out);
    let number = boundary::encode(call, other);
    write_answer(to, encoded, out);
    if !boundary::tells(number, encoded) || *out != *other {
        write!(to, " WRONG at the boundary");
    }
}

// The same in outputs of `size` bytes. None where there is no such room.
fn answer_of(
    to: &mut Output,
    call: &Call<'_>,
    size: usize,
    out: &mut [u8; ROOM],
    other: &mut [u8; ROOM],
) -> Option<()> {
    answer_in(to, call, out.get_mut(..size)?, other.get_mut(..size)?);
    Some(())
}

// The arrays are lent whole: the check would compute their values, to find the length of a part.
pub fn answer(to: &mut Output, call: &Call<'_>, size: usize) -> Option<()> {
    let mut out = [SPARE; ROOM];
    let mut other = [SPARE; ROOM];
    answer_of(to, call, size, &mut out, &mut other)
}

// A field with this name in the run, and with numbers whose bytes differ.
fn field(start: usize, len: usize) -> FieldDescription {
    FieldDescription {
        name: Span { start, len },
        table_id: -2,
        column_id: 258,
        type_id: 4278255360,
        type_size: -1,
        type_modifier: 16909060,
        format_code: 1,
    }
}

// The call that the case is.
pub fn answer_case(to: &mut Output, case: &Case) -> Option<()> {
    if case.is_repeated() {
        return long::answer(to, case);
    }
    let fields = [
        field(case.start(), case.len()),
        field(case.next_start(), case.next_len()),
    ];
    let count = if case.has_two_pairs() { 2 } else { 1 };
    let call = Call {
        fields: first(&fields, count),
        ..Call::of(case)
    };
    answer(to, &call, case.room())
}
