// Each call, with its answer in text. Row and room go beside each other, as the calls have them.
use row_builder::Row;
use std::fmt;
use test_cases::Output;
use test_cases::shown::Shown;

#[derive(Clone, Copy)]
pub enum Call<'a> {
    Begin,
    Append(&'a [u8]),
    AppendNull,
    DropLast,
    Finish,
}

impl fmt::Display for Call<'_> {
    fn fmt<W: fmt::Write>(&self, f: &mut fmt::Formatter<W>) -> fmt::Result {
        match self {
            Call::Begin => f.write_str("begin"),
            Call::Append(value) => write!(f, "value of {}", value.len()),
            Call::AppendNull => f.write_str("null"),
            Call::DropLast => f.write_str("drop"),
            Call::Finish => f.write_str("finish"),
        }
    }
}

impl Call<'_> {
    // Calls, and gives the row that the caller keeps from then on: after a refusal and after `finish`, the one from before.
    pub fn answer(self, to: &mut Output, row: Row, room: &mut [u8]) -> Row {
        let built = match self {
            Call::Begin => row_builder::begin(room),
            Call::Append(value) => row_builder::append(row, room, value),
            Call::AppendNull => row_builder::append_null(row, room),
            Call::DropLast => row_builder::drop_last(row, room),
            Call::Finish => {
                write!(to, "{}", Shown(row_builder::finish(row, room)));
                return row;
            }
        };
        match built {
            Ok(next) => {
                write!(to, "row {} {}", next.columns, next.size);
                next
            }
            Err(refused) => {
                write!(to, "{}", Shown(refused));
                row
            }
        }
    }
}
