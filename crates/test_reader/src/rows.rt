// A whole row, read into two lists that hold marks, and both lists after it.
use protocol::List;
use protocol::refusal::Unread;
use reader::row::data_row;
use test_cases::Output;
use test_cases::shown::{Shown, Spaced};

// An entry that is kept is seen, and where it stands.
const STARTS: [usize; 4] = [900, 901, 902, 903];

const LENGTHS: [i32; 4] = [-900, -901, -902, -903];

fn write_row(to: &mut Output, row: Result<(List, usize), Unread>) {
    match row {
        Ok((list, consumed)) => write!(to, "{}, {consumed} consumed", Shown(list)),
        Err(unread) => write!(to, "{}", Shown(unread)),
    }
}

// A row, read into lists of `start_count` and `length_count` entries.
pub fn answer(to: &mut Output, buf: &[u8], start_count: usize, length_count: usize) -> Option<()> {
    let mut starts = STARTS;
    let mut lengths = LENGTHS;
    let starts = starts.get_mut(..start_count)?;
    let lengths = lengths.get_mut(..length_count)?;
    write_row(to, data_row(buf, starts, lengths));
    write!(to, "; starts{}; lengths{}", Spaced(starts), Spaced(lengths));
    Some(())
}
