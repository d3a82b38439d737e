// A whole DataRow in one pass: where each value starts, and how long it is, in two lists and not in one of pairs, since C lends them so.
ghost use Rattle.std.specs.Prelude.{ℕ, ◌≤◌, ◌≡◌, length};
ghost use Rattle.protocol.specs.Decode.{decode_of};
ghost use Rattle.protocol.specs.Reading.{read_value};
ghost use Rattle.protocol.specs.Rules.{rules_of};
ghost use Rattle.reader.specs.Row.{ReadsRow, entry_of, length_word, lengths_of, over, places_from, room_told, row_by, row_fits, row_in, row_told, starts_of};

use super::value_at;
use decode::decode;
use protocol::refusal::{Refusal, Refused, Unread};
use protocol::{List, Message};

// A value's start, its length (-1 for NULL), and the place after it.
#[derive(Clone, Copy, Debug, PartialEq, Eq)]
struct Entry {
    start: usize,
    length: i32,
    next: usize,
}

fn signed_length(n: usize) -> i32
    ensures { result ≡ length_word n }
{
    i32::try_from(n).unwrap_or(i32::MAX)
}

// None where no value can be read.
fn entry_at(frame: &[u8], at: usize) -> Option<Entry>
    ensures { result ≡ entry_of (read_value frame.now at) }
{
    match value_at(frame, at) {
        Ok((Some(part), next)) => Some(Entry {
            start: part.start,
            length: signed_length(part.len),
            next: next.at,
        }),
        Ok((None, next)) => Some(Entry {
            start: 0,
            length: -1,
            next: next.at,
        }),
        Err(_) => None,
    }
}

// The values of a row, where both lists have room for them.
fn row_in(message: Message, starts: usize, lengths: usize) -> Result<List, Refused>
    ensures { (n : ℕ) → room_told n result ≡ row_fits (row_in message) n starts lengths }
{
    let Message::DataRow(row) = message else {
        return Err(Refusal::NoSuchElement.at(0));
    };
    let list = row.data;
    if starts < list.count || lengths < list.count {
        return Err(Refusal::OutputTooShort.at(0));
    }
    Ok(list)
}

fn row_of(buf: &[u8], starts: usize, lengths: usize) -> Result<(List, usize), Unread>
    ensures { row_told result ≡ row_by (decode_of (rules_of 1) buf.now) starts lengths }
{
    let (message, end) = decode(1, buf)?;
    let list = row_in(message, starts, lengths)?;
    Ok((list, end))
}

// The entries of count values from at on, laid over the starts of the two lists.
fn fill(frame: &[u8], at: usize, count: usize, starts: &mut [usize], lengths: &mut [i32])
    requires { (count ≤ length starts.old) × (count ≤ length lengths.old) }
    ensures { (starts.new ≡ over (starts_of (places_from count frame.now at)) starts.old) × (lengths.new ≡ over (lengths_of (places_from count frame.now at)) lengths.old) }
{
    let mut place = at;
    // By an index: of lists that are written through a zip of two iter_mut, a proof knows the lengths alone.
    for i in 0..count {
        let Some(entry) = entry_at(frame, place) else {
            return;
        };
        starts[i] = entry.start;
        lengths[i] = entry.length;
        place = entry.next;
    }
}

// The first message of a buffer, a DataRow from the backend: its values and the bytes consumed. Entry i of the two lists is element i, later entries
// are kept. Refused with 9 where a list is too short, with 11 where the message is another.
pub fn data_row(
    buf: &[u8],
    starts: &mut [usize],
    lengths: &mut [i32],
) -> Result<(List, usize), Unread>
    ensures { ReadsRow buf.now starts.old lengths.old (row_told result) starts.new lengths.new }
{
    let (list, end) = row_of(buf, starts.len(), lengths.len())?;
    fill(&buf[..end], list.start, list.count, starts, lengths);
    Ok((list, end))
}
