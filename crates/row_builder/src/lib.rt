// A row that is built column by column, at the start of a lent room. The caller keeps the row's count and size beside the room; each call
// looks first whether decoding the room gives that row, and so takes any two numbers and any bytes. Row and room are no one struct: C has them apart, and a struct
// that kept the room lent would forbid the caller to read it.
#![tactic(auto)]

ghost use Rattle.std.specs.Prelude.{◌+◌, ◌^◌, ◌≤◌, ◌<◌, [], ◌≡◌, length};
ghost use Rattle.std.proofs.Math.Option.{none, some};
ghost use Rattle.protocol.specs.Fields.{most, signed_count, value_bytes};
ghost use Rattle.protocol.specs.Kinds.{large_frame};
ghost use Rattle.protocol.specs.Told.{encoded};
ghost use Rattle.writers.specs.Writing.{write};
ghost use Rattle.row_builder.specs.Building as B;
ghost use Rattle.row_builder.specs.Building.{built};
ghost use Rattle.row_builder.specs.Steps as S;

use codec::{Cursor, NULL};
use envelope::{TYPED_BODY, typed};
use protocol::data::MESSAGE_TYPE_BYTE_DATA_ROW;
use protocol::kinds::{LARGE, MOST_SIGNED};
use protocol::refusal::{Refusal, Refused};
use protocol::{Count, kinds, rules_of};
use writers::{put_half, put_head, put_value, put_word, verdict};

// The columns so far, and the size of their frame with its type byte.
#[derive(Clone, Copy, Debug, PartialEq, Eq)]
pub struct Row {
    pub columns: usize,
    pub size: usize,
}

// An empty row's bytes: type byte, length word and count.
const HEAD: usize = 7;

// Past some columns of a frame, and past those behind them to the frame's end: where the ones behind start.
fn walked(columns: usize, behind: usize, frame: &[u8]) -> Option<usize>
    ensures { result ≡ S.walk_of columns behind frame.now }
{
    let rules = rules_of(1);
    let c = Cursor { at: HEAD };
    let Ok(last) = c.pass_values(rules, frame, columns) else {
        return None;
    };
    let Ok(end) = last.pass_values(rules, frame, behind) else {
        return None;
    };
    if end.at == frame.len() {
        return Some(last.at);
    }
    None
}

impl Row {
    // The room begins with the type byte, the length and the count of the row: what decoding it looks at before its columns.
    fn headed(self, room: &[u8]) -> bool
        ensures { result ≡ S.headed self room.now }
    {
        let c = Cursor { at: 0 };
        let Some((type_byte, _)) = c.byte(room) else {
            return false;
        };
        if type_byte != MESSAGE_TYPE_BYTE_DATA_ROW {
            return false;
        }
        let Ok(frame) = typed(room, kinds::DATA_ROW) else {
            return false;
        };
        if frame.len() != self.size {
            return false;
        }
        let c = Cursor { at: TYPED_BODY };
        let Ok((list, _)) = c.count(Count::Signed, frame, 4) else {
            return false;
        };
        list.count == self.columns
    }

    // What decoding the room would say of the row, in one walk that is told the last column's start: of a row without columns, where the first would start.
    // None where the room does not begin with the row.
    fn last_column(self, room: &[u8]) -> Option<usize>
        ensures { result ≡ S.last_column_of self room.now }
    {
        if self.headed(room) {
            let frame = &room[..self.size];
            if self.columns == 0 {
                return walked(0, 0, frame);
            }
            return walked(self.columns - 1, 1, frame);
        }
        None
    }

    // The room begins with a well-formed row of that count and size.
    fn stands(self, room: &[u8]) -> bool
        ensures { result ≡ B.stands self room.now }
    {
        self.last_column(room).is_some()
    }

    // The row with one column more, of n bytes: its length's four, and a slice's.
    fn grown(self, n: usize, room: &[u8]) -> Result<Row, Refused>
        requires { n < 4 + 2 ^ 63 }
        ensures { built result ≡ B.grow_of self n room.now }
    {
        // Joined by `&`, as in `encode`; `verdict` is told it again, since the definition tells it (`grow_of`).
        let able = self.stands(room) & (self.columns < MOST_SIGNED);
        if !able {
            return Err(Refusal::NotRepresentable.at(0));
        }
        let size = verdict(able, LARGE, self.size - 1 + n, room.len())?;
        let columns = self.columns + 1;
        Ok(Row { columns, size })
    }

    // The row without its last column.
    fn shortened(self, room: &[u8]) -> Result<Row, Refused>
        ensures { built result ≡ B.drop_of self room.now }
    {
        let Some(size) = self.last_column(room) else {
            return Err(Refusal::NotRepresentable.at(0));
        };
        if self.columns == 0 {
            return Err(Refusal::NoSuchElement.at(0));
        }
        let columns = self.columns - 1;
        Ok(Row { columns, size })
    }

    // The type byte, the length word and the count of a row.
    fn put_at_start(self, room: &mut [u8])
        requires { (7 ≤ self.size) × (self.size ≤ length room.old) × (self.size ≤ large_frame) × (self.columns ≤ most signed_count) }
        ensures { room.new ≡ write room.old 0 (B.head_of self) }
    {
        let at = put_head(room, MESSAGE_TYPE_BYTE_DATA_ROW, self.size);
        put_half(room, at, self.columns as u16);
    }
}

// An empty row: 9 where the room is shorter.
pub fn begin(room: &mut [u8]) -> Result<Row, Refused>
    ensures { (built result ≡ B.begin_of room.old) × (room.new ≡ B.left_by (built result) 0 [] room.old) }
{
    let size = verdict(true, LARGE, HEAD - 1, room.len())?;
    let row = Row { columns: 0, size };
    row.put_at_start(room);
    Ok(row)
}

// One more column, behind the last: 10 where the room does not begin with the row, or the row has all the columns that its count can say; then 4,
// then 9.
pub fn append(row: Row, room: &mut [u8], value: &[u8]) -> Result<Row, Refused>
    ensures { (built result ≡ B.append_of row (some value.now) room.old) × (room.new ≡ B.left_by (built result) row.size (value_bytes (some value.now)) room.old) }
{
    let next = row.grown(4 + value.len(), room)?;
    put_value(room, row.size, value.len() as u32, value);
    next.put_at_start(room);
    Ok(next)
}

// The same of NULL.
pub fn append_null(row: Row, room: &mut [u8]) -> Result<Row, Refused>
    ensures { (built result ≡ B.append_of row none room.old) × (room.new ≡ B.left_by (built result) row.size (value_bytes none) room.old) }
{
    let next = row.grown(4, room)?;
    put_word(room, row.size, NULL);
    next.put_at_start(room);
    Ok(next)
}

// One column fewer; its bytes stay where they stand. 10 as above, 11 where there is none.
pub fn drop_last(row: Row, room: &mut [u8]) -> Result<Row, Refused>
    ensures { (built result ≡ B.drop_of row room.old) × (room.new ≡ B.left_by (built result) 0 [] room.old) }
{
    let next = row.shortened(room)?;
    next.put_at_start(room);
    Ok(next)
}

// The size, to hand the frame out: 10 as above. Appending may go on.
pub fn finish(row: Row, room: &[u8]) -> Result<usize, Refused>
    ensures { encoded result ≡ B.finish_of row room.now }
{
    if row.stands(room) {
        return Ok(row.size);
    }
    Err(Refusal::NotRepresentable.at(0))
}
