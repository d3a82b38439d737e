// A row that is built column by column, for a host: the row is two numbers, its columns and its size, which a successful call renews. The
// answer is 0, or the refusal's number; its place is always 0. Both are the C interface.
ghost use Rattle.std.specs.Prelude.{[], ◌≡◌};
ghost use Rattle.std.proofs.Math.Option.{none, some};
ghost use Rattle.protocol.specs.Fields.{value_bytes};
ghost use Rattle.row_builder.specs.Building.{append_of, begin_of, built, drop_of, finish_of};
ghost use Rattle.host_parts.specs.Built.{Renews, number_of, refusal_of, row_at, row_numbers};

use protocol::refusal::Refused;
use row_builder::Row;

// The row that two numbers are.
fn row_at(row: &[usize; 2]) -> Row
    ensures { result ≡ row_at row.now }
{
    Row {
        columns: row[0],
        size: row[1],
    }
}

fn renewed(answer: Result<Row, Refused>, row: &mut [usize; 2]) -> u8
    ensures { (result ≡ number_of (built answer)) × (row.new ≡ row_numbers (built answer) row.old) }
{
    match answer {
        Ok(next) => {
            *row = [next.columns, next.size];
            0
        }
        Err(refused) => refused.refusal.number(),
    }
}

// An empty row at the start of the room. The old numbers do not matter.
#[unsafe(no_mangle)]
pub extern "C" fn tusweram_row_begin(row: &mut [usize; 2], room: &mut [u8]) -> u8
    ensures { Renews (begin_of room.old) 0 [] row.old room.old result row.new room.new }
{
    renewed(row_builder::begin(room), row)
}

// One more column, as row_builder::append answers.
#[unsafe(no_mangle)]
pub extern "C" fn tusweram_row_append(row: &mut [usize; 2], room: &mut [u8], value: &[u8]) -> u8
    ensures { Renews (append_of (row_at row.old) (some value.now) room.old) (row_at row.old).size (value_bytes (some value.now)) row.old room.old result row.new room.new }
{
    renewed(row_builder::append(row_at(row), room, value), row)
}

// The same of NULL.
#[unsafe(no_mangle)]
pub extern "C" fn tusweram_row_append_null(row: &mut [usize; 2], room: &mut [u8]) -> u8
    ensures { Renews (append_of (row_at row.old) none room.old) (row_at row.old).size (value_bytes none) row.old room.old result row.new room.new }
{
    renewed(row_builder::append_null(row_at(row), room), row)
}

// One column fewer.
#[unsafe(no_mangle)]
pub extern "C" fn tusweram_row_drop_last(row: &mut [usize; 2], room: &mut [u8]) -> u8
    ensures { Renews (drop_of (row_at row.old) room.old) 0 [] row.old room.old result row.new room.new }
{
    renewed(row_builder::drop_last(row_at(row), room), row)
}

// Whether the frame may be handed out; its size is the row's second number.
#[unsafe(no_mangle)]
pub extern "C" fn tusweram_row_finish(row: &[usize; 2], room: &[u8]) -> u8
    ensures { result ≡ refusal_of (finish_of (row_at row.now) room.now) }
{
    match row_builder::finish(row_at(row), room) {
        Ok(_) => 0,
        Err(unfinished) => unfinished.refusal.number(),
    }
}
