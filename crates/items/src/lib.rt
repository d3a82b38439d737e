// The items of lists, and the lists that are walked. What a kind's decoder reads of an item, an element call reads too.
// Rules, frame and cursor go beside each other and in no struct, as in `codec`: a cursor is a place alone. Each step is opened by `let .. else`, the form that the
// paper names for a caller that leaves early.
// Inner: for crates of this library alone (docs/INNER.md).
#![tactic(auto)]

ghost use Rattle.std.specs.Prelude.{◌≡◌};
ghost use Rattle.protocol.specs.Fields as F;
ghost use Rattle.protocol.specs.Reading.{and_then, got, pass_items, read_item};
ghost use Rattle.codec.specs.CursorRead.{passed_read};
ghost use Rattle.items.specs.ItemRead.{element_read};

use codec::Cursor;
use protocol::refusal::Refused;
use protocol::{Element, Rules};

pub mod data;
pub mod ended;
pub mod numbers;
pub mod response;
pub mod startup;
pub mod values;

// A sort of item: how one is read, and how those before it are passed.
pub trait Item {
    ghost item: { F.Item };

    // The item at the cursor, as an element call answers it.
    fn read(rules: Rules, frame: &[u8], c: Cursor) -> Result<(Element, Cursor), Refused>
        ensures { element_read result ≡ and_then (read_item rules item frame.now c.at) (λ s q. got (item.element s) q) };

    // Past `count` items, each checked, whatever their first bytes.
    fn pass(rules: Rules, frame: &[u8], c: Cursor, count: usize) -> Result<Cursor, Refused>
        ensures { passed_read result ≡ pass_items rules item count frame.now c.at }
    {
        let mut c = c;
        for _ in 0..count {
            let (_, next) = Self::read(rules, frame, c)?;
            c = next;
        }
        Ok(c)
    }
}

pub struct Oid;

pub struct Format;

pub struct Value;

pub struct RowField;

pub struct ErrorField;

pub struct Pair;
