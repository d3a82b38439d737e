// Lists that end in a zero byte: an error's fields, and the arguments of a start-up message.
ghost use Rattle.std.specs.Prelude.{◌≡◌, ℕ, List as Bytes};
ghost use Rattle.protocol.specs.declared.Rules.{Rules as RulesOf};
ghost use Rattle.protocol.specs.Fields.{ended};
ghost use Rattle.protocol.specs.Reading.{read};
ghost use Rattle.protocol.proofs.Ended.{Grows};
ghost use Rattle.codec.specs.CursorRead.{listed_read};

use crate::Item;
use codec::Cursor;
use protocol::refusal::{Refusal, Refused};
use protocol::{List, Rules};

// An item of such a list takes at least a byte, so that the walk ends.
pub trait EndedItem: Item {
    ghost grows: { (rules : RulesOf) (f : Bytes ℕ) → Grows rules Self.item f };
}

// The items until a zero byte stands in place of one. Nothing before them tells how many there are, so the walk counts them. It breaks with its outcome: that
// byte, the frame's end, or at once the first item that is cut.
pub fn items<I: EndedItem>(rules: Rules, frame: &[u8], c: Cursor) -> Result<(List, Cursor), Refused>
    ensures { listed_read result ≡ read rules (ended I.item) frame.now c.at }
{
    let start = c.at;
    let mut c = c;
    let mut count: usize = 0;
    loop {
        let Some((first, after)) = c.byte(frame) else {
            break Err(Refusal::Cut.at(c.at));
        };
        if first == 0 {
            break Ok((List { start, count }, after));
        }
        match I::read(rules, frame, c) {
            Ok((_, next)) => {
                c = next;
                count += 1;
            }
            Err(refused) => break Err(refused),
        }
    }
}
