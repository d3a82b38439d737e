// The arguments of a start-up message, as in startup.rs.
ghost use Rattle.std.specs.Prelude.{◌≡◌};
ghost use Rattle.protocol.specs.Kinds as K;
ghost use Rattle.protocol.specs.Reading.{read_item};
ghost use Rattle.protocol.proofs.Ended.{pair_grows};
ghost use Rattle.items.specs.ItemRead.{pair_read};

use crate::ended::EndedItem;
use crate::{Item, Pair};
use codec::Cursor;
use protocol::refusal::{Refusal, Refused};
use protocol::{Element, Rules, Span};

// A name and its value.
pub fn pair(rules: Rules, frame: &[u8], c: Cursor) -> Result<((Span, Span), Cursor), Refused>
    ensures { pair_read result ≡ read_item rules K.pair frame.now c.at }
{
    let Some((name, c)) = c.text(rules, frame) else {
        return Err(Refusal::Cut.at(c.at));
    };
    let Some((value, c)) = c.text(rules, frame) else {
        return Err(Refusal::Cut.at(c.at));
    };
    Ok(((name, value), c))
}

impl Item for Pair {
    ghost item = { K.pair };

    fn read(rules: Rules, frame: &[u8], c: Cursor) -> Result<(Element, Cursor), Refused> {
        let ((name, value), c) = pair(rules, frame, c)?;
        Ok((Element::Pair(name, value), c))
    }
}

impl EndedItem for Pair {
    ghost grows = { pair_grows };
}
