// The fields of an error or a notice, as in response.rs.
ghost use Rattle.std.specs.Prelude.{◌≡◌};
ghost use Rattle.protocol.specs.Kinds as K;
ghost use Rattle.protocol.specs.Reading.{read_item};
ghost use Rattle.protocol.proofs.Ended.{error_grows};
ghost use Rattle.items.specs.ItemRead.{error_read};

use crate::ended::EndedItem;
use crate::{ErrorField, Item};
use codec::Cursor;
use protocol::refusal::{Refusal, Refused};
use protocol::{Element, Rules, Span};

// One field of an error: its code and its string.
pub fn error_field(rules: Rules, frame: &[u8], c: Cursor) -> Result<((u8, Span), Cursor), Refused>
    ensures { error_read result ≡ read_item rules K.error_field frame.now c.at }
{
    let Some((code, c)) = c.byte(frame) else {
        return Err(Refusal::Cut.at(c.at));
    };
    let Some((string, c)) = c.text(rules, frame) else {
        return Err(Refusal::Cut.at(c.at));
    };
    Ok(((code, string), c))
}

impl Item for ErrorField {
    ghost item = { K.error_field };

    fn read(rules: Rules, frame: &[u8], c: Cursor) -> Result<(Element, Cursor), Refused> {
        let ((code, string), c) = error_field(rules, frame, c)?;
        Ok((Element::ErrorField(code, string), c))
    }
}

impl EndedItem for ErrorField {
    ghost grows = { error_grows };
}
