// The values of a row or of Bind, which the cursor passes by their lengths.
ghost use Rattle.protocol.specs.Kinds as K;

use crate::{Item, Value};
use codec::Cursor;
use protocol::refusal::Refused;
use protocol::{Element, Rules};

impl Item for Value {
    ghost item = { K.nullable };

    fn read(_rules: Rules, frame: &[u8], c: Cursor) -> Result<(Element, Cursor), Refused> {
        let (value, c) = c.value(frame)?;
        match value {
            Some(span) => Ok((Element::Value(span), c)),
            None => Ok((Element::Null, c)),
        }
    }

    fn pass(rules: Rules, frame: &[u8], c: Cursor, count: usize) -> Result<Cursor, Refused> {
        c.pass_values(rules, frame, count)
    }
}
