// The fields of a row's description, as in data.rs.
ghost use Rattle.std.specs.Prelude.{◌≡◌};
ghost use Rattle.protocol.specs.Fields.{signed_count};
ghost use Rattle.protocol.specs.Kinds as K;
ghost use Rattle.protocol.specs.Reading.{and_then, got, read, read_item};
ghost use Rattle.codec.specs.CursorRead.{listed_read};
ghost use Rattle.items.specs.ItemRead.{field_read};

use crate::{Item, RowField};
use codec::{Cursor, signed16, signed32};
use protocol::data::FieldDescription;
use protocol::refusal::{Refusal, Refused};
use protocol::{Count, Element, List, Rules};

// A field of a row's description.
pub fn field_description(
    rules: Rules,
    frame: &[u8],
    c: Cursor,
) -> Result<(FieldDescription, Cursor), Refused>
    ensures { field_read result ≡ and_then (read_item rules K.row_field frame.now c.at) (λ s q. got (K.row_field_of s) q) }
{
    let Some((name, c)) = c.text(rules, frame) else {
        return Err(Refusal::Cut.at(c.at));
    };
    let Some((table, c)) = c.word(frame) else {
        return Err(Refusal::Cut.at(c.at));
    };
    let Some((column, c)) = c.half(frame) else {
        return Err(Refusal::Cut.at(c.at));
    };
    let Some((type_id, c)) = c.word(frame) else {
        return Err(Refusal::Cut.at(c.at));
    };
    let Some((size, c)) = c.half(frame) else {
        return Err(Refusal::Cut.at(c.at));
    };
    let Some((modifier, c)) = c.word(frame) else {
        return Err(Refusal::Cut.at(c.at));
    };
    let Some((format, c)) = c.half(frame) else {
        return Err(Refusal::Cut.at(c.at));
    };
    let field = FieldDescription {
        name,
        table_id: signed32(table),
        column_id: signed16(column),
        type_id,
        type_size: signed16(size),
        type_modifier: signed32(modifier),
        format_code: signed16(format),
    };
    Ok((field, c))
}

impl Item for RowField {
    ghost item = { K.row_field };

    fn read(rules: Rules, frame: &[u8], c: Cursor) -> Result<(Element, Cursor), Refused> {
        let (field, c) = field_description(rules, frame, c)?;
        Ok((Element::Field(field), c))
    }
}

// Every field is checked. The smallest has an empty name: 19 bytes.
pub fn fields(rules: Rules, frame: &[u8], c: Cursor) -> Result<(List, Cursor), Refused>
    ensures { listed_read result ≡ read rules (K.row_fields signed_count) frame.now c.at }
{
    let (list, c) = c.count(Count::Signed, frame, 19)?;
    let c = RowField::pass(rules, frame, c, list.count)?;
    Ok((list, c))
}
