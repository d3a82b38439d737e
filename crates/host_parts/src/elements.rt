// Elements, for a host. The form with a stand-in is the host's own: it has the stand-in, and where the answer is NULL it takes it.
ghost use Rattle.std.specs.Prelude.{◌∷◌, ◌≡◌};
ghost use Rattle.protocol.specs.Bytes.{bits_of};
ghost use Rattle.protocol.specs.Elements.{element_of};
ghost use Rattle.protocol.specs.Kinds as K;
ghost use Rattle.protocol.specs.Reading.{and_then, got, read_item};
ghost use Rattle.protocol.specs.Rules.{rules_of};
ghost use Rattle.host_layout.specs.LaidOut.{element_numbers, element_out, field_numbers, record_out};
ghost use Rattle.host_parts.specs.Reads.{error_field_out, field_out, pair_out};

use codec::Cursor;
use host_layout::bits::bits;
use host_layout::shapes;
use items::data::field_description;
use items::response::error_field;
use items::startup::pair;
use protocol::data::FieldDescription;
use protocol::{Element, rules_of};

// A narrow number's bits, as those of a wide one.
fn half(x: i16) -> usize
    ensures { result ≡ bits_of 4 x }
{
    bits(x as i32)
}

fn field(n: usize, d: FieldDescription) -> [usize; 16]
    ensures { result ≡ record_out n (5 ∷ field_numbers d) }
{
    let name = d.name;
    let table_id = bits(d.table_id);
    let column_id = half(d.column_id);
    let type_size = half(d.type_size);
    let type_modifier = bits(d.type_modifier);
    let format_code = half(d.format_code);
    [
        0,
        0,
        0,
        n,
        5,
        name.start,
        name.len,
        table_id,
        column_id,
        d.type_id as usize,
        type_size,
        type_modifier,
        format_code,
        0,
        0,
        0,
    ]
}

fn laid_out(element: Element) -> [usize; 16]
    ensures { result ≡ record_out 0 (element_numbers element) }
{
    match element {
        Element::Oid(oid) => shapes::one_number(1, 0, oid as usize),
        Element::Format(code) => shapes::one_number(2, 0, half(code)),
        Element::Null => shapes::none(3, 0),
        Element::Value(value) => shapes::one_span(4, 0, value),
        Element::Field(d) => field(0, d),
        Element::ErrorField(code, text) => shapes::target(6, 0, code, text),
        Element::Pair(name, value) => shapes::two_spans(7, 0, name, value),
    }
}

// An element of a list of the buffer's first message, as element::element answers it.
#[unsafe(no_mangle)]
pub extern "C" fn tusweram_element(
    mode: u8,
    buf: &[u8],
    list: usize,
    number: usize,
    out: &mut [usize; 16],
)
    ensures { out.new ≡ element_out (element_of (rules_of mode) buf.now list number) }
{
    *out = match element::element(mode, buf, list, number) {
        Ok(element) => laid_out(element),
        Err(unread) => shapes::unread(unread),
    };
}

// The field of a row at a place of a frame, with the next place: all of a row's fields in one pass. This and the next two lay out the one sort
// that they read: an element, made of it first, would have to be told apart again.
#[unsafe(no_mangle)]
pub extern "C" fn tusweram_field(frame: &[u8], at: usize, out: &mut [usize; 16])
    ensures { out.new ≡ field_out (and_then (read_item (rules_of 1) K.row_field frame.now at) (λ s q. got (K.row_field_of s) q)) }
{
    *out = match field_description(rules_of(1), frame, Cursor { at }) {
        Ok((d, next)) => field(next.at, d),
        Err(refused) => shapes::refusal(refused),
    };
}

// The field of an error at a place of a frame, with the next place.
#[unsafe(no_mangle)]
pub extern "C" fn tusweram_error_field(frame: &[u8], at: usize, out: &mut [usize; 16])
    ensures { out.new ≡ error_field_out (read_item (rules_of 1) K.error_field frame.now at) }
{
    *out = match error_field(rules_of(1), frame, Cursor { at }) {
        Ok(((code, text), next)) => shapes::target(6, next.at, code, text),
        Err(refused) => shapes::refusal(refused),
    };
}

// The start-up argument at a place of a frame, with the next place.
#[unsafe(no_mangle)]
pub extern "C" fn tusweram_pair(frame: &[u8], at: usize, out: &mut [usize; 16])
    ensures { out.new ≡ pair_out (read_item (rules_of 5) K.pair frame.now at) }
{
    *out = match pair(rules_of(5), frame, Cursor { at }) {
        Ok(((name, value), next)) => shapes::two_spans(7, next.at, name, value),
        Err(refused) => shapes::refusal(refused),
    };
}
