// What element calls answer, in text. A case names its list by one digit. As `stdout` has it, which no other test does.
use crate::case::ROOM;
use protocol::Element;
use protocol::data::FieldDescription;
use test_cases::Output;
use test_cases::shown::Shown;

// Stands in for NULL.
const STAND_IN: &[u8] = b"blank";

fn write_field(to: &mut Output, field: FieldDescription) {
    write!(
        to,
        "Field name {} table_id {}",
        Shown(field.name),
        field.table_id
    );
    write!(
        to,
        " column_id {} type_id {}",
        field.column_id, field.type_id
    );
    write!(
        to,
        " type_size {} type_modifier {}",
        field.type_size, field.type_modifier
    );
    write!(to, " format_code {}", field.format_code);
}

fn write_element(to: &mut Output, element: Element) {
    match element {
        Element::Oid(oid) => write!(to, "Oid {oid}"),
        Element::Format(format) => write!(to, "Format {format}"),
        Element::Null => write!(to, "Null"),
        Element::Value(value) => write!(to, "Value {}", Shown(value)),
        Element::Field(field) => write_field(to, field),
        Element::ErrorField(code, string) => {
            // A code is any byte, and need not be a letter.
            write!(to, "ErrorField ");
            to.write_all(&[code]);
            write!(to, " {}", Shown(string));
        }
        Element::Pair(name, value) => write!(to, "Pair {} {}", Shown(name), Shown(value)),
    }
}

// Whether there is such an element.
fn write_answer(to: &mut Output, mode: u8, buf: &[u8], list: usize, number: usize) -> bool {
    match element::element(mode, buf, list, number) {
        Ok(element) => {
            write_element(to, element);
            true
        }
        Err(unread) => {
            write!(to, "{}", Shown(unread));
            false
        }
    }
}

// Each element of a list, up to the first answer that is none.
pub fn write_list(to: &mut Output, mode: u8, buf: &[u8], list: usize) {
    for number in 0..ROOM {
        if !write_answer(to, mode, buf, list, number) {
            return;
        }
        write!(to, ", ");
    }
}

// What the form with a stand-in answers of each element, between marks.
pub fn write_values(to: &mut Output, mode: u8, buf: &[u8], list: usize) {
    for number in 0..ROOM {
        write!(to, "<");
        to.write_all(element::value_or(mode, buf, list, number, STAND_IN));
        write!(to, ">");
        if element::element(mode, buf, list, number).is_err() {
            return;
        }
        write!(to, " ");
    }
}

// The largest numbers that a call can name.
pub fn write_far(to: &mut Output, mode: u8, buf: &[u8], list: usize) {
    write_answer(to, mode, buf, list, usize::MAX);
    write!(to, ", ");
    write_answer(to, mode, buf, usize::MAX, 0);
}
