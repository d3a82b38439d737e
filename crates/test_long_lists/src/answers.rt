// What the library answers, in text. Of a message its lists are written, each as its start and its count: no other test asks
// for these alone.
use protocol::{Element, Message};
use test_cases::Output;
use test_cases::shown::Shown;

fn write_message(to: &mut Output, message: Message) {
    match message {
        Message::Parse(m) => write!(to, "Parse oids {}", Shown(m.type_oids)),
        Message::Bind(m) => {
            write!(to, "Bind formats {}", Shown(m.parameter_format_codes));
            write!(to, " values {}", Shown(m.parameters));
            write!(to, " results {}", Shown(m.result_column_format_codes));
        }
        Message::ParameterDescription(m) => {
            write!(to, "ParameterDescription oids {}", Shown(m.types))
        }
        Message::DataRow(m) => write!(to, "DataRow values {}", Shown(m.data)),
        Message::RowDescription(m) => write!(to, "RowDescription fields {}", Shown(m.fields)),
        Message::CopyInResponse(m) => {
            write!(to, "CopyInResponse formats {}", Shown(m.column_formats))
        }
        _ => write!(to, "another message"),
    }
}

pub fn write_decoded(to: &mut Output, mode: u8, buf: &[u8]) {
    match decode::decode(mode, buf) {
        Ok((message, consumed)) => {
            write_message(to, message);
            writeln!(to, ", {consumed} consumed");
        }
        Err(unread) => writeln!(to, "{}", Shown(unread)),
    }
}

pub fn write_element(to: &mut Output, mode: u8, buf: &[u8], list: usize, number: usize) {
    write!(to, "element {number}: ");
    match element::element(mode, buf, list, number) {
        Ok(Element::Oid(oid)) => writeln!(to, "{oid}"),
        Ok(Element::Format(format)) => writeln!(to, "{format}"),
        Ok(Element::Null) => writeln!(to, "NULL"),
        Ok(Element::Value(value)) => writeln!(to, "{}", Shown(value)),
        Ok(_) => writeln!(to, "another element"),
        Err(unread) => writeln!(to, "{}", Shown(unread)),
    }
}
