// An error of 40,000 fields, written, decoded and read. Field i has the code 1 + i % 255 and a string of one byte, 1 + i % 251.
// A field takes three bytes: a code, a byte, a zero byte. So the frame has 5 + 40,000 * 3 + 1 = 120,006 bytes and the length word 120,005,
// which is 00 01 D4 C5; field i begins at 5 + 3 * i and its string at 6 + 3 * i, and the zero code that ends the fields stands at 120,005.
// What is written of each is what `stdout` has, which no other test does.
#![tactic(auto)]

mod fields;

use fields::{Fields, ROOM};
use protocol::{Element, Message};
use std::io;
use test_cases::shown::{Hex, Shown};
use test_cases::{Output, SPARE, filled};

// The error, written into an output, and how many of the last bytes are as they were before the call.
fn write_in(to: &mut Output, fields: &Fields, out: &mut [u8]) {
    let encoded = fields.write(out);
    let spare = out.iter().rev().take_while(|byte| **byte == SPARE).count();
    write!(to, "an output of {} bytes: {}", out.len(), Shown(encoded));
    writeln!(to, ", {spare} spare bytes at the end");
}

// The same in an output of `size` bytes.
fn write_of(to: &mut Output, fields: &Fields, size: usize) {
    let mut out: [u8; ROOM] = filled(SPARE);
    if let Some(out) = out.get_mut(..size) {
        write_in(to, fields, out);
    }
}

fn write_decoded(to: &mut Output, buf: &[u8]) {
    match decode::decode(1, buf) {
        Ok((Message::ErrorResponse(error), consumed)) => {
            write!(to, "ErrorResponse fields {}", Shown(error.fields));
            writeln!(to, ", {consumed} consumed");
        }
        Ok((_, consumed)) => writeln!(to, "another message, {consumed} consumed"),
        Err(unread) => writeln!(to, "{}", Shown(unread)),
    }
}

// The first bytes of the output.
fn decode_first(to: &mut Output, out: &[u8; ROOM], count: usize) {
    write!(to, "decoded {count} bytes: ");
    write_decoded(to, decode::part(out, 0, count));
}

// The frame without its last byte, which ends the fields: a length word of 120,004 is 00 01 D4 C4.
fn decode_unended(to: &mut Output, mut out: [u8; ROOM]) {
    out[4] = 196;
    write!(to, "with a length of 120004: ");
    write_decoded(to, decode::part(&out, 0, 120005));
}

fn write_element(to: &mut Output, buf: &[u8], number: usize) {
    write!(to, "element {number}: ");
    match element::element(1, buf, 0, number) {
        Ok(Element::ErrorField(code, string)) => {
            writeln!(to, "code {code} string {}", Shown(string))
        }
        Ok(_) => writeln!(to, "another element"),
        Err(unread) => writeln!(to, "{}", Shown(unread)),
    }
}

fn main(rt: HostRuntime) -> io::Result<()> {
    let mut to = Output::new(rt)?;
    let fields = Fields::new();
    let mut frame: [u8; ROOM] = filled(SPARE);
    write_in(&mut to, &fields, &mut frame);
    writeln!(to, "first{}", Hex(decode::part(&frame, 0, 11)));
    writeln!(to, "last{}", Hex(decode::part(&frame, 120002, 8)));
    write_of(&mut to, &fields, 120006);
    write_of(&mut to, &fields, 120005);
    decode_first(&mut to, &frame, ROOM);
    decode_first(&mut to, &frame, 120006);
    decode_first(&mut to, &frame, 120005);
    decode_unended(&mut to, frame);
    for number in [0, 1, 19999, 39999, 40000] {
        write_element(&mut to, &frame, number);
    }
    fields::write_pass(&mut to, &frame);
    to.finish()
}
