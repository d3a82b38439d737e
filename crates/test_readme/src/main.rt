// How to call the library: README shows this code, and the gate runs it.
#![tactic(auto)]

use protocol::refusal::{Refused, Unread};
use protocol::{Element, Message};
use std::io;

fn say(rt: &impl Print, words: &[u8]) -> io::Result<()> {
    rt.write_all(words)
}

fn say_refused(rt: &impl Print, refused: Refused) -> io::Result<()> {
    println!(rt; "refused {} at {}", refused.refusal.number(), refused.place)
}

// Prints the query of the Parse at the buffer's start.
fn print_query(rt: &impl Print, buf: &[u8]) -> io::Result<()> {
    match decode::decode(0, buf) {
        Ok((Message::Parse(parse), _)) => {
            let query = parse.query;
            say(rt, decode::part(buf, query.start, query.len))?;
            say(rt, b"\n")
        }
        Ok(_) => say(rt, b"another message\n"),
        Err(Unread::NeedMore) => say(rt, b"the frame's end has not arrived\n"),
        Err(Unread::Refused(refused)) => say_refused(rt, refused),
    }
}

// Prints a value of the DataRow at the buffer's start.
fn print_value(rt: &impl Print, buf: &[u8], number: usize) -> io::Result<()> {
    say(rt, element::value_or(1, buf, 0, number, b"NULL"))?;
    say(rt, b"\n")
}

// Prints the first oid of the Parse at the buffer's start.
fn print_oid(rt: &impl Print, buf: &[u8]) -> io::Result<()> {
    let Ok(Element::Oid(oid)) = element::element(0, buf, 0, 0) else {
        return say(rt, b"no such element\n");
    };
    println!(rt; "{oid}")
}

// Writes a Parse into a buffer and reads it back.
fn write_and_read(rt: &impl Print, query: &[u8]) -> io::Result<()> {
    let mut out = [0u8; 64];
    match encode::extendedquery::parse(b"", query, &[23], &mut out) {
        Ok(_) => print_query(rt, &out),
        Err(refused) => say_refused(rt, refused),
    }
}

// Builds a row of one value in a room of 32 bytes, and prints the size of its frame and the value.
fn build_row(rt: &impl Print, value: &[u8]) -> io::Result<()> {
    let mut room = [0u8; 32];
    let Ok(row) = row_builder::begin(&mut room) else {
        return say(rt, b"no room for a row\n");
    };
    match row_builder::append(row, &mut room, value) {
        Ok(next) => {
            println!(rt; "{} bytes", next.size)?;
            print_value(rt, &room, 0)
        }
        Err(refused) => say_refused(rt, refused),
    }
}

fn main(rt: HostRuntime) -> io::Result<()> {
    print_query(&rt, b"P\0\0\0\x10\0SELECT 1\0\0\0")?;
    print_query(&rt, b"P\0\0\0\x10\0SELE")?;
    print_query(&rt, b"P\0\0\0\x10\0SELECT 1\0\xFF\xFF")?;
    print_query(&rt, b"S\0\0\0\x04")?;
    print_value(&rt, b"D\0\0\0\x10\0\x02\0\0\0\x02ab\xFF\xFF\xFF\xFF", 0)?;
    print_value(&rt, b"D\0\0\0\x10\0\x02\0\0\0\x02ab\xFF\xFF\xFF\xFF", 1)?;
    print_oid(&rt, b"P\0\0\0\x0C\0\0\0\x01\0\0\0\x17")?;
    print_oid(&rt, b"S\0\0\0\x04")?;
    write_and_read(&rt, b"SELECT 2")?;
    write_and_read(&rt, b"a\0b")?;
    build_row(&rt, b"4711")?;
    build_row(&rt, b"pages of a whole month")
}
