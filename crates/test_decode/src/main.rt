// The edges of the format, run: each line of the input is a case in text, and is written back with what decode or an element call answers.
#![tactic(auto)]

mod case;
mod cuts;
mod elements;
mod record;

use case::{ROOM, read_case};
use std::io;
use test_cases::Output;
use test_cases::case::digit;

// No kind has so many lists.
const NO_LIST: u8 = 16;

// A case: the frame as it is given.
fn answer_whole(to: &mut Output, line: &[u8]) -> Option<()> {
    let mut room = [0u8; ROOM];
    let (mode, frame) = read_case(line, &mut room)?;
    record::write_decoded(to, decode::decode(mode, frame));
    Some(())
}

// A case after the word `cuts` and a space: the frame cut at each byte.
fn answer_cuts(to: &mut Output, line: &[u8]) -> Option<()> {
    let mut room = [0u8; ROOM];
    let (mode, frame) = read_case(line.get(5..)?, &mut room)?;
    let count = frame.len();
    cuts::write_cuts(to, mode, &mut room, count);
    Some(())
}

// A case after a word of four letters, a list's digit and a space on either side of that: elements of that list.
fn answer_elements(to: &mut Output, line: &[u8]) -> Option<()> {
    let mut room = [0u8; ROOM];
    let (mode, frame) = read_case(line.get(7..)?, &mut room)?;
    let list = digit(line[5]).unwrap_or(NO_LIST) as usize;
    match line[0] {
        b'l' => elements::write_list(to, mode, frame, list),
        b'v' => elements::write_values(to, mode, frame, list),
        _ => elements::write_far(to, mode, frame, list),
    }
    Some(())
}

fn answer(to: &mut Output, line: &[u8]) -> Option<()> {
    match line.first() {
        Some(b'c') => answer_cuts(to, line),
        Some(b'l' | b'v' | b'p') => answer_elements(to, line),
        _ => answer_whole(to, line),
    }
}

fn main(rt: HostRuntime) -> io::Result<()> {
    let mut room = [0u8; 65536];
    let input = test_cases::read_input(rt, &mut room)?;
    let mut to = Output::new(rt)?;
    test_cases::answer_lines(&mut to, input, answer);
    to.finish()
}
