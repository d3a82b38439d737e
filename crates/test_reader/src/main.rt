// Every public function of the crate reader, run: each line of the input is a case in text, and is written back with what the functions
// answer.
#![tactic(auto)]

mod rows;
mod steps;
mod through;

use std::io;
use test_cases::Output;
use test_cases::case::{read_bytes, read_head};

// The longest frame.
const ROOM: usize = 256;

// By the first letter of a case's name.
fn answer(to: &mut Output, line: &[u8]) -> Option<()> {
    let head = read_head(line);
    let mut room = [0u8; ROOM];
    let frame = read_bytes(head.digits, &mut room)?;
    match *line.first()? {
        b'n' => {
            write!(to, "at {}", through::place_of_new(frame));
            Some(())
        }
        b'r' => rows::answer(to, frame, head.first, head.second),
        name => steps::answer(to, name, frame, head.second),
    }
}

fn main(rt: HostRuntime) -> io::Result<()> {
    let mut room = [0u8; 65536];
    let input = test_cases::read_input(rt, &mut room)?;
    let mut to = Output::new(rt)?;
    test_cases::answer_lines(&mut to, input, answer);
    to.finish()
}
