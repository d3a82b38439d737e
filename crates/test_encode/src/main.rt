// Encoders, run: each line of the input is a case in text, and is written back with what its encoder answers, how many bytes the output has,
// and all of them after the call. The boundary's function is called too, on an output of its own: where it differs, WRONG is written.
#![tactic(auto)]

mod boundary;
mod call;
mod calls;
mod case;
mod direct;
mod fields;
mod long;
mod store;
mod text;

use case::Case;
use std::io;
use test_cases::Output;

fn answer(to: &mut Output, line: &[u8]) -> Option<()> {
    let case = Case::read(line)?;
    calls::answer_case(to, &case)
}

// A name with a # in it makes a line a comment.
fn is_comment(line: &[u8]) -> bool {
    line.split(|letter| *letter == b' ')
        .take(1)
        .any(|name| name.contains(&b'#'))
}

// Every line is written back; what is no comment, with its answer. A line's end comes after it, and where there is none there is no answer.
fn answer_line(to: &mut Output, line: &[u8]) {
    let Some(line) = line.strip_suffix(b"\n") else {
        to.write_all(line);
        return;
    };
    to.write_all(line);
    if !is_comment(line) && answer(to, line).is_none() {
        write!(to, " = malformed case");
    }
    writeln!(to);
}

fn main(rt: HostRuntime) -> io::Result<()> {
    let mut room = [0u8; 65536];
    let input = test_cases::read_input(rt, &mut room)?;
    let mut to = Output::new(rt)?;
    for line in input.split_inclusive(|letter| *letter == b'\n') {
        answer_line(&mut to, line);
    }
    to.finish()
}
