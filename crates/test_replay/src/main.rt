// The fixed list of the comparison with the Rust, run through the library: each line holds a case, the numbers that docs/FORMAT.md says, worked out
// by the comparison's model, and, where the library does not refuse, what the Rust answered. The library's numbers are compared with both.
#![tactic(auto)]

mod case;

use case::{Line, ROW};
use std::io;
use test_cases::Output;

// The list is read in pieces of so many letters, so that it need not stand in memory whole.
const PIECE: usize = 65536;

// More pieces than the list has.
const PIECES: usize = 32;

// Where an answer's status, bytes consumed and kind stand, and the status of a refusal.
const STATUS: usize = 0;

const CONSUMED: usize = 3;

const KIND: usize = 4;

const REFUSED: usize = 2;

// Whether the library gives the case's numbers; and whether the Rust waits where the library does, and takes the same kind and bytes where the library
// takes a frame. The list has its answer exactly where the library does not refuse.
fn holds(line: &mut Line) -> bool {
    let Some(case) = line.case() else {
        return false;
    };
    let mut got = [0usize; ROW];
    host::decoding::tusweram_decode(case.mode, case.frame, &mut got);
    let taken = [got[STATUS], got[CONSUMED], got[KIND]];
    let agrees = match case.numbers.rust() {
        Some(rust) => got[STATUS] != REFUSED && rust == taken.as_slice(),
        None => got[STATUS] == REFUSED,
    };
    agrees && case.numbers.answer() == got.as_slice()
}

// How far the list is read: the line that is being read, how many came before it, and how many of them are wrong.
#[derive(Drop)]
struct Tally {
    line: Line,
    lines: usize,
    wrong: usize,
}

impl Tally {
    fn new() -> Tally {
        Tally {
            line: Line::new(),
            lines: 0,
            wrong: 0,
        }
    }

    // The end of a line, which is reported where it is wrong. There are no more lines than letters, so no sum wraps.
    fn end_line(&mut self, to: &mut Output) {
        self.lines = self.lines.wrapping_add(1);
        if !holds(&mut self.line) {
            writeln!(to, "line {} is wrong", self.lines);
            self.wrong = self.wrong.wrapping_add(1);
        }
        self.line = Line::new();
    }

    // A line may end in a later piece than it begins in.
    fn read(&mut self, to: &mut Output, piece: &[u8]) {
        for letter in piece {
            match *letter {
                b'\n' => self.end_line(to),
                letter => self.line.step(letter),
            }
        }
    }
}

// A line that has no end is not counted.
fn replay(to: &mut Output, rt: HostRuntime) -> io::Result<()> {
    let mut tally = Tally::new();
    let mut room = [0u8; PIECE];
    for _ in 0..PIECES {
        let piece = test_cases::read_input(rt, &mut room)?;
        tally.read(to, piece);
    }
    writeln!(to, "{} cases, {} wrong", tally.lines, tally.wrong);
    Ok(())
}

fn main(rt: HostRuntime) -> io::Result<()> {
    let mut to = Output::new(rt)?;
    let result = replay(&mut to, rt);
    to.finish()?;
    result
}
