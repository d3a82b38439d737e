// What an encoder answers, in text, with every byte of the output: of a long one the number and two sums. So `stdout` has it, which no other test does.
use protocol::refusal::Refused;
use std::fmt;
use test_cases::Output;
use test_cases::shown::{Hex, Shown};

// The longest output that is written byte by byte.
const SHORT: usize = 64;

// The sum of the bytes, and the sum of the sums up to each of them, which tells their places too. Both wrap.
#[derive(Clone, Copy)]
struct Sums {
    sum: u64,
    sums: u64,
}

impl Sums {
    fn of(bytes: &[u8]) -> Sums {
        bytes.iter().fold(Sums { sum: 0, sums: 0 }, |before, byte| {
            let sum = before.sum.wrapping_add(*byte as u64);
            let sums = before.sums.wrapping_add(sum);
            Sums { sum, sums }
        })
    }
}

impl fmt::Display for Sums {
    fn fmt<W: fmt::Write>(&self, f: &mut fmt::Formatter<W>) -> fmt::Result {
        write!(f, " sum {} sums {}", self.sum, self.sums)
    }
}

// What stands behind a case: the answer, the room, and the output as it is after the call.
pub fn write_answer(to: &mut Output, encoded: Result<usize, Refused>, out: &[u8]) {
    write!(to, " = {} of {}:", Shown(encoded), out.len());
    if SHORT < out.len() {
        write!(to, "{}", Sums::of(out));
    } else {
        write!(to, "{}", Hex(out));
    }
}
