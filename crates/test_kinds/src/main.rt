// The tables of kinds as the code holds them, printed line by line; and decoding, held to them: every type byte and answer byte, and the codes with their
// neighbours, at each kind's smallest length and limit and one past them. stdout is written by hand from docs/FORMAT.md 4 and the numbers of
// protocol/specs Kinds, and .ci/kinds holds to it every other place that says the same.
#![tactic(auto)]

mod answers;
mod checks;
mod tables;

use std::io;
use test_cases::Output;

fn main(rt: HostRuntime) -> io::Result<()> {
    let mut to = Output::new(rt)?;
    writeln!(to, "mode kind type smallest limit number");
    for mode in 0..6 {
        tables::write_table(&mut to, mode);
    }
    checks::no_other_mode(&mut to);
    checks::every_byte(&mut to, 0);
    checks::every_byte(&mut to, 1);
    checks::codes_around(&mut to, 2);
    checks::every_byte(&mut to, 3);
    checks::every_byte(&mut to, 4);
    checks::codes_around(&mut to, 5);
    to.finish()
}
