// The crate row_builder, run: a row that is built column by column (docs/FORMAT.md 12). Short rows are histories in text, a line for each call
// (`history`); then come rows at the limit of their length (`limit`) and of their count (`columns`). Answers and bytes are worked out by hand.
#![tactic(auto)]

mod calls;
mod columns;
mod history;
mod limit;
mod long;

use std::io;
use test_cases::Output;

fn main(rt: HostRuntime) -> io::Result<()> {
    let mut room = [0u8; 65536];
    let input = test_cases::read_input(rt, &mut room)?;
    let mut to = Output::new(rt)?;
    history::answer_each(&mut to, input);
    limit::answer_each(&mut to);
    columns::answer_each(&mut to);
    to.finish()
}
