// Lists of more than 32,767 elements. A count of two bytes tells up to 65,535 where it is unsigned: then the lists are written, decoded and read
// (`lists`), and a Bind of 40,000 values is read in one pass (`values`). Where it is signed, a set top bit is still refused (`signed`).
#![tactic(auto)]

mod answers;
mod given;
mod lists;
mod signed;
mod values;

use given::Given;
use std::io;
use test_cases::Output;

fn main(rt: HostRuntime) -> io::Result<()> {
    let mut to = Output::new(rt)?;
    lists::answer_each(&mut to, &Given::new());
    signed::answer_each(&mut to);
    values::answer(&mut to);
    to.finish()
}
