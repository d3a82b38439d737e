// What the refusals say in words: each with its number, one with its place, why nothing was read, and a number that no mode has.
#![tactic(auto)]

use protocol::mode::Mode;
use protocol::refusal::{Refusal, Unread};
use std::io;

// In the order of their numbers.
fn print_refusals(rt: &impl Print) -> io::Result<()> {
    for refusal in [
        Refusal::ModeUnknown,
        Refusal::TypeUnknown,
        Refusal::LengthTooSmall,
        Refusal::LengthAboveLimit,
        Refusal::BadCount,
        Refusal::Cut,
        Refusal::NotAllowed,
        Refusal::BytesLeft,
        Refusal::OutputTooShort,
        Refusal::NotRepresentable,
        Refusal::NoSuchElement,
    ] {
        println!(rt; "{} {refusal}", refusal.number())?;
    }
    Ok(())
}

fn print_mode(rt: &impl Print, number: u8) -> io::Result<()> {
    match Mode::try_from(number) {
        Ok(mode) => println!(rt; "{mode:?}"),
        Err(unknown) => println!(rt; "{unknown}"),
    }
}

fn main(rt: HostRuntime) -> io::Result<()> {
    print_refusals(&rt)?;
    let refused = Refusal::Cut.at(9);
    println!(rt; "{refused}")?;
    println!(rt; "{}", Unread::from(refused))?;
    println!(rt; "{}", Unread::NeedMore)?;
    for number in 0..8 {
        print_mode(&rt, number)?;
    }
    print_mode(&rt, 255)
}
