// One frame cut at each byte, and with one byte more, its length word mended each time. What is written is what `stdout` has.
ghost use Rattle.std.specs.Prelude.{◌<◌, ◌≤◌};

use crate::case::ROOM;
use protocol::refusal::Unread;
use std::fmt;
use test_cases::Output;

// What decode answers of a frame that is cut. A whole record has consumed all its bytes.
#[derive(Clone, Copy, PartialEq, Eq)]
enum Verdict {
    Whole,
    Strange(usize),
    Unread(Unread),
}

impl fmt::Display for Verdict {
    fn fmt<W: fmt::Write>(&self, f: &mut fmt::Formatter<W>) -> fmt::Result {
        match *self {
            Verdict::Whole => f.write_str("ok"),
            Verdict::Strange(consumed) => write!(f, "WRONG consumed {consumed}"),
            Verdict::Unread(Unread::NeedMore) => f.write_str("need-more"),
            Verdict::Unread(Unread::Refused(refused)) => {
                write!(f, "{}@{}", refused.refusal.number(), refused.place)
            }
        }
    }
}

// The totals from `first` to `last` have one verdict.
#[derive(Clone, Copy)]
struct Run {
    first: usize,
    last: usize,
    verdict: Verdict,
}

impl fmt::Display for Run {
    fn fmt<W: fmt::Write>(&self, f: &mut fmt::Formatter<W>) -> fmt::Result {
        if self.first < self.last {
            write!(f, "{}-{} {}", self.first, self.last, self.verdict)
        } else {
            write!(f, "{} {}", self.first, self.verdict)
        }
    }
}

// The frame cut to `total` bytes, with the length that says so. In modes 0 and 1 a type byte stands before the length word, which does not count it.
fn verdict_at(mode: u8, room: &mut [u8; ROOM], total: usize) -> Verdict
    requires { (0 < total) × (total ≤ 1024) }
{
    let (place, length) = if mode < 2 { (1, total - 1) } else { (0, total) };
    room[place..place + 4].copy_from_slice(&(length as u32).to_be_bytes());
    match decode::decode(mode, &room[..total]) {
        Ok((_, consumed)) if consumed == total => Verdict::Whole,
        Ok((_, consumed)) => Verdict::Strange(consumed),
        Err(unread) => Verdict::Unread(unread),
    }
}

// The answers of `first` to `last` bytes, in runs of equal ones.
fn write_runs(to: &mut Output, mode: u8, room: &mut [u8; ROOM], first: usize, last: usize)
    requires { (0 < first) × ((first ≤ 1024) × (last ≤ 1024)) }
{
    let verdict = verdict_at(mode, room, first);
    let mut run = Run {
        first,
        last: first,
        verdict,
    };
    for total in first + 1..=last {
        let verdict = verdict_at(mode, room, total);
        if verdict != run.verdict {
            write!(to, "{run}, ");
            run = Run {
                first: total,
                last: total,
                verdict,
            };
        }
        run.last = total;
    }
    write!(to, "{run}");
}

// From the header alone to one byte more than the frame has: behind the bytes that were given stand zeros.
pub fn write_cuts(to: &mut Output, mode: u8, room: &mut [u8; ROOM], count: usize) {
    if ROOM <= count {
        write!(to, "no room for one byte more");
        return;
    }
    match mode {
        0 | 1 => write_runs(to, mode, room, 5, count + 1),
        2 | 5 => write_runs(to, mode, room, 8, count + 1),
        _ => write!(to, "no length to mend"),
    }
}
