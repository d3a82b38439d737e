// A Bind of 40,000 values, written, decoded, and read in one pass. By fours a value has one byte, two bytes, is NULL, is empty; its bytes tell its
// number. Four values take (4 + 1) + (4 + 2) + 4 + 4 = 19 bytes. The first stands at 11, behind two empty names and two counts, 00 00 and 9C 40; so the
// last ends at 11 + 10,000 * 19 = 190,011, where the count of results stands, and the frame has 190,013 bytes.
ghost use Rattle.std.specs.Prelude.{◌<◌};

use crate::answers;
use encode::extendedquery;
use protocol::Span;
use protocol::refusal::Refused;
use test_cases::shown::{Hex, Shown};
use test_cases::{Output, SPARE, filled};

const FOURS: usize = 10000;

// Room for the frame and seven bytes more.
const ROOM: usize = 190020;

// The one byte of value i.
fn only_byte(i: usize) -> u8 {
    (i % 251) as u8
}

// The two bytes of value i.
fn two_bytes(i: usize) -> [u8; 2] {
    [(i / 256 % 256) as u8, (i % 256) as u8]
}

// The bytes of the four values from `four * 4` on.
fn bytes_of(four: usize) -> [u8; 3]
    requires { four < 10000 }
{
    let i = four * 4;
    let [high, low] = two_bytes(i + 1);
    [only_byte(i), high, low]
}

// The values by fours: their lengths, and their bytes.
#[derive(Drop)]
struct Values {
    lengths: [[i32; 4]; FOURS],
    joined: [[u8; 3]; FOURS],
}

impl Values {
    fn new() -> Values {
        let mut joined: [[u8; 3]; FOURS] = filled([0; 3]);
        for (four, bytes) in joined.iter_mut().enumerate() {
            *bytes = bytes_of(four);
        }
        Values {
            lengths: filled([1, 2, -1, 0]),
            joined,
        }
    }

    fn encode(&self, out: &mut [u8]) -> Result<usize, Refused> {
        let lengths = self.lengths.as_flattened();
        extendedquery::bind(b"", b"", &[], lengths, self.joined.as_flattened(), &[], out)
    }
}

// Whether value i is as it was given; NULL is none.
fn is_given(frame: &[u8], i: usize, value: Option<Span>) -> bool {
    let Some(value) = value else {
        return i % 4 == 2;
    };
    let bytes = decode::part(frame, value.start, value.len);
    match i % 4 {
        0 => bytes == [only_byte(i)].as_slice(),
        1 => bytes == two_bytes(i).as_slice(),
        2 => false,
        _ => value.len == 0,
    }
}

// How many values are as they were given, and where the pass ended.
#[derive(Clone, Copy)]
struct Pass {
    right: usize,
    end: usize,
}

// Each value by one call, from the place that the one before it gave.
fn read_values(frame: &[u8], start: usize, count: usize) -> Pass {
    let mut pass = Pass {
        right: 0,
        end: start,
    };
    for i in 0..count {
        let Ok((value, next)) = reader::value_at(frame, pass.end) else {
            return pass;
        };
        if is_given(frame, i, value) {
            pass.right += 1;
        }
        pass.end = next.at;
    }
    pass
}

// The frame by the reader, from its body on: two names, the count of formats, which is 0, and that of the values.
fn read_frame(to: &mut Output, frame: &[u8; ROOM]) -> Option<()> {
    let (_, c) = reader::string_at(frame, 5)?;
    let (_, c) = reader::string_at(frame, c.at)?;
    let (_, c) = reader::half_at(frame, c.at)?;
    let (count, c) = reader::half_at(frame, c.at)?;
    let Pass { right, end } = read_values(frame, c.at, count as usize);
    writeln!(
        to,
        "one pass: {right} of {count} values as given, ended at {end}"
    );
    Some(())
}

pub fn answer(to: &mut Output) {
    let values = Values::new();
    let mut frame: [u8; ROOM] = filled(SPARE);
    writeln!(
        to,
        "Bind of 40000 values: {}",
        Shown(values.encode(&mut frame))
    );
    writeln!(to, "first{}", Hex(decode::part(&frame, 0, 30)));
    answers::write_decoded(to, 0, &frame);
    for number in [0, 1, 2, 3, 39996, 39999, 40000] {
        answers::write_element(to, 0, &frame, 1, number);
    }
    read_frame(to, &frame);
    // With one byte changed, that of value 39,996, the pass tells one value less: 11 + 9,999 * 19 + 4 = 189,996.
    frame[189996] = 0;
    read_frame(to, &frame);
}
