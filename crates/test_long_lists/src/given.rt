// What the encoders are given: element i tells its number, so that a list that is read from another place is seen.
use protocol::kinds::MOST_UNSIGNED;
use std::array;

// The remainders change no number that is given; they spare a proof that it fits.
fn oid_of(i: usize) -> u32 {
    1000 + (i % 100000) as u32
}

fn format_of(i: usize) -> i16 {
    (1 + i % 1000) as i16
}

// An empty value and NULL by turns: both have 4 bytes, the fewest that a value has.
fn length_of(i: usize) -> i32 {
    if i % 2 == 0 { 0 } else { -1 }
}

// As many of each as the longest list has.
#[derive(Drop)]
pub struct Given {
    pub oids: [u32; MOST_UNSIGNED],
    pub formats: [i16; MOST_UNSIGNED],
    pub lengths: [i32; MOST_UNSIGNED],
}

impl Given {
    pub fn new() -> Given {
        Given {
            oids: array::from_fn(oid_of),
            formats: array::from_fn(format_of),
            lengths: array::from_fn(length_of),
        }
    }
}
