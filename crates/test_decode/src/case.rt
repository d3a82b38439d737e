// A case in text: a digit for the mode, then for each byte a space and two hexadecimal digits in upper case.
use test_cases::case::{digit, read_bytes};

// The longest frame. Where no byte is given the room holds zeros.
pub const ROOM: usize = 1024;

// The mode, and the bytes, put at the start of `room`.
pub fn read_case<'a>(line: &[u8], room: &'a mut [u8; ROOM]) -> Option<(u8, &'a [u8])> {
    let (mode, digits) = line.split_first()?;
    let mode = digit(*mode).filter(|mode| *mode <= 9)?;
    Some((mode, read_bytes(digits, room)?))
}
