// Counts that are signed: a set top bit is refused (5), though all bytes of so many elements are there. Every byte behind a count is zero here, which
// of 4 bytes makes an oid or an empty value, and of 19 a row's field without a name. So n elements give the length
//     ParameterDescription, DataRow   6 + 4 * n:  131,074 for 32,767, 131,078 for 32,768, 262,146 for 65,535
//     RowDescription                  6 + 19 * n: 622,579 for 32,767, 622,598 for 32,768
// A copy response has a format before its count, at 6, and its length is 7 + 2 * n; the limit of 8,192 is reached with 4,092, at 8,191.
use crate::answers;
use protocol::kinds::{MOST_SIGNED, MOST_UNSIGNED, SMALL};
use test_cases::{Output, filled};

// Room for the longest frame and one byte more.
const ROOM: usize = 622600;

// The largest count that a signed word can tell, the one above it, and the largest of all.
const MOST: u16 = MOST_SIGNED as u16;

const NEGATIVE: u16 = MOST + 1;

const ALL: u16 = MOST_UNSIGNED as u16;

#[derive(Clone, Copy, Debug)]
enum Kind {
    ParameterDescription,
    DataRow,
    RowDescription,
    CopyInResponse,
    CopyOutResponse,
    CopyBothResponse,
}

impl Kind {
    fn type_byte(self) -> u8 {
        match self {
            Kind::ParameterDescription => b't',
            Kind::DataRow => b'D',
            Kind::RowDescription => b'T',
            Kind::CopyInResponse => b'G',
            Kind::CopyOutResponse => b'H',
            Kind::CopyBothResponse => b'W',
        }
    }

    fn has_format(self) -> bool {
        matches!(
            self,
            Kind::CopyInResponse | Kind::CopyOutResponse | Kind::CopyBothResponse
        )
    }

    // A frame of zero bytes, but for its type byte, its length and its count.
    fn zeros(self, length: u32, count: u16) -> [u8; ROOM] {
        let mut frame: [u8; ROOM] = filled(0);
        let at = if self.has_format() { 6 } else { 5 };
        frame[0] = self.type_byte();
        frame[1..5].copy_from_slice(&length.to_be_bytes());
        frame[at..at + 2].copy_from_slice(&count.to_be_bytes());
        frame
    }
}

// The same bytes as a ParameterDescription, whose count is unsigned, and as a DataRow; then rows, and copy responses.
pub fn answer_each(to: &mut Output) {
    let frames = [
        (Kind::ParameterDescription, 131078, NEGATIVE),
        (Kind::DataRow, 131078, NEGATIVE),
        (Kind::ParameterDescription, 262146, ALL),
        (Kind::DataRow, 262146, ALL),
        (Kind::DataRow, 131074, MOST),
        (Kind::RowDescription, 622598, NEGATIVE),
        (Kind::RowDescription, 622579, MOST),
        (Kind::CopyInResponse, 8191, 4092),
        (Kind::CopyInResponse, SMALL, NEGATIVE),
        (Kind::CopyOutResponse, SMALL, NEGATIVE),
        (Kind::CopyBothResponse, SMALL, ALL),
    ];
    for (kind, length, count) in frames {
        write!(to, "{kind:?} of {count}: ");
        answers::write_decoded(to, 1, &kind.zeros(length, count));
    }
}
