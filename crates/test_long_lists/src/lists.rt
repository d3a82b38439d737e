// The five lists whose count is unsigned, each with 32,768 elements and with 65,535: its frame is written, decoded, read, and cut.
// In a Parse "s" and "q" with their zero bytes stand at 5 and 7, and the count at 9. In a Bind two zero bytes stand at 5, and the three counts at
// 7, at 9 and at 11, each further on by the elements before it. In a ParameterDescription the count is at 5. So n elements give a frame of
//     Parse                  11 + 4 * n bytes: 131,083 and 262,151
//     Bind, either formats   13 + 2 * n bytes:  65,549 and 131,083
//     Bind, values           13 + 4 * n bytes: 131,085 and 262,153
//     ParameterDescription    7 + 4 * n bytes: 131,079 and 262,147
// Behind a Bind's first formats stand two counts of 0, which are 4 bytes, and behind its values one. In a frame that is cut behind the list's last
// element its count still fits: if there is a fault, it is the next count, which is cut (6). With one byte less it is the list's own count (5).
use crate::answers;
use crate::given::Given;
use encode::{data, extendedquery};
use protocol::kinds::{MOST_SIGNED, MOST_UNSIGNED};
use protocol::refusal::Refused;
use std::fmt;
use test_cases::case::first;
use test_cases::shown::{Hex, Shown};
use test_cases::{Output, SPARE, filled};

// Room for the longest frame and seven bytes more.
const ROOM: usize = 262160;

// The list that is long; all others of its frame are empty. Mode, number, encoder and type byte of each stand below, one after the other: a struct of closures would
// say them no plainer.
#[derive(Clone, Copy)]
enum Which {
    TypeOids,
    ParameterFormatCodes,
    Parameters,
    ResultColumnFormatCodes,
    Types,
}

impl fmt::Display for Which {
    fn fmt<W: fmt::Write>(&self, f: &mut fmt::Formatter<W>) -> fmt::Result {
        f.write_str(match self {
            Which::TypeOids => "Parse type_oids",
            Which::ParameterFormatCodes => "Bind parameter_format_codes",
            Which::Parameters => "Bind parameters",
            Which::ResultColumnFormatCodes => "Bind result_column_format_codes",
            Which::Types => "ParameterDescription types",
        })
    }
}

impl Which {
    fn mode(self) -> u8 {
        match self {
            Which::Types => 1,
            _ => 0,
        }
    }

    // The list's number in an element call.
    fn number(self) -> usize {
        match self {
            Which::Parameters => 1,
            Which::ResultColumnFormatCodes => 2,
            _ => 0,
        }
    }

    fn count_place(self) -> usize {
        match self {
            Which::TypeOids => 9,
            Which::ParameterFormatCodes => 7,
            Which::Parameters => 9,
            Which::ResultColumnFormatCodes => 11,
            Which::Types => 5,
        }
    }

    // How many bytes stand behind the list's last element.
    fn bytes_behind(self) -> usize {
        match self {
            Which::ParameterFormatCodes => 4,
            Which::Parameters => 2,
            _ => 0,
        }
    }

    // The frame of `count` elements.
    fn encode(self, count: usize, given: &Given, out: &mut [u8]) -> Result<usize, Refused> {
        let oids = first(&given.oids, count);
        let formats = first(&given.formats, count);
        let lengths = first(&given.lengths, count);
        match self {
            Which::TypeOids => extendedquery::parse(b"s", b"q", oids, out),
            Which::ParameterFormatCodes => bind(formats, &[], &[], out),
            Which::Parameters => bind(&[], lengths, &[], out),
            Which::ResultColumnFormatCodes => bind(&[], &[], formats, out),
            Which::Types => data::parameter_description(oids, out),
        }
    }
}

// A Bind without names, whose values have no bytes.
fn bind(
    formats: &[i16],
    lengths: &[i32],
    results: &[i16],
    out: &mut [u8],
) -> Result<usize, Refused> {
    extendedquery::bind(b"", b"", formats, lengths, b"", results, out)
}

// The first, one in the middle, the last, and the one behind it, which there is not.
fn write_elements(to: &mut Output, which: Which, frame: &[u8; ROOM], count: usize) {
    for number in [0, count / 2, count.saturating_sub(1), count] {
        answers::write_element(to, which.mode(), frame, which.number(), number);
    }
}

// The frame's first `size` bytes, as a frame that says so: its length word, whose first byte stays 0, is one less.
fn write_cut(to: &mut Output, which: Which, frame: &[u8; ROOM], size: usize) {
    let mut cut = *frame;
    let [.., high, middle, low] = size.saturating_sub(1).to_be_bytes();
    cut[2] = high;
    cut[3] = middle;
    cut[4] = low;
    write!(to, "cut to {size}: ");
    answers::write_decoded(to, which.mode(), decode::part(&cut, 0, size));
}

fn write_frame(to: &mut Output, which: Which, frame: &[u8; ROOM], count: usize, size: usize) {
    let end = size.saturating_sub(which.bytes_behind());
    writeln!(
        to,
        ", count{}",
        Hex(decode::part(frame, which.count_place(), 2))
    );
    answers::write_decoded(to, which.mode(), frame);
    write_elements(to, which, frame, count);
    write_cut(to, which, frame, end);
    write_cut(to, which, frame, end.saturating_sub(1));
}

fn answer(to: &mut Output, which: Which, count: usize, given: &Given) {
    let mut out: [u8; ROOM] = filled(SPARE);
    let encoded = which.encode(count, given, &mut out);
    write!(to, "{which} of {count}: {}", Shown(encoded));
    match encoded {
        Ok(size) => write_frame(to, which, &out, count, size),
        Err(_) => writeln!(to),
    }
}

pub fn answer_each(to: &mut Output, given: &Given) {
    let lists = [
        Which::TypeOids,
        Which::ParameterFormatCodes,
        Which::Parameters,
        Which::ResultColumnFormatCodes,
        Which::Types,
    ];
    for which in lists {
        answer(to, which, MOST_SIGNED + 1, given);
        answer(to, which, MOST_UNSIGNED, given);
    }
}
