// Cases in which a byte is given many times.
use crate::call::Call;
use crate::calls;
use crate::case::{Case, MANY, ROOM, Section, has_list};
use decode::part;
use test_cases::Output;
use test_cases::case::first;

// ErrorResponse and NoticeResponse, whose codes are the section One.
fn is_error(kind: usize) -> bool {
    matches!(kind, 22 | 23)
}

// A byte, as often as a message can take it: as bytes, words, lengths and formats.
#[derive(Clone, Copy)]
struct Repeated<'a> {
    bytes: &'a [u8; ROOM],
    words: &'a [u32; MANY],
    lengths: &'a [i32; MANY],
    formats: &'a [i16; MANY],
}

impl<'a> Repeated<'a> {
    // A start-up with the lengths that are given: the byte is joined, `len` times.
    fn with_lengths(self, case: &'a Case) -> Call<'a> {
        let bytes = self.bytes;
        Call {
            joined: part(bytes, 128, case.len()),
            ..Call::of(case)
        }
    }

    // `len` of the kind's lists, with the joined bytes that the lengths add up to, and of an error's codes; of a Bind that names a list, that one alone;
    // or, where the kind has no list, `len` bytes.
    fn call(self, case: &'a Case) -> Call<'a> {
        let Repeated {
            bytes,
            words,
            lengths,
            formats,
        } = self;
        let kind = case.kind();
        let named = case.named_list();
        let count_if = |given: bool| if given { case.len() } else { 0 };
        let listed = has_list(kind);
        let numbers = count_if(listed && named.is_none_or(|list| list == Section::Numbers));
        let format_count = count_if(listed && named.is_none_or(|list| list == Section::Formats));
        let result_count = count_if(named == Some(Section::Results));
        let joined = (case.start() % 256).saturating_mul(numbers);
        Call {
            one: first(bytes, count_if(!listed || is_error(kind))),
            joined: part(bytes, 128, joined),
            words: first(words, numbers),
            lengths: first(lengths, numbers),
            formats: first(formats, format_count),
            results: first(formats, result_count),
            ..Call::of(case)
        }
    }
}

pub fn answer(to: &mut Output, case: &Case) -> Option<()> {
    let byte = (case.start() % 256) as u8;
    let bytes = [byte; ROOM];
    let words = [byte as u32; MANY];
    let lengths = [byte as i32; MANY];
    let formats = [byte as i16; MANY];
    let repeated = Repeated {
        bytes: &bytes,
        words: &words,
        lengths: &lengths,
        formats: &formats,
    };
    let call = if case.has_lengths() {
        repeated.with_lengths(case)
    } else {
        repeated.call(case)
    };
    calls::answer(to, &call, case.room())
}
