// The boundary for other languages answers one number: the bytes written, or the largest number less the refusal's. It leaves out a
// refusal's place, which is always 0.
use crate::call::Call;
use crate::case;
use host::encoding;
use protocol::refusal::Refused;

pub fn encode(call: &Call<'_>, out: &mut [u8]) -> usize {
    let Call { kind, one, two, .. } = *call;
    if kind == case::ROW_DESCRIPTION {
        return encoding::tusweram_encode_row_description(call.fields, one, out);
    }
    if !case::has_list(kind) {
        return encoding::tusweram_encode(kind, call.byte, call.first, call.second, one, two, out);
    }
    encoding::tusweram_encode_lists(
        kind,
        call.format(),
        one,
        two,
        call.joined,
        call.words,
        call.lengths,
        call.formats,
        call.results,
        out,
    )
}

// Whether the number tells what an encoder answers.
pub fn tells(number: usize, encoded: Result<usize, Refused>) -> bool {
    match encoded {
        Ok(size) => number == size,
        Err(Refused { refusal, place }) => {
            number == usize::MAX - refusal.number() as usize && place == 0
        }
    }
}
