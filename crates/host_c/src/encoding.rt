// Encoding, for a host: one call for the kinds without a list, one for those with a list of numbers, values or strings, and one for a row's
// description. A kind is told by its number; an encoder's answer is one number.
ghost use Rattle.host.specs.Asked.{Answers, asked, asked_lists, asked_row};

use protocol::data::FieldDescription;

// A message of a kind without a list.
#[unsafe(no_mangle)]
pub extern "C" fn tusweram_encode(
    kind: usize,
    byte: u8,
    first: i32,
    second: i32,
    one: &[u8],
    two: &[u8],
    out: &mut [u8],
) -> usize
    ensures { Answers (asked kind byte first second one.now two.now) out.old result out.new }
{
    host::encoding::tusweram_encode(kind, byte, first, second, one, two, out)
}

// A message of a kind with such a list.
#[unsafe(no_mangle)]
pub extern "C" fn tusweram_encode_lists(
    kind: usize,
    format: i8,
    one: &[u8],
    two: &[u8],
    joined: &[u8],
    words: &[u32],
    lengths: &[i32],
    formats: &[i16],
    results: &[i16],
    out: &mut [u8],
) -> usize
    ensures { Answers (asked_lists kind format one.now two.now joined.now words.now lengths.now formats.now results.now) out.old result out.new }
{
    host::encoding::tusweram_encode_lists(
        kind, format, one, two, joined, words, lengths, formats, results, out,
    )
}

// A row's description, from a lent slice of fields, each with its column's name in the run.
#[unsafe(no_mangle)]
pub extern "C" fn tusweram_encode_row_description(
    fields: &[FieldDescription],
    run: &[u8],
    out: &mut [u8],
) -> usize
    ensures { Answers (asked_row fields.now run.now) out.old result out.new }
{
    host::encoding::tusweram_encode_row_description(fields, run, out)
}
