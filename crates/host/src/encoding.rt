// Encoding, for a host: one call for the kinds without a list, one for those with a list of numbers, values or strings, and one for a row's
// description. A kind is told by its number, and an encoder's answer is one number: the C interface.
ghost use Rattle.std.specs.Prelude.{◌≡◌};
ghost use Rattle.protocol.specs.Told.{encoded};
ghost use Rattle.host.specs.Asked.{Answers, Chosen, answer_number, asked, asked_in, asked_lists, asked_row, bare_rows, gss_rows, ssl_rows};

use encode::{cancel, copy, data, extendedquery, response, simplequery, startup, terminate};
use protocol::data::FieldDescription;
use protocol::refusal::{Refusal, Refused};
use protocol::response::{GssEncResponse, SslResponse};

fn answer_number(r: Result<usize, Refused>) -> usize
    ensures { result ≡ answer_number (encoded r) }
{
    match r {
        Ok(n) => n,
        Err(refused) => usize::MAX - refused.refusal.number() as usize,
    }
}

// A TLS answer and a GSS answer, told by their numbers: the C interface. Each has its own rows and its own encoder: one function for both is no plainer.
fn ssl(byte: u8, out: &mut [u8]) -> Result<usize, Refused>
    ensures { Chosen (asked_in ssl_rows byte) out.old (encoded result) out.new }
{
    match byte {
        0 => response::ssl_response(SslResponse::Accept, out),
        1 => response::ssl_response(SslResponse::Refuse, out),
        _ => Err(Refusal::TypeUnknown.at(0)),
    }
}

fn gss(byte: u8, out: &mut [u8]) -> Result<usize, Refused>
    ensures { Chosen (asked_in gss_rows byte) out.old (encoded result) out.new }
{
    match byte {
        0 => response::gss_enc_response(GssEncResponse::Accept, out),
        1 => response::gss_enc_response(GssEncResponse::Refuse, out),
        _ => Err(Refusal::TypeUnknown.at(0)),
    }
}

// The kinds with no field.
fn bare(kind: usize, out: &mut [u8]) -> Result<usize, Refused>
    ensures { Chosen (asked_in bare_rows kind) out.old (encoded result) out.new }
{
    match kind {
        6 => extendedquery::flush(out),
        7 => extendedquery::sync(out),
        8 => copy::copy_done(out),
        11 => extendedquery::parse_complete(out),
        12 => extendedquery::bind_complete(out),
        13 => extendedquery::close_complete(out),
        14 => extendedquery::portal_suspended(out),
        15 => data::no_data(out),
        16 => response::empty_query_response(out),
        32 => startup::ssl_request(out),
        33 => startup::gss_enc_request(out),
        35 => terminate::terminate(out),
        _ => Err(Refusal::TypeUnknown.at(0)),
    }
}

// The kinds without a list; here and below the parameters are the exported call's own.
fn plain(
    kind: usize,
    byte: u8,
    first: i32,
    second: i32,
    one: &[u8],
    two: &[u8],
    out: &mut [u8],
) -> Result<usize, Refused>
    ensures { Chosen (asked kind byte first second one.now two.now) out.old (encoded result) out.new }
{
    match kind {
        3 => extendedquery::close(byte, one, out),
        4 => extendedquery::describe(byte, one, out),
        5 => extendedquery::execute(one, first, out),
        9 => copy::copy_data(one, out),
        10 => copy::copy_fail(one, out),
        20 => response::command_complete(one, out),
        21 => response::ready_for_query(byte, out),
        27 => response::notification_response(first, one, two, out),
        28 => cancel::cancel_request(first, second, out),
        29 => ssl(byte, out),
        30 => gss(byte, out),
        34 => simplequery::query(one, out),
        36 => startup::parameter_status(one, two, out),
        37 => startup::backend_key_data(first, second, out),
        _ => bare(kind, out),
    }
}

// A message of a kind without a list.
#[unsafe(no_mangle)]
pub extern "C" fn tusweram_encode(
    kind: usize,
    byte: u8,
    first: i32,
    second: i32,
    one: &[u8],
    two: &[u8],
    out: &mut [u8],
) -> usize
    ensures { Answers (asked kind byte first second one.now two.now) out.old result out.new }
{
    answer_number(plain(kind, byte, first, second, one, two, out))
}

// The kinds with a list of numbers, values or strings.
fn listed(
    kind: usize,
    format: i8,
    one: &[u8],
    two: &[u8],
    joined: &[u8],
    words: &[u32],
    lengths: &[i32],
    formats: &[i16],
    results: &[i16],
    out: &mut [u8],
) -> Result<usize, Refused>
    ensures { Chosen (asked_lists kind format one.now two.now joined.now words.now lengths.now formats.now results.now) out.old (encoded result) out.new }
{
    match kind {
        1 => extendedquery::parse(one, two, words, out),
        2 => extendedquery::bind(one, two, formats, lengths, joined, results, out),
        18 => data::parameter_description(words, out),
        19 => data::data_row(lengths, joined, out),
        22 => response::error_response(one, words, joined, out),
        23 => response::notice_response(one, words, joined, out),
        24 => copy::copy_in_response(format, formats, out),
        25 => copy::copy_out_response(format, formats, out),
        26 => copy::copy_both_response(format, formats, out),
        31 => startup::startup(words, joined, out),
        _ => Err(Refusal::TypeUnknown.at(0)),
    }
}

// A message of a kind with such a list.
#[unsafe(no_mangle)]
pub extern "C" fn tusweram_encode_lists(
    kind: usize,
    format: i8,
    one: &[u8],
    two: &[u8],
    joined: &[u8],
    words: &[u32],
    lengths: &[i32],
    formats: &[i16],
    results: &[i16],
    out: &mut [u8],
) -> usize
    ensures { Answers (asked_lists kind format one.now two.now joined.now words.now lengths.now formats.now results.now) out.old result out.new }
{
    let r = listed(
        kind, format, one, two, joined, words, lengths, formats, results, out,
    );
    answer_number(r)
}

// A row's description, from a lent slice of fields, each with its column's name in the run.
#[unsafe(no_mangle)]
pub extern "C" fn tusweram_encode_row_description(
    fields: &[FieldDescription],
    run: &[u8],
    out: &mut [u8],
) -> usize
    ensures { Answers (asked_row fields.now run.now) out.old result out.new }
{
    answer_number(data::row_description(fields, run, out))
}
