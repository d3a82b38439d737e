// The encoder of each kind, by the kind's number, by which the boundary is called in the same case. The kinds go by the Rust's files: one function of all of them takes the checker far longer.
// Where there is no encoder, for a kind or an answer that is none, it is 2 at place 0, which is the boundary's answer.
use crate::call::Call;
use crate::fields::description_of;
use encode::{cancel, copy, data, extendedquery, response, simplequery, startup, terminate};
use protocol::refusal::{Refusal, Refused};
use protocol::response::{GssEncResponse, SslResponse};

fn no_encoder() -> Result<usize, Refused> {
    Err(Refusal::TypeUnknown.at(0))
}

fn by_answer(call: &Call<'_>, out: &mut [u8]) -> Result<usize, Refused> {
    match (call.kind, call.byte) {
        (29, 0) => response::ssl_response(SslResponse::Accept, out),
        (29, 1) => response::ssl_response(SslResponse::Refuse, out),
        (30, 0) => response::gss_enc_response(GssEncResponse::Accept, out),
        (30, 1) => response::gss_enc_response(GssEncResponse::Refuse, out),
        _ => no_encoder(),
    }
}

fn by_response(call: &Call<'_>, out: &mut [u8]) -> Result<usize, Refused> {
    match call.kind {
        16 => response::empty_query_response(out),
        20 => response::command_complete(call.one, out),
        21 => response::ready_for_query(call.byte, out),
        22 => response::error_response(call.one, call.words, call.joined, out),
        23 => response::notice_response(call.one, call.words, call.joined, out),
        27 => response::notification_response(call.first, call.one, call.two, out),
        _ => by_answer(call, out),
    }
}

fn by_copy(call: &Call<'_>, out: &mut [u8]) -> Result<usize, Refused> {
    match call.kind {
        8 => copy::copy_done(out),
        9 => copy::copy_data(call.one, out),
        10 => copy::copy_fail(call.one, out),
        24 => copy::copy_in_response(call.format(), call.formats, out),
        25 => copy::copy_out_response(call.format(), call.formats, out),
        _ => copy::copy_both_response(call.format(), call.formats, out),
    }
}

fn by_query(call: &Call<'_>, out: &mut [u8]) -> Result<usize, Refused> {
    let Call {
        one,
        two,
        formats,
        ..
    } = *call;
    match call.kind {
        1 => extendedquery::parse(one, two, call.words, out),
        2 => extendedquery::bind(
            one,
            two,
            formats,
            call.lengths,
            call.joined,
            call.results,
            out,
        ),
        3 => extendedquery::close(call.byte, one, out),
        4 => extendedquery::describe(call.byte, one, out),
        5 => extendedquery::execute(one, call.first, out),
        6 => extendedquery::flush(out),
        7 => extendedquery::sync(out),
        11 => extendedquery::parse_complete(out),
        12 => extendedquery::bind_complete(out),
        13 => extendedquery::close_complete(out),
        _ => extendedquery::portal_suspended(out),
    }
}

fn by_startup(call: &Call<'_>, out: &mut [u8]) -> Result<usize, Refused> {
    match call.kind {
        31 => startup::startup(call.words, call.joined, out),
        32 => startup::ssl_request(out),
        33 => startup::gss_enc_request(out),
        36 => startup::parameter_status(call.one, call.two, out),
        _ => startup::backend_key_data(call.first, call.second, out),
    }
}

fn by_data(call: &Call<'_>, out: &mut [u8]) -> Result<usize, Refused> {
    match (call.kind, call.fields) {
        (15, _) => data::no_data(out),
        (17, [only]) => description_of([*only], call.one, out),
        (17, [first, second]) => description_of([*first, *second], call.one, out),
        (18, _) => data::parameter_description(call.words, out),
        (19, _) => data::data_row(call.lengths, call.joined, out),
        _ => no_encoder(),
    }
}

pub fn encode(call: &Call<'_>, out: &mut [u8]) -> Result<usize, Refused> {
    match call.kind {
        1..=7 | 11..=14 => by_query(call, out),
        8..=10 | 24..=26 => by_copy(call, out),
        15 | 17..=19 => by_data(call, out),
        28 => cancel::cancel_request(call.first, call.second, out),
        31..=33 | 36..=37 => by_startup(call, out),
        34 => simplequery::query(call.one, out),
        35 => terminate::terminate(out),
        _ => by_response(call, out),
    }
}
