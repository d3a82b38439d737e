// The general responses, as in response.rs.
ghost use Rattle.std.specs.Prelude.{◌+◌, ◌*◌, ◌≤◌, true, ◌≡◌, length};
ghost use Rattle.std.proofs.Math.Option.{some};
ghost use Rattle.protocol.specs.Encode.{Encodes, error_fields_given, gss_kind, ssl_kind};
ghost use Rattle.protocol.specs.Kinds as K;
ghost use Rattle.protocol.specs.Told.{encoded};
ghost use Rattle.writers.specs.Given.{is_some};
ghost use Rattle.encode.specs.Given as G;
ghost use Rattle.encode.specs.Writing.{WroteGiven};

use crate::{bare, one_text};
use protocol::kinds::{LARGE, SMALL};
use protocol::refusal::{Refusal, Refused};
use protocol::response::{
    GssEncResponse, MESSAGE_TYPE_BYTE_COMMAND_COMPLETE, MESSAGE_TYPE_BYTE_EMPTY_QUERY_RESPONSE,
    MESSAGE_TYPE_BYTE_ERROR_RESPONSE, MESSAGE_TYPE_BYTE_NOTICE_RESPONSE,
    MESSAGE_TYPE_BYTE_NOTIFICATION_RESPONSE, MESSAGE_TYPE_BYTE_READY_FOR_QUERY, SslResponse,
    is_status,
};
use writers::errors::errors_given;
use writers::{bits32, no_zero, plus4, put_byte, put_head, put_text, put_word, verdict};

pub fn command_complete(tag: &[u8], out: &mut [u8]) -> Result<usize, Refused>
    ensures { Encodes K.backend K.command_complete (G.command_complete tag.now) out.old (encoded result) out.new }
{
    one_text(MESSAGE_TYPE_BYTE_COMMAND_COMPLETE, tag, out)
}

pub fn empty_query_response(out: &mut [u8]) -> Result<usize, Refused>
    ensures { Encodes K.backend K.empty_query_response G.empty_query_response out.old (encoded result) out.new }
{
    bare(MESSAGE_TYPE_BYTE_EMPTY_QUERY_RESPONSE, out)
}

pub fn ready_for_query(status: u8, out: &mut [u8]) -> Result<usize, Refused>
    ensures { Encodes K.backend K.ready_for_query (G.ready_for_query status) out.old (encoded result) out.new }
{
    let able = is_status(status);
    let n = verdict(able, SMALL, 5, out.len())?;
    let at = put_head(out, MESSAGE_TYPE_BYTE_READY_FOR_QUERY, n);
    put_byte(out, at, status);
    Ok(n)
}

// The code of each and its string; then the zero byte that ends them.
fn put_errors(out: &mut [u8], at: usize, codes: &[u8], lengths: &[u32], joined: &[u8]) -> usize
    requires { (at + 2 * length codes.now + length joined.now + 1 ≤ length out.old) × (is_some (error_fields_given codes.now lengths.now joined.now) ≡ true) }
    ensures { WroteGiven K.error_fields (error_fields_given codes.now lengths.now joined.now) out.old at (2 * length codes.now + length joined.now + 1) out.new result }
{
    let mut p = at;
    let mut rest = joined;
    for (code, len) in codes.iter().zip(lengths) {
        let (text, others) = rest.split_at(*len as usize);
        p = put_byte(out, p, *code);
        p = put_text(out, p, text);
        rest = others;
    }
    put_byte(out, p, 0)
}

// An error or a notice.
fn report(
    type_byte: u8,
    codes: &[u8],
    lengths: &[u32],
    joined: &[u8],
    out: &mut [u8],
) -> Result<usize, Refused>
    ensures { Encodes K.backend (G.reported type_byte) (G.report_of type_byte codes.now lengths.now joined.now) out.old (encoded result) out.new }
{
    let able = errors_given(codes, lengths, joined) & no_zero(joined) & no_zero(codes);
    let size = plus4(codes.len(), codes.len(), joined.len(), 5);
    let n = verdict(able, LARGE, size, out.len())?;
    let at = put_head(out, type_byte, n);
    put_errors(out, at, codes, lengths, joined);
    Ok(n)
}

pub fn error_response(
    codes: &[u8],
    lengths: &[u32],
    joined: &[u8],
    out: &mut [u8],
) -> Result<usize, Refused>
    ensures { Encodes K.backend K.error_response (G.error_response codes.now lengths.now joined.now) out.old (encoded result) out.new }
{
    report(
        MESSAGE_TYPE_BYTE_ERROR_RESPONSE,
        codes,
        lengths,
        joined,
        out,
    )
}

pub fn notice_response(
    codes: &[u8],
    lengths: &[u32],
    joined: &[u8],
    out: &mut [u8],
) -> Result<usize, Refused>
    ensures { Encodes K.backend K.notice_response (G.notice_response codes.now lengths.now joined.now) out.old (encoded result) out.new }
{
    report(
        MESSAGE_TYPE_BYTE_NOTICE_RESPONSE,
        codes,
        lengths,
        joined,
        out,
    )
}

pub fn notification_response(
    pid: i32,
    channel: &[u8],
    payload: &[u8],
    out: &mut [u8],
) -> Result<usize, Refused>
    ensures { Encodes K.backend K.notification_response (G.notification_response pid channel.now payload.now) out.old (encoded result) out.new }
{
    let able = no_zero(channel) & no_zero(payload);
    let size = plus4(channel.len(), payload.len(), 4, 6);
    let n = verdict(able, LARGE, size, out.len())?;
    let at = put_head(out, MESSAGE_TYPE_BYTE_NOTIFICATION_RESPONSE, n);
    let at = put_word(out, at, bits32(pid));
    let at = put_text(out, at, channel);
    put_text(out, at, payload);
    Ok(n)
}

// An answer that is one byte, of TLS or GSS. Only the room can be lacking.
fn lone(byte: u8, out: &mut [u8]) -> Result<usize, Refused>
    ensures { Encodes K.tls_answer (G.lone byte) (some tt) out.old (encoded result) out.new }
{
    if out.is_empty() {
        return Err(Refusal::OutputTooShort.at(0));
    }
    put_byte(out, 0, byte);
    Ok(1)
}

pub fn ssl_response(response: SslResponse, out: &mut [u8]) -> Result<usize, Refused>
    ensures { Encodes K.tls_answer (ssl_kind response) (G.ssl_response response) out.old (encoded result) out.new }
{
    match response {
        SslResponse::Accept => lone(SslResponse::BYTE_ACCEPT, out),
        SslResponse::Refuse => lone(SslResponse::BYTE_REFUSE, out),
    }
}

pub fn gss_enc_response(response: GssEncResponse, out: &mut [u8]) -> Result<usize, Refused>
    ensures { Encodes K.gss_answer (gss_kind response) (G.gss_enc_response response) out.old (encoded result) out.new }
{
    match response {
        GssEncResponse::Accept => lone(GssEncResponse::BYTE_ACCEPT, out),
        GssEncResponse::Refuse => lone(GssEncResponse::BYTE_REFUSE, out),
    }
}
