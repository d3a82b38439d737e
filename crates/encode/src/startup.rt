// The messages of a connection's start, as in startup.rs.
ghost use Rattle.std.specs.Prelude.{◌+◌, ◌≤◌, true, ◌≡◌, length};
ghost use Rattle.std.proofs.Math.Option.{some};
ghost use Rattle.protocol.specs.Encode.{Encodes, pairs_given, texts_given};
ghost use Rattle.protocol.specs.Kinds as K;
ghost use Rattle.protocol.specs.Told.{encoded};
ghost use Rattle.writers.specs.Given.{is_some};
ghost use Rattle.encode.specs.Given as G;
ghost use Rattle.encode.specs.Writing.{WroteGiven};

use protocol::kinds::SMALL;
use protocol::refusal::{Refusal, Refused};
use protocol::startup::{
    GssEncRequest, MESSAGE_TYPE_BYTE_BACKEND_KEY_DATA, MESSAGE_TYPE_BYTE_PARAMETER_STATUS,
    SslRequest, Startup,
};
use writers::texts::{named, texts_given};
use writers::{
    bits32, no_zero, plus, plus4, put_byte, put_head, put_text, put_word, verdict, verdict_untyped,
};

// Each name and each value, by turns; then the zero byte that ends them.
fn put_parameters(out: &mut [u8], at: usize, lengths: &[u32], joined: &[u8]) -> usize
    requires { (at + length lengths.now + length joined.now + 1 ≤ length out.old) × (is_some (texts_given lengths.now joined.now) ≡ true) }
    ensures { WroteGiven K.pairs (pairs_given lengths.now joined.now) out.old at (length lengths.now + length joined.now + 1) out.new result }
{
    let mut p = at;
    let mut rest = joined;
    for len in lengths {
        let (text, others) = rest.split_at(*len as usize);
        p = put_text(out, p, text);
        rest = others;
    }
    put_byte(out, p, 0)
}

// Names and values come by turns, as lengths and their joined bytes.
pub fn startup(lengths: &[u32], joined: &[u8], out: &mut [u8]) -> Result<usize, Refused>
    ensures { Encodes K.first_packet K.startup (G.startup lengths.now joined.now) out.old (encoded result) out.new }
{
    let able = texts_given(lengths, joined) & no_zero(joined) & named(lengths);
    let size = plus(joined.len(), lengths.len() + 9);
    let n = verdict_untyped(able, SMALL, size, out.len())?;
    let at = put_word(out, 0, n as u32);
    let at = put_word(out, at, Startup::PROTOCOL_VERSION_3_0);
    put_parameters(out, at, lengths, joined);
    Ok(n)
}

// A request for TLS or GSS encryption: a length and a code. Only the room can be lacking.
fn request(code: u32, out: &mut [u8]) -> Result<usize, Refused>
    ensures { Encodes K.first_packet (G.requested code) (some tt) out.old (encoded result) out.new }
{
    if out.len() < 8 {
        return Err(Refusal::OutputTooShort.at(0));
    }
    let at = put_word(out, 0, 8);
    put_word(out, at, code);
    Ok(8)
}

pub fn ssl_request(out: &mut [u8]) -> Result<usize, Refused>
    ensures { Encodes K.first_packet K.ssl_request G.ssl_request out.old (encoded result) out.new }
{
    request(SslRequest::BODY_MAGIC_NUMBER, out)
}

pub fn gss_enc_request(out: &mut [u8]) -> Result<usize, Refused>
    ensures { Encodes K.first_packet K.gss_enc_request G.gss_enc_request out.old (encoded result) out.new }
{
    request(GssEncRequest::BODY_MAGIC_NUMBER, out)
}

pub fn parameter_status(name: &[u8], value: &[u8], out: &mut [u8]) -> Result<usize, Refused>
    ensures { Encodes K.backend K.parameter_status (G.parameter_status name.now value.now) out.old (encoded result) out.new }
{
    let able = no_zero(name) & no_zero(value);
    let size = plus4(name.len(), value.len(), 2, 4);
    let n = verdict(able, SMALL, size, out.len())?;
    let at = put_head(out, MESSAGE_TYPE_BYTE_PARAMETER_STATUS, n);
    let at = put_text(out, at, name);
    put_text(out, at, value);
    Ok(n)
}

pub fn backend_key_data(pid: i32, secret_key: i32, out: &mut [u8]) -> Result<usize, Refused>
    ensures { Encodes K.backend K.backend_key_data (G.backend_key_data pid secret_key) out.old (encoded result) out.new }
{
    let n = verdict(true, SMALL, 12, out.len())?;
    let at = put_head(out, MESSAGE_TYPE_BYTE_BACKEND_KEY_DATA, n);
    let at = put_word(out, at, bits32(pid));
    put_word(out, at, bits32(secret_key));
    Ok(n)
}
