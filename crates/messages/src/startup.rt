// The messages of a connection's start, as in startup.rs.
ghost use Rattle.std.specs.Prelude.{[], ◌≡◌};
ghost use Rattle.protocol.specs.Decode.{decode_as};
ghost use Rattle.protocol.specs.Kinds as K;
ghost use Rattle.protocol.specs.Told.{decoded};
ghost use Rattle.envelope.specs.Steps.{decode_made};

use codec::{Cursor, signed32};
use envelope::{TYPED_BODY, UNTYPED_BODY, cut, finished, typed, untyped};
use items::Pair;
use items::ended::items;
use protocol::kinds::Line;
use protocol::refusal::Unread;
use protocol::startup::{BackendKeyData, ParameterStatus, Startup};
use protocol::{Message, Rules, kinds};

// After the length and the version: names and values.
pub fn startup(rules: Rules, buf: &[u8]) -> Result<(Message, usize), Unread>
    ensures { decoded result ≡ decode_as rules K.untyped K.startup buf.now }
{
    let frame = untyped(buf, kinds::STARTUP)?;
    let (parameters, c) = items::<Pair>(rules, frame, Cursor { at: UNTYPED_BODY })?;
    finished(frame, c, Message::Startup(Startup { parameters }))
}

// A request that is its length and its code.
fn request(
    rules: Rules,
    buf: &[u8],
    line: Line,
    message: Message,
) -> Result<(Message, usize), Unread>
    ensures { decoded result ≡ decode_made rules K.untyped line [] (λ _. message) buf.now }
{
    let frame = untyped(buf, line)?;
    finished(frame, Cursor { at: UNTYPED_BODY }, message)
}

pub fn ssl_request(rules: Rules, buf: &[u8]) -> Result<(Message, usize), Unread>
    ensures { decoded result ≡ decode_as rules K.untyped K.ssl_request buf.now }
{
    request(rules, buf, kinds::SSL_REQUEST, Message::SslRequest)
}

pub fn gss_enc_request(rules: Rules, buf: &[u8]) -> Result<(Message, usize), Unread>
    ensures { decoded result ≡ decode_as rules K.untyped K.gss_enc_request buf.now }
{
    request(rules, buf, kinds::GSS_ENC_REQUEST, Message::GssEncRequest)
}

pub fn parameter_status(rules: Rules, buf: &[u8]) -> Result<(Message, usize), Unread>
    ensures { decoded result ≡ decode_as rules K.typed K.parameter_status buf.now }
{
    let frame = typed(buf, kinds::PARAMETER_STATUS)?;
    let c = Cursor { at: TYPED_BODY };
    let Some((name, c)) = c.text(rules, frame) else {
        return Err(cut(c));
    };
    let Some((value, c)) = c.text(rules, frame) else {
        return Err(cut(c));
    };
    finished(
        frame,
        c,
        Message::ParameterStatus(ParameterStatus { name, value }),
    )
}

pub fn backend_key_data(rules: Rules, buf: &[u8]) -> Result<(Message, usize), Unread>
    ensures { decoded result ≡ decode_as rules K.typed K.backend_key_data buf.now }
{
    let frame = typed(buf, kinds::BACKEND_KEY_DATA)?;
    let c = Cursor { at: TYPED_BODY };
    let Some((pid, c)) = c.word(frame) else {
        return Err(cut(c));
    };
    let Some((key, c)) = c.word(frame) else {
        return Err(cut(c));
    };
    let data = BackendKeyData {
        pid: signed32(pid),
        secret_key: signed32(key),
    };
    finished(frame, c, Message::BackendKeyData(data))
}
