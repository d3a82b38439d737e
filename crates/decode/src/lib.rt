// Decoding one message from a lent buffer.
#![tactic(auto)]

ghost use Rattle.std.specs.Prelude.{◌≡◌};
ghost use Rattle.protocol.specs.Bytes.{part_of};
ghost use Rattle.protocol.specs.Decode.{decode_of};
ghost use Rattle.protocol.specs.Rules.{rules_of};
ghost use Rattle.protocol.specs.Told.{decoded};

mod kinds;

use protocol::mode::Mode;
use protocol::refusal::{Refusal, Unread};
use protocol::{Message, Rules, rules_of};

// `decode` with the rules given.
pub fn decode_by(rules: Rules, buf: &[u8]) -> Result<(Message, usize), Unread>
    ensures { decoded result ≡ decode_of rules buf.now }
{
    match Mode::try_from(rules.mode) {
        Ok(Mode::Frontend) => kinds::frontend(rules, buf),
        Ok(Mode::Backend) => kinds::backend(rules, buf),
        Ok(Mode::CancelRequest) => kinds::cancel(rules, buf),
        Ok(Mode::TlsAnswer) => kinds::tls_answer(rules, buf),
        Ok(Mode::GssAnswer) => kinds::gss_answer(rules, buf),
        Ok(Mode::FirstPacket) => kinds::first_packet(rules, buf),
        Err(_) => Err(Unread::Refused(Refusal::ModeUnknown.at(0))),
    }
}

// The first message of a buffer: its record and the bytes consumed, need-more, or a refusal's number and place.
pub fn decode(mode: u8, buf: &[u8]) -> Result<(Message, usize), Unread>
    ensures { decoded result ≡ decode_of (rules_of mode) buf.now }
{
    decode_by(rules_of(mode), buf)
}

// A string, value or rest as a part of the buffer. What reaches outside the buffer is the empty part.
pub fn part(buf: &[u8], start: usize, len: usize) -> &[u8]
    ensures { result.now ≡ part_of buf.now start len }
{
    let Some(rest) = buf.get(start..) else {
        return &buf[..0];
    };
    if rest.len() < len {
        return &buf[..0];
    }
    &rest[..len]
}
