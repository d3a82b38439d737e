// The extended query messages, as in extendedquery.rs.
ghost use Rattle.std.specs.Prelude.{◌≡◌};
ghost use Rattle.protocol.specs.Decode.{decode_as};
ghost use Rattle.protocol.specs.Each.{Each};
ghost use Rattle.protocol.specs.Fields.{Slot};
ghost use Rattle.protocol.specs.Kinds as K;
ghost use Rattle.protocol.specs.declared.Message.{Message};
ghost use Rattle.protocol.specs.Told.{decoded};
ghost use Rattle.envelope.specs.Steps.{decode_made};
ghost use Rattle.messages.specs.Shared.{aim_fields, close_message, describe_message};

use codec::{Cursor, signed32};
use envelope::{TYPED_BODY, cut, fieldless, finished, typed};
use protocol::extendedquery::{Bind, Close, Describe, Execute, Parse, is_target};
use protocol::kinds::Line;
use protocol::refusal::{Refusal, Unread};
use protocol::{Count, Message, Rules, Span, kinds};

pub fn parse(rules: Rules, buf: &[u8]) -> Result<(Message, usize), Unread>
    ensures { decoded result ≡ decode_as rules K.typed K.parse buf.now }
{
    let frame = typed(buf, kinds::PARSE)?;
    let c = Cursor { at: TYPED_BODY };
    let Some((name, c)) = c.text(rules, frame) else {
        return Err(cut(c));
    };
    let Some((query, c)) = c.text(rules, frame) else {
        return Err(cut(c));
    };
    let (type_oids, c) = c.oids(rules, Count::Unsigned, frame)?;
    let parse = Parse {
        name,
        query,
        type_oids,
    };
    finished(frame, c, Message::Parse(parse))
}

pub fn parse_complete(rules: Rules, buf: &[u8]) -> Result<(Message, usize), Unread>
    ensures { decoded result ≡ decode_as rules K.typed K.parse_complete buf.now }
{
    fieldless(rules, buf, kinds::PARSE_COMPLETE, Message::ParseComplete)
}

// The two kinds whose body is a target byte and a name.
trait Aimed {
    ghost makes: { Each Slot aim_fields → Message };

    fn message(target_type: u8, name: Span) -> Message
        ensures { result ≡ makes (target_type, (name, tt)) };
}

impl Aimed for Close {
    ghost makes = { close_message };

    fn message(target_type: u8, name: Span) -> Message {
        Message::Close(Close { target_type, name })
    }
}

impl Aimed for Describe {
    ghost makes = { describe_message };

    fn message(target_type: u8, name: Span) -> Message {
        Message::Describe(Describe { target_type, name })
    }
}

fn aim<A: Aimed>(rules: Rules, buf: &[u8], line: Line) -> Result<(Message, usize), Unread>
    ensures { decoded result ≡ decode_made rules K.typed line aim_fields A.makes buf.now }
{
    let frame = typed(buf, line)?;
    let c = Cursor { at: TYPED_BODY };
    let Some((target_type, c)) = c.byte(frame) else {
        return Err(cut(c));
    };
    if !is_target(target_type) {
        return Err(Unread::Refused(Refusal::NotAllowed.at(TYPED_BODY)));
    }
    let Some((name, c)) = c.text(rules, frame) else {
        return Err(cut(c));
    };
    finished(frame, c, A::message(target_type, name))
}

pub fn close(rules: Rules, buf: &[u8]) -> Result<(Message, usize), Unread>
    ensures { decoded result ≡ decode_as rules K.typed K.close buf.now }
{
    aim::<Close>(rules, buf, kinds::CLOSE)
}

pub fn close_complete(rules: Rules, buf: &[u8]) -> Result<(Message, usize), Unread>
    ensures { decoded result ≡ decode_as rules K.typed K.close_complete buf.now }
{
    fieldless(rules, buf, kinds::CLOSE_COMPLETE, Message::CloseComplete)
}

// It is called, and put into no caller: beside what that one keeps, the walk's place would go through memory at each value.
#[inline(never)]
pub fn bind(rules: Rules, buf: &[u8]) -> Result<(Message, usize), Unread>
    ensures { decoded result ≡ decode_as rules K.typed K.bind buf.now }
{
    let frame = typed(buf, kinds::BIND)?;
    let c = Cursor { at: TYPED_BODY };
    let Some((portal_name, c)) = c.text(rules, frame) else {
        return Err(cut(c));
    };
    let Some((statement_name, c)) = c.text(rules, frame) else {
        return Err(cut(c));
    };
    let (parameter_format_codes, c) = c.formats(rules, Count::Unsigned, frame)?;
    let (parameters, c) = c.values(rules, Count::Unsigned, frame)?;
    let (result_column_format_codes, c) = c.formats(rules, Count::Unsigned, frame)?;
    let bind = Bind {
        portal_name,
        statement_name,
        parameter_format_codes,
        parameters,
        result_column_format_codes,
    };
    finished(frame, c, Message::Bind(bind))
}

pub fn bind_complete(rules: Rules, buf: &[u8]) -> Result<(Message, usize), Unread>
    ensures { decoded result ≡ decode_as rules K.typed K.bind_complete buf.now }
{
    fieldless(rules, buf, kinds::BIND_COMPLETE, Message::BindComplete)
}

pub fn describe(rules: Rules, buf: &[u8]) -> Result<(Message, usize), Unread>
    ensures { decoded result ≡ decode_as rules K.typed K.describe buf.now }
{
    aim::<Describe>(rules, buf, kinds::DESCRIBE)
}

pub fn execute(rules: Rules, buf: &[u8]) -> Result<(Message, usize), Unread>
    ensures { decoded result ≡ decode_as rules K.typed K.execute buf.now }
{
    let frame = typed(buf, kinds::EXECUTE)?;
    let c = Cursor { at: TYPED_BODY };
    let Some((name, c)) = c.text(rules, frame) else {
        return Err(cut(c));
    };
    let Some((word, c)) = c.word(frame) else {
        return Err(cut(c));
    };
    let execute = Execute {
        name,
        max_rows: signed32(word),
    };
    finished(frame, c, Message::Execute(execute))
}

pub fn flush(rules: Rules, buf: &[u8]) -> Result<(Message, usize), Unread>
    ensures { decoded result ≡ decode_as rules K.typed K.flush buf.now }
{
    fieldless(rules, buf, kinds::FLUSH, Message::Flush)
}

pub fn sync(rules: Rules, buf: &[u8]) -> Result<(Message, usize), Unread>
    ensures { decoded result ≡ decode_as rules K.typed K.sync buf.now }
{
    fieldless(rules, buf, kinds::SYNC, Message::Sync)
}

pub fn portal_suspended(rules: Rules, buf: &[u8]) -> Result<(Message, usize), Unread>
    ensures { decoded result ≡ decode_as rules K.typed K.portal_suspended buf.now }
{
    fieldless(
        rules,
        buf,
        kinds::PORTAL_SUSPENDED,
        Message::PortalSuspended,
    )
}
