// The general responses, as in response.rs.
ghost use Rattle.std.specs.Prelude.{◌≡◌};
ghost use Rattle.protocol.specs.Decode.{decode_as};
ghost use Rattle.protocol.specs.Kinds as K;
ghost use Rattle.protocol.specs.Told.{decoded};

use codec::{Cursor, signed32};
use envelope::{TYPED_BODY, cut, fieldless, finished, typed};
use items::ErrorField;
use items::ended::items;
use protocol::refusal::{Refusal, Unread};
use protocol::response::{
    CommandComplete, ErrorResponse, NoticeResponse, NotificationResponse, ReadyForQuery, is_status,
};
use protocol::{Message, Rules, kinds};

pub fn command_complete(rules: Rules, buf: &[u8]) -> Result<(Message, usize), Unread>
    ensures { decoded result ≡ decode_as rules K.typed K.command_complete buf.now }
{
    let frame = typed(buf, kinds::COMMAND_COMPLETE)?;
    let c = Cursor { at: TYPED_BODY };
    let Some((tag, c)) = c.text(rules, frame) else {
        return Err(cut(c));
    };
    finished(frame, c, Message::CommandComplete(CommandComplete { tag }))
}

pub fn empty_query_response(rules: Rules, buf: &[u8]) -> Result<(Message, usize), Unread>
    ensures { decoded result ≡ decode_as rules K.typed K.empty_query_response buf.now }
{
    fieldless(
        rules,
        buf,
        kinds::EMPTY_QUERY_RESPONSE,
        Message::EmptyQueryResponse,
    )
}

pub fn ready_for_query(rules: Rules, buf: &[u8]) -> Result<(Message, usize), Unread>
    ensures { decoded result ≡ decode_as rules K.typed K.ready_for_query buf.now }
{
    let frame = typed(buf, kinds::READY_FOR_QUERY)?;
    let c = Cursor { at: TYPED_BODY };
    let Some((status, c)) = c.byte(frame) else {
        return Err(cut(c));
    };
    if !is_status(status) {
        return Err(Unread::Refused(Refusal::NotAllowed.at(TYPED_BODY)));
    }
    finished(frame, c, Message::ReadyForQuery(ReadyForQuery { status }))
}

pub fn error_response(rules: Rules, buf: &[u8]) -> Result<(Message, usize), Unread>
    ensures { decoded result ≡ decode_as rules K.typed K.error_response buf.now }
{
    let frame = typed(buf, kinds::ERROR_RESPONSE)?;
    let (fields, c) = items::<ErrorField>(rules, frame, Cursor { at: TYPED_BODY })?;
    finished(frame, c, Message::ErrorResponse(ErrorResponse { fields }))
}

// As an error: one function for both was tried, and costs each 8 instructions.
pub fn notice_response(rules: Rules, buf: &[u8]) -> Result<(Message, usize), Unread>
    ensures { decoded result ≡ decode_as rules K.typed K.notice_response buf.now }
{
    let frame = typed(buf, kinds::NOTICE_RESPONSE)?;
    let (fields, c) = items::<ErrorField>(rules, frame, Cursor { at: TYPED_BODY })?;
    finished(frame, c, Message::NoticeResponse(NoticeResponse { fields }))
}

pub fn notification_response(rules: Rules, buf: &[u8]) -> Result<(Message, usize), Unread>
    ensures { decoded result ≡ decode_as rules K.typed K.notification_response buf.now }
{
    let frame = typed(buf, kinds::NOTIFICATION_RESPONSE)?;
    let c = Cursor { at: TYPED_BODY };
    let Some((word, c)) = c.word(frame) else {
        return Err(cut(c));
    };
    let Some((channel, c)) = c.text(rules, frame) else {
        return Err(cut(c));
    };
    let Some((payload, c)) = c.text(rules, frame) else {
        return Err(cut(c));
    };
    let notification = NotificationResponse {
        pid: signed32(word),
        channel,
        payload,
    };
    finished(frame, c, Message::NotificationResponse(notification))
}
