// The copy messages, as in copy.rs.
ghost use Rattle.std.specs.Prelude.{◌≡◌};
ghost use Rattle.protocol.specs.Decode.{decode_as};
ghost use Rattle.protocol.specs.Each.{Each};
ghost use Rattle.protocol.specs.Fields.{Slot};
ghost use Rattle.protocol.specs.Kinds as K;
ghost use Rattle.protocol.specs.declared.Message.{Message};
ghost use Rattle.protocol.specs.Told.{decoded};
ghost use Rattle.envelope.specs.Steps.{decode_made};
ghost use Rattle.messages.specs.Shared.{copy_both_response_message, copy_fields, copy_in_response_message, copy_out_response_message};

use codec::{Cursor, signed8};
use envelope::{TYPED_BODY, cut, fieldless, finished, typed};
use protocol::copy::{CopyBothResponse, CopyData, CopyFail, CopyInResponse, CopyOutResponse};
use protocol::kinds::Line;
use protocol::refusal::Unread;
use protocol::{Count, List, Message, Rules, kinds};

pub fn copy_data(rules: Rules, buf: &[u8]) -> Result<(Message, usize), Unread>
    ensures { decoded result ≡ decode_as rules K.typed K.copy_data buf.now }
{
    let frame = typed(buf, kinds::COPY_DATA)?;
    let c = Cursor { at: TYPED_BODY };
    let data = c.rest(frame);
    let end = Cursor { at: frame.len() };
    finished(frame, end, Message::CopyData(CopyData { data }))
}

pub fn copy_done(rules: Rules, buf: &[u8]) -> Result<(Message, usize), Unread>
    ensures { decoded result ≡ decode_as rules K.typed K.copy_done buf.now }
{
    fieldless(rules, buf, kinds::COPY_DONE, Message::CopyDone)
}

pub fn copy_fail(rules: Rules, buf: &[u8]) -> Result<(Message, usize), Unread>
    ensures { decoded result ≡ decode_as rules K.typed K.copy_fail buf.now }
{
    let frame = typed(buf, kinds::COPY_FAIL)?;
    let c = Cursor { at: TYPED_BODY };
    let Some((message, c)) = c.text(rules, frame) else {
        return Err(cut(c));
    };
    finished(frame, c, Message::CopyFail(CopyFail { message }))
}

// The three responses whose body is a format and the columns' formats.
trait CopyResponse {
    ghost makes: { Each Slot copy_fields → Message };

    fn message(format: i8, column_formats: List) -> Message
        ensures { result ≡ makes (format, (column_formats, tt)) };
}

impl CopyResponse for CopyInResponse {
    ghost makes = { copy_in_response_message };

    fn message(format: i8, column_formats: List) -> Message {
        Message::CopyInResponse(CopyInResponse {
            format,
            column_formats,
        })
    }
}

impl CopyResponse for CopyOutResponse {
    ghost makes = { copy_out_response_message };

    fn message(format: i8, column_formats: List) -> Message {
        Message::CopyOutResponse(CopyOutResponse {
            format,
            column_formats,
        })
    }
}

impl CopyResponse for CopyBothResponse {
    ghost makes = { copy_both_response_message };

    fn message(format: i8, column_formats: List) -> Message {
        Message::CopyBothResponse(CopyBothResponse {
            format,
            column_formats,
        })
    }
}

fn response<R: CopyResponse>(
    rules: Rules,
    buf: &[u8],
    line: Line,
) -> Result<(Message, usize), Unread>
    ensures { decoded result ≡ decode_made rules K.typed line copy_fields R.makes buf.now }
{
    let frame = typed(buf, line)?;
    let c = Cursor { at: TYPED_BODY };
    let Some((format, c)) = c.byte(frame) else {
        return Err(cut(c));
    };
    let (column_formats, c) = c.formats(rules, Count::Signed, frame)?;
    finished(frame, c, R::message(signed8(format), column_formats))
}

pub fn copy_in_response(rules: Rules, buf: &[u8]) -> Result<(Message, usize), Unread>
    ensures { decoded result ≡ decode_as rules K.typed K.copy_in_response buf.now }
{
    response::<CopyInResponse>(rules, buf, kinds::COPY_IN_RESPONSE)
}

pub fn copy_out_response(rules: Rules, buf: &[u8]) -> Result<(Message, usize), Unread>
    ensures { decoded result ≡ decode_as rules K.typed K.copy_out_response buf.now }
{
    response::<CopyOutResponse>(rules, buf, kinds::COPY_OUT_RESPONSE)
}

pub fn copy_both_response(rules: Rules, buf: &[u8]) -> Result<(Message, usize), Unread>
    ensures { decoded result ≡ decode_as rules K.typed K.copy_both_response buf.now }
{
    response::<CopyBothResponse>(rules, buf, kinds::COPY_BOTH_RESPONSE)
}
