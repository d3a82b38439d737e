// The choice by kind, made once: a frame's type byte, code or answer byte leads to the decoder of its kind.
// Inner: for crates of this library alone (docs/INNER.md).
ghost use Rattle.std.specs.Prelude.{◌≡◌};
ghost use Rattle.protocol.specs.Decode.{decode_in};
ghost use Rattle.protocol.specs.Kinds as K;
ghost use Rattle.protocol.specs.Told.{decoded};

use codec::Cursor;
use messages::{cancel, copy, data, extendedquery, response, simplequery, startup, terminate};
use protocol::cancel::CancelRequest;
use protocol::copy::{
    MESSAGE_TYPE_BYTE_COPY_BOTH_RESPONSE, MESSAGE_TYPE_BYTE_COPY_DATA, MESSAGE_TYPE_BYTE_COPY_DONE,
    MESSAGE_TYPE_BYTE_COPY_FAIL, MESSAGE_TYPE_BYTE_COPY_IN_RESPONSE,
    MESSAGE_TYPE_BYTE_COPY_OUT_RESPONSE,
};
use protocol::data::{
    MESSAGE_TYPE_BYTE_DATA_ROW, MESSAGE_TYPE_BYTE_NO_DATA, MESSAGE_TYPE_BYTE_PARAMETER_DESCRITION,
    MESSAGE_TYPE_BYTE_ROW_DESCRITION,
};
use protocol::extendedquery::{
    MESSAGE_TYPE_BYTE_BIND, MESSAGE_TYPE_BYTE_BIND_COMPLETE, MESSAGE_TYPE_BYTE_CLOSE,
    MESSAGE_TYPE_BYTE_CLOSE_COMPLETE, MESSAGE_TYPE_BYTE_DESCRIBE, MESSAGE_TYPE_BYTE_EXECUTE,
    MESSAGE_TYPE_BYTE_FLUSH, MESSAGE_TYPE_BYTE_PARSE, MESSAGE_TYPE_BYTE_PARSE_COMPLETE,
    MESSAGE_TYPE_BYTE_PORTAL_SUSPENDED, MESSAGE_TYPE_BYTE_SYNC,
};
use protocol::refusal::{Refusal, Unread};
use protocol::response::{
    GssEncResponse, MESSAGE_TYPE_BYTE_COMMAND_COMPLETE, MESSAGE_TYPE_BYTE_EMPTY_QUERY_RESPONSE,
    MESSAGE_TYPE_BYTE_ERROR_RESPONSE, MESSAGE_TYPE_BYTE_NOTICE_RESPONSE,
    MESSAGE_TYPE_BYTE_NOTIFICATION_RESPONSE, MESSAGE_TYPE_BYTE_READY_FOR_QUERY, SslResponse,
};
use protocol::simplequery::MESSAGE_TYPE_BYTE_QUERY;
use protocol::startup::{
    GssEncRequest, MESSAGE_TYPE_BYTE_BACKEND_KEY_DATA, MESSAGE_TYPE_BYTE_PARAMETER_STATUS,
    SslRequest, Startup,
};
use protocol::terminate::MESSAGE_TYPE_BYTE_TERMINATE;
use protocol::{Message, Rules};

// Mode 0: a type byte of the frontend.
pub fn frontend(rules: Rules, buf: &[u8]) -> Result<(Message, usize), Unread>
    ensures { decoded result ≡ decode_in rules K.frontend buf.now }
{
    let c = Cursor { at: 0 };
    let Some((type_byte, _)) = c.byte(buf) else {
        return Err(Unread::NeedMore);
    };
    match type_byte {
        MESSAGE_TYPE_BYTE_PARSE => extendedquery::parse(rules, buf),
        MESSAGE_TYPE_BYTE_BIND => extendedquery::bind(rules, buf),
        MESSAGE_TYPE_BYTE_CLOSE => extendedquery::close(rules, buf),
        MESSAGE_TYPE_BYTE_DESCRIBE => extendedquery::describe(rules, buf),
        MESSAGE_TYPE_BYTE_EXECUTE => extendedquery::execute(rules, buf),
        MESSAGE_TYPE_BYTE_FLUSH => extendedquery::flush(rules, buf),
        MESSAGE_TYPE_BYTE_SYNC => extendedquery::sync(rules, buf),
        MESSAGE_TYPE_BYTE_COPY_DONE => copy::copy_done(rules, buf),
        MESSAGE_TYPE_BYTE_COPY_DATA => copy::copy_data(rules, buf),
        MESSAGE_TYPE_BYTE_COPY_FAIL => copy::copy_fail(rules, buf),
        MESSAGE_TYPE_BYTE_QUERY => simplequery::query(rules, buf),
        MESSAGE_TYPE_BYTE_TERMINATE => terminate::terminate(rules, buf),
        _ => Err(Unread::Refused(Refusal::TypeUnknown.at(0))),
    }
}

// Mode 1: a type byte of the backend.
pub fn backend(rules: Rules, buf: &[u8]) -> Result<(Message, usize), Unread>
    ensures { decoded result ≡ decode_in rules K.backend buf.now }
{
    let c = Cursor { at: 0 };
    let Some((type_byte, _)) = c.byte(buf) else {
        return Err(Unread::NeedMore);
    };
    match type_byte {
        MESSAGE_TYPE_BYTE_PARSE_COMPLETE => extendedquery::parse_complete(rules, buf),
        MESSAGE_TYPE_BYTE_BIND_COMPLETE => extendedquery::bind_complete(rules, buf),
        MESSAGE_TYPE_BYTE_CLOSE_COMPLETE => extendedquery::close_complete(rules, buf),
        MESSAGE_TYPE_BYTE_PORTAL_SUSPENDED => extendedquery::portal_suspended(rules, buf),
        MESSAGE_TYPE_BYTE_NO_DATA => data::no_data(rules, buf),
        MESSAGE_TYPE_BYTE_EMPTY_QUERY_RESPONSE => response::empty_query_response(rules, buf),
        MESSAGE_TYPE_BYTE_COPY_DONE => copy::copy_done(rules, buf),
        MESSAGE_TYPE_BYTE_ROW_DESCRITION => data::row_description(rules, buf),
        MESSAGE_TYPE_BYTE_PARAMETER_DESCRITION => data::parameter_description(rules, buf),
        MESSAGE_TYPE_BYTE_DATA_ROW => data::data_row(rules, buf),
        MESSAGE_TYPE_BYTE_COMMAND_COMPLETE => response::command_complete(rules, buf),
        MESSAGE_TYPE_BYTE_READY_FOR_QUERY => response::ready_for_query(rules, buf),
        MESSAGE_TYPE_BYTE_ERROR_RESPONSE => response::error_response(rules, buf),
        MESSAGE_TYPE_BYTE_NOTICE_RESPONSE => response::notice_response(rules, buf),
        MESSAGE_TYPE_BYTE_COPY_IN_RESPONSE => copy::copy_in_response(rules, buf),
        MESSAGE_TYPE_BYTE_COPY_OUT_RESPONSE => copy::copy_out_response(rules, buf),
        MESSAGE_TYPE_BYTE_COPY_BOTH_RESPONSE => copy::copy_both_response(rules, buf),
        MESSAGE_TYPE_BYTE_NOTIFICATION_RESPONSE => response::notification_response(rules, buf),
        MESSAGE_TYPE_BYTE_COPY_DATA => copy::copy_data(rules, buf),
        MESSAGE_TYPE_BYTE_PARAMETER_STATUS => startup::parameter_status(rules, buf),
        MESSAGE_TYPE_BYTE_BACKEND_KEY_DATA => startup::backend_key_data(rules, buf),
        _ => Err(Unread::Refused(Refusal::TypeUnknown.at(0))),
    }
}

// Where a code stands, after the length, and where one that is unknown is refused.
const CODE_AT: usize = 4;

// Mode 2: a code after the length, which is looked at first.
pub fn cancel(rules: Rules, buf: &[u8]) -> Result<(Message, usize), Unread>
    ensures { decoded result ≡ decode_in rules K.cancel buf.now }
{
    let c = Cursor { at: CODE_AT };
    let Some((code, _)) = c.word(buf) else {
        return Err(Unread::NeedMore);
    };
    match code {
        CancelRequest::CANCEL_REQUEST_CODE => cancel::cancel_request(rules, buf),
        _ => Err(Unread::Refused(Refusal::TypeUnknown.at(CODE_AT))),
    }
}

// Mode 3: the answer to a request for TLS, one byte, which is all of it.
pub fn tls_answer(rules: Rules, buf: &[u8]) -> Result<(Message, usize), Unread>
    ensures { decoded result ≡ decode_in rules K.tls_answer buf.now }
{
    let c = Cursor { at: 0 };
    let Some((answer, _)) = c.byte(buf) else {
        return Err(Unread::NeedMore);
    };
    match answer {
        SslResponse::BYTE_ACCEPT => Ok((
            Message::SslResponse(SslResponse::Accept),
            SslResponse::MESSAGE_LENGTH,
        )),
        SslResponse::BYTE_REFUSE => Ok((
            Message::SslResponse(SslResponse::Refuse),
            SslResponse::MESSAGE_LENGTH,
        )),
        _ => Err(Unread::Refused(Refusal::TypeUnknown.at(0))),
    }
}

// Mode 4: the answer to a request for GSS encryption, one byte, which is all of it. It is like mode 3's, and by itself: the two bytes are constants
// of the answer's type, and a `match` takes them from there.
pub fn gss_answer(rules: Rules, buf: &[u8]) -> Result<(Message, usize), Unread>
    ensures { decoded result ≡ decode_in rules K.gss_answer buf.now }
{
    let c = Cursor { at: 0 };
    let Some((answer, _)) = c.byte(buf) else {
        return Err(Unread::NeedMore);
    };
    match answer {
        GssEncResponse::BYTE_ACCEPT => Ok((
            Message::GssEncResponse(GssEncResponse::Accept),
            GssEncResponse::MESSAGE_LENGTH,
        )),
        GssEncResponse::BYTE_REFUSE => Ok((
            Message::GssEncResponse(GssEncResponse::Refuse),
            GssEncResponse::MESSAGE_LENGTH,
        )),
        _ => Err(Unread::Refused(Refusal::TypeUnknown.at(0))),
    }
}

// Mode 5: the word after the length, which is looked at first.
pub fn first_packet(rules: Rules, buf: &[u8]) -> Result<(Message, usize), Unread>
    ensures { decoded result ≡ decode_in rules K.first_packet buf.now }
{
    let c = Cursor { at: CODE_AT };
    let Some((word, _)) = c.word(buf) else {
        return Err(Unread::NeedMore);
    };
    match word {
        Startup::PROTOCOL_VERSION_3_0 => startup::startup(rules, buf),
        SslRequest::BODY_MAGIC_NUMBER => startup::ssl_request(rules, buf),
        GssEncRequest::BODY_MAGIC_NUMBER => startup::gss_enc_request(rules, buf),
        CancelRequest::CANCEL_REQUEST_CODE => cancel::cancel_request(rules, buf),
        _ => Err(Unread::Refused(Refusal::TypeUnknown.at(c.at))),
    }
}
