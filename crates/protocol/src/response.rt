// The general responses, as in response.rs.
ghost use Rattle.std.specs.Prelude.{◌≡◌};
ghost use Rattle.protocol.specs.Bytes.{is_one_of};
ghost use Rattle.protocol.specs.Kinds.{statuses};

use crate::{List, Span, kinds};

pub const MESSAGE_TYPE_BYTE_COMMAND_COMPLETE: u8 = kinds::COMMAND_COMPLETE.1 as u8;

pub const MESSAGE_TYPE_BYTE_EMPTY_QUERY_RESPONSE: u8 = kinds::EMPTY_QUERY_RESPONSE.1 as u8;

pub const MESSAGE_TYPE_BYTE_READY_FOR_QUERY: u8 = kinds::READY_FOR_QUERY.1 as u8;

pub const MESSAGE_TYPE_BYTE_ERROR_RESPONSE: u8 = kinds::ERROR_RESPONSE.1 as u8;

pub const MESSAGE_TYPE_BYTE_NOTICE_RESPONSE: u8 = kinds::NOTICE_RESPONSE.1 as u8;

pub const MESSAGE_TYPE_BYTE_NOTIFICATION_RESPONSE: u8 = kinds::NOTIFICATION_RESPONSE.1 as u8;

// The three states of a transaction. A record has the byte, as the Rust's does; the encoder takes any, and refuses the others.
pub const READY_STATUS_IDLE: u8 = b'I';

pub const READY_STATUS_TRANSACTION_BLOCK: u8 = b'T';

pub const READY_STATUS_FAILED_TRANSACTION_BLOCK: u8 = b'E';

pub fn is_status(byte: u8) -> bool
    ensures { result ≡ is_one_of byte statuses }
{
    matches!(
        byte,
        READY_STATUS_IDLE | READY_STATUS_TRANSACTION_BLOCK | READY_STATUS_FAILED_TRANSACTION_BLOCK
    )
}

#[derive(Clone, Copy, Debug, PartialEq, Eq)]
pub struct CommandComplete {
    pub tag: Span,
}

#[derive(Clone, Copy, Debug, PartialEq, Eq)]
pub struct ReadyForQuery {
    pub status: u8,
}

#[derive(Clone, Copy, Debug, PartialEq, Eq)]
pub struct ErrorResponse {
    pub fields: List,
}

#[derive(Clone, Copy, Debug, PartialEq, Eq)]
pub struct NoticeResponse {
    pub fields: List,
}

#[derive(Clone, Copy, Debug, PartialEq, Eq)]
pub struct NotificationResponse {
    pub pid: i32,
    pub channel: Span,
    pub payload: Span,
}

// The answer to a request for TLS: one byte and nothing else.
#[derive(Clone, Copy, Debug, PartialEq, Eq)]
pub enum SslResponse {
    Accept,
    Refuse,
}

impl SslResponse {
    pub const BYTE_ACCEPT: u8 = kinds::SSL_ACCEPT.1 as u8;

    pub const BYTE_REFUSE: u8 = kinds::SSL_REFUSE.1 as u8;

    pub const MESSAGE_LENGTH: usize = 1;
}

// The answer to a request for GSS encryption: one byte and nothing else.
#[derive(Clone, Copy, Debug, PartialEq, Eq)]
pub enum GssEncResponse {
    Accept,
    Refuse,
}

impl GssEncResponse {
    pub const BYTE_ACCEPT: u8 = kinds::GSS_ACCEPT.1 as u8;

    pub const BYTE_REFUSE: u8 = kinds::GSS_REFUSE.1 as u8;

    pub const MESSAGE_LENGTH: usize = 1;
}
