// The types of every answer, by value, and the constants, in modules named as the Rust's files.
#![tactic(auto)]

ghost use Rattle.std.specs.Prelude.{◌≡◌};
ghost use Rattle.protocol.specs.Rules.{rules_of};

pub mod cancel;
pub mod copy;
pub mod data;
pub mod extendedquery;
pub mod kinds;
pub mod mode;
pub mod refusal;
pub mod response;
pub mod simplequery;
pub mod startup;
pub mod tables;
pub mod terminate;

use cancel::CancelRequest;
use copy::{CopyBothResponse, CopyData, CopyFail, CopyInResponse, CopyOutResponse};
use data::{DataRow, FieldDescription, ParameterDescription, RowDescription};
use extendedquery::{Bind, Close, Describe, Execute, Parse};
use response::{
    CommandComplete, ErrorResponse, GssEncResponse, NoticeResponse, NotificationResponse,
    ReadyForQuery, SslResponse,
};
use simplequery::Query;
use startup::{BackendKeyData, ParameterStatus, Startup};

// A string, a value or a rest: its first byte, counted from the frame's first, and its length. A string's zero byte and a
// value's length word are not part of it.
#[repr(C)]
#[derive(Clone, Copy, Debug, PartialEq, Eq)]
pub struct Span {
    pub start: usize,
    pub len: usize,
}

// A list: where its first element stands, or would stand where it is empty, and how many it has.
#[derive(Clone, Copy, Debug, PartialEq, Eq)]
pub struct List {
    pub start: usize,
    pub count: usize,
}

// How the two bytes of a list's count are read. A list's row says which.
#[derive(Clone, Copy, Debug, PartialEq, Eq)]
pub enum Count {
    Signed,
    Unsigned,
}

// What a frame is read by: the mode, by the number that the caller names, which may be none (`Mode::try_from`). A version or a check of texts is a further field
// here.
#[derive(Clone, Copy, Debug, PartialEq, Eq)]
pub struct Rules {
    pub mode: u8,
}

pub fn rules_of(mode: u8) -> Rules
    ensures { result ≡ rules_of mode }
{
    Rules { mode }
}

// A message, under the Rust's names. The kinds with no field hold nothing. The variants stand in the order of the kinds' numbers (specs Kinds), by which
// proofs know their places.
#[derive(Clone, Copy, Debug, PartialEq, Eq)]
pub enum Message {
    Parse(Parse),
    Bind(Bind),
    Close(Close),
    Describe(Describe),
    Execute(Execute),
    Flush,
    Sync,
    CopyDone,
    CopyData(CopyData),
    CopyFail(CopyFail),
    ParseComplete,
    BindComplete,
    CloseComplete,
    PortalSuspended,
    NoData,
    EmptyQueryResponse,
    RowDescription(RowDescription),
    ParameterDescription(ParameterDescription),
    DataRow(DataRow),
    CommandComplete(CommandComplete),
    ReadyForQuery(ReadyForQuery),
    ErrorResponse(ErrorResponse),
    NoticeResponse(NoticeResponse),
    CopyInResponse(CopyInResponse),
    CopyOutResponse(CopyOutResponse),
    CopyBothResponse(CopyBothResponse),
    NotificationResponse(NotificationResponse),
    CancelRequest(CancelRequest),
    SslResponse(SslResponse),
    GssEncResponse(GssEncResponse),
    Startup(Startup),
    SslRequest,
    GssEncRequest,
    Query(Query),
    Terminate,
    ParameterStatus(ParameterStatus),
    BackendKeyData(BackendKeyData),
}

// An element of a list.
#[derive(Clone, Copy, Debug, PartialEq, Eq)]
pub enum Element {
    Oid(u32),
    Format(i16),
    Null,
    Value(Span),
    Field(FieldDescription),
    // An error's field: its code and its string.
    ErrorField(u8, Span),
    // A start-up argument: its name and its value.
    Pair(Span, Span),
}
