// What decode answers, in text: the kind's name, its fields, and the bytes consumed; need-more; or the refusal. So `stdout` has it: each test
// program writes what its own cases ask.
use protocol::extendedquery::{Bind, Parse};
use protocol::refusal::Unread;
use protocol::response::NotificationResponse;
use protocol::{List, Message, Span};
use test_cases::Output;
use test_cases::shown::Shown;

fn write_parse(to: &mut Output, m: Parse) {
    write!(to, "Parse name {} query {}", Shown(m.name), Shown(m.query));
    write!(to, " type_oids {}", Shown(m.type_oids));
}

fn write_bind(to: &mut Output, m: Bind) {
    write!(to, "Bind portal_name {}", Shown(m.portal_name));
    write!(to, " statement_name {}", Shown(m.statement_name));
    write!(
        to,
        " parameter_format_codes {}",
        Shown(m.parameter_format_codes)
    );
    write!(to, " parameters {}", Shown(m.parameters));
    write!(
        to,
        " result_column_format_codes {}",
        Shown(m.result_column_format_codes)
    );
}

// Close and Describe.
fn write_target(to: &mut Output, kind: &str, target_type: u8, name: Span) {
    write!(
        to,
        "{kind} target_type {} name {}",
        target_type as char,
        Shown(name)
    );
}

// The three copy responses.
fn write_copy(to: &mut Output, kind: &str, format: i8, column_formats: List) {
    write!(
        to,
        "{kind} format {format} column_formats {}",
        Shown(column_formats)
    );
}

fn write_notification(to: &mut Output, m: NotificationResponse) {
    write!(to, "NotificationResponse pid {}", m.pid);
    write!(
        to,
        " channel {} payload {}",
        Shown(m.channel),
        Shown(m.payload)
    );
}

fn write_keys(to: &mut Output, kind: &str, pid: i32, secret_key: i32) {
    write!(to, "{kind} pid {pid} secret_key {secret_key}");
}

fn write_status(to: &mut Output, name: Span, value: Span) {
    write!(
        to,
        "ParameterStatus name {} value {}",
        Shown(name),
        Shown(value)
    );
}

fn write_execute(to: &mut Output, name: Span, max_rows: i32) {
    write!(to, "Execute name {} max_rows {max_rows}", Shown(name));
}

// The kinds go by the Rust's files: one function of all of them takes the checker far longer. A kind without fields is its name.
fn write_response(to: &mut Output, message: Message) {
    match message {
        Message::CommandComplete(m) => write!(to, "CommandComplete tag {}", Shown(m.tag)),
        Message::ReadyForQuery(m) => write!(to, "ReadyForQuery status {}", m.status as char),
        Message::ErrorResponse(m) => write!(to, "ErrorResponse fields {}", Shown(m.fields)),
        Message::NoticeResponse(m) => write!(to, "NoticeResponse fields {}", Shown(m.fields)),
        Message::NotificationResponse(m) => write_notification(to, m),
        Message::CancelRequest(m) => write_keys(to, "CancelRequest", m.pid, m.secret_key),
        Message::SslResponse(answer) => write!(to, "SslResponse {answer:?}"),
        Message::GssEncResponse(answer) => write!(to, "GssEncResponse {answer:?}"),
        Message::Startup(m) => write!(to, "Startup parameters {}", Shown(m.parameters)),
        Message::ParameterStatus(m) => write_status(to, m.name, m.value),
        Message::BackendKeyData(m) => write_keys(to, "BackendKeyData", m.pid, m.secret_key),
        _ => write!(to, "{message:?}"),
    }
}

fn write_message(to: &mut Output, message: Message) {
    match message {
        Message::Parse(m) => write_parse(to, m),
        Message::Bind(m) => write_bind(to, m),
        Message::Close(m) => write_target(to, "Close", m.target_type, m.name),
        Message::Describe(m) => write_target(to, "Describe", m.target_type, m.name),
        Message::Execute(m) => write_execute(to, m.name, m.max_rows),
        Message::Query(m) => write!(to, "Query query {}", Shown(m.query)),
        Message::CopyData(m) => write!(to, "CopyData data {}", Shown(m.data)),
        Message::CopyFail(m) => write!(to, "CopyFail message {}", Shown(m.message)),
        Message::CopyInResponse(m) => write_copy(to, "CopyInResponse", m.format, m.column_formats),
        Message::CopyOutResponse(m) => {
            write_copy(to, "CopyOutResponse", m.format, m.column_formats)
        }
        Message::CopyBothResponse(m) => {
            write_copy(to, "CopyBothResponse", m.format, m.column_formats)
        }
        Message::RowDescription(m) => write!(to, "RowDescription fields {}", Shown(m.fields)),
        Message::ParameterDescription(m) => {
            write!(to, "ParameterDescription types {}", Shown(m.types))
        }
        Message::DataRow(m) => write!(to, "DataRow data {}", Shown(m.data)),
        _ => write_response(to, message),
    }
}

pub fn write_decoded(to: &mut Output, decoded: Result<(Message, usize), Unread>) {
    match decoded {
        Ok((message, consumed)) => {
            write_message(to, message);
            write!(to, ", {consumed} consumed");
        }
        Err(unread) => write!(to, "{}", Shown(unread)),
    }
}
