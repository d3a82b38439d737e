// The name of each kind, the Rust's type name, as its line in the tables of kinds has it.
ghost use Rattle.std.specs.Prelude.{◌+◌, ◌≤◌, ◌≡◌, T, length};
ghost use Rattle.protocol.specs.Lines.{filled};
ghost use Rattle.protocol.specs.Names.{letters_of, name_of};
ghost use Rattle.protocol.specs.Views.{view};
ghost use Rattle.listing.specs.Names.{holds_nothing};
ghost use Rattle.listing.specs.Text.{Wrote};

use protocol::tables::letters_in;
use protocol::{Message, kinds};
use writers::put_bytes;

// One match of all kinds would be longer than forty lines, so those whose record holds nothing have a function of their own.
fn name_of(message: Message) -> [u8; 20]
    ensures { result ≡ filled 20 (name_of message) }
{
    match message {
        Message::Parse(_) => kinds::PARSE.0,
        Message::Bind(_) => kinds::BIND.0,
        Message::Close(_) => kinds::CLOSE.0,
        Message::Describe(_) => kinds::DESCRIBE.0,
        Message::Execute(_) => kinds::EXECUTE.0,
        Message::CopyData(_) => kinds::COPY_DATA.0,
        Message::CopyFail(_) => kinds::COPY_FAIL.0,
        Message::RowDescription(_) => kinds::ROW_DESCRIPTION.0,
        Message::ParameterDescription(_) => kinds::PARAMETER_DESCRIPTION.0,
        Message::DataRow(_) => kinds::DATA_ROW.0,
        Message::CommandComplete(_) => kinds::COMMAND_COMPLETE.0,
        Message::ReadyForQuery(_) => kinds::READY_FOR_QUERY.0,
        Message::ErrorResponse(_) => kinds::ERROR_RESPONSE.0,
        Message::NoticeResponse(_) => kinds::NOTICE_RESPONSE.0,
        Message::CopyInResponse(_) => kinds::COPY_IN_RESPONSE.0,
        Message::CopyOutResponse(_) => kinds::COPY_OUT_RESPONSE.0,
        Message::CopyBothResponse(_) => kinds::COPY_BOTH_RESPONSE.0,
        Message::NotificationResponse(_) => kinds::NOTIFICATION_RESPONSE.0,
        Message::CancelRequest(_) => kinds::CANCEL_REQUEST.0,
        Message::SslResponse(_) => kinds::SSL_ACCEPT.0,
        Message::GssEncResponse(_) => kinds::GSS_ACCEPT.0,
        Message::Startup(_) => kinds::STARTUP.0,
        Message::Query(_) => kinds::QUERY.0,
        Message::ParameterStatus(_) => kinds::PARAMETER_STATUS.0,
        Message::BackendKeyData(_) => kinds::BACKEND_KEY_DATA.0,
        _ => empty_name(message),
    }
}

// Of a kind whose record holds nothing. The last arm has the one that the others leave.
fn empty_name(message: Message) -> [u8; 20]
    requires { T (holds_nothing (view message).kind) }
    ensures { result ≡ filled 20 (name_of message) }
{
    match message {
        Message::Flush => kinds::FLUSH.0,
        Message::Sync => kinds::SYNC.0,
        Message::CopyDone => kinds::COPY_DONE.0,
        Message::ParseComplete => kinds::PARSE_COMPLETE.0,
        Message::BindComplete => kinds::BIND_COMPLETE.0,
        Message::CloseComplete => kinds::CLOSE_COMPLETE.0,
        Message::PortalSuspended => kinds::PORTAL_SUSPENDED.0,
        Message::NoData => kinds::NO_DATA.0,
        Message::EmptyQueryResponse => kinds::EMPTY_QUERY_RESPONSE.0,
        Message::SslRequest => kinds::SSL_REQUEST.0,
        Message::GssEncRequest => kinds::GSS_ENC_REQUEST.0,
        _ => kinds::TERMINATE.0,
    }
}

// A kind's name.
pub fn put_name(out: &mut [u8], at: usize, message: Message) -> usize
    requires { at + 20 ≤ length out.old }
    ensures wrote { Wrote out.old at (letters_of (name_of message)) out.new result }
    ensures upper_bound { result ≤ at + 20 }
{
    let name = name_of(message);
    let n = letters_in(name);
    put_bytes(out, at, &name[..n])
}
