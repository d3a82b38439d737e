// Decoding, for a host. A kind is told by its number: the C interface.
ghost use Rattle.std.specs.Prelude.{◌≤◌, ◌≡◌};
ghost use Rattle.protocol.specs.Decode.{decode_of};
ghost use Rattle.protocol.specs.Rules.{rules_of};
ghost use Rattle.protocol.specs.Told.{decoded};
ghost use Rattle.protocol.specs.Views.{kind_number, view};
ghost use Rattle.protocol.specs.declared.Message.TheVariants as M;
ghost use Rattle.host_layout.specs.LaidOut.{laid_out, numbers_of, own_number, record_out};

use host_layout::shapes;
use protocol::Message;
use protocol::refusal::Unread;
use protocol::response::{GssEncResponse, SslResponse};

// A query's answers have a function of their own. Their numbers stand side by side: so the compiler makes one jump of the two matches.
fn record(message: Message, n: usize) -> [usize; 16]
    ensures { result ≡ record_out n (numbers_of message) }
{
    match message {
        Message::Parse(m) => shapes::parse(n, m),
        Message::Bind(m) => shapes::bind(n, m),
        Message::Close(m) => shapes::target(3, n, m.target_type, m.name),
        Message::Describe(m) => shapes::target(4, n, m.target_type, m.name),
        Message::Execute(m) => shapes::execute(n, m),
        Message::Flush => shapes::none(6, n),
        Message::Sync => shapes::none(7, n),
        Message::CopyDone => shapes::none(8, n),
        Message::CopyData(m) => shapes::one_span(9, n, m.data),
        Message::CopyFail(m) => shapes::one_span(10, n, m.message),
        Message::ParseComplete => shapes::none(11, n),
        Message::BindComplete => shapes::none(12, n),
        Message::CloseComplete => shapes::none(13, n),
        Message::PortalSuspended => shapes::none(14, n),
        Message::NoData => shapes::none(15, n),
        Message::CopyInResponse(m) => shapes::copy(24, n, m.format, m.column_formats),
        Message::CopyOutResponse(m) => shapes::copy(25, n, m.format, m.column_formats),
        Message::CopyBothResponse(m) => shapes::copy(26, n, m.format, m.column_formats),
        Message::NotificationResponse(m) => shapes::notification(n, m),
        Message::CancelRequest(m) => shapes::key(28, n, m.pid, m.secret_key),
        Message::SslResponse(answer) => shapes::one_number(29, n, ssl_number(answer)),
        Message::GssEncResponse(answer) => shapes::one_number(30, n, gss_number(answer)),
        Message::Startup(m) => shapes::one_list(31, n, m.parameters),
        Message::SslRequest => shapes::none(32, n),
        Message::GssEncRequest => shapes::none(33, n),
        Message::Query(m) => shapes::one_span(34, n, m.query),
        Message::Terminate => shapes::none(35, n),
        Message::ParameterStatus(m) => shapes::two_spans(36, n, m.name, m.value),
        Message::BackendKeyData(m) => shapes::key(37, n, m.pid, m.secret_key),
        _ => query_answer(message, n),
    }
}

// What a query is answered with, the kinds 16 to 23. EmptyQueryResponse alone holds nothing: it is what the other arms leave.
fn query_answer(message: Message, n: usize) -> [usize; 16]
    requires { (16 ≤ kind_number (view message).kind) × (kind_number (view message).kind ≤ 23) }
    ensures { result ≡ record_out n (numbers_of message) }
{
    match message {
        Message::RowDescription(m) => shapes::one_list(17, n, m.fields),
        Message::ParameterDescription(m) => shapes::one_list(18, n, m.types),
        Message::DataRow(m) => shapes::one_list(19, n, m.data),
        Message::CommandComplete(m) => shapes::one_span(20, n, m.tag),
        Message::ReadyForQuery(m) => shapes::one_number(21, n, m.status as usize),
        Message::ErrorResponse(m) => shapes::one_list(22, n, m.fields),
        Message::NoticeResponse(m) => shapes::one_list(23, n, m.fields),
        _ => shapes::none(16, n),
    }
}

// A TLS answer's number and a GSS answer's, for the C interface. They are two enums of the Rust: one function for both is no plainer.
fn ssl_number(answer: SslResponse) -> usize
    ensures { result ≡ own_number (view (M.SslResponse answer)).kind }
{
    match answer {
        SslResponse::Accept => 0,
        SslResponse::Refuse => 1,
    }
}

fn gss_number(answer: GssEncResponse) -> usize
    ensures { result ≡ own_number (view (M.GssEncResponse answer)).kind }
{
    match answer {
        GssEncResponse::Accept => 0,
        GssEncResponse::Refuse => 1,
    }
}

// The record stands last: so the compiler needs one test the fewer for it.
fn laid_out(answer: Result<(Message, usize), Unread>) -> [usize; 16]
    ensures { result ≡ laid_out (decoded answer) }
{
    match answer {
        Err(unread) => shapes::unread(unread),
        Ok((message, n)) => record(message, n),
    }
}

// The first message of a buffer, as decode::decode answers it.
#[unsafe(no_mangle)]
pub extern "C" fn tusweram_decode(mode: u8, buf: &[u8], out: &mut [usize; 16])
    ensures { out.new ≡ laid_out (decode_of (rules_of mode) buf.now) }
{
    *out = laid_out(decode::decode(mode, buf));
}
