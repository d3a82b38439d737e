// A list of a message: the sort of its items and where it stands, if there is one.
// Inner: for crates of this library alone (docs/INNER.md).
ghost use Rattle.std.specs.Prelude.{◌≡◌};
ghost use Rattle.protocol.specs.Elements.{list_of};
ghost use Rattle.protocol.specs.declared.Message.TheVariants as M;
ghost use Rattle.element.specs.OneList.{item_of, listed_of, only};

use protocol::extendedquery::Bind;
use protocol::{List, Message};

// A sort of item. The message tells it, so it is a value; the type that reads it is chosen in one place (`sorted_at`).
#[derive(Clone, Copy, Debug, PartialEq, Eq)]
pub enum Sort {
    Oid,
    Format,
    Value,
    Field,
    ErrorField,
    Pair,
}

// Of a kind with one list.
fn only(sort: Sort, its: List, list: usize) -> Option<(Sort, List)>
    ensures { listed_of result ≡ only (item_of sort) its list }
{
    if list == 0 { Some((sort, its)) } else { None }
}

fn bind_list(m: Bind, list: usize) -> Option<(Sort, List)>
    ensures { listed_of result ≡ list_of (M.Bind m) list }
{
    match list {
        0 => Some((Sort::Format, m.parameter_format_codes)),
        1 => Some((Sort::Value, m.parameters)),
        2 => Some((Sort::Format, m.result_column_format_codes)),
        _ => None,
    }
}

pub fn list_of(message: Message, list: usize) -> Option<(Sort, List)>
    ensures { listed_of result ≡ list_of message list }
{
    match message {
        Message::Parse(m) => only(Sort::Oid, m.type_oids, list),
        Message::Bind(m) => bind_list(m, list),
        Message::RowDescription(m) => only(Sort::Field, m.fields, list),
        Message::ParameterDescription(m) => only(Sort::Oid, m.types, list),
        Message::DataRow(m) => only(Sort::Value, m.data, list),
        Message::ErrorResponse(m) => only(Sort::ErrorField, m.fields, list),
        Message::NoticeResponse(m) => only(Sort::ErrorField, m.fields, list),
        Message::CopyInResponse(m) => only(Sort::Format, m.column_formats, list),
        Message::CopyOutResponse(m) => only(Sort::Format, m.column_formats, list),
        Message::CopyBothResponse(m) => only(Sort::Format, m.column_formats, list),
        Message::Startup(m) => only(Sort::Pair, m.parameters, list),
        _ => None,
    }
}
