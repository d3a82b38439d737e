// An answer's row of 16 numbers, by the shape of its fields. It is an array, and kinds are told by numbers: the C interface.
ghost use Rattle.std.specs.Prelude.{[], ◌∷◌, ◌++◌, ◌≡◌};
ghost use Rattle.protocol.specs.declared.Message.TheVariants as M;
ghost use Rattle.protocol.specs.Told.{number_of};
ghost use Rattle.host_layout.specs.LaidOut.{list, need_more_out, numbers_of, record_out, refused_out, signed, span, unread_out};

use crate::bits::bits;
use protocol::extendedquery::{Bind, Execute, Parse};
use protocol::refusal::{Refused, Unread};
use protocol::response::NotificationResponse;
use protocol::{List, Span};

pub fn need_more() -> [usize; 16]
    ensures { result ≡ need_more_out 16 }
{
    [1, 0, 0, 0, 0, 0, 0, 0, 0, 0, 0, 0, 0, 0, 0, 0]
}

pub fn refused(number: u8, place: usize) -> [usize; 16]
    ensures { result ≡ refused_out 16 number place }
{
    let number = number as usize;
    [2, number, place, 0, 0, 0, 0, 0, 0, 0, 0, 0, 0, 0, 0, 0]
}

// A refusal with its place.
pub fn refusal(r: Refused) -> [usize; 16]
    ensures { result ≡ refused_out 16 (number_of r.refusal) r.place }
{
    refused(r.refusal.number(), r.place)
}

// Why nothing was read.
pub fn unread(unread: Unread) -> [usize; 16]
    ensures { result ≡ unread_out unread }
{
    match unread {
        Unread::NeedMore => need_more(),
        Unread::Refused(r) => refusal(r),
    }
}

pub fn none(kind: usize, n: usize) -> [usize; 16]
    ensures { result ≡ record_out n (kind ∷ []) }
{
    [0, 0, 0, n, kind, 0, 0, 0, 0, 0, 0, 0, 0, 0, 0, 0]
}

pub fn one_number(kind: usize, n: usize, a: usize) -> [usize; 16]
    ensures { result ≡ record_out n (kind ∷ a ∷ []) }
{
    [0, 0, 0, n, kind, a, 0, 0, 0, 0, 0, 0, 0, 0, 0, 0]
}

fn two_numbers(kind: usize, n: usize, a: usize, b: usize) -> [usize; 16]
    ensures { result ≡ record_out n (kind ∷ a ∷ b ∷ []) }
{
    [0, 0, 0, n, kind, a, b, 0, 0, 0, 0, 0, 0, 0, 0, 0]
}

fn three_numbers(kind: usize, n: usize, a: usize, b: usize, c: usize) -> [usize; 16]
    ensures { result ≡ record_out n (kind ∷ a ∷ b ∷ c ∷ []) }
{
    [0, 0, 0, n, kind, a, b, c, 0, 0, 0, 0, 0, 0, 0, 0]
}

pub fn one_span(kind: usize, n: usize, s: Span) -> [usize; 16]
    ensures { result ≡ record_out n (kind ∷ span s) }
{
    two_numbers(kind, n, s.start, s.len)
}

// A name and a value: a parameter's status, a start-up argument.
pub fn two_spans(kind: usize, n: usize, name: Span, value: Span) -> [usize; 16]
    ensures { result ≡ record_out n (kind ∷ span name ++ span value) }
{
    [
        0,
        0,
        0,
        n,
        kind,
        name.start,
        name.len,
        value.start,
        value.len,
        0,
        0,
        0,
        0,
        0,
        0,
        0,
    ]
}

pub fn one_list(kind: usize, n: usize, l: List) -> [usize; 16]
    ensures { result ≡ record_out n (kind ∷ list l) }
{
    two_numbers(kind, n, l.start, l.count)
}

// Close and Describe; an error's field, with its code for the target.
pub fn target(kind: usize, n: usize, target_type: u8, name: Span) -> [usize; 16]
    ensures { result ≡ record_out n (kind ∷ target_type ∷ span name) }
{
    three_numbers(kind, n, target_type as usize, name.start, name.len)
}

// The copy responses.
pub fn copy(kind: usize, n: usize, format: i8, l: List) -> [usize; 16]
    ensures { result ≡ record_out n (kind ∷ signed format ++ list l) }
{
    three_numbers(kind, n, bits(format as i32), l.start, l.count)
}

pub fn parse(n: usize, m: Parse) -> [usize; 16]
    ensures { result ≡ record_out n (numbers_of (M.Parse m)) }
{
    let name = m.name;
    let query = m.query;
    let types = m.type_oids;
    [
        0,
        0,
        0,
        n,
        1,
        name.start,
        name.len,
        query.start,
        query.len,
        types.start,
        types.count,
        0,
        0,
        0,
        0,
        0,
    ]
}

pub fn bind(n: usize, m: Bind) -> [usize; 16]
    ensures { result ≡ record_out n (numbers_of (M.Bind m)) }
{
    let portal = m.portal_name;
    let statement = m.statement_name;
    let formats = m.parameter_format_codes;
    let values = m.parameters;
    let results = m.result_column_format_codes;
    [
        0,
        0,
        0,
        n,
        2,
        portal.start,
        portal.len,
        statement.start,
        statement.len,
        formats.start,
        formats.count,
        values.start,
        values.count,
        results.start,
        results.count,
        0,
    ]
}

pub fn execute(n: usize, m: Execute) -> [usize; 16]
    ensures { result ≡ record_out n (numbers_of (M.Execute m)) }
{
    let name = m.name;
    let max_rows = bits(m.max_rows);
    three_numbers(5, n, name.start, name.len, max_rows)
}

pub fn notification(n: usize, m: NotificationResponse) -> [usize; 16]
    ensures { result ≡ record_out n (numbers_of (M.NotificationResponse m)) }
{
    let pid = bits(m.pid);
    let channel = m.channel;
    let payload = m.payload;
    [
        0,
        0,
        0,
        n,
        27,
        pid,
        channel.start,
        channel.len,
        payload.start,
        payload.len,
        0,
        0,
        0,
        0,
        0,
        0,
    ]
}

// A request to cancel, and the key for it.
pub fn key(kind: usize, n: usize, pid: i32, secret_key: i32) -> [usize; 16]
    ensures { result ≡ record_out n (kind ∷ signed pid ++ signed secret_key) }
{
    two_numbers(kind, n, bits(pid), bits(secret_key))
}
