// The extended query messages, as in extendedquery.rs.
ghost use Rattle.std.specs.Prelude.{◌≡◌};
ghost use Rattle.protocol.specs.Bytes.{is_one_of};
ghost use Rattle.protocol.specs.Kinds.{targets};

use crate::{List, Span, kinds};

pub const MESSAGE_TYPE_BYTE_PARSE: u8 = kinds::PARSE.1 as u8;

pub const MESSAGE_TYPE_BYTE_PARSE_COMPLETE: u8 = kinds::PARSE_COMPLETE.1 as u8;

pub const MESSAGE_TYPE_BYTE_CLOSE: u8 = kinds::CLOSE.1 as u8;

pub const MESSAGE_TYPE_BYTE_CLOSE_COMPLETE: u8 = kinds::CLOSE_COMPLETE.1 as u8;

pub const MESSAGE_TYPE_BYTE_BIND: u8 = kinds::BIND.1 as u8;

pub const MESSAGE_TYPE_BYTE_BIND_COMPLETE: u8 = kinds::BIND_COMPLETE.1 as u8;

pub const MESSAGE_TYPE_BYTE_DESCRIBE: u8 = kinds::DESCRIBE.1 as u8;

pub const MESSAGE_TYPE_BYTE_EXECUTE: u8 = kinds::EXECUTE.1 as u8;

pub const MESSAGE_TYPE_BYTE_FLUSH: u8 = kinds::FLUSH.1 as u8;

pub const MESSAGE_TYPE_BYTE_SYNC: u8 = kinds::SYNC.1 as u8;

pub const MESSAGE_TYPE_BYTE_PORTAL_SUSPENDED: u8 = kinds::PORTAL_SUSPENDED.1 as u8;

// What Close and Describe aim at: a prepared statement or a portal. Records have the byte, as the Rust's do; an encoder takes any, and refuses the others.
pub const TARGET_TYPE_BYTE_STATEMENT: u8 = b'S';

pub const TARGET_TYPE_BYTE_PORTAL: u8 = b'P';

pub fn is_target(byte: u8) -> bool
    ensures { result ≡ is_one_of byte targets }
{
    matches!(byte, TARGET_TYPE_BYTE_STATEMENT | TARGET_TYPE_BYTE_PORTAL)
}

#[derive(Clone, Copy, Debug, PartialEq, Eq)]
pub struct Parse {
    pub name: Span,
    pub query: Span,
    pub type_oids: List,
}

#[derive(Clone, Copy, Debug, PartialEq, Eq)]
pub struct Bind {
    pub portal_name: Span,
    pub statement_name: Span,
    pub parameter_format_codes: List,
    pub parameters: List,
    pub result_column_format_codes: List,
}

#[derive(Clone, Copy, Debug, PartialEq, Eq)]
pub struct Close {
    pub target_type: u8,
    pub name: Span,
}

#[derive(Clone, Copy, Debug, PartialEq, Eq)]
pub struct Describe {
    pub target_type: u8,
    pub name: Span,
}

#[derive(Clone, Copy, Debug, PartialEq, Eq)]
pub struct Execute {
    pub name: Span,
    pub max_rows: i32,
}
