// The messages that describe and carry rows, as in data.rs.
use crate::{List, Span, kinds};

pub const MESSAGE_TYPE_BYTE_ROW_DESCRITION: u8 = kinds::ROW_DESCRIPTION.1 as u8;

pub const MESSAGE_TYPE_BYTE_PARAMETER_DESCRITION: u8 = kinds::PARAMETER_DESCRIPTION.1 as u8;

pub const MESSAGE_TYPE_BYTE_DATA_ROW: u8 = kinds::DATA_ROW.1 as u8;

pub const MESSAGE_TYPE_BYTE_NO_DATA: u8 = kinds::NO_DATA.1 as u8;

pub const FORMAT_CODE_TEXT: i16 = 0;

pub const FORMAT_CODE_BINARY: i16 = 1;

// One field of a RowDescription. Decoded, its name stands in the frame; for encoding, in the lent run of name bytes.
// A host lends a slice of them, so their layout, and their names', is C's.
#[repr(C)]
#[derive(Clone, Copy, Debug, PartialEq, Eq)]
pub struct FieldDescription {
    pub name: Span,
    pub table_id: i32,
    pub column_id: i16,
    pub type_id: u32,
    pub type_size: i16,
    pub type_modifier: i32,
    pub format_code: i16,
}

#[derive(Clone, Copy, Debug, PartialEq, Eq)]
pub struct RowDescription {
    pub fields: List,
}

#[derive(Clone, Copy, Debug, PartialEq, Eq)]
pub struct ParameterDescription {
    pub types: List,
}

// The Rust's data and field_count are the list's start and count.
#[derive(Clone, Copy, Debug, PartialEq, Eq)]
pub struct DataRow {
    pub data: List,
}
