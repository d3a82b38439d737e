// The copy messages, as in copy.rs. The responses' count is the list's: the Rust carries it beside the list too.
use crate::{List, Span, kinds};

pub const MESSAGE_TYPE_BYTE_COPY_DATA: u8 = kinds::COPY_DATA.1 as u8;

pub const MESSAGE_TYPE_BYTE_COPY_DONE: u8 = kinds::COPY_DONE.1 as u8;

pub const MESSAGE_TYPE_BYTE_COPY_FAIL: u8 = kinds::COPY_FAIL.1 as u8;

pub const MESSAGE_TYPE_BYTE_COPY_IN_RESPONSE: u8 = kinds::COPY_IN_RESPONSE.1 as u8;

pub const MESSAGE_TYPE_BYTE_COPY_OUT_RESPONSE: u8 = kinds::COPY_OUT_RESPONSE.1 as u8;

pub const MESSAGE_TYPE_BYTE_COPY_BOTH_RESPONSE: u8 = kinds::COPY_BOTH_RESPONSE.1 as u8;

#[derive(Clone, Copy, Debug, PartialEq, Eq)]
pub struct CopyData {
    pub data: Span,
}

#[derive(Clone, Copy, Debug, PartialEq, Eq)]
pub struct CopyFail {
    pub message: Span,
}

#[derive(Clone, Copy, Debug, PartialEq, Eq)]
pub struct CopyInResponse {
    pub format: i8,
    pub column_formats: List,
}

#[derive(Clone, Copy, Debug, PartialEq, Eq)]
pub struct CopyOutResponse {
    pub format: i8,
    pub column_formats: List,
}

#[derive(Clone, Copy, Debug, PartialEq, Eq)]
pub struct CopyBothResponse {
    pub format: i8,
    pub column_formats: List,
}
