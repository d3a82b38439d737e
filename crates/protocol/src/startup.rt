// The messages of a connection's start, as in startup.rs. The requests for TLS and GSS encryption hold nothing; the secret key has four bytes.
use crate::{List, Span, kinds};

pub const MESSAGE_TYPE_BYTE_PARAMETER_STATUS: u8 = kinds::PARAMETER_STATUS.1 as u8;

pub const MESSAGE_TYPE_BYTE_BACKEND_KEY_DATA: u8 = kinds::BACKEND_KEY_DATA.1 as u8;

// The pairs of name and value stand in the order of the frame, one name perhaps twice; the Rust sorts them.
#[derive(Clone, Copy, Debug, PartialEq, Eq)]
pub struct Startup {
    pub parameters: List,
}

impl Startup {
    pub const PROTOCOL_VERSION_3_0: u32 = kinds::STARTUP.1;
}

#[derive(Clone, Copy, Debug, PartialEq, Eq)]
pub struct SslRequest {}

impl SslRequest {
    pub const BODY_MAGIC_NUMBER: u32 = kinds::SSL_REQUEST.1;
}

#[derive(Clone, Copy, Debug, PartialEq, Eq)]
pub struct GssEncRequest {}

impl GssEncRequest {
    pub const BODY_MAGIC_NUMBER: u32 = kinds::GSS_ENC_REQUEST.1;
}

#[derive(Clone, Copy, Debug, PartialEq, Eq)]
pub struct ParameterStatus {
    pub name: Span,
    pub value: Span,
}

#[derive(Clone, Copy, Debug, PartialEq, Eq)]
pub struct BackendKeyData {
    pub pid: i32,
    pub secret_key: i32,
}
