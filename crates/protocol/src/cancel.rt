// The request to cancel, as in cancel.rs. The secret key has four bytes.
use crate::kinds;

#[derive(Clone, Copy, Debug, PartialEq, Eq)]
pub struct CancelRequest {
    pub pid: i32,
    pub secret_key: i32,
}

impl CancelRequest {
    pub const CANCEL_REQUEST_CODE: u32 = kinds::CANCEL_REQUEST.1;
}
