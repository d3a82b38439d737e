// The end of a connection, as in terminate.rs. The message holds nothing.
use crate::kinds;

pub const MESSAGE_TYPE_BYTE_TERMINATE: u8 = kinds::TERMINATE.1 as u8;
