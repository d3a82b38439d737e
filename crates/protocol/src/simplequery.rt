// The simple query, as in simplequery.rs.
use crate::{Span, kinds};

pub const MESSAGE_TYPE_BYTE_QUERY: u8 = kinds::QUERY.1 as u8;

#[derive(Clone, Copy, Debug, PartialEq, Eq)]
pub struct Query {
    pub query: Span,
}
