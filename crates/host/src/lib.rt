// The library at its boundary: what a host in C or Rust links. Numbers and slices go in; an answer goes out as one number, or as an array of
// numbers, laid out by the definitions of specs/. No call asks for anything of its input.
#![tactic(auto)]

pub mod decoding;
pub mod encoding;
