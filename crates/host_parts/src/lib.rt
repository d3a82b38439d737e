// Parts of a message at the library's boundary: elements, values and whole rows, laid out as crate host_layout says; and a row being built. They are an archive
// by themselves, so that in host's the decoder has one caller and is compiled into it.
#![tactic(auto)]

pub mod building;
pub mod elements;
pub mod reading;
