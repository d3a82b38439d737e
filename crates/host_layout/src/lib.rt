// How an answer is laid out at the library's boundary: an array of numbers, by the definitions of specs/.
// Inner: for crates of this library alone (docs/INNER.md).
#![tactic(auto)]

pub mod bits;
pub mod shapes;
