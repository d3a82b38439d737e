// A decoder for each kind, in the module of its Rust file: of a buffer whose tag has told the kind, the length by the kind's line, then the body.
// Each step is opened by `let .. else`, the form that the paper names for a caller that leaves early; a list's refusal goes up by `?`. Rules and buffer go through each,
// as in `codec`. Where kinds of the same steps have no trait (one text, two words), it would be longer than they are.
// Inner: for crates of this library alone (docs/INNER.md).
#![tactic(auto)]

pub mod cancel;
pub mod copy;
pub mod data;
pub mod extendedquery;
pub mod response;
pub mod simplequery;
pub mod startup;
pub mod terminate;
