// The second archive that a host in C or Rust links: each function of crate host_parts under its name in C, with its contract. No call asks for
// anything of its input.
#![tactic(auto)]

pub mod building;
pub mod elements;
pub mod reading;
