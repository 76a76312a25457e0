//! Whole bodies of HTTP messages, read into memory.
#![tactic(auto)]

mod whole;

pub use whole::read_all;
