//! Keepers of a namespace: what holds the entries by their paths.
#![tactic(auto)]

mod keeper;

pub use keeper::Keeper;
