//! Runs of nodes and of a master.
#![tactic(auto)]

#[cfg(test)]
mod tests;
