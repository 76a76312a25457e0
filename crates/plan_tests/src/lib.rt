//! Runs of commands over names in memory.
#![tactic(auto)]

#[cfg(test)]
mod tests;
