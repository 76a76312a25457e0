//! Runs of volumes over the disk in memory.
#![tactic(auto)]

#[cfg(test)]
mod tests;
