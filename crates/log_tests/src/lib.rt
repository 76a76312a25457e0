//! Runs of paths, of the disk in memory and of the log over it, and what a call leaves of what stands beside it.
#![tactic(auto)]

#[cfg(test)]
mod tests;
