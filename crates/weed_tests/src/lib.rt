//! Runs of the top call over the outside in memory.
#![tactic(auto)]

#[cfg(test)]
mod tests;
