//! Runs of what is seen of chunks, of needles in memory, and of frames.
#![tactic(auto)]

#[cfg(test)]
mod tests;
