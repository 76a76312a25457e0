//! Requests as they are read from a source.
#![tactic(auto)]

#[cfg(test)]
mod tests;
