//! Runs of entries and of records over texts in bytes.
#![tactic(auto)]

#[cfg(test)]
mod tests;
