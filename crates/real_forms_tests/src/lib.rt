//! Calls of the real forms.
#![tactic(auto)]

#[cfg(test)]
mod tests;
