//! What heads ask of a filer.
#![tactic(auto)]

#[cfg(test)]
mod tests;
