//! The index of a volume: where the needle of each key lies.
#![tactic(auto)]

mod entry;
mod fault;
mod index_map;
mod laws;
mod slots;
mod spot;

pub use entry::IndexEntry;
pub use fault::IndexFault;
pub use index_map::IndexMap;
pub use laws::{an_entry_at_the_end_enters, live_bytes_follow_a_change, texts_enter_one_by_one};
pub use spot::Spot;

#[cfg(test)]
mod tests;
