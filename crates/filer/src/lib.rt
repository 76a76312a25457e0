//! The filer as a value: a log of records, the namespace that a keeper has of it, and the list that was published.
#![tactic(auto)]

mod fault;
mod filer;
mod listed;
mod opening;
mod receipt;
mod room;
mod state;
mod tail;
mod taking;

pub use fault::{ApplyFault, LookFault};
pub use filer::Filer;
pub use listed::{DirectoryList, Listed};
pub use receipt::Receipt;
