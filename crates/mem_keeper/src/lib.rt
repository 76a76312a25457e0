//! A keeper of a namespace in memory.
#![tactic(auto)]

mod balance;
mod below_path;
mod directory;
mod keeper;
mod names;
mod pages;
mod path_order;
mod places;
mod search;
mod spares;
mod tree;

pub use below_path::Below;
pub use directory::Children;
pub use keeper::MemKeeper;
pub use path_order::order;
pub use places::{Place, Wanted};
