//! A keeper of a namespace in a database in memory.
#![tactic(auto)]

mod database;
mod either;
mod keeper;
mod keys;
mod page;
mod trouble;

pub use either::EitherKeeper;
pub use keeper::SqlKeeper;
