//! The command line's top call: what each command does to the world that it is handed.
#![tactic(auto)]

mod answer;
mod exit;
mod inbox;
mod name_table;
mod plain_filer;
mod ready;
mod replay;
mod reply;
mod request;
mod run;
mod session;
mod words;
mod world;
mod write;

pub use exit::Exit;
pub use run::weed;
pub use world::World;
