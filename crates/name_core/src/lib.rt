//! Names in a tree: entries, the changes of a record, and what a command plans.
#![tactic(auto)]

mod change;
mod command;
mod laws;
mod made;
mod names;
mod planning;

pub use change::{Change, Record, RecordChanges};
pub use command::{Command, PlanFault, Refusal};
pub use laws::{
    made_directories_are_there, plans_keep_logs_sound, plans_keep_names_well_formed,
    plans_keep_times_rising,
};
pub use made::directory_made_at;
pub use names::{KeeperFault, Names};
pub use planning::{new_directories, plan};
