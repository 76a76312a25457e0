//! What each command changes of a namespace.
#![tactic(auto)]

mod command;
mod laws;
mod moved;
mod moving;
mod parents;
mod placing;
mod planning;
mod removing;
mod way;
mod writing;

pub use command::{Command, CommandChunks, Piece};
pub use laws::{
    moves_keep_names_well_formed, places_keep_names_well_formed, plans_keep_names_well_formed,
    removals_keep_names_well_formed, writes_keep_names_well_formed,
};
pub use moving::plan_move;
pub use placing::plan_place;
pub use planning::plan;
pub use removing::plan_remove;
pub use writing::{Writing, plan_write};
