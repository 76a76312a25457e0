//! Volumes: files of needles, each with an index beside it.
#![tactic(auto)]

mod appending;
mod create;
mod deleting;
mod held;
mod mending;
mod open;
mod reading;
mod standing;
mod writing;

pub use held::{Mode, Volume};
pub use open::Opened;
pub use volume_items::{
    VolumeFault, a_text_has_one_list_of_items, a_vacuum_keeps_the_contents,
    an_index_leads_to_the_contents, an_item_at_the_end_is_the_last,
};
pub use writing::Written;
