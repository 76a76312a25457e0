//! The items of a volume: where they lie in its file, how they are walked over, and how they are copied.
#![tactic(auto)]

mod copying;
mod fault;
mod file_names;
mod files;
mod indexing;
mod item_copy;
mod laws;
mod loading;
mod look;
mod summing;
mod walking;
mod window;

pub use copying::copy_bytes;
pub use fault::{VolumeFault, no_item};
pub use file_names::{Part, file_name};
pub use files::{append_piece, make_settled, make_with, remove_settled};
pub use indexing::{IndexText, index_text};
pub use item_copy::{copy_items, make_copy, place_copy};
pub use laws::{
    a_text_has_one_list_of_items, a_vacuum_keeps_the_contents,
    an_index_in_order_leads_to_the_living, an_index_leads_to_the_contents,
    an_item_at_the_end_is_the_last,
};
pub use loading::matching_index;
pub use look::{LAST_END, MOST_DATA, Seen};
pub use walking::{Walked, walk};
pub use window::{ROOM, Window};
