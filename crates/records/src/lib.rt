//! Records of a log, read from their texts with all of their events, and written.
#![tactic(auto)]

mod counting;
mod event_message;
mod event_parts;
mod event_reading;
mod found;
mod laws;
mod meaning;
mod measure;
mod record_fault;
mod record_reading;
mod record_writing;
mod same_entry;

pub use counting::record_length;
pub use laws::{
    records_of_directories_are_short, same_entries_are_equal, written_entries_are_read,
    written_records_are_read,
};
pub use record_fault::RecordFault;
pub use record_reading::read_record;
pub use record_writing::write_record;
pub use same_entry::is_same_entry;
