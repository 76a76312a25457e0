//! Entries: what stands at a path, its text, and what keeps the needles of its chunks.
#![tactic(auto)]

mod attributes_reading;
mod attributes_writing;
mod blobs;
mod chunk;
mod chunk_message;
mod chunk_reading;
mod chunks_seen;
mod entry;
mod entry_fault;
mod entry_message;
mod entry_parts;
mod entry_reading;
mod entry_writing;

pub use attributes_reading::{AttributesFields, good_attributes, have_good_values};
pub use attributes_writing::write_attributes;
pub use blobs::{Blobs, DeleteFault, GetFault, PutFault};
pub use chunk::{Chunk, EntryChunks};
pub use entry::{Attributes, Entry, Kind, MAX_FILE_SIZE, MAX_MIME};
pub use entry_fault::EntryFault;
pub use entry_parts::{EntryText, read_entry};
pub use entry_writing::EntryBuffers;
