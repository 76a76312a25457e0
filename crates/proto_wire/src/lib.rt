//! The proto3 wire format: fields written, and read by their grammar. Besides, frames of whole payloads.
#![tactic(auto)]

mod fault;
mod field;
mod frame;
mod frame_fault;
mod head;
mod laws;
mod message;
mod reader;
mod scan;
mod wire_type;
mod writer;

pub use fault::WireFault;
pub use field::{Field, Value};
pub use frame::{read_frame, write_frame};
pub use frame_fault::FrameFault;
pub use laws::{
    fields_are_read, fields_follow, frames_are_read, no_field_begins_another,
    no_frame_begins_another, words_are_fields,
};
pub use message::{Message, read_message};
pub use reader::Reader;
pub use writer::Writer;
