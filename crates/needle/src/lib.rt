//! Needles: the items of a volume's file, and how they are laid out.
#![tactic(auto)]

mod check;
mod crc;
mod crc_tables;
mod deletion;
mod fault;
mod frame;
mod framing;
mod head;
mod item;
mod laws;
mod parts;
mod placement;
mod reading;
mod superblock;
#[cfg(test)]
mod tests;
mod version;
mod writing;

pub use crc::{Checksum, crc32c};
pub use deletion::DeletionText;
pub use fault::NeedleFault;
pub use framing::Framed;
pub use head::Head;
pub use item::{Item, Needle, ReadItem};
pub use laws::{items_are_read, no_item_begins_another, what_follows_is_not_read};
pub use placement::Placement;
pub use superblock::SuperBlock;
pub use version::{Version, padded_len};
