//! Needles in memory.
#![tactic(auto)]

mod blobs;
mod calls;
mod needle;
mod table;

pub use blobs::MemBlobs;
pub use needle::MemNeedle;
