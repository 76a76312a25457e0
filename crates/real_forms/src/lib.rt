//! The outside itself: std's streams, clock and files. The clock and the files tell no content.
#![tactic(auto)]

mod clock;
mod dir_disk;
mod folder;
mod kept;
mod streams;
mod system;

pub use clock::SystemClock;
pub use dir_disk::DirDisk;
pub use streams::{
    ReaderSource, StandardError, StandardInput, StandardOutput, SteadyRead, SteadyWrite, WriterSink,
};
pub use system::{System, SystemFile};
