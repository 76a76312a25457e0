//! Paths, small byte types, and the outside as traits: what a source, a sink, a clock and a disk tell.
#![tactic(auto)]

mod bytes;
mod clock;
mod course;
mod disk;
mod disk_host;
mod faults;
mod file_name;
mod items;
mod mem;
mod path;
mod path_check;
mod path_fault;
mod sender;
mod sink;
mod source;
mod whole;

pub use bytes::{
    Bytes, LogText, LogTextKind, Mime, MimeKind, Name, NameKind, PlainKind, Text, Word, WordKind,
};
pub use clock::Clock;
pub use course::Course;
pub use disk::{Disk, Host, NamesFault};
pub use disk_host::{DiskHost, WholeDisk};
pub use faults::Faults;
pub use file_name::FileName;
pub use items::Items;
pub use mem::{
    MemClock, MemDisk, MemHost, MemSender, MemSink, MemSource, NamedBytes, Pick, SentPiece,
};
pub use path::Path;
pub use path_fault::PathFault;
pub use sender::Sender;
pub use sink::Sink;
pub use source::{Failed, Source};
pub use whole::{WriteFault, read_full, write_all};
