//! The outside in memory: what is read stands in a list, and what is written is kept.
mod calls;
mod change;
mod clock;
mod disk;
mod file;
mod host;
mod keep;
mod replay;
mod room;
mod sender;
mod sent;
mod sink;
mod source;
mod table;

pub use change::Pick;
pub use clock::MemClock;
pub use disk::MemDisk;
pub use host::MemHost;
pub use sender::MemSender;
pub use sent::SentPiece;
pub use sink::MemSink;
pub use source::MemSource;
pub use table::NamedBytes;
