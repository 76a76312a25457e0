ghost use Rattle.std.specs.Prelude.{◌≡◌};

use entry::Entry;
use weed_base::{Items, Path};

/// The last time that a record may have.
pub const END_OF_TIME: u64 = i64::MAX as u64;

/// One change of a namespace. None names the root.
#[derive(Debug, Drop)]
pub enum Change {
    /// The path has this entry from now on.
    Put(Path, Entry),
    /// The path and all below it are gone.
    Drop(Path),
}

impl Change {
    ghost use Rattle.name_core.specs.Namespace.{path_of};

    /// The path that it names. Takes no memory.
    pub fn path(&self) -> &Path
        ensures { result.now ≡ path_of self.now }
    {
        match self {
            Change::Put(path, _) | Change::Drop(path) => path,
        }
    }
}

/// The changes of a record, in order.
pub type RecordChanges = Items<Change>;

/// What a log has of one command: its changes, in order.
#[derive(Debug, Drop)]
pub struct Record {
    /// In nanoseconds since 1970.
    pub time: u64,
    pub changes: RecordChanges,
}
