use entry::Entry;
use weed_base::{Items, Name};

/// Children of a directory, by their names, in byte order.
pub type DirectoryList = Items<(Name, Entry)>;

/// What stands at a path.
#[derive(Debug, Drop)]
pub enum Listed {
    Absent,
    File(Entry),
    /// The first children with names past the one that was asked for.
    Directory(DirectoryList),
}
