ghost use Rattle.std.specs.Prelude.{◌≡◌};
ghost use Rattle.name_core.specs.Plan.{new_directory};

use entry::{Attributes, Entry, EntryChunks, Kind};
use std::alloc::Global;
use weed_base::Mime;

/// In a second.
const NANOSECONDS: u64 = 1_000_000_000;

/// The permission bits of a directory that a command makes.
const DIRECTORY_MODE: u32 = 0o755;

/// The directory that a command makes at a moment, in nanoseconds since 1970. Takes no memory.
pub fn directory_made_at(alloc: Global, moment: u64) -> Entry
    ensures { result ≡ new_directory moment }
{
    let seconds = moment / NANOSECONDS;
    Entry {
        kind: Kind::Directory,
        attributes: Attributes {
            file_size: 0,
            mtime: seconds,
            mode: DIRECTORY_MODE,
            uid: 0,
            gid: 0,
            crtime: seconds,
            mime: Mime::of(Vec::new(alloc)),
            ttl_sec: 0,
            md5: None,
        },
        chunks: EntryChunks::of(Vec::new(alloc)),
    }
}
