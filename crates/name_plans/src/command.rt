use entry::Entry;
use file_id::Fid;
use weed_base::{Items, Mime, Path};

/// A piece of a file's body, which stands under a file id.
#[derive(Clone, Copy, Debug, PartialEq, Eq)]
pub struct Piece {
    pub fid: Fid,
    /// Where it begins in the file, in bytes.
    pub offset: u64,
    /// In bytes.
    pub size: u64,
}

/// The pieces of a file's body, in order.
pub type CommandChunks = Items<Piece>;

/// What a filer is asked to change.
#[derive(Debug, Drop)]
pub enum Command {
    /// Makes the directory and each missing one above it.
    MakeDir {
        path: Path,
    },
    /// Writes a file, or pieces of it from a place on, with each missing directory above it.
    Write {
        path: Path,
        /// In bytes; the whole file is written where there is none.
        at: Option<u64>,
        chunks: CommandChunks,
        /// Of all pieces together, in bytes.
        length: u64,
        mime: Mime,
        /// The digest of the pieces, where known.
        md5: Option<[u8; 16]>,
    },
    /// Takes away what is at the path and, where it is recursive, all below it.
    Remove {
        path: Path,
        recursive: bool,
    },
    /// Moves what is at a path and below it to another path.
    Move {
        from: Path,
        to: Path,
    },
    /// Has this entry at the path, whatever stands in its way.
    Place {
        path: Path,
        entry: Entry,
    },
}
