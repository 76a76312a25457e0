use file_id::Fid;
use weed_base::Items;

/// A piece of a file: the needle that holds it, and where in the file it lies.
#[derive(Clone, Copy, Debug, PartialEq, Eq)]
pub struct Chunk {
    pub fid: Fid,
    /// Where it begins in the file, in bytes.
    pub offset: u64,
    /// In bytes.
    pub size: u64,
    /// When it was written, in nanoseconds since 1970.
    pub modified: u64,
    /// Its needle is compressed.
    pub compressed: bool,
    /// Its needle is ciphered.
    pub ciphered: bool,
    /// Its needle lists further chunks.
    pub manifest: bool,
}

/// The chunks of an entry.
pub type EntryChunks = Items<Chunk>;
