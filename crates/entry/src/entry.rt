ghost use Rattle.std.specs.Prelude.{◌≡◌, IfOk};

use crate::chunk::EntryChunks;
use std::alloc::{AllocError, Global};
use weed_base::Mime;

/// The greatest length of a file, in bytes.
pub const MAX_FILE_SIZE: u64 = 274_877_906_944;

/// The most chunks of a file.
pub const MAX_CHUNKS: u32 = 65_536;

/// The greatest length of a media type, in bytes.
pub const MAX_MIME: usize = 255;

/// What an entry is.
#[derive(Clone, Copy, Debug, PartialEq, Eq)]
pub enum Kind {
    Directory,
    File,
}

/// What is known of an entry besides its contents.
#[derive(Debug, Drop)]
pub struct Attributes {
    /// In bytes.
    pub file_size: u64,
    /// In seconds since 1970, when it was last changed.
    pub mtime: u64,
    /// The permission bits.
    pub mode: u32,
    pub uid: u32,
    pub gid: u32,
    /// In seconds since 1970, when it was made.
    pub crtime: u64,
    pub mime: Mime,
    /// In seconds, and 0 where it stays for ever.
    pub ttl_sec: u32,
    /// The digest of the contents, where known.
    pub md5: Option<[u8; 16]>,
}

impl Attributes {
    /// The same attributes again.
    pub fn copy(&self, alloc: Global) -> Result<Attributes, AllocError>
        ensures { IfOk result (λ made. made ≡ self.now) }
    {
        Ok(Attributes {
            file_size: self.file_size,
            mtime: self.mtime,
            mode: self.mode,
            uid: self.uid,
            gid: self.gid,
            crtime: self.crtime,
            mime: self.mime.copy(alloc)?,
            ttl_sec: self.ttl_sec,
            md5: self.md5,
        })
    }
}

/// What stands at a path.
#[derive(Debug, Drop)]
pub struct Entry {
    pub kind: Kind,
    pub attributes: Attributes,
    /// Of a file alone.
    pub chunks: EntryChunks,
}

impl Entry {
    ghost use Rattle.entry.specs.Entry.{IsValid, file_length, is_file_kind};

    /// Whether it is a file. Takes no memory.
    pub fn is_file(&self) -> bool
        ensures { result ≡ is_file_kind self.now.kind }
    {
        match self.kind {
            Kind::Directory => false,
            Kind::File => true,
        }
    }

    /// The length of the file in bytes: the greater of its size and the greatest end of a chunk. Takes no memory.
    pub fn length(&self) -> u64
        requires { IsValid self.now }
        ensures { result ≡ file_length self.now }
    {
        let mut length = self.attributes.file_size;
        for chunk in self.chunks.as_slice() {
            length = length.max(chunk.offset + chunk.size);
        }
        length
    }

    /// The same entry again.
    pub fn copy(&self, alloc: Global) -> Result<Entry, AllocError>
        ensures { IfOk result (λ made. made ≡ self.now) }
    {
        Ok(Entry {
            kind: self.kind,
            attributes: self.attributes.copy(alloc)?,
            chunks: EntryChunks::of(self.chunks.as_slice().to_vec(alloc)?),
        })
    }
}
