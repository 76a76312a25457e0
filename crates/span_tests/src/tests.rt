ghost use Rattle.std.specs.Prelude.{◌≤◌, ◌+◌};
ghost use Rattle.entry.specs.Entry.{IsValidChunk};

use entry::{Attributes, Chunk, Entry, EntryChunks, Kind};
use file_id::Fid;
use mem_blobs::{MemBlobs, MemNeedle};
use std::alloc::{AllocError, Global};
use std::process::Abort;
use std::test::Fail;
use weed_base::{Bytes, Mime};

mod frames;
mod needles;
mod seen;

fn check(rt: &impl Abort, is_so: bool) {
    assert!(rt; is_so);
}

/// The id of a needle in memory.
fn fid(key: u32) -> Fid {
    Fid {
        volume: 1,
        key: u64::from(key),
        cookie: key,
    }
}

/// A plain chunk of that needle.
fn chunk(key: u32, offset: u64, size: u64, modified: u64) -> Chunk
    requires filled { 1 ≤ size }
    requires within { offset + size ≤ 274877906944 }
    ensures { IsValidChunk result }
{
    Chunk {
        fid: fid(key),
        offset,
        size,
        modified,
        compressed: false,
        ciphered: false,
        manifest: false,
    }
}
