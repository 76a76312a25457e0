ghost use Rattle.std.specs.Prelude.{◌≤◌, ◌-◌, IfOk};
ghost use Rattle.entry.specs.Entry.{IsValid, IsValidChunk};

use super::*;
use spans::{SpanFault, read_span};

/// A file of 16 bytes at least with three chunks.
fn file(alloc: Global, first: Chunk) -> Result<Entry, AllocError>
    requires { IsValidChunk first }
    ensures { IfOk result IsValid }
{
    let mut chunks = Vec::new(alloc);
    chunks.push(first)?;
    chunks.push(chunk(2, 4, 3, 7))?;
    chunks.push(chunk(3, 12, 2, 6))?;
    Ok(Entry {
        kind: Kind::File,
        attributes: Attributes {
            file_size: 16,
            mtime: 0,
            mode: 0o644,
            uid: 0,
            gid: 0,
            crtime: 0,
            mime: Mime::new(alloc, b"")?,
            ttl_sec: 0,
            md5: None,
        },
        chunks: EntryChunks::of(chunks),
    })
}

/// The same chunk, marked as compressed.
fn compressed(chunk: Chunk) -> Chunk
    requires { IsValidChunk chunk }
    ensures { IsValidChunk result }
{
    Chunk {
        compressed: true,
        ..chunk
    }
}

/// Blobs with needles of so many bytes.
fn blobs(alloc: Global, needles: &[&[u8]]) -> Result<MemBlobs, AllocError> {
    let mut held = Vec::new(alloc);
    for bytes in needles {
        held.push(MemNeedle::new(Bytes::new(alloc, bytes)?))?;
    }
    Ok(MemBlobs::new(held, Vec::new(alloc)))
}

/// What is read of the file from one position to another, over a first needle of these bytes.
fn read(
    alloc: Global,
    first: Chunk,
    bytes: &[u8],
    from: u64,
    to: u64,
) -> Result<Result<Bytes, SpanFault>, AllocError>
    requires valid { IsValidChunk first }
    requires short { to - from ≤ 4194304 }
{
    let file = file(alloc, first)?;
    let mut blobs = blobs(alloc, &[bytes, b"xyz", b"uv"])?;
    Ok(read_span(alloc, &file, from, to, &mut blobs))
}

fn is_read(read: &Result<Bytes, SpanFault>, wanted: &[u8]) -> bool {
    match read {
        Ok(bytes) => bytes.as_slice() == wanted,
        Err(_) => false,
    }
}

#[test]
fn a_file_is_read(rt: HostRuntime) -> Result<(), Fail> {
    let all = read(rt.alloc(), chunk(1, 0, 10, 5), b"abcdefghij", 0, 16)?;
    let wanted = b"abcdxyzhij\0\0uv\0\0";
    check(&rt, is_read(&all, wanted));
    Ok(())
}

#[test]
fn no_more_than_the_file_is_read(rt: HostRuntime) -> Result<(), Fail> {
    let fault = read(rt.alloc(), chunk(1, 0, 10, 5), b"abcdefghij", 3, 17)?.err();
    check(&rt, fault == Some(SpanFault::BadRange));
    Ok(())
}

#[test]
fn a_compressed_chunk_is_refused(rt: HostRuntime) -> Result<(), Fail> {
    let marked = compressed(chunk(1, 0, 10, 5));
    let fault = read(rt.alloc(), marked, b"abcdefghij", 0, 1)?.err();
    check(&rt, fault == Some(SpanFault::CompressedChunk(fid(1))));
    Ok(())
}

#[test]
fn a_short_needle_is_refused(rt: HostRuntime) -> Result<(), Fail> {
    let fault = read(rt.alloc(), chunk(1, 0, 10, 5), b"abcdefghi", 0, 1)?.err();
    let wanted = SpanFault::ShortNeedle {
        fid: fid(1),
        want: 10,
        got: 9,
    };
    check(&rt, fault == Some(wanted));
    Ok(())
}
