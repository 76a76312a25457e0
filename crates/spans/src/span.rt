ghost use Rattle.std.specs.Prelude.{◌≡◌, ◌≤◌, ◌<◌, ◌-◌, ◌+◌, ◌++◌, ℕ, List, Option, Some, None, IfOk, IfErr, OnOk, IfSome, IsErrOf, IsErrAnd, All, IsSome, length, filter};
ghost use Rattle.entry.specs.Entry.{IsValid, IsValidChunk};
ghost use Rattle.entry.specs.Needles.{Counts, held_under};
ghost use Rattle.spans.specs.Denotation.{Reaches, is_near, bytes_by, denoted};
ghost use Rattle.spans.specs.Spans.{Adds, AreServed, IsFaultOf, IsMiss, IsOutside, IsPlain, IsServed, IsStopped, StopsUnlessMemory, IsFaultSeen, IsMarkOf};

use crate::run::{Run, run_from, spans_after};
use crate::seen_spans::visible;
use crate::span_fault::SpanFault;
use entry::{Blobs, Chunk, Entry, GetFault};
use std::alloc::{AllocError, Global};
use weed_base::Bytes;

/// The bytes that a file denotes from one position to before another, at most 4 MB. `BadRange` comes where the
/// range isn't one of the file, and any other fault for the first position that can't be read. A chunk that is
/// marked isn't fetched.
pub fn read_span<B: Blobs>(
    alloc: Global,
    entry: &Entry,
    from: u64,
    to: u64,
    blobs: &mut B,
) -> Result<Bytes, SpanFault>
    requires valid { IsValid entry.now }
    requires short { to - from ≤ 4194304 }
    ensures bytes { IfOk result (λ bytes. IfSome (B.needles blobs.old) (λ needles. bytes ≡ denoted needles entry.now.chunks from to)) }
    ensures size { IfOk result (λ bytes. from + length bytes ≡ to) }
    ensures served { OnOk result (AreServed (B.needles blobs.old) entry.now.chunks from to) }
    ensures outside { IsOutside entry.now from to → IsErrOf result SpanFault.BadRange }
    ensures stopped { IfErr result (IsStopped (B.needles blobs.old) entry.now from to) }
    ensures needles { B.needles blobs.new ≡ B.needles blobs.old }
    ensures faults { Counts (B.faults blobs.old) (B.faults blobs.new) (IsErrOf result SpanFault.BlobFault) }
    ensures misses { Counts (B.misses blobs.old) (B.misses blobs.new) (IsErrAnd result IsMiss) }
    ensures beside { B.beside blobs.new ≡ B.beside blobs.old }
{
    if to < from || entry.length() < to {
        return Err(SpanFault::BadRange);
    }
    read_range(alloc, entry.chunks.as_slice(), from, to, blobs)
}

/// The same of a range that is one of the file's.
fn read_range<B: Blobs>(
    alloc: Global,
    chunks: &[Chunk],
    from: u64,
    to: u64,
    blobs: &mut B,
) -> Result<Bytes, SpanFault>
    requires valid { All IsValidChunk chunks.now }
    requires few { length chunks.now ≤ 65536 }
    requires ordered { from ≤ to }
    ensures bytes { IfOk result (λ bytes. IfSome (B.needles blobs.old) (λ needles. bytes ≡ denoted needles chunks.now from to)) }
    ensures size { IfOk result (λ bytes. from + length bytes ≡ to) }
    ensures served { OnOk result (AreServed (B.needles blobs.old) chunks.now from to) }
    ensures stopped { IfErr result (StopsUnlessMemory (B.needles blobs.old) chunks.now from to) }
    ensures needles { B.needles blobs.new ≡ B.needles blobs.old }
    ensures faults { Counts (B.faults blobs.old) (B.faults blobs.new) (IsErrOf result SpanFault.BlobFault) }
    ensures misses { Counts (B.misses blobs.old) (B.misses blobs.new) (IsErrAnd result IsMiss) }
    ensures beside { B.beside blobs.new ≡ B.beside blobs.old }
{
    let near = near_chunks(alloc, chunks, from, to)?;
    read_spans(alloc, &near, from, to, blobs)
}

/// The chunks that have a position of the range, in order.
fn near_chunks(
    alloc: Global,
    chunks: &[Chunk],
    from: u64,
    to: u64,
) -> Result<Vec<Chunk>, AllocError>
    ensures { IfOk result (λ near. near.items ≡ filter (is_near from to) chunks.now) }
{
    chunks
        .iter()
        .filter(|chunk| chunk.offset < to && from.saturating_sub(chunk.offset) < chunk.size)
        .copied()
        .collect(alloc)
}

/// The same of chunks of which most are seen there.
fn read_spans<B: Blobs>(
    alloc: Global,
    chunks: &[Chunk],
    from: u64,
    to: u64,
    blobs: &mut B,
) -> Result<Bytes, SpanFault>
    requires valid { All IsValidChunk chunks.now }
    requires few { length chunks.now ≤ 65536 }
    requires ordered { from ≤ to }
    ensures bytes { IfOk result (λ bytes. IfSome (B.needles blobs.old) (λ needles. bytes ≡ denoted needles chunks.now from to)) }
    ensures size { IfOk result (λ bytes. from + length bytes ≡ to) }
    ensures served { OnOk result (AreServed (B.needles blobs.old) chunks.now from to) }
    ensures stopped { IfErr result (StopsUnlessMemory (B.needles blobs.old) chunks.now from to) }
    ensures needles { B.needles blobs.new ≡ B.needles blobs.old }
    ensures faults { Counts (B.faults blobs.old) (B.faults blobs.new) (IsErrOf result SpanFault.BlobFault) }
    ensures misses { Counts (B.misses blobs.old) (B.misses blobs.new) (IsErrAnd result IsMiss) }
    ensures beside { B.beside blobs.new ≡ B.beside blobs.old }
{
    let spans = visible(alloc, chunks)?;
    let mut rest = spans.as_slice();
    let mut bytes = Vec::new(alloc);
    let mut needle = Bytes::of(Vec::new(alloc));
    let mut at = from;
    while at < to {
        rest = spans_after(rest, at);
        let run = run_from(chunks, rest, at, to);
        add_run(alloc, &run, at, blobs, &mut needle, &mut bytes)?;
        at = run.to;
    }
    Ok(Bytes::of(bytes))
}

/// Adds the bytes of a run from a position on.
fn add_run<B: Blobs>(
    alloc: Global,
    run: &Run,
    at: u64,
    blobs: &mut B,
    needle: &mut Bytes,
    bytes: &mut Vec<u8>,
) -> Result<(), SpanFault>
    requires filled { at < run.now.to }
    requires reach { Reaches run.now.chunk at run.now.to }
    ensures ok { OnOk result (Adds (B.needles blobs.old) run.now.chunk at (run.now.to - at) bytes.old.items bytes.new.items) }
    ensures served { OnOk result (IsServed (B.needles blobs.old) run.now.chunk) }
    ensures err { IfErr result (IsFaultSeen (B.needles blobs.old) run.now.chunk) }
    ensures needles { B.needles blobs.new ≡ B.needles blobs.old }
    ensures faults { Counts (B.faults blobs.old) (B.faults blobs.new) (IsErrOf result SpanFault.BlobFault) }
    ensures misses { Counts (B.misses blobs.old) (B.misses blobs.new) (IsErrAnd result IsMiss) }
    ensures beside { B.beside blobs.new ≡ B.beside blobs.old }
{
    match &run.chunk {
        None => Ok(add_zeros(bytes, (run.to - at) as usize)?),
        Some(chunk) => {
            fetch(alloc, chunk, blobs, needle)?;
            let start = (at - chunk.offset) as usize;
            let end = (run.to - chunk.offset) as usize;
            Ok(bytes.extend_from_slice(&needle.as_slice()[start..end])?)
        }
    }
}

/// Adds zero bytes.
fn add_zeros(bytes: &mut Vec<u8>, count: usize) -> Result<(), AllocError>
    ensures { OnOk result (bytes.new.items ≡ bytes.old.items ++ bytes_by (λ _. 0) 0 count) }
{
    let wanted = bytes.len().saturating_add(count);
    bytes.resize(wanted, 0)?;
    Ok(())
}

/// Fetches the needle of a chunk, whole.
fn fetch<B: Blobs>(
    alloc: Global,
    chunk: &Chunk,
    blobs: &mut B,
    needle: &mut Bytes,
) -> Result<(), SpanFault>
    ensures plain { OnOk result (IsPlain chunk.now) }
    ensures long { OnOk result (chunk.now.size ≤ length needle.new) }
    ensures held { OnOk result (IfSome (B.needles blobs.old) (λ needles. held_under needles chunk.now.fid ≡ Some needle.new)) }
    ensures err { IfErr result (IsFaultOf (B.needles blobs.old) chunk.now) }
    ensures needles { B.needles blobs.new ≡ B.needles blobs.old }
    ensures faults { Counts (B.faults blobs.old) (B.faults blobs.new) (IsErrOf result SpanFault.BlobFault) }
    ensures misses { Counts (B.misses blobs.old) (B.misses blobs.new) (IsErrAnd result IsMiss) }
    ensures beside { B.beside blobs.new ≡ B.beside blobs.old }
{
    check_marks(chunk)?;
    match blobs.get(alloc, &chunk.fid, needle) {
        Ok(()) => check_size(chunk, needle.as_slice().len() as u64),
        Err(GetFault::Failed) => Err(SpanFault::BlobFault),
        Err(GetFault::NotHeld) => Err(SpanFault::NotHeld(chunk.fid)),
        Err(GetFault::Memory) => Err(SpanFault::Memory),
    }
}

/// Refuses a chunk by its first mark.
fn check_marks(chunk: &Chunk) -> Result<(), SpanFault>
    ensures ok { OnOk result (IsPlain chunk.now) }
    ensures err { IfErr result (IsMarkOf chunk.now) }
{
    if chunk.compressed {
        return Err(SpanFault::CompressedChunk(chunk.fid));
    }
    if chunk.ciphered {
        return Err(SpanFault::CipheredChunk(chunk.fid));
    }
    if chunk.manifest {
        return Err(SpanFault::Manifest(chunk.fid));
    }
    Ok(())
}

/// Refuses a needle that has fewer bytes than the chunk's size.
fn check_size(chunk: &Chunk, got: u64) -> Result<(), SpanFault>
    ensures ok { OnOk result (chunk.now.size ≤ got) }
    ensures err { IfErr result (λ fault. (fault ≡ SpanFault.ShortNeedle chunk.now.fid chunk.now.size got) × (got < chunk.now.size)) }
{
    if got < chunk.size {
        return Err(SpanFault::ShortNeedle {
            fid: chunk.fid,
            want: chunk.size,
            got,
        });
    }
    Ok(())
}
