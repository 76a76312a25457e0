ghost use Rattle.std.specs.Prelude.{◌≡◌, ◌≢◌, ◌≤◌, ◌∷◌, ◌++◌, [], map, nat_lt, ℕ, Option, length, IfOk, IfSome, IsErrOf, OnOk};
ghost use Rattle.weed_base.specs.Told.{IsCauseOf};
ghost use Rattle.entry.specs.declared.entry.Entry.{Entry};
ghost use Rattle.entry.specs.Entry.{IsValid};
ghost use Rattle.name_core.specs.declared.change.Change.TheVariants.{Put};
ghost use Rattle.name_core.specs.Plan.{Changes};
ghost use Rattle.name_plans.specs.Commands as Commands;
ghost use Rattle.name_plans.specs.Makeable.{AreMakeable};
ghost use Rattle.name_plans.specs.Refusing.{Comes};
ghost use Rattle.name_plans.specs.Written.{written_of};
ghost use Rattle.name_plans.specs.Writing.{attributes_before, chunk_at, chunks_after, end_of_write, file_after, file_written, is_directory, IsWrite};

use crate::command::Piece;
use crate::parents::parents_of;
use entry::{Attributes, Chunk, Entry, EntryChunks, Kind, MAX_FILE_SIZE};
use name_core::{Change, Names, PlanFault, RecordChanges, Refusal};
use std::alloc::{AllocError, Global};
use weed_base::{Mime, Path};

/// What a write says besides its path.
#[derive(Clone, Copy, Debug)]
pub struct Writing<'a> {
    /// In bytes; the whole file is written where there is none.
    pub at: Option<u64>,
    pub pieces: &'a [Piece],
    /// Of all pieces together, in bytes.
    pub length: u64,
    pub mime: &'a Mime,
    /// The digest of the pieces, where known.
    pub md5: Option<[u8; 16]>,
}

/// In a second.
const NANOSECONDS: u64 = 1_000_000_000;

/// The permission bits of a new file.
const FILE_MODE: u32 = 0o644;

/// The most chunks of a file.
const MAX_CHUNKS: usize = 65_536;

/// What a write changes: a new directory at each missing ancestor, and the file. The view is only read.
/// `IsFile` names the first ancestor that is a file; `IsDirectory` where the path is a directory or the root;
/// `BadPlace` where the pieces would end past 274,877,906,944 bytes; `TooManyChunks` where the file would have
/// over 65,536 chunks.
pub fn plan_write<V: Names>(
    alloc: Global,
    view: &mut V,
    path: &Path,
    writing: &Writing,
    time: u64,
) -> Result<RecordChanges, PlanFault>
    requires { IsWrite (written_of writing.now) }
    ensures changes { IfSome (V.map view.old) (λ names. Changes (Commands.writing names time path.now (written_of writing.now)) result) }
    ensures map { V.map view.new ≡ V.map view.old }
    ensures beside { V.beside view.new ≡ V.beside view.old }
    ensures cause { IsCauseOf (V.faults view.old) (V.faults view.new) (IsErrOf result PlanFault.KeeperFault) }
    ensures makeable { IfOk result AreMakeable }
{
    let parents = parents_of(alloc, view, path, time)?;
    let old = view.find(alloc, path)?;
    let file = written_file(alloc, path, old, writing, time)?;
    Ok(with_put(alloc, parents, path, file)?)
}

/// The changes with a put behind them.
fn with_put(
    alloc: Global,
    changes: RecordChanges,
    path: &Path,
    entry: Entry,
) -> Result<RecordChanges, AllocError>
    ensures { IfOk result (λ made. made ≡ changes ++ Put path.now entry ∷ []) }
{
    let mut made = changes.into_vec();
    made.push(Change::Put(path.copy(alloc)?, entry))?;
    Ok(RecordChanges::of(made))
}

/// The file that a write leaves at a path where this was.
fn written_file(
    alloc: Global,
    path: &Path,
    old: Option<Entry>,
    writing: &Writing,
    time: u64,
) -> Result<Entry, PlanFault>
    requires write { IsWrite (written_of writing.now) }
    requires valid { IfSome old IsValid }
    ensures file { Comes (file_written time path.now old (written_of writing.now)) result }
    ensures valid { IfOk result IsValid }
    ensures rootless { IfOk result (λ _. path.now ≢ []) }
    ensures no_fault { IsErrOf result PlanFault.KeeperFault → ⊥ }
{
    if path.depth() == 0 || is_directory_there(&old) {
        return Err(PlanFault::Refused(Refusal::IsDirectory));
    }
    if is_past_end(writing) {
        return Err(PlanFault::Refused(Refusal::BadPlace));
    }
    if chunk_count(&old, writing) > MAX_CHUNKS {
        return Err(PlanFault::Refused(Refusal::TooManyChunks));
    }
    Ok(made_file(alloc, old, writing, time)?)
}

pub fn is_directory_there(there: &Option<Entry>) -> bool
    ensures { result ≡ is_directory there.now }
{
    match there {
        Some(entry) => !entry.is_file(),
        None => false,
    }
}

/// The pieces would end past the greatest length of a file.
fn is_past_end(writing: &Writing) -> bool
    ensures { result ≡ nat_lt 274877906944 (end_of_write (written_of writing.now)) }
{
    match writing.at.unwrap_or(0).checked_add(writing.length) {
        Some(end) => end > MAX_FILE_SIZE,
        None => true,
    }
}

/// How many chunks the file would have.
fn chunk_count(old: &Option<Entry>, writing: &Writing) -> usize
    requires { IfSome old.now IsValid }
    ensures { (time : ℕ) → result ≡ length (chunks_after time old.now (written_of writing.now)) }
{
    match (old, writing.at) {
        (Some(entry), Some(_)) => entry.chunks.as_slice().len() + writing.pieces.len(),
        _ => writing.pieces.len(),
    }
}

fn made_file(
    alloc: Global,
    old: Option<Entry>,
    writing: &Writing,
    time: u64,
) -> Result<Entry, AllocError>
    requires valid { IfSome old IsValid }
    requires within { end_of_write (written_of writing.now) ≤ 274877906944 }
    ensures { IfOk result (λ file. file ≡ file_after time old (written_of writing.now)) }
{
    let attributes = attributes_of(alloc, &old, writing, time)?;
    let chunks = chunks_of(alloc, old, writing, time)?;
    Ok(Entry {
        kind: Kind::File,
        attributes,
        chunks,
    })
}

fn attributes_of(
    alloc: Global,
    old: &Option<Entry>,
    writing: &Writing,
    time: u64,
) -> Result<Attributes, AllocError>
    requires valid { IfSome old.now IsValid }
    requires within { end_of_write (written_of writing.now) ≤ 274877906944 }
    ensures { IfOk result (λ made. made ≡ (file_after time old.now (written_of writing.now)).attributes) }
{
    let before = attributes_there(alloc, old, time)?;
    Ok(Attributes {
        file_size: size_after(old, writing),
        mtime: time / NANOSECONDS,
        mode: before.mode,
        uid: before.uid,
        gid: before.gid,
        crtime: before.crtime,
        mime: mime_after(alloc, old, writing)?,
        ttl_sec: before.ttl_sec,
        md5: digest_after(writing),
    })
}

/// Those that the file has, or a new file's.
fn attributes_there(alloc: Global, old: &Option<Entry>, time: u64) -> Result<Attributes, AllocError>
    ensures { IfOk result (λ made. made ≡ attributes_before time old.now) }
{
    if let Some(entry) = old {
        return entry.attributes.copy(alloc);
    }
    Ok(Attributes {
        file_size: 0,
        mtime: time / NANOSECONDS,
        mode: FILE_MODE,
        uid: 0,
        gid: 0,
        crtime: time / NANOSECONDS,
        mime: Mime::of(Vec::new(alloc)),
        ttl_sec: 0,
        md5: None,
    })
}

/// The size of the file, in bytes.
fn size_after(old: &Option<Entry>, writing: &Writing) -> u64
    requires valid { IfSome old.now IsValid }
    requires within { end_of_write (written_of writing.now) ≤ 274877906944 }
    ensures { (time : ℕ) → result ≡ (file_after time old.now (written_of writing.now)).attributes.file_size }
{
    match (old, writing.at) {
        (_, None) => writing.length,
        (None, Some(at)) => at + writing.length,
        (Some(entry), Some(at)) => entry.length().max(at + writing.length),
    }
}

fn mime_after(alloc: Global, old: &Option<Entry>, writing: &Writing) -> Result<Mime, AllocError>
    ensures { IfOk result (λ mime. (time : ℕ) → mime ≡ (file_after time old.now (written_of writing.now)).attributes.mime) }
{
    match (old, writing.at) {
        (Some(entry), Some(_)) => entry.attributes.mime.copy(alloc),
        _ => writing.mime.copy(alloc),
    }
}

fn digest_after(writing: &Writing) -> Option<[u8; 16]>
    ensures { (time : ℕ) (old : Option Entry) → result ≡ (file_after time old (written_of writing.now)).attributes.md5 }
{
    match writing.at {
        Some(_) => None,
        None => writing.md5,
    }
}

fn chunks_of(
    alloc: Global,
    old: Option<Entry>,
    writing: &Writing,
    time: u64,
) -> Result<EntryChunks, AllocError>
    ensures { IfOk result (λ chunks. chunks ≡ chunks_after time old (written_of writing.now)) }
{
    let mut chunks = match (old, writing.at) {
        (Some(entry), Some(_)) => entry.chunks.into_vec(),
        _ => Vec::new(alloc),
    };
    push_pieces(&mut chunks, writing.pieces, time)?;
    Ok(EntryChunks::of(chunks))
}

fn push_pieces(chunks: &mut Vec<Chunk>, pieces: &[Piece], time: u64) -> Result<(), AllocError>
    ensures { OnOk result (chunks.new.items ≡ chunks.old.items ++ map (chunk_at time) pieces.now) }
{
    chunks.reserve(pieces.len())?;
    for piece in pieces {
        chunks.push(chunk_of(piece, time))?;
    }
    Ok(())
}

fn chunk_of(piece: &Piece, time: u64) -> Chunk
    ensures { result ≡ chunk_at time piece.now }
{
    Chunk {
        fid: piece.fid,
        offset: piece.offset,
        size: piece.size,
        modified: time,
        compressed: false,
        ciphered: false,
        manifest: false,
    }
}
