ghost use Rattle.std.specs.Prelude.{◌≡◌, option_copied};
ghost use Rattle.entry.specs.ChunkReading.{chunk_at, chunk_of as chunk_meant, chunk_with, fid_if_there, fid_of, is_placed};

use crate::chunk::Chunk;
use crate::chunk_message::{ChunkFields, ChunkParts, FidFields};
use crate::entry::MAX_FILE_SIZE;
use file_id::Fid;
use proto_wire::{WireFault, read_message};

/// A chunk's text with the file id that it takes. Takes no memory.
pub fn read_chunk<'a>(text: &'a [u8]) -> Result<ChunkParts<'a>, WireFault>
    ensures { result ≡ chunk_at text.now }
{
    let fields: ChunkFields = read_message(text)?;
    let fid = read_fid(fields.fid)?;
    Ok(ChunkParts { fields, fid })
}

fn read_fid<'a>(text: Option<&'a [u8]>) -> Result<Option<FidFields>, WireFault>
    ensures { result ≡ fid_if_there (option_copied text.entry) }
{
    match text {
        Some(text) => Ok(Some(read_message(text)?)),
        None => Ok(None),
    }
}

/// The chunk; `None` where it has no file id, a volume past 32 bits, no byte, or an end past the greatest length
/// of a file. Takes no memory.
pub fn chunk_of(parts: &ChunkParts) -> Option<Chunk>
    ensures { result ≡ chunk_meant parts.now }
{
    let fid = good_fid(parts.fid?)?;
    if !has_place(&parts.fields) {
        return None;
    }
    Some(chunk_of_fields(&parts.fields, fid))
}

fn good_fid(fields: FidFields) -> Option<Fid>
    ensures { result ≡ fid_of fields }
{
    if fields.volume > u64::from(u32::MAX) {
        return None;
    }
    Some(Fid {
        volume: fields.volume as u32,
        key: fields.key,
        cookie: fields.cookie,
    })
}

fn has_place(fields: &ChunkFields) -> bool
    ensures { result ≡ is_placed fields.now }
{
    fields.size >= 1 && fields.size <= MAX_FILE_SIZE && fields.offset <= MAX_FILE_SIZE - fields.size
}

fn chunk_of_fields(fields: &ChunkFields, fid: Fid) -> Chunk
    ensures { result ≡ chunk_with fields.now fid }
{
    Chunk {
        fid,
        offset: fields.offset,
        size: fields.size,
        modified: fields.modified,
        compressed: fields.is_compressed != 0,
        ciphered: !fields.cipher_key.is_empty(),
        manifest: fields.is_manifest != 0,
    }
}
