ghost use Rattle.std.specs.Prelude.{◌≡◌, IsOk, IfOk, IsTrue, option_and_then};
ghost use Rattle.proto_wire.specs.Field.{field_text, fields_of};
ghost use Rattle.proto_wire.specs.Taken.{text_in};
ghost use Rattle.entry.specs.Entry.{IsValid};
ghost use Rattle.entry.specs.EntryText.{chunk_read};
ghost use Rattle.entry.specs.EntryReading.{chunks_of, entry_of, is_entry, kind_of, entry_read, ReadsEntry};

use crate::attributes_reading::{good_attributes, have_good_values};
use crate::chunk::{Chunk, EntryChunks};
use crate::chunk_reading::{chunk_of, read_chunk};
use crate::entry::{Entry, Kind, MAX_CHUNKS};
use crate::entry_fault::EntryFault;
use crate::entry_parts::{EntryText, read_entry};
use proto_wire::{Field, Reader, Value};
use std::alloc::{AllocError, Global};
use weed_base::Name;

impl<'a> EntryText<'a> {
    /// The text means an entry: its values keep to the limits. Takes no memory.
    pub fn is_entry(&self) -> bool
        ensures { result ≡ is_entry self.now }
    {
        let fields = self.fields();
        have_good_values(self.attributes())
            && fields.chunks.are_good
            && fields.chunks.count <= MAX_CHUNKS
            && (fields.is_directory == 0 || fields.chunks.count == 0)
    }

    /// The entry.
    pub fn to_entry(&self, alloc: Global) -> Result<Entry, AllocError>
        requires { IsTrue (is_entry self.now) }
        ensures entry { IfOk result (λ made. made ≡ entry_of self.now) }
        ensures valid { IfOk result IsValid }
    {
        entry_with_chunks(alloc, self, self.text())
    }
}

/// The entry, with the chunks of its text.
fn entry_with_chunks(alloc: Global, parts: &EntryText, text: &[u8]) -> Result<Entry, AllocError>
    requires good { IsTrue (is_entry parts.now) }
    requires whole { IsOk (fields_of text.now) }
    requires same { text.now ≡ parts.now.text }
    ensures { IfOk result (λ made. made ≡ entry_of parts.now) }
{
    Ok(Entry {
        kind: kind_by_number(parts.fields().is_directory),
        attributes: good_attributes(alloc, parts.attributes())?,
        chunks: EntryChunks::of(collect_chunks(alloc, text)?),
    })
}

fn kind_by_number(is_directory: u64) -> Kind
    ensures { result ≡ kind_of is_directory }
{
    if is_directory == 0 {
        Kind::File
    } else {
        Kind::Directory
    }
}

/// The chunks of a text that has only whole fields.
fn collect_chunks(alloc: Global, text: &[u8]) -> Result<Vec<Chunk>, AllocError>
    requires { IsOk (fields_of text.now) }
    ensures { IfOk result (λ made. made.items ≡ chunks_of text.now) }
{
    let mut reader = Reader::new(text);
    let mut chunks = Vec::new(alloc);
    while let Ok(Some(field)) = reader.next() {
        if let Some(chunk) = chunk_in(&field) {
            chunks.push(chunk)?;
        }
    }
    Ok(chunks)
}

/// The chunk that the field holds, if it holds one. Takes no memory.
fn chunk_in(field: &Field) -> Option<Chunk>
    ensures { result ≡ option_and_then chunk_read (text_in 3 (field_text field.now)) }
{
    match field.value {
        Value::Bytes(text) if field.number == 3 => match read_chunk(text) {
            Ok(chunk) => chunk_of(&chunk),
            Err(_) => None,
        },
        _ => None,
    }
}

impl Entry {
    /// The name and the entry that the text spells. `Wire` is the first fault of the text's own fields, else of the
    /// messages that it takes, in their order; `BadEntry` comes where there is none, for values past an entry's
    /// limits or a file id that is missing.
    pub fn read(alloc: Global, text: &[u8]) -> Result<(Name, Entry), EntryFault>
        ensures exact { ReadsEntry (entry_read text.now) result }
        ensures valid { IfOk result (λ read. IsValid read.1) }
    {
        let parts = read_entry(text)?;
        if !parts.is_entry() {
            return Err(EntryFault::BadEntry);
        }
        let name = Name::new(alloc, parts.fields().name)?;
        Ok((name, parts.to_entry(alloc)?))
    }
}
