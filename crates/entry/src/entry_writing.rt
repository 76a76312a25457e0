ghost use Rattle.std.specs.Prelude.{◌≡◌, ◌++◌, [], All, IfOk, OnOk};
ghost use Rattle.entry.specs.AttributesText.{attributes_text, FitTypes};
ghost use Rattle.entry.specs.Entry.{IsValid};
ghost use Rattle.entry.specs.EntryWriting.{chunk_text, chunks_text, cipher_key, directory_bit, entry_text, fid_text, FitsChunk, FitsEntry, FitsFid};

use crate::attributes_writing::write_attributes;
use crate::chunk::Chunk;
use crate::entry::{Entry, Kind};
use file_id::Fid;
use proto_wire::Writer;
use std::alloc::{AllocError, Global};
use weed_base::{Bytes, Name};

/// The messages inside an entry, each written ahead of the one that holds it. The next entry has their room again.
#[derive(Debug, Drop)]
pub struct EntryBuffers {
    fid: Writer,
    chunk: Writer,
    attributes: Writer,
}

impl EntryBuffers {
    /// Empty ones. Takes no memory.
    pub fn new(alloc: Global) -> EntryBuffers {
        EntryBuffers {
            fid: Writer::new(alloc),
            chunk: Writer::new(alloc),
            attributes: Writer::new(alloc),
        }
    }

    /// Writes an entry into an empty writer.
    pub fn write_entry(
        &mut self,
        into: &mut Writer,
        name: &[u8],
        entry: &Entry,
    ) -> Result<(), AllocError>
        requires { into.old ≡ [] }
        ensures text { OnOk result (into.new ≡ entry_text name.now entry.now) }
        ensures fits { OnOk result (FitsEntry entry.now) }
    {
        self.set_attributes(entry)?;
        into.bytes(1, name)?;
        into.varint(2, bit_of(entry.kind))?;
        self.write_chunks(into, entry.chunks.as_slice())?;
        into.message(4, self.attributes.as_slice())
    }

    fn set_attributes(&mut self, entry: &Entry) -> Result<(), AllocError>
        ensures text { OnOk result (self.new.attributes ≡ attributes_text entry.now.attributes) }
        ensures fits { OnOk result (FitTypes entry.now.attributes) }
    {
        self.attributes.clear();
        write_attributes(&mut self.attributes, &entry.attributes)
    }

    fn write_chunks(&mut self, into: &mut Writer, chunks: &[Chunk]) -> Result<(), AllocError>
        ensures text { OnOk result (into.new ≡ into.old ++ chunks_text chunks.now) }
        ensures fits { OnOk result (All FitsChunk chunks.now) }
        ensures stays { OnOk result (self.new.attributes ≡ self.old.attributes) }
    {
        for chunk in chunks {
            self.set_chunk(chunk)?;
            into.message(3, self.chunk.as_slice())?;
        }
        Ok(())
    }

    fn set_chunk(&mut self, chunk: &Chunk) -> Result<(), AllocError>
        ensures text { OnOk result (self.new.chunk ≡ chunk_text chunk.now) }
        ensures fits { OnOk result (FitsChunk chunk.now) }
        ensures stays { OnOk result (self.new.attributes ≡ self.old.attributes) }
    {
        self.fid.clear();
        write_fid(&mut self.fid, &chunk.fid)?;
        self.chunk.clear();
        self.chunk.varint(2, chunk.offset)?;
        self.chunk.varint(3, chunk.size)?;
        self.chunk.varint(4, chunk.modified)?;
        self.chunk.message(7, self.fid.as_slice())?;
        self.chunk.bytes(9, key_of(chunk.ciphered))?;
        self.chunk.varint(10, u64::from(chunk.compressed))?;
        self.chunk.varint(11, u64::from(chunk.manifest))
    }
}

fn write_fid(into: &mut Writer, fid: &Fid) -> Result<(), AllocError>
    requires { into.old ≡ [] }
    ensures text { OnOk result (into.new ≡ fid_text fid.now) }
    ensures fits { OnOk result (FitsFid fid.now) }
{
    into.varint(1, u64::from(fid.volume))?;
    into.varint(2, fid.key)?;
    into.fixed32(3, fid.cookie)
}

fn key_of(ciphered: bool) -> &'static [u8]
    ensures { result.now ≡ cipher_key ciphered }
{
    if ciphered { &[1] } else { &[] }
}

fn bit_of(kind: Kind) -> u64
    ensures { result ≡ directory_bit kind }
{
    match kind {
        Kind::Directory => 1,
        Kind::File => 0,
    }
}

impl Entry {
    /// The text of the entry with this name.
    pub fn write(&self, alloc: Global, name: &Name) -> Result<Bytes, AllocError>
        requires { IsValid self.now }
        ensures { IfOk result (λ text. text ≡ entry_text name.now self.now) }
    {
        let mut text = Writer::new(alloc);
        let mut buffers = EntryBuffers::new(alloc);
        buffers.write_entry(&mut text, name.as_slice(), self)?;
        Ok(text.done())
    }
}
