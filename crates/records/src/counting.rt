ghost use Rattle.std.specs.Prelude.{◌≡◌, ◌++◌, [], ℕ, List, unwrap_or};
ghost use Rattle.proto_wire.specs.Text.{IsFieldNumber, bytes_field, message_field};
ghost use Rattle.entry.specs.AttributesText.{attributes_text};
ghost use Rattle.entry.specs.EntryWriting.{bit, chunk_text, chunks_text, cipher_key, directory_bit, entry_text, fid_text};
ghost use Rattle.records.specs.Lengths.{Measures};
ghost use Rattle.records.specs.RecordText.{change_text, events_text, notification_text, record_text};

use crate::measure::Measure;
use crate::record_writing::{directory_text, name_text};
use entry::{Attributes, Chunk, Entry, Kind};
use file_id::Fid;
use name_core::{Change, Record};

/// The length of the record's text in bytes, and 2^64 - 1 where it is past that. Takes no memory.
pub fn record_length(step: &Record) -> u64
    ensures { Measures result (record_text step.now) }
{
    let mut text = Measure::none();
    text.varint(1, step.time);
    count_events(&mut text, step.changes.as_slice());
    text.size
}

fn count_events(text: &mut Measure, changes: &[Change])
    ensures { (front : List ℕ) → Measures text.old.size front → Measures text.new.size (front ++ events_text changes.now) }
{
    for change in changes {
        text.message(2, change_size(change));
    }
}

fn change_size(change: &Change) -> u64
    ensures { Measures result (change_text change.now) }
{
    let mut text = Measure::none();
    text.bytes(1, directory_text(change.path()));
    text.message(2, notification_size(change));
    text.size
}

fn notification_size(change: &Change) -> u64
    ensures { Measures result (notification_text change.now) }
{
    match change {
        Change::Put(path, entry) => alone(2, entry_size(name_text(path), entry)),
        Change::Drop(path) => alone(1, named_size(name_text(path))),
    }
}

/// Of a message that holds one other.
fn alone(number: u32, size: u64) -> u64
    requires { IsFieldNumber number }
    ensures { (inner : List ℕ) → Measures size inner → Measures result (message_field number inner) }
{
    let mut text = Measure::none();
    text.message(number, size);
    text.size
}

fn named_size(name: &[u8]) -> u64
    ensures { Measures result (bytes_field 1 name.now) }
{
    let mut text = Measure::none();
    text.bytes(1, name);
    text.size
}

fn entry_size(name: &[u8], entry: &Entry) -> u64
    ensures { Measures result (entry_text name.now entry.now) }
{
    let mut text = Measure::none();
    text.bytes(1, name);
    text.varint(2, bit_of(entry.kind));
    count_chunks(&mut text, entry.chunks.as_slice());
    text.message(4, attributes_size(&entry.attributes));
    text.size
}

fn bit_of(kind: Kind) -> u64
    ensures { result ≡ directory_bit kind }
{
    match kind {
        Kind::Directory => 1,
        Kind::File => 0,
    }
}

fn count_chunks(text: &mut Measure, chunks: &[Chunk])
    ensures { (front : List ℕ) → Measures text.old.size front → Measures text.new.size (front ++ chunks_text chunks.now) }
{
    for chunk in chunks {
        text.message(3, chunk_size(chunk));
    }
}

fn chunk_size(chunk: &Chunk) -> u64
    ensures { Measures result (chunk_text chunk.now) }
{
    let mut text = Measure::none();
    text.varint(2, chunk.offset);
    text.varint(3, chunk.size);
    text.varint(4, chunk.modified);
    text.message(7, fid_size(&chunk.fid));
    text.bytes(9, key_of(chunk.ciphered));
    text.varint(10, bit_if(chunk.compressed));
    text.varint(11, bit_if(chunk.manifest));
    text.size
}

fn bit_if(mark: bool) -> u64
    ensures { result ≡ bit mark }
{
    u64::from(mark)
}

fn key_of(ciphered: bool) -> &'static [u8]
    ensures { result.now ≡ cipher_key ciphered }
{
    if ciphered { &[1] } else { &[] }
}

fn fid_size(fid: &Fid) -> u64
    ensures { Measures result (fid_text fid.now) }
{
    let mut text = Measure::none();
    text.varint(1, u64::from(fid.volume));
    text.varint(2, fid.key);
    text.fixed32(3, fid.cookie);
    text.size
}

fn attributes_size(attributes: &Attributes) -> u64
    ensures { Measures result (attributes_text attributes.now) }
{
    let mut text = Measure::none();
    text.varint(1, attributes.file_size);
    text.varint(2, attributes.mtime);
    text.varint(3, u64::from(attributes.mode));
    text.varint(4, u64::from(attributes.uid));
    text.varint(5, u64::from(attributes.gid));
    text.varint(6, attributes.crtime);
    text.bytes(7, attributes.mime.as_slice());
    text.varint(10, u64::from(attributes.ttl_sec));
    text.bytes(14, digest_of(attributes));
    text.size
}

/// The bytes of the digest, none where it isn't known.
fn digest_of(attributes: &Attributes) -> &[u8]
    ensures { result.now ≡ unwrap_or attributes.now.md5 [] }
{
    match &attributes.md5 {
        Some(digest) => digest,
        None => &[],
    }
}
