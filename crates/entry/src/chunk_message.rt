//! FileChunk and its FileId, as they are read: with the last values of their fields.
ghost use Rattle.std.specs.Prelude.{◌≡◌};

use proto_wire::{Field, Message, Value};
use std::marker::Model;

/// FileId.
#[derive(Clone, Copy, Debug)]
pub struct FidFields {
    pub volume: u64,
    pub key: u64,
    pub cookie: u32,
}

impl FidFields {
    ghost use Rattle.entry.specs.ChunkSteps.{fid_with_number, fid_with_fixed};

    fn take_number(&mut self, number: u32, value: u64)
        ensures { self.new ≡ fid_with_number number value self.old }
    {
        match number {
            1 => self.volume = value,
            2 => self.key = value,
            _ => {}
        }
    }

    fn take_fixed(&mut self, number: u32, value: u32)
        ensures { self.new ≡ fid_with_fixed number value self.old }
    {
        if number == 3 {
            self.cookie = value;
        }
    }
}

impl<'a> Message<'a> for FidFields {
    ghost use Rattle.entry.specs.ChunkText.{fid_in};

    ghost IsOf = { λ fields taken. taken ≡ fid_in fields };

    fn empty() -> Self {
        FidFields {
            volume: 0,
            key: 0,
            cookie: 0,
        }
    }

    fn take(&mut self, field: Field<'a>) {
        match field.value {
            Value::Varint(value) => self.take_number(field.number, value),
            Value::Fixed32(value) => self.take_fixed(field.number, value),
            Value::Bytes(_) | Value::Fixed64(_) => {}
        }
    }
}

/// FileChunk, without the message in it.
#[derive(Debug, Drop)]
pub struct ChunkFields<'a> {
    pub offset: u64,
    pub size: u64,
    pub modified: u64,
    pub fid: Option<&'a [u8]>,
    pub cipher_key: &'a [u8],
    pub is_compressed: u64,
    pub is_manifest: u64,
}

impl<'a> Model for ChunkFields<'a> {
    ghost use Rattle.std.specs.Prelude.{option_copied};
    ghost use Rattle.entry.specs.ChunkText.{ChunkText};

    ghost Value = { ChunkText };

    ghost view = { λ taken. record {
      offset = taken.offset;
      size = taken.size;
      modified = taken.modified;
      fid = option_copied taken.fid;
      cipher_key = taken.cipher_key.now;
      is_compressed = taken.is_compressed;
      is_manifest = taken.is_manifest;
    } };
}

impl<'a> ChunkFields<'a> {
    ghost use Rattle.entry.specs.ChunkSteps.{chunk_with_number, chunk_with_text};

    fn take_number(&mut self, number: u32, value: u64)
        ensures { self.new ≡ chunk_with_number number value self.old }
    {
        match number {
            2 => self.offset = value,
            3 => self.size = value,
            4 => self.modified = value,
            10 => self.is_compressed = value,
            11 => self.is_manifest = value,
            _ => {}
        }
    }

    fn take_text(&mut self, number: u32, text: &'a [u8])
        ensures { self.new ≡ chunk_with_text number text.entry.now self.old }
    {
        match number {
            7 => self.fid = Some(text),
            9 => self.cipher_key = text,
            _ => {}
        }
    }
}

impl<'a> Message<'a> for ChunkFields<'a> {
    ghost use Rattle.entry.specs.ChunkText.{chunk_in};

    ghost IsOf = { λ fields taken. taken ≡ chunk_in fields };

    fn empty() -> Self {
        ChunkFields {
            offset: 0,
            size: 0,
            modified: 0,
            fid: None,
            cipher_key: &[],
            is_compressed: 0,
            is_manifest: 0,
        }
    }

    fn take(&mut self, field: Field<'a>) {
        match field.value {
            Value::Varint(value) => self.take_number(field.number, value),
            Value::Bytes(text) => self.take_text(field.number, text),
            Value::Fixed64(_) | Value::Fixed32(_) => {}
        }
    }
}

/// FileChunk with its FileId.
#[derive(Debug, Drop)]
pub struct ChunkParts<'a> {
    pub fields: ChunkFields<'a>,
    pub fid: Option<FidFields>,
}
