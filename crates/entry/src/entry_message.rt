//! Entry, as it is read: with the last values of its fields, and what is seen of its chunks.
ghost use Rattle.std.specs.Prelude.{◌≡◌};

use crate::chunks_seen::ChunksSeen;
use proto_wire::{Field, Message, Value};
use std::marker::Model;

/// Entry, without the attributes in it.
#[derive(Debug, Drop)]
pub struct EntryFields<'a> {
    pub name: &'a [u8],
    pub is_directory: u64,
    pub attributes: &'a [u8],
    pub chunks: ChunksSeen,
}

impl<'a> Model for EntryFields<'a> {
    ghost use Rattle.entry.specs.EntryText.{EntryFieldsText};

    ghost Value = { EntryFieldsText };

    ghost view = { λ taken. record {
      name = taken.name.now;
      is_directory = taken.is_directory;
      attributes = taken.attributes.now;
      chunks = taken.chunks;
    } };
}

impl<'a> EntryFields<'a> {
    ghost use Rattle.entry.specs.EntrySteps.{entry_with_number, entry_with_text};

    fn take_number(&mut self, number: u32, value: u64)
        ensures { self.new ≡ entry_with_number number value self.old }
    {
        if number == 2 {
            self.is_directory = value;
        }
    }

    fn take_text(&mut self, number: u32, text: &'a [u8])
        ensures { self.new ≡ entry_with_text number text.entry.now self.old }
    {
        match number {
            1 => self.name = text,
            3 => self.chunks.take(text),
            4 => {
                self.attributes = text;
                self.chunks.pass_attributes();
            }
            _ => {}
        }
    }
}

impl<'a> Message<'a> for EntryFields<'a> {
    ghost use Rattle.entry.specs.EntryText.{entry_fields_in};

    ghost IsOf = { λ fields taken. taken ≡ entry_fields_in fields };

    fn empty() -> Self {
        EntryFields {
            name: &[],
            is_directory: 0,
            attributes: &[],
            chunks: ChunksSeen::none(),
        }
    }

    fn take(&mut self, field: Field<'a>) {
        match field.value {
            Value::Varint(value) => self.take_number(field.number, value),
            Value::Bytes(text) => self.take_text(field.number, text),
            Value::Fixed64(_) | Value::Fixed32(_) => {}
        }
    }
}
