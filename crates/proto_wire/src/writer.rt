ghost use Rattle.std.specs.Prelude.{◌≡◌, ◌++◌, [], OnOk, OnErr};
ghost use Rattle.proto_wire.specs.Text.{IsFieldNumber, varint_field, fixed32_field, bytes_field, message_field};

use crate::head::Head;
use crate::wire_type::WireType;
use std::alloc::{AllocError, Global};
use std::marker::Model;
use weed_base::Bytes;

/// Writes the fields of a message, one after another.
#[derive(Debug, Drop)]
pub struct Writer {
    text: Vec<u8>,
}

impl Model for Writer {
    ghost use Rattle.std.specs.Prelude.{List, ℕ};
    ghost use Rattle.std.specs.Coded.{coded_list, coded_ℕ};

    ghost Value = { List ℕ };

    ghost coded = { coded_list coded_ℕ };

    ghost view = { λ writer. writer.text.items };
}

impl Writer {
    /// An empty message. Takes no memory.
    pub fn new(alloc: Global) -> Writer
        ensures { result ≡ [] }
    {
        Writer {
            text: Vec::new(alloc),
        }
    }

    /// Adds a number; zero is written as nothing. An `Err` changes nothing.
    pub fn varint(&mut self, number: u32, value: u64) -> Result<(), AllocError>
        requires { IsFieldNumber number }
        ensures ok { OnOk result (self.new ≡ self.old ++ varint_field number value) }
        ensures err { OnErr result (self.new ≡ self.old) }
    {
        if value == 0 {
            return Ok(());
        }
        let mut field = Head::tag(number, WireType::Varint);
        field.push_varint(value);
        self.text.extend_from_slice(field.as_slice())
    }

    /// Adds four bytes; zero is written as nothing. An `Err` changes nothing.
    pub fn fixed32(&mut self, number: u32, value: u32) -> Result<(), AllocError>
        requires { IsFieldNumber number }
        ensures ok { OnOk result (self.new ≡ self.old ++ fixed32_field number value) }
        ensures err { OnErr result (self.new ≡ self.old) }
    {
        if value == 0 {
            return Ok(());
        }
        let mut field = Head::tag(number, WireType::Fixed32);
        field.push_fixed32(value);
        self.text.extend_from_slice(field.as_slice())
    }

    /// Adds bytes; none are written as nothing. An `Err` changes nothing.
    pub fn bytes(&mut self, number: u32, value: &[u8]) -> Result<(), AllocError>
        requires { IsFieldNumber number }
        ensures ok { OnOk result (self.new ≡ self.old ++ bytes_field number value.now) }
        ensures err { OnErr result (self.new ≡ self.old) }
    {
        if value.is_empty() {
            return Ok(());
        }
        self.message(number, value)
    }

    /// Adds a message by its text, also an empty one. An `Err` changes nothing.
    pub fn message(&mut self, number: u32, value: &[u8]) -> Result<(), AllocError>
        requires { IsFieldNumber number }
        ensures ok { OnOk result (self.new ≡ self.old ++ message_field number value.now) }
        ensures err { OnErr result (self.new ≡ self.old) }
    {
        let mut head = Head::tag(number, WireType::Bytes);
        head.push_varint(value.len() as u64);
        let head = head.as_slice();
        self.text.reserve(head.len() + value.len())?;
        self.text.extend_from_slice(head).unwrap();
        self.text.extend_from_slice(value).unwrap();
        Ok(())
    }

    /// What was written so far. Takes no memory.
    pub fn as_slice(&self) -> &[u8]
        ensures { result.now ≡ self.now }
    {
        self.text.as_slice()
    }

    /// Forgets what was written, and keeps the room. Takes no memory.
    pub fn clear(&mut self)
        ensures { self.new ≡ [] }
    {
        self.text.clear();
    }

    /// What was written. Takes no memory.
    pub fn done(self) -> Bytes
        ensures { result ≡ self }
    {
        let Writer { text } = self;
        Bytes::of(text)
    }
}
