ghost use Rattle.std.specs.Prelude.{◌≡◌, ◌≤◌, ◌<◌, [], ◌∷◌, ◌++◌, length};
ghost use Rattle.std.specs.Int.{w32, to_le_bytes};
ghost use Rattle.proto_wire.specs.Text.{IsFieldNumber, varint_text, tag_text};
ghost use Rattle.proto_wire.specs.WireType.{code_of};

use crate::wire_type::WireType;
use std::marker::Model;

/// Two varints at most.
const ROOM: usize = 20;

/// The front of a field, put together on the stack: its tag, and a number or a length.
#[derive(Drop)]
pub struct Head {
    bytes: [u8; ROOM],
    length: usize,
}

impl Model for Head {
    ghost use Rattle.std.specs.Prelude.{List, ℕ, take, ◌≤◌};
    ghost use Rattle.std.specs.Coded.{coded_list, coded_ℕ};

    ghost Value = { List ℕ };

    ghost coded = { coded_list coded_ℕ };

    ghost view = { λ head. take head.length head.bytes };

    ghost invariant = { λ head. head.length ≤ 20 };
}

impl Head {
    fn new() -> Head
        ensures { result ≡ [] }
    {
        Head {
            bytes: [0; ROOM],
            length: 0,
        }
    }

    /// The tag of a field.
    pub fn tag(number: u32, wire_type: WireType) -> Head
        requires { IsFieldNumber number }
        ensures tag { result ≡ tag_text number (code_of wire_type) }
        ensures room { length result ≤ 10 }
    {
        let mut head = Head::new();
        head.push_varint(u64::from(number) * 8 + u64::from(wire_type.code()));
        head
    }

    /// Adds a byte.
    pub fn push(&mut self, byte: u8)
        requires { length self.old < 20 }
        ensures { self.new ≡ self.old ++ byte ∷ [] }
    {
        self.bytes[self.length] = byte;
        self.length += 1;
    }

    /// Adds the shortest spelling of a number.
    pub fn push_varint(&mut self, number: u64)
        requires { length self.old ≤ 10 }
        ensures { self.new ≡ self.old ++ varint_text number }
    {
        let mut rest = number;
        while rest >= 0x80 {
            self.push((rest % 0x80 + 0x80) as u8);
            rest /= 0x80;
        }
        self.push(rest as u8);
    }

    /// Adds a number's four bytes, the low one first.
    pub fn push_fixed32(&mut self, number: u32)
        requires { length self.old ≤ 10 }
        ensures { self.new ≡ self.old ++ to_le_bytes w32 number }
    {
        for byte in number.to_le_bytes() {
            self.push(byte);
        }
    }

    /// Its bytes.
    pub fn as_slice(&self) -> &[u8]
        ensures { result.now ≡ self.now }
    {
        &self.bytes[..self.length]
    }
}
