ghost use Rattle.std.specs.Prelude.{◌≡◌, ◌+◌, ◌*◌, ◌≤◌, ◌∷◌, ◌++◌, [], length};
ghost use Rattle.hex.specs.Hex.{encode_lower};

use std::marker::Model;

/// Ten digits of a volume, a comma, and two digits for each of twelve bytes.
const MAX_LENGTH: usize = 35;

/// The text of a file id, of at most 35 bytes.
#[derive(Debug, Drop)]
pub struct FidText {
    bytes: [u8; MAX_LENGTH],
    length: usize,
}

impl Model for FidText {
    ghost use Rattle.std.specs.Prelude.{List, ℕ, take, ◌≤◌};
    ghost use Rattle.std.specs.Coded.{coded_list, coded_ℕ};

    ghost Value = { List ℕ };

    ghost coded = { coded_list coded_ℕ };

    ghost view = { λ text. take text.length text.bytes };

    ghost invariant = { λ text. text.length ≤ 35 };
}

impl FidText {
    /// Its bytes. Takes no memory.
    pub fn as_slice(&self) -> &[u8]
        ensures short { length result.now ≤ 35 }
        ensures text { result.now ≡ self.now }
    {
        &self.bytes[..self.length]
    }

    /// Of no byte.
    pub(crate) fn empty() -> FidText
        ensures { result ≡ [] }
    {
        FidText {
            bytes: [0; MAX_LENGTH],
            length: 0,
        }
    }

    /// Adds a piece.
    pub(crate) fn append(&mut self, piece: &[u8])
        requires { length self.old + length piece.now ≤ 35 }
        ensures { self.new ≡ self.old ++ piece.now }
    {
        let end = self.length + piece.len();
        self.bytes[self.length..end].copy_from_slice(piece);
        self.length = end;
    }

    /// Two digits in lower case for each byte.
    pub(crate) fn append_hex(&mut self, bytes: &[u8])
        requires { length self.old + 2 * length bytes.now ≤ 35 }
        ensures { self.new ≡ self.old ++ encode_lower bytes.now }
    {
        let end = self.length + 2 * bytes.len();
        hex::encode_to_slice(bytes, &mut self.bytes[self.length..end]).unwrap();
        self.length = end;
    }
}
