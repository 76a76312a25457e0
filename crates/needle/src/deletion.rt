ghost use Rattle.std.specs.Prelude.{◌≡◌};
ghost use Rattle.needle.specs.Item.{item_text};
ghost use Rattle.needle.specs.declared.item.Item.TheVariants.{Gone};

use crate::version::Version;
use std::marker::Model;

/// The length in bytes of the longest deletion.
const MAX_LENGTH: usize = 32;

/// The text of a deletion, which contracts see as its bytes.
#[derive(Debug, Drop)]
pub struct DeletionText {
    bytes: [u8; MAX_LENGTH],
    len: usize,
}

impl Model for DeletionText {
    ghost use Rattle.std.specs.Prelude.{List, ℕ, take, ◌≤◌};
    ghost use Rattle.std.specs.Coded.{coded_list, coded_ℕ};

    ghost Value = { List ℕ };

    ghost coded = { coded_list coded_ℕ };

    ghost view = { λ text. take text.len text.bytes };

    ghost invariant = { λ text. text.len ≤ 32 };
}

impl DeletionText {
    /// That of a key, padded with zeros; `moment`, in nanoseconds since 1970, stands in it from version 3 on.
    /// Takes no memory.
    pub fn new(cookie: u32, key: u64, version: Version, moment: u64) -> DeletionText
        ensures { result ≡ item_text (Gone cookie key) version moment }
    {
        let mut bytes = [0; MAX_LENGTH];
        bytes[..4].copy_from_slice(&cookie.to_be_bytes());
        bytes[4..12].copy_from_slice(&key.to_be_bytes());
        match version {
            Version::V2 => DeletionText { bytes, len: 24 },
            Version::V3 => {
                bytes[20..28].copy_from_slice(&moment.to_be_bytes());
                DeletionText { bytes, len: 32 }
            }
        }
    }

    /// Its bytes. Takes no memory.
    pub fn as_slice(&self) -> &[u8]
        ensures { result.now ≡ self.now }
    {
        &self.bytes[..self.len]
    }
}
