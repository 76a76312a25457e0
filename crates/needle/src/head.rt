ghost use Rattle.std.specs.Prelude.{◌≡◌, ◌+◌, ◌≤◌, ℕ, List, ◌++◌, length};
ghost use Rattle.needle.specs.Pieces.{IsHead, data_behind};

use crate::frame::{u32_at, u64_at};

/// The front of an item, which stands ahead of its data.
#[derive(Clone, Copy, Debug, PartialEq, Eq)]
pub struct Head {
    pub cookie: u32,
    pub key: u64,
    /// How many bytes stand between the size and the checksum, 0 of a deletion.
    pub size: u32,
    /// The length of the data in bytes. A deletion has its checksum in this place.
    pub data_len: u32,
}

impl Head {
    /// The length of a head in bytes. Every item is longer.
    pub const LENGTH: usize = 20;

    /// The head of the item that begins with these bytes, whatever follows them. Takes no memory.
    pub fn read(text: &[u8]) -> Head
        requires { 20 ≤ length text.now }
        ensures { (rest : List ℕ) → IsHead (text.now ++ rest) result }
    {
        Head {
            cookie: u32_at(0, text),
            key: u64_at(4, text),
            size: u32_at(12, text),
            data_len: u32_at(16, text),
        }
    }

    /// How many bytes of data stand behind the head: none of a deletion, and none where the size doesn't count
    /// that many. Takes no memory.
    pub fn data_behind(&self) -> u32
        ensures { result ≡ data_behind self.now }
    {
        if u64::from(self.size) < u64::from(self.data_len) + 5 {
            0
        } else {
            self.data_len
        }
    }
}
