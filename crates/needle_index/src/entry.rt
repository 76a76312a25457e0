ghost use Rattle.std.specs.Prelude.{◌≡◌, ◌<◌, ◌^◌};
ghost use Rattle.needle_index.specs.Text.{entry_at, entry_of, entry_text, is_removal, removal};

/// The size of an entry that removes its key.
const REMOVED: u32 = u32::MAX;

/// An entry of an index file, of 16 bytes.
#[derive(Clone, Copy, Debug, PartialEq, Eq)]
pub struct IndexEntry {
    pub key: u64,
    /// In units of 8 bytes; in an entry that removes, where the item that says so lies.
    pub offset: u32,
    /// In bytes; the greatest one in an entry that removes.
    pub size: u32,
}

impl IndexEntry {
    /// The length of an entry in bytes.
    pub const LENGTH: usize = 16;

    /// The entry that removes a key; `offset` is where the item that says so lies, in units of 8 bytes.
    pub fn removal(key: u64, offset: u32) -> IndexEntry
        ensures { result ≡ removal key offset }
    {
        IndexEntry {
            key,
            offset,
            size: REMOVED,
        }
    }

    /// The entry of the item at a place, by the item's key and size; a size of 0 tells of a deletion. Takes no
    /// memory.
    pub fn at(place: u64, key: u64, size: u32) -> IndexEntry
        requires { place < 2 ^ 35 }
        ensures { result ≡ entry_at place key size }
    {
        let offset = (place / 8) as u32;
        if size == 0 {
            return IndexEntry::removal(key, offset);
        }
        IndexEntry { key, offset, size }
    }

    /// Whether the entry removes its key.
    pub fn is_removal(&self) -> bool
        ensures { result ≡ is_removal self.now }
    {
        self.size == REMOVED
    }

    /// The entry of these bytes: key, offset and size, each with the high byte first. Takes no memory.
    pub fn read(bytes: &[u8; IndexEntry::LENGTH]) -> IndexEntry
        ensures { result ≡ entry_of bytes.now }
    {
        let [
            k0,
            k1,
            k2,
            k3,
            k4,
            k5,
            k6,
            k7,
            o0,
            o1,
            o2,
            o3,
            s0,
            s1,
            s2,
            s3,
        ] = *bytes;
        IndexEntry {
            key: u64::from_be_bytes([k0, k1, k2, k3, k4, k5, k6, k7]),
            offset: u32::from_be_bytes([o0, o1, o2, o3]),
            size: u32::from_be_bytes([s0, s1, s2, s3]),
        }
    }

    /// The bytes of the entry. Takes no memory.
    pub fn write(&self) -> [u8; IndexEntry::LENGTH]
        ensures text { result ≡ entry_text self.now }
        ensures read_back { entry_of result ≡ self.now }
    {
        let IndexEntry { key, offset, size } = *self;
        let mut bytes = [0; IndexEntry::LENGTH];
        bytes[..8].copy_from_slice(&key.to_be_bytes());
        bytes[8..12].copy_from_slice(&offset.to_be_bytes());
        bytes[12..].copy_from_slice(&size.to_be_bytes());
        bytes
    }
}
