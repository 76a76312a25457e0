ghost use Rattle.std.specs.Prelude.{◌≡◌, MatchOption};
ghost use Rattle.needle.specs.Layout.{padded, version_byte, IsVersionByte};

/// The layout of a volume's items.
#[derive(Clone, Copy, Debug, PartialEq, Eq)]
pub enum Version {
    V2,
    V3,
}

impl Version {
    /// The byte that stands for the version. Takes no memory.
    pub fn byte(self) -> u8
        ensures { result ≡ version_byte self }
    {
        match self {
            Version::V2 => 2,
            Version::V3 => 3,
        }
    }

    /// The version of a byte, where it has one. Takes no memory.
    pub fn of_byte(byte: u8) -> Option<Version>
        ensures { MatchOption result (IsVersionByte byte → ⊥) (λ version. byte ≡ version_byte version) }
    {
        match byte {
            2 => Some(Version::V2),
            3 => Some(Version::V3),
            _ => None,
        }
    }
}

/// The length in bytes of an item whose counted parts have `size` bytes, padding included. Takes no memory.
pub fn padded_len(size: u32, version: Version) -> u64
    ensures { result ≡ padded version size }
{
    let frame = match version {
        Version::V2 => 20,
        Version::V3 => 28,
    };
    (u64::from(size) + frame) / 8 * 8 + 8
}
