ghost use Rattle.std.specs.Prelude.{◌≡◌, ◌+◌, ◌≤◌, length, MatchOption};
ghost use Rattle.needle.specs.Fields.{four_at, eight_at, size_in, moment_in, IsTruncated};
ghost use Rattle.needle.specs.Reading.{IsFrame};
ghost use Rattle.needle.specs.Layout.{padded};

use crate::version::{Version, padded_len};

/// The fields of an item, and what its size counts, where it lies.
#[derive(Clone, Copy)]
pub(crate) struct Frame<'a> {
    pub(crate) cookie: u32,
    pub(crate) key: u64,
    pub(crate) counted: &'a [u8],
    pub(crate) checksum: u32,
    pub(crate) moment: u64,
    /// The length of the item, padding included.
    pub(crate) taken: u64,
}

pub(crate) fn u32_at(place: usize, text: &[u8]) -> u32
    requires { place + 4 ≤ length text.now }
    ensures { result ≡ four_at place text.now }
{
    let four = &text[place..][..4];
    u32::from_be_bytes([four[0], four[1], four[2], four[3]])
}

pub(crate) fn u64_at(place: usize, text: &[u8]) -> u64
    requires { place + 8 ≤ length text.now }
    ensures { result ≡ eight_at place text.now }
{
    let eight = &text[place..][..8];
    u64::from_be_bytes([
        eight[0], eight[1], eight[2], eight[3], eight[4], eight[5], eight[6], eight[7],
    ])
}

fn moment_of(version: Version, text: &[u8], size: usize) -> u64
    requires size { size ≡ size_in text.now }
    requires whole { padded version size ≤ length text.now }
    ensures { result ≡ moment_in version text.now }
{
    match version {
        Version::V2 => 0,
        Version::V3 => u64_at(20 + size, text),
    }
}

impl<'a> Frame<'a> {
    /// The fields of the item at the front; `None` where the text ends inside it.
    pub(crate) fn read(version: Version, text: &'a [u8]) -> Option<Frame<'a>>
        ensures { MatchOption result (IsTruncated version text.now) (IsFrame version text.now) }
    {
        if text.len() < 16 {
            return None;
        }
        let size = u32_at(12, text);
        let taken = padded_len(size, version);
        if (text.len() as u64) < taken {
            return None;
        }
        let size = size as usize;
        Some(Frame {
            cookie: u32_at(0, text),
            key: u64_at(4, text),
            counted: &text[16..][..size],
            checksum: u32_at(16 + size, text),
            moment: moment_of(version, text, size),
            taken,
        })
    }
}
