ghost use Rattle.std.specs.Prelude.{◌≡◌, ◌+◌, ◌-◌, ◌%◌, ◌++◌, length, replicate, IfOk, OnOk};
ghost use Rattle.needle.specs.Crc.{checksum};
ghost use Rattle.needle.specs.Framing.{head_text, tail_text, Frames};
ghost use Rattle.needle.specs.Item.{IsWithinLimits, content, item_text};
ghost use Rattle.needle.specs.declared.item.Item.TheVariants.{Gone, Live};

use crate::crc::crc32c;
use crate::head::Head;
use crate::item::Needle;
use crate::version::Version;
use crate::writing::{counted_len, flags_of, put_moment, put_parts, put_zeros};
use std::alloc::{AllocError, Global};
use weed_base::Bytes;

/// What stands around the data of a needle in its item, so that the data need not be copied.
#[derive(Debug, Drop)]
pub struct Framed {
    /// Ahead of the data.
    pub head: [u8; Head::LENGTH],
    /// Behind the data, up to the end of the item.
    pub tail: Bytes,
    /// How many bytes stand between the size and the checksum.
    pub size: u32,
    /// That of the data.
    pub checksum: u32,
}

/// The bytes of a head.
fn head_bytes(cookie: u32, key: u64, size: u32, len: u32) -> [u8; Head::LENGTH]
    ensures { result ≡ head_text cookie key size len }
{
    let mut bytes = [0; Head::LENGTH];
    bytes[..4].copy_from_slice(&cookie.to_be_bytes());
    bytes[4..12].copy_from_slice(&key.to_be_bytes());
    bytes[12..16].copy_from_slice(&size.to_be_bytes());
    bytes[16..].copy_from_slice(&len.to_be_bytes());
    bytes
}

/// Adds what stands behind the data, up to the padding.
fn put_tail(
    out: &mut Vec<u8>,
    needle: &Needle,
    sum: u32,
    version: Version,
    moment: u64,
) -> Result<(), AllocError>
    requires limits { IsWithinLimits needle.now }
    requires sum { sum ≡ checksum needle.now.body }
    ensures { OnOk result (out.new.items ≡ out.old.items ++ tail_text needle.now version moment) }
{
    out.push(flags_of(needle))?;
    put_parts(out, needle)?;
    out.extend_from_slice(&sum.to_be_bytes())?;
    put_moment(out, version, moment)
}

impl Needle {
    /// How many bytes stand between the size and the checksum of its item. Takes no memory.
    pub fn size(&self) -> u32
        requires { IsWithinLimits self.now }
        ensures { result ≡ length (content (Live self.now)) }
    {
        counted_len(self) as u32
    }

    /// The item of the needle around its data, padded with zeros; `moment`, in nanoseconds since 1970, stands in
    /// it from version 3 on.
    pub fn framed(&self, alloc: Global, version: Version, moment: u64) -> Result<Framed, AllocError>
        requires { IsWithinLimits self.now }
        ensures { IfOk result (Frames self.now version moment) }
    {
        let size = counted_len(self) as u32;
        let len = self.body.as_slice().len();
        let sum = crc32c(self.body.as_slice());
        let mut tail = Vec::new(alloc);
        put_tail(&mut tail, self, sum, version, moment)?;
        let taken = Head::LENGTH + len + tail.len();
        put_zeros(&mut tail, taken)?;
        Ok(Framed {
            head: head_bytes(self.cookie, self.key, size, len as u32),
            tail: Bytes::of(tail),
            size,
            checksum: sum,
        })
    }
}
