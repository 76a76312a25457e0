ghost use Rattle.std.specs.Prelude.{◌≡◌, ◌≢◌, ◌⊎◌, ◌↔◌, IfOk, Ok, Err, option_copied};
ghost use Rattle.needle.specs.Answer.{BeginsWith, IsRefused};
ghost use Rattle.needle.specs.Reading.{check_marks, check_sum, contents_of, needle_from, contents_at, live_at, item_at, read_at, Gives};

use crate::crc::crc32c;
use crate::fault::NeedleFault;
use crate::frame::Frame;
use crate::item::{Item, Needle, ReadItem};
use crate::parts::{Parts, has};
use crate::version::Version;
use std::alloc::{AllocError, Global};
use weed_base::Bytes;

/// The flag of data that is compressed.
const COMPRESSED: u8 = 0x01;

/// The flag that has no meaning yet.
const RESERVED: u8 = 0x40;

/// The flag of data that lists the chunks of a file.
const MANIFEST: u8 = 0x80;

/// Refuses flags that tell of no part.
pub(crate) fn refuse_marks(flags: u8) -> Result<(), NeedleFault>
    ensures { result ≡ check_marks flags }
{
    if has(flags, RESERVED) {
        return Err(NeedleFault::ReservedSet);
    }
    if has(flags, COMPRESSED) {
        return Err(NeedleFault::Compressed);
    }
    if has(flags, MANIFEST) {
        return Err(NeedleFault::Manifest);
    }
    Ok(())
}

/// Refuses data of another checksum.
fn refuse_damage(stored: u32, body: &[u8]) -> Result<(), NeedleFault>
    ensures { result ≡ check_sum stored body.now }
{
    let computed = crc32c(body);
    if stored != computed {
        return Err(NeedleFault::ChecksumMismatch { stored, computed });
    }
    Ok(())
}

fn copied(alloc: Global, bytes: Option<&[u8]>) -> Result<Option<Bytes>, AllocError>
    ensures { IfOk result (λ made. made ≡ option_copied bytes.entry) }
{
    match bytes {
        Some(bytes) => Ok(Some(Bytes::new(alloc, bytes)?)),
        None => Ok(None),
    }
}

/// A needle with copies of the parts.
fn owned(alloc: Global, cookie: u32, key: u64, parts: &Parts<'_>) -> Result<Needle, AllocError>
    ensures { IfOk result (λ needle. needle ≡ needle_from cookie key (contents_of parts.now)) }
{
    Ok(Needle {
        cookie,
        key,
        body: Bytes::new(alloc, parts.body)?,
        name: copied(alloc, parts.name)?,
        mime: copied(alloc, parts.mime)?,
        modified: parts.modified,
        ttl: parts.ttl,
        pairs: copied(alloc, parts.pairs)?,
    })
}

/// The needle of the item, whose parts have to fill its size.
fn live(alloc: Global, frame: &Frame<'_>) -> Result<Item, NeedleFault>
    ensures { Gives result (live_at frame.now.cookie frame.now.key (contents_at frame.now.counted.now) frame.now.checksum) }
{
    let parts = Parts::read(frame.counted).ok_or(NeedleFault::SizeMismatch)?;
    refuse_marks(parts.flags)?;
    refuse_damage(frame.checksum, parts.body)?;
    Ok(Item::Live(owned(alloc, frame.cookie, frame.key, &parts)?))
}

/// The item: a deletion where its size is 0.
#[tactic(auto, unfolding(crate::specs::Reading::item_at))]
fn item_of(alloc: Global, frame: &Frame<'_>) -> Result<Item, NeedleFault>
    ensures { Gives result (item_at frame.now.cookie frame.now.key frame.now.counted.now frame.now.checksum) }
{
    if !frame.counted.is_empty() {
        return live(alloc, frame);
    }
    refuse_damage(frame.checksum, &[])?;
    Ok(Item::Gone {
        cookie: frame.cookie,
        key: frame.key,
    })
}

/// The item at the front of the text.
#[tactic(auto, unfolding(crate::specs::Reading::read_at))]
fn read_item(alloc: Global, text: &[u8], version: Version) -> Result<ReadItem, NeedleFault>
    ensures { Gives result (read_at version text.now) }
{
    let frame = Frame::read(version, text).ok_or(NeedleFault::Truncated)?;
    let item = item_of(alloc, &frame)?;
    Ok(ReadItem {
        item,
        taken: frame.taken,
        moment: frame.moment,
    })
}

impl Needle {
    /// The item at the front of the text, with copies of its parts. The refusals come in the order
    /// `Truncated`, `SizeMismatch`, `ReservedSet`, `Compressed`, `Manifest`, `ChecksumMismatch`, `Memory`.
    pub fn read(alloc: Global, text: &[u8], version: Version) -> Result<ReadItem, NeedleFault>
        // It answers what the definition reads.
        ensures gives { Gives result (read_at version text.now) }
        // What is read is spelled so, up to its padding.
        ensures found { IfOk result (λ read. BeginsWith version text.now read) }
        // What is spelled so is read, unless memory runs out.
        ensures only { (read : ReadItem) → BeginsWith version text.now read → (result ≡ Ok read) ⊎ (result ≡ Err NeedleFault.Memory) }
        // Each refusal comes exactly in its case.
        ensures refused { (fault : NeedleFault) → fault ≢ NeedleFault.Memory → ((result ≡ Err fault) ↔ IsRefused version text.now fault) }
    {
        read_item(alloc, text, version)
    }
}
