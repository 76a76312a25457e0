ghost use Rattle.std.specs.Prelude.{◌≡◌, Some, ◌*◌, ◌≤◌, ◌^◌, ◌<◌, ◌↔◌, List, IsTrue, IfOk, IfErr, IfSome, IsErrOf, ◌⊎◌, length, take, drop};
ghost use Rattle.std.specs.FinMap.{get};
ghost use Rattle.weed_base.specs.Told.{IsCauseOf};
ghost use Rattle.weed_base.specs.Files.{content};
ghost use Rattle.weed_base.specs.DiskCalls.{Looks};
ghost use Rattle.needle.specs.declared.item.ReadItem.{ReadItem};
ghost use Rattle.volume_items.specs.Contents.{contents_of};
ghost use Rattle.volume.specs.Holds.{Holds};
ghost use Rattle.volume.specs.Reads.{Gets, MayFailToRead, ReadAnswers, ReadsFiles, ReadsFrom, TellsOf, Yields, YieldsAt, damage_of};

use crate::held::Volume;
use needle::{Head, Item, Needle, NeedleFault, Version, padded_len};
use needle_index::Spot;
use std::alloc::Global;
use volume_items::{Part, VolumeFault, file_name, no_item};
use weed_base::{Disk, FileName};

/// The bytes of a file from a place on: as many as there are, and at most `len`.
fn bytes_from<D: Disk>(
    alloc: Global,
    disk: &mut D,
    name: &FileName,
    at: u64,
    len: usize,
) -> Result<Vec<u8>, VolumeFault>
    ensures bytes { IfOk result (λ bytes. IfSome (D.files disk.old) (λ files. bytes.items ≡ take len (drop at (content files name.now)))) }
    ensures fault { IfErr result (λ fault. (fault ≡ VolumeFault.DiskFault) ⊎ (fault ≡ VolumeFault.Memory)) }
    ensures looks { Looks D.Disk disk.old disk.new }
    ensures cause { IsCauseOf (D.faults disk.old) (D.faults disk.new) (IsErrOf result VolumeFault.DiskFault) }
    ensures beside { D.beside disk.new ≡ D.beside disk.old }
{
    let mut bytes = vec![in alloc; 0; len]?;
    let count = disk.read_at(name, at, &mut bytes)?;
    bytes.truncate(count);
    Ok(bytes)
}

/// Whether bytes, of which an item has more, tell of this key and size.
fn tells_of(text: &[u8], key: u64, size: u32) -> bool
    ensures { IsTrue result ↔ ((20 ≤ length text.now) × TellsOf key size text.now) }
{
    if text.len() < Head::LENGTH {
        return false;
    }
    let head = Head::read(text);
    head.key == key && head.size == size
}

/// What a needle's refusal says of its place.
fn damage(at: u64, fault: NeedleFault) -> VolumeFault
    ensures { result ≡ damage_of at fault }
{
    match fault {
        NeedleFault::ChecksumMismatch { stored, computed } => VolumeFault::Damaged {
            at,
            stored,
            computed,
        },
        NeedleFault::Memory => VolumeFault::Memory,
        _ => no_item(at),
    }
}

/// The needle of a key and a size that bytes at a place are.
fn needle_in(
    alloc: Global,
    text: &[u8],
    version: Version,
    key: u64,
    size: u32,
    at: u64,
) -> Result<Needle, VolumeFault>
    ensures yields { Yields version text.now key size at result }
    ensures small { IfOk result (λ needle. length needle.body < 2 ^ 32) }
{
    if !tells_of(text, key, size) {
        return Err(no_item(at));
    }
    match Needle::read(alloc, text, version) {
        Ok(read) => match read.item {
            Item::Live(needle) => Ok(needle),
            Item::Gone { .. } => Err(no_item(at)),
        },
        Err(fault) => Err(damage(at, fault)),
    }
}

impl Volume {
    /// The needle of a key at its spot, whatever its cookie.
    pub(crate) fn needle_at<D: Disk>(
        &self,
        alloc: Global,
        disk: &mut D,
        key: u64,
        spot: Spot,
    ) -> Result<Needle, VolumeFault>
        ensures yields { IfSome (D.files disk.old) (λ files. YieldsAt self.now key spot files result) }
        ensures gets { IfSome (D.files disk.old) (λ files. (items : List ReadItem) → get self.now.index.spots key ≡ Some spot
            → Holds self.now items files → Gets (get (contents_of items) key) result) }
        ensures fault { IfErr result MayFailToRead }
        ensures small { IfOk result (λ needle. length needle.body < 2 ^ 32) }
        ensures looks { Looks D.Disk disk.old disk.new }
        ensures cause { IsCauseOf (D.faults disk.old) (D.faults disk.new) (IsErrOf result VolumeFault.DiskFault) }
        ensures beside { D.beside disk.new ≡ D.beside disk.old }
    {
        let at = 8 * u64::from(spot.offset);
        let len = padded_len(spot.size, self.block.version) as usize;
        let text = bytes_from(alloc, disk, &file_name(self.id, Part::Items), at, len)?;
        needle_in(alloc, &text, self.block.version, key, spot.size, at)
    }

    /// The needle of a key. The refusals come in the order `Broken`, `NotHeld`, `DiskFault`, `Damaged`,
    /// `WrongCookie`; `Damaged` never where the disk holds the volume.
    pub fn read<D: Disk>(
        &mut self,
        alloc: Global,
        disk: &mut D,
        key: u64,
        cookie: u32,
    ) -> Result<Needle, VolumeFault>
        // Each answer comes in its case.
        ensures answer { ReadAnswers self.old key cookie result }
        // By the bytes of the file of items.
        ensures files { IfSome (D.files disk.old) (λ files. ReadsFiles self.old key files result) }
        // By the contents.
        ensures contents { IfSome (D.files disk.old) (λ files. (items : List ReadItem) → Holds self.old items files
            → ReadsFrom (get (contents_of items) key) cookie result) }
        ensures small { IfOk result (λ needle. length needle.body < 2 ^ 32) }
        ensures same { self.new ≡ self.old }
        ensures looks { Looks D.Disk disk.old disk.new }
        ensures cause { IsCauseOf (D.faults disk.old) (D.faults disk.new) (IsErrOf result VolumeFault.DiskFault) }
        ensures beside { D.beside disk.new ≡ D.beside disk.old }
    {
        if self.broken {
            return Err(VolumeFault::Broken);
        }
        let spot = match self.index.get(key) {
            Some(spot) => spot,
            None => return Err(VolumeFault::NotHeld),
        };
        let needle = self.needle_at(alloc, disk, key, spot)?;
        if needle.cookie != cookie {
            return Err(VolumeFault::WrongCookie {
                held: needle.cookie,
            });
        }
        Ok(needle)
    }
}
