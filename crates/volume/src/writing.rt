ghost use Rattle.std.specs.Prelude.{◌≡◌, ◌+◌, ◌<◌, ◌≤◌, ◌^◌, ◌⊎◌, List, false, true, IfErr, IfOk, IfSome, IsErrOf, MatchResult, OnOk, length};
ghost use Rattle.weed_base.specs.Told.{HasCause, IsCauseOf};
ghost use Rattle.weed_base.specs.Files.{BothTold};
ghost use Rattle.weed_base.specs.DiskCalls.{Looks};
ghost use Rattle.needle.specs.declared.item.Item.TheVariants.{Live};
ghost use Rattle.needle.specs.declared.item.ReadItem.{ReadItem};
ghost use Rattle.needle.specs.Layout.{padded};
ghost use Rattle.volume.specs.declared.held.Mode.TheVariants.{ReadWrite};
ghost use Rattle.volume.specs.Appending.{ChangesBehind, HoldsMore};
ghost use Rattle.volume_items.specs.Contents.{contents_of, last_end};
ghost use Rattle.volume.specs.Holds.{Holds, HoldsUnlessBroken};
ghost use Rattle.volume.specs.Writes.{AppendAnswers, HasSmallParts, IsClosed, IsFull, IsHeldOtherwise, IsMissized, IsOpen, IsSized, Leaves, MayReplace, OverContents, SizedAnswers, Stays, WriteAnswers, cookie_in};

use crate::appending::Pieces;
use crate::held::{Mode, Volume};
use needle::{Needle, padded_len};
use needle_index::IndexEntry;
use std::alloc::Global;
use volume_items::{LAST_END, MOST_DATA, Part, VolumeFault, file_name};
use weed_base::{Disk, Failed};

/// Where a needle was written.
#[derive(Clone, Copy, Debug, PartialEq, Eq)]
pub struct Written {
    /// The place of its item, in bytes.
    pub at: u64,
    /// How many bytes its size counts.
    pub size: u32,
    /// That of its data.
    pub checksum: u32,
}

/// Refuses data of a length that may not be.
fn refuse_size(needle: &Needle) -> Result<(), VolumeFault>
    ensures { MatchResult result (λ _. IsSized needle.now) (IsMissized needle.now) }
{
    let length = needle.body.as_slice().len() as u64;
    if length == 0 {
        return Err(VolumeFault::EmptyData);
    }
    if length > MOST_DATA {
        return Err(VolumeFault::TooLarge { length });
    }
    Ok(())
}

/// Refuses a cookie other than the one under which a key is held.
fn refuse_other(held: Option<u32>, cookie: u32) -> Result<(), VolumeFault>
    ensures { MatchResult result (λ _. MayReplace held cookie) (IsHeldOtherwise held cookie) }
{
    match held {
        Some(held) if held != cookie => Err(VolumeFault::WrongCookie { held }),
        _ => Ok(()),
    }
}

impl Volume {
    /// Refuses a volume that may not be written to.
    pub(crate) fn refuse_closed(&self) -> Result<(), VolumeFault>
        ensures { MatchResult result (λ _. IsOpen self.now) (IsClosed self.now) }
    {
        if self.broken {
            return Err(VolumeFault::Broken);
        }
        match self.mode {
            Mode::ReadOnly => Err(VolumeFault::ReadOnly),
            Mode::ReadWrite => Ok(()),
        }
    }

    /// How many bytes an item takes whose parts have `size`, where there is room for it.
    pub(crate) fn room_for(&self, size: u32) -> Result<u64, VolumeFault>
        ensures { MatchResult result (λ taken. (taken ≡ padded self.now.block.version size) × (self.now.end + taken ≤ last_end))
            (IsFull self.now.end (padded self.now.block.version size)) }
    {
        let taken = padded_len(size, self.block.version);
        if taken > LAST_END.saturating_sub(self.end) {
            return Err(VolumeFault::VolumeFull { end: self.end });
        }
        Ok(taken)
    }

    /// The cookie under which a key is held.
    fn held_cookie<D: Disk>(&self, disk: &mut D, key: u64) -> Result<Option<u32>, Failed>
        ensures held { IfOk result (λ held. IfSome (D.files disk.old) (λ files. (items : List ReadItem) → Holds self.now items files
            → held ≡ cookie_in (contents_of items) key)) }
        ensures looks { Looks D.Disk disk.old disk.new }
        ensures cause { HasCause (D.faults disk.old) (D.faults disk.new) result }
        ensures beside { D.beside disk.new ≡ D.beside disk.old }
    {
        let spot = match self.index.get(key) {
            Some(spot) => spot,
            None => return Ok(None),
        };
        let mut cookie = [0; 4];
        let at = 8 * u64::from(spot.offset);
        let _ = disk.read_at(&file_name(self.id, Part::Items), at, &mut cookie)?;
        Ok(Some(u32::from_be_bytes(cookie)))
    }

    /// Appends a needle whose data and cookie fit to an open volume.
    fn append_needle<D: Disk>(
        &mut self,
        alloc: Global,
        disk: &mut D,
        needle: &Needle,
        moment: u64,
    ) -> Result<Written, VolumeFault>
        requires parts { HasSmallParts needle.now }
        requires sized { IsSized needle.now }
        requires open { IsOpen self.old }
        requires held { IfSome (D.files disk.old) (HoldsUnlessBroken self.old) }
        ensures answer { AppendAnswers self.old needle.now result }
        ensures holds { OnOk result (BothTold (HoldsMore self.old self.new (Live needle.now) moment) (D.files disk.old) (D.files disk.new)) }
        ensures sound { OnOk result (self.new.broken ≡ false) }
        ensures stays { IfErr result (Stays self.old self.new (D.files disk.old) (D.files disk.new)) }
        ensures behind { BothTold (ChangesBehind self.old.id self.old.end self.old.index_end) (D.files disk.old) (D.files disk.new) }
        ensures cause { IsCauseOf (D.faults disk.old) (D.faults disk.new) (IsErrOf result VolumeFault.DiskFault) }
        ensures beside { D.beside disk.new ≡ D.beside disk.old }
    {
        let size = needle.size();
        let taken = self.room_for(size)?;
        let framed = needle.framed(alloc, self.block.version, moment)?;
        self.index.reserve(1)?;
        let entry = IndexEntry::at(self.end, needle.key, size);
        let written = Written {
            at: self.end,
            size,
            checksum: framed.checksum,
        };
        let pieces = Pieces {
            head: &framed.head,
            body: needle.body.as_slice(),
            tail: framed.tail.as_slice(),
        };
        self.append(disk, &pieces, &entry, taken)?;
        Ok(written)
    }

    /// Writes a needle whose data fits to an open volume.
    fn write_sized<D: Disk>(
        &mut self,
        alloc: Global,
        disk: &mut D,
        needle: &Needle,
        moment: u64,
    ) -> Result<Written, VolumeFault>
        requires parts { HasSmallParts needle.now }
        requires sized { IsSized needle.now }
        requires open { IsOpen self.old }
        requires held { IfSome (D.files disk.old) (HoldsUnlessBroken self.old) }
        ensures answer { SizedAnswers self.old needle.now result }
        ensures over { IfSome (D.files disk.old) (OverContents self.old needle.now result) }
        ensures holds { OnOk result (BothTold (HoldsMore self.old self.new (Live needle.now) moment) (D.files disk.old) (D.files disk.new)) }
        ensures sound { OnOk result (self.new.broken ≡ false) }
        ensures stays { IfErr result (Stays self.old self.new (D.files disk.old) (D.files disk.new)) }
        ensures behind { BothTold (ChangesBehind self.old.id self.old.end self.old.index_end) (D.files disk.old) (D.files disk.new) }
        ensures cause { IsCauseOf (D.faults disk.old) (D.faults disk.new) (IsErrOf result VolumeFault.DiskFault) }
        ensures beside { D.beside disk.new ≡ D.beside disk.old }
    {
        let held = self.held_cookie(disk, needle.key)?;
        refuse_other(held, needle.cookie)?;
        self.append_needle(alloc, disk, needle, moment)
    }

    /// Writes a needle behind the last item, and settles it. The refusals come in the order `Broken`, `ReadOnly`,
    /// `EmptyData`, `TooLarge`, `WrongCookie`, `VolumeFull`, `Memory`, `DiskFault`, of which the last breaks the volume.
    pub fn write<D: Disk>(
        &mut self,
        alloc: Global,
        disk: &mut D,
        needle: &Needle,
        moment: u64,
    ) -> Result<Written, VolumeFault>
        requires parts { HasSmallParts needle.now }
        requires held { IfSome (D.files disk.old) (HoldsUnlessBroken self.old) }
        // Each answer comes in its case.
        ensures answer { WriteAnswers self.old needle.now result }
        // Also by the contents.
        ensures over { IfSome (D.files disk.old) (OverContents self.old needle.now result) }
        // The files hold one item more.
        ensures holds { OnOk result (BothTold (HoldsMore self.old self.new (Live needle.now) moment) (D.files disk.old) (D.files disk.new)) }
        ensures sound { OnOk result (self.new.broken ≡ false) }
        ensures leaves { IfErr result (Leaves self.old self.new (D.files disk.old) (D.files disk.new)) }
        ensures kept { IfSome (D.files disk.new) (HoldsUnlessBroken self.new) }
        ensures behind { BothTold (ChangesBehind self.old.id self.old.end self.old.index_end) (D.files disk.old) (D.files disk.new) }
        ensures cause { IsCauseOf (D.faults disk.old) (D.faults disk.new) (IsErrOf result VolumeFault.DiskFault) }
        ensures beside { D.beside disk.new ≡ D.beside disk.old }
    {
        self.refuse_closed()?;
        refuse_size(needle)?;
        match self.write_sized(alloc, disk, needle, moment) {
            Err(VolumeFault::DiskFault) => {
                self.broken = true;
                Err(VolumeFault::DiskFault)
            }
            answer => answer,
        }
    }
}
