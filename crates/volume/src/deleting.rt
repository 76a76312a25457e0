ghost use Rattle.std.specs.Prelude.{◌≡◌, ◌+◌, ◌≤◌, ◌^◌, ◌⊎◌, false, IfErr, IfSome, IsErrOf, OnOk, length};
ghost use Rattle.weed_base.specs.Told.{IsCauseOf};
ghost use Rattle.weed_base.specs.Files.{BothTold};
ghost use Rattle.needle.specs.declared.item.Item.TheVariants.{Gone};
ghost use Rattle.volume.specs.Appending.{ChangesBehind, HoldsMore};
ghost use Rattle.volume.specs.Deletes.{DeleteAnswers, DeletesFrom, DeletionAnswers, OpenAnswers};
ghost use Rattle.volume.specs.Holds.{HoldsUnlessBroken};
ghost use Rattle.volume.specs.Writes.{IsOpen, Leaves, Stays};

use crate::appending::Pieces;
use crate::held::Volume;
use needle::DeletionText;
use needle_index::IndexEntry;
use std::alloc::Global;
use volume_items::VolumeFault;
use weed_base::Disk;

impl Volume {
    /// Appends the deletion of a key to an open volume.
    fn append_deletion<D: Disk>(
        &mut self,
        disk: &mut D,
        key: u64,
        cookie: u32,
        moment: u64,
    ) -> Result<(), VolumeFault>
        requires open { IsOpen self.old }
        requires held { IfSome (D.files disk.old) (HoldsUnlessBroken self.old) }
        ensures answer { DeletionAnswers self.old result }
        ensures holds { OnOk result (BothTold (HoldsMore self.old self.new (Gone cookie key) moment) (D.files disk.old) (D.files disk.new)) }
        ensures sound { OnOk result (self.new.broken ≡ false) }
        ensures stays { IfErr result (Stays self.old self.new (D.files disk.old) (D.files disk.new)) }
        ensures behind { BothTold (ChangesBehind self.old.id self.old.end self.old.index_end) (D.files disk.old) (D.files disk.new) }
        ensures cause { IsCauseOf (D.faults disk.old) (D.faults disk.new) (IsErrOf result VolumeFault.DiskFault) }
        ensures beside { D.beside disk.new ≡ D.beside disk.old }
    {
        let taken = self.room_for(0)?;
        self.index.reserve(1)?;
        let entry = IndexEntry::at(self.end, key, 0);
        let text = DeletionText::new(cookie, key, self.block.version, moment);
        let pieces = Pieces {
            head: text.as_slice(),
            body: &[],
            tail: &[],
        };
        self.append(disk, &pieces, &entry, taken)?;
        Ok(())
    }

    /// Deletes the needle of a key from an open volume.
    fn delete_held<D: Disk>(
        &mut self,
        alloc: Global,
        disk: &mut D,
        key: u64,
        cookie: u32,
        moment: u64,
    ) -> Result<u32, VolumeFault>
        requires open { IsOpen self.old }
        requires held { IfSome (D.files disk.old) (HoldsUnlessBroken self.old) }
        ensures answer { OpenAnswers self.old key cookie result }
        ensures from { IfSome (D.files disk.old) (DeletesFrom self.old key cookie result) }
        ensures holds { OnOk result (BothTold (HoldsMore self.old self.new (Gone cookie key) moment) (D.files disk.old) (D.files disk.new)) }
        ensures sound { OnOk result (self.new.broken ≡ false) }
        ensures stays { IfErr result (Stays self.old self.new (D.files disk.old) (D.files disk.new)) }
        ensures behind { BothTold (ChangesBehind self.old.id self.old.end self.old.index_end) (D.files disk.old) (D.files disk.new) }
        ensures cause { IsCauseOf (D.faults disk.old) (D.faults disk.new) (IsErrOf result VolumeFault.DiskFault) }
        ensures beside { D.beside disk.new ≡ D.beside disk.old }
    {
        let needle = self.read(alloc, disk, key, cookie)?;
        self.append_deletion(disk, key, cookie, moment)?;
        Ok(needle.body.as_slice().len() as u32)
    }

    /// Deletes the needle of a key: a deletion is written behind the last item, and settled. Answers the length of
    /// the needle's data in bytes. The refusals come in the order `Broken`, `ReadOnly`, `NotHeld`, `DiskFault`,
    /// `Damaged`, `WrongCookie`, `VolumeFull`; a `DiskFault` breaks the volume, and `Damaged` never comes where the
    /// disk holds it.
    pub fn delete<D: Disk>(
        &mut self,
        alloc: Global,
        disk: &mut D,
        key: u64,
        cookie: u32,
        moment: u64,
    ) -> Result<u32, VolumeFault>
        requires { IfSome (D.files disk.old) (HoldsUnlessBroken self.old) }
        // Each answer comes in its case.
        ensures answer { DeleteAnswers self.old key cookie result }
        // Also by the contents.
        ensures from { IfSome (D.files disk.old) (DeletesFrom self.old key cookie result) }
        // The files hold one item more.
        ensures holds { OnOk result (BothTold (HoldsMore self.old self.new (Gone cookie key) moment) (D.files disk.old) (D.files disk.new)) }
        ensures sound { OnOk result (self.new.broken ≡ false) }
        ensures leaves { IfErr result (Leaves self.old self.new (D.files disk.old) (D.files disk.new)) }
        ensures kept { IfSome (D.files disk.new) (HoldsUnlessBroken self.new) }
        ensures behind { BothTold (ChangesBehind self.old.id self.old.end self.old.index_end) (D.files disk.old) (D.files disk.new) }
        ensures cause { IsCauseOf (D.faults disk.old) (D.faults disk.new) (IsErrOf result VolumeFault.DiskFault) }
        ensures beside { D.beside disk.new ≡ D.beside disk.old }
    {
        self.refuse_closed()?;
        match self.delete_held(alloc, disk, key, cookie, moment) {
            Err(VolumeFault::DiskFault) => {
                self.broken = true;
                Err(VolumeFault::DiskFault)
            }
            answer => answer,
        }
    }
}
