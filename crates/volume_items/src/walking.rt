ghost use Rattle.std.specs.Prelude.{◌≡◌, ◌+◌, ◌-◌, ◌≤◌, ◌<◌, ◌^◌, true, max, List, IfOk, IfErr, IfSome, IsErrOf, IsOk, OnOk, OnErr, length, take, ◌⊎◌};
ghost use Rattle.weed_base.specs.Told.{IsCauseOf};
ghost use Rattle.weed_base.specs.Files.{content};
ghost use Rattle.weed_base.specs.DiskCalls.{Looks};
ghost use Rattle.needle.specs.Fields.{AreBytes};
ghost use Rattle.needle.specs.declared.item.ReadItem.{ReadItem};
ghost use Rattle.needle_index.specs.Text.{entered, entry_at};
ghost use Rattle.volume_items.specs.Garbage.{Fit};
ghost use Rattle.volume_items.specs.Window.{IsOf};
ghost use Rattle.volume_items.specs.Walk.{IsWalked, WalksOn};

use crate::fault::VolumeFault;
use crate::look::{Seen, look};
use crate::window::Window;
use needle::Version;
use needle_index::{IndexEntry, IndexMap};
use std::alloc::{AllocError, Global};
use weed_base::{Disk, FileName};

/// What a walk over a file of items has found.
#[derive(Debug, Drop)]
pub struct Walked {
    pub index: IndexMap,
    /// The place behind the last item.
    pub end: u64,
    /// The greatest key of an item, 0 where there is none.
    pub greatest: u64,
}

impl Walked {
    /// Takes the item that stands at its end. Takes no memory where the index has room.
    pub fn enter(&mut self, seen: &Seen) -> Result<(), AllocError>
        requires within { self.old.end + seen.now.taken ≤ 2 ^ 35 - 8 }
        ensures index { OnOk result (self.new.index.spots ≡ entered self.old.index.spots (entry_at self.old.end seen.now.key seen.now.size)) }
        ensures end { OnOk result (self.new.end ≡ self.old.end + seen.now.taken) }
        ensures greatest { OnOk result (self.new.greatest ≡ max self.old.greatest seen.now.key) }
        ensures succeeds { 0 < self.old.index.spare → IsOk result }
        ensures spare { self.old.index.spare ≤ self.new.index.spare + 1 }
    {
        self.index
            .enter(&IndexEntry::at(self.end, seen.key, seen.size))?;
        self.end += seen.taken;
        self.greatest = self.greatest.max(seen.key);
        Ok(())
    }
}

/// Goes one item further, and answers whether there was one.
fn step<D: Disk>(
    disk: &mut D,
    name: &FileName,
    window: &mut Window,
    version: Version,
    len: u64,
    walked: &mut Walked,
) -> Result<bool, VolumeFault>
    requires of { IfSome (D.files disk.old) (λ files. IsOf (content files name.now) window.old) }
    requires len { IfSome (D.files disk.old) (λ files. len ≡ length (content files name.now)) }
    ensures of { IfOk result (λ _. IfSome (D.files disk.old) (λ files. IsOf (content files name.now) window.new)) }
    ensures goes { IfOk result (λ goes. IfSome (D.files disk.old) (λ files. WalksOn version (content files name.now) walked.old walked.new goes)) }
    ensures fit { IfOk result (λ _. Fit version walked.old.index.spots walked.old.end → Fit version walked.new.index.spots walked.new.end) }
    ensures on { IfOk result (λ goes. goes ≡ true → (walked.old.end < walked.new.end) × (walked.new.end ≤ 2 ^ 35 - 8)) }
    ensures fault { IfErr result (λ fault. (fault ≡ VolumeFault.DiskFault) ⊎ (fault ≡ VolumeFault.Memory)) }
    ensures looks { Looks D.Disk disk.old disk.new }
    ensures cause { IsCauseOf (D.faults disk.old) (D.faults disk.new) (IsErrOf result VolumeFault.DiskFault) }
    ensures beside { D.beside disk.new ≡ D.beside disk.old }
{
    match look(disk, name, window, version, walked.end, len)? {
        Some(seen) => {
            walked.enter(&seen)?;
            Ok(true)
        }
        None => Ok(false),
    }
}

/// Walks over the items of a file, behind its first 8 bytes.
pub fn walk<D: Disk>(
    alloc: Global,
    disk: &mut D,
    name: &FileName,
    version: Version,
    len: u64,
) -> Result<Walked, VolumeFault>
    requires len { IfSome (D.files disk.old) (λ files. len ≡ length (content files name.now)) }
    requires front { IfSome (D.files disk.old) (λ files. AreBytes (take 8 (content files name.now))) }
    ensures walked { IfOk result (λ walked. IfSome (D.files disk.old) (λ files. (items : List ReadItem) × IsWalked version (content files name.now) walked items)) }
    ensures fit { IfOk result (λ walked. Fit version walked.index.spots walked.end) }
    ensures fault { IfErr result (λ fault. (fault ≡ VolumeFault.DiskFault) ⊎ (fault ≡ VolumeFault.Memory)) }
    ensures looks { Looks D.Disk disk.old disk.new }
    ensures cause { IsCauseOf (D.faults disk.old) (D.faults disk.new) (IsErrOf result VolumeFault.DiskFault) }
    ensures beside { D.beside disk.new ≡ D.beside disk.old }
{
    let mut window = Window::new(alloc)?;
    let mut walked = Walked {
        index: IndexMap::new(alloc),
        end: 8,
        greatest: 0,
    };
    while step(disk, name, &mut window, version, len, &mut walked)? {}
    Ok(walked)
}
