ghost use Rattle.std.specs.Prelude.{◌≡◌, ◌+◌, ◌-◌, ◌≤◌, ◌<◌, ◌%◌, ◌^◌, ◌++◌, ◌⊎◌, true, [], IfOk, IfErr, IfSome, IsErrOf, OnOk, length};
ghost use Rattle.weed_base.specs.Told.{IsCauseOf};
ghost use Rattle.weed_base.specs.Files.{content};
ghost use Rattle.weed_base.specs.DiskCalls.{Looks};
ghost use Rattle.needle_index.specs.Index.{Spots};
ghost use Rattle.needle_index.specs.Text.{entered, entered_all, entry_text};
ghost use Rattle.volume_items.specs.Walk.{AreEntries, WritesOn};
ghost use Rattle.volume_items.specs.Window.{IsOf};

use crate::fault::VolumeFault;
use crate::look::look;
use crate::window::Window;
use needle::Version;
use needle_index::IndexEntry;
use std::alloc::{AllocError, Global};
use std::marker::Model;
use weed_base::{Disk, FileName};

/// The text of an index in the making.
#[derive(Debug, Drop)]
pub struct IndexText {
    bytes: Vec<u8>,
}

impl Model for IndexText {
    ghost use Rattle.std.specs.Prelude.{List, ℕ};
    ghost use Rattle.std.specs.Coded.{coded_list, coded_ℕ};

    ghost Value = { List ℕ };

    ghost coded = { coded_list coded_ℕ };

    ghost view = { λ text. text.bytes.items };
}

impl IndexText {
    /// Of no entry yet. Takes no memory.
    fn new(alloc: Global) -> IndexText
        ensures { result ≡ [] }
    {
        IndexText {
            bytes: Vec::new(alloc),
        }
    }

    /// Takes an entry.
    fn push(&mut self, entry: IndexEntry) -> Result<(), AllocError>
        ensures len { OnOk result (length self.new ≡ length self.old + 16) }
        ensures enters { OnOk result ((spots : Spots) → length self.old % 16 ≡ 0 → entered_all spots self.new ≡ entered (entered_all spots self.old) entry) }
    {
        self.bytes.extend_from_slice(&entry.write())
    }

    /// Its bytes. Takes no memory.
    pub fn as_slice(&self) -> &[u8]
        ensures { result.now ≡ self.now }
    {
        self.bytes.as_slice()
    }
}

/// Takes the entry of the item at a place, and goes behind it; answers whether there was one.
fn entry_step<D: Disk>(
    disk: &mut D,
    name: &FileName,
    window: &mut Window,
    version: Version,
    len: u64,
    place: &mut u64,
    text: &mut IndexText,
) -> Result<bool, VolumeFault>
    requires of { IfSome (D.files disk.old) (λ files. IsOf (content files name.now) window.old) }
    requires len { IfSome (D.files disk.old) (λ files. len ≡ length (content files name.now)) }
    ensures of { IfOk result (λ _. IfSome (D.files disk.old) (λ files. IsOf (content files name.now) window.new)) }
    ensures goes { IfOk result (λ goes. IfSome (D.files disk.old) (λ files. WritesOn version (content files name.now) place.old place.new text.old text.new goes)) }
    ensures on { IfOk result (λ goes. goes ≡ true → (place.old < place.new) × (place.new ≤ 2 ^ 35 - 8)) }
    ensures fault { IfErr result (λ fault. (fault ≡ VolumeFault.DiskFault) ⊎ (fault ≡ VolumeFault.Memory)) }
    ensures looks { Looks D.Disk disk.old disk.new }
    ensures cause { IsCauseOf (D.faults disk.old) (D.faults disk.new) (IsErrOf result VolumeFault.DiskFault) }
    ensures beside { D.beside disk.new ≡ D.beside disk.old }
{
    match look(disk, name, window, version, *place, len)? {
        Some(seen) => {
            text.push(IndexEntry::at(*place, seen.key, seen.size))?;
            *place += seen.taken;
            Ok(true)
        }
        None => Ok(false),
    }
}

/// The text of the index of a file of items, 16 bytes an item.
pub fn index_text<D: Disk>(
    alloc: Global,
    disk: &mut D,
    name: &FileName,
    version: Version,
    len: u64,
) -> Result<IndexText, VolumeFault>
    requires len { IfSome (D.files disk.old) (λ files. len ≡ length (content files name.now)) }
    ensures entries { IfOk result (λ text. IfSome (D.files disk.old) (λ files. AreEntries version (content files name.now) text)) }
    ensures fault { IfErr result (λ fault. (fault ≡ VolumeFault.DiskFault) ⊎ (fault ≡ VolumeFault.Memory)) }
    ensures looks { Looks D.Disk disk.old disk.new }
    ensures cause { IsCauseOf (D.faults disk.old) (D.faults disk.new) (IsErrOf result VolumeFault.DiskFault) }
    ensures beside { D.beside disk.new ≡ D.beside disk.old }
{
    let mut window = Window::new(alloc)?;
    let mut text = IndexText::new(alloc);
    let mut place = 8;
    while entry_step(disk, name, &mut window, version, len, &mut place, &mut text)? {}
    Ok(text)
}
