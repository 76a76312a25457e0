ghost use Rattle.std.specs.Prelude.{◌≡◌, ◌+◌, ◌-◌, ◌≤◌, ◌<◌, ◌%◌, ◌⊎◌, IfOk, IfErr, IfSome, IsErrOf, length, take, drop, min};
ghost use Rattle.weed_base.specs.Told.{IsCauseOf};
ghost use Rattle.weed_base.specs.Files.{content};
ghost use Rattle.weed_base.specs.DiskCalls.{Looks};
ghost use Rattle.needle_index.specs.Text.{entered_all, spots_of};
ghost use Rattle.volume_items.specs.Window.{IsOf};
ghost use Rattle.volume_items.specs.Loading.{HasIndex, IsLoaded};

use crate::fault::VolumeFault;
use crate::window::{ROOM, Window};
use needle_index::{IndexEntry, IndexMap};
use std::alloc::Global;
use weed_base::{Disk, FileName};

/// Enters more of an index file of so many bytes, of which `left` are left, and answers how many are left then.
fn load_more<D: Disk>(
    disk: &mut D,
    name: &FileName,
    len: u64,
    left: u64,
    window: &mut Window,
    map: &mut IndexMap,
) -> Result<u64, VolumeFault>
    requires whole { len % 16 ≡ 0 }
    requires some { (0 < left) × (left ≤ len) }
    requires len { IfSome (D.files disk.old) (λ files. len ≡ length (content files name.now)) }
    requires of { IfSome (D.files disk.old) (λ files. IsOf (content files name.now) window.old) }
    ensures of { IfOk result (λ _. IfSome (D.files disk.old) (λ files. IsOf (content files name.now) window.new)) }
    ensures loaded { IfOk result (λ rest. IfSome (D.files disk.old) (λ files. IsLoaded (content files name.now) (len - left) map.old.spots
        → IsLoaded (content files name.now) (len - rest) map.new.spots)) }
    ensures fewer { IfOk result (λ rest. rest < left) }
    ensures fault { IfErr result (λ fault. (fault ≡ VolumeFault.DiskFault) ⊎ (fault ≡ VolumeFault.Memory)) }
    ensures looks { Looks D.Disk disk.old disk.new }
    ensures cause { IsCauseOf (D.faults disk.old) (D.faults disk.new) (IsErrOf result VolumeFault.DiskFault) }
    ensures beside { D.beside disk.new ≡ D.beside disk.old }
{
    let at = len - left;
    let wanted = left.min(ROOM as u64) as usize;
    window.fill(disk, name, at, wanted)?;
    let bytes = window.behind(at);
    if bytes.len() < wanted {
        return Ok(0);
    }
    map.enter_all(&bytes[..wanted])?;
    Ok(left - wanted as u64)
}

/// The map that an index file of so many bytes leaves.
fn load<D: Disk>(
    alloc: Global,
    disk: &mut D,
    name: &FileName,
    len: u64,
) -> Result<IndexMap, VolumeFault>
    requires whole { len % 16 ≡ 0 }
    requires len { IfSome (D.files disk.old) (λ files. len ≡ length (content files name.now)) }
    ensures loaded { IfOk result (λ map. IfSome (D.files disk.old) (λ files. map.spots ≡ spots_of (content files name.now))) }
    ensures fault { IfErr result (λ fault. (fault ≡ VolumeFault.DiskFault) ⊎ (fault ≡ VolumeFault.Memory)) }
    ensures looks { Looks D.Disk disk.old disk.new }
    ensures cause { IsCauseOf (D.faults disk.old) (D.faults disk.new) (IsErrOf result VolumeFault.DiskFault) }
    ensures beside { D.beside disk.new ≡ D.beside disk.old }
{
    let mut window = Window::new(alloc)?;
    let mut map = IndexMap::new(alloc);
    let mut left = len;
    while left > 0 {
        left = load_more(disk, name, len, left, &mut window, &mut map)?;
    }
    Ok(map)
}

/// The length of an index file that stands for this map; `None` where it doesn't, or isn't there.
pub fn matching_index<D: Disk>(
    alloc: Global,
    disk: &mut D,
    name: &FileName,
    index: &IndexMap,
) -> Result<Option<u64>, VolumeFault>
    ensures has { IfOk result (λ len. IfSome (D.files disk.old) (λ files. HasIndex index.now.spots name.now files len)) }
    ensures fault { IfErr result (λ fault. (fault ≡ VolumeFault.DiskFault) ⊎ (fault ≡ VolumeFault.Memory)) }
    ensures looks { Looks D.Disk disk.old disk.new }
    ensures cause { IsCauseOf (D.faults disk.old) (D.faults disk.new) (IsErrOf result VolumeFault.DiskFault) }
    ensures beside { D.beside disk.new ≡ D.beside disk.old }
{
    let len = match disk.size(name)? {
        Some(len) => len,
        None => return Ok(None),
    };
    if len % IndexEntry::LENGTH as u64 != 0 {
        return Ok(None);
    }
    let loaded = load(alloc, disk, name, len)?;
    Ok(loaded.is_same(index).then_some(len))
}
