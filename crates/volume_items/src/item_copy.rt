ghost use Rattle.std.specs.Prelude.{◌≡◌, ◌+◌, ◌-◌, ◌*◌, ◌≤◌, ◌<◌, ◌++◌, ◌^◌, List, [], false, IfOk, IfErr, IfSome, IsErrOf, OnOk, length, take, drop};
ghost use Rattle.weed_base.specs.Told.{HasCause, IsCauseOf};
ghost use Rattle.std.specs.Option.{option_map};
ghost use Rattle.weed_base.specs.Files.{BothTold, IsThere, content, renamed};
ghost use Rattle.needle.specs.declared.item.ReadItem.{ReadItem};
ghost use Rattle.needle.specs.declared.version.Version.{Version};
ghost use Rattle.volume_items.specs.Growing.{Appends, EndsAt};
ghost use Rattle.volume_items.specs.Copying.{IsLost};
ghost use Rattle.volume_items.specs.Changes.{ChangesOnly, LeavesOthers};
ghost use Rattle.volume_items.specs.FileNames.{name_of};
ghost use Rattle.volume_items.specs.Vacuuming.{CanCopy, HasCopied, HasCopy, IsDamageAt, LiesAt};
ghost use Rattle.volume_items.specs.Window.{IsOf};
ghost use Rattle.volume_items.specs.declared.file_names.Part.TheVariants.{Items, Copy};

use crate::copying::copy_bytes;
use crate::fault::{VolumeFault, no_item};
use crate::file_names::{Part, file_name};
use crate::files::make_with;
use crate::look::{LAST_END, Seen, head_at, judge, look};
use crate::window::Window;
use needle::{NeedleFault, SuperBlock, Version, padded_len};
use needle_index::IndexEntry;
use weed_base::{Disk, Failed, FileName};

/// What is told of an entry whose item doesn't lie whole at its place: the item's two checksums where they differ,
/// else 0 twice.
fn damage<D: Disk>(
    disk: &mut D,
    name: &FileName,
    window: &mut Window,
    version: Version,
    entry: &IndexEntry,
    len: u64,
) -> Result<VolumeFault, Failed>
    requires of { IfSome (D.files disk.old) (λ files. IsOf (content files name.now) window.old) }
    requires len { IfSome (D.files disk.old) (λ files. len ≡ length (content files name.now)) }
    ensures damaged { IfOk result (IsDamageAt (8 * entry.now.offset)) }
    ensures files { D.files disk.new ≡ D.files disk.old }
    ensures cause { HasCause (D.faults disk.old) (D.faults disk.new) result }
    ensures beside { D.beside disk.new ≡ D.beside disk.old }
{
    let at = 8 * u64::from(entry.offset);
    let head = match head_at(disk, name, window, at)? {
        Some(head) => head,
        None => return Ok(no_item(at)),
    };
    let taken = padded_len(head.size, version);
    if IndexEntry::at(at, head.key, head.size) != *entry
        || taken > len.min(LAST_END).saturating_sub(at)
    {
        return Ok(no_item(at));
    }
    match judge(disk, name, window, version, at, &head)? {
        Err(NeedleFault::ChecksumMismatch { stored, computed }) => Ok(VolumeFault::Damaged {
            at,
            stored,
            computed,
        }),
        _ => Ok(no_item(at)),
    }
}

/// The item of an entry, which lies in a file of so many bytes.
fn item_of<D: Disk>(
    disk: &mut D,
    name: &FileName,
    window: &mut Window,
    version: Version,
    entry: &IndexEntry,
    len: u64,
) -> Result<Seen, VolumeFault>
    requires of { IfSome (D.files disk.old) (λ files. IsOf (content files name.now) window.old) }
    requires len { IfSome (D.files disk.old) (λ files. len ≡ length (content files name.now)) }
    requires lies { IfSome (D.files disk.old) (λ files. (read : ReadItem) × LiesAt version (content files name.now) entry.now read) }
    ensures of { IfOk result (λ _. IfSome (D.files disk.old) (λ files. IsOf (content files name.now) window.new)) }
    ensures taken { IfOk result (λ seen. IfSome (D.files disk.old) (λ files. (read : ReadItem) → LiesAt version (content files name.now) entry.now read → seen.taken ≡ read.taken)) }
    ensures within { IfOk result (λ seen. (8 * entry.now.offset + seen.taken ≤ 2 ^ 35 - 8) × (24 ≤ seen.taken)) }
    ensures lost { IfErr result (IsLost (D.files disk.old)) }
    ensures files { D.files disk.new ≡ D.files disk.old }
    ensures cause { IsCauseOf (D.faults disk.old) (D.faults disk.new) (IsErrOf result VolumeFault.DiskFault) }
    ensures beside { D.beside disk.new ≡ D.beside disk.old }
{
    let at = 8 * u64::from(entry.offset);
    match look(disk, name, window, version, at, len)? {
        Some(seen) if IndexEntry::at(at, seen.key, seen.size) == *entry => Ok(seen),
        _ => Err(damage(disk, name, window, version, entry, len)?),
    }
}

/// Copies the item of an entry behind the copy's end, and answers how many bytes it took. Takes no memory.
fn copy_item<D: Disk>(
    disk: &mut D,
    id: u32,
    window: &mut Window,
    version: Version,
    entry: &IndexEntry,
    len: u64,
    end: u64,
) -> Result<u64, VolumeFault>
    requires of { IfSome (D.files disk.old) (λ files. IsOf (content files (name_of id Items)) window.old) }
    requires len { IfSome (D.files disk.old) (λ files. len ≡ length (content files (name_of id Items))) }
    requires lies { IfSome (D.files disk.old) (λ files. (read : ReadItem) × LiesAt version (content files (name_of id Items)) entry.now read) }
    requires ends { IfSome (D.files disk.old) (EndsAt (name_of id Copy) end) }
    requires within { end ≤ 2 ^ 35 }
    ensures copied { IfOk result (λ taken. BothTold (λ old new. (read : ReadItem) → LiesAt version (content old (name_of id Items)) entry.now read
        → (taken ≡ read.taken) × Appends (name_of id Copy) (take read.taken (drop (8 * entry.now.offset) (content old (name_of id Items)))) old new)
        (D.files disk.old) (D.files disk.new)) }
    ensures few { IfOk result (λ taken. taken ≤ 2 ^ 35) }
    ensures of { IfOk result (λ _. IfSome (D.files disk.new) (λ files. IsOf (content files (name_of id Items)) window.new)) }
    ensures len { IfOk result (λ _. IfSome (D.files disk.new) (λ files. len ≡ length (content files (name_of id Items)))) }
    ensures lost { IfErr result (IsLost (D.files disk.old)) }
    ensures others { BothTold (ChangesOnly (name_of id Copy)) (D.files disk.old) (D.files disk.new) }
    ensures cause { IsCauseOf (D.faults disk.old) (D.faults disk.new) (IsErrOf result VolumeFault.DiskFault) }
    ensures beside { D.beside disk.new ≡ D.beside disk.old }
{
    let from = file_name(id, Part::Items);
    let seen = item_of(disk, &from, window, version, entry, len)?;
    let at = 8 * u64::from(entry.offset);
    copy_bytes(
        disk,
        &from,
        &file_name(id, Part::Copy),
        window,
        at,
        end,
        seen.taken,
    )?;
    Ok(seen.taken)
}

/// Copies the items of entries, one behind another, behind the copy's end, and answers where it ends then. Takes no
/// memory.
pub fn copy_items<D: Disk>(
    disk: &mut D,
    id: u32,
    window: &mut Window,
    version: Version,
    entries: &[IndexEntry],
    len: u64,
    end: u64,
) -> Result<u64, VolumeFault>
    requires of { IfSome (D.files disk.old) (λ files. IsOf (content files (name_of id Items)) window.old) }
    requires len { IfSome (D.files disk.old) (λ files. len ≡ length (content files (name_of id Items))) }
    requires can { IfSome (D.files disk.old) (CanCopy id version end entries.now) }
    ensures copied { IfOk result (λ now. BothTold (HasCopied id version end entries.now now) (D.files disk.old) (D.files disk.new)) }
    ensures lost { IfErr result (IsLost (D.files disk.old)) }
    ensures others { BothTold (ChangesOnly (name_of id Copy)) (D.files disk.old) (D.files disk.new) }
    ensures cause { IsCauseOf (D.faults disk.old) (D.faults disk.new) (IsErrOf result VolumeFault.DiskFault) }
    ensures beside { D.beside disk.new ≡ D.beside disk.old }
{
    let mut left = entries;
    let mut reached = end;
    while let Some((entry, rest)) = left.split_first() {
        if reached > LAST_END {
            return Err(no_item(reached));
        }
        reached += copy_item(disk, id, window, version, entry, len, reached)?;
        left = rest;
    }
    Ok(reached)
}

/// Makes the file of a copy anew: a superblock, and no item yet. Takes no memory.
pub fn make_copy<D: Disk>(disk: &mut D, id: u32, block: SuperBlock) -> Result<(), Failed>
    requires { D.MARKS_ONLY ≡ false }
    ensures made { OnOk result (IfSome (D.files disk.new) (HasCopy id block 8 [])) }
    ensures others { BothTold (ChangesOnly (name_of id Copy)) (D.files disk.old) (D.files disk.new) }
    ensures cause { HasCause (D.faults disk.old) (D.faults disk.new) result }
    ensures beside { D.beside disk.new ≡ D.beside disk.old }
{
    make_with(disk, &file_name(id, Part::Copy), &block.write())
}

/// Puts the copy in the place of the items, and settles before and after. Takes no memory.
pub fn place_copy<D: Disk>(disk: &mut D, id: u32) -> Result<(), Failed>
    requires marks { D.MARKS_ONLY ≡ false }
    requires there { IfSome (D.files disk.old) (IsThere (name_of id Copy)) }
    ensures placed { OnOk result (D.files disk.new ≡ option_map (renamed (name_of id Copy) (name_of id Items)) (D.files disk.old)) }
    ensures others { BothTold (LeavesOthers id) (D.files disk.old) (D.files disk.new) }
    ensures cause { HasCause (D.faults disk.old) (D.faults disk.new) result }
    ensures beside { D.beside disk.new ≡ D.beside disk.old }
{
    let copy = file_name(id, Part::Copy);
    let items = file_name(id, Part::Items);
    disk.sync()?;
    disk.rename(&copy, &items)?;
    disk.sync()
}
