ghost use Rattle.std.specs.Prelude.{◌≡◌, ◌⊎◌, Err, IfOk, IfErr, IfSome, IsErrOf, List, length, take};
ghost use Rattle.weed_base.specs.Told.{IsCauseOf};
ghost use Rattle.weed_base.specs.Files.{content};
ghost use Rattle.weed_base.specs.DiskCalls.{Looks};
ghost use Rattle.needle.specs.declared.item.ReadItem.{ReadItem};
ghost use Rattle.needle.specs.Fields.{AreBytes};
ghost use Rattle.volume_items.specs.Garbage.{Fit};
ghost use Rattle.volume.specs.Opening.{BeginsWithBlock, IsBlockFault, IsRead, IsUnread};
ghost use Rattle.volume_items.specs.Walk.{IsWalked};

use crate::create::is_there;
use crate::held::{Mode, Volume};
use needle::{NeedleFault, SuperBlock, Version};
use std::alloc::Global;
use volume_items::{Part, VolumeFault, Walked, file_name, walk};
use weed_base::{Disk, FileName};

/// The superblock of a file of items.
fn read_block<D: Disk>(disk: &mut D, name: &FileName) -> Result<SuperBlock, VolumeFault>
    ensures block { IfOk result (λ block. IfSome (D.files disk.old) (λ files. BeginsWithBlock (content files name.now) block)) }
    ensures fault { IfErr result (λ fault. IfSome (D.files disk.old) (λ files. IsBlockFault (content files name.now) fault)) }
    ensures looks { Looks D.Disk disk.old disk.new }
    ensures cause { IsCauseOf (D.faults disk.old) (D.faults disk.new) (IsErrOf result VolumeFault.DiskFault) }
    ensures beside { D.beside disk.new ≡ D.beside disk.old }
{
    let mut front = [0; 8];
    let count = disk.read_at(name, 0, &mut front)?;
    if count < front.len() {
        return Err(VolumeFault::BadSuper(NeedleFault::Truncated));
    }
    match SuperBlock::read(&front) {
        Ok(block) => Ok(block),
        Err(fault) => Err(VolumeFault::BadSuper(fault)),
    }
}

/// Walks over the items of a file.
fn walk_file<D: Disk>(
    alloc: Global,
    disk: &mut D,
    name: &FileName,
    version: Version,
) -> Result<Walked, VolumeFault>
    requires front { IfSome (D.files disk.old) (λ files. AreBytes (take 8 (content files name.now))) }
    ensures walked { IfOk result (λ walked. IfSome (D.files disk.old) (λ files. (items : List ReadItem) × IsWalked version (content files name.now) walked items)) }
    ensures fit { IfOk result (λ walked. Fit version walked.index.spots walked.end) }
    ensures fault { IfErr result (λ fault. (fault ≡ VolumeFault.DiskFault) ⊎ (fault ≡ VolumeFault.Memory)) }
    ensures looks { Looks D.Disk disk.old disk.new }
    ensures cause { IsCauseOf (D.faults disk.old) (D.faults disk.new) (IsErrOf result VolumeFault.DiskFault) }
    ensures beside { D.beside disk.new ≡ D.beside disk.old }
{
    let len = disk.size(name)?.unwrap_or(0);
    walk(alloc, disk, name, version, len)
}

/// Reads what the files of a volume hold, and changes nothing.
pub(crate) fn stand_on<D: Disk>(alloc: Global, disk: &mut D, id: u32) -> Result<Volume, VolumeFault>
    ensures read { IfOk result (λ volume. IfSome (D.files disk.old) (IsRead id volume)) }
    ensures unread { IfErr result (λ fault. IfSome (D.files disk.old) (IsUnread id fault)) }
    ensures looks { Looks D.Disk disk.old disk.new }
    ensures cause { IsCauseOf (D.faults disk.old) (D.faults disk.new) (IsErrOf result VolumeFault.DiskFault) }
    ensures beside { D.beside disk.new ≡ D.beside disk.old }
{
    if !is_there(disk, id)? {
        return Err(VolumeFault::NotThere);
    }
    let name = file_name(id, Part::Items);
    let block = read_block(disk, &name)?;
    let walked = walk_file(alloc, disk, &name, block.version)?;
    Ok(Volume {
        id,
        block,
        mode: Mode::ReadOnly,
        end: walked.end,
        index_end: 0,
        greatest: walked.greatest,
        index: walked.index,
        broken: false,
    })
}
