ghost use Rattle.std.specs.Prelude.{◌≡◌, ◌↔◌, ◌⊎◌, IsTrue, IsOk, IsErrOf, IfOk, IfErr, IfSome, OnOk, Err, false, []};
ghost use Rattle.std.specs.Option.{option_map};
ghost use Rattle.weed_base.specs.Told.{HasCause, IsCauseOf};
ghost use Rattle.weed_base.specs.Files.{BothTold, made};
ghost use Rattle.weed_base.specs.DiskCalls.{Looks};
ghost use Rattle.volume.specs.Holds.{Holds};
ghost use Rattle.volume_items.specs.Changes.{LeavesOthers};
ghost use Rattle.volume.specs.Making.{IsNew, IsVolumeThere, created};

use crate::held::{Mode, Volume};
use needle::{Placement, SuperBlock, Version};
use needle_index::IndexMap;
use std::alloc::Global;
use volume_items::{Part, VolumeFault, file_name, make_settled, make_with, remove_settled};
use weed_base::{Disk, Failed};

/// Whether the volume is there.
pub(crate) fn is_there<D: Disk>(disk: &mut D, id: u32) -> Result<bool, Failed>
    ensures there { IfOk result (λ is. IfSome (D.files disk.old) (λ told. IsTrue is ↔ IsVolumeThere id told)) }
    ensures looks { Looks D.Disk disk.old disk.new }
    ensures cause { HasCause (D.faults disk.old) (D.faults disk.new) result }
    ensures beside { D.beside disk.new ≡ D.beside disk.old }
{
    let items = disk.size(&file_name(id, Part::Items))?;
    let sign = disk.size(&file_name(id, Part::Sign))?;
    Ok(items.is_some() && sign.is_some())
}

/// Makes the files of a new volume, whose items begin with this text; its sign comes last.
fn make_files<D: Disk>(disk: &mut D, id: u32, text: &[u8]) -> Result<(), Failed>
    requires { D.MARKS_ONLY ≡ false }
    ensures files { OnOk result (D.files disk.new ≡ option_map (created id text.now) (D.files disk.old)) }
    ensures others { BothTold (LeavesOthers id) (D.files disk.old) (D.files disk.new) }
    ensures cause { HasCause (D.faults disk.old) (D.faults disk.new) result }
    ensures beside { D.beside disk.new ≡ D.beside disk.old }
{
    let sign = file_name(id, Part::Sign);
    remove_settled(disk, &sign)?;
    make_with(disk, &file_name(id, Part::Items), text)?;
    make_settled(disk, &file_name(id, Part::Index))?;
    make_settled(disk, &sign)
}

impl Volume {
    /// Makes an empty volume of version 3 and revision 0. After a `DiskFault` its files may be there in part, and it
    /// isn't there, or it is there and empty. Takes no memory.
    pub fn create<D: Disk>(
        alloc: Global,
        disk: &mut D,
        id: u32,
        placement: Placement,
        ttl: [u8; 2],
    ) -> Result<Volume, VolumeFault>
        requires { D.MARKS_ONLY ≡ false }
        ensures made { IfOk result (IsNew id placement ttl) }
        ensures held { IfOk result (λ volume. IfSome (D.files disk.new) (Holds volume [])) }
        ensures there { result ≡ Err VolumeFault.AlreadyThere → IfSome (D.files disk.old) (IsVolumeThere id) }
        ensures free { IsOk result → IfSome (D.files disk.old) (λ told. ¬ IsVolumeThere id told) }
        ensures refusals { IfErr result (λ fault. (fault ≡ VolumeFault.AlreadyThere) ⊎ (fault ≡ VolumeFault.DiskFault)) }
        ensures same { result ≡ Err VolumeFault.AlreadyThere → D.files disk.new ≡ D.files disk.old }
        ensures others { BothTold (LeavesOthers id) (D.files disk.old) (D.files disk.new) }
        ensures cause { IsCauseOf (D.faults disk.old) (D.faults disk.new) (IsErrOf result VolumeFault.DiskFault) }
        ensures beside { D.beside disk.new ≡ D.beside disk.old }
    {
        if is_there(disk, id)? {
            return Err(VolumeFault::AlreadyThere);
        }
        let block = SuperBlock {
            version: Version::V3,
            placement,
            ttl,
            revision: 0,
        };
        make_files(disk, id, &block.write())?;
        Ok(Volume {
            id,
            block,
            mode: Mode::ReadWrite,
            end: 8,
            index_end: 0,
            greatest: 0,
            index: IndexMap::new(alloc),
            broken: false,
        })
    }
}
