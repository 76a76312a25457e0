ghost use Rattle.std.specs.Prelude.{◌≡◌, ◌≤◌, ◌⊎◌, false, true, List, ℕ, ◌↔◌, nat_lt, IsTrue, is_some, IfOk, IfErr, IfSome, IsErrOf, OnOk, length};
ghost use Rattle.std.specs.Option.{option_map};
ghost use Rattle.weed_base.specs.Told.{HasCause, IsCauseOf};
ghost use Rattle.weed_base.specs.Files.{BothTold, content, MayBeNamed, IsThere};
ghost use Rattle.weed_base.specs.DiskCalls.{Looks};
ghost use Rattle.needle.specs.declared.item.ReadItem.{ReadItem};
ghost use Rattle.volume.specs.Holds.{Holds};
ghost use Rattle.volume_items.specs.declared.file_names.Part.TheVariants.{Items, Index};
ghost use Rattle.volume_items.specs.FileNames.{name_of};
ghost use Rattle.volume_items.specs.Changes.{ChangesOnly, LeavesOthers};
ghost use Rattle.volume.specs.Opening.{IsPlanned, mended, reindexed, trimmed};
ghost use Rattle.volume_items.specs.Loading.{StandsFor};

use crate::held::Volume;
use std::alloc::Global;
use volume_items::{
    IndexText, Part, VolumeFault, file_name, index_text, make_with, matching_index,
};
use weed_base::{Disk, Failed, FileName};

/// What is to be done with an index file.
#[derive(Debug, Drop)]
pub(crate) struct IndexPlan {
    /// Its length in bytes, as it is to be.
    pub(crate) len: u64,
    /// What is written, unless it stands for the map already.
    pub(crate) text: Option<IndexText>,
}

/// What is to be done with the index file of a volume that was read. It takes all memory that this needs.
pub(crate) fn plan_index<D: Disk>(
    alloc: Global,
    disk: &mut D,
    volume: &Volume,
) -> Result<IndexPlan, VolumeFault>
    requires held { IfSome (D.files disk.old) (λ files. (items : List ReadItem) × Holds volume.now items files) }
    ensures planned { IfOk result (λ plan. IfSome (D.files disk.old) (IsPlanned volume.now.index.spots (name_of volume.now.id Index) plan)) }
    ensures fault { IfErr result (λ fault. (fault ≡ VolumeFault.DiskFault) ⊎ (fault ≡ VolumeFault.Memory)) }
    ensures looks { Looks D.Disk disk.old disk.new }
    ensures cause { IsCauseOf (D.faults disk.old) (D.faults disk.new) (IsErrOf result VolumeFault.DiskFault) }
    ensures beside { D.beside disk.new ≡ D.beside disk.old }
{
    let name = file_name(volume.id, Part::Index);
    if let Some(len) = matching_index(alloc, disk, &name, &volume.index)? {
        return Ok(IndexPlan { len, text: None });
    }
    let text = entries_of(alloc, disk, volume)?;
    Ok(IndexPlan {
        len: text.as_slice().len() as u64,
        text: Some(text),
    })
}

/// The text of a volume's index, from its items.
fn entries_of<D: Disk>(
    alloc: Global,
    disk: &mut D,
    volume: &Volume,
) -> Result<IndexText, VolumeFault>
    requires held { IfSome (D.files disk.old) (λ files. (items : List ReadItem) × Holds volume.now items files) }
    ensures stands { IfOk result (λ text. IfSome (D.files disk.old) (λ _. StandsFor volume.now.index.spots text)) }
    ensures fault { IfErr result (λ fault. (fault ≡ VolumeFault.DiskFault) ⊎ (fault ≡ VolumeFault.Memory)) }
    ensures looks { Looks D.Disk disk.old disk.new }
    ensures cause { IsCauseOf (D.faults disk.old) (D.faults disk.new) (IsErrOf result VolumeFault.DiskFault) }
    ensures beside { D.beside disk.new ≡ D.beside disk.old }
{
    let name = file_name(volume.id, Part::Items);
    let len = disk.size(&name)?.unwrap_or(0);
    index_text(alloc, disk, &name, volume.block.version, len)
}

/// Cuts what stands behind the items of a file, and answers whether something did.
fn trim<D: Disk>(disk: &mut D, name: &FileName, end: u64) -> Result<bool, Failed>
    requires there { IfSome (D.files disk.old) (IsThere name.now) }
    ensures trimmed { OnOk result (D.files disk.new ≡ option_map (trimmed name.now end) (D.files disk.old)) }
    ensures was { IfOk result (λ was. IfSome (D.files disk.old) (λ files. was ≡ nat_lt end (length (content files name.now)))) }
    ensures others { BothTold (ChangesOnly name.now) (D.files disk.old) (D.files disk.new) }
    ensures cause { HasCause (D.faults disk.old) (D.faults disk.new) result }
    ensures beside { D.beside disk.new ≡ D.beside disk.old }
{
    let len = disk.size(name)?.unwrap_or(0);
    if len <= end {
        return Ok(false);
    }
    disk.cut(name, end)?;
    Ok(true)
}

/// Writes an index anew, where that is planned.
fn reindex<D: Disk>(disk: &mut D, name: &FileName, text: &Option<IndexText>) -> Result<(), Failed>
    requires { MayBeNamed D.MARKS_ONLY name.now }
    ensures files { OnOk result (D.files disk.new ≡ option_map (reindexed name.now text.now) (D.files disk.old)) }
    ensures others { BothTold (ChangesOnly name.now) (D.files disk.old) (D.files disk.new) }
    ensures cause { HasCause (D.faults disk.old) (D.faults disk.new) result }
    ensures beside { D.beside disk.new ≡ D.beside disk.old }
{
    match text {
        Some(text) => make_with(disk, name, text.as_slice()),
        None => Ok(()),
    }
}

/// Cuts what stands behind a volume's items and writes its index anew where that is planned; answers whether
/// something was cut.
fn change<D: Disk>(
    disk: &mut D,
    id: u32,
    end: u64,
    text: &Option<IndexText>,
) -> Result<bool, Failed>
    requires marks { D.MARKS_ONLY ≡ false }
    requires there { IfSome (D.files disk.old) (IsThere (name_of id Items)) }
    ensures mended { OnOk result (D.files disk.new ≡ option_map (mended id end text.now) (D.files disk.old)) }
    ensures was { IfOk result (λ was. IfSome (D.files disk.old) (λ files. was ≡ nat_lt end (length (content files (name_of id Items))))) }
    ensures others { BothTold (LeavesOthers id) (D.files disk.old) (D.files disk.new) }
    ensures cause { HasCause (D.faults disk.old) (D.faults disk.new) result }
    ensures beside { D.beside disk.new ≡ D.beside disk.old }
{
    let was_cut = trim(disk, &file_name(id, Part::Items), end)?;
    reindex(disk, &file_name(id, Part::Index), text)?;
    Ok(was_cut)
}

/// Settles the disk where something was changed.
fn settle<D: Disk>(disk: &mut D, changed: bool) -> Result<(), Failed>
    ensures files { D.files disk.new ≡ D.files disk.old }
    ensures cause { HasCause (D.faults disk.old) (D.faults disk.new) result }
    ensures beside { D.beside disk.new ≡ D.beside disk.old }
{
    if changed { disk.sync() } else { Ok(()) }
}

/// Cuts what stands behind a volume's items and writes its index anew where that is planned, and settles both;
/// answers whether something was cut. Takes no memory.
pub(crate) fn mend<D: Disk>(
    disk: &mut D,
    id: u32,
    end: u64,
    plan: &IndexPlan,
) -> Result<bool, Failed>
    requires marks { D.MARKS_ONLY ≡ false }
    requires there { IfSome (D.files disk.old) (IsThere (name_of id Items)) }
    ensures mended { OnOk result (D.files disk.new ≡ option_map (mended id end plan.now.text) (D.files disk.old)) }
    ensures was { IfOk result (λ was. IfSome (D.files disk.old) (λ files. was ≡ nat_lt end (length (content files (name_of id Items))))) }
    ensures others { BothTold (LeavesOthers id) (D.files disk.old) (D.files disk.new) }
    ensures cause { HasCause (D.faults disk.old) (D.faults disk.new) result }
    ensures beside { D.beside disk.new ≡ D.beside disk.old }
{
    let was_cut = change(disk, id, end, &plan.text)?;
    settle(disk, was_cut || plan.text.is_some())?;
    Ok(was_cut)
}
