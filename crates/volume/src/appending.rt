ghost use Rattle.std.specs.Prelude.{◌≡◌, ◌+◌, ◌<◌, ◌≤◌, ◌^◌, IfSome, OnErr, OnOk};
ghost use Rattle.weed_base.specs.Told.{HasCause};
ghost use Rattle.weed_base.specs.Files.{BothTold};
ghost use Rattle.needle.specs.Fields.{AreBytes};
ghost use Rattle.needle_index.specs.Text.{entry_text};
ghost use Rattle.volume_items.specs.Growing.{Appends, EndsAt, KeepsFront};
ghost use Rattle.volume.specs.Appending.{ChangesBehind, GrowBy, HasTakenIn};
ghost use Rattle.volume_items.specs.Garbage.{IsEntryOf};
ghost use Rattle.volume.specs.Pieces.{joined};
ghost use Rattle.volume_items.specs.Changes.{ChangesOnly};
ghost use Rattle.volume_items.specs.FileNames.{name_of};
ghost use Rattle.volume_items.specs.declared.file_names.Part.TheVariants.{Items, Index};

use crate::held::Volume;
use needle_index::IndexEntry;
use volume_items::{Part, append_piece, file_name};
use weed_base::{Disk, Failed, FileName};

/// What an item is made of, one behind another.
#[derive(Clone, Copy, Debug)]
pub(crate) struct Pieces<'a> {
    pub(crate) head: &'a [u8],
    pub(crate) body: &'a [u8],
    pub(crate) tail: &'a [u8],
}

/// Writes the pieces of an item behind a file's end.
fn append_item<D: Disk>(
    disk: &mut D,
    name: &FileName,
    at: u64,
    pieces: &Pieces<'_>,
) -> Result<(), Failed>
    requires ends { IfSome (D.files disk.old) (EndsAt name.now at) }
    requires within { at ≤ 2 ^ 35 }
    ensures done { OnOk result (BothTold (Appends name.now (joined pieces.now)) (D.files disk.old) (D.files disk.new)) }
    ensures front { BothTold (KeepsFront name.now at) (D.files disk.old) (D.files disk.new) }
    ensures others { BothTold (ChangesOnly name.now) (D.files disk.old) (D.files disk.new) }
    ensures bytes { OnOk result (AreBytes (joined pieces.now)) }
    ensures cause { HasCause (D.faults disk.old) (D.faults disk.new) result }
    ensures beside { D.beside disk.new ≡ D.beside disk.old }
{
    append_piece(disk, name, at, pieces.head)?;
    let behind = at + pieces.head.len() as u64;
    append_piece(disk, name, behind, pieces.body)?;
    let behind = behind + pieces.body.len() as u64;
    append_piece(disk, name, behind, pieces.tail)
}

impl Volume {
    /// Writes an item and its entry behind the last ones, and settles them.
    fn append_files<D: Disk>(
        &self,
        disk: &mut D,
        pieces: &Pieces<'_>,
        entry: &IndexEntry,
    ) -> Result<(), Failed>
        requires items { IfSome (D.files disk.old) (EndsAt (name_of self.now.id Items) self.now.end) }
        requires index { IfSome (D.files disk.old) (EndsAt (name_of self.now.id Index) self.now.index_end) }
        requires within { self.now.end ≤ 2 ^ 35 }
        ensures done { OnOk result (BothTold (GrowBy self.now.id (joined pieces.now) (entry_text entry.now)) (D.files disk.old) (D.files disk.new)) }
        ensures behind { BothTold (ChangesBehind self.now.id self.now.end self.now.index_end) (D.files disk.old) (D.files disk.new) }
        ensures fits { OnOk result (self.now.index_end + 16 < 2 ^ 63) }
        ensures bytes { OnOk result (AreBytes (joined pieces.now)) }
        ensures cause { HasCause (D.faults disk.old) (D.faults disk.new) result }
        ensures beside { D.beside disk.new ≡ D.beside disk.old }
    {
        append_item(disk, &file_name(self.id, Part::Items), self.end, pieces)?;
        append_piece(
            disk,
            &file_name(self.id, Part::Index),
            self.index_end,
            &entry.write(),
        )?;
        disk.sync()
    }

    /// Takes in an item that was appended.
    fn take_in(&mut self, entry: &IndexEntry, taken: u64)
        requires room { 0 < self.old.index.spare }
        requires end { self.old.end + taken < 2 ^ 64 }
        requires index_end { self.old.index_end + 16 < 2 ^ 64 }
        requires entry { IsEntryOf self.old.block.version self.old.end taken entry.now }
        ensures { HasTakenIn self.old self.new entry.now taken }
    {
        let _ = self.index.enter(entry);
        self.end += taken;
        self.index_end += IndexEntry::LENGTH as u64;
        self.greatest = self.greatest.max(entry.key);
    }

    /// Appends an item of so many bytes, for which the index has room, and its entry.
    pub(crate) fn append<D: Disk>(
        &mut self,
        disk: &mut D,
        pieces: &Pieces<'_>,
        entry: &IndexEntry,
        taken: u64,
    ) -> Result<(), Failed>
        requires items { IfSome (D.files disk.old) (EndsAt (name_of self.old.id Items) self.old.end) }
        requires index { IfSome (D.files disk.old) (EndsAt (name_of self.old.id Index) self.old.index_end) }
        requires room { 0 < self.old.index.spare }
        requires within { self.old.end + taken ≤ 2 ^ 35 }
        requires entry { IsEntryOf self.old.block.version self.old.end taken entry.now }
        ensures taken { OnOk result (HasTakenIn self.old self.new entry.now taken) }
        ensures done { OnOk result (BothTold (GrowBy self.old.id (joined pieces.now) (entry_text entry.now)) (D.files disk.old) (D.files disk.new)) }
        ensures behind { BothTold (ChangesBehind self.old.id self.old.end self.old.index_end) (D.files disk.old) (D.files disk.new) }
        ensures bytes { OnOk result (AreBytes (joined pieces.now)) }
        ensures same { OnErr result (self.new ≡ self.old) }
        ensures cause { HasCause (D.faults disk.old) (D.faults disk.new) result }
        ensures beside { D.beside disk.new ≡ D.beside disk.old }
    {
        self.append_files(disk, pieces, entry)?;
        self.take_in(entry, taken);
        Ok(())
    }
}
