ghost use Rattle.std.specs.Prelude.{◌≡◌, ◌≤◌, ◌<◌, ◌+◌, ◌-◌, ◌^◌, ◌↔◌, [], Some, IfOk, OnOk, IsErr, IsErrOf, MatchResult, IsTrue, false, length, refl, ⊤};
ghost use Rattle.std.specs.Option.{option_map, option_copied};
ghost use Rattle.std.specs.FinMap.{get, keys};
ghost use Rattle.std.proofs.lemmas.Bool.{false≢true};
ghost use Rattle.weed_base.specs.Told.{HasCause, IsCauseOf};
ghost use Rattle.weed_base.specs.Calls.{called, fails_next};
ghost use Rattle.weed_base.specs.Files.{IsWithin, IsThere, written, cut_to, made, removed, renamed, content, MayWrite, Changes, ReadsAt};
ghost use Rattle.weed_base.specs.Images.{NoMore, Only, Follows, Tears, Atomically, where_there, Elapses};
ghost use Rattle.weed_base.specs.History.{picked, earlier};
ghost use Rattle.weed_base.specs.MemForms.{IsDiskCall, Makes, WritesOrTears, disk_of, present, images, images_since};
ghost use Rattle.weed_base.specs.NamedBytes.{files_from};
ghost use Rattle.weed_base.specs.DiskLaws.{counts_now, only_now, reads_now};

use crate::bytes::Word;
use crate::disk::{Disk, NamesFault};
use crate::disk_host::WholeDisk;
use crate::faults::Faults;
use crate::file_name::FileName;
use crate::items::Items;
use crate::mem::calls::Calls;
use crate::mem::change::{Call, Change, Pick};
use crate::mem::keep::{keep, keep_torn, keep_written};
use crate::mem::replay::{earlier_calls, settled_count};
use crate::mem::room::fill_front;
use crate::mem::table::{FileTable, NamedBytes};
use crate::source::Failed;
use std::alloc::{AllocError, Global};
use std::marker::Model;

/// A disk in memory. It keeps each call that changed or settled its files, and so can tell what a crash at
/// any of its ticks may have left. A call that fails changes nothing that reads.
#[derive(Debug, Drop)]
pub struct MemDisk {
    alloc: Global,
    start: Vec<NamedBytes>,
    table: FileTable,
    past: Vec<Call>,
    calls: Calls,
    untold: Faults,
}

impl Model for MemDisk {
    ghost use Rattle.std.specs.Prelude.{◌≡◌, reverse};
    ghost use Rattle.weed_base.specs.MemForms.{DiskState, disk_code};
    ghost use Rattle.weed_base.specs.History.{reads, IsEarlier};
    ghost use Rattle.weed_base.specs.NamedBytes.{files_from};

    ghost Value = { DiskState };

    ghost coded = { disk_code };

    ghost view = { λ disk. record { start = files_from disk.start.items; past = reverse disk.past.items; calls = disk.calls; untold = disk.untold } };

    ghost invariant = { λ disk. (disk.table ≡ reads (files_from disk.start.items) (reverse disk.past.items)) × IsEarlier disk.calls.made (reverse disk.past.items) };
}

impl MemDisk {
    /// A disk of these files. Of two with one name the first counts. The calls with these numbers fail.
    pub fn new(
        alloc: Global,
        files: Vec<NamedBytes>,
        failing: Vec<u64>,
    ) -> Result<MemDisk, AllocError>
        ensures { IfOk result (λ disk. disk ≡ disk_of (files_from files.items) failing.items) }
    {
        Ok(MemDisk {
            alloc,
            table: FileTable::of(alloc, &files)?,
            start: files,
            past: Vec::new(alloc),
            calls: Calls::new(failing),
            untold: Faults::new(),
        })
    }

    /// How many calls failed.
    pub fn faults(&self) -> u64
        ensures { result ≡ self.now.calls.faults }
    {
        self.calls.faults()
    }

    /// How many failed writes it lacked memory to keep, so that no image has them.
    pub fn untold(&self) -> u64
        ensures { result ≡ self.now.untold }
    {
        self.untold.count()
    }

    /// The bytes of a file. It is no call of the disk.
    pub fn content(&self, name: &FileName) -> Option<&[u8]>
        ensures { option_copied result ≡ get (present self.now) name.now }
    {
        Some(self.table.get(name)?.as_slice())
    }

    /// Makes each later call fail before which the tick is at least this number, in place of a number that
    /// was set before. Takes no memory.
    pub fn fail_from(&mut self, tick: u64)
        ensures { self.new ≡ record self.old { calls = record self.old.calls { from = tick } } }
    {
        self.calls.fail_from(tick);
    }

    /// The image of this kind that a crash at a tick would have left, as a disk whose files are settled and
    /// whose calls don't fail.
    pub fn image(&self, tick: u64, pick: Pick) -> Result<MemDisk, AllocError>
        requires { tick ≤ self.now.calls.made }
        ensures image { IfOk result (λ disk. disk ≡ disk_of (picked pick self.now.start (earlier tick self.now.past)) []) }
        ensures since { IfOk result (λ disk. images_since self.now tick (present disk)) }
        ensures reads { pick ≡ Pick.New → tick ≡ self.now.calls.made → IfOk result (λ disk. present disk ≡ present self.now) }
    {
        let table = self.image_table(tick, pick)?;
        MemDisk::new(self.alloc, table.entries()?, Vec::new(self.alloc))
    }

    /// The files of that image. The calls that a sync has settled are made once more as they were.
    fn image_table(&self, tick: u64, pick: Pick) -> Result<FileTable, AllocError>
        ensures { IfOk result (λ table. table ≡ picked pick self.now.start (earlier tick self.now.past)) }
    {
        let past = earlier_calls(&self.past, tick);
        let count = settled_count(past);
        let mut table = FileTable::of(self.alloc, &self.start)?;
        table.replay(Pick::New, &past[..count])?;
        table.replay(pick, &past[count..])?;
        Ok(table)
    }

    /// A call that changes nothing.
    fn look(&mut self) -> Result<(), Failed>
        ensures after { self.new ≡ record self.old { calls = called self.old.calls } }
        ensures fails { IsErr result ↔ IsTrue (fails_next self.old.calls) }
        ensures time { Elapses self.old.calls.made self.new.calls.made (images_since self.old) (images_since self.new) (images self.new) }
        ensures cause { HasCause self.old.calls.faults self.new.calls.faults result }
        ensures spent { self.old.calls.made ≡ 2 ^ 64 - 1 → IsErr result }
    {
        self.calls.begin()
    }

    /// A call that makes a change, or none where it fails.
    fn change(&mut self, change: Change) -> Result<(), Failed>
        ensures call { IsDiskCall self.old self.new result }
        ensures makes { Makes change self.old self.new result }
        ensures time { Elapses self.old.calls.made self.new.calls.made (images_since self.old) (images_since self.new) (images self.new) }
        ensures cause { HasCause self.old.calls.faults self.new.calls.faults result }
        ensures spent { self.old.calls.made ≡ 2 ^ 64 - 1 → IsErr result }
    {
        let tick = self.calls.made();
        self.calls.begin()?;
        let call = Call { tick, change };
        if keep(&mut self.table, &mut self.past, call).is_err() {
            return Err(self.calls.fail());
        }
        Ok(())
    }

    /// A call that writes, or leaves its range unsettled where it fails.
    fn write(&mut self, name: &FileName, at: u64, piece: &[u8]) -> Result<(), Failed>
        ensures call { IsDiskCall self.old self.new result }
        ensures writes { WritesOrTears name.now at piece.now self.old self.new result }
        ensures bound { OnOk result (at + length piece.now < 2 ^ 63) }
        ensures time { Elapses self.old.calls.made self.new.calls.made (images_since self.old) (images_since self.new) (images self.new) }
        ensures cause { HasCause self.old.calls.faults self.new.calls.faults result }
        ensures spent { self.old.calls.made ≡ 2 ^ 64 - 1 → IsErr result }
    {
        let tick = self.calls.made();
        if self.calls.begin().is_err() {
            keep_torn(&mut self.past, &mut self.untold, tick, name, at, piece);
            return Err(Failed);
        }
        if keep_written(&mut self.table, &mut self.past, tick, name, at, piece).is_err() {
            keep_torn(&mut self.past, &mut self.untold, tick, name, at, piece);
            return Err(self.calls.fail());
        }
        Ok(())
    }
}

impl Disk for MemDisk {
    const MARKS_ONLY: bool = false;

    ghost MARKS_ONLY = { false };

    ghost files = { λ disk. Some (present disk) };

    ghost faults = { λ disk. disk.calls.faults };

    ghost tick = { λ disk. disk.calls.made };

    ghost images = { images };

    ghost image_since = { images_since };

    ghost Beside = { Unit {0} };

    ghost beside = { λ _. tt };

    ghost counts_now = { counts_now };

    ghost only_now = { only_now };

    ghost reads_now = { reads_now };

    ghost marks_only = { λ disk read name told there marks. absurd (false≢true marks) };

    fn tick(&self) -> u64 {
        self.calls.made()
    }

    fn attach(&mut self, _place: &Word) -> Result<(), Failed>
        ensures calls { self.new.calls ≡ called self.old.calls }
        ensures only { IsErr result ↔ IsTrue (fails_next self.old.calls) }
        ensures past { (self.new.start ≡ self.old.start) × (self.new.past ≡ self.old.past) × (self.new.untold ≡ self.old.untold) }
        ensures files { Some (present self.new) ≡ Some (present self.old) }
        ensures images { NoMore (images self.old) (images self.new) }
        ensures time { Elapses self.old.calls.made self.new.calls.made (images_since self.old) (images_since self.new) (images self.new) }
        ensures cause { HasCause self.old.calls.faults self.new.calls.faults result }
        ensures spent { self.old.calls.made ≡ 2 ^ 64 - 1 → IsErr result }
    {
        self.look()
    }

    fn names(&mut self, alloc: Global) -> Result<Items<FileName>, NamesFault>
        ensures call { IsDiskCall self.old self.new result }
        ensures calls { self.new.calls ≡ called self.old.calls }
        ensures only { IsErrOf result NamesFault.Failed ↔ IsTrue (fails_next self.old.calls) }
        ensures past { (self.new.past ≡ self.old.past) × (self.new.untold ≡ self.old.untold) }
        ensures names { IfOk result (λ names. names ≡ keys (present self.old)) }
        ensures files { Some (present self.new) ≡ Some (present self.old) }
        ensures images { NoMore (images self.old) (images self.new) }
        ensures time { Elapses self.old.calls.made self.new.calls.made (images_since self.old) (images_since self.new) (images self.new) }
        ensures cause { IsCauseOf self.old.calls.faults self.new.calls.faults (IsErrOf result NamesFault.Failed) }
        ensures spent { self.old.calls.made ≡ 2 ^ 64 - 1 → IsErr result }
    {
        if self.look().is_err() {
            return Err(NamesFault::Failed);
        }
        Ok(Items::of(self.table.names(alloc)?))
    }

    fn size(&mut self, name: &FileName) -> Result<Option<u64>, Failed>
        ensures calls { self.new.calls ≡ called self.old.calls }
        ensures only { IsErr result ↔ IsTrue (fails_next self.old.calls) }
        ensures past { (self.new.start ≡ self.old.start) × (self.new.past ≡ self.old.past) × (self.new.untold ≡ self.old.untold) }
        ensures size { IfOk result (λ size. size ≡ option_map length (get (present self.old) name.now)) }
        ensures files { Some (present self.new) ≡ Some (present self.old) }
        ensures images { NoMore (images self.old) (images self.new) }
        ensures time { Elapses self.old.calls.made self.new.calls.made (images_since self.old) (images_since self.new) (images self.new) }
        ensures cause { HasCause self.old.calls.faults self.new.calls.faults result }
        ensures spent { self.old.calls.made ≡ 2 ^ 64 - 1 → IsErr result }
    {
        self.look()?;
        Ok(self.content(name).map(|bytes| bytes.len() as u64))
    }

    fn read_at(&mut self, name: &FileName, at: u64, room: &mut [u8]) -> Result<usize, Failed>
        ensures calls { self.new.calls ≡ called self.old.calls }
        ensures only { IsErr result ↔ IsTrue (fails_next self.old.calls) }
        ensures past { (self.new.start ≡ self.old.start) × (self.new.past ≡ self.old.past) × (self.new.untold ≡ self.old.untold) }
        ensures bound { IfOk result (λ count. count ≤ length room.new) }
        ensures bytes { IfOk result (λ count. ReadsAt (content (present self.old) name.now) at count room.new) }
        ensures files { Some (present self.new) ≡ Some (present self.old) }
        ensures images { NoMore (images self.old) (images self.new) }
        ensures time { Elapses self.old.calls.made self.new.calls.made (images_since self.old) (images_since self.new) (images self.new) }
        ensures cause { HasCause self.old.calls.faults self.new.calls.faults result }
        ensures spent { self.old.calls.made ≡ 2 ^ 64 - 1 → IsErr result }
    {
        self.look()?;
        let bytes = self.content(name).unwrap_or(&[]);
        let start = bytes.len().min(at as usize);
        Ok(fill_front(&bytes[start..], room))
    }

    fn write_at(&mut self, name: &FileName, at: u64, piece: &[u8]) -> Result<(), Failed>
        requires { IsWithin name.now at (present self.old) }
        ensures call { IsDiskCall self.old self.new result }
        ensures writes { WritesOrTears name.now at piece.now self.old self.new result }
        ensures files { MatchResult result
            (λ _. Some (present self.new) ≡ Some (written name.now at piece.now (present self.old)))
            (λ _. MayWrite name.now at piece.now (present self.old) (present self.new)) }
        ensures bound { OnOk result (at + length piece.now < 2 ^ 63) }
        ensures images { Follows (Tears name.now at (length piece.now)) (images self.old) (images self.new) }
        ensures time { Elapses self.old.calls.made self.new.calls.made (images_since self.old) (images_since self.new) (images self.new) }
        ensures cause { HasCause self.old.calls.faults self.new.calls.faults result }
        ensures spent { self.old.calls.made ≡ 2 ^ 64 - 1 → IsErr result }
    {
        self.write(name, at, piece)
    }

    fn cut(&mut self, name: &FileName, to: u64) -> Result<(), Failed>
        requires { IsWithin name.now to (present self.old) }
        ensures call { IsDiskCall self.old self.new result }
        ensures makes { Makes (Change.Cut name.now to) self.old self.new result }
        ensures files { Changes (cut_to name.now to) (Some (present self.old)) (Some (present self.new)) result }
        ensures images { Follows (Atomically (where_there name.now (cut_to name.now to))) (images self.old) (images self.new) }
        ensures time { Elapses self.old.calls.made self.new.calls.made (images_since self.old) (images_since self.new) (images self.new) }
        ensures cause { HasCause self.old.calls.faults self.new.calls.faults result }
        ensures spent { self.old.calls.made ≡ 2 ^ 64 - 1 → IsErr result }
    {
        let name = name.copy();
        self.change(Change::Cut { name, to })
    }

    fn make(&mut self, name: &FileName) -> Result<(), Failed>
        ensures call { IsDiskCall self.old self.new result }
        ensures makes { Makes (Change.Made name.now) self.old self.new result }
        ensures files { Changes (made name.now) (Some (present self.old)) (Some (present self.new)) result }
        ensures images { Follows (Atomically (made name.now)) (images self.old) (images self.new) }
        ensures time { Elapses self.old.calls.made self.new.calls.made (images_since self.old) (images_since self.new) (images self.new) }
        ensures cause { HasCause self.old.calls.faults self.new.calls.faults result }
        ensures spent { self.old.calls.made ≡ 2 ^ 64 - 1 → IsErr result }
    {
        let name = name.copy();
        self.change(Change::Made { name })
    }

    fn remove(&mut self, name: &FileName) -> Result<(), Failed>
        ensures call { IsDiskCall self.old self.new result }
        ensures makes { Makes (Change.Removed name.now) self.old self.new result }
        ensures files { Changes (removed name.now) (Some (present self.old)) (Some (present self.new)) result }
        ensures images { Follows (Atomically (removed name.now)) (images self.old) (images self.new) }
        ensures time { Elapses self.old.calls.made self.new.calls.made (images_since self.old) (images_since self.new) (images self.new) }
        ensures cause { HasCause self.old.calls.faults self.new.calls.faults result }
        ensures spent { self.old.calls.made ≡ 2 ^ 64 - 1 → IsErr result }
    {
        let name = name.copy();
        self.change(Change::Removed { name })
    }

    fn rename(&mut self, from: &FileName, to: &FileName) -> Result<(), Failed>
        requires { IsThere from.now (present self.old) }
        ensures call { IsDiskCall self.old self.new result }
        ensures makes { Makes (Change.Renamed from.now to.now) self.old self.new result }
        ensures files { Changes (renamed from.now to.now) (Some (present self.old)) (Some (present self.new)) result }
        ensures images { Follows (Atomically (where_there from.now (renamed from.now to.now))) (images self.old) (images self.new) }
        ensures time { Elapses self.old.calls.made self.new.calls.made (images_since self.old) (images_since self.new) (images self.new) }
        ensures cause { HasCause self.old.calls.faults self.new.calls.faults result }
        ensures spent { self.old.calls.made ≡ 2 ^ 64 - 1 → IsErr result }
    {
        let from = from.copy();
        let to = to.copy();
        self.change(Change::Renamed { from, to })
    }

    fn sync(&mut self) -> Result<(), Failed>
        ensures call { IsDiskCall self.old self.new result }
        ensures makes { Makes Change.Synced self.old self.new result }
        ensures files { Some (present self.new) ≡ Some (present self.old) }
        ensures images { NoMore (images self.old) (images self.new) }
        ensures settled { OnOk result (Only (Some (present self.old)) (images self.new)) }
        ensures time { Elapses self.old.calls.made self.new.calls.made (images_since self.old) (images_since self.new) (images self.new) }
        ensures cause { HasCause self.old.calls.faults self.new.calls.faults result }
        ensures spent { self.old.calls.made ≡ 2 ^ 64 - 1 → IsErr result }
    {
        self.change(Change::Synced)
    }
}

impl WholeDisk for MemDisk {
    ghost whole = { refl };
}
