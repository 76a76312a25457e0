ghost use Rattle.std.specs.Prelude.{◌≡◌, None};
ghost use Rattle.meta_log.specs.Kept.{front_of};

use crate::fault::{ApplyFault, LookFault};
use crate::listed::{DirectoryList, Listed};
use crate::receipt::Receipt;
use crate::state::FilerState;
use entry::Entry;
use filer_keeper::Keeper;
use log_buffer::Outlet;
use meta_log::Front;
use name_core::directory_made_at;
use name_plans::Command;
use std::alloc::Global;
use weed_base::{Disk, Items, LogText, Name, Path};

/// A log of records, the namespace that a keeper has of it, and an outlet that publishes each record.
#[derive(Debug, Drop)]
pub struct Filer<K, O: Outlet> {
    pub(crate) state: FilerState<K, O>,
    /// The disk's tick at a fault of an `apply`.
    pub(crate) broken: Option<u64>,
    ghost level: { broken ≡ None → front_of state.log ≡ state.published },
    ghost idle: { broken ≡ None → O.offered state.outlet ≡ None },
}

impl<K: Keeper, O: Outlet> Filer<K, O> {
    ghost use Rattle.std.specs.Prelude.{◌≤◌, ◌<◌, ◌+◌, ℕ, List, [], Some, Err, IfOk, IfErr, IfSome, IsErrOf, option_copied};
    ghost use Rattle.weed_base.specs.Told.{IsCauseOf};
    ghost use Rattle.weed_base.specs.Files.{content};
    ghost use Rattle.weed_base.specs.DiskCalls.{Looks};
    ghost use Rattle.entry.specs.Entry.{IsValid};
    ghost use Rattle.name_core.specs.declared.change.Record.{Record};
    ghost use Rattle.name_core.specs.Log.{end_of_time};
    ghost use Rattle.name_plans.specs.Planning.{IsCommand};
    ghost use Rattle.meta_log.specs.declared.stem.Stem.TheVariants.{Log};
    ghost use Rattle.meta_log.specs.Held.{gate_of};
    ghost use Rattle.meta_log.specs.Kept.{HoldsMetaLog, IsPast, ReadsAfter, BreaksAfter};
    ghost use Rattle.meta_log.specs.LogText.{segment_name};
    ghost use Rattle.filer.specs.Plans.{IsPlan, Planned};
    ghost use Rattle.filer.specs.Faults.{IfDamaged, IsOfNames};
    ghost use Rattle.filer.specs.Looks.{entry_at, root_directory, IsListing, Lists};
    ghost use Rattle.filer.specs.State.{keeper_of, log_of, published_of, HoldsState};
    ghost use Rattle.filer.specs.Applied.{Applies};
    ghost use Rattle.filer.specs.Filer.{state_of, broken_of, broken_after, OnlyLooks};

    /// What stands at a path; a directory at the root. `Broken` exactly on a broken filer. It has no disk, and answers
    /// from the keeper's map.
    pub fn find(&mut self, alloc: Global, path: &Path) -> Result<Option<Entry>, LookFault>
        ensures found { IfOk result (λ found. IfSome (K.Names.map (keeper_of (state_of self.old))) (λ names. found ≡ entry_at names path.now)) }
        ensures root { path.now ≡ [] → IfOk result (λ found. found ≡ Some root_directory) }
        ensures valid { IfOk result (λ found. IfSome found IsValid) }
        ensures broken { (tick : ℕ) → broken_of self.old ≡ Some tick → result ≡ Err (LookFault.Broken tick) }
        ensures refusals { IfErr result (IsOfNames (broken_of self.old)) }
        ensures looks { OnlyLooks K.Names.map self.old self.new }
        ensures cause { IsCauseOf (K.Names.faults (keeper_of (state_of self.old))) (K.Names.faults (keeper_of (state_of self.new))) (IsErrOf result LookFault.KeeperFault) }
        ensures beside { K.Names.beside (keeper_of (state_of self.new)) ≡ K.Names.beside (keeper_of (state_of self.old)) }
    {
        if let Some(tick) = self.broken {
            return Err(LookFault::Broken { tick });
        }
        if path.depth() == 0 {
            return Ok(Some(directory_made_at(alloc, 0)));
        }
        Ok(self.state.keeper.find(alloc, path)?)
    }

    /// What stands at a path, and, where it is a directory, its first `limit` children with names past `after`, in byte
    /// order. `Broken` exactly on a broken filer. It has no disk, and answers from the keeper's map.
    pub fn list(
        &mut self,
        alloc: Global,
        dir: &Path,
        after: Option<&Name>,
        limit: u32,
    ) -> Result<Listed, LookFault>
        ensures listed { IfOk result (λ listed. IfSome (K.Names.map (keeper_of (state_of self.old))) (λ names.
            Lists names dir.now (option_copied after.entry) limit listed)) }
        ensures listing { IfOk result (IsListing dir.now (option_copied after.entry) limit) }
        ensures broken { (tick : ℕ) → broken_of self.old ≡ Some tick → result ≡ Err (LookFault.Broken tick) }
        ensures refusals { IfErr result (IsOfNames (broken_of self.old)) }
        ensures looks { OnlyLooks K.Names.map self.old self.new }
        ensures cause { IsCauseOf (K.Names.faults (keeper_of (state_of self.old))) (K.Names.faults (keeper_of (state_of self.new))) (IsErrOf result LookFault.KeeperFault) }
        ensures beside { K.Names.beside (keeper_of (state_of self.new)) ≡ K.Names.beside (keeper_of (state_of self.old)) }
    {
        match self.find(alloc, dir)? {
            None => Ok(Listed::Absent),
            Some(entry) if entry.is_file() => Ok(Listed::File(entry)),
            Some(_) => {
                let children = self.state.keeper.children_after(alloc, dir, after, limit)?;
                Ok(Listed::Directory(DirectoryList::of(children)))
            }
        }
    }

    /// Plans the command at a clock in nanoseconds since 1970, takes all the memory, appends its record, makes its
    /// changes, and publishes it. `Broken` exactly on a broken filer; it is broken by `DiskFault` and by
    /// `KeeperFault`. After `Refused` and `Memory` all is as before. After `DiskFault` the log has the record or hasn't;
    /// after a `KeeperFault` of its changes it has it.
    pub fn apply<D: Disk>(
        &mut self,
        alloc: Global,
        disk: &mut D,
        command: Command,
        clock: u64,
    ) -> Result<Receipt, ApplyFault>
        requires held { broken_of self.old ≡ None → (records : List Record) × HoldsState K.Names.map (D.files disk.old) (state_of self.old) records }
        requires command { IsCommand command }
        ensures applied { broken_of self.old ≡ None → (plan : Planned)
            × IsPlan (K.Names.map (keeper_of (state_of self.old))) command clock (published_of (state_of self.old)).time plan
            × Applies D.Disk K.Names.map plan (state_of self.old) (state_of self.new) disk.old disk.new result }
        ensures broken { (tick : ℕ) → broken_of self.old ≡ Some tick → (result ≡ Err (ApplyFault.Broken tick)) × (self.new ≡ self.old) × (disk.new ≡ disk.old) }
        ensures breaks { broken_of self.new ≡ broken_after (D.tick disk.new) result (broken_of self.old) }
        ensures held { broken_of self.new ≡ None → (records : List Record) × HoldsState K.Names.map (D.files disk.new) (state_of self.new) records }
        ensures cause { IsCauseOf (D.faults disk.old) (D.faults disk.new) (IsErrOf result ApplyFault.DiskFault) }
        ensures keeper_cause { IsCauseOf (K.Names.faults (keeper_of (state_of self.old))) (K.Names.faults (keeper_of (state_of self.new))) (IsErrOf result ApplyFault.KeeperFault) }
        ensures beside { D.beside disk.new ≡ D.beside disk.old }
        ensures keeper_beside { K.Names.beside (keeper_of (state_of self.new)) ≡ K.Names.beside (keeper_of (state_of self.old)) }
        ensures calls { D.tick disk.new ≤ D.tick disk.old + 4 }
    {
        if let Some(tick) = self.broken {
            return Err(ApplyFault::Broken { tick });
        }
        let applied = self.state.make(alloc, disk, &command, clock);
        if let Err(ApplyFault::DiskFault | ApplyFault::KeeperFault) = applied {
            self.broken = Some(disk.tick());
        }
        applied
    }

    /// The texts of the first records past a time in nanoseconds since 1970: at most `room`, and no more once they
    /// reach 67,108,864 bytes. `Broken` exactly on a broken filer. Over files that hold the filer nothing is damaged.
    pub fn read_after<D: Disk>(
        &mut self,
        alloc: Global,
        disk: &mut D,
        after: u64,
        room: u32,
    ) -> Result<Items<LogText>, LookFault>
        ensures past { IfOk result (λ texts. IsPast (D.files disk.old) (log_of (state_of self.old)) after room texts) }
        ensures damaged { IfErr result (IfDamaged (λ _ _. HoldsMetaLog (D.files disk.old) (log_of (state_of self.old)) → D.files disk.old ≡ None)) }
        ensures blamed { IfErr result (IfDamaged (λ file at. (file ≡ segment_name Log 1) × (at < gate_of (log_of (state_of self.old)).log))) }
        ensures reads { IfOk result (λ texts. IfSome (D.files disk.old) (λ files.
            ReadsAfter (content files (segment_name Log 1)) (gate_of (log_of (state_of self.old)).log) after room texts)) }
        ensures breaks { IfErr result (IfDamaged (λ _ at. IfSome (D.files disk.old) (λ files.
            BreaksAfter (content files (segment_name Log 1)) (gate_of (log_of (state_of self.old)).log) after room at))) }
        ensures broken { (tick : ℕ) → broken_of self.old ≡ Some tick → result ≡ Err (LookFault.Broken tick) }
        ensures same { self.new ≡ self.old }
        ensures looks { Looks D.Disk disk.old disk.new }
        ensures cause { IsCauseOf (D.faults disk.old) (D.faults disk.new) (IsErrOf result LookFault.DiskFault) }
        ensures beside { D.beside disk.new ≡ D.beside disk.old }
    {
        if let Some(tick) = self.broken {
            return Err(LookFault::Broken { tick });
        }
        Ok(self.state.log.read_after(alloc, disk, after, room)?)
    }

    /// How many records were published, and the time of the last, on a broken filer too. Takes no memory.
    pub fn front(&self) -> Front
        ensures front { result ≡ published_of (state_of self.now) }
        ensures bounded { result.time ≤ end_of_time }
        ensures timed { result.count ≤ result.time }
    {
        self.state.published
    }
}

impl<K: Keeper, O: Outlet + Drop> Filer<K, O> {
    ghost use Rattle.filer.specs.State.{keeper_of};
    ghost use Rattle.filer.specs.Filer.{state_of};

    /// The keeper as it stands. Takes no memory.
    pub fn into_keeper(self) -> K
        ensures { result ≡ keeper_of (state_of self) }
    {
        let Filer { state, .. } = self;
        let FilerState { keeper, .. } = state;
        keeper
    }
}
