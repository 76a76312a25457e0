ghost use Rattle.std.specs.Prelude.{◌≡◌, ◌≤◌};
ghost use Rattle.name_core.specs.Log.{end_of_time};
ghost use Rattle.meta_log.specs.Kept.{front_of};

use crate::fault::ApplyFault;
use crate::receipt::Receipt;
use crate::room::reserve_for;
use filer_keeper::Keeper;
use log_buffer::Outlet;
use meta_log::{Front, GateText, MetaLog};
use name_core::Record;
use name_plans::{Command, plan};
use records::write_record;
use std::alloc::Global;
use weed_base::Disk;

/// What a filer keeps.
#[derive(Debug, Drop)]
pub struct FilerState<K, O: Outlet> {
    pub(crate) log: MetaLog,
    pub(crate) keeper: K,
    pub(crate) outlet: O,
    /// Of the published list, which may be one record behind the log.
    pub(crate) published: Front,
    ghost counted: { O.count outlet ≡ published.count },
    ghost bounded: { published.time ≤ end_of_time },
    ghost timed: { published.count ≤ published.time },
    ghost behind: { published.time ≤ (front_of log).time },
}

impl<K: Keeper, O: Outlet> FilerState<K, O> {
    ghost use Rattle.std.specs.Prelude.{◌<◌, ◌+◌, List, None, Some, length, IfOk, IfErr, OnOk, OnErr, IsErrOf};
    ghost use Rattle.weed_base.specs.Told.{IsCauseOf};
    ghost use Rattle.filer_keeper.specs.Commit.{put_count};
    ghost use Rattle.name_core.specs.declared.change.Record.{Record as RecordValue};
    ghost use Rattle.name_core.specs.RecordText.{CanBeWritten};
    ghost use Rattle.name_plans.specs.Planning.{IsCommand};
    ghost use Rattle.records.specs.RecordText.{record_text};
    ghost use Rattle.meta_log.specs.Records.{ReadsAs};
    ghost use Rattle.filer.specs.Faults.{IsMemoryOrKeeper};
    ghost use Rattle.filer.specs.Plans.{IsPlan, Planned};
    ghost use Rattle.filer.specs.State.{keeper_of, log_of, outlet_of, published_of, HoldsState, StaysPublished};
    ghost use Rattle.filer.specs.Applied.{Adds, Applies, IsWhole};

    /// Plans the command, and adds its record, if there is one.
    pub fn make<D: Disk>(
        &mut self,
        alloc: Global,
        disk: &mut D,
        command: &Command,
        clock: u64,
    ) -> Result<Receipt, ApplyFault>
        requires level { front_of (log_of self.old) ≡ published_of self.old }
        requires idle { O.offered (outlet_of self.old) ≡ None }
        requires held { (records : List RecordValue) × HoldsState K.Names.map (D.files disk.old) self.old records }
        requires command { IsCommand command.now }
        ensures applied { (plan : Planned) × IsPlan (K.Names.map (keeper_of self.old)) command.now clock (published_of self.old).time plan
            × Applies D.Disk K.Names.map plan self.old self.new disk.old disk.new result }
        ensures level { IsWhole result → front_of (log_of self.new) ≡ published_of self.new }
        ensures idle { IsWhole result → O.offered (outlet_of self.new) ≡ None }
        ensures held { IsWhole result → (records : List RecordValue) × HoldsState K.Names.map (D.files disk.new) self.new records }
        ensures cause { IsCauseOf (D.faults disk.old) (D.faults disk.new) (IsErrOf result ApplyFault.DiskFault) }
        ensures keeper_cause { IsCauseOf (K.Names.faults (keeper_of self.old)) (K.Names.faults (keeper_of self.new)) (IsErrOf result ApplyFault.KeeperFault) }
        ensures beside { D.beside disk.new ≡ D.beside disk.old }
        ensures keeper_beside { K.Names.beside (keeper_of self.new) ≡ K.Names.beside (keeper_of self.old) }
        ensures calls { D.tick disk.new ≤ D.tick disk.old + 4 }
    {
        let last = self.published.time;
        match plan(alloc, &mut self.keeper, command, clock, last)? {
            Some(made) => self.add(alloc, disk, made),
            None => Ok(Receipt {
                time: None,
                count: self.published.count,
            }),
        }
    }

    /// Adds a planned record, once all the memory that it wants is there: to the log, to the names, and to the
    /// published list.
    fn add<D: Disk>(
        &mut self,
        alloc: Global,
        disk: &mut D,
        made: Record,
    ) -> Result<Receipt, ApplyFault>
        requires level { front_of (log_of self.old) ≡ published_of self.old }
        requires idle { O.offered (outlet_of self.old) ≡ None }
        requires held { (records : List RecordValue) × HoldsState K.Names.map (D.files disk.old) self.old records }
        requires writable { CanBeWritten made }
        requires short { length (record_text made) ≤ 67108864 }
        requires later { (published_of self.old).time < made.time }
        ensures added { Adds D.Disk K.Names.map made self.old self.new disk.old disk.new result }
        ensures idle { IsWhole result → O.offered (outlet_of self.new) ≡ None }
        ensures held { IsWhole result → (records : List RecordValue) × HoldsState K.Names.map (D.files disk.new) self.new records }
        ensures cause { IsCauseOf (D.faults disk.old) (D.faults disk.new) (IsErrOf result ApplyFault.DiskFault) }
        ensures keeper_cause { IsCauseOf (K.Names.faults (keeper_of self.old)) (K.Names.faults (keeper_of self.new)) (IsErrOf result ApplyFault.KeeperFault) }
        ensures beside { D.beside disk.new ≡ D.beside disk.old }
        ensures keeper_beside { K.Names.beside (keeper_of self.new) ≡ K.Names.beside (keeper_of self.old) }
        ensures calls { D.tick disk.new ≤ D.tick disk.old + 4 }
    {
        let time = made.time;
        let ready = self.prepare(alloc, &made)?;
        if self.log.append(disk, time, &ready).is_err() {
            return Err(ApplyFault::DiskFault);
        }
        if self.keeper.commit(made).is_err() {
            return Err(ApplyFault::KeeperFault);
        }
        self.outlet.publish();
        self.published = self.log.front();
        Ok(Receipt {
            time: Some(time),
            count: self.published.count,
        })
    }

    /// Takes all the memory that a record wants: for its text, for its puts, and to publish it.
    fn prepare(&mut self, alloc: Global, made: &Record) -> Result<GateText, ApplyFault>
        requires idle { O.offered (outlet_of self.old) ≡ None }
        requires writable { CanBeWritten made.now }
        requires short { length (record_text made.now) ≤ 67108864 }
        requires later { (published_of self.old).time < made.now.time }
        ensures ready { IfOk result (λ ready. ready ≡ record_text made.now) }
        ensures reads { IfOk result (λ ready. ReadsAs ready made.now) }
        ensures spare { OnOk result (put_count made.now.changes ≤ K.spare (keeper_of self.new)) }
        ensures offered { OnOk result (O.offered (outlet_of self.new) ≡ Some (record_text made.now)) }
        ensures idle { OnErr result (O.offered (outlet_of self.new) ≡ None) }
        ensures published { StaysPublished self.old self.new }
        ensures log { log_of self.new ≡ log_of self.old }
        ensures names { K.Names.map (keeper_of self.new) ≡ K.Names.map (keeper_of self.old) }
        ensures beside { K.Names.beside (keeper_of self.new) ≡ K.Names.beside (keeper_of self.old) }
        ensures cause { IsCauseOf (K.Names.faults (keeper_of self.old)) (K.Names.faults (keeper_of self.new)) (IsErrOf result ApplyFault.KeeperFault) }
        ensures faults { IfErr result IsMemoryOrKeeper }
    {
        let text = write_record(alloc, made)?;
        let ready = GateText::make(alloc, text.as_slice())?;
        reserve_for(&mut self.keeper, made)?;
        self.outlet.offer(alloc, text)?;
        Ok(ready)
    }
}
