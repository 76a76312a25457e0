ghost use Rattle.std.specs.Prelude.{◌≡◌, ◌≤◌, ◌<◌, ◌+◌, ◌⊎◌, false, List, length, Some, IfOk, IfSome, IfErr, IsErrOf};
ghost use Rattle.weed_base.specs.Told.{IsCauseOf};
ghost use Rattle.weed_base.specs.Files.{BothTold, Files};
ghost use Rattle.name_core.specs.declared.change.Record.{Record};
ghost use Rattle.records.specs.RecordText.{record_text};
ghost use Rattle.name_core.specs.RecordText.{CanBeWritten};

use crate::name_table::NameTable;
use crate::replay::replay;
use meta_log::{GateText, LogFault, MetaLog};
use name_core::{Command, PlanFault, Record, Refusal, plan};
use records::write_record;
use std::alloc::{AllocError, AllocFailed, Global};
use thiserror::Error;
use weed_base::{Disk, Failed, Path};

/// Why a directory was not made.
#[derive(Debug, Drop, Error)]
pub enum MakeFault {
    #[error("refused: {0}")]
    Refused(Refusal),
    #[error("a call of the disk failed")]
    DiskFault,
    #[error("out of memory")]
    Memory,
}

impl From<AllocError> for MakeFault {
    ghost use Rattle.weed_command.specs.declared.plain_filer.MakeFault.TheVariants.{Memory};

    ghost from_gives = { λ _ fault. fault ≡ Memory };

    fn from(_: AllocError) -> Self {
        MakeFault::Memory
    }
}

impl From<Failed> for MakeFault {
    ghost use Rattle.weed_command.specs.declared.plain_filer.MakeFault.TheVariants.{DiskFault};

    ghost from_gives = { λ _ fault. fault ≡ DiskFault };

    fn from(_: Failed) -> Self {
        MakeFault::DiskFault
    }
}

/// The log of a disk, and the namespace that it stands for, as a table in memory.
#[derive(Debug, Drop)]
pub struct PlainFiler {
    log: MetaLog,
    names: NameTable,
}

impl PlainFiler {
    ghost use Rattle.name_core.specs.declared.command.Command.TheVariants.{MakeDir};
    ghost use Rattle.name_core.specs.Log.{fold, last_time};
    ghost use Rattle.name_core.specs.Plan.{plan_of, Recorded};
    ghost use Rattle.meta_log.specs.Faults.{IfDamaged};
    ghost use Rattle.meta_log.specs.LogText.{IsBlamable};
    ghost use Rattle.meta_log.specs.Making.{LeavesOthers};
    ghost use Rattle.meta_log.specs.declared.stem.Stem.TheVariants.{Log};
    ghost use Rattle.weed_base.specs.DiskCalls.{Acts};
    ghost use Rattle.meta_log.specs.Images.{HasLogOf, ImagesHoldRecords, IsMadeFrom, IsOwn};
    ghost use Rattle.meta_log.specs.Kept.{front_of, TellsRecordLog, IsRecordDamage, IsRecordLog};
    ghost use Rattle.meta_log.specs.Records.{ReadsAs};
    ghost use Rattle.weed_command.specs.Filer.{IsFiled, IsFiledFrom, HoldsFiler, Makes, MakesImages, log_of};
    ghost use Rattle.weed_command.specs.Settling.{Settling, Tearing};
    ghost use Rattle.weed_command.specs.Growth.{GrowsByRecords};
    ghost use Rattle.weed_command.specs.NameTable.{names_of};
    ghost use Rattle.weed_command.specs.Replay.{TakesMany};
    ghost use Rattle.std.specs.FinMap.{empty};

    /// Opens the log of a disk, and folds its records into names. Makes the log's first segment where none
    /// counts. Where the files are no log of records, `Damaged` names the first file and place to blame.
    pub fn open<D: Disk>(alloc: Global, disk: &mut D) -> Result<PlainFiler, LogFault>
        requires { D.MARKS_ONLY ≡ false }
        ensures opened { IfOk result (λ filer. IfSome (D.files disk.old) (λ files. IsFiledFrom files (D.files disk.new) filer)) }
        ensures held { IfOk result (λ filer. (records : List Record) × HoldsFiler (D.files disk.new) filer records) }
        ensures all { IfOk result (λ filer. TakesMany (front_of (log_of filer)).count empty (names_of filer.names)) }
        ensures damaged { IfErr result (IfDamaged (λ file at.
            IfSome (D.files disk.old) (λ files. IsRecordDamage files file at) × (D.files disk.new ≡ D.files disk.old))) }
        ensures blamed { IfErr result (IfDamaged (λ file _. IsBlamable Log file)) }

        // Whatever comes of it, the records that the disk holds stay.
        ensures kept { (records : List Record) → TellsRecordLog (D.files disk.old) records → TellsRecordLog (D.files disk.new) records }

        // Where any segment counts, nothing is changed, whatever is answered.
        ensures made { BothTold (IsMadeFrom Log) (D.files disk.old) (D.files disk.new) }
        ensures others { BothTold (LeavesOthers Log) (D.files disk.old) (D.files disk.new) }

        // A crash at any moment leaves the records of an image that was there before; after `Ok` those that
        // the disk has. A disk of one's own is never damaged.
        ensures atomic { (files : Files) → D.files disk.old ≡ Some files → Acts D.Disk disk.old disk.new (HasLogOf (D.images disk.old)) }
        ensures settled { IfOk result (λ _. (files : Files) (records : List Record) → D.files disk.old ≡ Some files
            → IsRecordLog files records → ImagesHoldRecords (D.images disk.new) records) }
        ensures own { (files : Files) → D.files disk.old ≡ Some files → IsOwn (D.images disk.old) → IfErr result (IfDamaged (λ _ _. ⊥)) }

        ensures cause { IsCauseOf (D.faults disk.old) (D.faults disk.new) (IsErrOf result LogFault.DiskFault) }
        ensures beside { D.beside disk.new ≡ D.beside disk.old }
    {
        let log = MetaLog::open(alloc, disk)?;
        let names = replay(alloc, disk, &log)?;
        Ok(PlainFiler { log, names })
    }

    /// Makes the directory and each missing one above it, at a moment in nanoseconds since 1970, by four
    /// calls of the disk at most. After `DiskFault` the log is to be opened again; after the other faults
    /// nothing is changed, and the disk isn't called.
    pub fn make_dir<D: Disk>(
        &mut self,
        alloc: Global,
        disk: &mut D,
        path: Path,
        moment: u64,
    ) -> Result<(), MakeFault>
        requires { (records : List Record) × HoldsFiler (D.files disk.old) self.old records }
        ensures made { IfSome (D.files disk.old) (λ files. (records : List Record) → IsFiled files self.old records
            → Makes (plan_of (fold records) (MakeDir path) moment (last_time records)) records (D.files disk.new) self.new result) }
        ensures images { (files : Files) (records : List Record) → D.files disk.old ≡ Some files → IsFiled files self.old records
            → MakesImages (plan_of (fold records) (MakeDir path) moment (last_time records))
            (Settling D.tick D.images D.image_since disk.old disk.new records)
            (Tearing D.tick D.images D.image_since disk.old disk.new records) records result }
        ensures cause { IsCauseOf (D.faults disk.old) (D.faults disk.new) (IsErrOf result MakeFault.DiskFault) }
        ensures held { ¬ (IsErrOf result MakeFault.DiskFault) → (records : List Record) × HoldsFiler (D.files disk.new) self.new records }
        ensures grows { BothTold GrowsByRecords (D.files disk.old) (D.files disk.new) }
        ensures beside { D.beside disk.new ≡ D.beside disk.old }
        ensures calls { D.tick disk.new ≤ D.tick disk.old + 4 }
        ensures uncalled { IfErr result (λ fault. (fault ≡ MakeFault.DiskFault) ⊎ (D.tick disk.new ≡ D.tick disk.old)) }
    {
        let command = Command::MakeDir { path };
        let last = self.log.front().time;
        match plan(alloc, &mut self.names, &command, moment, last) {
            Ok(Some(planned)) => self.append(alloc, disk, planned),
            Ok(None) => Ok(()),
            Err(PlanFault::Refused(refusal)) => Err(MakeFault::Refused(refusal)),
            Err(PlanFault::Memory) => Err(MakeFault::Memory),
            Err(PlanFault::KeeperFault) => unreachable!(),
        }
    }

    /// Appends a planned record, once all the memory that it wants is there, and takes its changes.
    fn append<D: Disk>(
        &mut self,
        alloc: Global,
        disk: &mut D,
        planned: Record,
    ) -> Result<(), MakeFault>
        requires held { (records : List Record) × HoldsFiler (D.files disk.old) self.old records }
        requires writable { CanBeWritten planned }
        requires short { length (record_text planned) ≤ 67108864 }
        requires later { (front_of (log_of self.old)).time < planned.time }
        ensures made { IfSome (D.files disk.old) (λ files. (records : List Record) → IsFiled files self.old records
            → Makes (Recorded planned) records (D.files disk.new) self.new result) }
        ensures images { (files : Files) (records : List Record) → D.files disk.old ≡ Some files → IsFiled files self.old records
            → MakesImages (Recorded planned) (Settling D.tick D.images D.image_since disk.old disk.new records)
            (Tearing D.tick D.images D.image_since disk.old disk.new records) records result }
        ensures cause { IsCauseOf (D.faults disk.old) (D.faults disk.new) (IsErrOf result MakeFault.DiskFault) }
        ensures held { ¬ (IsErrOf result MakeFault.DiskFault) → (records : List Record) × HoldsFiler (D.files disk.new) self.new records }
        ensures grows { BothTold GrowsByRecords (D.files disk.old) (D.files disk.new) }
        ensures beside { D.beside disk.new ≡ D.beside disk.old }
        ensures calls { D.tick disk.new ≤ D.tick disk.old + 4 }
        ensures uncalled { IfErr result (λ fault. (fault ≡ MakeFault.DiskFault) ⊎ (D.tick disk.new ≡ D.tick disk.old)) }
    {
        let text = write_record(alloc, &planned)?;
        let ready = GateText::make(alloc, text.as_slice())?;
        self.names.reserve(planned.changes.as_slice().len())?;
        self.log.append(disk, planned.time, &ready)?;
        self.names.commit(planned.changes);
        Ok(())
    }
}
