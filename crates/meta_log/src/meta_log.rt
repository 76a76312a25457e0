ghost use Rattle.std.specs.Prelude.{◌≡◌, ◌<◌, ◌≤◌, ◌+◌, ◌⊎◌, ◌++◌, ◌∷◌, ◌-◌, ◌^◌, [], List, length, ℕ, Bool, false, None, Some, Err, IfOk, OnOk, IfErr, OnErr, IsErrOf, IfSome};
ghost use Rattle.weed_base.specs.Told.{HasCause, IsCauseOf};
ghost use Rattle.weed_base.specs.Files.{BothTold, Files, content};
ghost use Rattle.weed_base.specs.DiskCalls.{Looks, Acts};
ghost use Rattle.name_core.specs.declared.change.Record.{Record};
ghost use Rattle.name_core.specs.Log.{end_of_time};
ghost use Rattle.meta_log.specs.Making.{LeavesOthers};
ghost use Rattle.meta_log.specs.LogText.{IsBlamable, segment_name, AppendsAt, ChangesOnly};
ghost use Rattle.meta_log.specs.Segment.{items};
ghost use Rattle.meta_log.specs.Records.{ReadsAs};
ghost use Rattle.meta_log.specs.declared.stem.Stem.TheVariants.{Log};

use crate::fault::LogFault;
use crate::front::Front;
use crate::gate_log::GateLog;
use crate::gate_text::GateText;
use crate::left::collect;
use crate::opening::open_first;
use crate::place::Place;
use crate::reading::Reading;
use crate::rising::{RisingRecords, skip_past};
use crate::stem::{Stem, first_segment};
use std::alloc::Global;
use weed_base::{Disk, Failed, Items, LogText};

/// Once a batch of texts has so many bytes, it gets no more.
const MOST_BYTES: u64 = 67_108_864;

/// A filer's log of records, whose times rise strictly.
#[derive(Debug, Drop)]
pub struct MetaLog {
    log: GateLog,
    front: Front,
    ghost is_log: { log.stem ≡ Log },
    ghost counted: { front.count ≤ log.gate },
    ghost bounded: { front.time ≤ end_of_time },
    ghost timed: { front.count ≤ front.time },
}

impl MetaLog {
    ghost use Rattle.meta_log.specs.Faults.{IfDamaged};
    ghost use Rattle.meta_log.specs.Held.{gate_of, TellsText, TellsEither};
    ghost use Rattle.meta_log.specs.Kept.{front_of, IsRecordLog, TellsRecordLog, HoldsMetaLog, TellsRecords, TellsEitherLog, IsOpenedFrom, HoldsRecords, IsRecordDamage, IsPast, IsEitherLog, ReadsAfter, BreaksAfter};
    ghost use Rattle.meta_log.specs.Images.{ComesBy, ImagesHoldRecords, IsMadeFrom, HasLogOf, IsOwn};
    ghost use Rattle.meta_log.specs.Left.{BreaksAt};
    ghost use Rattle.meta_log.specs.Places.{place_behind, begins_at, ReadsFrom};
    ghost use Rattle.meta_log.specs.RecordPlaces.{HoldsRecordPlace, AreNext};

    /// Opens the log of records of a disk, and makes its first segment where none counts. Syncs first. Where the
    /// files are no log of records, `Damaged` names the first file and place to blame, and nothing is changed.
    pub fn open<D: Disk>(alloc: Global, disk: &mut D) -> Result<MetaLog, LogFault>
        requires { D.MARKS_ONLY ≡ false }
        ensures held { IfOk result (HoldsMetaLog (D.files disk.new)) }
        ensures opened { IfOk result (λ meta. IsOpenedFrom (D.files disk.old) (D.files disk.new) meta) }
        ensures damaged { IfErr result (IfDamaged (λ file at.
            IfSome (D.files disk.old) (λ files. IsRecordDamage files file at) × (D.files disk.new ≡ D.files disk.old))) }
        ensures blamed { IfErr result (IfDamaged (λ file _. IsBlamable Log file)) }

        // Whatever comes of it, the records that the disk holds stay.
        ensures kept { (records : List Record) → TellsRecordLog (D.files disk.old) records → TellsRecordLog (D.files disk.new) records }

        // Where any segment counts, nothing is changed, whatever is answered.
        ensures files { BothTold (IsMadeFrom Log) (D.files disk.old) (D.files disk.new) }

        // A crash at any moment leaves an image as it was, or the first segment in the making where none counted.
        ensures steps { (files : Files) → D.files disk.old ≡ Some files
            → Acts D.Disk disk.old disk.new (ComesBy (IsMadeFrom Log) (D.images disk.old)) }

        // A crash at any moment leaves the records that one before the call would have left; after `Ok` those that were
        // read. A disk of one's own isn't damaged.
        ensures atomic { (files : Files) → D.files disk.old ≡ Some files → Acts D.Disk disk.old disk.new (HasLogOf (D.images disk.old)) }
        ensures settled { IfOk result (λ _. (files : Files) (records : List Record) → D.files disk.old ≡ Some files → IsRecordLog files records
            → ImagesHoldRecords (D.images disk.new) records) }
        ensures own { (files : Files) → D.files disk.old ≡ Some files → IsOwn (D.images disk.old) → IfErr result (IfDamaged (λ _ _. ⊥)) }

        ensures others { BothTold (LeavesOthers Log) (D.files disk.old) (D.files disk.new) }
        ensures cause { IsCauseOf (D.faults disk.old) (D.faults disk.new) (IsErrOf result LogFault.DiskFault) }
        ensures beside { D.beside disk.new ≡ D.beside disk.old }
    {
        let mut records = RisingRecords {
            front: Front { count: 0, time: 0 },
        };
        let gate = open_first(alloc, disk, Stem::Log, &mut records)?;
        let log = GateLog {
            stem: Stem::Log,
            gate,
        };
        Ok(MetaLog {
            log,
            front: records.front,
        })
    }

    /// Adds a record's text, with its time, which is past the last, by four calls of the disk at most. Takes no
    /// memory. After `Failed` the log is to be opened again.
    pub fn append<D: Disk>(
        &mut self,
        disk: &mut D,
        time: u64,
        text: &GateText,
    ) -> Result<(), Failed>
        requires held { HoldsMetaLog (D.files disk.old) self.old }
        requires reads { (known : Record) × ReadsAs text.now known × (known.time ≡ time) }
        requires past { (front_of self.old).time < time }

        ensures held { OnOk result (HoldsMetaLog (D.files disk.new) self.new) }
        ensures appended { OnOk result ((records : List Record) (known : Record) → TellsRecords (D.files disk.old) self.old records
            → ReadsAs text.now known → known.time ≡ time → TellsRecords (D.files disk.new) self.new (records ++ known ∷ [])) }
        ensures failed { OnErr result ((records : List Record) (known : Record) → TellsRecords (D.files disk.old) self.old records
            → ReadsAs text.now known → known.time ≡ time → TellsEitherLog (D.files disk.new) records known) }

        // The same of the texts themselves, whatever record they read as.
        ensures text_appended { OnOk result ((payloads : List (List ℕ)) → TellsText Log (D.files disk.old) payloads
            → TellsText Log (D.files disk.new) (payloads ++ text.now ∷ [])) }
        ensures text_failed { OnErr result ((payloads : List (List ℕ)) → TellsText Log (D.files disk.old) payloads
            → TellsEither Log (D.files disk.new) payloads text.now) }

        ensures bytes { OnOk result (AppendsAt (segment_name Log 1) (gate_of self.old.log) text.now (D.files disk.old) (D.files disk.new)) }
        ensures front { OnOk result (front_of self.new ≡ record { count = (front_of self.old).count + 1; time = time }) }
        ensures same { OnErr result (self.new ≡ self.old) }

        // A crash at any moment leaves the records, or the records with this one; after `Ok` the latter.
        ensures atomic { (files : Files) (records : List Record) (known : Record) → D.files disk.old ≡ Some files → HoldsRecords files self.old records
            → ReadsAs text.now known → known.time ≡ time → ImagesHoldRecords (D.images disk.old) records
            → Acts D.Disk disk.old disk.new (IsEitherLog records known) }
        ensures settled { OnOk result ((files : Files) (records : List Record) (known : Record) → D.files disk.old ≡ Some files → HoldsRecords files self.old records
            → ReadsAs text.now known → known.time ≡ time → ImagesHoldRecords (D.images disk.new) (records ++ known ∷ [])) }

        ensures calls { D.tick disk.new ≤ D.tick disk.old + 4 }
        ensures others { BothTold (ChangesOnly (segment_name Log 1)) (D.files disk.old) (D.files disk.new) }
        ensures cause { HasCause (D.faults disk.old) (D.faults disk.new) result }
        ensures beside { D.beside disk.new ≡ D.beside disk.old }
    {
        self.log.append(disk, text)?;
        self.front = Front {
            count: self.front.count + 1,
            time,
        };
        Ok(())
    }

    /// The texts of the first records past a time: at most `room`, and no more once they reach
    /// 67,108,864 bytes. Over files that hold the log nothing is damaged.
    pub fn read_after<D: Disk>(
        &self,
        alloc: Global,
        disk: &mut D,
        after: u64,
        room: u32,
    ) -> Result<Items<LogText>, LogFault>
        ensures past { IfOk result (λ texts. IsPast (D.files disk.old) self.now after room texts) }
        ensures damaged { IfErr result (IfDamaged (λ _ _. HoldsMetaLog (D.files disk.old) self.now → D.files disk.old ≡ None)) }
        ensures blamed { IfErr result (IfDamaged (λ file at. (file ≡ segment_name Log 1) × (at < gate_of self.now.log))) }

        // Whatever the file holds, what is read stands there behind what is passed over, and damage is named where no
        // item stands behind those, or one that is no record's.
        ensures reads { IfOk result (λ texts. IfSome (D.files disk.old) (λ files.
            ReadsAfter (content files (segment_name Log 1)) (gate_of self.now.log) after room texts)) }
        ensures breaks { IfErr result (IfDamaged (λ _ at. IfSome (D.files disk.old) (λ files.
            BreaksAfter (content files (segment_name Log 1)) (gate_of self.now.log) after room at))) }

        ensures looks { Looks D.Disk disk.old disk.new }
        ensures cause { IsCauseOf (D.faults disk.old) (D.faults disk.new) (IsErrOf result LogFault.DiskFault) }
        ensures beside { D.beside disk.new ≡ D.beside disk.old }
    {
        let name = first_segment(Stem::Log);
        let mut reading = Reading::begin(alloc, disk, &name, 0)?;
        skip_past(alloc, disk, &name, self.log.gate, &mut reading, after)?;
        let texts = collect(
            alloc,
            disk,
            &name,
            self.log.gate,
            &mut reading,
            room,
            MOST_BYTES,
        )?;
        Ok(Items::of(texts))
    }

    /// The place of the first record. Takes no memory.
    pub fn start(&self) -> Place
        ensures { result ≡ place_behind [] }
    {
        self.log.start()
    }

    /// The texts of the next records from a place on, and the place behind them: at most `room`, however
    /// many bytes they have. Over files that hold the log nothing is damaged.
    pub fn read_from<D: Disk>(
        &self,
        alloc: Global,
        disk: &mut D,
        place: Place,
        room: u32,
    ) -> Result<(Items<LogText>, Place), LogFault>
        ensures next { IfOk result (λ read. AreNext (D.files disk.old) self.now place room read.0 read.1) }
        ensures behind { IfOk result (λ read. HoldsRecordPlace (D.files disk.old) self.now place → HoldsRecordPlace (D.files disk.new) self.now read.1) }
        ensures damaged { IfErr result (IfDamaged (λ _ _. HoldsRecordPlace (D.files disk.old) self.now place → D.files disk.old ≡ None)) }

        // Whatever the file holds, what is read stands there, and damage is named where no item stands behind it.
        ensures reads { IfOk result (λ read. IfSome (D.files disk.old) (λ files.
            ReadsFrom (content files (segment_name Log 1)) (gate_of self.now.log) place room read.0 read.1)) }
        ensures breaks { IfErr result (IfDamaged (λ _ at. IfSome (D.files disk.old) (λ files.
            BreaksAt (content files (segment_name Log 1)) (gate_of self.now.log) room (2 ^ 64 - 1) (begins_at (content files (segment_name Log 1)) place) at))) }

        // Over any disk the room is filled or the gate is reached, by no more than the texts that are handed on, and
        // damage is one of the log's file, before its gate.
        ensures whole { IfOk result (λ read. (length read.0 ≡ room) ⊎ (gate_of self.now.log ≤ read.1.at)) }
        ensures moves { IfOk result (λ read. read.1.at ≤ place.at + length (items read.0)) }
        ensures blamed { IfErr result (IfDamaged (λ file at. (file ≡ segment_name Log 1) × (at < gate_of self.now.log))) }

        ensures looks { Looks D.Disk disk.old disk.new }
        ensures cause { IsCauseOf (D.faults disk.old) (D.faults disk.new) (IsErrOf result LogFault.DiskFault) }
        ensures beside { D.beside disk.new ≡ D.beside disk.old }
    {
        self.log.read_from(alloc, disk, place, room)
    }

    /// How many records there are, and the time of the last. Takes no memory.
    pub fn front(&self) -> Front
        ensures front { result ≡ front_of self.now }
        ensures bounded { result.time ≤ end_of_time }
        ensures timed { result.count ≤ result.time }
    {
        self.front
    }
}
