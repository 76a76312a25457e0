ghost use Rattle.std.specs.Prelude.{◌≡◌, ◌<◌, ◌≤◌, false, IfOk, OnOk, IfErr, IsErrOf, IfSome, MatchOption, MatchBool, MatchResult};
ghost use Rattle.std.specs.Bool.{OnTrue};
ghost use Rattle.weed_base.specs.Told.{IsCauseOf};
ghost use Rattle.weed_base.specs.Files.{content};
ghost use Rattle.weed_base.specs.DiskCalls.{Looks};
ghost use Rattle.meta_log.specs.Stretch.{IsOf};
ghost use Rattle.meta_log.specs.Skip.{SkipsOne, SkipsTo, NoneAhead, PassesEarly, EndsOrHoldsLate, PassesTo, StopsAt, NoRecordAt};
ghost use Rattle.meta_log.specs.Faults.{IfDamaged};
ghost use Rattle.name_core.specs.declared.change.Record.{Record};
ghost use Rattle.name_core.specs.Log.{end_of_time};
ghost use Rattle.meta_log.specs.Records.{ReadsAs, IsRecord, IsNoRecord, AreRecords, HasFront};

use crate::check::Check;
use crate::fault::LogFault;
use crate::front::Front;
use crate::head::Head;
use crate::left::{damaged_here, left_head};
use crate::reading::Reading;
use crate::scan::AHEAD;
use records::{RecordFault, read_record};
use std::alloc::{AllocError, Global};
use weed_base::{Disk, FileName};

/// Lets texts of records through whose times rise, and knows their front.
#[derive(Debug, Drop)]
pub struct RisingRecords {
    pub front: Front,
    ghost bounded: { front.time ≤ end_of_time },
    ghost timed: { front.count ≤ front.time },
}

/// The time of the record that the payload reads as, where it reads as one. Memory runs out for a record alone.
fn time_of(alloc: Global, payload: &[u8]) -> Result<Option<u64>, AllocError>
    ensures { MatchResult result
        (λ time. MatchOption time (IsNoRecord payload.now) (λ time. (known : Record) × ReadsAs payload.now known × (known.time ≡ time)))
        (λ _. IsRecord payload.now) }
{
    match read_record(alloc, payload) {
        Ok(known) => Ok(Some(known.time)),
        Err(RecordFault::Memory) => Err(AllocError),
        Err(RecordFault::Wire(_) | RecordFault::BadRecord) => Ok(None),
    }
}

/// Skips the next record where it isn't past that time, and answers whether it did. A text that reads as no
/// record is damage.
fn skip_one<D: Disk>(
    alloc: Global,
    disk: &mut D,
    name: &FileName,
    gate: u64,
    reading: &mut Reading,
    after: u64,
) -> Result<bool, LogFault>
    requires { IfSome (D.files disk.old) (λ files. IsOf (content files name.now) reading.old) }
    ensures of { IfOk result (λ _. IfSome (D.files disk.old) (λ files. IsOf (content files name.now) reading.new)) }
    ensures skips { IfOk result (λ skipped. IfSome (D.files disk.old) (λ files. SkipsOne (content files name.now) gate after reading.old.at reading.new.at skipped)) }
    ensures passes { IfOk result (λ skipped. IfSome (D.files disk.old) (λ files.
        MatchBool skipped (PassesTo (content files name.now) gate after reading.old.at reading.new.at) ((reading.new.at ≡ reading.old.at) × StopsAt (content files name.now) gate after reading.new.at))) }
    ensures early { IfOk result (λ skipped. OnTrue skipped (PassesEarly after reading.old reading.new)) }
    ensures stops { IfOk result (λ skipped. skipped ≡ false → EndsOrHoldsLate gate after reading.new.at reading.new.held) }
    ensures goes { IfOk result (λ skipped. (reading.new.size ≡ reading.old.size) × OnTrue skipped ((reading.old.at < reading.new.at) × (reading.new.at ≤ reading.new.size))) }
    ensures damaged { IfErr result (IfDamaged (λ _ _. IfSome (D.files disk.old) (λ files. NoneAhead (content files name.now) gate after reading.old.at))) }
    ensures breaks { IfErr result (IfDamaged (λ _ at. (at ≡ reading.old.at) × IfSome (D.files disk.old) (λ files. NoRecordAt (content files name.now) at))) }
    ensures blamed { IfErr result (IfDamaged (λ file at. (file ≡ name.now) × (at ≡ reading.new.at) × (at < gate))) }
    ensures looks { Looks D.Disk disk.old disk.new }
    ensures cause { IsCauseOf (D.faults disk.old) (D.faults disk.new) (IsErrOf result LogFault.DiskFault) }
    ensures beside { D.beside disk.new ≡ D.beside disk.old }
{
    let size = match left_head(disk, name, gate, reading)? {
        Head::Closed => return Ok(false),
        Head::Broken => return Err(damaged_here(name, reading)),
        Head::Item(size) => size,
    };
    match time_of(alloc, &reading.held()[AHEAD..AHEAD + size])? {
        Some(time) if time <= after => {
            reading.skip(AHEAD + size);
            Ok(true)
        }
        Some(_) => Ok(false),
        None => Err(damaged_here(name, reading)),
    }
}

/// Skips the records up to a time.
pub fn skip_past<D: Disk>(
    alloc: Global,
    disk: &mut D,
    name: &FileName,
    gate: u64,
    reading: &mut Reading,
    after: u64,
) -> Result<(), LogFault>
    requires { IfSome (D.files disk.old) (λ files. IsOf (content files name.now) reading.old) }
    ensures of { OnOk result (IfSome (D.files disk.old) (λ files. IsOf (content files name.now) reading.new)) }
    ensures skipped { OnOk result (IfSome (D.files disk.old) (λ files. SkipsTo (content files name.now) gate after reading.old.at reading.new.at)) }
    ensures passes { OnOk result (IfSome (D.files disk.old) (λ files.
        PassesTo (content files name.now) gate after reading.old.at reading.new.at × StopsAt (content files name.now) gate after reading.new.at)) }
    ensures stops { OnOk result (EndsOrHoldsLate gate after reading.new.at reading.new.held) }
    ensures damaged { IfErr result (IfDamaged (λ _ _. IfSome (D.files disk.old) (λ files. NoneAhead (content files name.now) gate after reading.old.at))) }
    ensures breaks { IfErr result (IfDamaged (λ _ at. IfSome (D.files disk.old) (λ files.
        PassesTo (content files name.now) gate after reading.old.at at × NoRecordAt (content files name.now) at))) }
    ensures blamed { IfErr result (IfDamaged (λ file at. (file ≡ name.now) × (at ≡ reading.new.at) × (at < gate))) }
    ensures looks { Looks D.Disk disk.old disk.new }
    ensures cause { IsCauseOf (D.faults disk.old) (D.faults disk.new) (IsErrOf result LogFault.DiskFault) }
    ensures beside { D.beside disk.new ≡ D.beside disk.old }
{
    'skipping: while skip_one(alloc, disk, name, gate, reading, after)? {}
    Ok(())
}

impl Check for RisingRecords {
    ghost allowed = { AreRecords };

    ghost passed = { λ check payloads. HasFront check.front payloads };

    ghost count = { λ check. check.front.count };

    fn pass(&mut self, alloc: Global, payload: &[u8]) -> Result<bool, AllocError> {
        match time_of(alloc, payload)? {
            Some(time) if time > self.front.time => {
                self.front = Front {
                    count: self.front.count + 1,
                    time,
                };
                Ok(true)
            }
            _ => Ok(false),
        }
    }

    ghost sound = { λ check payloads passed. (passed.0, passed.1, passed.2) };
}
