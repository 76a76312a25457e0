ghost use Rattle.std.specs.Prelude.{◌≡◌, ◌<◌, ◌-◌, ◌∷◌, [], List, ℕ, None, IfOk, IfErr, IfSome, IsErrOf, MatchOption, MatchBool, MatchResult};
ghost use Rattle.std.specs.FinMap.{empty};
ghost use Rattle.weed_base.specs.Told.{IsCauseOf};
ghost use Rattle.weed_base.specs.Files.{content};
ghost use Rattle.weed_base.specs.DiskCalls.{Looks};
ghost use Rattle.name_core.specs.declared.change.Record.{Record};
ghost use Rattle.name_core.specs.RecordText.{CanBeWritten};
ghost use Rattle.meta_log.specs.Faults.{IfDamaged};
ghost use Rattle.meta_log.specs.Held.{gate_of};
ghost use Rattle.meta_log.specs.Kept.{HoldsMetaLog, front_of};
ghost use Rattle.meta_log.specs.Places.{begins_at};
ghost use Rattle.meta_log.specs.Records.{ReadsAs, IsRecord, IsNoRecord};
ghost use Rattle.meta_log.specs.LogText.{segment_name};
ghost use Rattle.meta_log.specs.declared.stem.Stem.TheVariants.{Log};
ghost use Rattle.weed_command.specs.NameTable.{names_of};
ghost use Rattle.weed_command.specs.Replay.{Takes, TakesMany, AreUnreadable, HoldsTaken, HoldsNames, TakesFrom, IsToBlame};

use crate::name_table::NameTable;
use meta_log::{LogFault, MetaLog, Place};
use name_core::Record;
use records::{RecordFault, read_record};
use std::alloc::{AllocError, Global};
use weed_base::{Disk, FileName, LogText};

/// How many records are read at a time.
const PAGE: u32 = 4096;

/// The records of a log that aren't taken yet: from a place on, so many.
#[derive(Clone, Copy)]
struct Rest {
    place: Place,
    count: u64,
}

/// The names that the records of a log leave.
pub fn replay<D: Disk>(alloc: Global, disk: &mut D, log: &MetaLog) -> Result<NameTable, LogFault>
    ensures names { IfOk result (HoldsNames (D.files disk.new) log.now) }
    ensures all { IfOk result (λ names. TakesMany (front_of log.now).count empty (names_of names)) }
    ensures damaged { IfErr result (IfDamaged (λ _ _. HoldsMetaLog (D.files disk.old) log.now → D.files disk.old ≡ None)) }
    ensures blamed { IfErr result (IfDamaged (λ file _. file ≡ segment_name Log 1)) }

    // Whatever the file holds, what is taken stands there from its start on, and damage is named as it is met behind it.
    ensures takes { IfOk result (λ names. IfSome (D.files disk.old) (λ files.
        (at : ℕ) × TakesFrom (content files (segment_name Log 1)) (gate_of log.now.log) 0 at (front_of log.now).count 0 empty (names_of names))) }
    ensures breaks { IfErr result (IfDamaged (λ _ at. IfSome (D.files disk.old) (λ files.
        IsToBlame (content files (segment_name Log 1)) (gate_of log.now.log) 0 at (front_of log.now).count))) }

    ensures looks { Looks D.Disk disk.old disk.new }
    ensures cause { IsCauseOf (D.faults disk.old) (D.faults disk.new) (IsErrOf result LogFault.DiskFault) }
    ensures beside { D.beside disk.new ≡ D.beside disk.old }
{
    let mut names = NameTable::new(alloc);
    let mut rest = Rest {
        place: log.start(),
        count: log.front().count,
    };
    while rest.count > 0 {
        rest = take_page(alloc, disk, log, &mut names, rest)?;
    }
    Ok(names)
}

/// Takes the first records of the rest, and answers what is left then.
fn take_page<D: Disk>(
    alloc: Global,
    disk: &mut D,
    log: &MetaLog,
    names: &mut NameTable,
    rest: Rest,
) -> Result<Rest, LogFault>
    requires { 0 < rest.count }
    ensures taken { IfOk result (λ less. HoldsTaken (D.files disk.old) log.now names.old rest.place rest.count → HoldsTaken (D.files disk.old) log.now names.new less.place less.count) }
    ensures less { IfOk result (λ less. less.count < rest.count) }
    ensures page { IfOk result (λ less. TakesMany (rest.count - less.count) (names_of names.old) (names_of names.new)) }
    ensures damaged { IfErr result (IfDamaged (λ _ _. HoldsTaken (D.files disk.old) log.now names.old rest.place rest.count → D.files disk.old ≡ None)) }
    ensures blamed { IfErr result (IfDamaged (λ file _. file ≡ segment_name Log 1)) }
    ensures takes { IfOk result (λ less. IfSome (D.files disk.old) (λ files.
        TakesFrom (content files (segment_name Log 1)) (gate_of log.now.log) (begins_at (content files (segment_name Log 1)) rest.place) less.place.at rest.count less.count (names_of names.old) (names_of names.new))) }
    ensures breaks { IfErr result (IfDamaged (λ _ at. IfSome (D.files disk.old) (λ files.
        IsToBlame (content files (segment_name Log 1)) (gate_of log.now.log) (begins_at (content files (segment_name Log 1)) rest.place) at rest.count))) }

    ensures looks { Looks D.Disk disk.old disk.new }
    ensures cause { IsCauseOf (D.faults disk.old) (D.faults disk.new) (IsErrOf result LogFault.DiskFault) }
    ensures beside { D.beside disk.new ≡ D.beside disk.old }
{
    let (page, place) = log.read_from(alloc, disk, rest.place, PAGE)?;
    let texts = page.as_slice();
    if texts.is_empty() || !take_texts(alloc, names, texts)? {
        return Err(unreadable());
    }
    Ok(Rest {
        place,
        count: rest.count.saturating_sub(texts.len() as u64),
    })
}

/// What a log answers whose records were read before and aren't now.
fn unreadable() -> LogFault
    ensures { result ≡ LogFault.Damaged (segment_name Log 1) 0 }
{
    LogFault::Damaged {
        file: FileName::new(b"log.00000001").unwrap(),
        at: 0,
    }
}

/// Takes the records of texts, and answers whether all of the texts are records'.
fn take_texts(alloc: Global, names: &mut NameTable, texts: &[LogText]) -> Result<bool, AllocError>
    ensures { IfOk result (λ taken. MatchBool taken
        (Takes texts.now (names_of names.old) (names_of names.new))
        (AreUnreadable texts.now)) }
{
    for text in texts {
        if !take_text(alloc, names, text.as_slice())? {
            return Ok(false);
        }
    }
    Ok(true)
}

/// The same of one text. Memory runs out for a record alone.
fn take_text(alloc: Global, names: &mut NameTable, text: &[u8]) -> Result<bool, AllocError>
    ensures { MatchResult result
        (λ taken. MatchBool taken (Takes (text.now ∷ []) (names_of names.old) (names_of names.new)) (IsNoRecord text.now))
        (λ _. IsRecord text.now) }
{
    let Some(known) = record_of(alloc, text)? else {
        return Ok(false);
    };
    names.reserve(known.changes.as_slice().len())?;
    names.commit(known.changes);
    Ok(true)
}

/// The record of a text, where it is one's.
fn record_of(alloc: Global, text: &[u8]) -> Result<Option<Record>, AllocError>
    ensures { MatchResult result
        (λ known. MatchOption known (IsNoRecord text.now) (λ known. ReadsAs text.now known × CanBeWritten known))
        (λ _. IsRecord text.now) }
{
    match read_record(alloc, text) {
        Ok(known) => Ok(Some(known)),
        Err(RecordFault::Memory) => Err(AllocError),
        Err(RecordFault::Wire(_) | RecordFault::BadRecord) => Ok(None),
    }
}
