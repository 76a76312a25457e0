ghost use Rattle.std.specs.Prelude.{◌≡◌, ◌≢◌, ◌≤◌, ◌<◌, ◌+◌, ◌-◌, ◌∷◌, [], List, ℕ, None, Option, length, IfOk, OnOk, IfErr, IfSome, IsErrOf};
ghost use Rattle.std.specs.Option.{option_map};
ghost use Rattle.std.specs.FinMap.{empty};
ghost use Rattle.weed_base.specs.Told.{IsCauseOf};
ghost use Rattle.weed_base.specs.DiskCalls.{Looks};
ghost use Rattle.name_core.specs.Namespace.{Namespace};
ghost use Rattle.name_core.specs.RecordText.{CanBeWritten};
ghost use Rattle.meta_log.specs.Kept.{HoldsMetaLog, front_of};
ghost use Rattle.meta_log.specs.LogText.{segment_name};
ghost use Rattle.meta_log.specs.Records.{ReadsAs, IsRecord, IsNoRecord};
ghost use Rattle.meta_log.specs.RecordPlaces.{AreNext};
ghost use Rattle.meta_log.specs.declared.stem.Stem.TheVariants.{Log};
ghost use Rattle.filer.specs.Faults.{IfDamaged};
ghost use Rattle.filer.specs.Opened.{IsOfOpening, IsOfTaking};
ghost use Rattle.filer.specs.Taken.{Takes, TakesMany, AreUnreadable, AreNamesOf, HoldsTaken, HoldsAllTaken};

use crate::fault::LookFault;
use crate::room::reserve_for;
use filer_keeper::Keeper;
use meta_log::{MetaLog, Place};
use name_core::Record;
use records::{RecordFault, read_record};
use std::alloc::Global;
use weed_base::{Disk, FileName, Items, LogText};

/// How many records are read at a time, and how many of the last an outlet is handed at most.
const PAGE: u32 = 4096;

/// The records of a log that aren't taken yet: from a place on, so many.
#[derive(Clone, Copy)]
struct Rest {
    place: Place,
    count: u64,
}

/// Texts of a log, and the place behind them.
#[derive(Drop)]
struct Page {
    texts: Items<LogText>,
    behind: Place,
}

/// Clears the keeper and takes all records of a log into it, page by page. Answers the texts of the last page: all, or
/// the last 4,096.
pub fn refill<D: Disk, K: Keeper>(
    alloc: Global,
    disk: &mut D,
    log: &MetaLog,
    keeper: &mut K,
) -> Result<Items<LogText>, LookFault>
    ensures all { IfOk result (λ _. TakesMany (front_of log.now).count (option_map (λ _. empty) (K.Names.map keeper.old)) (K.Names.map keeper.new)) }
    ensures taken { IfOk result (λ texts. HoldsMetaLog (D.files disk.old) log.now → HoldsAllTaken (D.files disk.old) log.now (K.Names.map keeper.new) texts) }
    ensures few { IfOk result (λ texts. length texts ≤ (front_of log.now).count) }
    ensures damaged { IfErr result (IfDamaged (λ _ _. HoldsMetaLog (D.files disk.old) log.now → D.files disk.old ≡ None)) }
    ensures blamed { IfErr result (IfDamaged (λ file _. file ≡ segment_name Log 1)) }
    ensures faults { IfErr result IsOfOpening }
    ensures looks { Looks D.Disk disk.old disk.new }
    ensures cause { IsCauseOf (D.faults disk.old) (D.faults disk.new) (IsErrOf result LookFault.DiskFault) }
    ensures beside { D.beside disk.new ≡ D.beside disk.old }
    ensures keeper_cause { IsCauseOf (K.Names.faults keeper.old) (K.Names.faults keeper.new) (IsErrOf result LookFault.KeeperFault) }
    ensures keeper_beside { K.Names.beside keeper.new ≡ K.Names.beside keeper.old }
{
    clear(keeper)?;
    let rest = take_first(alloc, disk, log, keeper)?;
    let page = take_page(alloc, disk, log, keeper, rest.place, rest.count as u32)?;
    Ok(page.texts)
}

/// Leaves no name.
fn clear<K: Keeper>(keeper: &mut K) -> Result<(), LookFault>
    ensures map { OnOk result (K.Names.map keeper.new ≡ option_map (λ _. empty) (K.Names.map keeper.old)) }
    ensures fault { IfErr result (λ fault. fault ≡ LookFault.KeeperFault) }
    ensures cause { IsCauseOf (K.Names.faults keeper.old) (K.Names.faults keeper.new) (IsErrOf result LookFault.KeeperFault) }
    ensures beside { K.Names.beside keeper.new ≡ K.Names.beside keeper.old }
{
    match keeper.clear() {
        Ok(()) => Ok(()),
        Err(_) => Err(LookFault::KeeperFault),
    }
}

/// Takes all records but the last 4,096.
fn take_first<D: Disk, K: Keeper>(
    alloc: Global,
    disk: &mut D,
    log: &MetaLog,
    keeper: &mut K,
) -> Result<Rest, LookFault>
    ensures all { IfOk result (λ rest. (rest.count ≤ (front_of log.now).count) × TakesMany ((front_of log.now).count - rest.count) (K.Names.map keeper.old) (K.Names.map keeper.new)) }
    ensures taken { IfOk result (λ rest. HoldsMetaLog (D.files disk.old) log.now → AreNamesOf [] (K.Names.map keeper.old)
        → HoldsTaken (D.files disk.old) log.now (K.Names.map keeper.new) rest.place rest.count) }
    ensures few { IfOk result (λ rest. rest.count ≤ 4096) }
    ensures damaged { IfErr result (IfDamaged (λ _ _. HoldsMetaLog (D.files disk.old) log.now → D.files disk.old ≡ None)) }
    ensures blamed { IfErr result (IfDamaged (λ file _. file ≡ segment_name Log 1)) }
    ensures faults { IfErr result IsOfOpening }
    ensures looks { Looks D.Disk disk.old disk.new }
    ensures cause { IsCauseOf (D.faults disk.old) (D.faults disk.new) (IsErrOf result LookFault.DiskFault) }
    ensures beside { D.beside disk.new ≡ D.beside disk.old }
    ensures keeper_cause { IsCauseOf (K.Names.faults keeper.old) (K.Names.faults keeper.new) (IsErrOf result LookFault.KeeperFault) }
    ensures keeper_beside { K.Names.beside keeper.new ≡ K.Names.beside keeper.old }
{
    let mut rest = Rest {
        place: log.start(),
        count: log.front().count,
    };
    while rest.count > PAGE as u64 {
        let room = (rest.count - PAGE as u64).min(PAGE as u64);
        let page = take_page(alloc, disk, log, keeper, rest.place, room as u32)?;
        rest = Rest {
            place: page.behind,
            count: rest.count - room,
        };
    }
    Ok(rest)
}

/// Takes just so many next records, and answers their texts.
fn take_page<D: Disk, K: Keeper>(
    alloc: Global,
    disk: &mut D,
    log: &MetaLog,
    keeper: &mut K,
    place: Place,
    room: u32,
) -> Result<Page, LookFault>
    ensures next { IfOk result (λ page. AreNext (D.files disk.old) log.now place room page.texts page.behind) }
    ensures full { IfOk result (λ page. length page.texts ≡ room) }
    ensures taken { IfOk result (λ page. Takes page.texts (K.Names.map keeper.old) (K.Names.map keeper.new)) }
    ensures damaged { IfErr result (IfDamaged (λ _ _. (names : Option Namespace) (left : ℕ) → HoldsTaken (D.files disk.old) log.now names place left → room ≤ left → D.files disk.old ≡ None)) }
    ensures blamed { IfErr result (IfDamaged (λ file _. file ≡ segment_name Log 1)) }
    ensures faults { IfErr result IsOfOpening }
    ensures looks { Looks D.Disk disk.old disk.new }
    ensures cause { IsCauseOf (D.faults disk.old) (D.faults disk.new) (IsErrOf result LookFault.DiskFault) }
    ensures beside { D.beside disk.new ≡ D.beside disk.old }
    ensures keeper_cause { IsCauseOf (K.Names.faults keeper.old) (K.Names.faults keeper.new) (IsErrOf result LookFault.KeeperFault) }
    ensures keeper_beside { K.Names.beside keeper.new ≡ K.Names.beside keeper.old }
{
    let page = read_page(alloc, disk, log, place, room)?;
    take_texts(alloc, keeper, page.texts.as_slice())?;
    Ok(page)
}

/// Reads just so many next records. A log that has fewer, though it had as many, is damaged.
fn read_page<D: Disk>(
    alloc: Global,
    disk: &mut D,
    log: &MetaLog,
    place: Place,
    room: u32,
) -> Result<Page, LookFault>
    ensures next { IfOk result (λ page. AreNext (D.files disk.old) log.now place room page.texts page.behind) }
    ensures full { IfOk result (λ page. length page.texts ≡ room) }
    ensures damaged { IfErr result (IfDamaged (λ _ _. (names : Option Namespace) (left : ℕ) → HoldsTaken (D.files disk.old) log.now names place left → room ≤ left → D.files disk.old ≡ None)) }
    ensures blamed { IfErr result (IfDamaged (λ file _. file ≡ segment_name Log 1)) }
    ensures faults { IfErr result (λ fault. IsOfOpening fault × (fault ≢ LookFault.KeeperFault)) }
    ensures looks { Looks D.Disk disk.old disk.new }
    ensures cause { IsCauseOf (D.faults disk.old) (D.faults disk.new) (IsErrOf result LookFault.DiskFault) }
    ensures beside { D.beside disk.new ≡ D.beside disk.old }
{
    let (texts, behind) = log.read_from(alloc, disk, place, room)?;
    if texts.as_slice().len() != room as usize {
        return Err(unreadable());
    }
    Ok(Page { texts, behind })
}

/// What is answered of a log whose records were read before and aren't now.
fn unreadable() -> LookFault
    ensures { result ≡ LookFault.Damaged (segment_name Log 1) 0 }
{
    LookFault::Damaged {
        file: FileName::new(b"log.00000001").unwrap(),
        at: 0,
    }
}

/// Takes the records of texts. Where one is no record's, those before it are taken.
fn take_texts<K: Keeper>(alloc: Global, keeper: &mut K, texts: &[LogText]) -> Result<(), LookFault>
    ensures taken { OnOk result (Takes texts.now (K.Names.map keeper.old) (K.Names.map keeper.new)) }
    ensures damaged { IfErr result (IfDamaged (λ _ _. AreUnreadable texts.now)) }
    ensures blamed { IfErr result (IfDamaged (λ file _. file ≡ segment_name Log 1)) }
    ensures faults { IfErr result IsOfTaking }
    ensures keeper_cause { IsCauseOf (K.Names.faults keeper.old) (K.Names.faults keeper.new) (IsErrOf result LookFault.KeeperFault) }
    ensures keeper_beside { K.Names.beside keeper.new ≡ K.Names.beside keeper.old }
{
    for text in texts {
        take_text(alloc, keeper, text.as_slice())?;
    }
    Ok(())
}

/// The same of one text. Memory runs out for a record alone.
fn take_text<K: Keeper>(alloc: Global, keeper: &mut K, text: &[u8]) -> Result<(), LookFault>
    ensures taken { OnOk result (Takes (text.now ∷ []) (K.Names.map keeper.old) (K.Names.map keeper.new)) }
    ensures damaged { IfErr result (IfDamaged (λ _ _. IsNoRecord text.now)) }
    ensures blamed { IfErr result (IfDamaged (λ file _. file ≡ segment_name Log 1)) }
    ensures faults { IfErr result IsOfTaking }
    ensures keeper_cause { IsCauseOf (K.Names.faults keeper.old) (K.Names.faults keeper.new) (IsErrOf result LookFault.KeeperFault) }
    ensures keeper_beside { K.Names.beside keeper.new ≡ K.Names.beside keeper.old }
{
    let known = record_of(alloc, text)?;
    reserve_for(keeper, &known)?;
    match keeper.commit(known) {
        Ok(()) => Ok(()),
        Err(_) => Err(LookFault::KeeperFault),
    }
}

/// The record of a text.
fn record_of(alloc: Global, text: &[u8]) -> Result<Record, LookFault>
    ensures known { IfOk result (λ known. ReadsAs text.now known × CanBeWritten known) }
    ensures damaged { IfErr result (IfDamaged (λ _ _. IsNoRecord text.now)) }
    ensures blamed { IfErr result (IfDamaged (λ file _. file ≡ segment_name Log 1)) }
    ensures faults { IfErr result (λ fault. IsOfTaking fault × (fault ≢ LookFault.KeeperFault)) }
    ensures memory { IsErrOf result LookFault.Memory → IsRecord text.now }
{
    match read_record(alloc, text) {
        Ok(known) => Ok(known),
        Err(RecordFault::Memory) => Err(LookFault::Memory),
        Err(RecordFault::Wire(_)) => Err(unreadable()),
        Err(RecordFault::BadRecord) => Err(unreadable()),
    }
}
