ghost use Rattle.std.specs.Prelude.{◌≡◌, ◌≤◌, ◌<◌, ◌+◌, ◌^◌, ◌↔◌, length, List, ℕ, IfOk, IfErr, IsErrOf, IfSome, MatchOption, None};
ghost use Rattle.weed_base.specs.Told.{IsCauseOf};
ghost use Rattle.weed_base.specs.Files.{content};
ghost use Rattle.weed_base.specs.DiskCalls.{Looks};
ghost use Rattle.meta_log.specs.Stretch.{IsOf};
ghost use Rattle.meta_log.specs.Head.{HasItem};
ghost use Rattle.meta_log.specs.Left.{among_items, IsLeft, MeetsNext, TakesNext, batch_from, FillsOrEnds, StandsAt, NoItemAt, StandFrom, IsHeadAt, BreaksAt};
ghost use Rattle.meta_log.specs.LogText.{segment_name};
ghost use Rattle.meta_log.specs.Segment.{items};
ghost use Rattle.meta_log.specs.Faults.{IfDamaged};

use crate::fault::LogFault;
use crate::head::Head;
use crate::reading::Reading;
use crate::scan::{AHEAD, next_head};
use std::alloc::Global;
use weed_base::{Disk, FileName, LogText};

/// What a head means among items, where no gate is closed.
fn item_or_broken(head: Head) -> Head
    ensures { result ≡ among_items head }
{
    match head {
        Head::Item(size) => Head::Item(size),
        Head::Closed | Head::Broken => Head::Broken,
    }
}

/// Damage of a file, at the place that its reading came to.
pub fn damaged_here(name: &FileName, reading: &Reading) -> LogFault
    ensures { result ≡ LogFault.Damaged name.now reading.now.at }
{
    LogFault::Damaged {
        file: name.copy(),
        at: reading.at(),
    }
}

/// What is left up to the gate: the next item, or nothing, which is `Closed`.
pub fn left_head<D: Disk>(
    disk: &mut D,
    name: &FileName,
    gate: u64,
    reading: &mut Reading,
) -> Result<Head, LogFault>
    requires { IfSome (D.files disk.old) (λ files. IsOf (content files name.now) reading.old) }
    ensures of { IfOk result (λ _. IfSome (D.files disk.old) (λ files. IsOf (content files name.now) reading.new)) }
    ensures meets { IfOk result (λ head. IfSome (D.files disk.old) (λ files.
        (left : List (List ℕ)) → IsLeft (content files name.now) gate reading.old.at left → MeetsNext left head)) }
    ensures here { IfOk result (λ head. IfSome (D.files disk.old) (λ files. IsHeadAt (content files name.now) gate reading.old.at head)) }
    ensures closed { IfOk result (λ head. (head ≡ Head.Closed) ↔ (gate ≤ reading.new.at)) }
    ensures there { IfOk result (HasItem reading.new.held) }
    ensures place { IfOk result (λ _. (reading.new.at ≡ reading.old.at) × (reading.new.size ≡ reading.old.size)) }
    ensures undamaged { IfErr result (IfDamaged (λ _ _. ⊥)) }
    ensures looks { Looks D.Disk disk.old disk.new }
    ensures cause { IsCauseOf (D.faults disk.old) (D.faults disk.new) (IsErrOf result LogFault.DiskFault) }
    ensures beside { D.beside disk.new ≡ D.beside disk.old }
{
    if reading.at() >= gate {
        return Ok(Head::Closed);
    }
    Ok(item_or_broken(next_head(disk, name, reading)?))
}

/// Takes the next text up to the gate.
fn take_text<D: Disk>(
    alloc: Global,
    disk: &mut D,
    name: &FileName,
    gate: u64,
    reading: &mut Reading,
) -> Result<Option<LogText>, LogFault>
    requires of { IfSome (D.files disk.old) (λ files. IsOf (content files name.now) reading.old) }
    ensures of { IfOk result (λ _. IfSome (D.files disk.old) (λ files. IsOf (content files name.now) reading.new)) }
    ensures takes { IfOk result (λ taken. IfSome (D.files disk.old) (λ files.
        (left : List (List ℕ)) → IsLeft (content files name.now) gate reading.old.at left → TakesNext (content files name.now) gate reading.new.at left taken)) }
    ensures stands { IfOk result (λ taken. IfSome (D.files disk.old) (λ files.
        MatchOption taken (gate ≤ reading.old.at) (λ text. (reading.old.at < gate) × StandsAt (content files name.now) reading.old.at text))) }
    ensures ended { IfOk result (λ taken. taken ≡ None → gate ≤ reading.new.at) }
    ensures place { IfOk result (λ taken. MatchOption taken (reading.new.at ≡ reading.old.at)
        (λ text. (reading.new.at ≡ reading.old.at + (5 + length text)) × (reading.new.at < 2 ^ 64))) }
    ensures damaged { IfErr result (IfDamaged (λ _ _. IfSome (D.files disk.old) (λ files.
        (left : List (List ℕ)) → ¬ IsLeft (content files name.now) gate reading.old.at left))) }
    ensures breaks { IfErr result (IfDamaged (λ _ at. (at ≡ reading.old.at) × IfSome (D.files disk.old) (λ files. NoItemAt (content files name.now) at))) }
    ensures blamed { IfErr result (IfDamaged (λ file at. (file ≡ name.now) × (at ≡ reading.new.at) × (at < gate))) }
    ensures looks { Looks D.Disk disk.old disk.new }
    ensures cause { IsCauseOf (D.faults disk.old) (D.faults disk.new) (IsErrOf result LogFault.DiskFault) }
    ensures beside { D.beside disk.new ≡ D.beside disk.old }
{
    match left_head(disk, name, gate, reading)? {
        Head::Closed => Ok(None),
        Head::Broken => Err(damaged_here(name, reading)),
        Head::Item(size) => {
            let text = LogText::new(alloc, &reading.held()[AHEAD..AHEAD + size])?;
            reading.skip(AHEAD + size);
            Ok(Some(text))
        }
    }
}

/// The next texts up to the gate: at most `room`, and no more once they reach `most` bytes.
pub fn collect<D: Disk>(
    alloc: Global,
    disk: &mut D,
    name: &FileName,
    gate: u64,
    reading: &mut Reading,
    room: u32,
    most: u64,
) -> Result<Vec<LogText>, LogFault>
    requires of { IfSome (D.files disk.old) (λ files. IsOf (content files name.now) reading.old) }
    ensures texts { IfOk result (λ texts. IfSome (D.files disk.old) (λ files.
        (left : List (List ℕ)) → IsLeft (content files name.now) gate reading.old.at left → texts.items ≡ batch_from most room 0 left)) }
    ensures stand { IfOk result (λ texts. IfSome (D.files disk.old) (λ files. StandFrom (content files name.now) gate reading.old.at texts.items)) }
    ensures few { IfOk result (λ texts. batch_from most room 0 texts.items ≡ texts.items) }
    ensures whole { IfOk result (λ texts. FillsOrEnds room most gate reading.new.at texts.items) }
    ensures place { IfOk result (λ texts. reading.new.at ≡ reading.old.at + length (items texts.items)) }
    ensures damaged { IfErr result (IfDamaged (λ _ _. IfSome (D.files disk.old) (λ files.
        (left : List (List ℕ)) → ¬ IsLeft (content files name.now) gate reading.old.at left))) }
    ensures breaks { IfErr result (IfDamaged (λ _ at. IfSome (D.files disk.old) (λ files. BreaksAt (content files name.now) gate room most reading.old.at at))) }
    ensures blamed { IfErr result (IfDamaged (λ file at. (file ≡ name.now) × (at ≡ reading.new.at) × (at < gate))) }
    ensures looks { Looks D.Disk disk.old disk.new }
    ensures cause { IsCauseOf (D.faults disk.old) (D.faults disk.new) (IsErrOf result LogFault.DiskFault) }
    ensures beside { D.beside disk.new ≡ D.beside disk.old }
{
    let mut texts = Vec::new(alloc);
    let mut bytes = 0;
    'taking: while texts.len() < room as usize && bytes < most {
        let Some(text) = take_text(alloc, disk, name, gate, reading)? else {
            break;
        };
        bytes += text.as_slice().len() as u64;
        texts.push(text)?;
    }
    Ok(texts)
}
