ghost use Rattle.std.specs.Prelude.{◌≡◌, ◌<◌, ◌≤◌, ◌-◌, ◌^◌, [], drop, IfOk, IfErr, IsErrOf, IfSome};
ghost use Rattle.weed_base.specs.Told.{IsCauseOf};
ghost use Rattle.weed_base.specs.Files.{content};
ghost use Rattle.weed_base.specs.DiskCalls.{Looks};
ghost use Rattle.meta_log.specs.Stretch.{IsOf};
ghost use Rattle.meta_log.specs.Head.{IsNextHead, HasPayload};
ghost use Rattle.meta_log.specs.Scan.{IsScanned, IsAtEnd, IsStep, GoesOn};
ghost use Rattle.meta_log.specs.LogText.{segment_name};
ghost use Rattle.meta_log.specs.Segment.{IsBroken};
ghost use Rattle.meta_log.specs.Faults.{IfDamaged};

use crate::check::Check;
use crate::fault::LogFault;
use crate::head::{Head, head_of};
use crate::reading::Reading;
use crate::stem::{Stem, first_segment};
use std::alloc::Global;
use weed_base::{Disk, FileName};

/// What a step over a segment met.
#[derive(Clone, Copy, Debug, PartialEq, Eq)]
enum Step {
    /// An item, whose payload was let through.
    More,
    /// A gate that isn't open.
    End,
    /// Neither.
    Broken,
}

/// How many bytes of an item stand ahead of its payload.
pub const AHEAD: usize = 5;

/// What stands where the reading is; where it is an item, its payload is held.
pub fn next_head<D: Disk>(
    disk: &mut D,
    name: &FileName,
    reading: &mut Reading,
) -> Result<Head, LogFault>
    requires { IfSome (D.files disk.old) (λ files. IsOf (content files name.now) reading.old) }
    ensures next { IfOk result (λ head. IfSome (D.files disk.old) (λ files.
        IsOf (content files name.now) reading.new × IsNextHead (drop reading.old.at (content files name.now)) head)) }
    ensures there { IfOk result (HasPayload reading.new.held) }
    ensures place { IfOk result (λ _. (reading.new.at ≡ reading.old.at) × (reading.new.size ≡ reading.old.size)) }
    ensures undamaged { IfErr result (IfDamaged (λ _ _. ⊥)) }
    ensures looks { Looks D.Disk disk.old disk.new }
    ensures cause { IsCauseOf (D.faults disk.old) (D.faults disk.new) (IsErrOf result LogFault.DiskFault) }
    ensures beside { D.beside disk.new ≡ D.beside disk.old }
{
    reading.fill(disk, name, AHEAD)?;
    let head = head_of(reading.held());
    let Head::Item(size) = head else {
        return Ok(head);
    };
    reading.fill(disk, name, AHEAD + size)?;
    if reading.held().len() < AHEAD + size {
        return Ok(Head::Broken);
    }
    Ok(head)
}

/// Goes one item further.
fn take_step<D: Disk, C: Check>(
    alloc: Global,
    disk: &mut D,
    name: &FileName,
    reading: &mut Reading,
    check: &mut C,
) -> Result<Step, LogFault>
    requires scanned { IfSome (D.files disk.old) (λ files. IsScanned (C.passed check.old) (content files name.now) reading.old) }
    requires few { C.count check.old ≤ reading.old.at }
    ensures met { IfOk result (λ met. IfSome (D.files disk.old) (λ files. IsStep C.allowed (C.passed check.new) (content files name.now) reading.new met)) }
    ensures few { IfOk result (λ _. C.count check.new ≤ reading.new.at) }
    ensures goes { IfOk result (λ met. (reading.new.size ≡ reading.old.size) × GoesOn reading.old reading.new met) }
    ensures undamaged { IfErr result (IfDamaged (λ _ _. ⊥)) }
    ensures looks { Looks D.Disk disk.old disk.new }
    ensures cause { IsCauseOf (D.faults disk.old) (D.faults disk.new) (IsErrOf result LogFault.DiskFault) }
    ensures beside { D.beside disk.new ≡ D.beside disk.old }
{
    match next_head(disk, name, reading)? {
        Head::Closed => Ok(Step::End),
        Head::Broken => Ok(Step::Broken),
        Head::Item(size) => {
            let payload = &reading.held()[AHEAD..AHEAD + size];
            if !check.pass(alloc, payload)? {
                return Ok(Step::Broken);
            }
            reading.skip(AHEAD + size);
            Ok(Step::More)
        }
    }
}

/// Reads the first segment from its start, and answers the place of the gate behind its items.
pub fn scan<D: Disk, C: Check>(
    alloc: Global,
    disk: &mut D,
    stem: Stem,
    check: &mut C,
) -> Result<u64, LogFault>
    requires begins { C.passed check.old [] }
    requires fresh { C.count check.old ≡ 0 }
    ensures end { IfOk result (λ gate. IfSome (D.files disk.old) (λ files. IsAtEnd (C.passed check.new) (content files (segment_name stem 1)) gate)) }
    ensures bound { IfOk result (λ gate. gate < 2 ^ 64 - 1) }
    ensures few { IfOk result (λ gate. C.count check.new ≤ gate) }
    ensures damaged { IfErr result (IfDamaged (λ file at. (file ≡ segment_name stem 1)
        × IfSome (D.files disk.old) (λ files. IsBroken C.allowed (content files (segment_name stem 1)) at))) }
    ensures looks { Looks D.Disk disk.old disk.new }
    ensures cause { IsCauseOf (D.faults disk.old) (D.faults disk.new) (IsErrOf result LogFault.DiskFault) }
    ensures beside { D.beside disk.new ≡ D.beside disk.old }
{
    let name = first_segment(stem);
    let mut reading = Reading::begin(alloc, disk, &name, 0)?;
    loop {
        match take_step(alloc, disk, &name, &mut reading, check)? {
            Step::More => {}
            Step::End => return Ok(reading.at()),
            Step::Broken => {
                return Err(LogFault::Damaged {
                    file: name,
                    at: reading.at(),
                });
            }
        }
    }
}
