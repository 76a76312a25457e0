ghost use Rattle.std.specs.Prelude.{◌≡◌, ◌<◌, ◌≤◌, ◌+◌, ◌-◌, ◌^◌, [], List, ℕ, Err, IfOk, IfErr, IsErrOf, IfSome, Some};
ghost use Rattle.weed_base.specs.Told.{IsCauseOf};
ghost use Rattle.weed_base.specs.Files.{BothTold, Files};
ghost use Rattle.weed_base.specs.Images.{Only};
ghost use Rattle.weed_base.specs.DiskCalls.{Acts};
ghost use Rattle.meta_log.specs.LogText.{IsBlamable, HasText, HasDamage, IsAllowed, MayKeep};
ghost use Rattle.meta_log.specs.Making.{LeavesOthers};
ghost use Rattle.meta_log.specs.Opening.{IsOpen};
ghost use Rattle.meta_log.specs.Images.{ComesBy, IsMadeFrom};
ghost use Rattle.meta_log.specs.Faults.{IfDamaged};

use crate::check::Check;
use crate::fault::LogFault;
use crate::make::make_first;
use crate::payloads::{AnyMarks, AnyPayload};
use crate::scan::scan;
use crate::standing::{Standing, find_standing};
use crate::stem::{Stem, first_segment, second_segment};
use std::alloc::Global;
use weed_base::Disk;

/// Opens the first segment, which is made where none counts, and answers the place of the gate behind its
/// items.
pub fn open_first<D: Disk, C: Check>(
    alloc: Global,
    disk: &mut D,
    stem: Stem,
    check: &mut C,
) -> Result<u64, LogFault>
    requires keeps { MayKeep D.MARKS_ONLY stem }
    requires begins { C.passed check.old [] }
    requires fresh { C.count check.old ≡ 0 }
    ensures opened { IfOk result (λ gate. BothTold (IsOpen C.allowed (C.passed check.new) stem gate) (D.files disk.old) (D.files disk.new)) }
    ensures bound { IfOk result (λ gate. gate < 2 ^ 64 - 1) }
    ensures few { IfOk result (λ gate. C.count check.new ≤ gate) }
    ensures damaged { IfErr result (IfDamaged (λ file at.
        IfSome (D.files disk.old) (λ files. HasDamage C.allowed stem files file at) × (D.files disk.new ≡ D.files disk.old))) }
    ensures blamed { IfErr result (IfDamaged (λ file _. IsBlamable stem file)) }
    ensures kept { (payloads : List (List ℕ)) → IfSome (D.files disk.old) (λ files. HasText C.allowed stem files payloads)
        → IfSome (D.files disk.new) (λ files. HasText C.allowed stem files payloads) }
    ensures atomic { (files : Files) → D.files disk.old ≡ Some files
        → Acts D.Disk disk.old disk.new (ComesBy (IsMadeFrom stem) (D.images disk.old)) }
    ensures settled { IfOk result (λ _. Only (D.files disk.new) (D.images disk.new)) }
    ensures files { BothTold (IsMadeFrom stem) (D.files disk.old) (D.files disk.new) }
    ensures others { BothTold (LeavesOthers stem) (D.files disk.old) (D.files disk.new) }
    ensures cause { IsCauseOf (D.faults disk.old) (D.faults disk.new) (IsErrOf result LogFault.DiskFault) }
    ensures beside { D.beside disk.new ≡ D.beside disk.old }
{
    disk.sync()?;
    match find_standing(alloc, disk, stem)? {
        Standing::Empty => {
            make_first(disk, stem)?;
            Ok(0)
        }
        Standing::First => scan(alloc, disk, stem, check),
        Standing::Gap => Err(LogFault::Damaged {
            file: first_segment(stem),
            at: 0,
        }),
        Standing::Second => Err(LogFault::Damaged {
            file: second_segment(stem),
            at: 0,
        }),
    }
}

/// The same with the check of the stem.
pub fn open_stem<D: Disk>(alloc: Global, disk: &mut D, stem: Stem) -> Result<u64, LogFault>
    requires { MayKeep D.MARKS_ONLY stem }
    ensures opened { IfOk result (λ gate. BothTold (IsOpen (IsAllowed stem) (IsAllowed stem) stem gate) (D.files disk.old) (D.files disk.new)) }
    ensures bound { IfOk result (λ gate. gate < 2 ^ 64 - 1) }
    ensures damaged { IfErr result (IfDamaged (λ file at.
        IfSome (D.files disk.old) (λ files. HasDamage (IsAllowed stem) stem files file at) × (D.files disk.new ≡ D.files disk.old))) }
    ensures blamed { IfErr result (IfDamaged (λ file _. IsBlamable stem file)) }
    ensures kept { (payloads : List (List ℕ)) → IfSome (D.files disk.old) (λ files. HasText (IsAllowed stem) stem files payloads)
        → IfSome (D.files disk.new) (λ files. HasText (IsAllowed stem) stem files payloads) }
    ensures atomic { (files : Files) → D.files disk.old ≡ Some files
        → Acts D.Disk disk.old disk.new (ComesBy (IsMadeFrom stem) (D.images disk.old)) }
    ensures settled { IfOk result (λ _. Only (D.files disk.new) (D.images disk.new)) }
    ensures files { BothTold (IsMadeFrom stem) (D.files disk.old) (D.files disk.new) }
    ensures others { BothTold (LeavesOthers stem) (D.files disk.old) (D.files disk.new) }
    ensures cause { IsCauseOf (D.faults disk.old) (D.faults disk.new) (IsErrOf result LogFault.DiskFault) }
    ensures beside { D.beside disk.new ≡ D.beside disk.old }
{
    match stem {
        Stem::Log => open_first(alloc, disk, stem, &mut AnyPayload),
        Stem::Marks => open_first(alloc, disk, stem, &mut AnyMarks),
    }
}
