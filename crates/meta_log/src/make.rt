ghost use Rattle.std.specs.Prelude.{◌≡◌, ◌≤◌, ◌+◌, OnOk, OnErr, IfSome};
ghost use Rattle.weed_base.specs.Told.{HasCause};
ghost use Rattle.weed_base.specs.Files.{BothTold, Files};
ghost use Rattle.weed_base.specs.Images.{Only};
ghost use Rattle.weed_base.specs.DiskCalls.{Acts};
ghost use Rattle.meta_log.specs.LogText.{segment_name, on_name, NoneFrom, ChangesOnly, MayKeep};
ghost use Rattle.meta_log.specs.Making.{IsPrepared, IsFresh, IsFreshOrEmpty, LeavesOthers};

use crate::stem::{Stem, first_on, first_segment};
use crate::write::write_settled;
use weed_base::{Disk, Failed};

/// Makes the file of the first segment anew, with a closed gate, and settles it.
fn make_segment<D: Disk>(disk: &mut D, stem: Stem) -> Result<(), Failed>
    requires keeps { MayKeep D.MARKS_ONLY stem }
    requires none { IfSome (D.files disk.old) (NoneFrom stem 1) }
    ensures made { OnOk result (IfSome (D.files disk.new) (IsPrepared stem)) }
    ensures failed { OnErr result (IfSome (D.files disk.new) (NoneFrom stem 1)) }
    ensures atomic { ((image : Files) → D.images disk.old image → NoneFrom stem 1 image) → Acts D.Disk disk.old disk.new (NoneFrom stem 1) }
    ensures settled { OnOk result (Only (D.files disk.new) (D.images disk.new)) }
    ensures others { BothTold (ChangesOnly (segment_name stem 1)) (D.files disk.old) (D.files disk.new) }
    ensures cause { HasCause (D.faults disk.old) (D.faults disk.new) result }
    ensures beside { D.beside disk.new ≡ D.beside disk.old }
{
    let segment = first_segment(stem);
    disk.make(&segment)?;
    write_settled(disk, &segment, 0, &[0])
}

/// Makes the first segment count, and settles it.
fn make_on<D: Disk>(disk: &mut D, stem: Stem) -> Result<(), Failed>
    requires keeps { MayKeep D.MARKS_ONLY stem }
    requires prepared { IfSome (D.files disk.old) (IsPrepared stem) }
    ensures made { OnOk result (IfSome (D.files disk.new) (IsFresh stem)) }
    ensures failed { OnErr result (IfSome (D.files disk.new) (IsFreshOrEmpty stem)) }
    ensures atomic { ((image : Files) → D.images disk.old image → IsPrepared stem image) → Acts D.Disk disk.old disk.new (IsFreshOrEmpty stem) }
    ensures settled { OnOk result (Only (D.files disk.new) (D.images disk.new)) }
    ensures others { BothTold (ChangesOnly (on_name stem 1)) (D.files disk.old) (D.files disk.new) }
    ensures cause { HasCause (D.faults disk.old) (D.faults disk.new) result }
    ensures beside { D.beside disk.new ≡ D.beside disk.old }
{
    disk.make(&first_on(stem))?;
    disk.sync()
}

/// Makes the first segment where none counts.
pub fn make_first<D: Disk>(disk: &mut D, stem: Stem) -> Result<(), Failed>
    requires keeps { MayKeep D.MARKS_ONLY stem }
    requires none { IfSome (D.files disk.old) (NoneFrom stem 1) }
    ensures made { OnOk result (IfSome (D.files disk.new) (IsFresh stem)) }
    ensures failed { OnErr result (IfSome (D.files disk.new) (IsFreshOrEmpty stem)) }
    ensures atomic { ((image : Files) → D.images disk.old image → NoneFrom stem 1 image) → Acts D.Disk disk.old disk.new (IsFreshOrEmpty stem) }
    ensures settled { OnOk result (Only (D.files disk.new) (D.images disk.new)) }
    ensures others { BothTold (LeavesOthers stem) (D.files disk.old) (D.files disk.new) }
    ensures cause { HasCause (D.faults disk.old) (D.faults disk.new) result }
    ensures beside { D.beside disk.new ≡ D.beside disk.old }
{
    make_segment(disk, stem)?;
    make_on(disk, stem)
}
