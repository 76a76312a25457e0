ghost use Rattle.std.specs.Prelude.{◌≡◌, ◌≤◌, ◌<◌, ◌+◌, ◌^◌, length, IfSome, OnOk, MatchResult};
ghost use Rattle.std.specs.Option.{option_map};
ghost use Rattle.weed_base.specs.Told.{HasCause};
ghost use Rattle.weed_base.specs.Files.{IsWithin, written, MayWrite, BothTold};
ghost use Rattle.weed_base.specs.Images.{Only, Tears};
ghost use Rattle.weed_base.specs.DiskCalls.{Acts};
ghost use Rattle.meta_log.specs.Images.{ComesBy};
ghost use Rattle.meta_log.specs.LogText.{ChangesOnly};

use weed_base::{Disk, Failed, FileName};

/// Writes a piece and settles it, by two calls of the disk at most.
pub fn write_settled<D: Disk>(
    disk: &mut D,
    name: &FileName,
    at: u64,
    piece: &[u8],
) -> Result<(), Failed>
    requires { IfSome (D.files disk.old) (IsWithin name.now at) }
    ensures files { MatchResult result
        (λ _. D.files disk.new ≡ option_map (written name.now at piece.now) (D.files disk.old))
        (λ _. BothTold (MayWrite name.now at piece.now) (D.files disk.old) (D.files disk.new)) }
    ensures atomic { Acts D.Disk disk.old disk.new (ComesBy (Tears name.now at (length piece.now)) (D.images disk.old)) }
    ensures settled { OnOk result (Only (D.files disk.new) (D.images disk.new)) }
    ensures calls { D.tick disk.new ≤ D.tick disk.old + 2 }
    ensures others { BothTold (ChangesOnly name.now) (D.files disk.old) (D.files disk.new) }
    ensures bound { OnOk result (at + length piece.now < 2 ^ 63) }
    ensures cause { HasCause (D.faults disk.old) (D.faults disk.new) result }
    ensures beside { D.beside disk.new ≡ D.beside disk.old }
{
    disk.write_at(name, at, piece)?;
    disk.sync()
}
