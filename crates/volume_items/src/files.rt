ghost use Rattle.std.specs.Prelude.{◌≡◌, ◌+◌, ◌<◌, ◌^◌, IfSome, OnOk, length};
ghost use Rattle.std.specs.Option.{option_map};
ghost use Rattle.weed_base.specs.Told.{HasCause};
ghost use Rattle.weed_base.specs.Files.{BothTold, MayBeNamed, made, removed};
ghost use Rattle.needle.specs.Fields.{AreBytes};
ghost use Rattle.volume_items.specs.Growing.{Appends, EndsAt, KeepsFront};
ghost use Rattle.volume_items.specs.Changes.{ChangesOnly, made_with};

use weed_base::{Disk, Failed, FileName};

/// Makes a file anew, with these bytes.
pub fn make_with<D: Disk>(disk: &mut D, name: &FileName, bytes: &[u8]) -> Result<(), Failed>
    requires { MayBeNamed D.MARKS_ONLY name.now }
    ensures files { OnOk result (D.files disk.new ≡ option_map (made_with name.now bytes.now) (D.files disk.old)) }
    ensures others { BothTold (ChangesOnly name.now) (D.files disk.old) (D.files disk.new) }
    ensures cause { HasCause (D.faults disk.old) (D.faults disk.new) result }
    ensures beside { D.beside disk.new ≡ D.beside disk.old }
{
    disk.make(name)?;
    disk.write_at(name, 0, bytes)
}

/// Makes a file anew and empty, and settles what was made.
pub fn make_settled<D: Disk>(disk: &mut D, name: &FileName) -> Result<(), Failed>
    requires { MayBeNamed D.MARKS_ONLY name.now }
    ensures files { OnOk result (D.files disk.new ≡ option_map (made name.now) (D.files disk.old)) }
    ensures others { BothTold (ChangesOnly name.now) (D.files disk.old) (D.files disk.new) }
    ensures cause { HasCause (D.faults disk.old) (D.faults disk.new) result }
    ensures beside { D.beside disk.new ≡ D.beside disk.old }
{
    disk.make(name)?;
    disk.sync()
}

/// Removes a file, and settles that.
pub fn remove_settled<D: Disk>(disk: &mut D, name: &FileName) -> Result<(), Failed>
    ensures files { OnOk result (D.files disk.new ≡ option_map (removed name.now) (D.files disk.old)) }
    ensures others { BothTold (ChangesOnly name.now) (D.files disk.old) (D.files disk.new) }
    ensures cause { HasCause (D.faults disk.old) (D.faults disk.new) result }
    ensures beside { D.beside disk.new ≡ D.beside disk.old }
{
    disk.remove(name)?;
    disk.sync()
}

/// Writes a piece behind a file's end.
pub fn append_piece<D: Disk>(
    disk: &mut D,
    name: &FileName,
    at: u64,
    piece: &[u8],
) -> Result<(), Failed>
    requires { IfSome (D.files disk.old) (EndsAt name.now at) }
    ensures done { OnOk result (BothTold (Appends name.now piece.now) (D.files disk.old) (D.files disk.new)) }
    ensures ends { OnOk result (IfSome (D.files disk.new) (EndsAt name.now (at + length piece.now))) }
    ensures fits { OnOk result (at + length piece.now < 2 ^ 63) }
    ensures front { BothTold (KeepsFront name.now at) (D.files disk.old) (D.files disk.new) }
    ensures others { BothTold (ChangesOnly name.now) (D.files disk.old) (D.files disk.new) }
    ensures bytes { AreBytes piece.now }
    ensures cause { HasCause (D.faults disk.old) (D.faults disk.new) result }
    ensures beside { D.beside disk.new ≡ D.beside disk.old }
{
    disk.write_at(name, at, piece)
}
