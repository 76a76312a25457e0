ghost use Rattle.std.specs.Prelude.{◌≡◌, ◌≢◌, ◌+◌, ◌-◌, ◌≤◌, ◌<◌, ◌^◌, ◌⊎◌, IfOk, IfErr, IfSome, IsErrOf, OnErr, OnOk, length};
ghost use Rattle.weed_base.specs.Told.{IsCauseOf};
ghost use Rattle.weed_base.specs.Files.{BothTold, content};
ghost use Rattle.volume_items.specs.Growing.{EndsAt};
ghost use Rattle.volume_items.specs.Copying.{Copies, IsLost};
ghost use Rattle.volume_items.specs.Changes.{ChangesOnly};
ghost use Rattle.volume_items.specs.Window.{IsOf};

use crate::fault::{VolumeFault, no_item};
use crate::files::append_piece;
use crate::window::{ROOM, Window};
use weed_base::{Disk, FileName};

/// Copies the next bytes of a file, at most `left`, behind another one's end, and answers how many are left then.
fn copy_piece<D: Disk>(
    disk: &mut D,
    from: &FileName,
    to: &FileName,
    window: &mut Window,
    at: u64,
    end: u64,
    left: u64,
) -> Result<u64, VolumeFault>
    requires apart { from.now ≢ to.now }
    requires some { 0 < left }
    requires of { IfSome (D.files disk.old) (λ files. IsOf (content files from.now) window.old) }
    requires there { IfSome (D.files disk.old) (λ files. at + left ≤ length (content files from.now)) }
    requires ends { IfSome (D.files disk.old) (EndsAt to.now end) }
    ensures copied { IfOk result (λ rest. BothTold (Copies from.now to.now at (left - rest)) (D.files disk.old) (D.files disk.new)) }
    ensures of { IfOk result (λ _. IfSome (D.files disk.old) (λ files. IsOf (content files from.now) window.new)) }
    ensures fewer { IfOk result (λ rest. rest < left) }
    ensures lost { IfErr result (IsLost (D.files disk.old)) }
    ensures others { BothTold (ChangesOnly to.now) (D.files disk.old) (D.files disk.new) }
    ensures cause { IsCauseOf (D.faults disk.old) (D.faults disk.new) (IsErrOf result VolumeFault.DiskFault) }
    ensures beside { D.beside disk.new ≡ D.beside disk.old }
{
    window.fill(disk, from, at, left.min(ROOM as u64) as usize)?;
    let bytes = window.behind(at);
    let taken = left.min(bytes.len() as u64);
    if taken == 0 {
        return Err(no_item(at));
    }
    append_piece(disk, to, end, &bytes[..taken as usize])?;
    Ok(left - taken)
}

/// Copies so many bytes of a file from a place on behind another one's end, in pieces. Takes no memory.
pub fn copy_bytes<D: Disk>(
    disk: &mut D,
    from: &FileName,
    to: &FileName,
    window: &mut Window,
    at: u64,
    end: u64,
    len: u64,
) -> Result<(), VolumeFault>
    requires apart { from.now ≢ to.now }
    requires fits { at + len < 2 ^ 64 }
    requires room { end + len < 2 ^ 64 }
    requires of { IfSome (D.files disk.old) (λ files. IsOf (content files from.now) window.old) }
    requires there { IfSome (D.files disk.old) (λ files. at + len ≤ length (content files from.now)) }
    requires ends { IfSome (D.files disk.old) (EndsAt to.now end) }
    ensures copied { OnOk result (BothTold (Copies from.now to.now at len) (D.files disk.old) (D.files disk.new)) }
    ensures of { OnOk result (IfSome (D.files disk.old) (λ files. IsOf (content files from.now) window.new)) }
    ensures lost { IfErr result (IsLost (D.files disk.old)) }
    ensures others { BothTold (ChangesOnly to.now) (D.files disk.old) (D.files disk.new) }
    ensures cause { IsCauseOf (D.faults disk.old) (D.faults disk.new) (IsErrOf result VolumeFault.DiskFault) }
    ensures beside { D.beside disk.new ≡ D.beside disk.old }
{
    let mut left = len;
    while left > 0 {
        let done = len - left;
        left = copy_piece(disk, from, to, window, at + done, end + done, left)?;
    }
    Ok(())
}
