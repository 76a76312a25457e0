ghost use Rattle.std.specs.Prelude.{◌≡◌, ◌+◌, ◌<◌, ◌≤◌, ◌^◌, ℕ, List, length, take, drop, IfOk, IfSome, ◌++◌};
ghost use Rattle.weed_base.specs.Told.{HasCause};
ghost use Rattle.weed_base.specs.Files.{content};
ghost use Rattle.weed_base.specs.DiskCalls.{Looks};
ghost use Rattle.needle.specs.Running.{IsRunOf};
ghost use Rattle.needle.specs.Fields.{AreBytes};
ghost use Rattle.volume_items.specs.Window.{IsOf, IsSummed, IsSummedSoFar};

use crate::window::{ROOM, Window};
use needle::Checksum;
use weed_base::{Disk, Failed, FileName};

/// Takes the next bytes, at most `left`, and answers how many.
fn add_piece<D: Disk>(
    disk: &mut D,
    name: &FileName,
    window: &mut Window,
    at: u64,
    left: u64,
    sum: &mut Checksum,
) -> Result<u64, Failed>
    requires of { IfSome (D.files disk.old) (λ files. IsOf (content files name.now) window.old) }
    requires some { 0 < left }
    requires there { IfSome (D.files disk.old) (λ files. at + left ≤ length (content files name.now)) }
    ensures of { IfOk result (λ _. IfSome (D.files disk.old) (λ files. IsOf (content files name.now) window.new)) }
    ensures some { IfOk result (λ taken. IfSome (D.files disk.old) (λ _. 0 < taken)) }
    ensures few { IfOk result (λ taken. taken ≤ left) }
    ensures sum { IfOk result (λ taken. IfSome (D.files disk.old) (λ files. (place done : ℕ) → at ≡ place + done
        → IsSummedSoFar (content files name.now) place done sum.old → IsSummedSoFar (content files name.now) place (done + taken) sum.new)) }
    ensures looks { Looks D.Disk disk.old disk.new }
    ensures cause { HasCause (D.faults disk.old) (D.faults disk.new) result }
    ensures beside { D.beside disk.new ≡ D.beside disk.old }
{
    window.fill(disk, name, at, left.min(ROOM as u64) as usize)?;
    let bytes = window.behind(at);
    let taken = left.min(bytes.len() as u64);
    sum.add(&bytes[..taken as usize]);
    Ok(taken)
}

/// The checksum of so many bytes of a file from a place on. Takes no memory.
pub fn sum_of<D: Disk>(
    disk: &mut D,
    name: &FileName,
    window: &mut Window,
    at: u64,
    len: u64,
) -> Result<u32, Failed>
    requires of { IfSome (D.files disk.old) (λ files. IsOf (content files name.now) window.old) }
    requires there { IfSome (D.files disk.old) (λ files. at + len ≤ length (content files name.now)) }
    requires fits { at + len < 2 ^ 64 }
    ensures of { IfOk result (λ _. IfSome (D.files disk.old) (λ files. IsOf (content files name.now) window.new)) }
    ensures sum { IfOk result (λ sum. IfSome (D.files disk.old) (λ files. IsSummed (content files name.now) at len sum)) }
    ensures looks { Looks D.Disk disk.old disk.new }
    ensures cause { HasCause (D.faults disk.old) (D.faults disk.new) result }
    ensures beside { D.beside disk.new ≡ D.beside disk.old }
{
    let mut sum = Checksum::new();
    let mut left = len;
    while left > 0 {
        let taken = add_piece(disk, name, window, at + (len - left), left, &mut sum)?;
        if taken == 0 {
            break;
        }
        left -= taken;
    }
    Ok(sum.value())
}
