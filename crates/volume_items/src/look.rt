ghost use Rattle.std.specs.Prelude.{◌≡◌, ◌+◌, ◌-◌, ◌≤◌, ◌<◌, ◌^◌, ◌↔◌, IsOk, is_ok, ℕ, length, take, drop, IfOk, IfSome, Some};
ghost use Rattle.weed_base.specs.Told.{HasCause};
ghost use Rattle.weed_base.specs.Files.{content};
ghost use Rattle.weed_base.specs.DiskCalls.{Looks};
ghost use Rattle.needle.specs.Fields.{AreBytes};
ghost use Rattle.needle.specs.Layout.{padded};
ghost use Rattle.needle.specs.Pieces.{IsHead, data_behind};
ghost use Rattle.needle.specs.Reading.{read_at};
ghost use Rattle.volume_items.specs.Window.{IsOf, IsSummed};
ghost use Rattle.volume_items.specs.Walk.{HasHead, IsJudged, Meets};

use crate::summing::sum_of;
use crate::window::{ROOM, Window};
use needle::{Head, NeedleFault, Version, padded_len};
use weed_base::{Disk, Failed, FileName};

/// The most data of an item, in bytes.
pub const MOST_DATA: u64 = 33_554_432;

/// The last place at which an item may end.
pub const LAST_END: u64 = (1 << 35) - 8;

/// An item that stands in a file.
#[derive(Clone, Copy, Debug)]
pub struct Seen {
    pub key: u64,
    /// How many bytes its size counts, 0 of a deletion.
    pub size: u32,
    /// How many bytes it takes, padding included.
    pub taken: u64,
}

/// The head at a place.
pub fn head_at<D: Disk>(
    disk: &mut D,
    name: &FileName,
    window: &mut Window,
    place: u64,
) -> Result<Option<Head>, Failed>
    requires of { IfSome (D.files disk.old) (λ files. IsOf (content files name.now) window.old) }
    ensures of { IfOk result (λ _. IfSome (D.files disk.old) (λ files. IsOf (content files name.now) window.new)) }
    ensures head { IfOk result (λ head. IfSome (D.files disk.old) (λ files. HasHead (content files name.now) place head)) }
    ensures looks { Looks D.Disk disk.old disk.new }
    ensures cause { HasCause (D.faults disk.old) (D.faults disk.new) result }
    ensures beside { D.beside disk.new ≡ D.beside disk.old }
{
    window.fill(disk, name, place, Head::LENGTH)?;
    let bytes = window.behind(place);
    if bytes.len() < Head::LENGTH {
        return Ok(None);
    }
    Ok(Some(Head::read(bytes)))
}

/// What is said of an item by what stands behind its data, so many bytes from a place on.
fn check_tail<D: Disk>(
    disk: &mut D,
    name: &FileName,
    window: &mut Window,
    version: Version,
    head: &Head,
    sum: u32,
    place: u64,
    len: usize,
) -> Result<Result<(), NeedleFault>, Failed>
    requires of { IfSome (D.files disk.old) (λ files. IsOf (content files name.now) window.old) }
    requires short { len ≤ 1048576 }
    requires whole { padded version head.now.size ≤ 20 + data_behind head.now + len }
    requires there { IfSome (D.files disk.old) (λ files. place + len ≤ length (content files name.now)) }
    ensures of { IfOk result (λ _. IfSome (D.files disk.old) (λ files. IsOf (content files name.now) window.new)) }
    ensures bytes { IfOk result (λ _. IfSome (D.files disk.old) (λ files. AreBytes (take len (drop place (content files name.now))))) }
    ensures checked { IfOk result (λ verdict. IfSome (D.files disk.old) (λ files. (start : ℕ) → place ≡ start + 20 + data_behind head.now
        → IsHead (drop start (content files name.now)) head.now → IsSummed (content files name.now) (start + 20) (data_behind head.now) sum
        → IsOk verdict ↔ IsOk (read_at version (drop start (content files name.now))))) }
    ensures looks { Looks D.Disk disk.old disk.new }
    ensures cause { HasCause (D.faults disk.old) (D.faults disk.new) result }
    ensures beside { D.beside disk.new ≡ D.beside disk.old }
{
    window.fill(disk, name, place, len)?;
    let tail = window.behind(place);
    if tail.len() < len {
        return Ok(Err(NeedleFault::Truncated));
    }
    Ok(head.check(version, sum, &tail[..len]))
}

/// What is said of the item of a head at a place, whose bytes are all looked at.
pub fn judge<D: Disk>(
    disk: &mut D,
    name: &FileName,
    window: &mut Window,
    version: Version,
    place: u64,
    head: &Head,
) -> Result<Result<(), NeedleFault>, Failed>
    requires of { IfSome (D.files disk.old) (λ files. IsOf (content files name.now) window.old) }
    requires head { IfSome (D.files disk.old) (λ files. HasHead (content files name.now) place (Some head.now)) }
    requires there { IfSome (D.files disk.old) (λ files. place + padded version head.now.size ≤ length (content files name.now)) }
    requires within { place + padded version head.now.size ≤ 2 ^ 35 - 8 }
    ensures of { IfOk result (λ _. IfSome (D.files disk.old) (λ files. IsOf (content files name.now) window.new)) }
    ensures judged { IfOk result (λ verdict. IfSome (D.files disk.old) (λ files. IsJudged version (content files name.now) place (padded version head.now.size) (is_ok verdict))) }
    ensures looks { Looks D.Disk disk.old disk.new }
    ensures cause { HasCause (D.faults disk.old) (D.faults disk.new) result }
    ensures beside { D.beside disk.new ≡ D.beside disk.old }
{
    let len = u64::from(head.data_behind());
    let start = place + Head::LENGTH as u64;
    let tail = padded_len(head.size, version) - Head::LENGTH as u64 - len;
    let sum = sum_of(disk, name, window, start, len)?;
    if tail > ROOM as u64 {
        let _ = sum_of(disk, name, window, start + len, tail)?;
        return Ok(Err(NeedleFault::SizeMismatch));
    }
    let verdict = check_tail(
        disk,
        name,
        window,
        version,
        head,
        sum,
        start + len,
        tail as usize,
    )?;
    if len > MOST_DATA {
        return Ok(Err(NeedleFault::SizeMismatch));
    }
    Ok(verdict)
}

/// What stands at a place of a file of so many bytes: an item, or `None`.
pub fn look<D: Disk>(
    disk: &mut D,
    name: &FileName,
    window: &mut Window,
    version: Version,
    place: u64,
    len: u64,
) -> Result<Option<Seen>, Failed>
    requires of { IfSome (D.files disk.old) (λ files. IsOf (content files name.now) window.old) }
    requires len { IfSome (D.files disk.old) (λ files. len ≡ length (content files name.now)) }
    ensures of { IfOk result (λ _. IfSome (D.files disk.old) (λ files. IsOf (content files name.now) window.new)) }
    ensures meets { IfOk result (λ seen. IfSome (D.files disk.old) (λ files. Meets version (content files name.now) place seen)) }
    ensures within { IfOk result (λ seen. IfSome seen (λ seen. (place + seen.taken ≤ 2 ^ 35 - 8) × (24 ≤ seen.taken))) }
    ensures taken { IfOk result (λ seen. IfSome seen (λ seen. seen.taken ≡ padded version seen.size)) }
    ensures looks { Looks D.Disk disk.old disk.new }
    ensures cause { HasCause (D.faults disk.old) (D.faults disk.new) result }
    ensures beside { D.beside disk.new ≡ D.beside disk.old }
{
    let head = match head_at(disk, name, window, place)? {
        Some(head) => head,
        None => return Ok(None),
    };
    let taken = padded_len(head.size, version);
    if taken > len.min(LAST_END).saturating_sub(place) {
        return Ok(None);
    }
    match judge(disk, name, window, version, place, &head)? {
        Ok(()) => Ok(Some(Seen {
            key: head.key,
            size: head.size,
            taken,
        })),
        Err(_) => Ok(None),
    }
}
