ghost use Rattle.std.specs.Prelude.{◌≡◌, ◌+◌, ◌≤◌, ℕ, List, length};
ghost use Rattle.needle.specs.Pieces.{IsInPieces, IsWholeTail, Checks, check_sums, tail_verdict};
ghost use Rattle.needle.specs.Reading.{read_at};

use crate::fault::NeedleFault;
use crate::frame::u32_at;
use crate::head::Head;
use crate::parts::Parts;
use crate::reading::refuse_marks;
use crate::version::Version;

/// Refuses a checksum that isn't the one of the data.
pub(crate) fn refuse_other(stored: u32, computed: u32) -> Result<(), NeedleFault>
    ensures { result ≡ check_sums stored computed }
{
    if stored != computed {
        return Err(NeedleFault::ChecksumMismatch { stored, computed });
    }
    Ok(())
}

/// What stands behind data of this checksum: `count` bytes that the size counts, and the stored checksum.
fn check_tail(count: usize, sum: u32, tail: &[u8]) -> Result<(), NeedleFault>
    requires { count + 4 ≤ length tail.now }
    ensures { result ≡ tail_verdict count sum tail.now }
{
    let parts = Parts::behind(&[], &tail[..count]).ok_or(NeedleFault::SizeMismatch)?;
    refuse_marks(parts.flags)?;
    refuse_other(u32_at(count, tail), sum)
}

impl Head {
    /// What `Needle::read` would answer of the item of this head, of data with this checksum and of this tail,
    /// which may go past the item's end. Takes no memory.
    pub fn check(&self, version: Version, sum: u32, tail: &[u8]) -> Result<(), NeedleFault>
        requires { IsWholeTail version self.now tail.now }
        ensures { (text : List ℕ) → IsInPieces self.now sum tail.now text → Checks result (read_at version text) }
    {
        if self.size == 0 {
            return refuse_other(self.data_len, sum);
        }
        if self.data_behind() == 0 {
            return Err(NeedleFault::SizeMismatch);
        }
        check_tail((self.size - 4 - self.data_len) as usize, sum, tail)
    }
}
