ghost use Rattle.std.specs.Prelude.{◌≡◌, List, ℕ, Option};
ghost use Rattle.weed_base.specs.Told.{Writes, HasWriteCause};

use crate::course::Course;
use crate::source::Failed;

/// What bytes are written to.
pub trait Sink: Course {
    /// The bytes written, where told.
    ghost written: { Self → Option (List ℕ) };

    /// How many writes failed.
    ghost faults: { Self → ℕ };

    /// What stands beside the sink.
    ghost Beside: { Type 0 };

    /// What stands beside it now. No write changes it.
    ghost beside: { Self → Beside };

    /// Writes first bytes of the piece, and answers how many. Taking nothing of a piece that isn't empty
    /// counts as a failed write.
    fn write(&mut self, piece: &[u8]) -> Result<usize, Failed>
        ensures bytes { Writes (written self.old) (written self.new) result piece.now }
        ensures cause { HasWriteCause (faults self.old) (faults self.new) result piece.now }
        ensures beside { beside self.new ≡ beside self.old }
        ensures course { (start : Self) → Self.course start self.old → Self.course start self.new };
}
