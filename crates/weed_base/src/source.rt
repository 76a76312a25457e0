ghost use Rattle.std.specs.Prelude.{◌≡◌, List, ℕ, Option};
ghost use Rattle.weed_base.specs.Told.{Reads, HasCause};

use crate::course::Course;
use thiserror::Error;

/// A call of the outside failed, and counted a fault.
#[derive(Clone, Copy, Debug, PartialEq, Eq, Error)]
#[error("a call of the outside failed")]
pub struct Failed;

/// What bytes are read from.
pub trait Source: Course {
    /// The bytes left, where told.
    ghost left: { Self → Option (List ℕ) };

    /// How many reads failed.
    ghost faults: { Self → ℕ };

    /// What stands beside the source.
    ghost Beside: { Type 0 };

    /// What stands beside it now. No read changes it.
    ghost beside: { Self → Beside };

    /// Reads next bytes into `room`, and answers how many. 0 for room that isn't empty is the end.
    fn read(&mut self, room: &mut [u8]) -> Result<usize, Failed>
        ensures bytes { Reads (left self.old) (left self.new) result room.new }
        ensures cause { HasCause (faults self.old) (faults self.new) result }
        ensures beside { beside self.new ≡ beside self.old }
        ensures course { (start : Self) → Self.course start self.old → Self.course start self.new };
}
