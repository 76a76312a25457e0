ghost use Rattle.std.specs.Prelude.{ℕ, Bool, List, IfOk, IsTrue};
ghost use Rattle.mem_keeper.specs.Places.{StandsAt, IsNoneBetween};

use std::alloc::{AllocError, Global};
use weed_base::Path;

/// Where a path stands beside those that are wanted, in the order of paths.
#[derive(Clone, Copy, Debug, PartialEq, Eq)]
pub enum Place {
    /// It isn't wanted, nor is any before it.
    Ahead,
    /// It is wanted.
    Within,
    /// It isn't wanted.
    Apart,
    /// It isn't wanted, nor is any behind it.
    Behind,
}

/// What tells which paths are wanted.
pub trait Wanted {
    /// Whether a path is.
    ghost belongs: { Self → List (List ℕ) → Bool };

    /// Where a path stands beside these.
    fn place(&self, alloc: Global, path: &Path) -> Result<Place, AllocError>
        ensures { IfOk result (λ place. StandsAt (belongs self.now) path.now place) };

    /// Whether it is known that none is wanted of the paths between two.
    fn skips(&self, alloc: Global, least: &Path, most: &Path) -> Result<bool, AllocError>
        ensures { IfOk result (λ skips. IsTrue skips → IsNoneBetween (belongs self.now) least.now most.now) };
}
