ghost use Rattle.std.specs.Prelude.{◌≡◌, IfOk, IsTrue, option_copied};
ghost use Rattle.name_core.specs.Pages.{is_below_past, is_past};
ghost use Rattle.mem_keeper.specs.Places.{StandsAt, IsNoneBetween};

use crate::path_order::order;
use crate::places::{Place, Wanted};
use std::alloc::{AllocError, Global};
use std::cmp::Ordering;
use weed_base::Path;

/// What stands below a path, and past another, if there is one.
#[derive(Drop)]
pub struct Below<'a> {
    pub top: &'a Path,
    pub after: Option<&'a Path>,
}

impl<'a> Below<'a> {
    /// Whether a path is past the other.
    fn is_past(&self, path: &Path) -> bool
        ensures { result ≡ is_past (option_copied self.now.after) path.now }
    {
        match self.after {
            Some(after) => order(after, path).is_lt(),
            None => true,
        }
    }
}

impl<'a> Wanted for Below<'a> {
    ghost belongs = { λ below. is_below_past below.top.now (option_copied below.after) };

    fn place(&self, _alloc: Global, path: &Path) -> Result<Place, AllocError>
        ensures { IfOk result (λ place. StandsAt (is_below_past self.now.top.now (option_copied self.now.after)) path.now place) }
    {
        if !path.is_below(self.top) {
            return match order(path, self.top) {
                Ordering::Less => Ok(Place::Ahead),
                Ordering::Equal => Ok(Place::Ahead),
                Ordering::Greater => Ok(Place::Behind),
            };
        }
        if self.is_past(path) {
            Ok(Place::Within)
        } else {
            Ok(Place::Ahead)
        }
    }

    fn skips(&self, _alloc: Global, _least: &Path, _most: &Path) -> Result<bool, AllocError>
        ensures { IfOk result (λ skips. IsTrue skips → IsNoneBetween (is_below_past self.now.top.now (option_copied self.now.after)) _least.now _most.now) }
    {
        Ok(false)
    }
}
