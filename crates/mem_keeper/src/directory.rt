ghost use Rattle.std.specs.Prelude.{◌≡◌, IfOk, IsTrue, option_copied};
ghost use Rattle.std.specs.Option.{option_map};
ghost use Rattle.weed_base.specs.Path.{IsBelow};
ghost use Rattle.name_core.specs.Pages.{child_path, is_child_past, is_past};
ghost use Rattle.mem_keeper.specs.Places.{StandsAt, IsNoneBetween};

use crate::path_order::order;
use crate::places::{Place, Wanted};
use std::alloc::{AllocError, Global};
use std::cmp::Ordering;
use weed_base::{Name, Path};

/// What stands in a directory, by a name past another, if there is one.
#[derive(Drop)]
pub struct Children<'a> {
    pub dir: &'a Path,
    pub after: Option<&'a Name>,
}

impl<'a> Children<'a> {
    /// Whether a path below the directory is past that of the other name.
    fn is_past(&self, alloc: Global, path: &Path) -> Result<bool, AllocError>
        requires { IsBelow path.now self.now.dir.now }
        ensures { IfOk result (λ past. past ≡ is_past (option_map (child_path self.now.dir.now) (option_copied self.now.after)) path.now) }
    {
        let after = match self.after {
            Some(after) => after,
            None => return Ok(true),
        };
        let depth = self.dir.depth() + 1;
        let child = path.prefix(alloc, depth)?;
        match child.name() {
            Some(name) => match after.as_slice().cmp(name) {
                Ordering::Less => Ok(true),
                Ordering::Equal => Ok(path.depth() > depth),
                Ordering::Greater => Ok(false),
            },
            None => unreachable!(),
        }
    }
}

impl<'a> Wanted for Children<'a> {
    ghost belongs = { λ children. is_child_past children.dir.now (option_copied children.after) };

    fn place(&self, alloc: Global, path: &Path) -> Result<Place, AllocError>
        ensures { IfOk result (λ place. StandsAt (is_child_past self.now.dir.now (option_copied self.now.after)) path.now place) }
    {
        if !path.is_below(self.dir) {
            return match order(path, self.dir) {
                Ordering::Less => Ok(Place::Ahead),
                Ordering::Equal => Ok(Place::Ahead),
                Ordering::Greater => Ok(Place::Behind),
            };
        }
        if !self.is_past(alloc, path)? {
            return Ok(Place::Ahead);
        }
        if path.depth() == self.dir.depth() + 1 {
            Ok(Place::Within)
        } else {
            Ok(Place::Apart)
        }
    }

    /// None is wanted between two paths at or below one child.
    fn skips(&self, alloc: Global, least: &Path, most: &Path) -> Result<bool, AllocError>
        ensures { IfOk result (λ skips. IsTrue skips → IsNoneBetween (is_child_past self.now.dir.now (option_copied self.now.after)) least.now most.now) }
    {
        if !least.is_below(self.dir) {
            return Ok(false);
        }
        let child = least.prefix(alloc, self.dir.depth() + 1)?;
        Ok(most.is_below(&child))
    }
}
