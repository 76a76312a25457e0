ghost use Rattle.std.specs.Prelude.{◌≡◌, [], ℕ, Option, IfOk, IfSome, IsNone, IsErrOf, option_copied};
ghost use Rattle.std.specs.FinMap.{get};
ghost use Rattle.weed_base.specs.Told.{IsCauseOf};
ghost use Rattle.entry.specs.Entry.{IsValid};
ghost use Rattle.name_core.specs.Namespace.{Namespace};
ghost use Rattle.name_core.specs.Pages.{in_directory, is_below_past, is_child_past, page_of, AreNamed, IsPage};
ghost use Rattle.name_core.specs.declared.names.KeeperFault.TheVariants.{Memory};

use entry::Entry;
use std::alloc::{AllocError, AllocFailed, Global};
use thiserror::Error;
use weed_base::{Name, Path};

/// Why a keeper gave no answer.
#[derive(Clone, Copy, Debug, PartialEq, Eq, Error)]
pub enum KeeperFault {
    #[error("a call of the keeper failed")]
    Failed,
    #[error("out of memory")]
    Memory,
}

impl From<AllocError> for KeeperFault {
    ghost from_gives = { λ _ fault. fault ≡ Memory };

    fn from(_: AllocError) -> Self {
        KeeperFault::Memory
    }
}

impl<T: Drop> From<AllocFailed<T>> for KeeperFault {
    ghost from_gives = { λ _ fault. fault ≡ Memory };

    fn from(_: AllocFailed<T>) -> Self {
        KeeperFault::Memory
    }
}

/// What tells which entries a namespace has.
pub trait Names {
    /// The namespace, where told.
    ghost map: { Self → Option Namespace };

    /// How many calls failed.
    ghost faults: { Self → ℕ };

    /// What stands beside the names.
    ghost Beside: { Type 0 };

    /// What stands beside them now. No call changes it.
    ghost beside: { Self → Beside };

    /// The entry at a path; none for the root, which is always a directory and is never in the map.
    fn find(&mut self, alloc: Global, path: &Path) -> Result<Option<Entry>, KeeperFault>
        ensures found { IfOk result (λ found. IfSome (map self.old) (λ names. found ≡ get names path.now)) }
        ensures root { path.now ≡ [] → IfOk result IsNone }
        ensures valid { IfOk result (λ found. IfSome found IsValid) }
        ensures map { map self.new ≡ map self.old }
        ensures beside { beside self.new ≡ beside self.old }
        ensures cause { IsCauseOf (faults self.old) (faults self.new) (IsErrOf result KeeperFault.Failed) };

    /// The first `room` entries that stand in a directory, by their names in it, with names past `after`, in byte
    /// order.
    fn children_after(
        &mut self,
        alloc: Global,
        dir: &Path,
        after: Option<&Name>,
        room: u32,
    ) -> Result<Vec<(Name, Entry)>, KeeperFault>
        ensures first { IfOk result (λ page. IfSome (map self.old) (λ names.
            in_directory dir.now page.items ≡ page_of names room (is_child_past dir.now (option_copied after.entry)))) }
        ensures page { IfOk result (λ page. IsPage room (is_child_past dir.now (option_copied after.entry)) (in_directory dir.now page.items)) }
        ensures map { map self.new ≡ map self.old }
        ensures beside { beside self.new ≡ beside self.old }
        ensures cause { IsCauseOf (faults self.old) (faults self.new) (IsErrOf result KeeperFault.Failed) };

    /// The first `room` entries below a path that stand past `after`, in the order of paths.
    fn below_after(
        &mut self,
        alloc: Global,
        top: &Path,
        after: Option<&Path>,
        room: u32,
    ) -> Result<Vec<(Path, Entry)>, KeeperFault>
        ensures first { IfOk result (λ page. IfSome (map self.old) (λ names.
            page.items ≡ page_of names room (is_below_past top.now (option_copied after.entry)))) }
        ensures page { IfOk result (λ page. IsPage room (is_below_past top.now (option_copied after.entry)) page.items) }
        ensures map { map self.new ≡ map self.old }
        ensures beside { beside self.new ≡ beside self.old }
        ensures cause { IsCauseOf (faults self.old) (faults self.new) (IsErrOf result KeeperFault.Failed) };

    /// Each name told stands at a path other than the root, and is valid.
    ghost are_named: { (names : Self) → IfSome (map names) AreNamed };
}
