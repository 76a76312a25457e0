ghost use Rattle.std.specs.Prelude.{◌≡◌, ◌≢◌, ◌≤◌, ◌+◌, ◌∷◌, [], Some, OnOk};
ghost use Rattle.std.specs.FinMap.{empty};
ghost use Rattle.name_core.specs.Namespace.{after_changes, path_of, step};
ghost use Rattle.name_core.specs.RecordText.{HasValidEntry};
ghost use Rattle.name_core.specs.Pages.{AreNamed};
ghost use Rattle.filer_keeper.specs.Commit.{MayBeMade, put_count};
ghost use Rattle.std.proofs.Props.{props};

use crate::names::NameTree;
use crate::spares::Spares;
use entry::Entry;
use filer_keeper::Keeper;
use name_core::{Change, KeeperFault, Names, Record, RecordChanges};
use std::alloc::Global;
use weed_base::{Failed, Name, Path, Word};

/// A keeper of a namespace in memory: it never fails, and a commit takes no memory.
#[derive(Debug, Drop)]
pub struct MemKeeper {
    alloc: Global,
    names: NameTree,
    spares: Spares,
    ghost kept: { AreNamed names } by { Prim.hlevel props },
}

impl MemKeeper {
    /// A keeper of no names. Takes no memory.
    pub fn new(alloc: Global) -> MemKeeper
        ensures names { result.names ≡ empty }
        ensures spare { result.spares ≡ 0 }
    {
        MemKeeper {
            alloc,
            names: NameTree::new(),
            spares: Spares::new(alloc),
        }
    }

    fn make(&mut self, change: Change)
        requires rootless { path_of change ≢ [] }
        requires valid { HasValidEntry change }
        requires spare { put_count (change ∷ []) ≤ self.old.spares }
        ensures names { self.new.names ≡ step change self.old.names }
        ensures spare { self.old.spares ≤ self.new.spares + put_count (change ∷ []) }
    {
        match change {
            Change::Put(path, entry) => {
                let node = self.spares.take(path, entry);
                self.names.put(node);
            }
            Change::Drop(top) => self.names.remove_within(&top),
        }
    }

    fn make_all(&mut self, changes: RecordChanges)
        requires spare { put_count changes ≤ self.old.spares }
        requires changes { MayBeMade changes }
        ensures { self.new.names ≡ after_changes changes self.old.names }
    {
        for change in changes.into_vec() {
            self.make(change);
        }
    }
}

impl Names for MemKeeper {
    ghost map = { λ keeper. Some keeper.names };

    ghost faults = { λ _. 0 };

    ghost Beside = { Unit {0} };

    ghost beside = { λ _. tt };

    fn find(&mut self, alloc: Global, path: &Path) -> Result<Option<Entry>, KeeperFault> {
        Ok(self.names.find(alloc, path)?)
    }

    fn children_after(
        &mut self,
        alloc: Global,
        dir: &Path,
        after: Option<&Name>,
        room: u32,
    ) -> Result<Vec<(Name, Entry)>, KeeperFault> {
        Ok(self.names.children_after(alloc, dir, after, room)?)
    }

    fn below_after(
        &mut self,
        alloc: Global,
        top: &Path,
        after: Option<&Path>,
        room: u32,
    ) -> Result<Vec<(Path, Entry)>, KeeperFault> {
        Ok(self.names.below_after(alloc, top, after, room)?)
    }

    ghost are_named = { λ keeper. keeper.kept };
}

impl Keeper for MemKeeper {
    ghost spare = { λ keeper. keeper.spares };

    fn attach(&mut self, _kind: &Word) -> Result<(), Failed> {
        Ok(())
    }

    fn clear(&mut self) -> Result<(), Failed> {
        self.names = NameTree::new();
        Ok(())
    }

    fn reserve(&mut self, puts: u32) -> Result<(), KeeperFault> {
        Ok(self.spares.reserve(self.alloc, puts as usize)?)
    }

    fn commit(&mut self, step: Record) -> Result<(), Failed> {
        let Record { changes, .. } = step;
        self.make_all(changes);
        Ok(())
    }
}
