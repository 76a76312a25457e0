ghost use Rattle.std.specs.Prelude.{◌≡◌, ◌≢◌, [], ◌≤◌, ◌<◌, ◌+◌, All, length};
ghost use Rattle.std.specs.FinMap.{empty, from_entries};
ghost use Rattle.name_core.specs.Namespace.{after_changes, is_within, step};
ghost use Rattle.name_core.specs.Pages.{AreNamed};
ghost use Rattle.weed_command.specs.KeptNames.{MayBeMade};
ghost use Rattle.std.proofs.Props.{props};

use entry::Entry;
use name_core::{Change, KeeperFault, Names, RecordChanges};
use std::alloc::{AllocError, Global};
use std::collections::HashMap;
use weed_base::{Name, Path};

/// The path is the top, or below it.
#[tactic(auto, using(crate::proofs::NameLemmas::within_is))]
fn stands_within(path: &Path, top: &Path) -> bool
    ensures { result ≡ is_within top.now path.now }
{
    let is_top = path.is(top);
    let is_below = path.is_below(top);
    is_top || is_below
}

/// A namespace in memory: each entry by its path.
#[derive(Debug, Drop)]
pub struct NameTable {
    entries: HashMap<Path, Entry>,
    ghost kept: { AreNamed (from_entries entries.entries) } by { Prim.hlevel props },
}

impl NameTable {
    ghost use Rattle.std.specs.Prelude.{OnOk};
    ghost use Rattle.name_core.specs.declared.change.Change.TheVariants.{Drop, Put};
    ghost use Rattle.entry.specs.Entry.{IsValid};
    ghost use Rattle.weed_command.specs.NameTable.{names_of, spare_of};

    /// No names. Takes no memory.
    pub fn new(alloc: Global) -> NameTable
        ensures { names_of result ≡ empty }
    {
        NameTable {
            entries: HashMap::new(alloc),
        }
    }

    /// Takes the memory for so many changes. The names stay, whatever the answer.
    pub fn reserve(&mut self, count: usize) -> Result<(), AllocError>
        ensures spare { OnOk result (count ≤ spare_of self.new) }
        ensures names { names_of self.new ≡ names_of self.old }
    {
        self.entries.reserve(count)
    }

    /// Makes a record's changes, in order. Takes no memory.
    pub fn commit(&mut self, changes: RecordChanges)
        requires spare { length changes ≤ spare_of self.old }
        requires kept { All MayBeMade changes }
        ensures { names_of self.new ≡ after_changes changes (names_of self.old) }
    {
        for change in changes.into_vec() {
            self.make(change);
        }
    }

    fn make(&mut self, change: Change)
        requires spare { 0 < spare_of self.old }
        requires kept { MayBeMade change }
        ensures names { names_of self.new ≡ step change (names_of self.old) }
        ensures spare { spare_of self.old ≤ spare_of self.new + 1 }
    {
        match change {
            Change::Put(path, entry) => self.put(path, entry),
            Change::Drop(top) => self.remove_within(&top),
        }
    }

    fn put(&mut self, path: Path, entry: Entry)
        requires spare { 0 < spare_of self.old }
        requires rootless { path ≢ [] }
        requires valid { IsValid entry }
        ensures names { names_of self.new ≡ step (Put path entry) (names_of self.old) }
        ensures spare { spare_of self.old ≤ spare_of self.new + 1 }
    {
        // The text shows that the path is one.
        let _ = path.text();
        let put: Result<_, _> = self.entries.insert(path, entry);
        put.unwrap();
    }

    /// Takes away what is at the top and below it, in time in proportion to all that is there.
    fn remove_within(&mut self, top: &Path)
        ensures names { names_of self.new ≡ step (Drop top.now) (names_of self.old) }
        ensures spare { spare_of self.old ≤ spare_of self.new }
    {
        self.entries.retain(|path, _| !stands_within(path, top));
    }
}

impl Names for NameTable {
    ghost use Rattle.std.specs.Prelude.{None, Some};
    ghost use Rattle.weed_command.specs.NameTable.{names_of};

    ghost map = { λ names. Some (names_of names) };

    ghost faults = { λ _. 0 };

    ghost Beside = { Unit {0} };

    ghost beside = { λ _. tt };

    fn find(&mut self, alloc: Global, path: &Path) -> Result<Option<Entry>, KeeperFault> {
        match self.entries.get(path) {
            Some(entry) => Ok(Some(entry.copy(alloc)?)),
            None => Ok(None),
        }
    }

    /// No command reads pages of this table so far: it has no memory for any.
    fn children_after(
        &mut self,
        alloc: Global,
        dir: &Path,
        after: Option<&Name>,
        room: u32,
    ) -> Result<Vec<(Name, Entry)>, KeeperFault> {
        Err(KeeperFault::Memory)
    }

    /// The same.
    fn below_after(
        &mut self,
        alloc: Global,
        top: &Path,
        after: Option<&Path>,
        room: u32,
    ) -> Result<Vec<(Path, Entry)>, KeeperFault> {
        Err(KeeperFault::Memory)
    }

    ghost are_named = { λ names. names.kept };
}
