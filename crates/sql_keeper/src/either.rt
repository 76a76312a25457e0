ghost use Rattle.std.specs.Prelude.{◌≡◌, ◌^◌, Some};
ghost use Rattle.std.specs.FinMap.{empty};
ghost use Rattle.sql_keeper.specs.Either.{named_at, names_told, spare_of};

use crate::keeper::SqlKeeper;
use entry::Entry;
use filer_keeper::Keeper;
use mem_keeper::MemKeeper;
use name_core::{KeeperFault, Names, Record};
use std::alloc::Global;
use weed_base::{Failed, Name, Path, Word};

/// Where a keeper has its names.
#[derive(Clone, Copy, Debug, PartialEq, Eq)]
pub enum Place {
    Memory,
    Sqlite,
}

/// A keeper in memory or in a database in memory, as its word says: `sqlite`, or `memory`.
#[derive(Drop)]
pub struct EitherKeeper {
    place: Place,
    memory: MemKeeper,
    sqlite: SqlKeeper,
}

impl EitherKeeper {
    /// A keeper of no names in memory. Takes no memory.
    pub fn new(alloc: Global) -> EitherKeeper
        ensures { names_told result ≡ Some empty }
    {
        EitherKeeper {
            place: Place::Memory,
            memory: MemKeeper::new(alloc),
            sqlite: SqlKeeper::new(alloc),
        }
    }
}

impl Names for EitherKeeper {
    ghost map = { names_told };

    ghost faults = { λ keeper. keeper.sqlite.faults };

    ghost Beside = { Unit {0} };

    ghost beside = { λ _. tt };

    fn find(&mut self, alloc: Global, path: &Path) -> Result<Option<Entry>, KeeperFault> {
        match self.place {
            Place::Memory => self.memory.find(alloc, path),
            Place::Sqlite => self.sqlite.find(alloc, path),
        }
    }

    fn children_after(
        &mut self,
        alloc: Global,
        dir: &Path,
        after: Option<&Name>,
        room: u32,
    ) -> Result<Vec<(Name, Entry)>, KeeperFault> {
        match self.place {
            Place::Memory => self.memory.children_after(alloc, dir, after, room),
            Place::Sqlite => self.sqlite.children_after(alloc, dir, after, room),
        }
    }

    fn below_after(
        &mut self,
        alloc: Global,
        top: &Path,
        after: Option<&Path>,
        room: u32,
    ) -> Result<Vec<(Path, Entry)>, KeeperFault> {
        match self.place {
            Place::Memory => self.memory.below_after(alloc, top, after, room),
            Place::Sqlite => self.sqlite.below_after(alloc, top, after, room),
        }
    }

    ghost are_named = { λ keeper. named_at keeper.place keeper.memory.names keeper.memory.kept };
}

impl Keeper for EitherKeeper {
    ghost spare = { spare_of };

    fn attach(&mut self, kind: &Word) -> Result<(), Failed> {
        if kind.as_slice() == b"sqlite".as_slice() {
            self.place = Place::Sqlite;
            self.sqlite.attach(kind)
        } else {
            self.place = Place::Memory;
            Ok(())
        }
    }

    fn clear(&mut self) -> Result<(), Failed> {
        match self.place {
            Place::Memory => self.memory.clear(),
            Place::Sqlite => self.sqlite.clear(),
        }
    }

    fn reserve(&mut self, puts: u32) -> Result<(), KeeperFault> {
        match self.place {
            Place::Memory => self.memory.reserve(puts),
            Place::Sqlite => self.sqlite.reserve(puts),
        }
    }

    fn commit(&mut self, step: Record) -> Result<(), Failed> {
        match self.place {
            Place::Memory => self.memory.commit(step),
            Place::Sqlite => self.sqlite.commit(step),
        }
    }
}
