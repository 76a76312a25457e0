ghost use Rattle.std.specs.Prelude.{◌≡◌, MatchResult, IfOk, IfSome, IsErr, IsErrOf, IsNone, Ok, [], None, All, option_copied, ◌^◌};
ghost use Rattle.weed_base.specs.Told.{IsCauseOf};
ghost use Rattle.entry.specs.Entry.{IsValid};
ghost use Rattle.name_core.specs.RecordText.{HasValidEntry};
ghost use Rattle.name_core.specs.Pages.{in_directory, is_below_past, is_child_past, IsPage};

use crate::database::Database;
use crate::page::{children, page_of_rows};
use crate::trouble::Trouble;
use entry::Entry;
use filer_keeper::Keeper;
use mem_keeper::{Below, Children};
use name_core::{Change, KeeperFault, Names, Record, RecordChanges};
use std::alloc::Global;
use weed_base::{Failed, Faults, Name, Path, Word};

/// A keeper of a namespace in a database in memory, once it is attached. It doesn't tell its names, and counts each
/// refusal of the database that isn't want of memory as a fault, and each page that no keeper gives.
#[derive(Drop)]
pub struct SqlKeeper {
    alloc: Global,
    database: Option<Database>,
    faults: Faults,
}

/// What a keeper answers where the database gave this.
fn heard<T>(faults: &mut Faults, answer: Result<T, Trouble>) -> Result<T, KeeperFault>
    ensures value { MatchResult answer (λ value. result ≡ Ok value) (λ _. IsErr result) }
    ensures cause { IsCauseOf faults.old faults.new (IsErrOf result KeeperFault.Failed) }
{
    match answer {
        Ok(value) => Ok(value),
        Err(Trouble::Memory) => Err(KeeperFault::Memory),
        Err(Trouble::Refused) => {
            let _ = faults.raise();
            Err(KeeperFault::Failed)
        }
    }
}

impl SqlKeeper {
    /// A keeper that isn't attached. Takes no memory.
    pub fn new(alloc: Global) -> SqlKeeper
        ensures { result.faults ≡ 0 }
    {
        SqlKeeper {
            alloc,
            database: None,
            faults: Faults::new(),
        }
    }

    /// How many calls failed.
    pub fn faults(&self) -> u64
        ensures { result ≡ self.now.faults }
    {
        self.faults.count()
    }
}

fn look(
    database: &mut Option<Database>,
    alloc: Global,
    path: &Path,
) -> Result<Option<Entry>, Trouble>
    ensures root { path.now ≡ [] → IfOk result IsNone }
    ensures valid { IfOk result (λ found. IfSome found IsValid) }
{
    if path.name().is_none() {
        return Ok(None);
    }
    match database {
        Some(database) => database.find(alloc, path),
        None => Err(Trouble::Refused),
    }
}

fn children_in(
    database: &mut Option<Database>,
    alloc: Global,
    dir: &Path,
    after: Option<&Name>,
    room: u32,
) -> Result<Vec<(Name, Entry)>, Trouble>
    ensures { IfOk result (λ page. IsPage room (is_child_past dir.now (option_copied after.entry)) (in_directory dir.now page.items)) }
{
    let rows = match database {
        Some(database) => database.children(alloc, dir, after, room)?,
        None => return Err(Trouble::Refused),
    };
    let wanted = Children { dir, after };
    let page = page_of_rows(alloc, &wanted, room, &rows)?;
    Ok(children(alloc, page)?)
}

fn items_below(
    database: &mut Option<Database>,
    alloc: Global,
    top: &Path,
    after: Option<&Path>,
    room: u32,
) -> Result<Vec<(Path, Entry)>, Trouble>
    ensures { IfOk result (λ page. IsPage room (is_below_past top.now (option_copied after.entry)) page.items) }
{
    let rows = match database {
        Some(database) => database.below(alloc, top, after, room)?,
        None => return Err(Trouble::Refused),
    };
    let wanted = Below { top, after };
    page_of_rows(alloc, &wanted, room, &rows)
}

fn change(database: &mut Database, alloc: Global, change: &Change) -> Result<(), Trouble>
    requires { HasValidEntry change.now }
{
    match change {
        Change::Put(path, entry) => database.put(alloc, path, entry),
        Change::Drop(top) => database.remove_within(alloc, top),
    }
}

fn change_all(
    database: &mut Option<Database>,
    alloc: Global,
    changes: &RecordChanges,
) -> Result<(), Trouble>
    requires { All HasValidEntry changes.now }
{
    let database = match database {
        Some(database) => database,
        None => return Err(Trouble::Refused),
    };
    for step in changes.as_slice() {
        change(database, alloc, step)?;
    }
    Ok(())
}

fn clear(database: &mut Option<Database>) -> Result<(), Trouble> {
    match database {
        Some(database) => database.clear(),
        None => Err(Trouble::Refused),
    }
}

impl Names for SqlKeeper {
    ghost map = { λ _. None };

    ghost faults = { λ keeper. keeper.faults };

    ghost Beside = { Unit {0} };

    ghost beside = { λ _. tt };

    fn find(&mut self, alloc: Global, path: &Path) -> Result<Option<Entry>, KeeperFault> {
        let answer = look(&mut self.database, alloc, path);
        heard(&mut self.faults, answer)
    }

    fn children_after(
        &mut self,
        alloc: Global,
        dir: &Path,
        after: Option<&Name>,
        room: u32,
    ) -> Result<Vec<(Name, Entry)>, KeeperFault> {
        let answer = children_in(&mut self.database, alloc, dir, after, room);
        heard(&mut self.faults, answer)
    }

    fn below_after(
        &mut self,
        alloc: Global,
        top: &Path,
        after: Option<&Path>,
        room: u32,
    ) -> Result<Vec<(Path, Entry)>, KeeperFault> {
        let answer = items_below(&mut self.database, alloc, top, after, room);
        heard(&mut self.faults, answer)
    }

    ghost are_named = { λ _. tt };
}

impl Keeper for SqlKeeper {
    /// No room is asked for ahead.
    ghost spare = { λ _. 2 ^ 64 };

    fn attach(&mut self, _kind: &Word) -> Result<(), Failed> {
        let opened = Database::open(self.alloc);
        self.database = Some(self.faults.note(opened)?);
        Ok(())
    }

    fn clear(&mut self) -> Result<(), Failed> {
        let cleared = clear(&mut self.database);
        self.faults.note(cleared)
    }

    fn reserve(&mut self, _puts: u32) -> Result<(), KeeperFault> {
        Ok(())
    }

    fn commit(&mut self, step: Record) -> Result<(), Failed> {
        let made = change_all(&mut self.database, self.alloc, &step.changes);
        self.faults.note(made)
    }
}
