ghost use Rattle.std.specs.Prelude.{◌≡◌, ◌≢◌, ◌++◌, [], is_some, IfOk, IfSome, IsErrOf, OnOk};
ghost use Rattle.std.specs.FinMap.{get};
ghost use Rattle.weed_base.specs.Told.{IsCauseOf};
ghost use Rattle.entry.specs.Entry.{IsValid};
ghost use Rattle.name_core.specs.Plan.{first_file, prefixes, Changes};
ghost use Rattle.name_core.specs.RecordText.{directory_of};
ghost use Rattle.name_plans.specs.Makeable.{AreMakeable};
ghost use Rattle.name_plans.specs.Placing.{cleared, dropping, has_already, placing, putting, replacing};

use crate::way::{directory_above, way_to};
use crate::writing::is_directory_there;
use entry::Entry;
use name_core::{Change, KeeperFault, Names, PlanFault, RecordChanges, Refusal};
use records::is_same_entry;
use std::alloc::{AllocError, Global};
use weed_base::Path;

/// What it takes to have the entry at a path, whatever stands in its way: a drop of the first ancestor that is a
/// file, a new directory at each ancestor that is missing then, a drop of the path where it is a directory and the
/// entry a file, and a put of the entry unless the path has it already. The view is only read. `RootFixed` where the
/// path is the root.
pub fn plan_place<V: Names>(
    alloc: Global,
    view: &mut V,
    path: &Path,
    entry: &Entry,
    time: u64,
) -> Result<RecordChanges, PlanFault>
    requires { IsValid entry.now }
    ensures changes { IfSome (V.map view.old) (λ names. Changes (placing names time path.now entry.now) result) }
    ensures map { V.map view.new ≡ V.map view.old }
    ensures beside { V.beside view.new ≡ V.beside view.old }
    ensures cause { IsCauseOf (V.faults view.old) (V.faults view.new) (IsErrOf result PlanFault.KeeperFault) }
    ensures makeable { IfOk result AreMakeable }
{
    if path.depth() == 0 {
        return Err(PlanFault::Refused(Refusal::RootFixed));
    }
    let directory = directory_above(alloc, path)?;
    let way = way_to(alloc, view, &directory, time)?;
    let there = entry_there(alloc, view, path, way.clears)?;
    Ok(placed_behind(alloc, way.changes, path, there, entry)?)
}

/// What is at a path once no file is above it; nothing where one is dropped for that.
fn entry_there<V: Names>(
    alloc: Global,
    view: &mut V,
    path: &Path,
    clears: bool,
) -> Result<Option<Entry>, KeeperFault>
    ensures there { IfOk result (λ there. IfSome (V.map view.old) (λ names. clears ≡ is_some (first_file names (prefixes (directory_of path.now))) → there ≡ get (cleared names (directory_of path.now)) path.now)) }
    ensures map { V.map view.new ≡ V.map view.old }
    ensures beside { V.beside view.new ≡ V.beside view.old }
    ensures cause { IsCauseOf (V.faults view.old) (V.faults view.new) (IsErrOf result KeeperFault.Failed) }
{
    if clears {
        return Ok(None);
    }
    view.find(alloc, path)
}

/// The changes with those behind them that have the entry at the path, where this is there.
fn placed_behind(
    alloc: Global,
    changes: RecordChanges,
    path: &Path,
    there: Option<Entry>,
    entry: &Entry,
) -> Result<RecordChanges, AllocError>
    ensures { IfOk result (λ made. made ≡ changes ++ replacing path.now there entry.now) }
{
    let mut made = changes.into_vec();
    push_drop(alloc, &mut made, path, &there, entry)?;
    push_put(alloc, &mut made, path, &there, entry)?;
    Ok(RecordChanges::of(made))
}

/// A drop of the path where a directory gives way to a file.
fn push_drop(
    alloc: Global,
    changes: &mut Vec<Change>,
    path: &Path,
    there: &Option<Entry>,
    entry: &Entry,
) -> Result<(), AllocError>
    ensures { OnOk result (changes.new.items ≡ changes.old.items ++ dropping path.now there.now entry.now) }
{
    if is_directory_there(there) && entry.is_file() {
        changes.push(Change::Drop(path.copy(alloc)?))?;
    }
    Ok(())
}

/// A put of the entry, unless it is there.
fn push_put(
    alloc: Global,
    changes: &mut Vec<Change>,
    path: &Path,
    there: &Option<Entry>,
    entry: &Entry,
) -> Result<(), AllocError>
    ensures { OnOk result (changes.new.items ≡ changes.old.items ++ putting path.now there.now entry.now) }
{
    if stands_already(there, entry) {
        return Ok(());
    }
    changes.push(Change::Put(path.copy(alloc)?, entry.copy(alloc)?))?;
    Ok(())
}

fn stands_already(there: &Option<Entry>, entry: &Entry) -> bool
    ensures { result ≡ has_already there.now entry.now }
{
    match there {
        Some(there) => is_same_entry(there, entry),
        None => false,
    }
}
