ghost use Rattle.std.specs.Prelude.{◌≡◌, ◌≢◌, ◌<◌, ◌∷◌, ◌++◌, [], Bool, true, IsTrue, drop, take, length, is_some, IfOk, IfSome, IsErrOf, OnOk};
ghost use Rattle.std.specs.FinMap.{get};
ghost use Rattle.weed_base.specs.Told.{IsCauseOf};
ghost use Rattle.entry.specs.Entry.{IsValid};
ghost use Rattle.name_core.specs.Namespace.{Namespace};
ghost use Rattle.name_core.specs.declared.change.Change.TheVariants.{Drop};
ghost use Rattle.name_core.specs.Plan.{first_file, prefixes, prefixes_from, puts};
ghost use Rattle.name_core.specs.RecordText.{directory_of};
ghost use Rattle.name_plans.specs.Makeable.{AreMakeable};
ghost use Rattle.name_plans.specs.Placing.{way_made};

use entry::Entry;
use name_core::{Change, KeeperFault, Names, RecordChanges, directory_made_at};
use std::alloc::{AllocError, Global};
use weed_base::Path;

/// What makes a path and each one above it a directory.
#[derive(Debug, Drop)]
pub struct Way {
    pub changes: RecordChanges,
    /// A file is dropped, and with it all below.
    pub clears: bool,
}

/// What makes a path and each one above it a directory: a drop of the first one that is a file, and a new directory at
/// each that is missing then, the shortest first. The view is only read.
pub fn way_to<V: Names>(
    alloc: Global,
    view: &mut V,
    directory: &Path,
    time: u64,
) -> Result<Way, KeeperFault>
    ensures changes { IfOk result (λ way. IfSome (V.map view.old) (λ names. way.changes ≡ way_made names time directory.now)) }
    ensures clears { IfOk result (λ way. IfSome (V.map view.old) (λ names. way.clears ≡ is_some (first_file names (prefixes directory.now)))) }
    ensures map { V.map view.new ≡ V.map view.old }
    ensures beside { V.beside view.new ≡ V.beside view.old }
    ensures cause { IsCauseOf (V.faults view.old) (V.faults view.new) (IsErrOf result KeeperFault.Failed) }
    ensures makeable { IfOk result (λ way. AreMakeable way.changes) }
{
    let mut changes = Vec::new(alloc);
    for depth in 0..directory.depth() {
        let front = directory.prefix(alloc, depth + 1)?;
        match view.find(alloc, &front)? {
            None => changes.push(Change::Put(front, directory_made_at(alloc, time)))?,
            Some(entry) if entry.is_file() => {
                return Ok(way_past(alloc, front, changes, directory, depth, time)?);
            }
            Some(_) => {}
        }
    }
    Ok(Way {
        changes: RecordChanges::of(changes),
        clears: false,
    })
}

/// The directory that a path stands in; the root for itself.
pub fn directory_above(alloc: Global, path: &Path) -> Result<Path, AllocError>
    ensures { IfOk result (λ above. above ≡ directory_of path.now) }
{
    match path.parent(alloc)? {
        Some(parent) => Ok(parent),
        None => Ok(Path::root(alloc)),
    }
}

/// The way where a file stands at the front of `depth` parts and one more, with these changes above it.
fn way_past(
    alloc: Global,
    file: Path,
    mut above: Vec<Change>,
    directory: &Path,
    depth: usize,
    time: u64,
) -> Result<Way, AllocError>
    requires above { AreMakeable above.items }
    requires filled { file ≢ [] }
    ensures changes { IfOk result (λ way. way.changes ≡ Drop file ∷ above.items ++ puts time (prefixes_from (take depth directory.now) (drop depth directory.now))) }
    ensures clears { IfOk result (λ way. way.clears ≡ true) }
    ensures makeable { IfOk result (λ way. AreMakeable way.changes) }
{
    let mut changes = Vec::new(alloc);
    changes.push(Change::Drop(file))?;
    changes.append(&mut above)?;
    push_fronts(alloc, &mut changes, directory, depth, time)?;
    Ok(Way {
        changes: RecordChanges::of(changes),
        clears: true,
    })
}

/// A new directory at each front of a path with more than so many parts, the shortest first, behind the changes so far.
fn push_fronts(
    alloc: Global,
    changes: &mut Vec<Change>,
    directory: &Path,
    parts: usize,
    time: u64,
) -> Result<(), AllocError>
    ensures { OnOk result (changes.new.items ≡ changes.old.items ++ puts time (prefixes_from (take parts directory.now) (drop parts directory.now))) }
{
    for depth in parts..directory.depth() {
        let front = directory.prefix(alloc, depth + 1)?;
        changes.push(Change::Put(front, directory_made_at(alloc, time)))?;
    }
    Ok(())
}
