ghost use Rattle.std.specs.Prelude.{◌≡◌, ◌≤◌, length, IfOk, IfSome, IsErrOf, OkIff};
ghost use Rattle.weed_base.specs.Told.{IsCauseOf};
ghost use Rattle.name_core.specs.Plan.{Changes, MakesDirectories};
ghost use Rattle.name_plans.specs.Commands.{parents_at};

use name_core::{Names, PlanFault, RecordChanges, new_directories};
use std::alloc::Global;
use weed_base::Path;

/// A new directory at each missing ancestor of a path, the shortest first.
pub fn parents_of<V: Names>(
    alloc: Global,
    view: &mut V,
    path: &Path,
    time: u64,
) -> Result<RecordChanges, PlanFault>
    ensures changes { IfSome (V.map view.old) (λ names. Changes (parents_at names time path.now) result) }
    ensures map { V.map view.new ≡ V.map view.old }
    ensures beside { V.beside view.new ≡ V.beside view.old }
    ensures cause { IsCauseOf (V.faults view.old) (V.faults view.new) (IsErrOf result PlanFault.KeeperFault) }
    ensures directories { IfOk result (MakesDirectories time) }
{
    match path.parent(alloc)? {
        Some(parent) => new_directories(alloc, view, &parent, time),
        None => Ok(RecordChanges::of(Vec::new(alloc))),
    }
}
