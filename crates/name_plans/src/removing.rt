ghost use Rattle.std.specs.Prelude.{◌≡◌, ◌∷◌, [], IfOk, IfSome, IsErrOf};
ghost use Rattle.weed_base.specs.Told.{IsCauseOf};
ghost use Rattle.name_core.specs.declared.change.Change.TheVariants.{Drop};
ghost use Rattle.name_core.specs.Plan.{Changes};
ghost use Rattle.name_plans.specs.Commands.{has_below, removal};
ghost use Rattle.name_plans.specs.Makeable.{AreMakeable};

use name_core::{Change, KeeperFault, Names, PlanFault, RecordChanges, Refusal};
use std::alloc::{AllocError, Global};
use weed_base::Path;

/// What a removal changes: one drop of the path. The view is only read. `RootFixed` where it is the root;
/// `NotFound` where nothing is there; `NotEmpty` where something is below it and the removal isn't recursive.
pub fn plan_remove<V: Names>(
    alloc: Global,
    view: &mut V,
    path: &Path,
    recursive: bool,
) -> Result<RecordChanges, PlanFault>
    ensures changes { IfSome (V.map view.old) (λ names. Changes (removal names path.now recursive) result) }
    ensures map { V.map view.new ≡ V.map view.old }
    ensures beside { V.beside view.new ≡ V.beside view.old }
    ensures cause { IsCauseOf (V.faults view.old) (V.faults view.new) (IsErrOf result PlanFault.KeeperFault) }
    ensures makeable { IfOk result AreMakeable }
{
    if path.depth() == 0 {
        return Err(PlanFault::Refused(Refusal::RootFixed));
    }
    if view.find(alloc, path)?.is_none() {
        return Err(PlanFault::Refused(Refusal::NotFound));
    }
    if !recursive && is_parent(alloc, view, path)? {
        return Err(PlanFault::Refused(Refusal::NotEmpty));
    }
    Ok(one_drop(alloc, path)?)
}

/// Whether anything is below a path.
fn is_parent<V: Names>(alloc: Global, view: &mut V, top: &Path) -> Result<bool, KeeperFault>
    ensures told { IfOk result (λ any. IfSome (V.map view.old) (λ names. any ≡ has_below names top.now)) }
    ensures map { V.map view.new ≡ V.map view.old }
    ensures beside { V.beside view.new ≡ V.beside view.old }
    ensures cause { IsCauseOf (V.faults view.old) (V.faults view.new) (IsErrOf result KeeperFault.Failed) }
{
    let page = view.below_after(alloc, top, None, 1)?;
    Ok(!page.is_empty())
}

fn one_drop(alloc: Global, path: &Path) -> Result<RecordChanges, AllocError>
    ensures { IfOk result (λ changes. changes ≡ Drop path.now ∷ []) }
{
    let mut changes = Vec::new(alloc);
    changes.push(Change::Drop(path.copy(alloc)?))?;
    Ok(RecordChanges::of(changes))
}
