ghost use Rattle.std.specs.Prelude.{◌≡◌, ◌≢◌, ◌∷◌, ◌++◌, [], All, IfOk, IfSome, IsErrOf, IsTrue};
ghost use Rattle.std.specs.List.{last_or};
ghost use Rattle.weed_base.specs.Told.{IsCauseOf};
ghost use Rattle.entry.specs.Entry.{IsValid};
ghost use Rattle.name_core.specs.declared.change.Change.TheVariants.{Put, Drop};
ghost use Rattle.name_core.specs.Namespace.{is_within};
ghost use Rattle.name_core.specs.Pages.{IsNamed};
ghost use Rattle.name_core.specs.Plan.{Changes, MakesDirectories};
ghost use Rattle.name_plans.specs.Commands.{below, moved_entry, moving, vacated};
ghost use Rattle.name_plans.specs.Makeable.{AreMakeable};
ghost use Rattle.name_plans.specs.Moving.{puts_moved};
ghost use Rattle.name_plans.specs.Paging.{last_path, PushesPage};
ghost use Rattle.name_plans.specs.Refusing.{Comes};

use crate::moved::path_moved;
use crate::parents::parents_of;
use entry::Entry;
use name_core::{Change, Names, PlanFault, RecordChanges, Refusal};
use std::alloc::{AllocError, Global};
use weed_base::Path;

/// How many entries are asked for at once.
const PAGE: u32 = 1024;

/// What a move changes: a new directory at each missing ancestor of `to`, a drop of `from`, and a put for what is
/// there and for all below it, under `to`. The view is only read. `RootFixed` where either is the root; `NotFound`
/// where nothing is at `from`; `IntoItself` where `to` is `from` or below it; `IsFile` names the first ancestor of
/// `to` that is a file; `Exists` where something is at `to`; `PathLimit` where a moved path would have over 64 parts
/// or 4,096 bytes.
pub fn plan_move<V: Names>(
    alloc: Global,
    view: &mut V,
    from: &Path,
    to: &Path,
    time: u64,
) -> Result<RecordChanges, PlanFault>
    ensures changes { IfSome (V.map view.old) (λ names. Changes (moving names time from.now to.now) result) }
    ensures map { V.map view.new ≡ V.map view.old }
    ensures beside { V.beside view.new ≡ V.beside view.old }
    ensures cause { IsCauseOf (V.faults view.old) (V.faults view.new) (IsErrOf result PlanFault.KeeperFault) }
    ensures makeable { IfOk result AreMakeable }
{
    let entry = entry_to_move(alloc, view, from, to)?;
    let parents = parents_of_vacant(alloc, view, to, time)?;
    let moved = moved_below(alloc, view, from, to)?;
    Ok(all_changes(alloc, parents, from, to, entry, moved)?)
}

/// What is moved.
fn entry_to_move<V: Names>(
    alloc: Global,
    view: &mut V,
    from: &Path,
    to: &Path,
) -> Result<Entry, PlanFault>
    ensures entry { IfSome (V.map view.old) (λ names. Comes (moved_entry names from.now to.now) result) }
    ensures map { V.map view.new ≡ V.map view.old }
    ensures beside { V.beside view.new ≡ V.beside view.old }
    ensures cause { IsCauseOf (V.faults view.old) (V.faults view.new) (IsErrOf result PlanFault.KeeperFault) }
    ensures valid { IfOk result IsValid }
    ensures from_filled { IfOk result (λ _. from.now ≢ []) }
    ensures to_filled { IfOk result (λ _. to.now ≢ []) }
{
    if from.depth() == 0 || to.depth() == 0 {
        return Err(PlanFault::Refused(Refusal::RootFixed));
    }
    let Some(entry) = view.find(alloc, from)? else {
        return Err(PlanFault::Refused(Refusal::NotFound));
    };
    if stands_within(to, from) {
        return Err(PlanFault::Refused(Refusal::IntoItself));
    }
    Ok(entry)
}

/// The path is the top, or below it.
#[tactic(auto, using(crate::proofs::Within::within_is))]
fn stands_within(path: &Path, top: &Path) -> bool
    ensures { result ≡ is_within top.now path.now }
{
    let is_top = path.is(top);
    let is_below = path.is_below(top);
    is_top || is_below
}

/// The new directories above a path at which nothing is.
fn parents_of_vacant<V: Names>(
    alloc: Global,
    view: &mut V,
    to: &Path,
    time: u64,
) -> Result<RecordChanges, PlanFault>
    ensures changes { IfSome (V.map view.old) (λ names. Changes (vacated names time to.now) result) }
    ensures map { V.map view.new ≡ V.map view.old }
    ensures beside { V.beside view.new ≡ V.beside view.old }
    ensures cause { IsCauseOf (V.faults view.old) (V.faults view.new) (IsErrOf result PlanFault.KeeperFault) }
    ensures directories { IfOk result (MakesDirectories time) }
{
    let parents = parents_of(alloc, view, to, time)?;
    if view.find(alloc, to)?.is_some() {
        return Err(PlanFault::Refused(Refusal::Exists));
    }
    Ok(parents)
}

/// All changes of a move.
fn all_changes(
    alloc: Global,
    parents: RecordChanges,
    from: &Path,
    to: &Path,
    entry: Entry,
    mut moved: RecordChanges,
) -> Result<RecordChanges, AllocError>
    ensures { IfOk result (λ made. made ≡ parents ++ Drop from.now ∷ Put to.now entry ∷ moved) }
{
    let mut changes = parents.into_vec();
    changes.push(Change::Drop(from.copy(alloc)?))?;
    changes.push(Change::Put(to.copy(alloc)?, entry))?;
    changes.append(&mut moved.into_vec())?;
    Ok(RecordChanges::of(changes))
}

/// A put under `to` for each entry below `from`, page by page.
fn moved_below<V: Names>(
    alloc: Global,
    view: &mut V,
    from: &Path,
    to: &Path,
) -> Result<RecordChanges, PlanFault>
    requires from_filled { from.now ≢ [] }
    requires to_filled { to.now ≢ [] }
    ensures changes { IfSome (V.map view.old) (λ names. Changes (puts_moved from.now to.now (below names from.now)) result) }
    ensures map { V.map view.new ≡ V.map view.old }
    ensures beside { V.beside view.new ≡ V.beside view.old }
    ensures cause { IsCauseOf (V.faults view.old) (V.faults view.new) (IsErrOf result PlanFault.KeeperFault) }
    ensures makeable { IfOk result AreMakeable }
{
    let mut changes = Vec::new(alloc);
    let mut after = from.copy(alloc)?;
    loop {
        let page = view.below_after(alloc, from, Some(&after), PAGE)?;
        match push_page(alloc, &mut changes, page, from, to)? {
            Some(last) => after = last,
            None => return Ok(RecordChanges::of(changes)),
        }
    }
}

/// A put under `to` for each item of a page, behind the changes so far. Answers the page's last path, if it has one.
fn push_page(
    alloc: Global,
    changes: &mut Vec<Change>,
    page: Vec<(Path, Entry)>,
    from: &Path,
    to: &Path,
) -> Result<Option<Path>, PlanFault>
    requires within { All (λ item. IsTrue (is_within from.now item.0)) page.items }
    requires from_filled { from.now ≢ [] }
    requires to_filled { to.now ≢ [] }
    ensures pushed { PushesPage from.now to.now page.items changes.old.items changes.new.items result }
    ensures no_fault { IsErrOf result PlanFault.KeeperFault → ⊥ }
{
    let mut last = None;
    for (path, entry) in page {
        changes.push(Change::Put(path_moved(alloc, &path, from, to)?, entry))?;
        last = Some(path);
    }
    Ok(last)
}
