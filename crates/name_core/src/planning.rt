ghost use Rattle.std.specs.Prelude.{◌≡◌, ◌≤◌, ◌<◌, ◌+◌, IfOk, IfSome, IsErrOf};
ghost use Rattle.weed_base.specs.Told.{IsCauseOf};
ghost use Rattle.name_core.specs.Log.{end_of_time};
ghost use Rattle.name_core.specs.Plan.{changes_for, directories_at, plan_of, prefixes, recorded, record_time, Changes, MakesDirectories, Plans};
ghost use Rattle.name_core.specs.RecordText.{CanBeWritten};

use crate::change::{Change, END_OF_TIME, Record, RecordChanges};
use crate::command::{Command, PlanFault, Refusal};
use crate::made::directory_made_at;
use crate::names::Names;
use std::alloc::Global;
use weed_base::Path;

/// The record that a command makes of the namespace that the view tells, at the moment `now` in nanoseconds
/// since 1970 and after a record of the time `last`, or 0; `None` where nothing changes. The view is only
/// read. `IsFile` names the first prefix that is a file; `ClockAtEnd` comes where `last` is 2^63 - 1.
pub fn plan<V: Names>(
    alloc: Global,
    view: &mut V,
    command: &Command,
    now: u64,
    last: u64,
) -> Result<Option<Record>, PlanFault>
    requires { last ≤ end_of_time }
    ensures planned { IfSome (V.map view.old) (λ names. Plans (plan_of names command.now now last) result) }
    ensures map { V.map view.new ≡ V.map view.old }
    ensures cause { IsCauseOf (V.faults view.old) (V.faults view.new) (IsErrOf result PlanFault.KeeperFault) }
    ensures beside { V.beside view.new ≡ V.beside view.old }

    // These hold over every view, also one that isn't told.
    ensures time { IfOk result (λ answer. IfSome answer (λ made. made.time ≡ record_time now last)) }
    ensures later { IfOk result (λ answer. IfSome answer (λ made. last < made.time)) }
    ensures writable { IfOk result (λ answer. IfSome answer CanBeWritten) }
    ensures directories { IfOk result (λ answer. IfSome answer (λ made. MakesDirectories made.time made.changes)) }
    ensures end { IsErrOf result (PlanFault.Refused Refusal.ClockAtEnd) → last ≡ end_of_time }
{
    let time = next_time(now, last);
    let changes = changes_of(alloc, view, command, time)?;
    record_of_changes(changes, time, last)
}

fn next_time(now: u64, last: u64) -> u64
    requires { last ≤ end_of_time }
    ensures { result ≡ record_time now last }
{
    now.min(END_OF_TIME).max(last + 1)
}

/// What the command changes, where its record has that time.
fn changes_of<V: Names>(
    alloc: Global,
    view: &mut V,
    command: &Command,
    time: u64,
) -> Result<RecordChanges, PlanFault>
    ensures changes { IfSome (V.map view.old) (λ names. Changes (changes_for names time command.now) result) }
    ensures map { V.map view.new ≡ V.map view.old }
    ensures beside { V.beside view.new ≡ V.beside view.old }
    ensures cause { IsCauseOf (V.faults view.old) (V.faults view.new) (IsErrOf result PlanFault.KeeperFault) }
    ensures directories { IfOk result (MakesDirectories time) }
    ensures no_end { IsErrOf result (PlanFault.Refused Refusal.ClockAtEnd) → ⊥ }
{
    match command {
        Command::MakeDir { path } => new_directories(alloc, view, path, time),
    }
}

/// A new directory at each missing prefix of the path, itself included, the shortest first, as a command makes it
/// at that time in nanoseconds since 1970. The view is only read. `IsFile` names the first prefix that is a file.
pub fn new_directories<V: Names>(
    alloc: Global,
    view: &mut V,
    path: &Path,
    time: u64,
) -> Result<RecordChanges, PlanFault>
    ensures changes { IfSome (V.map view.old) (λ names. Changes (directories_at names time (prefixes path.now)) result) }
    ensures map { V.map view.new ≡ V.map view.old }
    ensures beside { V.beside view.new ≡ V.beside view.old }
    ensures cause { IsCauseOf (V.faults view.old) (V.faults view.new) (IsErrOf result PlanFault.KeeperFault) }
    ensures directories { IfOk result (MakesDirectories time) }
    ensures no_end { IsErrOf result (PlanFault.Refused Refusal.ClockAtEnd) → ⊥ }
{
    let mut changes = Vec::new(alloc);
    for depth in 0..path.depth() {
        let prefix = path.prefix(alloc, depth + 1)?;
        match view.find(alloc, &prefix)? {
            None => changes.push(Change::Put(prefix, directory_made_at(alloc, time)))?,
            Some(entry) if entry.is_file() => {
                return Err(PlanFault::Refused(Refusal::IsFile(prefix)));
            }
            Some(_) => {}
        }
    }
    Ok(RecordChanges::of(changes))
}

/// The record of changes that a command makes, if there are any.
fn record_of_changes(
    changes: RecordChanges,
    time: u64,
    last: u64,
) -> Result<Option<Record>, PlanFault>
    ensures made { Plans (recorded last time changes) result }
    ensures no_fault { IsErrOf result PlanFault.KeeperFault → ⊥ }
{
    if changes.as_slice().is_empty() {
        return Ok(None);
    }
    if last == END_OF_TIME {
        return Err(PlanFault::Refused(Refusal::ClockAtEnd));
    }
    Ok(Some(Record { time, changes }))
}
