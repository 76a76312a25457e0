ghost use Rattle.std.specs.Prelude.{◌≡◌, ◌≢◌, ◌≤◌, ◌<◌, ◌+◌, IfOk, IfSome, IsErrOf};
ghost use Rattle.weed_base.specs.Told.{IsCauseOf};
ghost use Rattle.name_core.specs.Log.{end_of_time};
ghost use Rattle.name_core.specs.Plan.{record_time, Changes};
ghost use Rattle.name_plans.specs.Makeable.{AreMakeable};
ghost use Rattle.name_plans.specs.Planning.{changes_for, plan_of, recorded, IsCommand, IsPlanned};
ghost use Rattle.name_plans.specs.Refusing.{Comes};

use crate::command::Command;
use crate::moving::plan_move;
use crate::placing::plan_place;
use crate::removing::plan_remove;
use crate::writing::{Writing, plan_write};
use name_core::{Names, PlanFault, Record, RecordChanges, Refusal, new_directories};
use records::record_length;
use std::alloc::Global;

/// The last time that a record may have, in nanoseconds since 1970.
const END_OF_TIME: u64 = i64::MAX as u64;

/// The most changes of a record.
const MAX_CHANGES: usize = 65_536;

/// The most bytes of a record's text.
const MAX_TEXT: u64 = 67_108_864;

/// The record that a command makes of the namespace that the view tells, at the moment `now` in nanoseconds since 1970
/// and after a record of the time `last`, or 0; `None` where nothing changes. The view is only read. Behind the
/// command's own refusals stand `TooMany` over 65,536 changes, `RecordTooLong` where the record's text would have over
/// 67,108,864 bytes, and `ClockAtEnd` where `last` is 2^63 - 1, in this order.
pub fn plan<V: Names>(
    alloc: Global,
    view: &mut V,
    command: &Command,
    now: u64,
    last: u64,
) -> Result<Option<Record>, PlanFault>
    requires last { last ≤ end_of_time }
    requires command { IsCommand command.now }
    ensures planned { IfSome (V.map view.old) (λ names. Comes (plan_of names command.now now last) result) }
    ensures map { V.map view.new ≡ V.map view.old }
    ensures cause { IsCauseOf (V.faults view.old) (V.faults view.new) (IsErrOf result PlanFault.KeeperFault) }
    ensures beside { V.beside view.new ≡ V.beside view.old }

    // This holds over every view, also one that isn't told.
    ensures fit { IfOk result (λ answer. IfSome answer (IsPlanned last (record_time now last))) }
{
    let time = next_time(now, last);
    let changes = changes_of(alloc, view, command, time)?;
    record_of(changes, time, last)
}

/// The time of the next record: the clock's, taken as at most 2^63 - 1, as far as it is past the last one.
fn next_time(now: u64, last: u64) -> u64
    requires { last ≤ end_of_time }
    ensures time { result ≡ record_time now last }
    ensures rises { last ≢ end_of_time → (last < result) × (result ≤ end_of_time) }
{
    now.min(END_OF_TIME).max(last + 1)
}

/// What the command changes, where its record has that time.
fn changes_of<V: Names>(
    alloc: Global,
    view: &mut V,
    command: &Command,
    time: u64,
) -> Result<RecordChanges, PlanFault>
    requires { IsCommand command.now }
    ensures changes { IfSome (V.map view.old) (λ names. Changes (changes_for names time command.now) result) }
    ensures map { V.map view.new ≡ V.map view.old }
    ensures beside { V.beside view.new ≡ V.beside view.old }
    ensures cause { IsCauseOf (V.faults view.old) (V.faults view.new) (IsErrOf result PlanFault.KeeperFault) }
    ensures makeable { IfOk result AreMakeable }
{
    match command {
        Command::MakeDir { path } => new_directories(alloc, view, path, time),
        Command::Write {
            path,
            at,
            chunks,
            length,
            mime,
            md5,
        } => {
            let writing = Writing {
                at: *at,
                pieces: chunks.as_slice(),
                length: *length,
                mime,
                md5: *md5,
            };
            plan_write(alloc, view, path, &writing, time)
        }
        Command::Remove { path, recursive } => plan_remove(alloc, view, path, *recursive),
        Command::Move { from, to } => plan_move(alloc, view, from, to, time),
        Command::Place { path, entry } => plan_place(alloc, view, path, entry, time),
    }
}

/// The record of changes that a command makes, if there are any.
fn record_of(changes: RecordChanges, time: u64, last: u64) -> Result<Option<Record>, PlanFault>
    requires makeable { AreMakeable changes }
    requires rises { last ≢ end_of_time → (last < time) × (time ≤ end_of_time) }
    ensures made { Comes (recorded last time changes) result }
    ensures fit { IfOk result (λ answer. IfSome answer (IsPlanned last time)) }
    ensures no_fault { IsErrOf result PlanFault.KeeperFault → ⊥ }
{
    if changes.as_slice().is_empty() {
        return Ok(None);
    }
    if changes.as_slice().len() > MAX_CHANGES {
        return Err(PlanFault::Refused(Refusal::TooMany));
    }
    let made = Record { time, changes };
    if record_length(&made) > MAX_TEXT {
        return Err(PlanFault::Refused(Refusal::RecordTooLong));
    }
    if last == END_OF_TIME {
        return Err(PlanFault::Refused(Refusal::ClockAtEnd));
    }
    Ok(Some(made))
}
