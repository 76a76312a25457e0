ghost use Rattle.std.specs.Prelude.{◌≤◌, IfOk};
ghost use Rattle.name_core.specs.Log.{end_of_time};
ghost use Rattle.name_core.specs.Plan.{record_time};
ghost use Rattle.name_plans.specs.Planning.{IsCommand, IsPlanned};

use filer_keeper::Keeper;
use mem_keeper::MemKeeper;
use name_core::{Change, Names, PlanFault, Record, Refusal};
use name_plans::{Command, CommandChunks, plan};
use std::alloc::Global;
use std::process::Abort;
use std::test::Fail;
use weed_base::{Mime, Path};

mod moves;
mod refusals;
mod times;

fn check(rt: &impl Abort, is_so: bool) {
    assert!(rt; is_so);
}

/// The record that a command makes, after a record of the time `last`.
fn record_of(
    alloc: Global,
    keeper: &mut MemKeeper,
    command: &Command,
    now: u64,
    last: u64,
) -> Result<Record, Fail>
    requires last { last ≤ end_of_time }
    requires command { IsCommand command.now }
    ensures { IfOk result (IsPlanned last (record_time now last)) }
{
    match plan(alloc, keeper, command, now, last) {
        Ok(Some(made)) => Ok(made),
        Ok(None) => Err("nothing changes".into()),
        Err(_) => Err("no plan".into()),
    }
}

/// Makes a planned record's changes.
#[tactic(auto, using(crate::proofs::Puts::few_puts))]
fn commit(keeper: &mut MemKeeper, made: Record, last: u64, time: u64) -> Result<(), Fail>
    requires { IsPlanned last time made }
{
    if keeper.reserve(65_536).is_err() {
        return Err("no room".into());
    }
    if keeper.commit(made).is_err() {
        return Err("no commit".into());
    }
    Ok(())
}

/// The name of a command's refusal.
fn refusal_of(alloc: Global, keeper: &mut MemKeeper, command: &Command) -> &'static str
    requires { IsCommand command.now }
{
    match plan(alloc, keeper, command, 1, 0) {
        Ok(_) => "no refusal",
        Err(PlanFault::Refused(refusal)) => refusal.name(),
        Err(_) => "no answer",
    }
}

/// Makes what a command changes, and answers the time of its record.
fn accept(
    alloc: Global,
    keeper: &mut MemKeeper,
    command: &Command,
    now: u64,
    last: u64,
) -> Result<u64, Fail>
    requires last { last ≤ end_of_time }
    requires command { IsCommand command.now }
    ensures { IfOk result (λ time. time ≤ end_of_time) }
{
    let made = record_of(alloc, keeper, command, now, last)?;
    let time = made.time;
    commit(keeper, made, last, time)?;
    Ok(time)
}

/// Makes a directory, and answers the time of its record.
fn make(
    alloc: Global,
    keeper: &mut MemKeeper,
    text: &[u8],
    now: u64,
    last: u64,
) -> Result<u64, Fail>
    requires { last ≤ end_of_time }
    ensures { IfOk result (λ time. time ≤ end_of_time) }
{
    let path = Path::read(alloc, text)?;
    accept(alloc, keeper, &Command::MakeDir { path }, now, last)
}

/// Whether something stands at the path.
fn is_there(alloc: Global, keeper: &mut MemKeeper, text: &[u8]) -> Result<bool, Fail> {
    let path = Path::read(alloc, text)?;
    let found = keeper.find(alloc, &path).map_err(|_| "no answer")?;
    Ok(found.is_some())
}
