ghost use Rattle.std.specs.Prelude.{◌≡◌, ◌++◌, ◌∷◌, [], List, Option, Some, OnOk, nat_le, ◌&&◌};
ghost use Rattle.name_core.specs.Log.{end_of_time};
ghost use Rattle.records.specs.RecordReading.{record_with, ReadsRecord, record_if, Collects};
ghost use Rattle.name_core.specs.declared.change.Change.{Change};
ghost use Rattle.records.specs.Events.{both, listed, FindsChanges};

use crate::meaning::EventChanges;
use crate::record_fault::RecordFault;
use name_core::{Change, Record, RecordChanges};
use std::alloc::{AllocError, Global};

/// The last time that a record may have.
const END_OF_TIME: u64 = i64::MAX as u64;

/// What was found of the events of a record, as far as they are read.
#[derive(Debug, Drop)]
pub enum Found {
    /// The changes of each.
    Changes(Vec<Change>),
    /// Each has a change, and memory ran out for them.
    OutOfMemory,
    /// One of them means nothing.
    Nothing,
}

impl Found {
    /// Of no event. Takes no memory.
    pub fn none(alloc: Global) -> Found
        ensures { Collects (Some []) result }
    {
        Found::Changes(Vec::new(alloc))
    }

    /// Takes what one event more means, where there was memory for it.
    pub fn take(&mut self, found: Result<Option<EventChanges>, AllocError>)
        ensures { (before meant : Option (List Change)) → Collects before self.old → FindsChanges meant found → Collects (both before meant) self.new }
    {
        match found {
            Ok(Some(changes)) => self.keep(changes),
            Ok(None) => *self = Found::Nothing,
            Err(AllocError) => self.stop_keeping(),
        }
    }

    /// Keeps the changes of one event more, where there is memory for them.
    fn keep(&mut self, found: EventChanges)
        ensures { (before : Option (List Change)) → Collects before self.old → Collects (both before (Some (listed found))) self.new }
    {
        let Found::Changes(changes) = self else {
            return;
        };
        if push_all(changes, found).is_err() {
            *self = Found::OutOfMemory;
        }
    }

    /// Keeps no change from now on.
    fn stop_keeping(&mut self)
        ensures { (before : Option (List Change)) (first : Change) (more : List Change) → Collects before self.old → Collects (both before (Some (first ∷ more))) self.new }
    {
        if let Found::Changes(_) = self {
            *self = Found::OutOfMemory;
        }
    }

    /// The record of a time and these events. Takes no memory.
    pub fn into_record(self, time: u64) -> Result<Record, RecordFault>
        ensures { (all : Option (List Change)) → Collects all self → ReadsRecord (record_if time all) result }
    {
        match self {
            Found::Changes(changes) => record_of_parts(time, RecordChanges::of(changes)),
            Found::OutOfMemory if is_time(time) => Err(RecordFault::Memory),
            Found::OutOfMemory | Found::Nothing => Err(RecordFault::BadRecord),
        }
    }
}

/// Adds the changes of an event. An `Err` may leave one of them.
fn push_all(changes: &mut Vec<Change>, found: EventChanges) -> Result<(), AllocError>
    ensures { OnOk result (changes.new.items ≡ changes.old.items ++ listed found) }
{
    match found {
        EventChanges::One(change) => changes.push(change)?,
        EventChanges::Two(change, other) => {
            changes.push(change)?;
            changes.push(other)?;
        }
    }
    Ok(())
}

/// The record of these parts, where it has a change and a time that a record may have. Takes no memory.
fn record_of_parts(time: u64, changes: RecordChanges) -> Result<Record, RecordFault>
    ensures { result ≡ record_with time changes }
{
    if changes.as_slice().is_empty() || !is_time(time) {
        return Err(RecordFault::BadRecord);
    }
    Ok(Record { time, changes })
}

/// The test for a time that a record may have.
fn is_time(time: u64) -> bool
    ensures { result ≡ (nat_le 1 time && nat_le time end_of_time) }
{
    time != 0 && time <= END_OF_TIME
}
