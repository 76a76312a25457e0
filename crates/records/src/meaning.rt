//! What the messages of an event mean: changes, where they mean anything.
ghost use Rattle.std.specs.Prelude.{◌≡◌, ◌≢◌, ℕ, List, Option, IsErr, Ok, Some, None, MatchOption, MatchResult, option_map, option_and_then, ◌∷◌, []};
ghost use Rattle.weed_base.specs.PathOrder.{same_path};
ghost use Rattle.name_core.specs.declared.change.Change.{Change as ChangeText};
ghost use Rattle.name_core.specs.declared.change.Change.TheVariants.{Drop};
ghost use Rattle.records.specs.Events.{path_in, FindsMeant, directory_of_new, event_means, listed, moved_to, place_of, put_of, FindsChanges};

use crate::event_parts::EventParts;
use entry::EntryText;
use name_core::Change;
use std::alloc::{AllocError, Global};
use weed_base::{Path, PathFault};

/// The changes of an event.
#[derive(Debug, Drop)]
pub enum EventChanges {
    One(Change),
    Two(Change, Change),
}

/// The changes of an event; `None` where it means nothing. Memory runs out only where it means something.
pub fn changes_of(alloc: Global, event: &EventParts) -> Result<Option<EventChanges>, AllocError>
    ensures { FindsChanges (event_means event.now) result }
{
    match (&event.entries.old_entry, &event.entries.new_entry) {
        (None, None) => Ok(None),
        (None, Some(new)) => put_alone(put_in(alloc, directory_of(event), new)),
        (Some(old), None) => drop_alone(place_in(alloc, event.fields.directory, old)),
        (Some(old), Some(new)) => {
            let path = place_in(alloc, event.fields.directory, old);
            drop_and_put(path, put_in(alloc, directory_of(event), new))
        }
    }
}

fn put_alone(put: Result<Option<Change>, AllocError>) -> Result<Option<EventChanges>, AllocError>
    ensures { (meant : Option ChangeText) → FindsMeant meant put → FindsChanges (option_map (λ put. put ∷ []) meant) result }
{
    match put {
        Ok(Some(put)) => Ok(Some(EventChanges::One(put))),
        Ok(None) => Ok(None),
        Err(AllocError) => Err(AllocError),
    }
}

fn drop_alone(path: Result<Option<Path>, AllocError>) -> Result<Option<EventChanges>, AllocError>
    ensures { (meant : Option (List (List ℕ))) → FindsMeant meant path → FindsChanges (option_map (λ drop. drop ∷ []) (option_map Drop meant)) result }
{
    match path {
        Ok(Some(path)) => Ok(Some(EventChanges::One(Change::Drop(path)))),
        Ok(None) => Ok(None),
        Err(AllocError) => Err(AllocError),
    }
}

fn drop_and_put(
    path: Result<Option<Path>, AllocError>,
    put: Result<Option<Change>, AllocError>,
) -> Result<Option<EventChanges>, AllocError>
    ensures { (old : Option (List (List ℕ))) (new : Option ChangeText) → FindsMeant old path → FindsMeant new put
        → FindsChanges (option_and_then (λ p. option_map (moved_to p) new) old) result }
{
    match path {
        Ok(Some(path)) => put_behind(path, put),
        Ok(None) => Ok(None),
        Err(AllocError) => lost_behind(&put),
    }
}

fn put_behind(
    path: Path,
    put: Result<Option<Change>, AllocError>,
) -> Result<Option<EventChanges>, AllocError>
    ensures { (new : Option ChangeText) → FindsMeant new put → FindsChanges (option_map (moved_to path) new) result }
{
    match put {
        Ok(Some(put)) => Ok(Some(moved(path, put))),
        Ok(None) => Ok(None),
        Err(AllocError) => Err(AllocError),
    }
}

/// The same where memory ran out for the path.
fn lost_behind(put: &Result<Option<Change>, AllocError>) -> Result<Option<EventChanges>, AllocError>
    ensures { MatchResult put.now (λ found. MatchOption found (result ≡ Ok None) (λ _. IsErr result)) (λ _. IsErr result) }
{
    match put {
        Ok(Some(_)) => Err(AllocError),
        Ok(None) => Ok(None),
        Err(AllocError) => Err(AllocError),
    }
}

/// A Put that leaves the old path, if it is another one.
fn moved(path: Path, put: Change) -> EventChanges
    ensures { listed result ≡ moved_to path put }
{
    if is_same(&path, put.path()) {
        EventChanges::One(put)
    } else {
        EventChanges::Two(Change::Drop(path), put)
    }
}

fn is_same(path: &Path, other: &Path) -> bool
    ensures { result ≡ same_path path.now other.now }
{
    path.is(other)
}

/// The directory of the new entry.
fn directory_of<'a>(event: &EventParts<'a>) -> &'a [u8]
    ensures { result.now ≡ directory_of_new event.now }
{
    if event.notification.new_parent.is_empty() {
        event.fields.directory
    } else {
        event.notification.new_parent
    }
}

fn put_in(alloc: Global, directory: &[u8], entry: &EntryText) -> Result<Option<Change>, AllocError>
    ensures { FindsMeant (put_of directory.now entry.now) result }
{
    let Some(path) = place_in(alloc, directory, entry)? else {
        return Ok(None);
    };
    Ok(Some(Change::Put(path, entry.to_entry(alloc)?)))
}

/// The path of an entry, where its values are good and that is one.
fn place_in(alloc: Global, directory: &[u8], entry: &EntryText) -> Result<Option<Path>, AllocError>
    ensures { FindsMeant (place_of directory.now entry.now) result }
{
    if !entry.is_entry() {
        return Ok(None);
    }
    path_at(alloc, directory, entry.fields().name)
}

/// The path of a name in a directory; `None` where there is none. Memory runs out only where there is one.
fn path_at(alloc: Global, directory: &[u8], name: &[u8]) -> Result<Option<Path>, AllocError>
    ensures { FindsMeant (path_in directory.now name.now) result }
{
    if_path(Path::read_in(alloc, directory, name))
}

/// No path where there is a fault in it, and an `Err` exactly for want of memory. Takes no memory.
fn if_path(path: Result<Path, PathFault>) -> Result<Option<Path>, AllocError>
    ensures { MatchResult path
        (λ found. result ≡ Ok (Some found))
        (λ fault. (fault ≡ PathFault.Memory → IsErr result) × (fault ≢ PathFault.Memory → result ≡ Ok None)) }
{
    match path {
        Ok(path) => Ok(Some(path)),
        Err(PathFault::Memory) => Err(AllocError),
        Err(_) => Ok(None),
    }
}
