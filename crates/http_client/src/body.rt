ghost use Rattle.std.specs.Prelude.{◌≡◌, ◌≤◌, length, take, drop, min, Err};
ghost use Rattle.weed_base.specs.Told.{HasCause, IsCauseOf};
ghost use Rattle.weed_base.specs.Whole.{FillsRoom};
ghost use Rattle.http_head.specs.declared.fault.HeadFault.TheVariants.{ReadFault};
ghost use Rattle.http_wire.specs.Inbox.{left_of};
ghost use Rattle.http_client.specs.CountedBody.{TakesCounted};

use http_head::HeadFault;
use http_wire::Inbox;
use std::alloc::Global;
use weed_base::{Bytes, Failed, Source, read_full};

/// The next so many bytes left, at most the limit.
pub fn read_counted<S: Source>(
    alloc: Global,
    from: &mut S,
    inbox: &mut Inbox,
    count: u64,
    limit: u64,
) -> Result<Bytes, HeadFault>
    ensures body { TakesCounted count limit result (left_of inbox.old (S.left from.old)) (left_of inbox.new (S.left from.new)) }
    ensures cause { IsCauseOf (S.faults from.old) (S.faults from.new) (result ≡ Err ReadFault) }
    ensures beside { S.beside from.new ≡ S.beside from.old }
    ensures course { (start : S) → S.course start from.old → S.course start from.new }
{
    if count > limit {
        return Err(HeadFault::TooLong);
    }
    let mut body = vec![in alloc; 0; count as usize]?;
    let read = fill_room(from, inbox, body.as_mut_slice())?;
    if read < body.len() {
        return Err(HeadFault::Bad);
    }
    Ok(Bytes::of(body))
}

/// Reads until the room is full or no byte is left, those of the inbox first, and answers how many bytes it read.
fn fill_room<S: Source>(from: &mut S, inbox: &mut Inbox, room: &mut [u8]) -> Result<usize, Failed>
    ensures bytes { FillsRoom (left_of inbox.old (S.left from.old)) (left_of inbox.new (S.left from.new)) result room.new }
    ensures cause { HasCause (S.faults from.old) (S.faults from.new) result }
    ensures beside { S.beside from.new ≡ S.beside from.old }
    ensures course { (start : S) → S.course start from.old → S.course start from.new }
{
    let first = take_pending(inbox, room);
    let count = read_rest(from, room, first)?;
    Ok(first + count)
}

/// Moves bytes of the inbox to the front of the room, as many as there are and fit, and answers how many.
fn take_pending(inbox: &mut Inbox, room: &mut [u8]) -> usize
    ensures count { result ≡ min (length room.old) (length inbox.old) }
    ensures inbox { inbox.new ≡ drop result inbox.old }
    ensures room { take result room.new ≡ take result inbox.old }
{
    let pending = inbox.pending();
    let count = room.len().min(pending.len());
    room[..count].copy_from_slice(&pending[..count]);
    inbox.advance(count);
    count
}

/// Reads into the room behind its first bytes, until it is full or the source is at its end.
fn read_rest<S: Source>(from: &mut S, room: &mut [u8], first: usize) -> Result<usize, Failed>
    requires { first ≤ length room.old }
    ensures bytes { FillsRoom (S.left from.old) (S.left from.new) result (drop first room.new) }
    ensures front { take first room.new ≡ take first room.old }
    ensures cause { HasCause (S.faults from.old) (S.faults from.new) result }
    ensures beside { S.beside from.new ≡ S.beside from.old }
    ensures course { (start : S) → S.course start from.old → S.course start from.new }
{
    read_full(from, &mut room[first..])
}
