ghost use Rattle.std.specs.Prelude.{◌≡◌, ◌≤◌, ◌<◌, ℕ, List, length, take, drop, min, Err, true, false};
ghost use Rattle.weed_base.specs.Told.{Reads, HasCause, IsCauseOf};
ghost use Rattle.http_wire.specs.Inbox.{left_of};
ghost use Rattle.http_bodies.specs.declared.fault.BodyFault.TheVariants.{ReadFault};
ghost use Rattle.http_bodies.specs.Stage.{is_between};
ghost use Rattle.http_bodies.specs.Body.{ReadsBody};
ghost use Rattle.http_bodies.specs.Found.{TakesMark};
ghost use Rattle.http_bodies.specs.Read.{PassesMark, PassesMarks, TakesData};

use crate::fault::BodyFault;
use crate::mark::{is_between, read_mark};
use crate::stage::Stage;
use crate::state::BodyState;
use http_wire::Inbox;
use weed_base::{Failed, Source};

/// Reads next data of a body into `room`, and answers how many bytes: 0 for room that isn't empty is the body's
/// end. After a refusal the bytes read are gone, and the body stands behind them. Takes no memory.
pub fn read_body<S: Source>(
    from: &mut S,
    inbox: &mut Inbox,
    body: &mut BodyState,
    room: &mut [u8],
) -> Result<usize, BodyFault>
    ensures read { ReadsBody result body.old body.new (left_of inbox.old (S.left from.old)) (left_of inbox.new (S.left from.new)) room.new }
    ensures cause { IsCauseOf (S.faults from.old) (S.faults from.new) (result ≡ Err ReadFault) }
    ensures beside { S.beside from.new ≡ S.beside from.old }
    ensures course { (start : S) → S.course start from.old → S.course start from.new }
{
    if room.is_empty() {
        return Ok(0);
    }
    pass_marks(from, inbox, body)?;
    read_data(from, inbox, body, room)
}

/// Takes the mark in front of the inbox's bytes. False where more bytes tell.
fn take_mark(inbox: &mut Inbox, body: &mut BodyState) -> Result<bool, BodyFault>
    requires { is_between body.old ≡ true }
    ensures { TakesMark result body.old body.new inbox.old inbox.new }
{
    match read_mark(inbox.pending(), body.stage())? {
        Some(mark) => {
            inbox.advance(mark.len);
            body.go(mark.next);
            Ok(true)
        }
        None => Ok(false),
    }
}

/// Passes the mark that comes, and reads no further than it takes to tell it.
fn pass_mark<S: Source>(
    from: &mut S,
    inbox: &mut Inbox,
    body: &mut BodyState,
) -> Result<(), BodyFault>
    requires { is_between body.old ≡ true }
    ensures passed { PassesMark result body.old body.new (left_of inbox.old (S.left from.old)) (left_of inbox.new (S.left from.new)) }
    ensures cause { IsCauseOf (S.faults from.old) (S.faults from.new) (result ≡ Err ReadFault) }
    ensures beside { S.beside from.new ≡ S.beside from.old }
    ensures course { (start : S) → S.course start from.old → S.course start from.new }
{
    loop {
        if take_mark(inbox, body)? {
            return Ok(());
        }
        if inbox.fill(from)? == 0 {
            return Err(BodyFault::Cut);
        }
    }
}

/// Passes all marks up to the next data, or to the body's end.
fn pass_marks<S: Source>(
    from: &mut S,
    inbox: &mut Inbox,
    body: &mut BodyState,
) -> Result<(), BodyFault>
    ensures passed { PassesMarks result body.old body.new (left_of inbox.old (S.left from.old)) (left_of inbox.new (S.left from.new)) }
    ensures cause { IsCauseOf (S.faults from.old) (S.faults from.new) (result ≡ Err ReadFault) }
    ensures beside { S.beside from.new ≡ S.beside from.old }
    ensures course { (start : S) → S.course start from.old → S.course start from.new }
{
    while is_between(body.stage()) {
        pass_mark(from, inbox, body)?;
    }
    Ok(())
}

/// Reads data of a body at whose front no mark stands.
fn read_data<S: Source>(
    from: &mut S,
    inbox: &mut Inbox,
    body: &mut BodyState,
    room: &mut [u8],
) -> Result<usize, BodyFault>
    requires data { is_between body.old ≡ false }
    requires room { 0 < length room.old }
    ensures read { ReadsBody result body.old body.new (left_of inbox.old (S.left from.old)) (left_of inbox.new (S.left from.new)) room.new }
    ensures cause { IsCauseOf (S.faults from.old) (S.faults from.new) (result ≡ Err ReadFault) }
    ensures beside { S.beside from.new ≡ S.beside from.old }
    ensures course { (start : S) → S.course start from.old → S.course start from.new }
{
    match body.stage() {
        Stage::Length(left) => {
            let count = take_data(from, inbox, room, left)?;
            body.go(Stage::Length(left - count as u64));
            Ok(count)
        }
        Stage::Chunk { left, allowed } => {
            let count = take_data(from, inbox, room, left)?;
            body.go(Stage::Chunk {
                left: left - count as u64,
                allowed,
            });
            Ok(count)
        }
        Stage::Over => Err(BodyFault::TooLong),
        Stage::Line(_) | Stage::Trailers(_) => unreachable!(),
    }
}

/// Takes next bytes of the body's data, of which so many are left: those of the inbox first, and else straight from
/// the source.
fn take_data<S: Source>(
    from: &mut S,
    inbox: &mut Inbox,
    room: &mut [u8],
    left: u64,
) -> Result<usize, BodyFault>
    requires { 0 < length room.old }
    ensures data { TakesData result left (left_of inbox.old (S.left from.old)) (left_of inbox.new (S.left from.new)) room.new }
    ensures cause { IsCauseOf (S.faults from.old) (S.faults from.new) (result ≡ Err ReadFault) }
    ensures beside { S.beside from.new ≡ S.beside from.old }
    ensures course { (start : S) → S.course start from.old → S.course start from.new }
{
    let most = room.len().min(usize::try_from(left).unwrap_or(usize::MAX));
    let count = take_some(from, inbox, &mut room[..most])?;
    if count == 0 && most > 0 {
        return Err(BodyFault::Cut);
    }
    Ok(count)
}

/// Reads bytes of the inbox where it has any, and else of the source.
fn take_some<S: Source>(from: &mut S, inbox: &mut Inbox, room: &mut [u8]) -> Result<usize, Failed>
    ensures bytes { Reads (left_of inbox.old (S.left from.old)) (left_of inbox.new (S.left from.new)) result room.new }
    ensures cause { HasCause (S.faults from.old) (S.faults from.new) result }
    ensures beside { S.beside from.new ≡ S.beside from.old }
    ensures course { (start : S) → S.course start from.old → S.course start from.new }
{
    if inbox.pending().is_empty() {
        return from.read(room);
    }
    Ok(take_pending(inbox, room))
}

/// Moves bytes of the inbox to the front of the room, as many as there are and fit, and answers how many.
fn take_pending(inbox: &mut Inbox, room: &mut [u8]) -> usize
    ensures count { result ≡ min (length room.old) (length inbox.old) }
    ensures inbox { inbox.new ≡ drop result inbox.old }
    ensures room { take result room.new ≡ take result inbox.old }
{
    let pending = inbox.pending();
    let count = room.len().min(pending.len());
    room[..count].copy_from_slice(&pending[..count]);
    inbox.advance(count);
    count
}
