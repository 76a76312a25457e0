ghost use Rattle.std.specs.Prelude.{◌≡◌, ◌+◌, ◌≤◌, length, take, drop, Err};
ghost use Rattle.weed_base.specs.Told.{IsCauseOf};
ghost use Rattle.http_wire.specs.Inbox.{left_of};
ghost use Rattle.http_bodies.specs.declared.fault.BodyFault.TheVariants.{ReadFault};
ghost use Rattle.http_bodies.specs.Body.{ReadsBody};
ghost use Rattle.http_whole.specs.Whole.{ReadsPiece, ReadsAll};

use http_bodies::{BodyFault, BodyState, read_body};
use http_wire::Inbox;
use weed_base::Source;

/// How many bytes are asked for at once.
const PIECE: usize = 65_536;

/// Reads a body to its end, and puts its data behind what `held` has. After a refusal, `Memory` included, the bytes
/// read are gone and the body stands behind them, and `held` has their data.
pub fn read_all<S: Source>(
    from: &mut S,
    inbox: &mut Inbox,
    body: &mut BodyState,
    held: &mut Vec<u8>,
) -> Result<(), BodyFault>
    ensures read { ReadsAll result body.old body.new (left_of inbox.old (S.left from.old)) (left_of inbox.new (S.left from.new)) held.old.items held.new.items }
    ensures cause { IsCauseOf (S.faults from.old) (S.faults from.new) (result ≡ Err ReadFault) }
    ensures beside { S.beside from.new ≡ S.beside from.old }
    ensures course { (start : S) → S.course start from.old → S.course start from.new }
{
    while read_piece(from, inbox, body, held)? {}
    Ok(())
}

/// Reads next data behind what is held. False at the body's end.
fn read_piece<S: Source>(
    from: &mut S,
    inbox: &mut Inbox,
    body: &mut BodyState,
    held: &mut Vec<u8>,
) -> Result<bool, BodyFault>
    ensures read { ReadsPiece result body.old body.new (left_of inbox.old (S.left from.old)) (left_of inbox.new (S.left from.new)) held.old.items held.new.items }
    ensures cause { IsCauseOf (S.faults from.old) (S.faults from.new) (result ≡ Err ReadFault) }
    ensures beside { S.beside from.new ≡ S.beside from.old }
    ensures course { (start : S) → S.course start from.old → S.course start from.new }
{
    let end = held.len();
    held.resize(end + PIECE, 0)?;
    match read_behind(from, inbox, body, held.as_mut_slice(), end) {
        Ok(0) => {
            held.truncate(end);
            Ok(false)
        }
        Ok(count) => {
            held.truncate(end + count);
            Ok(true)
        }
        Err(fault) => {
            held.truncate(end);
            Err(fault)
        }
    }
}

/// Reads data into the room behind its first bytes.
fn read_behind<S: Source>(
    from: &mut S,
    inbox: &mut Inbox,
    body: &mut BodyState,
    room: &mut [u8],
    first: usize,
) -> Result<usize, BodyFault>
    requires { first ≤ length room.old }
    ensures read { ReadsBody result body.old body.new (left_of inbox.old (S.left from.old)) (left_of inbox.new (S.left from.new)) (drop first room.new) }
    ensures front { take first room.new ≡ take first room.old }
    ensures cause { IsCauseOf (S.faults from.old) (S.faults from.new) (result ≡ Err ReadFault) }
    ensures beside { S.beside from.new ≡ S.beside from.old }
    ensures course { (start : S) → S.course start from.old → S.course start from.new }
{
    read_body(from, inbox, body, &mut room[first..])
}
