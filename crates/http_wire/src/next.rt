ghost use Rattle.std.specs.Prelude.{◌≡◌, ◌<◌, ◌≤◌, length, Ok, Err, true, false};
ghost use Rattle.weed_base.specs.Told.{IsAtEnd, HasCause, IsCauseOf};
ghost use Rattle.http_head.specs.declared.fault.HeadFault.TheVariants.{ReadFault};
ghost use Rattle.http_wire.specs.Inbox.{left_of};
ghost use Rattle.http_wire.specs.Next.{TakesFront, FindsHead, FindsNext};

use crate::inbox::Inbox;
use http_head::{Front, Head, HeadFault, MAX_HEAD, read_front};
use std::alloc::Global;
use weed_base::{Failed, Source};

/// What is left of a connection.
#[derive(Debug, Drop)]
pub enum Next {
    /// Nothing.
    End,
    /// A request, of which the head was taken.
    Request(Head),
}

/// The next request of the bytes left, those of the inbox before those of the source: its head is taken from them,
/// and its body is still there. It reads as far as it takes to tell. After a refusal, and where memory is wanting,
/// all bytes are still there.
pub fn next_request<S: Source>(
    alloc: Global,
    from: &mut S,
    inbox: &mut Inbox,
) -> Result<Next, HeadFault>
    ensures next { FindsNext result (left_of inbox.old (S.left from.old)) (left_of inbox.new (S.left from.new)) }
    ensures cause { IsCauseOf (S.faults from.old) (S.faults from.new) (result ≡ Err ReadFault) }
    ensures beside { S.beside from.new ≡ S.beside from.old }
    ensures course { (start : S) → S.course start from.old → S.course start from.new }
{
    if !has_more(from, inbox)? {
        return Ok(Next::End);
    }
    Ok(Next::Request(next_head(alloc, from, inbox)?))
}

/// Whether any byte is left.
fn has_more<S: Source>(from: &mut S, inbox: &mut Inbox) -> Result<bool, Failed>
    ensures left { left_of inbox.new (S.left from.new) ≡ left_of inbox.old (S.left from.old) }
    ensures some { result ≡ Ok true → 0 < length inbox.new }
    ensures none { result ≡ Ok false → IsAtEnd (left_of inbox.old (S.left from.old)) }
    ensures cause { HasCause (S.faults from.old) (S.faults from.new) result }
    ensures beside { S.beside from.new ≡ S.beside from.old }
    ensures course { (start : S) → S.course start from.old → S.course start from.new }
{
    if !inbox.pending().is_empty() {
        return Ok(true);
    }
    Ok(inbox.fill(from)? > 0)
}

/// The head in front of the bytes left.
fn next_head<S: Source>(alloc: Global, from: &mut S, inbox: &mut Inbox) -> Result<Head, HeadFault>
    requires { 0 < length inbox.old }
    ensures head { FindsHead result (left_of inbox.old (S.left from.old)) (left_of inbox.new (S.left from.new)) }
    ensures cause { IsCauseOf (S.faults from.old) (S.faults from.new) (result ≡ Err ReadFault) }
    ensures beside { S.beside from.new ≡ S.beside from.old }
    ensures course { (start : S) → S.course start from.old → S.course start from.new }
{
    loop {
        if let Some(head) = take_front(alloc, inbox)? {
            return Ok(head);
        }
        if inbox.fill(from)? == 0 {
            return Err(HeadFault::Bad);
        }
    }
}

/// Takes the head in front of the inbox's bytes. None where more bytes tell.
fn take_front(alloc: Global, inbox: &mut Inbox) -> Result<Option<Head>, HeadFault>
    ensures { TakesFront result inbox.old inbox.new }
{
    match read_front(alloc, inbox.window())? {
        Front::Whole(head, count) => {
            inbox.advance(count);
            Ok(Some(head))
        }
        Front::Open if inbox.pending().len() > MAX_HEAD => Err(HeadFault::HeadTooLong),
        Front::Open => Ok(None),
        Front::Never => Err(HeadFault::Bad),
    }
}
