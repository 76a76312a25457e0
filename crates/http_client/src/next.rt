ghost use Rattle.std.specs.Prelude.{◌≡◌, Err};
ghost use Rattle.weed_base.specs.Told.{IsCauseOf};
ghost use Rattle.http_head.specs.declared.fault.HeadFault.TheVariants.{ReadFault};
ghost use Rattle.http_wire.specs.Inbox.{left_of};
ghost use Rattle.http_client.specs.AnswerNext.{TakesFront, FindsHead};

use crate::front::{AnswerFront, read_answer_front};
use crate::judge::AnswerHead;
use http_head::{HeadFault, MAX_HEAD};
use http_wire::Inbox;
use std::alloc::Global;
use weed_base::Source;

/// The head of the answer in front of the bytes left.
pub fn next_answer_head<S: Source>(
    alloc: Global,
    from: &mut S,
    inbox: &mut Inbox,
) -> Result<AnswerHead, HeadFault>
    ensures head { FindsHead result (left_of inbox.old (S.left from.old)) (left_of inbox.new (S.left from.new)) }
    ensures cause { IsCauseOf (S.faults from.old) (S.faults from.new) (result ≡ Err ReadFault) }
    ensures beside { S.beside from.new ≡ S.beside from.old }
    ensures course { (start : S) → S.course start from.old → S.course start from.new }
{
    loop {
        if let Some(head) = take_front(alloc, inbox)? {
            return Ok(head);
        }
        if inbox.fill(from)? == 0 {
            return Err(HeadFault::Bad);
        }
    }
}

/// Takes the head in front of the inbox's bytes. None where more bytes tell.
fn take_front(alloc: Global, inbox: &mut Inbox) -> Result<Option<AnswerHead>, HeadFault>
    ensures { TakesFront result inbox.old inbox.new }
{
    match read_answer_front(alloc, inbox.window())? {
        AnswerFront::Whole(head, count) => {
            inbox.advance(count);
            Ok(Some(head))
        }
        AnswerFront::Open if inbox.pending().len() > MAX_HEAD => Err(HeadFault::HeadTooLong),
        AnswerFront::Open => Ok(None),
        AnswerFront::Never => Err(HeadFault::Bad),
    }
}
