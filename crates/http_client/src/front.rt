ghost use Rattle.std.specs.Prelude.{length, ◌≤◌};
ghost use Rattle.http_client.specs.AnswerHead.{Parts};
ghost use Rattle.http_client.specs.AnswerFront.{ReadsFront, ReadsInRoom, HoldsParts, TakesParts};

use crate::judge::{AnswerHead, AnswerParts, judge_answer};
use http_head::{HeadFault, MAX_LINES};
use httparse::{EMPTY_HEADER, Error, Header, Response, Status};
use std::alloc::Global;

/// More lines than 16,384 bytes have, since a line has 3 at least.
const MORE_LINES: usize = 5_462;

/// What stands at the front of some bytes.
#[derive(Debug, Drop)]
pub enum AnswerFront {
    /// A head, and how many bytes it has.
    Whole(AnswerHead, usize),
    /// No head, and they may become one.
    Open,
    /// No head, and they never become one.
    Never,
}

/// What stands at the front of at most 16,384 bytes. A whole head is refused with the first check that it fails.
pub fn read_answer_front(alloc: Global, bytes: &[u8]) -> Result<AnswerFront, HeadFault>
    requires { length bytes.now ≤ 16384 }
    ensures { ReadsFront bytes.now result }
{
    let mut room = [EMPTY_HEADER; MAX_LINES];
    match read_in_room(alloc, bytes, &mut room)? {
        Some(front) => Ok(front),
        None => read_crowded(alloc, bytes),
    }
}

/// The same of a head that may have more lines than are taken.
fn read_crowded(alloc: Global, bytes: &[u8]) -> Result<AnswerFront, HeadFault>
    requires { length bytes.now ≤ 16384 }
    ensures { ReadsFront bytes.now result }
{
    let mut room = vec![in alloc; EMPTY_HEADER; MORE_LINES]?;
    match read_in_room(alloc, bytes, room.as_mut_slice())? {
        Some(front) => Ok(front),
        None => unreachable!(),
    }
}

/// The same with room for so many lines. None where there are more.
fn read_in_room<'b>(
    alloc: Global,
    bytes: &'b [u8],
    room: &mut [Header<'b>],
) -> Result<Option<AnswerFront>, HeadFault>
    ensures { ReadsInRoom bytes.now (length room.old) result }
{
    let mut response = Response::new(room);
    match response.parse(bytes) {
        Ok(Status::Complete(count)) => take_whole(alloc, &response, count),
        Ok(Status::Partial) => Ok(Some(AnswerFront::Open)),
        Err(Error::TooManyHeaders) => Ok(None),
        Err(_) => Ok(Some(AnswerFront::Never)),
    }
}

/// The head of so many bytes that the parser holds, once it is checked.
fn take_whole(
    alloc: Global,
    response: &Response<'_, '_>,
    count: usize,
) -> Result<Option<AnswerFront>, HeadFault>
    requires { (parts : Parts) × HoldsParts response.now parts }
    ensures { (parts : Parts) → HoldsParts response.now parts → TakesParts count parts result }
{
    let parts = AnswerParts {
        status: response.code.unwrap(),
        minor: response.version.unwrap(),
        lines: &*response.headers,
    };
    let head = judge_answer(alloc, parts)?;
    Ok(Some(AnswerFront::Whole(head, count)))
}
