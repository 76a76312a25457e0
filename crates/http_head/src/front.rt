ghost use Rattle.std.specs.Prelude.{length, ◌≤◌};
ghost use Rattle.http_head.specs.Request.{Parts as SeenParts};
ghost use Rattle.http_head.specs.Front.{ReadsFront, ReadsInRoom, HoldsParts, TakesParts};

use crate::fault::HeadFault;
use crate::head::Head;
use crate::judge::{HeadParts, MAX_LINES, judge_head};
use httparse::{EMPTY_HEADER, Error, Header, Request, Status};
use std::alloc::Global;

/// The most bytes that a head has.
pub const MAX_HEAD: usize = 16_384;

/// More lines than so many bytes have, since a line has 3 at least.
const MORE_LINES: usize = 5_462;

/// What stands at the front of some bytes.
#[derive(Debug, Drop)]
pub enum Front {
    /// A head, and how many bytes it has.
    Whole(Head, usize),
    /// No head, and they may become one.
    Open,
    /// No head, and they never become one.
    Never,
}

/// What stands at the front of at most 16,384 bytes. A whole head is refused with the first check that it fails.
pub fn read_front(alloc: Global, bytes: &[u8]) -> Result<Front, HeadFault>
    requires { length bytes.now ≤ 16384 }
    ensures { ReadsFront bytes.now result }
{
    let mut room = [EMPTY_HEADER; MAX_LINES];
    match read_in_room(alloc, bytes, &mut room)? {
        Some(front) => Ok(front),
        None => read_crowded(alloc, bytes),
    }
}

/// The same of a head that may have more lines than are served.
fn read_crowded(alloc: Global, bytes: &[u8]) -> Result<Front, HeadFault>
    requires { length bytes.now ≤ 16384 }
    ensures { ReadsFront bytes.now result }
{
    let mut room = vec![in alloc; EMPTY_HEADER; MORE_LINES]?;
    match read_in_room(alloc, bytes, room.as_mut_slice())? {
        Some(front) => Ok(front),
        None => unreachable!(),
    }
}

/// The same with room for so many lines. None where there are more.
fn read_in_room<'b>(
    alloc: Global,
    bytes: &'b [u8],
    room: &mut [Header<'b>],
) -> Result<Option<Front>, HeadFault>
    ensures { ReadsInRoom bytes.now (length room.old) result }
{
    let mut request = Request::new(room);
    match request.parse(bytes) {
        Ok(Status::Complete(count)) => take_whole(alloc, &request, count),
        Ok(Status::Partial) => Ok(Some(Front::Open)),
        Err(Error::TooManyHeaders) => Ok(None),
        Err(_) => Ok(Some(Front::Never)),
    }
}

/// The head of so many bytes that the parser holds, once it is checked.
fn take_whole(
    alloc: Global,
    request: &Request<'_, '_>,
    count: usize,
) -> Result<Option<Front>, HeadFault>
    requires { (parts : SeenParts) × HoldsParts request.now parts }
    ensures { (parts : SeenParts) → HoldsParts request.now parts → TakesParts count parts result }
{
    let parts = HeadParts {
        method: request.method.unwrap(),
        target: request.path.unwrap(),
        minor: request.version.unwrap(),
        lines: &*request.headers,
    };
    let head = judge_head(alloc, parts)?;
    Ok(Some(Front::Whole(head, count)))
}
