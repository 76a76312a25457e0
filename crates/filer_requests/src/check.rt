ghost use Rattle.std.specs.Prelude.{◌≡◌};
ghost use Rattle.filer_requests.specs.Check.{lacks_length, is_too_long, checked, follows, awaits_continue};

use crate::fault::WishFault;
use crate::place::{fault_of_path, place_text};
use crate::row::{Row, row_of};
use http_head::{BodyKind, Head};
use std::alloc::Global;

/// The most bytes of a body.
const MAX_BODY: u64 = 67_108_864;

fn lacks_length(row: Row, body: BodyKind) -> bool
    ensures { result ≡ lacks_length row body }
{
    match (row, body) {
        (Row::Write { .. }, BodyKind::Missing) => true,
        _ => false,
    }
}

fn is_too_long(body: BodyKind) -> bool
    ensures { result ≡ is_too_long body }
{
    match body {
        BodyKind::Length(count) => count > MAX_BODY,
        BodyKind::Missing | BodyKind::Chunked => false,
    }
}

/// The kind of a request, or the first check that its head fails, up to its length.
pub fn check(alloc: Global, head: &Head) -> Result<Row, WishFault>
    ensures { result ≡ checked head.now }
{
    if head.encoded {
        return Err(WishFault::Encoded);
    }
    if let Some(fault) = fault_of_path(alloc, place_text(head.path.as_slice())) {
        return Err(WishFault::BadPath(fault));
    }
    let Some(row) = row_of(alloc, head) else {
        return Err(WishFault::BadQuery);
    };
    if lacks_length(row, head.body) {
        return Err(WishFault::NoLength);
    }
    if is_too_long(head.body) {
        return Err(WishFault::TooLong);
    }
    Ok(row)
}

fn follows(body: BodyKind) -> bool
    ensures { result ≡ follows body }
{
    match body {
        BodyKind::Missing => false,
        BodyKind::Length(count) => count > 0,
        BodyKind::Chunked => true,
    }
}

/// Whether an answer 100 is to be sent before the body is read: one is awaited, and a body follows. Takes no
/// memory.
pub fn awaits_continue(head: &Head) -> bool
    ensures { result ≡ awaits_continue head.now }
{
    head.expect && follows(head.body)
}
