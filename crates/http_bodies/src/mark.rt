ghost use Rattle.std.specs.Prelude.{◌≡◌, ◌+◌, ◌<◌, ◌≤◌, length, take, true};
ghost use Rattle.http_bodies.specs.Stage.{IsSound, is_between, behind_line};
ghost use Rattle.http_bodies.specs.declared.stage.Stage.TheVariants.{Line, Chunk, Trailers};
ghost use Rattle.http_bodies.specs.Found.{FindsMark, least_line};

use crate::fault::BodyFault;
use crate::stage::Stage;
use httparse::{Status, parse_chunk_size};
use memchr::memmem;

/// The most bytes that a chunk's line has.
const MAX_LINE: usize = 1_024;

/// The most bytes that trailer lines have.
const MAX_TRAILERS: usize = 16_384;

/// What stands between the data of a chunked body: how many bytes it has, and what comes behind it.
#[derive(Clone, Copy, Debug)]
pub struct Mark {
    pub len: usize,
    pub next: Stage,
}

/// Whether a mark comes, and no data.
pub fn is_between(stage: Stage) -> bool
    ensures { result ≡ is_between stage }
{
    match stage {
        Stage::Line(_) | Stage::Trailers(_) => true,
        Stage::Chunk { left, .. } => left == 0,
        Stage::Length(_) | Stage::Over => false,
    }
}

/// The mark at the front of the bytes. None where more bytes tell.
pub fn read_mark(bytes: &[u8], stage: Stage) -> Result<Option<Mark>, BodyFault>
    requires between { is_between stage ≡ true }
    requires sound { IsSound stage }
    ensures { FindsMark stage bytes.now result }
{
    match stage {
        Stage::Line(allowed) => read_line(bytes, allowed),
        Stage::Chunk { allowed, .. } => read_end(bytes, allowed),
        Stage::Trailers(room) => read_trailer(bytes, room),
        Stage::Length(_) | Stage::Over => unreachable!(),
    }
}

fn read_line(bytes: &[u8], allowed: u64) -> Result<Option<Mark>, BodyFault>
    ensures { FindsMark (Line allowed) bytes.now result }
{
    let window = line_window(bytes);
    match parse_chunk_size(window) {
        Ok(Status::Complete((_, size))) if size > allowed => Err(BodyFault::TooLong),
        Ok(Status::Complete((len, size))) => Ok(Some(Mark {
            len,
            next: behind_line(size, allowed),
        })),
        Ok(Status::Partial) if least_line(window) <= MAX_LINE => Ok(None),
        Ok(Status::Partial) => Err(BodyFault::BadChunk),
        Err(_) => Err(BodyFault::BadChunk),
    }
}

/// The first 1,024 bytes.
fn line_window(bytes: &[u8]) -> &[u8]
    ensures { result.now ≡ take 1024 bytes.now }
{
    if bytes.len() > MAX_LINE {
        &bytes[..MAX_LINE]
    } else {
        bytes
    }
}

/// What comes behind the line of a chunk of that size.
fn behind_line(size: u64, allowed: u64) -> Stage
    requires { size ≤ allowed }
    ensures { result ≡ behind_line size allowed }
{
    if size == 0 {
        return Stage::Trailers(MAX_TRAILERS);
    }
    Stage::Chunk {
        left: size,
        allowed: allowed - size,
    }
}

/// How many bytes a line has at least that begins with these, and no end of a line among them.
fn least_line(bytes: &[u8]) -> usize
    ensures { result ≡ least_line bytes.now }
{
    if bytes.ends_with(b"\r") {
        bytes.len() + 1
    } else {
        bytes.len() + 2
    }
}

/// The line end behind the data of a chunk.
fn read_end(bytes: &[u8], allowed: u64) -> Result<Option<Mark>, BodyFault>
    ensures { FindsMark (Chunk 0 allowed) bytes.now result }
{
    if bytes.starts_with(b"\r\n") {
        return Ok(Some(Mark {
            len: 2,
            next: Stage::Line(allowed),
        }));
    }
    if b"\r\n".starts_with(bytes) {
        Ok(None)
    } else {
        Err(BodyFault::BadChunk)
    }
}

fn read_trailer(bytes: &[u8], room: usize) -> Result<Option<Mark>, BodyFault>
    requires { room ≤ 16384 }
    ensures { FindsMark (Trailers room) bytes.now result }
{
    match memmem::find(bytes, b"\r\n") {
        Some(0) => Ok(Some(Mark {
            len: 2,
            next: Stage::Length(0),
        })),
        Some(place) if place + 2 <= room => Ok(Some(Mark {
            len: place + 2,
            next: Stage::Trailers(room - (place + 2)),
        })),
        Some(_) => Err(BodyFault::BadChunk),
        None if least_line(bytes) <= room.max(2) => Ok(None),
        None => Err(BodyFault::BadChunk),
    }
}
