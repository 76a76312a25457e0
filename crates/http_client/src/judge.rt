ghost use Rattle.std.specs.Prelude.{◌≡◌, ◌++◌, map, IfOk, [], ◌∷◌};
ghost use Rattle.httparse.specs.Borrowed.{header_parts};
ghost use Rattle.http_client.specs.AnswerHead.{body_of_status, checked, kept, head_of, IsJudged};
ghost use Rattle.http_client.specs.Seen.{seen};

use http_head::{BodyKind, HeadFault, MAX_LINES, body_of, has_other_coding, is_named, says_close};
use http_wire::AnswerHeaders;
use httparse::Header;
use std::alloc::{AllocError, Global};
use weed_base::{Bytes, Items};

/// The head of an answer.
#[derive(Debug, Drop)]
pub struct AnswerHead {
    pub status: u16,
    /// All lines but those named `Connection`.
    pub headers: AnswerHeaders,
    /// How long the body is that follows. Where no line says it goes to the end.
    pub body: BodyKind,
    /// Whether the connection closes behind the answer.
    pub close: bool,
}

/// The parts of a head that are read.
#[derive(Clone, Copy, Debug)]
pub struct AnswerParts<'a> {
    pub status: u16,
    pub minor: u8,
    pub lines: &'a [Header<'a>],
}

fn body_of_status(status: u16, stated: BodyKind) -> BodyKind
    ensures { result ≡ body_of_status status stated }
{
    if status == 204 {
        BodyKind::Length(0)
    } else {
        stated
    }
}

/// The body that the head says, once its checks are passed.
fn check(parts: AnswerParts<'_>) -> Result<BodyKind, HeadFault>
    ensures { result ≡ checked (seen parts.entry) }
{
    if parts.lines.len() > MAX_LINES {
        return Err(HeadFault::HeadTooLong);
    }
    if has_other_coding(parts.lines) {
        return Err(HeadFault::BadCoding);
    }
    match body_of(parts.lines) {
        Some(stated) => Ok(body_of_status(parts.status, stated)),
        None => Err(HeadFault::Bad),
    }
}

/// Keeps the line, where it isn't named `Connection`.
fn keep(
    alloc: Global,
    headers: &mut Vec<(Bytes, Bytes)>,
    line: &Header<'_>,
) -> Result<(), AllocError>
    ensures { IfOk result (λ _. headers.new.items ≡ headers.old.items ++ kept (header_parts line.now ∷ [])) }
{
    if is_named(line, "connection") {
        return Ok(());
    }
    let name = Bytes::new(alloc, line.name.as_bytes())?;
    let value = Bytes::new(alloc, line.value)?;
    headers.push((name, value))?;
    Ok(())
}

fn kept_lines(alloc: Global, lines: &[Header<'_>]) -> Result<AnswerHeaders, AllocError>
    ensures { IfOk result (λ headers. headers ≡ kept (map header_parts lines.now)) }
{
    let mut headers = Vec::new(alloc);
    for line in lines {
        keep(alloc, &mut headers, line)?;
    }
    Ok(Items::of(headers))
}

/// What a whole head is taken as, or the first check that it fails.
pub fn judge_answer(alloc: Global, parts: AnswerParts<'_>) -> Result<AnswerHead, HeadFault>
    ensures { IsJudged (seen parts.entry) result }
{
    let body = check(parts)?;
    let headers = kept_lines(alloc, parts.lines)?;
    Ok(AnswerHead {
        status: parts.status,
        headers,
        body,
        close: parts.minor == 0 || says_close(parts.lines),
    })
}
