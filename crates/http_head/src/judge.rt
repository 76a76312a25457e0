ghost use Rattle.std.specs.Prelude.{◌≡◌, map, unwrap_or, [], IfOk};
ghost use Rattle.httparse.specs.Borrowed.{header_parts};
ghost use Rattle.http_head.specs.Lines.{first_value as first_value_of};
ghost use Rattle.http_head.specs.Request.{is_encoded, says_close, expects, head_of, checked, IsJudged};
ghost use Rattle.http_head.specs.Seen.{seen};

use crate::body::{BodyKind, body_of, has_other_coding};
use crate::fault::HeadFault;
use crate::head::{Head, Method, method_of};
use crate::lines::{first_value, is_named};
use crate::range::wish_of;
use crate::target::{is_well_escaped, path_of, query_of};
use crate::words::{has_word, is_word};
use httparse::Header;
use std::alloc::{AllocError, Global};
use weed_base::Bytes;

/// The most lines that a head has.
pub const MAX_LINES: usize = 64;

/// The parts of a head that its checks read.
#[derive(Clone, Copy, Debug)]
pub struct HeadParts<'a> {
    pub method: &'a str,
    pub target: &'a str,
    pub minor: u8,
    pub lines: &'a [Header<'a>],
}

/// What the checks of a head found.
#[derive(Clone, Copy)]
pub struct Checked {
    pub method: Method,
    pub body: BodyKind,
}

fn is_encoded(lines: &[Header<'_>]) -> bool
    ensures { result ≡ is_encoded (map header_parts lines.now) }
{
    lines.iter().any(|line| is_named(line, "content-encoding") && !is_word(line.value, b"identity"))
}

/// Whether some line says that the connection closes.
pub fn says_close(lines: &[Header<'_>]) -> bool
    ensures { result ≡ says_close (map header_parts lines.now) }
{
    lines.iter().any(|line| is_named(line, "connection") && has_word(line.value, b"close"))
}

fn expects(lines: &[Header<'_>]) -> bool
    ensures { result ≡ expects (map header_parts lines.now) }
{
    lines.iter().any(|line| is_named(line, "expect") && is_word(line.value, b"100-continue"))
}

/// The value of the first line of that name, empty where there is none.
fn value_or_nothing(alloc: Global, lines: &[Header<'_>], name: &str) -> Result<Bytes, AllocError>
    ensures { IfOk result (λ value. value ≡ unwrap_or (first_value_of name.now (map header_parts lines.now)) []) }
{
    match first_value(lines, name) {
        Some(value) => Bytes::new(alloc, value),
        None => Ok(Bytes::of(Vec::new(alloc))),
    }
}

fn head_of(
    alloc: Global,
    method: Method,
    body: BodyKind,
    parts: HeadParts<'_>,
) -> Result<Head, AllocError>
    ensures { IfOk result (λ head. head ≡ head_of method body (seen parts.entry)) }
{
    let path = path_of(alloc, parts.target.as_bytes())?;
    let query = query_of(alloc, parts.target.as_bytes())?;
    let content_type = value_or_nothing(alloc, parts.lines, "content-type")?;
    Ok(Head {
        method,
        path,
        query,
        body,
        content_type,
        encoded: is_encoded(parts.lines),
        range: wish_of(first_value(parts.lines, "range")),
        close: parts.minor == 0 || says_close(parts.lines),
        expect: expects(parts.lines),
    })
}

/// The checks of a whole head, in their order.
fn check(parts: HeadParts<'_>) -> Result<Checked, HeadFault>
    ensures { result ≡ checked (seen parts.entry) }
{
    if !is_well_escaped(parts.target.as_bytes()) {
        return Err(HeadFault::Bad);
    }
    if parts.lines.len() > MAX_LINES {
        return Err(HeadFault::HeadTooLong);
    }
    let Some(method) = method_of(parts.method) else {
        return Err(HeadFault::BadMethod);
    };
    if has_other_coding(parts.lines) {
        return Err(HeadFault::BadCoding);
    }
    match body_of(parts.lines) {
        Some(body) => Ok(Checked { method, body }),
        None => Err(HeadFault::Bad),
    }
}

/// What a whole head is taken as, or the first check that it fails.
pub fn judge_head(alloc: Global, parts: HeadParts<'_>) -> Result<Head, HeadFault>
    ensures { IsJudged (seen parts.entry) result }
{
    let Checked { method, body } = check(parts)?;
    Ok(head_of(alloc, method, body, parts)?)
}
