ghost use Rattle.std.specs.Prelude.{◌≡◌, map};
ghost use Rattle.httparse.specs.Borrowed.{header_parts};
ghost use Rattle.http_head.specs.Lines.{first_value as first_value_of};
ghost use Rattle.http_head.specs.Body.{has_foreign_coding, has_several_codings, has_other_coding, length_name, has_name, is_that, has_other_length, body_by_length, body_of};

use crate::lines::{first_value, is_named};
use crate::words::{is_word, read_number};
use httparse::Header;

/// How long a body is.
#[derive(Clone, Copy, Debug, PartialEq, Eq)]
pub enum BodyKind {
    /// No line says.
    Missing,
    /// So many bytes.
    Length(u64),
    /// A list of chunks.
    Chunked,
}

const CODING: &str = "transfer-encoding";

const LENGTH: &str = "content-length";

fn has_name(lines: &[Header<'_>], name: &str) -> bool
    ensures { result ≡ has_name name.now (map header_parts lines.now) }
{
    lines.iter().any(|line| is_named(line, name))
}

fn has_foreign_coding(lines: &[Header<'_>]) -> bool
    ensures { result ≡ has_foreign_coding (map header_parts lines.now) }
{
    lines.iter().any(|line| is_named(line, CODING) && !is_word(line.value, b"chunked"))
}

fn has_several_codings(lines: &[Header<'_>]) -> bool
    ensures { result ≡ has_several_codings (map header_parts lines.now) }
{
    lines.iter().filter(|line| is_named(line, CODING)).count() > 1
}

/// Whether there is a transfer coding other than `chunked`, or several lines of them.
pub fn has_other_coding(lines: &[Header<'_>]) -> bool
    ensures { result ≡ has_other_coding (map header_parts lines.now) }
{
    has_foreign_coding(lines) || has_several_codings(lines)
}

fn has_other_length(lines: &[Header<'_>], count: u64) -> bool
    ensures { result ≡ has_other_length count (map header_parts lines.now) }
{
    lines.iter().any(|line| is_named(line, LENGTH) && !is_that(count, read_number(line.value)))
}

fn is_that(count: u64, stated: Option<u64>) -> bool
    ensures { result ≡ is_that count stated }
{
    match stated {
        Some(stated) => stated == count,
        None => false,
    }
}

fn body_by_length(lines: &[Header<'_>]) -> Option<BodyKind>
    ensures { result ≡ body_by_length (first_value_of length_name (map header_parts lines.now)) (map header_parts lines.now) }
{
    let Some(value) = first_value(lines, LENGTH) else {
        return Some(BodyKind::Missing);
    };
    let count = read_number(value)?;
    (!has_other_length(lines, count)).then_some(BodyKind::Length(count))
}

/// The body that the lines say. None where they contradict each other.
pub fn body_of(lines: &[Header<'_>]) -> Option<BodyKind>
    ensures { result ≡ body_of (map header_parts lines.now) }
{
    if !has_name(lines, CODING) {
        return body_by_length(lines);
    }
    (!has_name(lines, LENGTH)).then_some(BodyKind::Chunked)
}
