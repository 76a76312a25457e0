ghost use Rattle.std.specs.Prelude.{◌≡◌, ◌++◌, [], IfOk, OnOk};
ghost use Rattle.entry.specs.Entry.{IsValid, file_length};
ghost use Rattle.filer_answers.specs.Part.{IsWithin};
ghost use Rattle.filer_answers.specs.Heads.{shown_mime, etag_lines, contents_lines, part_status, part_lines, file_head, subscription_head};

use crate::lines::{push_length, push_line};
use crate::part::Part;
use entry::{Attributes, Entry};
use http_wire::{Answer, AnswerHeaders};
use std::alloc::{AllocError, Global};
use weed_base::{Bytes, Mime};

/// The head of an answer of a file's bytes: 200 for all of them, 206 for a part. GET sends the bytes behind it.
pub fn file_head(
    alloc: Global,
    entry: &Entry,
    part: Part,
    close: bool,
) -> Result<Answer, AllocError>
    requires valid { IsValid entry.now }
    requires within { IsWithin (file_length entry.now) part }
    ensures { IfOk result (λ answer. answer ≡ file_head entry.now part close) }
{
    let mut lines = Vec::new(alloc);
    push_contents(alloc, &mut lines, &entry.attributes)?;
    push_part(alloc, &mut lines, part, entry.length())?;
    Ok(Answer {
        status: part_status(part),
        headers: AnswerHeaders::of(lines),
        body: Bytes::of(Vec::new(alloc)),
        close,
        bare: true,
    })
}

fn part_status(part: Part) -> u16
    ensures { result ≡ part_status part }
{
    match part {
        Part::Whole => 200,
        Part::Between { .. } => 206,
    }
}

/// Adds the lines that are told of a file whatever part of it is sent.
fn push_contents(
    alloc: Global,
    lines: &mut Vec<(Bytes, Bytes)>,
    attributes: &Attributes,
) -> Result<(), AllocError>
    ensures { OnOk result (lines.new.items ≡ lines.old.items ++ contents_lines attributes.now) }
{
    push_line(alloc, lines, b"Content-Type", shown_mime(&attributes.mime))?;
    push_etag(alloc, lines, &attributes.md5)?;
    push_line(alloc, lines, b"Accept-Ranges", b"bytes")
}

fn shown_mime(mime: &Mime) -> &[u8]
    ensures { result.now ≡ shown_mime mime.now }
{
    let text = mime.as_slice();
    if text.is_empty() {
        b"application/octet-stream"
    } else {
        text
    }
}

/// Adds the line of the digest, where there is one.
fn push_etag(
    alloc: Global,
    lines: &mut Vec<(Bytes, Bytes)>,
    md5: &Option<[u8; 16]>,
) -> Result<(), AllocError>
    ensures { OnOk result (lines.new.items ≡ lines.old.items ++ etag_lines md5.now) }
{
    match md5 {
        Some(digest) => {
            let digits = hex::encode(alloc, digest.as_slice())?;
            let etag = format!(in alloc; "\"{digits}\"")?;
            push_line(alloc, lines, b"ETag", etag.as_bytes())
        }
        None => Ok(()),
    }
}

/// Adds the lines of a part of a file of so many bytes.
fn push_part(
    alloc: Global,
    lines: &mut Vec<(Bytes, Bytes)>,
    part: Part,
    length: u64,
) -> Result<(), AllocError>
    requires { IsWithin length part }
    ensures { OnOk result (lines.new.items ≡ lines.old.items ++ part_lines part length) }
{
    match part {
        Part::Whole => push_length(alloc, lines, length),
        Part::Between { from, to } => {
            let last = to - 1;
            let range = format!(in alloc; "bytes {from}-{last}/{length}")?;
            push_line(alloc, lines, b"Content-Range", range.as_bytes())?;
            push_length(alloc, lines, to - from)
        }
    }
}

/// The head before the records of a subscription, which go on to the connection's end.
pub fn subscription_head(alloc: Global) -> Result<Answer, AllocError>
    ensures { IfOk result (λ answer. answer ≡ subscription_head) }
{
    let mut lines = Vec::new(alloc);
    push_line(
        alloc,
        &mut lines,
        b"Content-Type",
        b"application/octet-stream",
    )?;
    Ok(Answer {
        status: 200,
        headers: AnswerHeaders::of(lines),
        body: Bytes::of(Vec::new(alloc)),
        close: true,
        bare: true,
    })
}
