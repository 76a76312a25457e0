ghost use Rattle.std.specs.Prelude.{◌≡◌, ◌++◌, codes, string_bytes, IfOk, IsSome};
ghost use Rattle.http_wire.specs.Answer.{reason_of};
ghost use Rattle.file_id.specs.FileId.{text_of};
ghost use Rattle.filer_answers.specs.Denial.{denial_status, denial_name, denial_fid, denial_text, denial_lines, closes_ever, denied_answer};

use crate::json::{error_text, text_answer};
use crate::lines::push_line;
use crate::manner::Manner;
use crate::text::str_of;
use file_id::Fid;
use http_wire::Answer;
use std::alloc::{AllocError, Global};
use thiserror::Error;
use weed_base::{Bytes, PathFault};

/// Why a request isn't served, but for the refusals of its command.
#[derive(Clone, Copy, Debug, PartialEq, Eq, Error)]
pub enum Denial {
    #[error("no head, a malformed escape, or bad lengths")]
    Bad,
    #[error("a head of over 16,384 bytes or 64 lines")]
    HeadTooLong,
    #[error("a method that is not served")]
    BadMethod,
    #[error("a transfer coding that is not served")]
    BadCoding,
    #[error("a content coding that is not served")]
    Encoded,
    #[error("no path: {0}")]
    Path(PathFault),
    #[error("a query that can't be read")]
    BadQuery,
    #[error("a body is missing")]
    NoLength,
    #[error("a body past the limit")]
    TooLong,
    #[error("no form, where one is needed")]
    BadForm,
    #[error("the bytes end before the body does")]
    Cut,
    #[error("a body of bad chunks")]
    BadChunk,
    #[error("a media type of over 255 bytes")]
    BadMime,
    #[error("a range outside of a file of {length} bytes")]
    BadRange { length: u64 },
    #[error("a chunk is compressed")]
    CompressedChunk(Fid),
    #[error("a chunk is ciphered")]
    CipheredChunk(Fid),
    #[error("a chunk is a manifest")]
    Manifest(Fid),
    #[error("a call of the blobs failed")]
    BlobFault,
    #[error("a needle is not held")]
    NotHeld(Fid),
    #[error("a needle is short")]
    ShortNeedle(Fid),
    #[error("a call of the disk failed")]
    DiskFault,
    #[error("a call of the keeper failed")]
    KeeperFault,
    #[error("a file of the disk is damaged")]
    Damaged,
    #[error("broken by a former fault")]
    Broken,
    #[error("out of memory")]
    Memory,
    #[error("no seat is free")]
    NoSeat,
}

impl Denial {
    /// The status of its answer. Takes no memory.
    pub fn status(&self) -> u16
        ensures status { result ≡ denial_status self.now }
        ensures known { IsSome (reason_of result) }
    {
        match self {
            Denial::Bad
            | Denial::Path(_)
            | Denial::BadQuery
            | Denial::BadForm
            | Denial::Cut
            | Denial::BadChunk
            | Denial::BadMime => 400,
            Denial::NoLength => 411,
            Denial::TooLong => 413,
            Denial::HeadTooLong => 414,
            Denial::Encoded
            | Denial::CompressedChunk(_)
            | Denial::CipheredChunk(_)
            | Denial::Manifest(_) => 415,
            Denial::BadRange { .. } => 416,
            Denial::DiskFault | Denial::KeeperFault | Denial::Damaged | Denial::Broken => 500,
            Denial::BadMethod | Denial::BadCoding => 501,
            Denial::BlobFault | Denial::NotHeld(_) | Denial::ShortNeedle(_) => 502,
            Denial::Memory | Denial::NoSeat => 503,
        }
    }

    /// Whether its answer closes the connection, however it is given. Takes no memory.
    pub fn closes_ever(&self) -> bool
        ensures { result ≡ closes_ever self.now }
    {
        match self {
            Denial::DiskFault
            | Denial::KeeperFault
            | Denial::Damaged
            | Denial::Broken
            | Denial::NoSeat => true,
            _ => false,
        }
    }

    /// Its name as it stands in answers, before a file id. Takes no memory.
    fn name(&self) -> &'static str
        ensures { result.now ≡ denial_name self.now }
    {
        match self {
            Denial::Bad => "Bad",
            Denial::HeadTooLong => "HeadTooLong",
            Denial::BadMethod => "BadMethod",
            Denial::BadCoding => "BadCoding",
            Denial::Encoded => "Encoded",
            Denial::Path(fault) => fault.name(),
            Denial::BadQuery => "BadQuery",
            Denial::NoLength => "NoLength",
            Denial::TooLong => "TooLong",
            Denial::BadForm => "BadForm",
            Denial::Cut => "Cut",
            Denial::BadChunk => "BadChunk",
            Denial::BadMime => "BadMime",
            Denial::BadRange { .. } => "BadRange",
            Denial::CompressedChunk(_) => "CompressedChunk",
            Denial::CipheredChunk(_) => "CipheredChunk",
            Denial::Manifest(_) => "Manifest",
            Denial::BlobFault => "BlobFault",
            Denial::NotHeld(_) => "NotHeld",
            Denial::ShortNeedle(_) => "ShortNeedle",
            Denial::DiskFault => "DiskFault",
            Denial::KeeperFault => "KeeperFault",
            Denial::Damaged => "Damaged",
            Denial::Broken => "Broken",
            Denial::Memory => "Memory",
            Denial::NoSeat => "NoSeat",
        }
    }

    /// The file id that it names. Takes no memory.
    fn fid(&self) -> Option<Fid>
        ensures { result ≡ denial_fid self.now }
    {
        match self {
            Denial::CompressedChunk(fid) => Some(*fid),
            Denial::CipheredChunk(fid) => Some(*fid),
            Denial::Manifest(fid) => Some(*fid),
            Denial::NotHeld(fid) => Some(*fid),
            Denial::ShortNeedle(fid) => Some(*fid),
            _ => None,
        }
    }
}

/// A request that isn't served: an answer of the denial's status and text.
pub fn denied(alloc: Global, denial: &Denial, manner: Manner) -> Result<Answer, AllocError>
    ensures { IfOk result (λ answer. answer ≡ denied_answer denial.now manner) }
{
    let name = denial_text(alloc, denial)?;
    let text = error_text(alloc, name.as_str())?;
    let lines = denial_lines(alloc, denial)?;
    let manner = Manner {
        close: manner.close || denial.closes_ever(),
        ..manner
    };
    text_answer(alloc, denial.status(), lines, text, manner)
}

/// The text of a denial: its name, with the file id where it names one.
fn denial_text(alloc: Global, denial: &Denial) -> Result<String, AllocError>
    ensures { IfOk result (λ text. string_bytes text ≡ denial_text denial.now) }
{
    match denial.fid() {
        Some(fid) => name_with_fid(alloc, denial.name(), fid),
        None => String::from_str(alloc, denial.name()),
    }
}

fn name_with_fid(alloc: Global, name: &str, fid: Fid) -> Result<String, AllocError>
    ensures { IfOk result (λ text. string_bytes text ≡ name.now ++ (codes " " ++ text_of fid)) }
{
    let text = fid.write();
    let digits = str_of(text.as_slice());
    format!(in alloc; "{name} {digits}")
}

/// The length of a file whose range is missed.
fn denial_lines(alloc: Global, denial: &Denial) -> Result<Vec<(Bytes, Bytes)>, AllocError>
    ensures { IfOk result (λ lines. lines.items ≡ denial_lines denial.now) }
{
    let mut lines = Vec::new(alloc);
    if let Denial::BadRange { length } = denial {
        let range = format!(in alloc; "bytes */{length}")?;
        push_line(alloc, &mut lines, b"Content-Range", range.as_bytes())?;
    }
    Ok(lines)
}
