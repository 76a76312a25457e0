ghost use Rattle.std.specs.Prelude.{◌≡◌, codes, string_bytes, IfOk};
ghost use Rattle.serde_json.specs.Data.{string, number, unsigned, member, no_members};
ghost use Rattle.name_core.specs.RecordText.{name_of};
ghost use Rattle.filer_answers.specs.Changed.{plain_answer, continue_answer, made_answer, written_answer, moved_answer, removed_answer, refusal_status, refusal_text, refused_answer};
ghost use Rattle.filer_answers.specs.Json.{object_text};

use crate::json::{error_text, text_answer};
use crate::manner::Manner;
use http_wire::{Answer, AnswerHeaders};
use name_core::Refusal;
use serde_json::json;
use std::alloc::{AllocError, Global};
use weed_base::{Bytes, Path};

/// 100, which asks for a body. Takes no memory.
pub fn continue_answer(alloc: Global) -> Answer
    ensures { result ≡ continue_answer }
{
    let manner = Manner {
        close: false,
        bare: false,
    };
    plain_answer(alloc, 100, manner)
}

/// 201: the directory at the path is there.
pub fn made(alloc: Global, path: &Path, manner: Manner) -> Result<Answer, AllocError>
    ensures { IfOk result (λ answer. answer ≡ made_answer path.now manner) }
{
    let text = name_text(alloc, path)?;
    text_answer(alloc, 201, Vec::new(alloc), text, manner)
}

fn name_text(alloc: Global, path: &Path) -> Result<String, AllocError>
    ensures { IfOk result (λ text. string_bytes text ≡ object_text (member (codes "name") (string (name_of path.now)) no_members)) }
{
    let name = path.name_str().unwrap_or("");
    json!(in alloc; {"name": name})?.to_string(alloc)
}

/// 201: the file at the path was written, with a body of so many bytes.
pub fn written(alloc: Global, path: &Path, size: u64, manner: Manner) -> Result<Answer, AllocError>
    ensures { IfOk result (λ answer. answer ≡ written_answer path.now size manner) }
{
    let text = name_and_size_text(alloc, path, size)?;
    text_answer(alloc, 201, Vec::new(alloc), text, manner)
}

fn name_and_size_text(alloc: Global, path: &Path, size: u64) -> Result<String, AllocError>
    ensures { IfOk result (λ text. string_bytes text
        ≡ object_text (member (codes "name") (string (name_of path.now)) (member (codes "size") (number (unsigned size)) no_members))) }
{
    let name = path.name_str().unwrap_or("");
    json!(in alloc; {"name": name, "size": size})?.to_string(alloc)
}

/// 204: the path was moved. Takes no memory.
pub fn moved(alloc: Global, manner: Manner) -> Answer
    ensures { result ≡ moved_answer manner }
{
    plain_answer(alloc, 204, manner)
}

/// 204: the path was removed. Takes no memory.
pub fn removed(alloc: Global, manner: Manner) -> Answer
    ensures { result ≡ removed_answer manner }
{
    plain_answer(alloc, 204, manner)
}

fn plain_answer(alloc: Global, status: u16, manner: Manner) -> Answer
    ensures { result ≡ plain_answer status manner }
{
    Answer {
        status,
        headers: AnswerHeaders::of(Vec::new(alloc)),
        body: Bytes::of(Vec::new(alloc)),
        close: manner.close,
        bare: manner.bare,
    }
}

/// 404 or 409: a command was refused.
pub fn refused(alloc: Global, refusal: &Refusal, manner: Manner) -> Result<Answer, AllocError>
    ensures { IfOk result (λ answer. answer ≡ refused_answer refusal.now manner) }
{
    let name = refusal_text(alloc, refusal)?;
    let text = error_text(alloc, name.as_str())?;
    text_answer(
        alloc,
        refusal_status(refusal),
        Vec::new(alloc),
        text,
        manner,
    )
}

fn refusal_status(refusal: &Refusal) -> u16
    ensures { result ≡ refusal_status refusal.now }
{
    match refusal {
        Refusal::NotFound => 404,
        _ => 409,
    }
}

fn refusal_text(alloc: Global, refusal: &Refusal) -> Result<String, AllocError>
    ensures { IfOk result (λ text. string_bytes text ≡ refusal_text refusal.now) }
{
    match refusal {
        Refusal::IsFile(path) => format!(in alloc; "IsFile {}", path.as_str()),
        _ => String::from_str(alloc, refusal.name()),
    }
}
