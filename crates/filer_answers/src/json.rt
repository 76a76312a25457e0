ghost use Rattle.std.specs.Prelude.{◌≡◌, codes, string_bytes, IfOk};
ghost use Rattle.filer_answers.specs.Json.{text_answer, error_text};

use crate::lines::{push_length, push_line};
use crate::manner::Manner;
use http_wire::{Answer, AnswerHeaders};
use serde_json::json;
use std::alloc::{AllocError, Global};
use weed_base::Bytes;

/// An answer with that JSON, with further header lines between its type and its length.
pub fn text_answer(
    alloc: Global,
    status: u16,
    further: Vec<(Bytes, Bytes)>,
    text: String,
    manner: Manner,
) -> Result<Answer, AllocError>
    ensures { IfOk result (λ answer. answer ≡ text_answer status further.items (string_bytes text) manner) }
{
    let mut further = further;
    let body = text.into_bytes();
    let mut lines = Vec::new(alloc);
    push_line(alloc, &mut lines, b"Content-Type", b"application/json")?;
    lines.append(&mut further)?;
    push_length(alloc, &mut lines, body.len() as u64)?;
    Ok(Answer {
        status,
        headers: AnswerHeaders::of(lines),
        body: Bytes::of(body),
        close: manner.close,
        bare: manner.bare,
    })
}

/// The JSON of a refusal, or a fault, of that name.
pub fn error_text(alloc: Global, text: &str) -> Result<String, AllocError>
    ensures { IfOk result (λ json. string_bytes json ≡ error_text text.now) }
{
    json!(in alloc; {"error": text})?.to_string(alloc)
}
