ghost use Rattle.std.specs.Prelude.{◌≡◌, IfOk, string_bytes};
ghost use Rattle.std.specs.List.{flat_map};
ghost use Rattle.weed_command.specs.Answer.{ended, closing_lines, code_of, reason_of, object_text, answer_text, created_text, refused_text};

use serde_json::json;
use std::alloc::{AllocError, Global};
use weed_base::Bytes;

/// What an answer says of its request.
#[derive(Clone, Copy, Debug, PartialEq, Eq)]
pub enum Status {
    Created,
    BadRequest,
    Conflict,
    InternalServerError,
    NotImplemented,
    ServiceUnavailable,
}

impl Status {
    /// Its number. Takes no memory.
    pub fn code(&self) -> u16
        ensures { result ≡ code_of self.now }
    {
        match self {
            Status::Created => 201,
            Status::BadRequest => 400,
            Status::Conflict => 409,
            Status::InternalServerError => 500,
            Status::NotImplemented => 501,
            Status::ServiceUnavailable => 503,
        }
    }

    /// Its words. Takes no memory.
    pub fn reason(&self) -> &'static str
        ensures { result.now ≡ reason_of self.now }
    {
        match self {
            Status::Created => "Created",
            Status::BadRequest => "Bad Request",
            Status::Conflict => "Conflict",
            Status::InternalServerError => "Internal Server Error",
            Status::NotImplemented => "Not Implemented",
            Status::ServiceUnavailable => "Service Unavailable",
        }
    }
}

/// The answer that a directory of that name was made.
pub fn created(alloc: Global, name: &str) -> Result<Bytes, AllocError>
    ensures { IfOk result (λ answer. answer ≡ created_text name.now) }
{
    let json = one_member(alloc, "name", name)?;
    answer(alloc, Status::Created, json.as_str(), false)
}

/// A refusal, or a fault, with that text. It may close the connection.
pub fn refused(alloc: Global, status: Status, text: &str, close: bool) -> Result<Bytes, AllocError>
    ensures { IfOk result (λ answer. answer ≡ refused_text status text.now close) }
{
    let json = one_member(alloc, "error", text)?;
    answer(alloc, status, json.as_str(), close)
}

/// The JSON of an object with one member.
fn one_member(alloc: Global, name: &str, value: &str) -> Result<String, AllocError>
    ensures { IfOk result (λ json. string_bytes json ≡ object_text name.now value.now) }
{
    json!(in alloc; {name: value})?.to_string(alloc)
}

fn answer(alloc: Global, status: Status, json: &str, close: bool) -> Result<Bytes, AllocError>
    ensures { IfOk result (λ answer. answer ≡ answer_text status json.now close) }
{
    let code = status.code();
    let reason = status.reason();
    let length = json.len();
    let closing = closing_line(close);
    let text = format!(in alloc;
        "HTTP/1.1 {code} {reason}\r\nContent-Type: application/json\r\nContent-Length: {length}\r\n{closing}\r\n{json}"
    )?;
    Ok(Bytes::of(text.into_bytes()))
}

fn closing_line(close: bool) -> &'static str
    ensures { result.now ≡ flat_map ended (closing_lines close) }
{
    if close { "Connection: close\r\n" } else { "" }
}
