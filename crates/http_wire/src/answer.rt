ghost use Rattle.std.specs.Prelude.{◌≡◌, ◌++◌, Some, IsSome, codes};
ghost use Rattle.std.specs.List.{flat_map};
ghost use Rattle.weed_base.specs.Told.{HasCause};
ghost use Rattle.http_wire.specs.Written.{WritesAll};
ghost use Rattle.http_wire.specs.Answer.{reason_of, status_line, header_line, closing_line, shown_body, answer_text};

use crate::write::{WriteFault, write_pieces};
use itoa::Buffer;
use weed_base::{Bytes, Items, Sink};

/// The header lines of an answer: names and values.
pub type AnswerHeaders = Items<(Bytes, Bytes)>;

/// An answer to a request.
#[derive(Debug, Drop)]
pub struct Answer {
    pub status: u16,
    /// All header lines but the one that says that the connection closes.
    pub headers: AnswerHeaders,
    pub body: Bytes,
    /// Whether the connection closes behind it.
    pub close: bool,
    /// Whether its head alone is written.
    pub bare: bool,
}

/// Writes the answer, or first bytes of it, not all, where a write fails. The status is one that has a reason phrase
/// in `reason_of`. Takes no memory.
pub fn write_response<K: Sink>(to: &mut K, answer: &Answer) -> Result<(), WriteFault>
    requires { IsSome (reason_of answer.now.status) }
    ensures bytes { WritesAll (K.written to.old) (K.written to.new) result (answer_text answer.now) }
    ensures cause { HasCause (K.faults to.old) (K.faults to.new) result }
    ensures beside { K.beside to.new ≡ K.beside to.old }
    ensures course { (start : K) → K.course start to.old → K.course start to.new }
{
    write_status(to, answer.status)?;
    write_headers(to, answer.headers.as_slice())?;
    write_end(to, answer)
}

fn write_status<K: Sink>(to: &mut K, status: u16) -> Result<(), WriteFault>
    requires { IsSome (reason_of status) }
    ensures bytes { WritesAll (K.written to.old) (K.written to.new) result (status_line status) }
    ensures cause { HasCause (K.faults to.old) (K.faults to.new) result }
    ensures beside { K.beside to.new ≡ K.beside to.old }
    ensures course { (start : K) → K.course start to.old → K.course start to.new }
{
    let mut digits = Buffer::new();
    write_pieces(
        to,
        &[
            b"HTTP/1.1 ",
            digits.format(status).as_bytes(),
            b" ",
            reason_of(status).as_bytes(),
            b"\r\n",
        ],
    )
}

fn write_headers<K: Sink>(to: &mut K, headers: &[(Bytes, Bytes)]) -> Result<(), WriteFault>
    ensures bytes { WritesAll (K.written to.old) (K.written to.new) result (flat_map header_line headers.now) }
    ensures cause { HasCause (K.faults to.old) (K.faults to.new) result }
    ensures beside { K.beside to.new ≡ K.beside to.old }
    ensures course { (start : K) → K.course start to.old → K.course start to.new }
{
    for header in headers {
        write_header(to, header)?;
    }
    Ok(())
}

fn write_header<K: Sink>(to: &mut K, header: &(Bytes, Bytes)) -> Result<(), WriteFault>
    ensures bytes { WritesAll (K.written to.old) (K.written to.new) result (header_line header.now) }
    ensures cause { HasCause (K.faults to.old) (K.faults to.new) result }
    ensures beside { K.beside to.new ≡ K.beside to.old }
    ensures course { (start : K) → K.course start to.old → K.course start to.new }
{
    let (name, value) = header;
    write_pieces(to, &[name.as_slice(), b": ", value.as_slice(), b"\r\n"])
}

/// Writes what stands behind the header lines.
fn write_end<K: Sink>(to: &mut K, answer: &Answer) -> Result<(), WriteFault>
    ensures bytes { WritesAll (K.written to.old) (K.written to.new) result (closing_line answer.now.close ++ (codes "\r\n" ++ shown_body answer.now)) }
    ensures cause { HasCause (K.faults to.old) (K.faults to.new) result }
    ensures beside { K.beside to.new ≡ K.beside to.old }
    ensures course { (start : K) → K.course start to.old → K.course start to.new }
{
    write_pieces(to, &[closing_line(answer), b"\r\n", shown_body(answer)])
}

/// The reason phrase of a status.
fn reason_of(status: u16) -> &'static str
    requires { IsSome (reason_of status) }
    ensures { Some result.now ≡ reason_of status }
{
    match status {
        100 => "Continue",
        200 => "OK",
        201 => "Created",
        202 => "Accepted",
        204 => "No Content",
        206 => "Partial Content",
        400 => "Bad Request",
        404 => "Not Found",
        409 => "Conflict",
        410 => "Gone",
        411 => "Length Required",
        413 => "Content Too Large",
        414 => "URI Too Long",
        415 => "Unsupported Media Type",
        416 => "Range Not Satisfiable",
        500 => "Internal Server Error",
        501 => "Not Implemented",
        502 => "Bad Gateway",
        503 => "Service Unavailable",
        _ => unreachable!(),
    }
}

fn closing_line(answer: &Answer) -> &[u8]
    ensures { result.now ≡ closing_line answer.now.close }
{
    if answer.close {
        b"Connection: close\r\n"
    } else {
        b""
    }
}

fn shown_body(answer: &Answer) -> &[u8]
    ensures { result.now ≡ shown_body answer.now }
{
    if answer.bare {
        &[]
    } else {
        answer.body.as_slice()
    }
}
