ghost use Rattle.std.specs.Prelude.{◌≡◌, ◌++◌, All, codes, length};
ghost use Rattle.weed_base.specs.Told.{HasCause};
ghost use Rattle.http_wire.specs.Written.{WritesAll};
ghost use Rattle.http_client.specs.Request.{IsVisible, method_name, states_length, request_line, host_line, length_line, request_text};

use http_head::Method;
use http_wire::{WriteFault, write_all};
use itoa::Buffer;
use weed_base::Sink;

/// Writes a request, or first bytes of it, not all, where a write fails. Target and host are printable ASCII without
/// blanks. Takes no memory.
pub fn write_request<K: Sink>(
    to: &mut K,
    method: Method,
    target: &[u8],
    host: &[u8],
    body: &[u8],
) -> Result<(), WriteFault>
    requires target { All IsVisible target.now }
    requires host { All IsVisible host.now }
    ensures bytes { WritesAll (K.written to.old) (K.written to.new) result (request_text method target.now host.now body.now) }
    ensures cause { HasCause (K.faults to.old) (K.faults to.new) result }
    ensures beside { K.beside to.new ≡ K.beside to.old }
    ensures course { (start : K) → K.course start to.old → K.course start to.new }
{
    write_front(to, method, target, host)?;
    write_rest(to, method, body)
}

/// Writes the lines that name the target and the host.
fn write_front<K: Sink>(
    to: &mut K,
    method: Method,
    target: &[u8],
    host: &[u8],
) -> Result<(), WriteFault>
    ensures bytes { WritesAll (K.written to.old) (K.written to.new) result (request_line method target.now ++ host_line host.now) }
    ensures cause { HasCause (K.faults to.old) (K.faults to.new) result }
    ensures beside { K.beside to.new ≡ K.beside to.old }
    ensures course { (start : K) → K.course start to.old → K.course start to.new }
{
    write_around(to, method_name(method).as_bytes(), b" ", target)?;
    write_around(to, b" HTTP/1.1\r\nHost: ", host, b"\r\n")
}

/// Writes what stands behind the line that names the host.
fn write_rest<K: Sink>(to: &mut K, method: Method, body: &[u8]) -> Result<(), WriteFault>
    ensures bytes { WritesAll (K.written to.old) (K.written to.new) result (length_line method (length body.now) ++ (codes "Connection: close\r\n\r\n" ++ body.now)) }
    ensures cause { HasCause (K.faults to.old) (K.faults to.new) result }
    ensures beside { K.beside to.new ≡ K.beside to.old }
    ensures course { (start : K) → K.course start to.old → K.course start to.new }
{
    write_length(to, method, body.len())?;
    write_around(to, b"Connection: close\r\n", b"\r\n", body)
}

/// Writes the line that states the body's length, where the method has one.
fn write_length<K: Sink>(to: &mut K, method: Method, length: usize) -> Result<(), WriteFault>
    ensures bytes { WritesAll (K.written to.old) (K.written to.new) result (length_line method length) }
    ensures cause { HasCause (K.faults to.old) (K.faults to.new) result }
    ensures beside { K.beside to.new ≡ K.beside to.old }
    ensures course { (start : K) → K.course start to.old → K.course start to.new }
{
    if !states_length(method) {
        return write_all(to, &[]);
    }
    let mut digits = Buffer::new();
    write_around(
        to,
        b"Content-Length: ",
        digits.format(length).as_bytes(),
        b"\r\n",
    )
}

/// Writes three pieces one after another.
fn write_around<K: Sink>(
    to: &mut K,
    front: &[u8],
    value: &[u8],
    back: &[u8],
) -> Result<(), WriteFault>
    ensures bytes { WritesAll (K.written to.old) (K.written to.new) result (front.now ++ (value.now ++ back.now)) }
    ensures cause { HasCause (K.faults to.old) (K.faults to.new) result }
    ensures beside { K.beside to.new ≡ K.beside to.old }
    ensures course { (start : K) → K.course start to.old → K.course start to.new }
{
    write_all(to, front)?;
    write_all(to, value)?;
    write_all(to, back)
}

/// The name of a method.
fn method_name(method: Method) -> &'static str
    ensures { result.now ≡ method_name method }
{
    match method {
        Method::Get => "GET",
        Method::Head => "HEAD",
        Method::Put => "PUT",
        Method::Post => "POST",
        Method::Delete => "DELETE",
    }
}

/// Whether a request of the method states the length of its body.
fn states_length(method: Method) -> bool
    ensures { result ≡ states_length method }
{
    matches!(method, Method::Put | Method::Post)
}
