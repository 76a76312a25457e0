use http_head::{BodyKind, Head, HeadFault, MAX_HEAD, Method};
use http_wire::{Inbox, Next, next_request};
use std::alloc::Global;
use std::test::Fail;
use weed_base::MemSource;

const LINE: &[u8] = b"GET / HTTP/1.1\r\n";

/// What the first request of these bytes is, read so many bytes at a time.
fn first(alloc: Global, text: Vec<u8>, most: usize) -> Result<Result<Next, HeadFault>, Fail> {
    let mut from = MemSource::new(text, Vec::new(alloc)).with_most(most.max(1));
    let mut inbox = Inbox::new(alloc)?;
    Ok(next_request(alloc, &mut from, &mut inbox))
}

fn is_refused(alloc: Global, text: Vec<u8>, most: usize, wanted: HeadFault) -> Result<bool, Fail> {
    match first(alloc, text, most)? {
        Ok(_) => Ok(false),
        Err(fault) => Ok(fault == wanted),
    }
}

fn is_taken(alloc: Global, text: Vec<u8>, most: usize) -> Result<bool, Fail> {
    Ok(matches!(first(alloc, text, most)?, Ok(Next::Request(_))))
}

/// Refusals, some of them beside another one that would come later.
const REFUSED: [(&[u8], HeadFault); 12] = [
    (b"BREW / HTTP/1.1\r\n\r\n", HeadFault::BadMethod),
    (
        b"PUT /e HTTP/1.1\r\nTransfer-Encoding: gzip\r\n\r\n",
        HeadFault::BadCoding,
    ),
    (
        b"PUT /e HTTP/1.1\r\nContent-Length: 1\r\nContent-Length: 2\r\n\r\n",
        HeadFault::Bad,
    ),
    (
        b"PUT /e HTTP/1.1\r\nContent-Length: 0x1\r\n\r\n",
        HeadFault::Bad,
    ),
    (
        b"PUT /e HTTP/1.1\r\nContent-Length: 1\r\nTransfer-Encoding: chunked\r\n\r\n",
        HeadFault::Bad,
    ),
    (b"GET /%zz HTTP/1.1\r\n\r\n", HeadFault::Bad),
    (b"GET /?a=%4 HTTP/1.1\r\n\r\n", HeadFault::Bad),
    (b"GET / HTTP/1.1\r\nA: b\rc\r\n\r\n", HeadFault::Bad),
    (b"GET / HTTP/1.1\r\nA: b\r\n", HeadFault::Bad),
    (b"BREW /%zz HTTP/1.1\r\n\r\n", HeadFault::Bad),
    (
        b"BREW / HTTP/1.1\r\nTransfer-Encoding: gzip\r\n\r\n",
        HeadFault::BadMethod,
    ),
    (
        b"PUT / HTTP/1.1\r\nTransfer-Encoding: gzip\r\nContent-Length: x\r\n\r\n",
        HeadFault::BadCoding,
    ),
];

#[test]
fn each_refusal_has_its_name(rt: HostRuntime) -> Result<(), Fail> {
    for (text, fault) in &REFUSED {
        assert!(rt; is_refused(rt.alloc(), text.to_vec(rt.alloc())?, 1000, *fault)?);
    }
    Ok(())
}

/// A head of so many lines.
fn with_lines(alloc: Global, count: usize) -> Result<Vec<u8>, Fail> {
    let mut text = LINE.to_vec(alloc)?;
    for _ in 0..count {
        text.extend_from_slice(b"A: b\r\n")?;
    }
    text.extend_from_slice(b"\r\n")?;
    Ok(text)
}

#[test]
fn a_head_has_at_most_64_lines(rt: HostRuntime) -> Result<(), Fail> {
    assert!(rt; is_taken(rt.alloc(), with_lines(rt.alloc(), 64)?, 1000)?);
    let more = with_lines(rt.alloc(), 65)?;
    assert!(rt; is_refused(rt.alloc(), more, 1000, HeadFault::HeadTooLong)?);
    Ok(())
}

/// A head of so many bytes, at least 23.
fn with_length(alloc: Global, length: usize) -> Result<Vec<u8>, Fail> {
    let mut text = LINE.to_vec(alloc)?;
    text.extend_from_slice(b"A: ")?;
    for _ in 0..length.saturating_sub(23) {
        text.push(b'x')?;
    }
    text.extend_from_slice(b"\r\n\r\n")?;
    Ok(text)
}

/// Whether a head may have its most bytes, and not one more, however it comes.
fn keeps_its_limit(alloc: Global, most: usize) -> Result<bool, Fail> {
    let taken = is_taken(alloc, with_length(alloc, MAX_HEAD)?, most)?;
    let longer = with_length(alloc, MAX_HEAD + 1)?;
    Ok(taken && is_refused(alloc, longer, most, HeadFault::HeadTooLong)?)
}

#[test]
fn a_head_has_at_most_16384_bytes(rt: HostRuntime) -> Result<(), Fail> {
    assert!(rt; keeps_its_limit(rt.alloc(), 20_000)?);
    assert!(rt; keeps_its_limit(rt.alloc(), 1)?);
    Ok(())
}

/// A request to put that asks for a 100.
const PUT: &[u8] =
    b"PUT /photos/a.jpg HTTP/1.1\r\nContent-Length: 10000000\r\nExpect: 100-continue\r\nA: \xff\r\n\r\n";

fn is_put(head: &Head) -> bool {
    head.method == Method::Put
        && head.path.as_slice() == b"/photos/a.jpg".as_slice()
        && head.body == BodyKind::Length(10_000_000)
        && head.expect
        && !head.close
}

#[test]
fn a_put_is_read_byte_by_byte(rt: HostRuntime) -> Result<(), Fail> {
    let read = match first(rt.alloc(), PUT.to_vec(rt.alloc())?, 1)? {
        Ok(Next::Request(head)) => is_put(&head),
        _ => false,
    };
    assert!(rt; read);
    Ok(())
}
