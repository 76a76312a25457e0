use http_bodies::{BodyFault, BodyState, read_body};
use http_head::BodyKind;
use http_wire::Inbox;
use std::alloc::Global;
use std::test::Fail;
use weed_base::MemSource;

const NEXT: &[u8] = b"GET / HTTP/1.1\r\n\r\n";

/// Reads all of a body of these bytes, so many at a time, and answers its data. After it the next request comes.
fn data_of(
    alloc: Global,
    text: &[u8],
    kind: BodyKind,
    most: usize,
) -> Result<Result<Vec<u8>, BodyFault>, Fail> {
    let mut bytes = text.to_vec(alloc)?;
    bytes.extend_from_slice(NEXT)?;
    let mut from = MemSource::new(bytes, Vec::new(alloc)).with_most(most.max(1));
    let mut inbox = Inbox::new(alloc)?;
    let mut body = BodyState::within(kind, 16);
    let mut data = Vec::new(alloc);
    let mut room = [0u8; 7];
    for _ in 0..text.len().saturating_add(1) {
        match read_body(&mut from, &mut inbox, &mut body, &mut room) {
            Ok(0) => break,
            Ok(count) => data.extend_from_slice(room.get(..count).unwrap_or(&[]))?,
            Err(fault) => return Ok(Err(fault)),
        }
    }
    Ok(Ok(data))
}

fn gives(alloc: Global, text: &[u8], kind: BodyKind, data: &[u8]) -> Result<bool, Fail> {
    let whole = match data_of(alloc, text, kind, 1000)? {
        Ok(read) => read.as_slice() == data,
        Err(_) => false,
    };
    let piecewise = match data_of(alloc, text, kind, 1)? {
        Ok(read) => read.as_slice() == data,
        Err(_) => false,
    };
    Ok(whole && piecewise)
}

fn is_refused(alloc: Global, text: &[u8], kind: BodyKind, wanted: BodyFault) -> Result<bool, Fail> {
    match data_of(alloc, text, kind, 1)? {
        Ok(_) => Ok(false),
        Err(fault) => Ok(fault == wanted),
    }
}

/// Bodies in chunks, each with its data.
const CHUNKS: [(&[u8], &[u8]); 5] = [
    (b"5\r\nhello\r\n0\r\n\r\n", b"hello"),
    (b"10\r\n0123456789abcdef\r\n0\r\n\r\n", b"0123456789abcdef"),
    (
        b"0000000000000005;x=y\r\nhello\r\n0\r\nA: b\r\n\r\n",
        b"hello",
    ),
    (b"2\r\nhe\r\n3\r\nllo\r\n0\r\n\r\n", b"hello"),
    (b"0\r\n\r\n", b""),
];

#[test]
fn bodies_in_chunks_give_their_data(rt: HostRuntime) -> Result<(), Fail> {
    for (text, data) in &CHUNKS {
        assert!(rt; gives(rt.alloc(), text, BodyKind::Chunked, data)?);
    }
    assert!(rt; gives(rt.alloc(), b"hello", BodyKind::Length(5), b"hello")?);
    Ok(())
}

/// Bodies in chunks that are refused, each with its refusal.
const REFUSED: [(&[u8], BodyFault); 6] = [
    (
        b"00000000000000005\r\nhello\r\n0\r\n\r\n",
        BodyFault::BadChunk,
    ),
    (b"5\r\nhello0\r\n\r\n", BodyFault::BadChunk),
    (b"x\r\n", BodyFault::BadChunk),
    (b"11\r\n", BodyFault::TooLong),
    (b"8\r\n01234567\r\n9\r\n", BodyFault::TooLong),
    (b"-1\r\n", BodyFault::BadChunk),
];

#[test]
fn bad_chunks_are_refused(rt: HostRuntime) -> Result<(), Fail> {
    for (text, fault) in &REFUSED {
        assert!(rt; is_refused(rt.alloc(), text, BodyKind::Chunked, *fault)?);
    }
    Ok(())
}

#[test]
fn lengths_are_held_to(rt: HostRuntime) -> Result<(), Fail> {
    let limit = BodyKind::Length(17);
    assert!(rt; is_refused(rt.alloc(), b"hello", limit, BodyFault::TooLong)?);
    Ok(())
}

/// A chunk's line of so many bytes, and what is behind it.
fn with_line(alloc: Global, length: usize) -> Result<Vec<u8>, Fail> {
    let mut text = b"5;".to_vec(alloc)?;
    for _ in 0..length.saturating_sub(4) {
        text.push(b'x')?;
    }
    text.extend_from_slice(b"\r\nhello\r\n0\r\n\r\n")?;
    Ok(text)
}

#[test]
fn a_chunk_line_has_at_most_1024_bytes(rt: HostRuntime) -> Result<(), Fail> {
    let longest = with_line(rt.alloc(), 1024)?;
    assert!(rt; gives(rt.alloc(), longest.as_slice(), BodyKind::Chunked, b"hello")?);
    let longer = with_line(rt.alloc(), 1025)?;
    assert!(rt;
        is_refused(
            rt.alloc(),
            longer.as_slice(),
            BodyKind::Chunked,
            BodyFault::BadChunk
        )?
    );
    Ok(())
}

/// Whether a body is cut where its bytes end behind these.
fn is_cut(alloc: Global, text: &[u8], kind: BodyKind) -> Result<bool, Fail> {
    let mut from = MemSource::new(text.to_vec(alloc)?, Vec::new(alloc));
    let mut inbox = Inbox::new(alloc)?;
    let mut body = BodyState::new(kind);
    let mut room = [0u8; 7];
    let first = read_body(&mut from, &mut inbox, &mut body, &mut room);
    let second = read_body(&mut from, &mut inbox, &mut body, &mut room);
    Ok(first == Ok(4) && second == Err(BodyFault::Cut))
}

#[test]
fn a_body_that_ends_early_is_cut(rt: HostRuntime) -> Result<(), Fail> {
    assert!(rt; is_cut(rt.alloc(), b"hell", BodyKind::Length(5))?);
    assert!(rt; is_cut(rt.alloc(), b"5\r\nhell", BodyKind::Chunked)?);
    assert!(rt; is_cut(rt.alloc(), b"4\r\nhell\r\n0\r\n", BodyKind::Chunked)?);
    Ok(())
}
