use filer_requests::{Wish, WishFault, read_wish};
use http_head::{Front, Head, MAX_HEAD, RangeWish, read_front};
use std::alloc::Global;
use std::test::Fail;
use weed_base::{Path, PathFault};

/// The head that these bytes are.
fn head_of(alloc: Global, text: &[u8]) -> Option<Head> {
    if text.len() > MAX_HEAD {
        return None;
    }
    match read_front(alloc, text) {
        Ok(Front::Whole(head, _)) => Some(head),
        _ => None,
    }
}

fn asked(alloc: Global, text: &[u8]) -> Option<Result<Wish, WishFault>> {
    let head = head_of(alloc, text)?;
    Some(read_wish(alloc, &head))
}

fn is_refused(alloc: Global, text: &[u8], wanted: WishFault) -> bool {
    match asked(alloc, text) {
        Some(Err(fault)) => fault == wanted,
        _ => false,
    }
}

/// Refusals, some of them beside another one that would come later.
const REFUSED: [(&[u8], WishFault); 14] = [
    (
        b"POST /a/../b/ HTTP/1.1\r\n\r\n",
        WishFault::BadPath(PathFault::DotPart),
    ),
    (
        b"GET /%2e?limit=0 HTTP/1.1\r\n\r\n",
        WishFault::BadPath(PathFault::DotPart),
    ),
    (b"PUT /e HTTP/1.1\r\n\r\n", WishFault::NoLength),
    (
        b"PUT /./e HTTP/1.1\r\nContent-Encoding: gzip\r\n\r\n",
        WishFault::Encoded,
    ),
    (b"PUT /e?offset=-1 HTTP/1.1\r\n\r\n", WishFault::BadQuery),
    (b"POST /e?mv.from=/d/ HTTP/1.1\r\n\r\n", WishFault::BadQuery),
    (
        b"GET /none?limit=10001 HTTP/1.1\r\n\r\n",
        WishFault::BadQuery,
    ),
    (
        b"GET /?meta.since=18446744073709551616 HTTP/1.1\r\n\r\n",
        WishFault::BadQuery,
    ),
    (
        b"DELETE /a?recursive=yes&recursive=true HTTP/1.1\r\n\r\n",
        WishFault::BadQuery,
    ),
    (
        b"GET /a HTTP/1.1\r\nContent-Length: 67108865\r\n\r\n",
        WishFault::TooLong,
    ),
    (
        b"PUT /a/ HTTP/1.1\r\nContent-Length: 67108865\r\n\r\n",
        WishFault::TooLong,
    ),
    (
        b"PUT /a/ HTTP/1.1\r\nContent-Length: 1\r\n\r\n",
        WishFault::BadForm,
    ),
    (
        b"PUT /a/ HTTP/1.1\r\nContent-Type: multipart/form-data; boundary=X\r\nContent-Length: 9\r\n\r\n",
        WishFault::BadForm,
    ),
    (
        b"POST /a HTTP/1.1\r\nContent-Type: multipart/form-data; boundary=;\r\nContent-Length: 9\r\n\r\n",
        WishFault::BadForm,
    ),
];

#[test]
fn each_refusal_comes_in_its_order(rt: HostRuntime) -> Result<(), Fail> {
    for (text, fault) in &REFUSED {
        assert!(rt; is_refused(rt.alloc(), text, *fault));
    }
    Ok(())
}

fn is_at(path: &Path, text: &str) -> bool {
    path.as_str() == text
}

fn makes(alloc: Global, text: &[u8], place: &str) -> bool {
    match asked(alloc, text) {
        Some(Ok(Wish::MakeDir { path })) => is_at(&path, place),
        _ => false,
    }
}

fn uploads(alloc: Global, text: &[u8], place: &str, wanted: &[u8]) -> bool {
    match asked(alloc, text) {
        Some(Ok(Wish::Upload { dir, boundary })) => {
            is_at(&dir, place) && boundary.as_slice() == wanted
        }
        _ => false,
    }
}

fn leaves_open(alloc: Global, text: &[u8], place: &str) -> bool {
    match asked(alloc, text) {
        Some(Ok(Wish::Chunks { dir, boundary })) => is_at(&dir, place) && boundary.is_none(),
        _ => false,
    }
}

#[test]
fn a_directory_is_made_or_a_form_read_at_a_slash(rt: HostRuntime) -> Result<(), Fail> {
    let alloc = rt.alloc();
    assert!(rt; makes(alloc, b"POST /a/b/ HTTP/1.1\r\nHost: x\r\n\r\n", "/a/b"));
    assert!(rt; makes(alloc, b"PUT // HTTP/1.1\r\nContent-Length: 0\r\n\r\n", "/"));
    assert!(rt;
        uploads(
            alloc,
            b"POST /a/ HTTP/1.1\r\nContent-Type: Multipart/Form-Data; boundary=\"X\"; a=b\r\nContent-Length: 9\r\n\r\n",
            "/a",
            b"X"
        )
    );
    assert!(rt;
        leaves_open(
            alloc,
            b"PUT /a/ HTTP/1.1\r\nTransfer-Encoding: chunked\r\n\r\n",
            "/a"
        )
    );
    Ok(())
}

fn writes(alloc: Global, text: &[u8], place: &str, wanted: Option<u64>, kind: &[u8]) -> bool {
    match asked(alloc, text) {
        Some(Ok(Wish::Write { path, at, mime })) => {
            is_at(&path, place) && at == wanted && mime.as_slice() == kind
        }
        _ => false,
    }
}

fn moves(alloc: Global, text: &[u8], before: &str, after: &str) -> bool {
    match asked(alloc, text) {
        Some(Ok(Wish::Move { from, to })) => is_at(&from, before) && is_at(&to, after),
        _ => false,
    }
}

fn removes(alloc: Global, text: &[u8], place: &str, wanted: bool) -> bool {
    match asked(alloc, text) {
        Some(Ok(Wish::Remove { path, recursive })) => is_at(&path, place) && recursive == wanted,
        _ => false,
    }
}

#[test]
fn files_are_written_moved_and_removed(rt: HostRuntime) -> Result<(), Fail> {
    let alloc = rt.alloc();
    assert!(rt;
        writes(
            alloc,
            b"PUT /a/h+%20.txt HTTP/1.1\r\nContent-Type: text/plain\r\nContent-Length: 5\r\n\r\n",
            "/a/h+ .txt",
            None,
            b"text/plain"
        )
    );
    assert!(rt;
        writes(
            alloc,
            b"POST /z?offset=999999999999999999999 HTTP/1.1\r\nTransfer-Encoding: chunked\r\n\r\n",
            "/z",
            Some(274_877_906_945),
            b""
        )
    );
    assert!(rt;
        moves(
            alloc,
            b"POST /d/x?mv.from=/d&offset=x HTTP/1.1\r\n\r\n",
            "/d",
            "/d/x"
        )
    );
    assert!(rt;
        removes(
            alloc,
            b"DELETE /old?recursive=true HTTP/1.1\r\n\r\n",
            "/old",
            true
        )
    );
    assert!(rt; removes(alloc, b"DELETE /?limit=0 HTTP/1.1\r\n\r\n", "/", false));
    Ok(())
}

fn looks(alloc: Global, text: &[u8], place: &str, wanted: RangeWish, most: u32) -> bool {
    match asked(alloc, text) {
        Some(
            Ok(
                Wish::Look {
                    path,
                    range,
                    limit,
                    ..
                },
            ),
        ) => is_at(&path, place) && range == wanted && limit == most,
        _ => false,
    }
}

fn subscribes(alloc: Global, text: &[u8], moment: u64, wanted: bool) -> bool {
    match asked(alloc, text) {
        Some(Ok(Wish::Subscribe { since, tail })) => since == moment && tail == wanted,
        _ => false,
    }
}

#[test]
fn files_and_directories_are_looked_at(rt: HostRuntime) -> Result<(), Fail> {
    let alloc = rt.alloc();
    assert!(rt;
        looks(
            alloc,
            b"GET /a/h.txt HTTP/1.1\r\nRange: bytes=1-3\r\n\r\n",
            "/a/h.txt",
            RangeWish::Between(1, 3),
            100
        )
    );
    assert!(rt;
        looks(
            alloc,
            b"HEAD /?meta.since=0&limit=007 HTTP/1.1\r\n\r\n",
            "/",
            RangeWish::All,
            7
        )
    );
    assert!(rt;
        subscribes(
            alloc,
            b"GET /?meta.since=18446744073709551615&tail=true HTTP/1.1\r\n\r\n",
            18_446_744_073_709_551_615,
            true
        )
    );
    assert!(rt;
        looks(
            alloc,
            b"GET /a?meta.since=x HTTP/1.1\r\n\r\n",
            "/a",
            RangeWish::All,
            100
        )
    );
    Ok(())
}
