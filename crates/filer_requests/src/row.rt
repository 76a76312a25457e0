ghost use Rattle.std.specs.Prelude.{◌≡◌, Option, option_map};
ghost use Rattle.filer_requests.specs.Row.{row_of, write_row, put_row, look_row, subscription_row, get_row, removal_row, is_root};

use crate::place::{ends_in_slash, fault_of_path, place_text};
use crate::query::{limit_of, moment_of, place_of, truth_of, value_of};
use http_head::{Head, Method};
use std::alloc::Global;
use weed_base::Bytes;

/// The kinds of requests, with what their queries say.
#[derive(Clone, Copy, Debug, PartialEq, Eq)]
pub enum Row {
    /// What a directory is made by, or a form is written into.
    Directory,
    Write { at: Option<u64> },
    Move,
    Remove { recursive: bool },
    Look { limit: u32 },
    Subscribe { since: u64, tail: bool },
}

fn write_row(offset: Option<&[u8]>) -> Option<Row>
    ensures { result ≡ write_row (option_map (λ value. value.now) offset.entry) }
{
    let Some(offset) = offset else {
        return Some(Row::Write { at: None });
    };
    let at = place_of(offset)?;
    Some(Row::Write { at: Some(at) })
}

/// Of PUT and POST.
fn put_row(alloc: Global, path: &[u8], query: &[(Bytes, Bytes)]) -> Option<Row>
    ensures { result ≡ put_row path.now query.now }
{
    if let Some(from) = value_of(query, b"mv.from") {
        return fault_of_path(alloc, from).is_none().then_some(Row::Move);
    }
    if ends_in_slash(path) {
        return Some(Row::Directory);
    }
    write_row(value_of(query, b"offset"))
}

/// Of a file or a directory.
fn look_row(query: &[(Bytes, Bytes)]) -> Option<Row>
    ensures { result ≡ look_row query.now }
{
    let limit = limit_of(value_of(query, b"limit"))?;
    Some(Row::Look { limit })
}

fn subscription_row(since: &[u8], tail: Option<&[u8]>) -> Option<Row>
    ensures { result ≡ subscription_row since.now (option_map (λ value. value.now) tail.entry) }
{
    let since = moment_of(since)?;
    let tail = truth_of(tail)?;
    Some(Row::Subscribe { since, tail })
}

fn is_root(path: &[u8]) -> bool
    ensures { result ≡ is_root path.now }
{
    place_text(path) == b"/".as_slice()
}

/// Of GET.
fn get_row(path: &[u8], query: &[(Bytes, Bytes)]) -> Option<Row>
    ensures { result ≡ get_row path.now query.now }
{
    if !is_root(path) {
        return look_row(query);
    }
    match value_of(query, b"meta.since") {
        Some(since) => subscription_row(since, value_of(query, b"tail")),
        None => look_row(query),
    }
}

fn removal_row(query: &[(Bytes, Bytes)]) -> Option<Row>
    ensures { result ≡ removal_row query.now }
{
    let recursive = truth_of(value_of(query, b"recursive"))?;
    Some(Row::Remove { recursive })
}

/// The first kind that a head fits. None where its query has a value of another form.
pub fn row_of(alloc: Global, head: &Head) -> Option<Row>
    ensures { result ≡ row_of head.now }
{
    let path = head.path.as_slice();
    let query = head.query.as_slice();
    match head.method {
        Method::Put | Method::Post => put_row(alloc, path, query),
        Method::Get => get_row(path, query),
        Method::Head => look_row(query),
        Method::Delete => removal_row(query),
    }
}
