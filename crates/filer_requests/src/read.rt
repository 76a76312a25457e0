ghost use Rattle.std.specs.Prelude.{◌≡◌, IfOk, option_map, codes};
ghost use Rattle.weed_base.specs.Path.{parts_in};
ghost use Rattle.filer_requests.specs.Place.{place_text, ends_in_slash};
ghost use Rattle.filer_requests.specs.Wish.{Gives, wish_of, at_directory, uploaded, written, form_written, is_posted_form, form_boundary, moved_from};
ghost use Rattle.filer_requests.specs.Form.{boundary_of};
ghost use Rattle.filer_requests.specs.Query.{value_of};
ghost use Rattle.filer_requests.specs.declared.wish.Wish.TheVariants.{MakeDir, Chunks, Write, Move, Remove, Look};

use crate::check::check;
use crate::fault::WishFault;
use crate::form::{boundary_of, is_form};
use crate::place::{ends_in_slash, path_of_text, place_text};
use crate::query::value_of;
use crate::row::Row;
use crate::wish::Wish;
use http_head::{BodyKind, Head, Method};
use std::alloc::{AllocError, Global};
use weed_base::{Bytes, Name, Path};

/// The path of a head that was checked.
fn path_of(alloc: Global, head: &Head) -> Result<Path, AllocError>
    ensures { IfOk result (λ path. path ≡ parts_in (place_text head.now.path)) }
{
    path_of_text(alloc, place_text(head.path.as_slice()))
}

fn is_posted_form(head: &Head) -> bool
    ensures { result ≡ is_posted_form head.now.method head.now.content_type }
{
    match head.method {
        Method::Post => is_form(head.content_type.as_slice()),
        _ => false,
    }
}

/// The boundary of a form that is posted.
fn form_boundary(head: &Head) -> Option<&[u8]>
    ensures { option_map (λ boundary. boundary.now) result ≡ form_boundary head.now }
{
    if is_posted_form(head) {
        boundary_of(head.content_type.as_slice())
    } else {
        None
    }
}

fn copied_boundary(alloc: Global, boundary: Option<&[u8]>) -> Result<Option<Bytes>, AllocError>
    ensures { IfOk result (λ made. made ≡ option_map (λ text. text.now) boundary.entry) }
{
    match boundary {
        Some(boundary) => Ok(Some(Bytes::new(alloc, boundary)?)),
        None => Ok(None),
    }
}

fn copied_name(alloc: Global, name: Option<&[u8]>) -> Result<Option<Name>, AllocError>
    ensures { IfOk result (λ made. made ≡ option_map (λ text. text.now) name.entry) }
{
    match name {
        Some(name) => Ok(Some(Name::new(alloc, name)?)),
        None => Ok(None),
    }
}

/// A body at a directory, which must be a form.
fn uploaded(alloc: Global, head: &Head) -> Result<Wish, WishFault>
    ensures { Gives (uploaded (form_boundary head.now) (parts_in (place_text head.now.path))) result }
{
    let Some(boundary) = form_boundary(head) else {
        return Err(WishFault::BadForm);
    };
    let dir = path_of(alloc, head)?;
    let boundary = Bytes::new(alloc, boundary)?;
    Ok(Wish::Upload { dir, boundary })
}

/// A body in chunks at a directory.
fn chunks(alloc: Global, head: &Head) -> Result<Wish, AllocError>
    ensures { IfOk result (λ wish. wish ≡ Chunks (parts_in (place_text head.now.path)) (form_boundary head.now)) }
{
    let dir = path_of(alloc, head)?;
    let boundary = copied_boundary(alloc, form_boundary(head))?;
    Ok(Wish::Chunks { dir, boundary })
}

fn made(alloc: Global, head: &Head) -> Result<Wish, AllocError>
    ensures { IfOk result (λ wish. wish ≡ MakeDir (parts_in (place_text head.now.path))) }
{
    let path = path_of(alloc, head)?;
    Ok(Wish::MakeDir { path })
}

fn at_directory(alloc: Global, head: &Head) -> Result<Wish, WishFault>
    ensures { Gives (at_directory head.now.body head.now (parts_in (place_text head.now.path))) result }
{
    match head.body {
        BodyKind::Missing => Ok(made(alloc, head)?),
        BodyKind::Length(0) => Ok(made(alloc, head)?),
        BodyKind::Length(_) => uploaded(alloc, head),
        BodyKind::Chunked => Ok(chunks(alloc, head)?),
    }
}

/// A form's data at another path.
fn form_written(alloc: Global, head: &Head, at: Option<u64>) -> Result<Wish, WishFault>
    ensures { Gives (form_written (boundary_of head.now.content_type) at (parts_in (place_text head.now.path))) result }
{
    let Some(boundary) = boundary_of(head.content_type.as_slice()) else {
        return Err(WishFault::BadForm);
    };
    let path = path_of(alloc, head)?;
    let boundary = Bytes::new(alloc, boundary)?;
    Ok(Wish::WriteForm { path, at, boundary })
}

/// A body as it is, at another path.
fn body_written(alloc: Global, head: &Head, at: Option<u64>) -> Result<Wish, AllocError>
    ensures { IfOk result (λ wish. wish ≡ Write (parts_in (place_text head.now.path)) at head.now.content_type) }
{
    let path = path_of(alloc, head)?;
    let mime = head.content_type.copy(alloc)?;
    Ok(Wish::Write { path, at, mime })
}

fn written(alloc: Global, head: &Head, at: Option<u64>) -> Result<Wish, WishFault>
    ensures { Gives (written at head.now (parts_in (place_text head.now.path))) result }
{
    if is_posted_form(head) {
        form_written(alloc, head, at)
    } else {
        Ok(body_written(alloc, head, at)?)
    }
}

fn moved(alloc: Global, head: &Head) -> Result<Wish, AllocError>
    ensures { IfOk result (λ wish. wish ≡ Move (parts_in (moved_from head.now)) (parts_in (place_text head.now.path))) }
{
    let from = value_of(head.query.as_slice(), b"mv.from").unwrap_or_default();
    let from = path_of_text(alloc, from)?;
    let to = path_of(alloc, head)?;
    Ok(Wish::Move { from, to })
}

fn removed(alloc: Global, head: &Head, recursive: bool) -> Result<Wish, AllocError>
    ensures { IfOk result (λ wish. wish ≡ Remove (parts_in (place_text head.now.path)) recursive) }
{
    let path = path_of(alloc, head)?;
    Ok(Wish::Remove { path, recursive })
}

fn looked(alloc: Global, head: &Head, limit: u32) -> Result<Wish, AllocError>
    ensures { IfOk result (λ wish. wish ≡ Look (parts_in (place_text head.now.path)) (ends_in_slash head.now.path) head.now.range (value_of (codes "lastFileName") head.now.query) limit) }
{
    let path = path_of(alloc, head)?;
    let after = copied_name(alloc, value_of(head.query.as_slice(), b"lastFileName"))?;
    Ok(Wish::Look {
        path,
        is_directory: ends_in_slash(head.path.as_slice()),
        range: head.range,
        after,
        limit,
    })
}

/// What a head asks of a filer, or the first check that it fails: the coding of its content, its path, its
/// query, its length, and whether a body that must be a form may be one. Memory may be wanting only where no
/// check fails.
pub fn read_wish(alloc: Global, head: &Head) -> Result<Wish, WishFault>
    ensures { Gives (wish_of head.now) result }
{
    match check(alloc, head)? {
        Row::Directory => at_directory(alloc, head),
        Row::Write { at } => written(alloc, head, at),
        Row::Move => Ok(moved(alloc, head)?),
        Row::Remove { recursive } => Ok(removed(alloc, head, recursive)?),
        Row::Look { limit } => Ok(looked(alloc, head, limit)?),
        Row::Subscribe { since, tail } => Ok(Wish::Subscribe { since, tail }),
    }
}
