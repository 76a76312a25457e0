ghost use Rattle.std.specs.Prelude.{◌≡◌, ◌++◌, IfOk, codes};
ghost use Rattle.http_form.specs.Form.{delimiter_of, form_of, part_of, Gives};
ghost use Rattle.http_form.specs.Laid.{laid_of};

use crate::boundary::fits;
use crate::field::{filename_of, mime_of};
use crate::layout::{Layout, lay_out};
use http_bodies::BodyFault;
use std::alloc::{AllocError, Global};
use weed_base::Bytes;

/// The one part of a form.
#[derive(Debug, Drop)]
pub struct Part {
    /// The name that the part gives its data, at most 255 bytes of UTF-8. It may be empty.
    pub filename: Bytes,
    /// The part's content type, empty where it states none.
    pub content_type: Bytes,
    pub body: Bytes,
}

/// The part of a form with that boundary, which all the bytes are, or `BadForm` where they are none or the boundary
/// has 0 or more than 70 bytes.
pub fn read_form(alloc: Global, bytes: &[u8], boundary: &[u8]) -> Result<Part, BodyFault>
    ensures { Gives (form_of boundary.now bytes.now) result }
{
    if !fits(boundary) {
        return Err(BodyFault::BadForm);
    }
    let delimiter = delimiter_of(alloc, boundary)?;
    match lay_out(bytes, &delimiter[2..], &delimiter) {
        Some(layout) => part_of(alloc, layout),
        None => Err(BodyFault::BadForm),
    }
}

/// What stands behind the data: a line end, two dashes and the boundary.
fn delimiter_of(alloc: Global, boundary: &[u8]) -> Result<Vec<u8>, AllocError>
    ensures { IfOk result (λ made. made.items ≡ delimiter_of boundary.now) }
{
    let mut delimiter = Vec::from_slice(alloc, b"\r\n--")?;
    delimiter.extend_from_slice(boundary)?;
    Ok(delimiter)
}

/// The part of a form that is laid out so.
fn part_of(alloc: Global, layout: Layout<'_>) -> Result<Part, BodyFault>
    ensures { Gives (part_of (laid_of layout.entry)) result }
{
    let lowered = layout.lines.to_ascii_lowercase(alloc)?;
    let Some(filename) = filename_of(layout.lines, &lowered) else {
        return Err(BodyFault::BadForm);
    };
    Ok(Part {
        filename: Bytes::new(alloc, filename)?,
        content_type: Bytes::new(alloc, mime_of(layout.lines, &lowered))?,
        body: Bytes::new(alloc, layout.body)?,
    })
}
