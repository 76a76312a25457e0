ghost use Rattle.std.specs.Prelude.{◌≡◌, option_map};
ghost use Rattle.http_form.specs.Boundary.{is_form, unquoted, fits, boundary_of};

use crate::search::behind;
use http_head::{front_of, is_word};

/// Whether a body with this content type is a form.
pub fn is_form(content_type: &[u8]) -> bool
    ensures { result ≡ is_form content_type.now }
{
    content_type.len() >= 19 && is_word(&content_type[..19], b"multipart/form-data")
}

/// The boundary that a content type states, of 1 to 70 bytes.
pub fn boundary_of(content_type: &[u8]) -> Option<&[u8]>
    ensures { option_map (λ boundary. boundary.now) result ≡ boundary_of content_type.now }
{
    let boundary = unquoted(front_of(behind(content_type, b"boundary=")?, b';'));
    fits(boundary).then_some(boundary)
}

/// The text without the double quotes around it.
fn unquoted(text: &[u8]) -> &[u8]
    ensures { result.now ≡ unquoted text.now }
{
    if text.len() > 1 && text[0] == b'"' && text[text.len() - 1] == b'"' {
        &text[1..text.len() - 1]
    } else {
        text
    }
}

/// Whether it has 1 to 70 bytes.
pub fn fits(boundary: &[u8]) -> bool
    ensures { result ≡ fits boundary.now }
{
    !boundary.is_empty() && boundary.len() <= 70
}
