ghost use Rattle.std.specs.Prelude.{◌≡◌, option_map};
ghost use Rattle.filer_requests.specs.Form.{is_form, behind, unquoted, boundary_of};

use http_head::{front_of, is_word};

/// The media type of a form.
const FORM: &[u8] = b"multipart/form-data";

/// The most bytes of a boundary.
const MAX_BOUNDARY: usize = 70;

/// Whether a media type begins as that of a form, in any case.
pub fn is_form(mime: &[u8]) -> bool
    ensures { result ≡ is_form mime.now }
{
    mime.len() >= FORM.len() && is_word(&mime[..FORM.len()], FORM)
}

/// What stands behind the first such word.
fn behind<'t>(text: &'t [u8], word: &[u8]) -> Option<&'t [u8]>
    ensures { option_map (λ rest. rest.now) result ≡ behind word.now text.now }
{
    for place in 0..text.len() {
        if let Some(rest) = text[place..].strip_prefix(word) {
            return Some(rest);
        }
    }
    None
}

/// The text without the double quotes around it.
fn unquoted(text: &[u8]) -> &[u8]
    ensures { result.now ≡ unquoted text.now }
{
    match text {
        [b'"', inner @ .., b'"'] => inner,
        _ => text,
    }
}

/// The boundary that the media type of a form states, of 1 to 70 bytes. Takes no memory.
pub fn boundary_of(mime: &[u8]) -> Option<&[u8]>
    ensures { option_map (λ boundary. boundary.now) result ≡ boundary_of mime.now }
{
    let boundary = unquoted(front_of(behind(mime, b"boundary=")?, b';'));
    (!boundary.is_empty() && boundary.len() <= MAX_BOUNDARY).then_some(boundary)
}
