ghost use Rattle.std.specs.Prelude.{◌≡◌, ◌++◌, map, option_map};
ghost use Rattle.std.specs.Char.{to_ascii_lowercase};
ghost use Rattle.std.specs.Str.{is_utf8};
ghost use Rattle.http_form.specs.Field.{value_behind, filename_of, named, is_filename, mime_of};

use crate::search::{before, behind, place_in};
use crate::trim::trimmed;

/// What stands up to the line's end behind the first place of the front in the lines. `lowered` is the lines in lower
/// case.
fn value_behind<'b>(lines: &'b [u8], lowered: &[u8], front: &[u8]) -> Option<&'b [u8]>
    requires { lowered.now ≡ map to_ascii_lowercase lines.now }
    ensures { option_map (λ value. value.now) result ≡ value_behind front.now lines.now }
{
    let place = place_in(lowered, front)?;
    before(&lines[place + front.len()..], b"\r\n")
}

/// The file name that the first `Content-Disposition` of the lines gives.
pub fn filename_of<'b>(lines: &'b [u8], lowered: &[u8]) -> Option<&'b [u8]>
    requires { lowered.now ≡ map to_ascii_lowercase lines.now }
    ensures { option_map (λ name. name.now) result ≡ filename_of lines.now }
{
    let value = value_behind(lines, lowered, b"\r\ncontent-disposition:")?;
    named(value)
}

/// What stands behind the first `filename="` up to the next double quote.
fn named(value: &[u8]) -> Option<&[u8]>
    ensures { option_map (λ name. name.now) result ≡ named value.now }
{
    let name = before(behind(value, b"filename=\"")?, b"\"")?;
    is_filename(name).then_some(name)
}

/// Whether it is at most 255 bytes of UTF-8.
fn is_filename(name: &[u8]) -> bool
    ensures { result ≡ is_filename name.now }
{
    name.len() <= 255 && is_text(name)
}

fn is_text(bytes: &[u8]) -> bool
    ensures { result ≡ is_utf8 bytes.now }
{
    str::from_utf8(bytes).is_ok()
}

/// The value of the first `Content-Type` of the lines, or nothing.
pub fn mime_of<'b>(lines: &'b [u8], lowered: &[u8]) -> &'b [u8]
    requires { lowered.now ≡ map to_ascii_lowercase lines.now }
    ensures { result.now ≡ mime_of lines.now }
{
    match value_behind(lines, lowered, b"\r\ncontent-type:") {
        Some(value) => trimmed(value),
        None => &[],
    }
}
