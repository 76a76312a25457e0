ghost use Rattle.std.specs.Prelude.{◌≡◌, ◌+◌, ◌≤◌, length, IfSome, option_map};
ghost use Rattle.http_form.specs.Search.{place_in, before, behind, stripped};

use memchr::memmem;

/// Where the text first stands in the bytes.
pub fn place_in(bytes: &[u8], text: &[u8]) -> Option<usize>
    ensures place { result ≡ place_in text.now bytes.now }
    ensures within { IfSome result (λ place. place + length text.now ≤ length bytes.now) }
{
    memmem::find(bytes, text)
}

/// What stands before the first place of the text.
pub fn before<'b>(bytes: &'b [u8], text: &[u8]) -> Option<&'b [u8]>
    ensures { option_map (λ front. front.now) result ≡ before text.now bytes.now }
{
    let place = place_in(bytes, text)?;
    Some(&bytes[..place])
}

/// What stands behind the first place of the text.
pub fn behind<'b>(bytes: &'b [u8], text: &[u8]) -> Option<&'b [u8]>
    ensures { option_map (λ rest. rest.now) result ≡ behind text.now bytes.now }
{
    let place = place_in(bytes, text)?;
    Some(&bytes[place + text.len()..])
}

/// What stands behind the text, where the bytes begin with it.
pub fn stripped<'b>(bytes: &'b [u8], text: &[u8]) -> Option<&'b [u8]>
    ensures { option_map (λ rest. rest.now) result ≡ stripped text.now bytes.now }
{
    if bytes.starts_with(text) {
        Some(&bytes[text.len()..])
    } else {
        None
    }
}
