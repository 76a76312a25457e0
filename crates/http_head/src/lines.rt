ghost use Rattle.std.specs.Prelude.{◌≡◌, map, option_map};
ghost use Rattle.httparse.specs.Borrowed.{header_parts};
ghost use Rattle.http_head.specs.Lines.{is_named, first_value};

use crate::words::is_word;
use httparse::Header;

/// Whether the line has that name, in any case.
pub fn is_named(line: &Header<'_>, name: &str) -> bool
    ensures { result ≡ is_named name.now (header_parts line.now) }
{
    is_word(line.name.as_bytes(), name.as_bytes())
}

/// The value of the first line of that name.
pub fn first_value<'b>(lines: &[Header<'b>], name: &str) -> Option<&'b [u8]>
    ensures { option_map (λ value. value.now) result ≡ first_value name.now (map header_parts lines.now) }
{
    match lines.iter().find(|line| is_named(line, name)) {
        Some(line) => Some(line.value),
        None => None,
    }
}
