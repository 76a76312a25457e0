ghost use Rattle.std.specs.Prelude.{◌≡◌, ◌+◌, ◌≤◌, length, IfSome, option_map};
ghost use Rattle.http_form.specs.Form.{lines_end, data_of, laid_out};
ghost use Rattle.http_form.specs.Laid.{laid_of};

use crate::search::{place_in, stripped};

/// The most bytes that the header lines of a part have.
const MAX_LINES: usize = 16_384;

/// The parts of a form.
#[derive(Clone, Copy, Debug)]
pub struct Layout<'b> {
    /// The header lines, and the line end before them.
    pub lines: &'b [u8],
    pub body: &'b [u8],
}

/// The parts of a form that opens so and has this delimiter behind its data.
pub fn lay_out<'b>(bytes: &'b [u8], opening: &[u8], delimiter: &[u8]) -> Option<Layout<'b>>
    ensures { option_map laid_of result ≡ laid_out opening.now delimiter.now bytes.now }
{
    let front = stripped(bytes, opening)?;
    let end = lines_end(front)?;
    let body = data_of(&front[end + 2..], delimiter)?;
    Some(Layout {
        lines: &front[..end],
        body,
    })
}

/// Where the header lines end that stand in front, and the empty line begins.
fn lines_end(front: &[u8]) -> Option<usize>
    ensures end { result ≡ lines_end front.now }
    ensures within { IfSome result (λ end. end + 2 ≤ length front.now) }
{
    let _ = stripped(front, b"\r\n")?;
    let place = place_in(front, b"\r\n\r\n")?;
    (place <= MAX_LINES).then_some(place + 2)
}

/// What stands before the first delimiter, where two dashes stand behind it.
fn data_of<'b>(bytes: &'b [u8], delimiter: &[u8]) -> Option<&'b [u8]>
    ensures { option_map (λ body. body.now) result ≡ data_of delimiter.now bytes.now }
{
    let place = place_in(bytes, delimiter)?;
    let _ = stripped(&bytes[place + delimiter.len()..], b"--")?;
    Some(&bytes[..place])
}
