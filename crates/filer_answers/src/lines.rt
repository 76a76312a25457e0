ghost use Rattle.std.specs.Prelude.{◌≡◌, [], ◌∷◌, ◌++◌, OnOk};
ghost use Rattle.filer_answers.specs.Lines.{length_line};

use std::alloc::{AllocError, Global};
use weed_base::Bytes;

/// Adds a header line behind others.
pub fn push_line(
    alloc: Global,
    lines: &mut Vec<(Bytes, Bytes)>,
    name: &[u8],
    value: &[u8],
) -> Result<(), AllocError>
    ensures { OnOk result (lines.new.items ≡ lines.old.items ++ (name.now, value.now) ∷ []) }
{
    let name = Bytes::new(alloc, name)?;
    let value = Bytes::new(alloc, value)?;
    lines.push((name, value))?;
    Ok(())
}

/// Adds the line of a body's length, in bytes.
pub fn push_length(
    alloc: Global,
    lines: &mut Vec<(Bytes, Bytes)>,
    length: u64,
) -> Result<(), AllocError>
    ensures { OnOk result (lines.new.items ≡ lines.old.items ++ length_line length ∷ []) }
{
    let mut digits = itoa::Buffer::new();
    push_line(
        alloc,
        lines,
        b"Content-Length",
        digits.format(length).as_bytes(),
    )
}
