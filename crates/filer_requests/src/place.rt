ghost use Rattle.std.specs.Prelude.{◌≡◌, IfOk};
ghost use Rattle.weed_base.specs.Path.{parts_in};
ghost use Rattle.weed_base.specs.PathFaults.{read_fault};
ghost use Rattle.filer_requests.specs.Place.{ends_in_slash, place_text};

use std::alloc::{AllocError, Global};
use weed_base::{Path, PathFault};

/// Whether the last byte is a slash.
pub fn ends_in_slash(text: &[u8]) -> bool
    ensures { result ≡ ends_in_slash text.now }
{
    text.ends_with(b"/")
}

/// The text without the slash at its end, unless it is the root's.
pub fn place_text(text: &[u8]) -> &[u8]
    ensures { result.now ≡ place_text text.now }
{
    if text.len() > 1 && ends_in_slash(text) {
        &text[..text.len() - 1]
    } else {
        text
    }
}

/// What is wrong with the text of a path.
pub fn fault_of_path(alloc: Global, text: &[u8]) -> Option<PathFault>
    ensures { result ≡ read_fault text.now }
{
    let Err(fault) = Path::read(alloc, text) else {
        return None;
    };
    match fault {
        PathFault::Memory => None,
        _ => Some(fault),
    }
}

/// The path of a text in which nothing is wrong.
pub fn path_of_text(alloc: Global, text: &[u8]) -> Result<Path, AllocError>
    ensures { IfOk result (λ path. path ≡ parts_in text.now) }
{
    match Path::read(alloc, text) {
        Ok(path) => Ok(path),
        Err(_) => Err(AllocError),
    }
}
