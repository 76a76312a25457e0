ghost use Rattle.std.specs.Prelude.{◌≡◌};
ghost use Rattle.filer_requests.specs.Wish.{fits_mime};

use http_head::RangeWish;
use weed_base::{Bytes, Name, Path};

/// The most bytes of a media type.
pub const MAX_MIME: usize = 255;

/// What a request asks of a filer.
#[derive(Debug, Drop)]
pub enum Wish {
    /// A directory is made. There is no body, or an empty one.
    MakeDir {
        path: Path,
    },
    /// A body in chunks at a directory: without data the directory is made, and else they are a form, whose
    /// file is written there. Without a boundary they are none.
    Chunks {
        dir: Path,
        boundary: Option<Bytes>,
    },
    /// A form, whose file is written into the directory.
    Upload {
        dir: Path,
        boundary: Bytes,
    },
    /// The body is written, from a place on or as the whole file. The media type is as the head has it.
    Write {
        path: Path,
        at: Option<u64>,
        mime: Bytes,
    },
    /// The data of a form is written so.
    WriteForm {
        path: Path,
        at: Option<u64>,
        boundary: Bytes,
    },
    /// What stands at a path goes to another.
    Move {
        from: Path,
        to: Path,
    },
    /// What stands at the path goes, and with `recursive` all below it.
    Remove {
        path: Path,
        recursive: bool,
    },
    /// The bytes of a file, or a range of them, which no `/` may end; or the names in a directory past a
    /// name, at most so many.
    Look {
        path: Path,
        is_directory: bool,
        range: RangeWish,
        after: Option<Name>,
        limit: u32,
    },
    /// The records past a moment, and with `tail` those that come.
    Subscribe {
        since: u64,
        tail: bool,
    },
}

/// Whether a media type has at most 255 bytes. Takes no memory.
pub fn fits_mime(mime: &[u8]) -> bool
    ensures { result ≡ fits_mime mime.now }
{
    mime.len() <= MAX_MIME
}
