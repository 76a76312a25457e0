ghost use Rattle.std.specs.Prelude.{◌≡◌};
ghost use Rattle.spans.specs.declared.span_fault.SpanFault.TheVariants.{Memory};

use file_id::Fid;
use std::alloc::{AllocError, AllocFailed};
use thiserror::Error;

/// Why a span of a file wasn't read.
#[derive(Clone, Copy, Debug, PartialEq, Eq, Error)]
pub enum SpanFault {
    #[error("the range is not one of the file")]
    BadRange,
    #[error("a chunk is compressed")]
    CompressedChunk(Fid),
    #[error("a chunk is ciphered")]
    CipheredChunk(Fid),
    #[error("a chunk is a manifest")]
    Manifest(Fid),
    #[error("a call of the blobs failed")]
    BlobFault,
    #[error("a needle is not held")]
    NotHeld(Fid),
    #[error("a needle has {got} bytes of {want}")]
    ShortNeedle { fid: Fid, want: u64, got: u64 },
    #[error("out of memory")]
    Memory,
}

impl From<AllocError> for SpanFault {
    ghost from_gives = { λ _ fault. fault ≡ Memory };

    fn from(_: AllocError) -> Self {
        SpanFault::Memory
    }
}
