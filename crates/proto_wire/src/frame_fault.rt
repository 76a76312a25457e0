ghost use Rattle.std.specs.Prelude.{◌≡◌};
ghost use Rattle.proto_wire.specs.declared.frame_fault.FrameFault.TheVariants.{ReadFault, Memory};

use std::alloc::{AllocError, AllocFailed};
use thiserror::Error;
use weed_base::Failed;

/// Why a frame wasn't read.
#[derive(Clone, Copy, Debug, PartialEq, Eq, Error)]
pub enum FrameFault {
    #[error("a read failed")]
    ReadFault,
    #[error("the bytes end inside a frame")]
    Truncated,
    #[error("a frame has {length} bytes, which is too long")]
    TooLong { length: u32 },
    #[error("out of memory")]
    Memory,
}

impl From<Failed> for FrameFault {
    ghost from_gives = { λ _ fault. fault ≡ ReadFault };

    fn from(_: Failed) -> Self {
        FrameFault::ReadFault
    }
}

impl From<AllocError> for FrameFault {
    ghost from_gives = { λ _ fault. fault ≡ Memory };

    fn from(_: AllocError) -> Self {
        FrameFault::Memory
    }
}

impl<T: Drop> From<AllocFailed<T>> for FrameFault {
    ghost from_gives = { λ _ fault. fault ≡ Memory };

    fn from(_: AllocFailed<T>) -> Self {
        FrameFault::Memory
    }
}
