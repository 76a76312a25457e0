use std::alloc::AllocError;
use thiserror::Error;
use weed_base::Failed;

/// Why no head, or no answer, was read.
#[derive(Clone, Copy, Debug, PartialEq, Eq, Error)]
pub enum HeadFault {
    #[error("a read failed")]
    ReadFault,
    #[error("these bytes are no head")]
    Bad,
    #[error("a head of over 16,384 bytes or 64 lines")]
    HeadTooLong,
    #[error("a method that is not served")]
    BadMethod,
    #[error("a transfer coding that is not served")]
    BadCoding,
    #[error("a body past the limit")]
    TooLong,
    #[error("out of memory")]
    Memory,
}

impl From<AllocError> for HeadFault {
    ghost use Rattle.std.specs.Prelude.{◌≡◌};
    ghost use Rattle.http_head.specs.declared.fault.HeadFault.TheVariants.{Memory};

    ghost from_gives = { λ _ fault. fault ≡ Memory };

    fn from(_: AllocError) -> Self {
        HeadFault::Memory
    }
}

impl From<Failed> for HeadFault {
    ghost use Rattle.std.specs.Prelude.{◌≡◌};
    ghost use Rattle.http_head.specs.declared.fault.HeadFault.TheVariants.{ReadFault};

    ghost from_gives = { λ _ fault. fault ≡ ReadFault };

    fn from(_: Failed) -> Self {
        HeadFault::ReadFault
    }
}
