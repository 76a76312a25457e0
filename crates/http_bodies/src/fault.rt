use std::alloc::AllocError;
use thiserror::Error;
use weed_base::Failed;

/// Why no more of a body was read, or no form.
#[derive(Clone, Copy, Debug, PartialEq, Eq, Error)]
pub enum BodyFault {
    #[error("a read failed")]
    ReadFault,
    #[error("the bytes end before the body does")]
    Cut,
    #[error("these bytes are no chunks")]
    BadChunk,
    #[error("a body past the limit")]
    TooLong,
    #[error("this body is no form")]
    BadForm,
    #[error("out of memory")]
    Memory,
}

impl From<AllocError> for BodyFault {
    ghost use Rattle.std.specs.Prelude.{◌≡◌};
    ghost use Rattle.http_bodies.specs.declared.fault.BodyFault.TheVariants.{Memory};

    ghost from_gives = { λ _ fault. fault ≡ Memory };

    fn from(_: AllocError) -> Self {
        BodyFault::Memory
    }
}

impl From<Failed> for BodyFault {
    ghost use Rattle.std.specs.Prelude.{◌≡◌};
    ghost use Rattle.http_bodies.specs.declared.fault.BodyFault.TheVariants.{ReadFault};

    ghost from_gives = { λ _ fault. fault ≡ ReadFault };

    fn from(_: Failed) -> Self {
        BodyFault::ReadFault
    }
}
