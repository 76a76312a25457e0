ghost use Rattle.std.specs.Prelude.{◌≡◌};
ghost use Rattle.needle.specs.declared.fault.NeedleFault.TheVariants.{Memory};
ghost use Rattle.needle.specs.Faults.{fault_name};

use std::alloc::{AllocError, AllocFailed};
use thiserror::Error;

/// Why bytes are no superblock or no item.
#[derive(Clone, Copy, Debug, PartialEq, Eq, Error)]
pub enum NeedleFault {
    #[error("the version is neither 2 nor 3")]
    BadVersion,
    #[error("a digit of the placement is over 2")]
    BadPlacement,
    /// A byte or flag that is to be 0 is not.
    #[error("a reserved part is set")]
    ReservedSet,
    /// The bytes end inside the item.
    #[error("the item is cut off")]
    Truncated,
    /// The parts of the item don't fill its size, or it has no data.
    #[error("the size doesn't fit the parts")]
    SizeMismatch,
    #[error("the data is compressed")]
    Compressed,
    #[error("the data is a chunk manifest")]
    Manifest,
    /// The checksum that stands in the item isn't the one of its data.
    #[error("the checksum is {stored:08x} and not {computed:08x}")]
    ChecksumMismatch { stored: u32, computed: u32 },
    #[error("out of memory")]
    Memory,
}

impl NeedleFault {
    /// The name of the variant. Takes no memory.
    pub fn name(&self) -> &'static str
        ensures { result.now ≡ fault_name self.now }
    {
        match self {
            NeedleFault::BadVersion => "BadVersion",
            NeedleFault::BadPlacement => "BadPlacement",
            NeedleFault::ReservedSet => "ReservedSet",
            NeedleFault::Truncated => "Truncated",
            NeedleFault::SizeMismatch => "SizeMismatch",
            NeedleFault::Compressed => "Compressed",
            NeedleFault::Manifest => "Manifest",
            NeedleFault::ChecksumMismatch { .. } => "ChecksumMismatch",
            NeedleFault::Memory => "Memory",
        }
    }
}

impl From<AllocError> for NeedleFault {
    ghost from_gives = { λ _ fault. fault ≡ Memory };

    fn from(_: AllocError) -> Self {
        NeedleFault::Memory
    }
}

impl<T: Drop> From<AllocFailed<T>> for NeedleFault {
    ghost from_gives = { λ _ fault. fault ≡ Memory };

    fn from(_: AllocFailed<T>) -> Self {
        NeedleFault::Memory
    }
}
