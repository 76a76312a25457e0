ghost use Rattle.std.specs.Prelude.{◌≡◌};
ghost use Rattle.entry.specs.declared.entry_fault.EntryFault.TheVariants.{Memory, Wire};

use proto_wire::WireFault;
use std::alloc::AllocError;
use thiserror::Error;

/// Why a text was not read as an entry.
#[derive(Clone, Copy, Debug, PartialEq, Eq, Error)]
pub enum EntryFault {
    #[error("a field of an entry: {0}")]
    Wire(WireFault),
    #[error("a text is no entry")]
    BadEntry,
    #[error("out of memory")]
    Memory,
}

impl From<WireFault> for EntryFault {
    ghost from_gives = { λ fault made. made ≡ Wire fault };

    fn from(fault: WireFault) -> Self {
        EntryFault::Wire(fault)
    }
}

impl From<AllocError> for EntryFault {
    ghost from_gives = { λ _ fault. fault ≡ Memory };

    fn from(_: AllocError) -> Self {
        EntryFault::Memory
    }
}
