ghost use Rattle.std.specs.Prelude.{◌≡◌};
ghost use Rattle.records.specs.declared.record_fault.RecordFault.TheVariants.{Memory, Wire};

use proto_wire::WireFault;
use std::alloc::{AllocError, AllocFailed};
use thiserror::Error;

/// Why a text was not read as a record.
#[derive(Clone, Copy, Debug, PartialEq, Eq, Error)]
pub enum RecordFault {
    #[error("a field of a record: {0}")]
    Wire(WireFault),
    #[error("a text is no record")]
    BadRecord,
    #[error("out of memory")]
    Memory,
}

impl From<WireFault> for RecordFault {
    ghost from_gives = { λ fault made. made ≡ Wire fault };

    fn from(fault: WireFault) -> Self {
        RecordFault::Wire(fault)
    }
}

impl From<AllocError> for RecordFault {
    ghost from_gives = { λ _ fault. fault ≡ Memory };

    fn from(_: AllocError) -> Self {
        RecordFault::Memory
    }
}

impl<T: Drop> From<AllocFailed<T>> for RecordFault {
    ghost from_gives = { λ _ fault. fault ≡ Memory };

    fn from(_: AllocFailed<T>) -> Self {
        RecordFault::Memory
    }
}
