ghost use Rattle.std.specs.Prelude.{◌≡◌};
ghost use Rattle.master.specs.declared.fault.MasterFault.TheVariants.{Memory};

use std::alloc::{AllocError, AllocFailed};
use thiserror::Error;

/// Why a call of a master was refused.
#[derive(Clone, Copy, Debug, PartialEq, Eq, Error)]
pub enum MasterFault {
    #[error("1,024 other nodes are there")]
    TooManyNodes,
    #[error("no volume of the kind may be written")]
    NoWritable,
    #[error("the keys from {next} on are spent")]
    KeysSpent { next: u64 },
    #[error("no node reports the volume")]
    UnknownVolume,
    #[error("{wanted} nodes are wanted, {free} have room, and no choice of them meets the placement")]
    NoPlace { wanted: u32, free: u32 },
    #[error("the numbers of volumes are spent at {greatest}")]
    IdsSpent { greatest: u32 },
    #[error("out of memory")]
    Memory,
}

impl From<AllocError> for MasterFault {
    ghost from_gives = { λ _ fault. fault ≡ Memory };

    fn from(_: AllocError) -> MasterFault {
        MasterFault::Memory
    }
}

impl<T: Drop> From<AllocFailed<T>> for MasterFault {
    ghost from_gives = { λ _ fault. fault ≡ Memory };

    fn from(_: AllocFailed<T>) -> MasterFault {
        MasterFault::Memory
    }
}
