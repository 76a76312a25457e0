ghost use Rattle.std.specs.Prelude.{◌≡◌};
ghost use Rattle.topology.specs.declared.fault.TopologyFault.TheVariants.{Memory};

use std::alloc::{AllocError, AllocFailed};
use thiserror::Error;

/// Why a call on the nodes was refused.
#[derive(Clone, Copy, Debug, PartialEq, Eq, Error)]
pub enum TopologyFault {
    #[error("1,024 other nodes are there")]
    TooManyNodes,
    #[error("no node has this id")]
    UnknownNode,
    #[error("{wanted} nodes are wanted, {free} have room, and no choice of them meets the placement")]
    NoPlace { wanted: u32, free: u32 },
    #[error("out of memory")]
    Memory,
}

impl From<AllocError> for TopologyFault {
    ghost from_gives = { λ _ fault. fault ≡ Memory };

    fn from(_: AllocError) -> TopologyFault {
        TopologyFault::Memory
    }
}

impl<T: Drop> From<AllocFailed<T>> for TopologyFault {
    ghost from_gives = { λ _ fault. fault ≡ Memory };

    fn from(_: AllocFailed<T>) -> TopologyFault {
        TopologyFault::Memory
    }
}
