ghost use Rattle.std.specs.Prelude.{◌≡◌};
ghost use Rattle.master.specs.declared.heartbeat_fault.HeartbeatFault.TheVariants.{Memory, Wire};

use proto_wire::WireFault;
use std::alloc::AllocError;
use thiserror::Error;

/// Why a text was not read as a heartbeat.
#[derive(Clone, Copy, Debug, PartialEq, Eq, Error)]
pub enum HeartbeatFault {
    #[error("a field of a heartbeat: {0}")]
    Wire(WireFault),
    #[error("out of memory")]
    Memory,
}

impl From<WireFault> for HeartbeatFault {
    ghost from_gives = { λ fault made. made ≡ Wire fault };

    fn from(fault: WireFault) -> HeartbeatFault {
        HeartbeatFault::Wire(fault)
    }
}

impl From<AllocError> for HeartbeatFault {
    ghost from_gives = { λ _ fault. fault ≡ Memory };

    fn from(_: AllocError) -> HeartbeatFault {
        HeartbeatFault::Memory
    }
}
