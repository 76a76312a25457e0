ghost use Rattle.std.specs.Prelude.{◌≡◌};
ghost use Rattle.needle_index.specs.declared.fault.IndexFault.TheVariants.{Memory};
ghost use Rattle.needle_index.specs.Faults.{fault_name};

use std::alloc::AllocError;
use thiserror::Error;

/// Why no index was read.
#[derive(Clone, Copy, Debug, PartialEq, Eq, Error)]
pub enum IndexFault {
    /// The length in bytes is no multiple of 16.
    #[error("an index of {length} bytes ends inside an entry")]
    Ragged { length: u64 },
    #[error("out of memory")]
    Memory,
}

impl IndexFault {
    /// The name of the variant. Takes no memory.
    pub fn name(&self) -> &'static str
        ensures { result.now ≡ fault_name self.now }
    {
        match self {
            IndexFault::Ragged { .. } => "Ragged",
            IndexFault::Memory => "Memory",
        }
    }
}

impl From<AllocError> for IndexFault {
    ghost from_gives = { λ _ e. e ≡ Memory };

    fn from(_error: AllocError) -> IndexFault {
        IndexFault::Memory
    }
}
