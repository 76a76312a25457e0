ghost use Rattle.std.specs.Prelude.{◌≡◌};
ghost use Rattle.meta_log.specs.declared.fault.LogFault.TheVariants.{DiskFault, Memory};

use std::alloc::{AllocError, AllocFailed};
use thiserror::Error;
use weed_base::{Failed, FileName, NamesFault};

/// Why a log could not be opened or read.
#[derive(Debug, Drop, Error)]
pub enum LogFault {
    #[error("a call of the disk failed")]
    DiskFault,
    /// The files aren't a log text: the first file and place to blame. That they are the first is proved over a disk
    /// that tells its files; over any other the place is before the gate.
    #[error("damaged at {at}")]
    Damaged { file: FileName, at: u64 },
    #[error("out of memory")]
    Memory,
}

impl From<Failed> for LogFault {
    ghost from_gives = { λ _ fault. fault ≡ DiskFault };

    fn from(_: Failed) -> Self {
        LogFault::DiskFault
    }
}

impl From<NamesFault> for LogFault {
    ghost use Rattle.meta_log.specs.Faults.{fault_of_names};

    ghost from_gives = { λ names fault. fault ≡ fault_of_names names };

    fn from(fault: NamesFault) -> Self {
        match fault {
            NamesFault::Failed => LogFault::DiskFault,
            NamesFault::Memory => LogFault::Memory,
        }
    }
}

impl From<AllocError> for LogFault {
    ghost from_gives = { λ _ fault. fault ≡ Memory };

    fn from(_: AllocError) -> Self {
        LogFault::Memory
    }
}

impl<T: Drop> From<AllocFailed<T>> for LogFault {
    ghost from_gives = { λ _ fault. fault ≡ Memory };

    fn from(_: AllocFailed<T>) -> Self {
        LogFault::Memory
    }
}
