use entry::EntryFault;
use name_core::KeeperFault;
use sqlite::{Error, ErrorCode};
use std::alloc::{AllocError, AllocFailed};
use weed_base::{Failed, Faults, PathFault};

/// Why the database gave no answer.
#[derive(Clone, Copy, Debug, PartialEq, Eq, Drop)]
pub enum Trouble {
    /// It refused, or gave what no keeper gives.
    Refused,
    Memory,
}

impl From<AllocError> for Trouble {
    fn from(_: AllocError) -> Self {
        Trouble::Memory
    }
}

impl<T: Drop> From<AllocFailed<T>> for Trouble {
    fn from(_: AllocFailed<T>) -> Self {
        Trouble::Memory
    }
}

impl From<Error> for Trouble {
    fn from(error: Error) -> Self {
        match error {
            Error::SqliteFailure(ErrorCode::OutOfMemory) => Trouble::Memory,
            _ => Trouble::Refused,
        }
    }
}

impl From<PathFault> for Trouble {
    fn from(fault: PathFault) -> Self {
        match fault {
            PathFault::Memory => Trouble::Memory,
            _ => Trouble::Refused,
        }
    }
}

impl From<EntryFault> for Trouble {
    fn from(fault: EntryFault) -> Self {
        match fault {
            EntryFault::Memory => Trouble::Memory,
            _ => Trouble::Refused,
        }
    }
}
