ghost use Rattle.std.specs.Prelude.{◌≡◌};
ghost use Rattle.name_core.specs.declared.command.PlanFault.TheVariants.{Memory};
ghost use Rattle.name_core.specs.Faults.{plan_fault_of};

use crate::names::KeeperFault;
use std::alloc::{AllocError, AllocFailed};
use thiserror::Error;
use weed_base::Path;

/// What a filer is asked to change.
#[derive(Debug, Drop)]
pub enum Command {
    /// Makes the directory and each missing one above it.
    MakeDir { path: Path },
}

/// Why a command changes nothing.
#[derive(Debug, Drop, Error)]
pub enum Refusal {
    #[error("a file stands where a directory is needed")]
    IsFile(Path),
    #[error("a directory stands where a file is to be written")]
    IsDirectory,
    #[error("the file would end past its greatest length")]
    BadPlace,
    #[error("the file would have over 65,536 chunks")]
    TooManyChunks,
    #[error("the root stays as it is")]
    RootFixed,
    #[error("nothing stands there")]
    NotFound,
    #[error("something is below")]
    NotEmpty,
    #[error("a path would stand at or below itself")]
    IntoItself,
    #[error("something stands where the path is to be")]
    Exists,
    #[error("a path would be too long, or have too many parts")]
    PathLimit,
    #[error("the command makes over 65,536 changes")]
    TooMany,
    #[error("the text of the record would be too long")]
    RecordTooLong,
    #[error("the log is at the end of time")]
    ClockAtEnd,
}

impl Refusal {
    ghost use Rattle.name_core.specs.Faults.{refusal_name};

    /// Its name, as it stands in answers. Takes no memory.
    pub fn name(&self) -> &'static str
        ensures { result.now ≡ refusal_name self.now }
    {
        match self {
            Refusal::IsFile(_) => "IsFile",
            Refusal::IsDirectory => "IsDirectory",
            Refusal::BadPlace => "BadPlace",
            Refusal::TooManyChunks => "TooManyChunks",
            Refusal::RootFixed => "RootFixed",
            Refusal::NotFound => "NotFound",
            Refusal::NotEmpty => "NotEmpty",
            Refusal::IntoItself => "IntoItself",
            Refusal::Exists => "Exists",
            Refusal::PathLimit => "PathLimit",
            Refusal::TooMany => "TooMany",
            Refusal::RecordTooLong => "RecordTooLong",
            Refusal::ClockAtEnd => "ClockAtEnd",
        }
    }
}

/// Why no plan was made.
#[derive(Debug, Drop, Error)]
pub enum PlanFault {
    #[error("refused: {0}")]
    Refused(Refusal),
    #[error("a call of the keeper failed")]
    KeeperFault,
    #[error("out of memory")]
    Memory,
}

impl From<KeeperFault> for PlanFault {
    ghost from_gives = { λ fault made. made ≡ plan_fault_of fault };

    fn from(fault: KeeperFault) -> Self {
        match fault {
            KeeperFault::Failed => PlanFault::KeeperFault,
            KeeperFault::Memory => PlanFault::Memory,
        }
    }
}

impl From<AllocError> for PlanFault {
    ghost from_gives = { λ _ fault. fault ≡ Memory };

    fn from(_: AllocError) -> Self {
        PlanFault::Memory
    }
}

impl<T: Drop> From<AllocFailed<T>> for PlanFault {
    ghost from_gives = { λ _ fault. fault ≡ Memory };

    fn from(_: AllocFailed<T>) -> Self {
        PlanFault::Memory
    }
}
