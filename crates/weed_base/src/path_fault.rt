ghost use Rattle.std.specs.Prelude.{◌≡◌};
ghost use Rattle.weed_base.specs.PathFaults.{path_fault_name};
ghost use Rattle.weed_base.specs.declared.path_fault.PathFault.TheVariants.{Memory};

use std::alloc::{AllocError, AllocFailed};
use thiserror::Error;

/// Why a text is no path.
#[derive(Clone, Copy, Debug, PartialEq, Eq, Error)]
pub enum PathFault {
    #[error("a path begins with `/`")]
    NotAbsolute,
    #[error("a path has at most 4,096 bytes")]
    TooLong,
    #[error("a path has no zero byte")]
    NulByte,
    #[error("a path is UTF-8")]
    NotUtf8,
    #[error("a path has no empty part")]
    EmptyPart,
    #[error("a path has no part `.` or `..`")]
    DotPart,
    #[error("a part has at most 255 bytes")]
    PartTooLong,
    #[error("a path has at most 64 parts")]
    TooDeep,
    #[error("a name has no `/`")]
    SlashInName,
    #[error("out of memory")]
    Memory,
}

impl PathFault {
    /// Its name, as it stands in answers.
    pub fn name(&self) -> &'static str
        ensures { result.now ≡ path_fault_name self.now }
    {
        match self {
            PathFault::NotAbsolute => "NotAbsolute",
            PathFault::TooLong => "TooLong",
            PathFault::NulByte => "NulByte",
            PathFault::NotUtf8 => "NotUtf8",
            PathFault::EmptyPart => "EmptyPart",
            PathFault::DotPart => "DotPart",
            PathFault::PartTooLong => "PartTooLong",
            PathFault::TooDeep => "TooDeep",
            PathFault::SlashInName => "SlashInName",
            PathFault::Memory => "Memory",
        }
    }
}

impl From<AllocError> for PathFault {
    ghost from_gives = { λ _ fault. fault ≡ Memory };

    fn from(_: AllocError) -> Self {
        PathFault::Memory
    }
}

impl<T: Drop> From<AllocFailed<T>> for PathFault {
    ghost from_gives = { λ _ fault. fault ≡ Memory };

    fn from(_: AllocFailed<T>) -> Self {
        PathFault::Memory
    }
}
