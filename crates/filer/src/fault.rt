ghost use Rattle.std.specs.Prelude.{◌≡◌};

use meta_log::LogFault;
use name_core::{KeeperFault, PlanFault, Refusal};
use std::alloc::AllocError;
use thiserror::Error;
use weed_base::{Failed, FileName};

/// Why a filer gave no answer.
#[derive(Debug, Drop, Error)]
pub enum LookFault {
    #[error("a call of the disk failed")]
    DiskFault,
    #[error("a call of the keeper failed")]
    KeeperFault,
    /// The files aren't a log text: the first file and place to blame.
    #[error("damaged at {at}")]
    Damaged { file: FileName, at: u64 },
    /// A disk or a keeper failed in an `apply`, at that tick of the disk.
    #[error("broken since tick {tick}")]
    Broken { tick: u64 },
    #[error("out of memory")]
    Memory,
}

/// Why a command wasn't applied.
#[derive(Debug, Drop, Error)]
pub enum ApplyFault {
    #[error("refused: {0}")]
    Refused(Refusal),
    #[error("a call of the keeper failed")]
    KeeperFault,
    /// A disk or a keeper failed in an earlier `apply`, at that tick of the disk.
    #[error("broken since tick {tick}")]
    Broken { tick: u64 },
    #[error("out of memory")]
    Memory,
    #[error("a call of the disk failed")]
    DiskFault,
}

impl From<LogFault> for LookFault {
    ghost use Rattle.filer.specs.Faults.{look_fault_of_log};

    ghost from_gives = { λ log fault. fault ≡ look_fault_of_log log };

    fn from(fault: LogFault) -> Self {
        match fault {
            LogFault::DiskFault => LookFault::DiskFault,
            LogFault::Damaged { file, at } => LookFault::Damaged { file, at },
            LogFault::Memory => LookFault::Memory,
        }
    }
}

impl From<KeeperFault> for LookFault {
    ghost use Rattle.filer.specs.Faults.{look_fault_of_keeper};

    ghost from_gives = { λ keeper fault. fault ≡ look_fault_of_keeper keeper };

    fn from(fault: KeeperFault) -> Self {
        match fault {
            KeeperFault::Failed => LookFault::KeeperFault,
            KeeperFault::Memory => LookFault::Memory,
        }
    }
}

impl From<AllocError> for LookFault {
    ghost use Rattle.filer.specs.declared.fault.LookFault.TheVariants.{Memory};

    ghost from_gives = { λ _ fault. fault ≡ Memory };

    fn from(_: AllocError) -> Self {
        LookFault::Memory
    }
}

impl From<PlanFault> for ApplyFault {
    ghost use Rattle.filer.specs.Faults.{apply_fault_of_plan};

    ghost from_gives = { λ plan fault. fault ≡ apply_fault_of_plan plan };

    fn from(fault: PlanFault) -> Self {
        match fault {
            PlanFault::Refused(refusal) => ApplyFault::Refused(refusal),
            PlanFault::KeeperFault => ApplyFault::KeeperFault,
            PlanFault::Memory => ApplyFault::Memory,
        }
    }
}

impl From<KeeperFault> for ApplyFault {
    ghost use Rattle.filer.specs.Faults.{apply_fault_of_keeper};

    ghost from_gives = { λ keeper fault. fault ≡ apply_fault_of_keeper keeper };

    fn from(fault: KeeperFault) -> Self {
        match fault {
            KeeperFault::Failed => ApplyFault::KeeperFault,
            KeeperFault::Memory => ApplyFault::Memory,
        }
    }
}

impl From<AllocError> for ApplyFault {
    ghost use Rattle.filer.specs.declared.fault.ApplyFault.TheVariants.{Memory};

    ghost from_gives = { λ _ fault. fault ≡ Memory };

    fn from(_: AllocError) -> Self {
        ApplyFault::Memory
    }
}
