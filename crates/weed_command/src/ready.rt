ghost use Rattle.std.specs.Prelude.{◌≡◌};
ghost use Rattle.weed_command.specs.Session.{memory_answer, disk_answer, not_yet_answer};

use crate::answer::{Status, refused};
use std::alloc::{AllocError, Global};
use weed_base::Bytes;

/// Answers that are made before they are needed, since they tell of want of memory or a fault.
#[derive(Debug, Drop)]
pub struct ReadyAnswers {
    pub memory: Bytes,
    pub disk_fault: Bytes,
    pub not_yet: Bytes,
    ghost memory_is: { memory ≡ memory_answer },
    ghost disk_fault_is: { disk_fault ≡ disk_answer },
    ghost not_yet_is: { not_yet ≡ not_yet_answer },
}

impl ReadyAnswers {
    /// Makes them, before the first request.
    pub fn make(alloc: Global) -> Result<ReadyAnswers, AllocError> {
        Ok(ReadyAnswers {
            memory: refused(alloc, Status::ServiceUnavailable, "Memory", false)?,
            disk_fault: refused(alloc, Status::InternalServerError, "DiskFault", true)?,
            not_yet: refused(alloc, Status::NotImplemented, "NotYet", true)?,
        })
    }
}
