ghost use Rattle.std.specs.Prelude.{◌≡◌};
ghost use Rattle.volume_items.specs.Faults.{fault_name};
ghost use Rattle.volume_items.specs.declared.fault.VolumeFault.TheVariants.{DiskFault, Memory};

use needle::NeedleFault;
use std::alloc::AllocError;
use thiserror::Error;
use weed_base::Failed;

/// Why a call of a volume was refused or failed.
#[derive(Clone, Copy, Debug, PartialEq, Eq, Error)]
pub enum VolumeFault {
    #[error("a call of the disk failed")]
    DiskFault,
    /// A writing call of this value met a fault of the disk: the volume is opened again.
    #[error("the volume is broken")]
    Broken,
    #[error("the volume is already there")]
    AlreadyThere,
    #[error("the volume isn't there")]
    NotThere,
    #[error("bad superblock: {0}")]
    BadSuper(NeedleFault),
    #[error("no needle of the key is held")]
    NotHeld,
    /// The needle of the key has this cookie.
    #[error("the cookie is another")]
    WrongCookie { held: u32 },
    #[error("no data")]
    EmptyData,
    /// Data of this length in bytes; 33,554,432 may be.
    #[error("data of {length} bytes is too large")]
    TooLarge { length: u64 },
    /// The volume ends here, in bytes.
    #[error("the volume is full at {end}")]
    VolumeFull { end: u64 },
    #[error("the volume is read only")]
    ReadOnly,
    #[error("no vacuum was begun")]
    NoVacuum,
    #[error("a vacuum is going on")]
    InVacuum,
    #[error("the revision is at its end")]
    RevisionAtEnd,
    /// The item at this place has these checksums, or isn't whole, and then both are 0.
    #[error("the item at {at} is damaged: {stored:08x} and {computed:08x}")]
    Damaged { at: u64, stored: u32, computed: u32 },
    #[error("out of memory")]
    Memory,
}

impl VolumeFault {
    /// The name of the variant. Takes no memory.
    pub fn name(&self) -> &'static str
        ensures { result.now ≡ fault_name self.now }
    {
        match self {
            VolumeFault::DiskFault => "DiskFault",
            VolumeFault::Broken => "Broken",
            VolumeFault::AlreadyThere => "AlreadyThere",
            VolumeFault::NotThere => "NotThere",
            VolumeFault::BadSuper(_) => "BadSuper",
            VolumeFault::NotHeld => "NotHeld",
            VolumeFault::WrongCookie { .. } => "WrongCookie",
            VolumeFault::EmptyData => "EmptyData",
            VolumeFault::TooLarge { .. } => "TooLarge",
            VolumeFault::VolumeFull { .. } => "VolumeFull",
            VolumeFault::ReadOnly => "ReadOnly",
            VolumeFault::NoVacuum => "NoVacuum",
            VolumeFault::InVacuum => "InVacuum",
            VolumeFault::RevisionAtEnd => "RevisionAtEnd",
            VolumeFault::Damaged { .. } => "Damaged",
            VolumeFault::Memory => "Memory",
        }
    }
}

impl From<Failed> for VolumeFault {
    ghost from_gives = { λ _ fault. fault ≡ DiskFault };

    fn from(_: Failed) -> Self {
        VolumeFault::DiskFault
    }
}

impl From<AllocError> for VolumeFault {
    ghost from_gives = { λ _ fault. fault ≡ Memory };

    fn from(_: AllocError) -> Self {
        VolumeFault::Memory
    }
}

/// That no whole item lies at a place.
pub fn no_item(at: u64) -> VolumeFault
    ensures { result ≡ VolumeFault.Damaged at 0 0 }
{
    VolumeFault::Damaged {
        at,
        stored: 0,
        computed: 0,
    }
}
