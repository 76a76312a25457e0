ghost use Rattle.std.specs.Prelude.{◌≡◌};
ghost use Rattle.weed_base.specs.History.{is_sync};

use crate::bytes::Bytes;
use crate::file_name::FileName;

/// What a call of a memory disk did, where a crash may tell it.
#[derive(Debug, Drop)]
pub(crate) enum Change {
    Written {
        name: FileName,
        at: u64,
        piece: Bytes,
    },
    /// A write failed, and its range is unsettled.
    Torn {
        name: FileName,
        at: u64,
        count: usize,
    },
    Cut {
        name: FileName,
        to: u64,
    },
    Made {
        name: FileName,
    },
    Removed {
        name: FileName,
    },
    Renamed {
        from: FileName,
        to: FileName,
    },
    Synced,
}

impl Change {
    /// It settles all that was done before.
    pub(crate) fn is_sync(&self) -> bool
        ensures { result ≡ is_sync self.now }
    {
        matches!(self, Change::Synced)
    }
}

/// A call that a memory disk keeps, with the disk's tick when it was made.
#[derive(Debug, Drop)]
pub(crate) struct Call {
    pub(crate) tick: u64,
    pub(crate) change: Change,
}

/// Which of the images of a disk: how all that is unsettled stands.
#[derive(Clone, Copy, Debug, PartialEq, Eq)]
pub enum Pick {
    /// As it was before.
    Old,
    /// As it was written.
    New,
    /// Names and cuts as after, and this byte in each unsettled place.
    Fill(u8),
}
