ghost use Rattle.std.specs.Prelude.{◌≡◌, []};
ghost use Rattle.weed_base.specs.Calls.{uncalled};
ghost use Rattle.weed_base.specs.Sent.{bytes_of};

use crate::disk_host::DiskHost;
use crate::mem::disk::MemDisk;
use crate::mem::sender::MemSender;
use crate::mem::sent::SentPiece;
use std::alloc::Global;

/// A host in memory.
pub type MemHost = DiskHost<MemDisk, MemSender>;

impl DiskHost<MemDisk, MemSender> {
    /// A host over this disk that sends each piece whole. The sends with these numbers fail.
    pub fn new(alloc: Global, disk: MemDisk, failing: Vec<u64>) -> MemHost
        ensures { result ≡ record { disk = disk; sender = record { pieces = []; most = usize.MAX; sends = uncalled failing.items } } }
    {
        DiskHost::of(disk, MemSender::new(alloc, failing))
    }

    /// The same host, which sends so many bytes at a time at most.
    pub fn with_most(self, most: usize) -> MemHost
        ensures { result ≡ record self { sender = record self.sender { most = most } } }
    {
        let (disk, sender) = self.into_parts();
        DiskHost::of(disk, sender.with_most(most))
    }

    /// The pieces sent, each with the disk's tick when it was handed over.
    pub fn pieces(&self) -> &[SentPiece]
        ensures { result.now ≡ self.now.sender.pieces }
    {
        self.sender().pieces()
    }

    /// All the bytes sent.
    pub fn sent(&self) -> &[u8]
        ensures { result.now ≡ bytes_of self.now.sender.pieces }
    {
        self.sender().sent()
    }

    /// How many sends failed.
    pub fn send_faults(&self) -> u64
        ensures { result ≡ self.now.sender.sends.faults }
    {
        self.sender().faults()
    }
}
