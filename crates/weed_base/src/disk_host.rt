ghost use Rattle.std.specs.Prelude.{◌≡◌, false, refl};
ghost use Rattle.std.proofs.lemmas.Bool.{false≢true};
ghost use Rattle.std.proofs.Common.{rules};
ghost use Rattle.weed_base.specs.Told.{HasWriteCause};
ghost use Rattle.weed_base.specs.Sent.{Sends};

use crate::bytes::Word;
use crate::disk::{Disk, Host, NamesFault};
use crate::file_name::FileName;
use crate::items::Items;
use crate::sender::Sender;
use crate::source::Failed;
use std::alloc::Global;

/// A disk that has files of any name.
pub trait WholeDisk: Disk {
    /// It may have files of any name.
    ghost whole: { Self.MARKS_ONLY ≡ false };
}

/// A host of a disk and a sender, side by side.
#[derive(Debug, Drop)]
pub struct DiskHost<D, K> {
    disk: D,
    sender: K,
}

impl<D, K> DiskHost<D, K> {
    /// Of this disk, and sending through this sender.
    pub fn of(disk: D, sender: K) -> DiskHost<D, K>
        ensures { result ≡ record { disk = disk; sender = sender } }
    {
        DiskHost { disk, sender }
    }

    /// Its disk.
    pub fn disk(&self) -> &D
        ensures { result.now ≡ self.now.disk }
    {
        &self.disk
    }

    /// What it sends through.
    pub fn sender(&self) -> &K
        ensures { result.now ≡ self.now.sender }
    {
        &self.sender
    }

    /// Both.
    pub(crate) fn into_parts(self) -> (D, K)
        ensures { result ≡ (self.disk, self.sender) }
    {
        let DiskHost { disk, sender } = self;
        (disk, sender)
    }
}

impl<D: WholeDisk, K: Sender> Disk for DiskHost<D, K> {
    const MARKS_ONLY: bool = false;

    ghost MARKS_ONLY = { false };

    ghost files = { λ host. D.files host.disk };

    ghost faults = { λ host. D.faults host.disk };

    ghost tick = { λ host. D.tick host.disk };

    ghost images = { λ host. D.images host.disk };

    ghost image_since = { λ host. D.image_since host.disk };

    ghost Beside = { D.Beside × K };

    ghost beside = { λ host. (D.beside host.disk, host.sender) };

    ghost counts_now = { λ host. D.counts_now host.disk };

    ghost only_now = { λ host. D.only_now host.disk };

    ghost reads_now = { λ host. D.reads_now host.disk };

    ghost marks_only = { λ host read name told there marks. absurd (false≢true marks) };

    fn tick(&self) -> u64 {
        self.disk.tick()
    }

    fn attach(&mut self, place: &Word) -> Result<(), Failed> {
        self.disk.attach(place)
    }

    fn names(&mut self, alloc: Global) -> Result<Items<FileName>, NamesFault> {
        self.disk.names(alloc)
    }

    fn size(&mut self, name: &FileName) -> Result<Option<u64>, Failed> {
        self.disk.size(name)
    }

    fn read_at(&mut self, name: &FileName, at: u64, room: &mut [u8]) -> Result<usize, Failed> {
        self.disk.read_at(name, at, room)
    }

    fn write_at(&mut self, name: &FileName, at: u64, piece: &[u8]) -> Result<(), Failed> {
        self.disk.write_at(name, at, piece)
    }

    fn cut(&mut self, name: &FileName, to: u64) -> Result<(), Failed> {
        self.disk.cut(name, to)
    }

    fn make(&mut self, name: &FileName) -> Result<(), Failed> {
        self.disk.make(name)
    }

    fn remove(&mut self, name: &FileName) -> Result<(), Failed> {
        self.disk.remove(name)
    }

    fn rename(&mut self, from: &FileName, to: &FileName) -> Result<(), Failed> {
        self.disk.rename(from, to)
    }

    fn sync(&mut self) -> Result<(), Failed> {
        self.disk.sync()
    }
}

impl<D: WholeDisk, K: Sender> Host for DiskHost<D, K> {
    ghost sent = { λ host. K.sent host.sender };

    ghost send_faults = { λ host. K.faults host.sender };

    ghost Apart = { D };

    ghost apart = { λ host. host.disk };

    ghost calls_keep_sent = { Prim.search rules };

    ghost calls_keep_send_faults = { Prim.search rules };

    ghost sends_keep_files = { Prim.search rules };

    ghost sends_keep_faults = { Prim.search rules };

    ghost sends_keep_tick = { Prim.search rules };

    ghost sends_keep_images = { Prim.search rules };

    ghost sends_keep_since = { Prim.search rules };

    fn send(&mut self, piece: &[u8]) -> Result<usize, Failed>
        ensures pieces { Sends (D.tick self.old.disk) (K.sent self.old.sender) (K.sent self.new.sender) result piece.now }
        ensures cause { HasWriteCause (K.faults self.old.sender) (K.faults self.new.sender) result piece.now }
        ensures apart { self.new.disk ≡ self.old.disk }
    {
        self.sender.send(self.disk.tick(), piece)
    }

    ghost whole = { refl };
}
