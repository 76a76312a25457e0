ghost use Rattle.std.specs.Prelude.{◌≡◌, [], Some, false};
ghost use Rattle.std.specs.Option.{option_or};

use crate::chunk_reading::{chunk_of, read_chunk};
use crate::entry::MAX_CHUNKS;
use proto_wire::WireFault;

/// What is seen of an entry's chunks while its fields are read.
#[derive(Clone, Copy, Debug)]
pub struct ChunksSeen {
    /// The first fault in them.
    pub fault: Option<WireFault>,
    /// The first fault in those before the last attributes.
    pub early: Option<WireFault>,
    /// How many there are, up to one more than an entry may have.
    pub count: u32,
    /// Each is a chunk.
    pub are_good: bool,
}

impl ChunksSeen {
    ghost use Rattle.entry.specs.EntryText.{chunks_seen_in};
    ghost use Rattle.entry.specs.EntrySteps.{seen_with, seen_before};

    /// Of no chunk.
    pub fn none() -> ChunksSeen
        ensures { result ≡ chunks_seen_in [] }
    {
        ChunksSeen {
            fault: None,
            early: None,
            count: 0,
            are_good: true,
        }
    }

    /// Looks at one chunk more.
    pub fn take(&mut self, text: &[u8])
        ensures { self.new ≡ seen_with text.now self.old }
    {
        match read_chunk(text) {
            Ok(chunk) => self.are_good = self.are_good && chunk_of(&chunk).is_some(),
            Err(fault) => self.take_fault(fault),
        }
        if self.count <= MAX_CHUNKS {
            self.count += 1;
        }
    }

    fn take_fault(&mut self, fault: WireFault)
        ensures fault { self.new.fault ≡ option_or self.old.fault (Some fault) }
        ensures good { self.new.are_good ≡ false }
        ensures others { (self.new.early ≡ self.old.early) × (self.new.count ≡ self.old.count) }
    {
        self.are_good = false;
        self.fault = self.fault.or(Some(fault));
    }

    /// Attributes stand behind those that were seen.
    pub fn pass_attributes(&mut self)
        ensures { self.new ≡ seen_before self.old }
    {
        self.early = self.fault;
    }
}
