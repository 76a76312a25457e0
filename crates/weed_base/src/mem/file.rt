ghost use Rattle.std.specs.Prelude.{◌≡◌, ◌≤◌, [], length, take, OnOk, OnErr};
ghost use Rattle.weed_base.specs.Files.{spliced};

use crate::bytes::Bytes;
use std::alloc::{AllocError, Global};
use std::marker::Model;

/// A file in memory.
#[derive(Debug, Drop)]
pub(crate) struct MemFile {
    bytes: Vec<u8>,
}

impl Model for MemFile {
    ghost use Rattle.std.specs.Prelude.{List, ℕ};
    ghost use Rattle.std.specs.Coded.{coded_list, coded_ℕ};

    ghost Value = { List ℕ };

    ghost coded = { coded_list coded_ℕ };

    ghost view = { λ file. file.bytes.items };
}

impl MemFile {
    /// An empty file. Takes no memory.
    pub(crate) fn new(alloc: Global) -> MemFile
        ensures { result ≡ [] }
    {
        MemFile {
            bytes: Vec::new(alloc),
        }
    }

    /// A file of these bytes. Takes no memory.
    pub(crate) fn of(bytes: Bytes) -> MemFile
        ensures { result ≡ bytes }
    {
        MemFile {
            bytes: bytes.into_vec(),
        }
    }

    pub(crate) fn as_slice(&self) -> &[u8]
        ensures { result.now ≡ self.now }
    {
        self.bytes.as_slice()
    }

    /// Writes over what is there, and past the end; at the end, where it is ahead of the place. Nothing is
    /// written where memory is lacking.
    pub(crate) fn write(&mut self, at: usize, piece: &[u8]) -> Result<(), AllocError>
        ensures ok { OnOk result (self.new ≡ spliced self.old at piece.now) }
        ensures err { OnErr result (self.new ≡ self.old) }
    {
        let end = self.bytes.len();
        self.write_within(at.min(end), piece)
    }

    /// The same at a place that is within the file.
    fn write_within(&mut self, at: usize, piece: &[u8]) -> Result<(), AllocError>
        requires { at ≤ length self.old }
        ensures ok { OnOk result (self.new ≡ spliced self.old at piece.now) }
        ensures err { OnErr result (self.new ≡ self.old) }
    {
        let over = piece.len().min(self.bytes.len() - at);
        self.bytes.extend_from_slice(&piece[over..])?;
        self.bytes[at..at + over].copy_from_slice(&piece[..over]);
        Ok(())
    }

    /// Cuts the file to a length.
    pub(crate) fn cut(&mut self, to: usize)
        ensures { self.new ≡ take to self.old }
    {
        self.bytes.truncate(to);
    }
}
