ghost use Rattle.std.specs.Prelude.{◌≡◌, [], Some};
ghost use Rattle.weed_base.specs.Told.{HasWriteCause};
ghost use Rattle.weed_base.specs.Calls.{uncalled};
ghost use Rattle.weed_base.specs.MemForms.{IsNextSend};
ghost use Rattle.weed_base.specs.Sent.{bytes_of, Sends};

use crate::mem::calls::Calls;
use crate::mem::sent::{SentPiece, keep_piece};
use crate::sender::Sender;
use crate::source::Failed;
use std::alloc::Global;
use std::marker::Model;

/// A sender in memory, which keeps the pieces sent. A send that lacks memory fails.
#[derive(Debug, Drop)]
pub struct MemSender {
    pieces: Vec<SentPiece>,
    bytes: Vec<u8>,
    most: usize,
    sends: Calls,
}

impl Model for MemSender {
    ghost use Rattle.std.specs.Prelude.{◌≡◌};
    ghost use Rattle.weed_base.specs.MemForms.{SenderState, sender_code};
    ghost use Rattle.weed_base.specs.Sent.{bytes_of};

    ghost Value = { SenderState };

    ghost coded = { sender_code };

    ghost view = { λ sender. record { pieces = sender.pieces.items; most = sender.most; sends = sender.sends } };

    ghost invariant = { λ sender. sender.bytes.items ≡ bytes_of sender.pieces.items };
}

impl MemSender {
    /// A sender that sends each piece whole. The sends with these numbers fail.
    pub fn new(alloc: Global, failing: Vec<u64>) -> MemSender
        ensures { result ≡ record { pieces = []; most = usize.MAX; sends = uncalled failing.items } }
    {
        MemSender {
            pieces: Vec::new(alloc),
            bytes: Vec::new(alloc),
            most: usize::MAX,
            sends: Calls::new(failing),
        }
    }

    /// The same sender, which sends so many bytes at a time at most. With 0 it sends nothing, and each send
    /// of a piece that isn't empty counts as a fault.
    pub fn with_most(self, most: usize) -> MemSender
        ensures { result ≡ record self { most = most } }
    {
        let MemSender {
            pieces,
            bytes,
            sends,
            ..
        } = self;
        MemSender {
            pieces,
            bytes,
            most,
            sends,
        }
    }

    /// The pieces sent, each with the disk's tick when it was handed over.
    pub fn pieces(&self) -> &[SentPiece]
        ensures { result.now ≡ self.now.pieces }
    {
        &self.pieces
    }

    /// All the bytes sent.
    pub fn sent(&self) -> &[u8]
        ensures { result.now ≡ bytes_of self.now.pieces }
    {
        &self.bytes
    }

    /// How many sends failed.
    pub fn faults(&self) -> u64
        ensures { result ≡ self.now.sends.faults }
    {
        self.sends.faults()
    }
}

impl Sender for MemSender {
    ghost sent = { λ sender. Some sender.pieces };

    ghost faults = { λ sender. sender.sends.faults };

    fn send(&mut self, tick: u64, piece: &[u8]) -> Result<usize, Failed>
        ensures pieces { Sends tick (Some self.old.pieces) (Some self.new.pieces) result piece.now }
        ensures next { IsNextSend self.old self.new piece.now result }
        ensures cause { HasWriteCause self.old.sends.faults self.new.sends.faults result piece.now }
    {
        self.sends.begin()?;
        let count = piece.len().min(self.most);
        if keep_piece(&mut self.pieces, &mut self.bytes, tick, &piece[..count]).is_err() {
            return Err(self.sends.fail());
        }
        if count == 0 && !piece.is_empty() {
            self.sends.fail();
        }
        Ok(count)
    }
}
