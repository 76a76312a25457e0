ghost use Rattle.std.specs.Prelude.{List, ℕ, Option};
ghost use Rattle.weed_base.specs.Told.{HasWriteCause};
ghost use Rattle.weed_base.specs.Sent.{Piece, Sends};

use crate::source::Failed;

/// What a host's pieces go out through.
pub trait Sender {
    /// The pieces sent, where told.
    ghost sent: { Self → Option (List Piece) };

    /// How many sends failed.
    ghost faults: { Self → ℕ };

    /// Sends first bytes of the piece, which is handed over at that tick of a disk, and answers how many. Taking
    /// nothing of a piece that isn't empty counts as a failed send.
    fn send(&mut self, tick: u64, piece: &[u8]) -> Result<usize, Failed>
        ensures pieces { Sends tick (sent self.old) (sent self.new) result piece.now }
        ensures cause { HasWriteCause (faults self.old) (faults self.new) result piece.now };
}
