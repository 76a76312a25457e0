ghost use Rattle.std.specs.Prelude.{◌≡◌, [], ◌∷◌, ◌++◌, OnOk, OnErr};

use crate::bytes::Bytes;
use std::alloc::AllocError;
use std::marker::Model;

/// Bytes that were sent at once, and the disk's tick when they were handed over.
#[derive(Debug, Drop)]
pub struct SentPiece {
    tick: u64,
    bytes: Bytes,
}

impl Model for SentPiece {
    ghost use Rattle.weed_base.specs.Sent.{Piece};

    ghost Value = { Piece };

    ghost view = { λ piece. record { tick = piece.tick; bytes = piece.bytes } };
}

impl SentPiece {
    /// The disk's tick when it was handed over.
    pub fn tick(&self) -> u64
        ensures { result ≡ self.now.tick }
    {
        self.tick
    }

    /// The bytes that were sent.
    pub fn as_slice(&self) -> &[u8]
        ensures { result.now ≡ self.now.bytes }
    {
        self.bytes.as_slice()
    }
}

/// Keeps a piece among those sent and its bytes behind all that were sent. Where memory is lacking neither is
/// done.
pub(crate) fn keep_piece(
    pieces: &mut Vec<SentPiece>,
    bytes: &mut Vec<u8>,
    tick: u64,
    piece: &[u8],
) -> Result<(), AllocError>
    ensures pieces { OnOk result (pieces.new.items ≡ pieces.old.items ++ record { tick = tick; bytes = piece.now } ∷ []) }
    ensures bytes { OnOk result (bytes.new.items ≡ bytes.old.items ++ piece.now) }
    ensures pieces_err { OnErr result (pieces.new.items ≡ pieces.old.items) }
    ensures bytes_err { OnErr result (bytes.new.items ≡ bytes.old.items) }
{
    pieces.reserve(1)?;
    let kept = Bytes::of(piece.to_vec(*pieces.allocator())?);
    bytes.extend_from_slice(piece)?;
    pieces.push(SentPiece { tick, bytes: kept }).unwrap();
    Ok(())
}
