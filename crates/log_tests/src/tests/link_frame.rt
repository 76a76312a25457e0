//! What is read leaves what was written, and what is written what is left to read.
ghost use Rattle.std.specs.Prelude.{◌≡◌, ℕ, List, Option};
ghost use Rattle.weed_base.specs.Told.{Reads, Writes};

use weed_base::{Failed, Sink, Source};

/// What is read from and written to.
trait Link: Source + Sink {
    /// A read leaves what was written.
    ghost reads_keep_written: { (one two : Self) (was : Option (List ℕ)) → Self.Source.beside two ≡ Self.Source.beside one → Self.written one ≡ was → Self.written two ≡ was };

    /// A write leaves what is left to read.
    ghost writes_keep_left: { (one two : Self) (was : Option (List ℕ)) → Self.Sink.beside two ≡ Self.Sink.beside one → Self.left one ≡ was → Self.left two ≡ was };
}

/// Reads once, and then writes once.
fn read_and_write<L: Link>(
    link: &mut L,
    room: &mut [u8],
    piece: &[u8],
) -> (Result<usize, Failed>, Result<usize, Failed>)
    ensures read { Reads (L.left link.old) (L.left link.new) result.0 room.new }
    ensures written { Writes (L.written link.old) (L.written link.new) result.1 piece.now }
    ensures course { (start : L) → L.course start link.old → L.course start link.new }
{
    let read = link.read(room);
    let written = link.write(piece);
    (read, written)
}
