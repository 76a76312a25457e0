ghost use Rattle.std.specs.Prelude.{◌≡◌};
ghost use Rattle.std.specs.List.{flat_map};
ghost use Rattle.weed_base.specs.Told.{HasCause};
ghost use Rattle.http_wire.specs.Written.{WritesAll};

use thiserror::Error;
use weed_base::Sink;

/// A write failed.
#[derive(Clone, Copy, Debug, PartialEq, Eq, Error)]
#[error("a write failed")]
pub struct WriteFault;

/// Writes all the bytes, or first ones of them, not all, where a write fails. Takes no memory.
pub fn write_all<K: Sink>(to: &mut K, bytes: &[u8]) -> Result<(), WriteFault>
    ensures bytes { WritesAll (K.written to.old) (K.written to.new) result bytes.now }
    ensures cause { HasCause (K.faults to.old) (K.faults to.new) result }
    ensures beside { K.beside to.new ≡ K.beside to.old }
    ensures course { (start : K) → K.course start to.old → K.course start to.new }
{
    let mut done = 0;
    while done < bytes.len() {
        match to.write(&bytes[done..]) {
            Ok(0) | Err(_) => return Err(WriteFault),
            Ok(count) => done += count,
        }
    }
    Ok(())
}

/// Writes the pieces one after another, or first bytes of them, not all, where a write fails.
pub fn write_pieces<K: Sink>(to: &mut K, pieces: &[&[u8]]) -> Result<(), WriteFault>
    ensures bytes { WritesAll (K.written to.old) (K.written to.new) result (flat_map (λ piece. piece.now) pieces.now) }
    ensures cause { HasCause (K.faults to.old) (K.faults to.new) result }
    ensures beside { K.beside to.new ≡ K.beside to.old }
    ensures course { (start : K) → K.course start to.old → K.course start to.new }
{
    for piece in pieces {
        write_all(to, piece)?;
    }
    Ok(())
}
