ghost use Rattle.std.specs.Prelude.{◌≡◌};
ghost use Rattle.std.specs.List.{flat_map};
ghost use Rattle.weed_base.specs.Told.{HasCause};
ghost use Rattle.weed_base.specs.Images.{StandsStill};
ghost use Rattle.weed_base.specs.Sent.{bytes_sent};
ghost use Rattle.weed_command.specs.Handed.{SendsAt};
ghost use Rattle.weed_command.specs.Written.{WritesAll};

use thiserror::Error;
use weed_base::{Host, Sink};

/// A write failed.
#[derive(Clone, Copy, Debug, PartialEq, Eq, Error)]
#[error("a write failed")]
pub struct WriteFault;

/// Writes all the bytes, or first ones of them, not all, where a write fails.
pub fn write_all<K: Sink>(to: &mut K, bytes: &[u8]) -> Result<(), WriteFault>
    ensures bytes { WritesAll (K.written to.old) (K.written to.new) result bytes.now }
    ensures cause { HasCause (K.faults to.old) (K.faults to.new) result }
{
    let mut done = 0;
    while done < bytes.len() {
        match to.write(&bytes[done..]) {
            Ok(0) | Err(_) => return Err(WriteFault),
            Ok(count) => done += count,
        }
    }
    Ok(())
}

/// Writes the pieces one after another, or first bytes of them, not all, where a write fails.
pub fn write_pieces<K: Sink>(to: &mut K, pieces: &[&[u8]]) -> Result<(), WriteFault>
    ensures bytes { WritesAll (K.written to.old) (K.written to.new) result (flat_map (λ piece. piece.now) pieces.now) }
    ensures cause { HasCause (K.faults to.old) (K.faults to.new) result }
{
    for piece in pieces {
        write_all(to, piece)?;
    }
    Ok(())
}

/// Sends all the bytes, or first ones of them, not all, where a send fails.
pub fn send_all<H: Host>(host: &mut H, bytes: &[u8]) -> Result<(), WriteFault>
    ensures bytes { WritesAll (bytes_sent (H.sent host.old)) (bytes_sent (H.sent host.new)) result bytes.now }
    ensures cause { HasCause (H.send_faults host.old) (H.send_faults host.new) result }
    ensures pieces { SendsAt (H.tick host.new) (H.sent host.old) (H.sent host.new) }
    ensures apart { H.apart host.new ≡ H.apart host.old }
    ensures still { StandsStill (H.tick host.old) (H.tick host.new) (H.image_since host.old) (H.image_since host.new) (H.images host.old) (H.images host.new) }
    ensures files { H.files host.new ≡ H.files host.old }
    ensures faults { H.faults host.new ≡ H.faults host.old }
{
    let mut done = 0;
    while done < bytes.len() {
        match host.send(&bytes[done..]) {
            Ok(0) | Err(_) => return Err(WriteFault),
            Ok(count) => done += count,
        }
    }
    Ok(())
}
