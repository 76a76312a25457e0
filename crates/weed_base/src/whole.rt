//! Reads and writes of whole pieces, over as many calls as it takes.
ghost use Rattle.std.specs.Prelude.{◌≡◌, ◌≤◌, length, take, drop};
ghost use Rattle.weed_base.specs.Told.{Reads, HasCause};
ghost use Rattle.weed_base.specs.Whole.{FillsRoom, WritesAll};

use crate::sink::Sink;
use crate::source::{Failed, Source};
use thiserror::Error;

/// A write failed.
#[derive(Clone, Copy, Debug, PartialEq, Eq, Error)]
#[error("a write failed")]
pub struct WriteFault;

/// Reads until the room is full or the source is at its end, and answers how many bytes it read into the room's
/// front. Where a read fails, the bytes read before it are in the room's front and gone. Takes no memory.
pub fn read_full<S: Source>(from: &mut S, room: &mut [u8]) -> Result<usize, Failed>
    ensures bytes { FillsRoom (S.left from.old) (S.left from.new) result room.new }
    ensures cause { HasCause (S.faults from.old) (S.faults from.new) result }
    ensures beside { S.beside from.new ≡ S.beside from.old }
    ensures course { (start : S) → S.course start from.old → S.course start from.new }
{
    let mut done = 0;
    while done < room.len() {
        match read_behind(from, room, done)? {
            0 => return Ok(done),
            count => done += count,
        }
    }
    Ok(done)
}

/// Reads into the room behind its first bytes.
fn read_behind<S: Source>(from: &mut S, room: &mut [u8], first: usize) -> Result<usize, Failed>
    requires { first ≤ length room.old }
    ensures bytes { Reads (S.left from.old) (S.left from.new) result (drop first room.new) }
    ensures front { take first room.new ≡ take first room.old }
    ensures cause { HasCause (S.faults from.old) (S.faults from.new) result }
    ensures beside { S.beside from.new ≡ S.beside from.old }
    ensures course { (start : S) → S.course start from.old → S.course start from.new }
{
    from.read(&mut room[first..])
}

/// Writes all the bytes, or first ones of them, not all, where a write fails. Takes no memory.
pub fn write_all<K: Sink>(to: &mut K, bytes: &[u8]) -> Result<(), WriteFault>
    ensures bytes { WritesAll (K.written to.old) (K.written to.new) result bytes.now }
    ensures cause { HasCause (K.faults to.old) (K.faults to.new) result }
    ensures beside { K.beside to.new ≡ K.beside to.old }
    ensures course { (start : K) → K.course start to.old → K.course start to.new }
{
    let mut done = 0;
    while done < bytes.len() {
        match to.write(&bytes[done..]) {
            Ok(0) | Err(_) => return Err(WriteFault),
            Ok(count) => done += count,
        }
    }
    Ok(())
}
