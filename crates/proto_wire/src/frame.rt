//! Frames over a source and a sink.
ghost use Rattle.std.specs.Prelude.{◌≡◌, ◌<◌, ◌^◌, IfSome, IsErrOf, length};
ghost use Rattle.std.specs.Int.{w32, from_be_bytes};
ghost use Rattle.weed_base.specs.Told.{HasCause, IsCauseOf};
ghost use Rattle.weed_base.specs.Whole.{WritesAll};
ghost use Rattle.proto_wire.specs.Frame.{length_text, frame_text, frame_at, length_at, payload_at, IsUnlessOutside, TakesFrame, TakesLength, TakesPayload};

use crate::frame_fault::FrameFault;
use std::alloc::Global;
use weed_base::{Bytes, Sink, Source, WriteFault, read_full, write_all};

/// Writes a frame of the payload, which has less than 2^32 bytes, or first bytes of it, not all, where a write fails.
/// Takes no memory.
pub fn write_frame<K: Sink>(to: &mut K, payload: &[u8]) -> Result<(), WriteFault>
    requires { length payload.now < 2 ^ 32 }
    ensures bytes { WritesAll (K.written to.old) (K.written to.new) result (frame_text payload.now) }
    ensures cause { HasCause (K.faults to.old) (K.faults to.new) result }
    ensures beside { K.beside to.new ≡ K.beside to.old }
    ensures course { (start : K) → K.course start to.old → K.course start to.new }
{
    write_all(to, &spell_length(payload.len() as u32))?;
    write_all(to, payload)
}

/// Reads the next frame; `None` at the end. Its payload has at most `limit` bytes. Refuses a frame that the end cuts
/// short (`Truncated`), and one of more bytes than the limit before its payload is read (`TooLong`). After an `Err` the
/// bytes read are gone.
pub fn read_frame<S: Source>(
    alloc: Global,
    from: &mut S,
    limit: u32,
) -> Result<Option<Bytes>, FrameFault>
    ensures exact { IfSome (S.left from.old) (λ left. IsUnlessOutside result (frame_at limit left)) }
    ensures taken { TakesFrame limit (S.left from.old) (S.left from.new) result }
    ensures cause { IsCauseOf (S.faults from.old) (S.faults from.new) (IsErrOf result FrameFault.ReadFault) }
    ensures beside { S.beside from.new ≡ S.beside from.old }
    ensures course { (start : S) → S.course start from.old → S.course start from.new }
{
    let Some(length) = read_length(from)? else {
        return Ok(None);
    };
    if limit < length {
        return Err(FrameFault::TooLong { length });
    }
    Ok(Some(read_payload(alloc, from, length)?))
}

/// The four bytes of a length.
#[tactic(auto, unfolding(crate::specs::Frame::length_text))]
fn spell_length(length: u32) -> [u8; 4]
    ensures { result ≡ length_text length }
{
    length.to_be_bytes()
}

/// The length that four bytes spell.
fn spelled_length(head: &[u8]) -> u32
    requires { length head.now ≡ 4 }
    ensures value { result ≡ from_be_bytes w32 head.now }
    ensures text { head.now ≡ length_text result }
{
    u32::from_be_bytes([head[0], head[1], head[2], head[3]])
}

/// Reads the length of the next frame; `None` at the end. Takes no memory.
fn read_length<S: Source>(from: &mut S) -> Result<Option<u32>, FrameFault>
    ensures exact { IfSome (S.left from.old) (λ left. IsUnlessOutside result (length_at left)) }
    ensures taken { TakesLength (S.left from.old) (S.left from.new) result }
    ensures cause { IsCauseOf (S.faults from.old) (S.faults from.new) (IsErrOf result FrameFault.ReadFault) }
    ensures beside { S.beside from.new ≡ S.beside from.old }
    ensures course { (start : S) → S.course start from.old → S.course start from.new }
{
    let mut head = [0u8; 4];
    match read_full(from, &mut head)? {
        0 => Ok(None),
        4 => Ok(Some(spelled_length(&head))),
        _ => Err(FrameFault::Truncated),
    }
}

/// Reads so many bytes.
fn read_payload<S: Source>(alloc: Global, from: &mut S, length: u32) -> Result<Bytes, FrameFault>
    ensures exact { IfSome (S.left from.old) (λ left. IsUnlessOutside result (payload_at length left)) }
    ensures taken { TakesPayload length (S.left from.old) (S.left from.new) result }
    ensures cause { IsCauseOf (S.faults from.old) (S.faults from.new) (IsErrOf result FrameFault.ReadFault) }
    ensures beside { S.beside from.new ≡ S.beside from.old }
    ensures course { (start : S) → S.course start from.old → S.course start from.new }
{
    let mut payload = vec![in alloc; 0; length as usize]?;
    let count = read_full(from, &mut payload)?;
    if count < payload.len() {
        return Err(FrameFault::Truncated);
    }
    Ok(Bytes::of(payload))
}
