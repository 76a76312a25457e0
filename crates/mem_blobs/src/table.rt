//! Needles by their ids: the first has the key 1.
ghost use Rattle.std.specs.Prelude.{◌≡◌, ◌↔◌, ◌^◌, ◌≤◌, ◌<◌, ◌++◌, ◌∷◌, [], length, true, Some, IfOk, IsTrue, IsSome, OnErr, option_copied};
ghost use Rattle.entry.specs.Needles.{Puts, held_under, without_needle};
ghost use Rattle.mem_blobs.specs.MemBlobs.{index_of, fid_at, needles_in};

use crate::needle::MemNeedle;
use file_id::Fid;
use std::alloc::{AllocError, Global};
use weed_base::Bytes;

/// The id of a key.
pub fn fid_at(key: u64) -> Fid
    ensures { result ≡ fid_at key }
{
    Fid {
        volume: 1,
        key,
        cookie: (key % (1 << 32)) as u32,
    }
}

/// The place of an id's needle.
fn index_of(fid: &Fid) -> Option<usize>
    ensures { result ≡ index_of fid.now }
{
    if 0 < fid.key && *fid == fid_at(fid.key) {
        Some((fid.key - 1) as usize)
    } else {
        None
    }
}

/// The bytes that are held under an id.
pub fn held_in<'a>(needles: &'a [MemNeedle], fid: &Fid) -> Option<&'a [u8]>
    ensures { option_copied result ≡ held_under (needles_in needles.now) fid.now }
{
    let needle = needles.get(index_of(fid)?)?;
    if needle.is_held() {
        Some(needle.as_slice())
    } else {
        None
    }
}

/// Puts a needle of these bytes behind the others, and answers its id.
pub fn keep(alloc: Global, needles: &mut Vec<MemNeedle>, bytes: &[u8]) -> Result<Fid, AllocError>
    ensures ok { IfOk result (λ fid. Puts fid bytes.now (Some (needles_in needles.old.items)) (Some (needles_in needles.new.items))) }
    ensures err { OnErr result (needles.new.items ≡ needles.old.items) }
    ensures added { IfOk result (λ fid. (fid ≡ fid_at (length needles.new.items)) × (needles.new.items ≡ needles.old.items ++ record { bytes = bytes.now; is_held = true } ∷ [])) }
{
    let bytes = Bytes::new(alloc, bytes)?;
    needles.push(MemNeedle::new(bytes))?;
    Ok(fid_at(needles.len() as u64))
}

/// Lets go of the needle of an id, and tells whether it was held. Takes no memory.
pub fn let_go(needles: &mut [MemNeedle], fid: &Fid) -> bool
    ensures held { IsTrue result ↔ IsSome (held_under (needles_in needles.old) fid.now) }
    ensures after { needles_in needles.new ≡ without_needle fid.now (needles_in needles.old) }
{
    let Some(index) = index_of(fid) else {
        return false;
    };
    if needles.len() <= index {
        return false;
    }
    let was_held = needles[index].is_held();
    needles[index].let_go();
    was_held
}
