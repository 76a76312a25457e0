ghost use Rattle.std.specs.Prelude.{◌≡◌, ◌≤◌, ◌⊎◌, ◌↔◌, ◌++◌, ◌∷◌, [], ℕ, List, true, Some, None, IfOk, OnOk, IsErr, IsErrOf, IsTrue, IsSome, length};
ghost use Rattle.weed_base.specs.Told.{HasCause};
ghost use Rattle.weed_base.specs.Calls.{uncalled, fails_next, called};
ghost use Rattle.file_id.specs.declared.fid.Fid.{Fid};
ghost use Rattle.entry.specs.Needles.{Puts, Counts, held_under, without_needle};
ghost use Rattle.mem_blobs.specs.MemBlobs.{fid_at, needles_in};

use crate::calls::Calls;
use crate::needle::MemNeedle;
use crate::table::{held_in, keep, let_go};
use entry::{Blobs, DeleteFault, GetFault, PutFault};
use file_id::Fid;
use std::alloc::Global;
use std::marker::Model;
use weed_base::{Bytes, Failed, Faults, Word};

/// Needles in memory, in volume 1, with keys from 1 on in the order in which they were put. A cookie is the low half of
/// its key.
#[derive(Debug, Drop)]
pub struct MemBlobs {
    needles: Vec<MemNeedle>,
    calls: Calls,
    misses: Faults,
}

impl Model for MemBlobs {
    ghost use Rattle.mem_blobs.specs.MemBlobs.{BlobsState, blobs_code};

    ghost Value = { BlobsState };

    ghost coded = { blobs_code };

    ghost view = { λ blobs. record { needles = blobs.needles.items; calls = blobs.calls; misses = blobs.misses } };
}

impl MemBlobs {
    /// Blobs that hold these needles. The calls with these numbers fail.
    pub fn new(needles: Vec<MemNeedle>, failing: Vec<u64>) -> MemBlobs
        ensures { result ≡ record { needles = needles.items; calls = uncalled failing.items; misses = 0 } }
    {
        MemBlobs {
            needles,
            calls: Calls::new(failing),
            misses: Faults::new(),
        }
    }

    /// How many calls failed.
    pub fn faults(&self) -> u64
        ensures { result ≡ self.now.calls.faults }
    {
        self.calls.faults()
    }

    /// How many needles were asked for that aren't held.
    pub fn misses(&self) -> u64
        ensures { result ≡ self.now.misses }
    {
        self.misses.count()
    }
}

impl Blobs for MemBlobs {
    ghost needles = { λ blobs. Some (needles_in blobs.needles) };

    ghost faults = { λ blobs. blobs.calls.faults };

    ghost misses = { λ blobs. blobs.misses };

    ghost Beside = { Unit {0} };

    ghost beside = { λ _. tt };

    fn attach(&mut self, _place: &Word) -> Result<(), Failed>
        ensures fails { IsErr result ↔ IsTrue (fails_next self.old.calls) }
        ensures after { self.new ≡ record self.old { calls = called self.old.calls } }
        ensures cause { HasCause self.old.calls.faults self.new.calls.faults result }
    {
        self.calls.begin()
    }

    fn put(&mut self, alloc: Global, bytes: &[u8]) -> Result<Fid, PutFault>
        ensures fails { IsTrue (fails_next self.old.calls) ↔ IsErrOf result PutFault.Failed }
        ensures calls { self.new.calls ≡ called self.old.calls }
        ensures ok { IfOk result (λ fid. Puts fid bytes.now (Some (needles_in self.old.needles)) (Some (needles_in self.new.needles))) }
        ensures added { IfOk result (λ fid. (fid ≡ fid_at (length self.new.needles)) × (self.new.needles ≡ self.old.needles ++ record { bytes = bytes.now; is_held = true } ∷ [])) }
        ensures err { IsErr result → self.new.needles ≡ self.old.needles }
        ensures misses { self.new.misses ≡ self.old.misses }
        ensures faults { Counts self.old.calls.faults self.new.calls.faults (IsErrOf result PutFault.Failed) }
    {
        if self.calls.begin().is_err() {
            return Err(PutFault::Failed);
        }
        match keep(alloc, &mut self.needles, bytes) {
            Ok(fid) => Ok(fid),
            Err(_) => Err(PutFault::Memory),
        }
    }

    fn get(&mut self, alloc: Global, fid: &Fid, into: &mut Bytes) -> Result<(), GetFault>
        ensures fails { IsTrue (fails_next self.old.calls) ↔ IsErrOf result GetFault.Failed }
        ensures calls { self.new.calls ≡ called self.old.calls }
        ensures ok { OnOk result (held_under (needles_in self.old.needles) fid.now ≡ Some into.new) }
        ensures not_held { IsErrOf result GetFault.NotHeld → held_under (needles_in self.old.needles) fid.now ≡ None }
        ensures needles { self.new.needles ≡ self.old.needles }
        ensures faults { Counts self.old.calls.faults self.new.calls.faults (IsErrOf result GetFault.Failed) }
        ensures misses { Counts self.old.misses self.new.misses (IsErrOf result GetFault.NotHeld) }
    {
        if self.calls.begin().is_err() {
            return Err(GetFault::Failed);
        }
        match held_in(&self.needles, fid) {
            None => {
                self.misses.raise();
                Err(GetFault::NotHeld)
            }
            Some(bytes) => match Bytes::new(alloc, bytes) {
                Ok(bytes) => {
                    *into = bytes;
                    Ok(())
                }
                Err(_) => Err(GetFault::Memory),
            },
        }
    }

    fn delete(&mut self, _alloc: Global, fid: &Fid) -> Result<bool, DeleteFault>
        ensures fails { IsTrue (fails_next self.old.calls) ↔ IsErrOf result DeleteFault.Failed }
        ensures calls { self.new.calls ≡ called self.old.calls }
        ensures held { IfOk result (λ was. IsTrue was ↔ IsSome (held_under (needles_in self.old.needles) fid.now)) }
        ensures ok { OnOk result (needles_in self.new.needles ≡ without_needle fid.now (needles_in self.old.needles)) }
        ensures err { IsErr result → self.new.needles ≡ self.old.needles }
        ensures misses { self.new.misses ≡ self.old.misses }
        ensures faults { Counts self.old.calls.faults self.new.calls.faults (IsErrOf result DeleteFault.Failed) }
    {
        if self.calls.begin().is_err() {
            return Err(DeleteFault::Failed);
        }
        Ok(let_go(&mut self.needles, fid))
    }
}
