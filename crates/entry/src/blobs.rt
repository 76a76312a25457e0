ghost use Rattle.std.specs.Prelude.{◌≡◌, ◌≤◌, ◌⊎◌, ℕ, List, Option, Some, None, Ok, Err, IfOk, OnOk, IfSome, IsErrOf, IsTrue, IsSome, MatchResult, length, true, ◌↔◌, IsErr};
ghost use Rattle.std.specs.Option.{option_map};
ghost use Rattle.weed_base.specs.Told.{HasCause};
ghost use Rattle.file_id.specs.declared.fid.Fid.{Fid};
ghost use Rattle.entry.specs.Needles.{Needles, Puts, Counts, held_under, without_needle};

use file_id::Fid;
use std::alloc::{AllocError, Global};
use thiserror::Error;
use weed_base::{Bytes, Failed, Word};

/// Why a needle wasn't put.
#[derive(Clone, Copy, Debug, PartialEq, Eq, Error)]
pub enum PutFault {
    #[error("a call of the blobs failed")]
    Failed,
    #[error("out of memory")]
    Memory,
}

/// Why a needle wasn't deleted.
#[derive(Clone, Copy, Debug, PartialEq, Eq, Error)]
pub enum DeleteFault {
    #[error("a call of the blobs failed")]
    Failed,
    #[error("out of memory")]
    Memory,
}

/// Why a needle wasn't given.
#[derive(Clone, Copy, Debug, PartialEq, Eq, Error)]
pub enum GetFault {
    #[error("a call of the blobs failed")]
    Failed,
    #[error("the needle is not held")]
    NotHeld,
    #[error("out of memory")]
    Memory,
}

/// What keeps needles under file ids.
pub trait Blobs {
    /// What was ever put under each id, and what of it is held, where told.
    ghost needles: { Self → Option Needles };

    /// How many calls failed.
    ghost faults: { Self → ℕ };

    /// How many needles were asked for that aren't held.
    ghost misses: { Self → ℕ };

    /// What stands beside the blobs.
    ghost Beside: { Type 0 };

    /// What stands beside them now. No call changes it.
    ghost beside: { Self → Beside };

    /// Turns to the needles of that place.
    fn attach(&mut self, place: &Word) -> Result<(), Failed>
        ensures needles { needles self.new ≡ needles self.old }
        ensures faults { HasCause (faults self.old) (faults self.new) result }
        ensures misses { misses self.new ≡ misses self.old }
        ensures beside { beside self.new ≡ beside self.old };

    /// Puts these bytes, at most 32 MB, under an id that had none. After an `Err` they may stand under one all the
    /// same, which nobody names.
    fn put(&mut self, alloc: Global, bytes: &[u8]) -> Result<Fid, PutFault>
        requires filled { 1 ≤ length bytes.now }
        requires short { length bytes.now ≤ 33554432 }
        ensures ok { IfOk result (λ fid. Puts fid bytes.now (needles self.old) (needles self.new)) }
        ensures err { IsErr result → (needles self.new ≡ needles self.old) ⊎ ((fid : Fid) × (kept : List ℕ) × Puts fid kept (needles self.old) (needles self.new)) }
        ensures faults { Counts (faults self.old) (faults self.new) (IsErrOf result PutFault.Failed) }
        ensures misses { misses self.new ≡ misses self.old }
        ensures beside { beside self.new ≡ beside self.old };

    /// Fetches the bytes under an id, whatever `into` was before.
    fn get(&mut self, alloc: Global, fid: &Fid, into: &mut Bytes) -> Result<(), GetFault>
        ensures ok { OnOk result (IfSome (needles self.old) (λ kept. held_under kept fid.now ≡ Some into.new)) }
        ensures not_held { IsErrOf result GetFault.NotHeld → IfSome (needles self.old) (λ kept. held_under kept fid.now ≡ None) }
        ensures needles { needles self.new ≡ needles self.old }
        ensures faults { Counts (faults self.old) (faults self.new) (IsErrOf result GetFault.Failed) }
        ensures misses { Counts (misses self.old) (misses self.new) (IsErrOf result GetFault.NotHeld) }
        ensures beside { beside self.new ≡ beside self.old };

    /// Lets go of the bytes under an id, and tells whether they were held. After an `Err` they are held as before, or
    /// no longer.
    fn delete(&mut self, alloc: Global, fid: &Fid) -> Result<bool, DeleteFault>
        ensures held { IfOk result (λ was. IfSome (needles self.old) (λ kept. IsTrue was ↔ IsSome (held_under kept fid.now))) }
        ensures ok { OnOk result (needles self.new ≡ option_map (without_needle fid.now) (needles self.old)) }
        ensures err { (needles self.new ≡ needles self.old) ⊎ (needles self.new ≡ option_map (without_needle fid.now) (needles self.old)) }
        ensures faults { Counts (faults self.old) (faults self.new) (IsErrOf result DeleteFault.Failed) }
        ensures misses { misses self.new ≡ misses self.old }
        ensures beside { beside self.new ≡ beside self.old };
}
