ghost use Rattle.std.specs.Prelude.{◌≡◌, ◌≤◌, ◌<◌, ◌↔◌, ◌+◌, ◌-◌, ◌^◌, ◌⊎◌, List, ℕ, Bool, IsTrue, false, Option, Some, IfSome, IfOk, OnOk, IsErr, IsErrOf, MatchResult, length, take, drop, min};
ghost use Rattle.std.specs.Option.{option_map};
ghost use Rattle.std.specs.FinMap.{get, keys};
ghost use Rattle.weed_base.specs.Told.{HasCause, HasWriteCause, IsCauseOf};
ghost use Rattle.weed_base.specs.Files.{Files, IsWithin, IsThere, written, cut_to, made, removed, renamed, content, MayWrite, BothTold, Changes, ReadsAt, MayBeNamed};
ghost use Rattle.weed_base.specs.Images.{NoMore, Only, Follows, Tears, Atomically, where_there, Elapses};
ghost use Rattle.weed_base.specs.Sent.{Piece, Sends};
ghost use Rattle.weed_base.specs.declared.disk.NamesFault.TheVariants.{Memory};

use crate::bytes::Word;
use crate::file_name::FileName;
use crate::items::Items;
use crate::source::Failed;
use std::alloc::{AllocError, AllocFailed, Global};
use thiserror::Error;

/// Why a disk gave no names.
#[derive(Clone, Copy, Debug, PartialEq, Eq, Error)]
pub enum NamesFault {
    #[error("a call of the disk failed")]
    Failed,
    #[error("out of memory")]
    Memory,
}

impl From<AllocError> for NamesFault {
    ghost from_gives = { λ _ fault. fault ≡ Memory };

    fn from(_: AllocError) -> Self {
        NamesFault::Memory
    }
}

impl<T: Drop> From<AllocFailed<T>> for NamesFault {
    ghost from_gives = { λ _ fault. fault ≡ Memory };

    fn from(_: AllocFailed<T>) -> Self {
        NamesFault::Memory
    }
}

/// Whether bytes at a place end below 2^63, as all of a file must.
pub(crate) fn ends_in_file(at: u64, count: usize) -> bool
    ensures { IsTrue result ↔ (at + count < 2 ^ 63) }
{
    at < 1 << 63 && (count as u64) < (1 << 63) - at
}

/// A set of named files.
pub trait Disk {
    /// The disk has only files whose names begin with `marks.`.
    const MARKS_ONLY: bool;

    ghost MARKS_ONLY: { Bool };

    /// What reads give, where told.
    ghost files: { Self → Option Files };

    /// How many calls failed.
    ghost faults: { Self → ℕ };

    /// How many calls were made.
    ghost tick: { Self → ℕ };

    /// What a crash now may leave.
    ghost images: { Self → Files → Type 0 };

    /// What a crash at some moment from that tick on might have left.
    ghost image_since: { Self → ℕ → Files → Type 0 };

    /// What stands beside the disk.
    ghost Beside: { Type 0 };

    /// What stands beside it now. No call of the disk changes it.
    ghost beside: { Self → Beside };

    /// The number of calls so far. It is no call itself. At 2^64 - 1 each call fails.
    fn tick(&self) -> u64
        ensures { result ≡ tick self.now };

    /// Turns to the directory at that place, which the real form makes where it isn't there. Memory forms
    /// keep their files.
    fn attach(&mut self, place: &Word) -> Result<(), Failed>
        ensures files { files self.new ≡ files self.old }
        ensures images { NoMore (images self.old) (images self.new) }
        ensures time { Elapses (tick self.old) (tick self.new) (image_since self.old) (image_since self.new) (images self.new) }
        ensures cause { HasCause (faults self.old) (faults self.new) result }
        ensures beside { beside self.new ≡ beside self.old }
        ensures spent { tick self.old ≡ 2 ^ 64 - 1 → IsErr result };

    /// All names, in byte order.
    fn names(&mut self, alloc: Global) -> Result<Items<FileName>, NamesFault>
        ensures names { IfOk result (λ names. IfSome (files self.old) (λ told. names ≡ keys told)) }
        ensures files { files self.new ≡ files self.old }
        ensures images { NoMore (images self.old) (images self.new) }
        ensures time { Elapses (tick self.old) (tick self.new) (image_since self.old) (image_since self.new) (images self.new) }
        ensures cause { IsCauseOf (faults self.old) (faults self.new) (IsErrOf result NamesFault.Failed) }
        ensures beside { beside self.new ≡ beside self.old }
        ensures spent { tick self.old ≡ 2 ^ 64 - 1 → IsErr result };

    /// The length of a file in bytes; `None` exactly where it isn't there.
    fn size(&mut self, name: &FileName) -> Result<Option<u64>, Failed>
        ensures size { IfOk result (λ size. IfSome (files self.old) (λ told. size ≡ option_map length (get told name.now))) }
        ensures files { files self.new ≡ files self.old }
        ensures images { NoMore (images self.old) (images self.new) }
        ensures time { Elapses (tick self.old) (tick self.new) (image_since self.old) (image_since self.new) (images self.new) }
        ensures cause { HasCause (faults self.old) (faults self.new) result }
        ensures beside { beside self.new ≡ beside self.old }
        ensures spent { tick self.old ≡ 2 ^ 64 - 1 → IsErr result };

    /// Puts the file's bytes from `at` on into the front of `room`, as many as there are and fit, and
    /// answers how many; none where the file isn't there.
    fn read_at(&mut self, name: &FileName, at: u64, room: &mut [u8]) -> Result<usize, Failed>
        ensures bound { IfOk result (λ count. count ≤ length room.new) }
        ensures bytes { IfOk result (λ count. IfSome (files self.old) (λ told. ReadsAt (content told name.now) at count room.new)) }
        ensures files { files self.new ≡ files self.old }
        ensures images { NoMore (images self.old) (images self.new) }
        ensures time { Elapses (tick self.old) (tick self.new) (image_since self.old) (image_since self.new) (images self.new) }
        ensures cause { HasCause (faults self.old) (faults self.new) result }
        ensures beside { beside self.new ≡ beside self.old }
        ensures spent { tick self.old ≡ 2 ^ 64 - 1 → IsErr result };

    /// Writes the piece over what is there, and past the end. A write whose end would pass 2^63 - 1 fails.
    /// After a failure its range may hold anything.
    fn write_at(&mut self, name: &FileName, at: u64, piece: &[u8]) -> Result<(), Failed>
        requires { IfSome (files self.old) (IsWithin name.now at) }
        ensures files { MatchResult result
            (λ _. files self.new ≡ option_map (written name.now at piece.now) (files self.old))
            (λ _. BothTold (MayWrite name.now at piece.now) (files self.old) (files self.new)) }
        ensures bound { OnOk result (at + length piece.now < 2 ^ 63) }
        ensures images { Follows (Tears name.now at (length piece.now)) (images self.old) (images self.new) }
        ensures time { Elapses (tick self.old) (tick self.new) (image_since self.old) (image_since self.new) (images self.new) }
        ensures cause { HasCause (faults self.old) (faults self.new) result }
        ensures beside { beside self.new ≡ beside self.old }
        ensures spent { tick self.old ≡ 2 ^ 64 - 1 → IsErr result };

    /// Cuts a file to a length. After a failure it reads as before or as after.
    fn cut(&mut self, name: &FileName, to: u64) -> Result<(), Failed>
        requires { IfSome (files self.old) (IsWithin name.now to) }
        ensures files { Changes (cut_to name.now to) (files self.old) (files self.new) result }
        ensures images { Follows (Atomically (where_there name.now (cut_to name.now to))) (images self.old) (images self.new) }
        ensures time { Elapses (tick self.old) (tick self.new) (image_since self.old) (image_since self.new) (images self.new) }
        ensures cause { HasCause (faults self.old) (faults self.new) result }
        ensures beside { beside self.new ≡ beside self.old }
        ensures spent { tick self.old ≡ 2 ^ 64 - 1 → IsErr result };

    /// Makes the file, there and empty. After a failure it reads as before or as after.
    fn make(&mut self, name: &FileName) -> Result<(), Failed>
        requires { MayBeNamed MARKS_ONLY name.now }
        ensures files { Changes (made name.now) (files self.old) (files self.new) result }
        ensures images { Follows (Atomically (made name.now)) (images self.old) (images self.new) }
        ensures time { Elapses (tick self.old) (tick self.new) (image_since self.old) (image_since self.new) (images self.new) }
        ensures cause { HasCause (faults self.old) (faults self.new) result }
        ensures beside { beside self.new ≡ beside self.old }
        ensures spent { tick self.old ≡ 2 ^ 64 - 1 → IsErr result };

    /// Removes the file, where it is there. After a failure it reads as before or as after.
    fn remove(&mut self, name: &FileName) -> Result<(), Failed>
        ensures files { Changes (removed name.now) (files self.old) (files self.new) result }
        ensures images { Follows (Atomically (removed name.now)) (images self.old) (images self.new) }
        ensures time { Elapses (tick self.old) (tick self.new) (image_since self.old) (image_since self.new) (images self.new) }
        ensures cause { HasCause (faults self.old) (faults self.new) result }
        ensures beside { beside self.new ≡ beside self.old }
        ensures spent { tick self.old ≡ 2 ^ 64 - 1 → IsErr result };

    /// Renames a file, which takes the place of what had the new name. After a failure both names read as
    /// before or as after.
    fn rename(&mut self, from: &FileName, to: &FileName) -> Result<(), Failed>
        requires there { IfSome (files self.old) (IsThere from.now) }
        requires named { MayBeNamed MARKS_ONLY to.now }
        ensures files { Changes (renamed from.now to.now) (files self.old) (files self.new) result }
        ensures images { Follows (Atomically (where_there from.now (renamed from.now to.now))) (images self.old) (images self.new) }
        ensures time { Elapses (tick self.old) (tick self.new) (image_since self.old) (image_since self.new) (images self.new) }
        ensures cause { HasCause (faults self.old) (faults self.new) result }
        ensures beside { beside self.new ≡ beside self.old }
        ensures spent { tick self.old ≡ 2 ^ 64 - 1 → IsErr result };

    /// Settles all files and names.
    fn sync(&mut self) -> Result<(), Failed>
        ensures files { files self.new ≡ files self.old }
        ensures images { NoMore (images self.old) (images self.new) }
        ensures settled { OnOk result (Only (files self.old) (images self.new)) }
        ensures time { Elapses (tick self.old) (tick self.new) (image_since self.old) (image_since self.new) (images self.new) }
        ensures cause { HasCause (faults self.old) (faults self.new) result }
        ensures beside { beside self.new ≡ beside self.old }
        ensures spent { tick self.old ≡ 2 ^ 64 - 1 → IsErr result };

    /// This moment is one of those since an earlier one.
    ghost counts_now: { (disk : Self) (moment : ℕ) (image : Files) → moment ≤ tick disk → images disk image → image_since disk moment image };

    /// Since this moment there is no other.
    ghost only_now: { (disk : Self) (image : Files) → image_since disk (tick disk) image → images disk image };

    /// What reads give may be left.
    ghost reads_now: { (disk : Self) (read : Files) → files disk ≡ Some read → images disk read };

    /// Where it holds marks alone, no other name is ever there.
    ghost marks_only: { (disk : Self) (read : Files) (name : List ℕ) → files disk ≡ Some read → IsThere name read → MayBeNamed MARKS_ONLY name };
}

/// A disk with a way out: what a command answers goes through it, so that a disk can tell what was on it
/// when a piece went out.
pub trait Host: Disk {
    /// The pieces sent, where told.
    ghost sent: { Self → Option (List Piece) };

    /// How many sends failed.
    ghost send_faults: { Self → ℕ };

    /// What stands apart from the sends.
    ghost Apart: { Type 0 };

    /// What stands apart from them now. No send changes it.
    ghost apart: { Self → Apart };

    /// Sends first bytes of the piece, and answers how many, as a sink does.
    fn send(&mut self, piece: &[u8]) -> Result<usize, Failed>
        ensures pieces { Sends (Self.tick self.old) (sent self.old) (sent self.new) result piece.now }
        ensures cause { HasWriteCause (send_faults self.old) (send_faults self.new) result piece.now }
        ensures apart { apart self.new ≡ apart self.old };

    /// A call of the disk leaves what was sent.
    ghost calls_keep_sent: { (one two : Self) (was : Option (List Piece)) → Self.beside two ≡ Self.beside one → sent one ≡ was → sent two ≡ was };

    /// And the count of failed sends.
    ghost calls_keep_send_faults: { (one two : Self) (was : ℕ) → Self.beside two ≡ Self.beside one → send_faults one ≡ was → send_faults two ≡ was };

    /// A send leaves what reads give.
    ghost sends_keep_files: { (one two : Self) (was : Option Files) → apart two ≡ apart one → Self.files one ≡ was → Self.files two ≡ was };

    /// And the count of the disk's faults.
    ghost sends_keep_faults: { (one two : Self) (was : ℕ) → apart two ≡ apart one → Self.faults one ≡ was → Self.faults two ≡ was };

    /// And the tick.
    ghost sends_keep_tick: { (one two : Self) (was : ℕ) → apart two ≡ apart one → Self.tick one ≡ was → Self.tick two ≡ was };

    /// And the images.
    ghost sends_keep_images: { (one two : Self) (image : Files) → apart two ≡ apart one → Self.images two image → Self.images one image };

    /// And those since a moment.
    ghost sends_keep_since: { (one two : Self) (moment : ℕ) (image : Files) → apart two ≡ apart one → Self.image_since two moment image → Self.image_since one moment image };

    /// A host has files of any name.
    ghost whole: { Self.MARKS_ONLY ≡ false };
}
