ghost use Rattle.std.specs.Prelude.{◌≡◌, ◌+◌, ◌≤◌, ◌<◌, ◌^◌, [], List, length, drop, IfOk, OnOk, IfErr, IsErrOf, IfSome, min};
ghost use Rattle.weed_base.specs.Told.{HasCause, IsCauseOf};
ghost use Rattle.weed_base.specs.Files.{content};
ghost use Rattle.weed_base.specs.DiskCalls.{Looks};
ghost use Rattle.meta_log.specs.Stretch.{Stretch, IsOf, IsFilled, GrowsBy};
ghost use Rattle.meta_log.specs.Faults.{IfDamaged};

use crate::fault::LogFault;
use std::alloc::{AllocError, Global};
use std::marker::Model;
use weed_base::{Disk, Failed, FileName};

/// How many bytes are read at once, at least.
const PIECE: usize = 1 << 20;

/// A file that is read from front to end, in large pieces.
#[derive(Debug, Drop)]
pub struct Reading {
    bytes: Vec<u8>,
    start: usize,
    at: u64,
    size: u64,
}

impl Model for Reading {
    ghost use Rattle.std.specs.Prelude.{◌+◌, ◌-◌, ◌^◌, ◌<◌, ◌≤◌, length, drop};
    ghost use Rattle.meta_log.specs.Stretch.{Stretch};

    ghost Value = { Stretch };

    ghost view = { λ reading. record { at = reading.at; held = drop reading.start reading.bytes.items; size = reading.size } };

    ghost invariant = { λ reading. (reading.start ≤ length reading.bytes.items) × (reading.at + (length reading.bytes.items - reading.start) ≤ reading.size) × (reading.size < 2 ^ 64) };
}

/// Drops bytes at the front.
fn drop_front(bytes: &mut Vec<u8>, count: usize)
    requires { count ≤ length bytes.old.items }
    ensures { bytes.new.items ≡ drop count bytes.old.items }
{
    let left = bytes.len() - count;
    bytes.copy_within(count.., 0);
    bytes.truncate(left);
}

/// Puts the file's bytes from a place on behind these: as many as there are, and at most `room`.
fn extend_from<D: Disk>(
    disk: &mut D,
    name: &FileName,
    at: u64,
    room: usize,
    bytes: &mut Vec<u8>,
) -> Result<(), LogFault>
    requires { length bytes.old.items + room < 2 ^ 63 }
    ensures grows { OnOk result (GrowsBy (D.files disk.old) name.now at room bytes.old.items bytes.new.items) }
    ensures bound { length bytes.new.items ≤ length bytes.old.items + room }
    ensures undamaged { IfErr result (IfDamaged (λ _ _. ⊥)) }
    ensures looks { Looks D.Disk disk.old disk.new }
    ensures cause { IsCauseOf (D.faults disk.old) (D.faults disk.new) (IsErrOf result LogFault.DiskFault) }
    ensures beside { D.beside disk.new ≡ D.beside disk.old }
{
    let end = bytes.len();
    bytes.resize(end + room, 0)?;
    let count = disk.read_at(name, at, &mut bytes[end..])?;
    bytes.truncate(end + count);
    Ok(())
}

impl Reading {
    /// Begins at a place of a file of so many bytes.
    fn new(alloc: Global, at: u64, size: u64) -> Reading
        requires { at ≤ size }
        ensures { result ≡ record { at = at; held = []; size = size } }
    {
        Reading {
            bytes: Vec::new(alloc),
            start: 0,
            at,
            size,
        }
    }

    /// Begins at a place of a file, or at its end.
    pub fn begin<D: Disk>(
        alloc: Global,
        disk: &mut D,
        name: &FileName,
        at: u64,
    ) -> Result<Reading, Failed>
        ensures of { IfOk result (λ reading. IfSome (D.files disk.old) (λ files.
            IsOf (content files name.now) reading × (reading.at ≡ min at (length (content files name.now))))) }
        ensures ahead { IfOk result (λ reading. reading.at ≤ at) }
        ensures looks { Looks D.Disk disk.old disk.new }
        ensures cause { HasCause (D.faults disk.old) (D.faults disk.new) result }
        ensures beside { D.beside disk.new ≡ D.beside disk.old }
    {
        let size = disk.size(name)?.unwrap_or(0);
        Ok(Reading::new(alloc, at.min(size), size))
    }

    /// The place in the file of the first byte that is held.
    pub fn at(&self) -> u64
        ensures bound { self.now.at + length self.now.held ≤ self.now.size }
        ensures at { result ≡ self.now.at }
    {
        self.at
    }

    /// The bytes that were read and not used yet.
    pub fn held(&self) -> &[u8]
        ensures bound { self.now.at + length self.now.held ≤ self.now.size }
        ensures fits { self.now.size < 2 ^ 64 }
        ensures held { result.now ≡ self.now.held }
    {
        &self.bytes[self.start..]
    }

    /// Goes on behind so many bytes.
    pub fn skip(&mut self, count: usize)
        requires { count ≤ length self.old.held }
        ensures { self.new ≡ record { at = self.old.at + count; held = drop count self.old.held; size = self.old.size } }
    {
        self.start += count;
        self.at += count as u64;
    }

    /// Reads on until so many bytes are held, or all that are left.
    pub fn fill<D: Disk>(
        &mut self,
        disk: &mut D,
        name: &FileName,
        wanted: usize,
    ) -> Result<(), LogFault>
        requires of { IfSome (D.files disk.old) (λ files. IsOf (content files name.now) self.old) }
        requires short { wanted ≤ 67108869 }
        ensures filled { OnOk result (IfSome (D.files disk.old) (λ files. IsOf (content files name.now) self.new × IsFilled wanted (content files name.now) self.new)) }
        ensures place { OnOk result ((self.new.at ≡ self.old.at) × (self.new.size ≡ self.old.size)) }
        ensures undamaged { IfErr result (IfDamaged (λ _ _. ⊥)) }
        ensures looks { Looks D.Disk disk.old disk.new }
        ensures cause { IsCauseOf (D.faults disk.old) (D.faults disk.new) (IsErrOf result LogFault.DiskFault) }
        ensures beside { D.beside disk.new ≡ D.beside disk.old }
    {
        let left = (self.size - self.at) as usize;
        let held = self.bytes.len() - self.start;
        let wanted = wanted.min(left);
        if held >= wanted {
            return Ok(());
        }
        drop_front(&mut self.bytes, self.start);
        self.start = 0;
        let room = PIECE.max(wanted).min(left) - held;
        extend_from(disk, name, self.at + held as u64, room, &mut self.bytes)
    }
}
