ghost use Rattle.std.specs.Prelude.{◌≡◌, ◌+◌, ◌-◌, ◌≤◌, ◌↔◌, [], length, drop, IsTrue, IfOk, IfSome, OnOk};
ghost use Rattle.weed_base.specs.Told.{HasCause};
ghost use Rattle.weed_base.specs.Files.{content};
ghost use Rattle.weed_base.specs.DiskCalls.{Looks};
ghost use Rattle.needle.specs.Fields.{AreBytes};
ghost use Rattle.volume_items.specs.Window.{Stretch, IsOf, Reaches};

use std::alloc::{AllocError, Global};
use std::marker::Model;
use weed_base::{Disk, Failed, FileName};

/// How many bytes are read at once: more than an item has behind its data.
pub const ROOM: usize = 1 << 20;

/// The same bytes, of which a caller's proof then knows that they are some.
fn known(bytes: &[u8]) -> &[u8]
    ensures same { result.now ≡ bytes.now }
    ensures bytes { AreBytes bytes.now }
{
    bytes
}

/// A stretch of a file, which is read in large pieces.
#[derive(Debug, Drop)]
pub struct Window {
    bytes: Vec<u8>,
    at: u64,
    count: usize,
}

impl Model for Window {
    ghost use Rattle.std.specs.Prelude.{◌≡◌, ◌≤◌, length, take};
    ghost use Rattle.volume_items.specs.Window.{Stretch};

    ghost Value = { Stretch };

    ghost view = { λ window. record { at = window.at; held = take window.count window.bytes.items } };

    ghost invariant = { λ window. (window.count ≤ length window.bytes.items) × (length window.bytes.items ≡ 1048576) };
}

impl Window {
    /// One that holds nothing.
    pub fn new(alloc: Global) -> Result<Window, AllocError>
        ensures { IfOk result (λ window. window ≡ record { at = 0; held = [] }) }
    {
        let bytes = vec![in alloc; 0; ROOM]?;
        Ok(Window {
            bytes,
            at: 0,
            count: 0,
        })
    }

    /// Whether so many bytes from a place on are held.
    fn has(&self, at: u64, wanted: usize) -> bool
        ensures { IsTrue result ↔ ((self.now.at ≤ at) × (at + wanted ≤ self.now.at + length self.now.held)) }
    {
        at >= self.at
            && at - self.at <= self.count as u64
            && wanted <= self.count - (at - self.at) as usize
    }

    /// Reads on, unless so many bytes from a place on are held: at most `ROOM`, or as many as there are.
    pub fn fill<D: Disk>(
        &mut self,
        disk: &mut D,
        name: &FileName,
        at: u64,
        wanted: usize,
    ) -> Result<(), Failed>
        requires of { IfSome (D.files disk.old) (λ files. IsOf (content files name.now) self.old) }
        requires short { wanted ≤ 1048576 }
        ensures of { OnOk result (IfSome (D.files disk.old) (λ files. IsOf (content files name.now) self.new)) }
        ensures reaches { OnOk result (IfSome (D.files disk.old) (λ files. Reaches (content files name.now) at wanted self.new)) }
        ensures ahead { OnOk result ((self.new.at ≤ at) × (at ≤ self.new.at + length self.new.held)) }
        ensures looks { Looks D.Disk disk.old disk.new }
        ensures cause { HasCause (D.faults disk.old) (D.faults disk.new) result }
        ensures beside { D.beside disk.new ≡ D.beside disk.old }
    {
        if self.has(at, wanted) {
            return Ok(());
        }
        let count = disk.read_at(name, at, &mut self.bytes)?;
        self.at = at;
        self.count = count;
        Ok(())
    }

    /// What is held from a place on. Takes no memory.
    pub fn behind(&self, at: u64) -> &[u8]
        requires ahead { (self.now.at ≤ at) × (at ≤ self.now.at + length self.now.held) }
        ensures held { result.now ≡ drop (at - self.now.at) self.now.held }
        ensures bytes { AreBytes result.now }
    {
        known(&self.bytes[(at - self.at) as usize..self.count])
    }
}
