ghost use Rattle.std.specs.Prelude.{◌≡◌, ◌<◌, ◌↔◌, ◌^◌, ◌-◌, min, Some, length, IsTrue, IsErr, IfOk, ⊤};
ghost use Rattle.weed_base.specs.Told.{Reads, HasCause};
ghost use Rattle.weed_base.specs.Calls.{uncalled, fails_next, called};

use crate::course::Course;
use crate::mem::calls::Calls;
use crate::mem::room::fill_front;
use crate::source::{Failed, Source};
use std::marker::Model;

/// A source in memory.
#[derive(Debug, Drop)]
pub struct MemSource {
    bytes: Vec<u8>,
    at: usize,
    most: usize,
    calls: Calls,
}

impl Model for MemSource {
    ghost use Rattle.std.specs.Prelude.{drop, length, ◌≤◌, ◌<◌};
    ghost use Rattle.weed_base.specs.MemForms.{SourceState};

    ghost Value = { SourceState };

    ghost view = { λ source. record { left = drop source.at source.bytes.items; most = source.most; calls = source.calls } };

    ghost invariant = { λ source. (source.at ≤ length source.bytes.items) × (0 < source.most) };
}

impl MemSource {
    /// A source that gives these bytes, as many a read as fit. The reads with these numbers fail.
    pub fn new(bytes: Vec<u8>, failing: Vec<u64>) -> MemSource
        ensures { result ≡ record { left = bytes.items; most = usize.MAX; calls = uncalled failing.items } }
    {
        MemSource {
            bytes,
            at: 0,
            most: usize::MAX,
            calls: Calls::new(failing),
        }
    }

    /// The same source, which gives so many bytes a read at most.
    pub fn with_most(self, most: usize) -> MemSource
        requires { 0 < most }
        ensures { result ≡ record self { most = most } }
    {
        let MemSource {
            bytes,
            at,
            calls,
            ..
        } = self;
        MemSource {
            bytes,
            at,
            most,
            calls,
        }
    }

    /// The bytes left.
    pub fn left(&self) -> &[u8]
        ensures { result.now ≡ self.now.left }
    {
        &self.bytes[self.at..]
    }

    /// How many reads failed.
    pub fn faults(&self) -> u64
        ensures { result ≡ self.now.calls.faults }
    {
        self.calls.faults()
    }
}

impl Course for MemSource {
    ghost course = { λ _ _. ⊤ };
}

impl Source for MemSource {
    ghost left = { λ source. Some source.left };

    ghost faults = { λ source. source.calls.faults };

    ghost Beside = { Unit {0} };

    ghost beside = { λ _. tt };

    fn read(&mut self, room: &mut [u8]) -> Result<usize, Failed>
        ensures bytes { Reads (Some self.old.left) (Some self.new.left) result room.new }
        ensures cause { HasCause self.old.calls.faults self.new.calls.faults result }
        ensures count { IfOk result (λ count. count ≡ min (min (length self.old.left) (length room.old)) self.old.most) }
        ensures fails { IsErr result ↔ IsTrue (fails_next self.old.calls) }
        ensures calls { self.new.calls ≡ called self.old.calls }
        ensures most { self.new.most ≡ self.old.most }
    {
        self.calls.begin()?;
        let left = &self.bytes[self.at..];
        let count = fill_front(&left[..left.len().min(self.most)], room);
        self.at += count;
        Ok(count)
    }
}
