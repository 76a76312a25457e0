ghost use Rattle.std.specs.Prelude.{◌≡◌, [], Some, length, min, IsTrue, IsErr, IfOk, ⊤};
ghost use Rattle.weed_base.specs.Told.{HasWriteCause, Writes};
ghost use Rattle.weed_base.specs.Calls.{uncalled, fails_next, IsNextCall};

use crate::course::Course;
use crate::mem::calls::Calls;
use crate::sink::Sink;
use crate::source::Failed;
use std::alloc::Global;
use std::marker::Model;

/// A sink in memory, which keeps what was written. A write that lacks memory fails.
#[derive(Debug, Drop)]
pub struct MemSink {
    bytes: Vec<u8>,
    most: usize,
    calls: Calls,
}

impl Model for MemSink {
    ghost use Rattle.weed_base.specs.MemForms.{SinkState};

    ghost Value = { SinkState };

    ghost view = { λ sink. record { written = sink.bytes.items; most = sink.most; calls = sink.calls } };
}

impl MemSink {
    /// A sink that takes each piece whole. The writes with these numbers fail.
    pub fn new(alloc: Global, failing: Vec<u64>) -> MemSink
        ensures { result ≡ record { written = []; most = usize.MAX; calls = uncalled failing.items } }
    {
        MemSink {
            bytes: Vec::new(alloc),
            most: usize::MAX,
            calls: Calls::new(failing),
        }
    }

    /// The same sink, which takes so many bytes a write at most. With 0 it takes nothing, and each write of
    /// a piece that isn't empty counts as a fault.
    pub fn with_most(self, most: usize) -> MemSink
        ensures { result ≡ record self { most = most } }
    {
        let MemSink { bytes, calls, .. } = self;
        MemSink { bytes, most, calls }
    }

    /// The bytes written.
    pub fn written(&self) -> &[u8]
        ensures { result.now ≡ self.now.written }
    {
        self.bytes.as_slice()
    }

    /// How many writes failed.
    pub fn faults(&self) -> u64
        ensures { result ≡ self.now.calls.faults }
    {
        self.calls.faults()
    }
}

impl Course for MemSink {
    ghost course = { λ _ _. ⊤ };
}

impl Sink for MemSink {
    ghost written = { λ sink. Some sink.written };

    ghost faults = { λ sink. sink.calls.faults };

    ghost Beside = { Unit {0} };

    ghost beside = { λ _. tt };

    fn write(&mut self, piece: &[u8]) -> Result<usize, Failed>
        ensures bytes { Writes (Some self.old.written) (Some self.new.written) result piece.now }
        ensures cause { HasWriteCause self.old.calls.faults self.new.calls.faults result piece.now }
        ensures count { IfOk result (λ count. count ≡ min (length piece.now) self.old.most) }
        ensures fails { IsTrue (fails_next self.old.calls) → IsErr result }
        ensures calls { IsNextCall self.old.calls self.new.calls }
        ensures most { self.new.most ≡ self.old.most }
    {
        self.calls.begin()?;
        let count = piece.len().min(self.most);
        if self.bytes.extend_from_slice(&piece[..count]).is_err() {
            return Err(self.calls.fail());
        }
        if count == 0 && !piece.is_empty() {
            self.calls.fail();
        }
        Ok(count)
    }
}
