ghost use Rattle.std.specs.Prelude.{◌≡◌, [], ◌∷◌, ◌++◌, Some, length, min, take, MatchResult, IsTrue, IsErr, IfOk, ◌↔◌, ◌≤◌, ⊤};
ghost use Rattle.std.proofs.Common.{rules};
ghost use Rattle.weed_base.specs.Told.{Reads, HasCause, Writes, HasWriteCause};
ghost use Rattle.weed_base.specs.Calls.{uncalled, fails_next, called, IsNextCall};
ghost use Rattle.links.specs.Lines.{Opens};
ghost use Rattle.links.specs.MemLinks.{LinkState, line_of, beside_reads, beside_writes, link_of};

use crate::link::Link;
use crate::mem_calls::MemCalls;
use std::alloc::Global;
use std::collections::VecDeque;
use std::marker::Model;
use weed_base::{Bytes, Course, Failed, MemSink, Sink, Source};

/// A link in memory: each open gives the next text of a list to read, and all that is written is kept. An open
/// that lacks memory fails.
#[derive(Debug, Drop)]
pub struct MemLink {
    current: Option<Bytes>,
    at: usize,
    coming: VecDeque<Bytes>,
    opened: Vec<Bytes>,
    sink: MemSink,
    reads: MemCalls,
    opens: MemCalls,
}

impl Model for MemLink {
    ghost use Rattle.std.specs.Prelude.{drop, length, ◌≤◌};
    ghost use Rattle.links.specs.MemLinks.{LinkState, text_of};

    ghost Value = { LinkState };

    ghost view = { λ link. record { left = drop link.at (text_of link.current); coming = link.coming.items; opened = link.opened.items; sink = link.sink; reads = link.reads; opens = link.opens } };

    ghost invariant = { λ link. link.at ≤ length (text_of link.current) };
}

impl MemLink {
    /// A link whose opens give these texts to read, in order, and nothing after them. The reads, writes and opens
    /// with these numbers fail.
    pub fn new(
        alloc: Global,
        coming: Vec<Bytes>,
        failing_reads: Vec<u64>,
        failing_writes: Vec<u64>,
        failing_opens: Vec<u64>,
    ) -> MemLink
        ensures { result ≡ link_of coming.items failing_reads.items failing_writes.items failing_opens.items }
    {
        MemLink {
            current: None,
            at: 0,
            coming: VecDeque::from(coming),
            opened: Vec::new(alloc),
            sink: MemSink::new(alloc, failing_writes),
            reads: MemCalls::new(failing_reads),
            opens: MemCalls::new(failing_opens),
        }
    }

    /// The addresses opened, in order.
    pub fn opened(&self) -> &[Bytes]
        ensures { result.now ≡ self.now.opened }
    {
        self.opened.as_slice()
    }

    /// The bytes written, over all connections.
    pub fn written(&self) -> &[u8]
        ensures { result.now ≡ self.now.sink.written }
    {
        self.sink.written()
    }

    /// Keeps an address behind those opened, or counts a fault where memory is lacking.
    fn keep_address(&mut self, address: &[u8]) -> Result<(), Failed>
        ensures opened { MatchResult result (λ _. self.new.opened ≡ self.old.opened ++ address.now ∷ []) (λ _. self.new.opened ≡ self.old.opened) }
        ensures cause { HasCause self.old.opens.faults self.new.opens.faults result }
        ensures rest { self.new ≡ record self.old { opened = self.new.opened; opens = record self.old.opens { faults = self.new.opens.faults } } }
    {
        let alloc = *self.opened.allocator();
        let Ok(kept) = Bytes::new(alloc, address) else {
            return Err(self.opens.fail());
        };
        if self.opened.push(kept).is_err() {
            return Err(self.opens.fail());
        }
        Ok(())
    }
}

impl Course for MemLink {
    ghost course = { λ _ _. ⊤ };
}

impl Source for MemLink {
    ghost left = { λ link. Some link.left };

    ghost faults = { λ link. link.reads.faults };

    ghost Beside = { LinkState };

    ghost beside = { λ link. beside_reads link };

    fn read(&mut self, room: &mut [u8]) -> Result<usize, Failed>
        ensures bytes { Reads (Some self.old.left) (Some self.new.left) result room.new }
        ensures cause { HasCause self.old.reads.faults self.new.reads.faults result }
        ensures count { IfOk result (λ count. count ≡ min (length self.old.left) (length room.old)) }
        ensures fails { IsErr result ↔ IsTrue (fails_next self.old.reads) }
        ensures calls { self.new.reads ≡ called self.old.reads }
        ensures beside { beside_reads self.new ≡ beside_reads self.old }
    {
        self.reads.begin()?;
        let Some(text) = &self.current else {
            return Ok(0);
        };
        let count = fill_front(&text.as_slice()[self.at..], room);
        self.at += count;
        Ok(count)
    }
}

impl Sink for MemLink {
    ghost written = { λ link. Some link.sink.written };

    ghost faults = { λ link. link.sink.calls.faults };

    ghost Beside = { LinkState };

    ghost beside = { λ link. beside_writes link };

    fn write(&mut self, piece: &[u8]) -> Result<usize, Failed>
        ensures bytes { Writes (Some self.old.sink.written) (Some self.new.sink.written) result piece.now }
        ensures cause { HasWriteCause self.old.sink.calls.faults self.new.sink.calls.faults result piece.now }
        ensures count { IfOk result (λ count. count ≡ min (length piece.now) self.old.sink.most) }
        ensures fails { IsTrue (fails_next self.old.sink.calls) → IsErr result }
        ensures calls { IsNextCall self.old.sink.calls self.new.sink.calls }
        ensures most { self.new.sink.most ≡ self.old.sink.most }
        ensures beside { beside_writes self.new ≡ beside_writes self.old }
    {
        self.sink.write(piece)
    }
}

impl Link for MemLink {
    ghost line = { λ link. line_of link };

    ghost reads_leave_written = { Prim.search rules };

    ghost reads_leave_writes = { Prim.search rules };

    ghost reads_leave_line = { Prim.search rules };

    ghost writes_leave_left = { Prim.search rules };

    ghost writes_leave_reads = { Prim.search rules };

    ghost writes_leave_line = { Prim.search rules };

    fn open(&mut self, address: &[u8]) -> Result<(), Failed>
        ensures opens { Opens (line_of self.old) (line_of self.new) (Some self.old.left) (Some self.new.left) address.now result }
        ensures sink { self.new.sink ≡ self.old.sink }
        ensures reads { self.new.reads ≡ self.old.reads }
        ensures fails { IsTrue (fails_next self.old.opens) → IsErr result }
        ensures calls { IsNextCall self.old.opens self.new.opens }
    {
        self.opens.begin()?;
        self.keep_address(address)?;
        self.current = self.coming.pop_front();
        self.at = 0;
        Ok(())
    }

    fn close(&mut self) {
        self.current = None;
        self.at = 0;
    }
}

/// Copies first bytes to the front of the room, as many as there are and fit, and answers how many.
fn fill_front(bytes: &[u8], room: &mut [u8]) -> usize
    ensures count { result ≡ min (length room.new) (length bytes.now) }
    ensures bytes { take result room.new ≡ take result bytes.now }
{
    let count = bytes.len().min(room.len());
    room[..count].copy_from_slice(&bytes[..count]);
    count
}
