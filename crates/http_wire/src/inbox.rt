ghost use Rattle.std.specs.Prelude.{◌≡◌, ◌-◌, ◌<◌, ◌≤◌, length, take, drop, [], IfOk, MatchResult};
ghost use Rattle.weed_base.specs.Told.{Reads, HasCause};
ghost use Rattle.http_wire.specs.Span.{part_at};
ghost use Rattle.http_wire.specs.Inbox.{Adds};

use http_head::MAX_HEAD;
use std::alloc::{AllocError, Global};
use std::marker::Model;
use weed_base::{Failed, Source};

const CAPACITY: usize = 32_768;

/// A part of the buffer.
#[derive(Clone, Copy, Debug)]
struct Span {
    start: usize,
    end: usize,
}

/// The bytes that a source gave ahead of their use, at most 32,768.
#[derive(Debug, Drop)]
pub struct Inbox {
    buffer: Vec<u8>,
    pending: Span,
}

impl Model for Inbox {
    ghost use Rattle.std.specs.Prelude.{◌≡◌, ◌≤◌, List, ℕ, length};
    ghost use Rattle.std.specs.Coded.{coded_list, coded_ℕ};
    ghost use Rattle.http_wire.specs.Span.{part_at};

    ghost Value = { List ℕ };

    ghost coded = { coded_list coded_ℕ };

    ghost view = { λ inbox. part_at inbox.pending inbox.buffer.items };

    ghost invariant = { λ inbox. (length inbox.buffer.items ≡ 32768)
        × (inbox.pending.start ≤ inbox.pending.end) × (inbox.pending.end ≤ 32768) };
}

impl Inbox {
    /// An inbox of no bytes.
    pub fn new(alloc: Global) -> Result<Inbox, AllocError>
        ensures { IfOk result (λ inbox. inbox ≡ []) }
    {
        Ok(Inbox {
            buffer: vec![in alloc; 0; CAPACITY]?,
            pending: Span { start: 0, end: 0 },
        })
    }

    /// The bytes that it holds. Takes no memory.
    pub fn pending(&self) -> &[u8]
        ensures { result.now ≡ self.now }
    {
        &self.buffer[self.pending.start..self.pending.end]
    }

    /// Its first 16,384 bytes. Takes no memory.
    pub fn window(&self) -> &[u8]
        ensures { result.now ≡ take 16384 self.now }
    {
        let pending = self.pending();
        if pending.len() > MAX_HEAD {
            &pending[..MAX_HEAD]
        } else {
            pending
        }
    }

    /// Drops so many first bytes. Takes no memory.
    pub fn advance(&mut self, count: usize)
        requires { count ≤ length self.old }
        ensures { self.new ≡ drop count self.old }
    {
        self.pending.start += count;
    }

    /// Reads as many bytes as there is room for, and answers how many, 0 only at the end. Takes no memory.
    pub fn fill<S: Source>(&mut self, from: &mut S) -> Result<usize, Failed>
        requires { length self.old < 32768 }
        ensures bytes { MatchResult result
            (λ count. Adds self.old self.new (S.left from.old) (S.left from.new) count)
            (λ _. (self.new ≡ self.old) × (S.left from.new ≡ S.left from.old)) }
        ensures cause { HasCause (S.faults from.old) (S.faults from.new) result }
        ensures beside { S.beside from.new ≡ S.beside from.old }
        ensures course { (start : S) → S.course start from.old → S.course start from.new }
    {
        read_more(from, &mut self.buffer, &mut self.pending)
    }
}

/// Reads behind the part, and adds to it what was read.
fn read_more<S: Source>(from: &mut S, buffer: &mut [u8], part: &mut Span) -> Result<usize, Failed>
    requires buffer { length buffer.old ≡ 32768 }
    requires ordered { part.old.start ≤ part.old.end }
    requires within { part.old.end ≤ 32768 }
    requires room { length (part_at part.old buffer.old) < 32768 }
    ensures bytes { MatchResult result
        (λ count. Adds (part_at part.old buffer.old) (part_at part.new buffer.new) (S.left from.old) (S.left from.new) count)
        (λ _. (part_at part.new buffer.new ≡ part_at part.old buffer.old) × (S.left from.new ≡ S.left from.old)) }
    ensures ordered { part.new.start ≤ part.new.end }
    ensures within { part.new.end ≤ 32768 }
    ensures cause { HasCause (S.faults from.old) (S.faults from.new) result }
    ensures beside { S.beside from.new ≡ S.beside from.old }
    ensures course { (start : S) → S.course start from.old → S.course start from.new }
{
    *part = make_room(buffer, *part);
    let count = read_behind(from, buffer, part.end)?;
    part.end += count;
    Ok(count)
}

/// Moves the part to the front of the buffer, where it stands at its end or is empty.
fn make_room(buffer: &mut [u8], part: Span) -> Span
    requires buffer { length buffer.old ≡ 32768 }
    requires ordered { part.start ≤ part.end }
    requires within { part.end ≤ 32768 }
    requires short { part.end - part.start < 32768 }
    ensures part { part_at result buffer.new ≡ part_at part buffer.old }
    ensures ordered { result.start ≤ result.end }
    ensures room { result.end < 32768 }
{
    if part.start < part.end && part.end < CAPACITY {
        return part;
    }
    buffer.copy_within(part.start..part.end, 0);
    Span {
        start: 0,
        end: part.end - part.start,
    }
}

/// Reads into the room behind `end`.
fn read_behind<S: Source>(from: &mut S, buffer: &mut [u8], end: usize) -> Result<usize, Failed>
    requires { end ≤ length buffer.old }
    ensures bytes { Reads (S.left from.old) (S.left from.new) result (drop end buffer.new) }
    ensures front { take end buffer.new ≡ take end buffer.old }
    ensures cause { HasCause (S.faults from.old) (S.faults from.new) result }
    ensures beside { S.beside from.new ≡ S.beside from.old }
    ensures course { (start : S) → S.course start from.old → S.course start from.new }
{
    from.read(&mut buffer[end..])
}
