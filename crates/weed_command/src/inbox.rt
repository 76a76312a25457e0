ghost use Rattle.std.specs.Prelude.{◌≡◌, ◌+◌, ◌-◌, ◌<◌, ◌≤◌, List, ℕ, [], ◌++◌, length, take, drop, IfOk, IfSome, IfNone, MatchResult};
ghost use Rattle.weed_base.specs.Told.{Reads, Consumes, IsAtEnd, HasCause};
ghost use Rattle.weed_command.specs.Span.{part_at};
ghost use Rattle.weed_command.specs.HeadEnd.{HasNoEndBelow, IsHeadLength};
ghost use Rattle.weed_command.specs.Inbox.{left_of, LacksHead, FindsHead, TakesHead, Adds};

use crate::request::{MAX_HEAD, read_request};
use memchr::memmem;
use std::alloc::{AllocError, Global};
use std::marker::Model;
use weed_base::{Failed, Source};

const CAPACITY: usize = 32_768;

const METHOD_LENGTH: usize = "POST ".len();

/// What stands at the front of the bytes left.
#[derive(Clone, Copy, Debug, PartialEq, Eq)]
pub enum Head {
    /// Nothing is left.
    End,
    /// A request.
    Request,
    /// Something else, which is not yet served.
    NotYet,
}

/// A part of the buffer.
#[derive(Clone, Copy, Debug)]
struct Span {
    start: usize,
    end: usize,
}

/// The bytes that a source gave ahead of their use, and the target of the last request among them.
#[derive(Debug, Drop)]
pub struct Inbox {
    buffer: Vec<u8>,
    target: Span,
    pending: Span,
}

impl Model for Inbox {
    ghost use Rattle.std.specs.Prelude.{◌≡◌, ◌≤◌, length};
    ghost use Rattle.weed_command.specs.Span.{part_at};
    ghost use Rattle.weed_command.specs.Inbox.{InboxState};

    ghost Value = { InboxState };

    ghost view = { λ inbox. record { target = part_at inbox.target inbox.buffer.items; pending = part_at inbox.pending inbox.buffer.items } };

    ghost invariant = { λ inbox. (length inbox.buffer.items ≡ 32768)
        × (inbox.target.start ≤ inbox.target.end) × (inbox.target.end ≤ 32768)
        × (inbox.pending.start ≤ inbox.pending.end) × (inbox.pending.end ≤ 32768) };
}

impl Inbox {
    /// An inbox of no bytes.
    pub fn new(alloc: Global) -> Result<Inbox, AllocError>
        ensures { IfOk result (λ inbox. inbox ≡ record { target = []; pending = [] }) }
    {
        let nothing = Span { start: 0, end: 0 };
        Ok(Inbox {
            buffer: vec![in alloc; 0; CAPACITY]?,
            target: nothing,
            pending: nothing,
        })
    }

    /// The target of the request that `next_head` found. Any other find may drop it. Takes no memory.
    pub fn target(&self) -> &[u8]
        ensures { result.now ≡ self.now.target }
    {
        &self.buffer[self.target.start..self.target.end]
    }

    fn pending(&self) -> &[u8]
        ensures { result.now ≡ self.now.pending }
    {
        &self.buffer[self.pending.start..self.pending.end]
    }

    /// Takes so many first bytes, where they are a request.
    fn take_head(&mut self, count: usize) -> Head
        requires { count ≤ length self.old.pending }
        ensures { TakesHead result self.old self.new count }
    {
        let Some(target) = read_request(&self.pending()[..count]) else {
            return Head::NotYet;
        };
        let start = self.pending.start + METHOD_LENGTH;
        let end = start + target.len();
        self.target = Span { start, end };
        self.pending.start += count;
        Head::Request
    }

    /// Reads as many bytes as there is room for, and answers how many, 0 only at the end.
    fn fill<S: Source>(&mut self, from: &mut S) -> Result<usize, Failed>
        requires { LacksHead self.old.pending }
        ensures bytes { MatchResult result
            (λ count. Adds self.old.pending self.new.pending (S.left from.old) (S.left from.new) count)
            (λ _. (self.new.pending ≡ self.old.pending) × (S.left from.new ≡ S.left from.old)) }
        ensures cause { HasCause (S.faults from.old) (S.faults from.new) result }
    {
        read_more(from, &mut self.buffer, &mut self.pending)
    }
}

/// Finds what stands at the front of the bytes left, those of the inbox before those of the source, and
/// reads as far as it takes to tell, so it waits for no byte behind a request. A request is taken from them,
/// and `Inbox::target` gives its target. After any other answer, and after a failed read, all bytes are still
/// there. Takes no memory.
pub fn next_head<S: Source>(from: &mut S, inbox: &mut Inbox) -> Result<Head, Failed>
    ensures head { MatchResult result
        (λ head. FindsHead head (left_of inbox.old.pending (S.left from.old)) (left_of inbox.new.pending (S.left from.new)) inbox.new.target)
        (λ _. left_of inbox.new.pending (S.left from.new) ≡ left_of inbox.old.pending (S.left from.old)) }
    ensures cause { HasCause (S.faults from.old) (S.faults from.new) result }
{
    let mut searched = 0;
    loop {
        if let Some(count) = head_length(inbox.pending(), searched) {
            return Ok(inbox.take_head(count));
        }
        let count = inbox.pending().len();
        if count >= MAX_HEAD {
            return Ok(Head::NotYet);
        }
        searched = count.saturating_sub(2);
        if inbox.fill(from)? == 0 {
            return Ok(if count == 0 { Head::End } else { Head::NotYet });
        }
    }
}

/// Reads behind the part, and adds to it what was read.
fn read_more<S: Source>(from: &mut S, buffer: &mut [u8], part: &mut Span) -> Result<usize, Failed>
    requires buffer { length buffer.old ≡ 32768 }
    requires ordered { part.old.start ≤ part.old.end }
    requires within { part.old.end ≤ 32768 }
    requires lacks { LacksHead (part_at part.old buffer.old) }
    ensures bytes { MatchResult result
        (λ count. Adds (part_at part.old buffer.old) (part_at part.new buffer.new) (S.left from.old) (S.left from.new) count)
        (λ _. (part_at part.new buffer.new ≡ part_at part.old buffer.old) × (S.left from.new ≡ S.left from.old)) }
    ensures ordered { part.new.start ≤ part.new.end }
    ensures within { part.new.end ≤ 32768 }
    ensures cause { HasCause (S.faults from.old) (S.faults from.new) result }
{
    *part = make_room(buffer, *part);
    let count = read_behind(from, buffer, part.end)?;
    part.end += count;
    Ok(count)
}

/// Moves the part to the front of the buffer, where it stands at its end or is empty.
fn make_room(buffer: &mut [u8], part: Span) -> Span
    requires buffer { length buffer.old ≡ 32768 }
    requires ordered { part.start ≤ part.end }
    requires within { part.end ≤ 32768 }
    requires short { part.end - part.start < 32768 }
    ensures part { part_at result buffer.new ≡ part_at part buffer.old }
    ensures ordered { result.start ≤ result.end }
    ensures room { result.end < 32768 }
{
    if part.start < part.end && part.end < CAPACITY {
        return part;
    }
    buffer.copy_within(part.start..part.end, 0);
    Span {
        start: 0,
        end: part.end - part.start,
    }
}

/// Reads into the room behind `end`.
fn read_behind<S: Source>(from: &mut S, buffer: &mut [u8], end: usize) -> Result<usize, Failed>
    requires { end ≤ length buffer.old }
    ensures bytes { Reads (S.left from.old) (S.left from.new) result (drop end buffer.new) }
    ensures front { take end buffer.new ≡ take end buffer.old }
    ensures cause { HasCause (S.faults from.old) (S.faults from.new) result }
{
    from.read(&mut buffer[end..])
}

/// How many bytes stand up to the end of the first empty line, where none ends a line below `searched`.
fn head_length(bytes: &[u8], searched: usize) -> Option<usize>
    requires within { searched ≤ length bytes.now }
    requires searched { HasNoEndBelow bytes.now searched }
    ensures found { IfSome result (λ count. IsHeadLength bytes.now count) }
    ensures none { IfNone result (HasNoEndBelow bytes.now (length bytes.now)) }
{
    let at = memmem::find(&bytes[searched..], b"\n\r\n")?;
    Some(searched + at + 3)
}
