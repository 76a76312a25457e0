ghost use Rattle.std.specs.Prelude.{◌≡◌, ◌≤◌, ◌+◌, List, ℕ};
ghost use Rattle.weed_base.specs.Told.{Rose, IsCauseOf};
ghost use Rattle.weed_base.specs.Files.{BothTold};
ghost use Rattle.weed_base.specs.Images.{StandsStill};
ghost use Rattle.weed_base.specs.Sent.{bytes_sent};
ghost use Rattle.name_core.specs.declared.change.Record.{Record};
ghost use Rattle.meta_log.specs.Images.{ImagesHoldRecords};
ghost use Rattle.weed_command.specs.Growth.{GrowsByRecords};
ghost use Rattle.weed_command.specs.Causes.{IsCauseBeside};
ghost use Rattle.weed_command.specs.Crash.{Withstands};
ghost use Rattle.weed_command.specs.Filer.{HoldsFiler};
ghost use Rattle.weed_command.specs.Handed.{SendsAt};
ghost use Rattle.weed_command.specs.Session.{State, Stands};
ghost use Rattle.weed_command.specs.Settling.{Settling, Tearing};
ghost use Rattle.weed_command.specs.Tells.{Sends, Tells, Asking, Leads, Ends, IsTurnEnd, IsSessionEnd};

use crate::exit::Exit;
use crate::inbox::{Head, Inbox, next_head};
use crate::plain_filer::PlainFiler;
use crate::ready::ReadyAnswers;
use crate::reply::{ReplyFault, reply_to_target};
use crate::world::World;
use crate::write::{WriteFault, send_all};
use std::alloc::Global;
use weed_base::{Clock, Failed, Host, Source};

/// How many requests a session answers at most.
const MOST_TURNS: u64 = 1 << 40;

/// What a turn led to.
#[derive(Debug, Drop)]
pub enum Turned {
    /// The session goes on.
    Open,
    /// It has ended.
    Ended(Exit),
}

/// Sends an answer, after which the session goes on unless it closes.
fn send_answer<H: Host>(host: &mut H, answer: &[u8], closes: bool) -> Turned
    ensures sends { Sends answer.now closes (bytes_sent (H.sent host.old)) (bytes_sent (H.sent host.new)) result }
    ensures pieces { SendsAt (H.tick host.new) (H.sent host.old) (H.sent host.new) }
    ensures still { StandsStill (H.tick host.old) (H.tick host.new) (H.image_since host.old) (H.image_since host.new) (H.images host.old) (H.images host.new) }
    ensures cause { IsCauseOf (H.send_faults host.old) (H.send_faults host.new) (result ≡ Turned.Ended Exit.WriteFault) }
    ensures files { H.files host.new ≡ H.files host.old }
    ensures faults { H.faults host.new ≡ H.faults host.old }
    ensures kind { IsTurnEnd result }
{
    match send_all(host, answer) {
        Ok(()) if closes => Turned::Ended(Exit::Done),
        Ok(()) => Turned::Open,
        Err(WriteFault) => Turned::Ended(Exit::WriteFault),
    }
}

/// What a session keeps beside its world.
#[derive(Debug, Drop)]
pub struct Session {
    pub filer: PlainFiler,
    pub inbox: Inbox,
    pub ready: ReadyAnswers,
}

/// Answers the requests of the input, each over the log that the ones before it left.
pub fn run<S: Source, H: Host, C: Clock>(
    alloc: Global,
    session: &mut Session,
    world: &mut World<S, H, C>,
) -> Exit
    requires { (records : List Record) × HoldsFiler (H.files world.old.host) session.old.filer records }
    ensures ends { (first : State)
        → Tells (S.left world.old.source) (bytes_sent (H.sent world.old.host)) (H.files world.old.host) (C.moments world.old.clock) session.old first
        → (path : List State) × (last : State)
        × Stands (S.left world.new.source) (bytes_sent (H.sent world.new.host)) (H.files world.new.host) (C.moments world.new.clock) last
        × Ends (Rose (H.send_faults world.old.host) (H.send_faults world.new.host)) result first path last
        × (ImagesHoldRecords (H.images world.old.host) first.log
        → Withstands H.tick H.images H.image_since H.sent world.old.host world.new.host result first path last) }
    ensures disk { IsCauseOf (H.faults world.old.host) (H.faults world.new.host) (result ≡ Exit.DiskFault) }
    ensures read { IsCauseOf (S.faults world.old.source) (S.faults world.new.source) (result ≡ Exit.ReadFault) }
    ensures write { IsCauseBeside (H.send_faults world.old.host) (H.send_faults world.new.host) (result ≡ Exit.WriteFault) (result ≡ Exit.DiskFault) }
    ensures grows { BothTold GrowsByRecords (H.files world.old.host) (H.files world.new.host) }
    ensures kind { IsSessionEnd result }
{
    for _turn in 0..MOST_TURNS {
        match turn(alloc, session, world) {
            Turned::Open => {}
            Turned::Ended(exit) => return exit,
        }
    }
    Exit::TurnsSpent
}

/// Answers what stands in front of the input.
fn turn<S: Source, H: Host, C: Clock>(
    alloc: Global,
    session: &mut Session,
    world: &mut World<S, H, C>,
) -> Turned
    requires { (records : List Record) × HoldsFiler (H.files world.old.host) session.old.filer records }
    ensures leads { (old : State)
        → Tells (S.left world.old.source) (bytes_sent (H.sent world.old.host)) (H.files world.old.host) (C.moments world.old.clock) session.old old
        → Leads (Rose (H.send_faults world.old.host) (H.send_faults world.new.host)) old
        (Settling H.tick H.images H.image_since world.old.host world.new.host old.log)
        (Tearing H.tick H.images H.image_since world.old.host world.new.host old.log)
        (S.left world.new.source) (bytes_sent (H.sent world.new.host)) (H.files world.new.host) (C.moments world.new.clock) session.new result }
    ensures pieces { SendsAt (H.tick world.new.host) (H.sent world.old.host) (H.sent world.new.host) }
    ensures held { result ≡ Turned.Open → (records : List Record) × HoldsFiler (H.files world.new.host) session.new.filer records }
    ensures disk { IsCauseOf (H.faults world.old.host) (H.faults world.new.host) (result ≡ Turned.Ended Exit.DiskFault) }
    ensures read { IsCauseOf (S.faults world.old.source) (S.faults world.new.source) (result ≡ Turned.Ended Exit.ReadFault) }
    ensures write { IsCauseBeside (H.send_faults world.old.host) (H.send_faults world.new.host)
        (result ≡ Turned.Ended Exit.WriteFault) (result ≡ Turned.Ended Exit.DiskFault) }
    ensures grows { BothTold GrowsByRecords (H.files world.old.host) (H.files world.new.host) }
    ensures calls { H.tick world.new.host ≤ H.tick world.old.host + 4 }
    ensures kind { IsTurnEnd result }
{
    match next_head(&mut world.source, &mut session.inbox) {
        Ok(Head::Request) => answer_request(alloc, session, world),
        Ok(Head::NotYet) => send_answer(&mut world.host, session.ready.not_yet.as_slice(), true),
        Ok(Head::End) => Turned::Ended(Exit::Done),
        Err(Failed) => Turned::Ended(Exit::ReadFault),
    }
}

/// Answers the request whose target the inbox has.
fn answer_request<S: Source, H: Host, C: Clock>(
    alloc: Global,
    session: &mut Session,
    world: &mut World<S, H, C>,
) -> Turned
    requires { (records : List Record) × HoldsFiler (H.files world.old.host) session.old.filer records }
    ensures leads { (old : State) (rest : List ℕ)
        → Asking old rest (S.left world.old.source) (bytes_sent (H.sent world.old.host)) (H.files world.old.host) (C.moments world.old.clock) session.old
        → Leads (Rose (H.send_faults world.old.host) (H.send_faults world.new.host)) old
        (Settling H.tick H.images H.image_since world.old.host world.new.host old.log)
        (Tearing H.tick H.images H.image_since world.old.host world.new.host old.log)
        (S.left world.new.source) (bytes_sent (H.sent world.new.host)) (H.files world.new.host) (C.moments world.new.clock) session.new result }
    ensures pieces { SendsAt (H.tick world.new.host) (H.sent world.old.host) (H.sent world.new.host) }
    ensures held { result ≡ Turned.Open → (records : List Record) × HoldsFiler (H.files world.new.host) session.new.filer records }
    ensures disk { IsCauseOf (H.faults world.old.host) (H.faults world.new.host) (result ≡ Turned.Ended Exit.DiskFault) }
    ensures read { result ≡ Turned.Ended Exit.ReadFault → ⊥ }
    ensures write { IsCauseBeside (H.send_faults world.old.host) (H.send_faults world.new.host)
        (result ≡ Turned.Ended Exit.WriteFault) (result ≡ Turned.Ended Exit.DiskFault) }
    ensures source { world.new.source ≡ world.old.source }
    ensures grows { BothTold GrowsByRecords (H.files world.old.host) (H.files world.new.host) }
    ensures calls { H.tick world.new.host ≤ H.tick world.old.host + 4 }
    ensures kind { IsTurnEnd result }
{
    let target = session.inbox.target();
    match reply_to_target(
        alloc,
        &mut session.filer,
        &mut world.host,
        &mut world.clock,
        target,
    ) {
        Ok(reply) => send_answer(&mut world.host, reply.answer.as_slice(), reply.closes),
        Err(ReplyFault::Memory) => send_answer(
            &mut world.host,
            session.ready.memory.as_slice(),
            false,
        ),
        Err(ReplyFault::DiskFault) => {
            let _ = send_all(&mut world.host, session.ready.disk_fault.as_slice());
            Turned::Ended(Exit::DiskFault)
        }
    }
}
