ghost use Rattle.std.specs.Prelude.{◌≡◌, ◌≤◌, ◌+◌, true, false, string_bytes, List, ℕ, Some, IfOk, IsErrOf};
ghost use Rattle.weed_base.specs.Files.{BothTold, Files};
ghost use Rattle.weed_base.specs.Told.{IsCauseOf};
ghost use Rattle.name_core.specs.declared.change.Record.{Record};
ghost use Rattle.weed_command.specs.Growth.{GrowsByRecords};
ghost use Rattle.weed_command.specs.Reply.{path_text, bad_path, refusal_text};
ghost use Rattle.name_core.specs.RecordText.{name_of};
ghost use Rattle.weed_command.specs.Answer.{created_text, refused_text};
ghost use Rattle.weed_command.specs.Filer.{IsFiled, HoldsFiler};
ghost use Rattle.weed_command.specs.Replied.{Gives, GivesFor, RepliesFault};
ghost use Rattle.weed_command.specs.Settling.{Settling, Tearing};
ghost use Rattle.weed_command.specs.declared.answer.Status.TheVariants.{Conflict};

use crate::answer::{Status, created, refused};
use crate::plain_filer::{MakeFault, PlainFiler};
use name_core::Refusal;
use std::alloc::{AllocError, Global};
use thiserror::Error;
use weed_base::{Bytes, Clock, Disk, Path, PathFault};

/// An answer that is ready to be sent.
#[derive(Debug, Drop)]
pub struct Reply {
    pub answer: Bytes,
    pub closes: bool,
}

/// Why there is no answer by the request alone.
#[derive(Clone, Copy, Debug, PartialEq, Eq, Error)]
pub enum ReplyFault {
    #[error("a call of the disk failed")]
    DiskFault,
    #[error("out of memory")]
    Memory,
}

impl From<AllocError> for ReplyFault {
    ghost use Rattle.weed_command.specs.declared.reply.ReplyFault.TheVariants.{Memory};

    ghost from_gives = { λ _ fault. fault ≡ Memory };

    fn from(_: AllocError) -> Self {
        ReplyFault::Memory
    }
}

/// The path that a target names.
fn path_of_target(target: &[u8]) -> &[u8]
    ensures { result.now ≡ path_text target.now }
{
    match target {
        [_] | [] => target,
        [path @ .., _] => path,
    }
}

/// 400 with the fault, which closes.
fn bad_path_reply(alloc: Global, fault: PathFault) -> Result<Reply, AllocError>
    ensures answer { IfOk result (λ reply. reply.answer ≡ (bad_path fault).answer) }
    ensures closes { IfOk result (λ reply. reply.closes ≡ true) }
{
    Ok(Reply {
        answer: refused(alloc, Status::BadRequest, fault.name(), true)?,
        closes: true,
    })
}

/// What a fault of a target's path is answered.
fn fault_reply(alloc: Global, fault: PathFault) -> Result<Reply, ReplyFault>
    ensures { RepliesFault fault result }
{
    match fault {
        PathFault::Memory => Err(ReplyFault::Memory),
        _ => Ok(bad_path_reply(alloc, fault)?),
    }
}

/// 409 with the refusal, and the path that it names.
fn refusal_reply(alloc: Global, refusal: &Refusal) -> Result<Reply, AllocError>
    ensures answer { IfOk result (λ reply. reply.answer ≡ refused_text Conflict (refusal_text refusal.now) false) }
    ensures closes { IfOk result (λ reply. reply.closes ≡ false) }
{
    let text = refusal_line(alloc, refusal)?;
    Ok(Reply {
        answer: refused(alloc, Status::Conflict, text.as_str(), false)?,
        closes: false,
    })
}

fn refusal_line(alloc: Global, refusal: &Refusal) -> Result<String, AllocError>
    ensures { IfOk result (λ text. string_bytes text ≡ refusal_text refusal.now) }
{
    match refusal {
        Refusal::IsFile(path) => format!(in alloc; "IsFile {}", path.as_str()),
        _ => String::from_str(alloc, refusal.name()),
    }
}

/// 201 with the name of a directory that is there.
fn created_reply(alloc: Global, path: &Path) -> Result<Reply, AllocError>
    ensures answer { IfOk result (λ reply. reply.answer ≡ created_text (name_of path.now)) }
    ensures closes { IfOk result (λ reply. reply.closes ≡ false) }
{
    Ok(Reply {
        answer: created(alloc, path.name_str().unwrap_or(""))?,
        closes: false,
    })
}

/// What a request for a target is answered, with its record in the log. All the memory that it takes is
/// taken before the record is appended.
pub fn reply_to_target<D: Disk, C: Clock>(
    alloc: Global,
    filer: &mut PlainFiler,
    disk: &mut D,
    clock: &mut C,
    target: &[u8],
) -> Result<Reply, ReplyFault>
    requires { (records : List Record) × HoldsFiler (D.files disk.old) filer.old records }
    ensures gives { (files : Files) (moments : List ℕ) (records : List Record) → D.files disk.old ≡ Some files → C.moments clock.old ≡ Some moments
        → IsFiled files filer.old records
        → Gives records moments target.now
        (Settling D.tick D.images D.image_since disk.old disk.new records) (Tearing D.tick D.images D.image_since disk.old disk.new records)
        (D.files disk.new) (C.moments clock.new) filer.new result }
    ensures held { ¬ (IsErrOf result ReplyFault.DiskFault) → (records : List Record) × HoldsFiler (D.files disk.new) filer.new records }
    ensures cause { IsCauseOf (D.faults disk.old) (D.faults disk.new) (IsErrOf result ReplyFault.DiskFault) }
    ensures grows { BothTold GrowsByRecords (D.files disk.old) (D.files disk.new) }
    ensures beside { D.beside disk.new ≡ D.beside disk.old }
    ensures calls { D.tick disk.new ≤ D.tick disk.old + 4 }
    ensures uncalled { IsErrOf result ReplyFault.Memory → D.tick disk.new ≡ D.tick disk.old }
{
    match Path::read(alloc, path_of_target(target)) {
        Ok(path) => reply_to_path(alloc, filer, disk, clock, path),
        Err(fault) => fault_reply(alloc, fault),
    }
}

/// What a request for a path is answered, with its record in the log.
fn reply_to_path<D: Disk, C: Clock>(
    alloc: Global,
    filer: &mut PlainFiler,
    disk: &mut D,
    clock: &mut C,
    path: Path,
) -> Result<Reply, ReplyFault>
    requires { (records : List Record) × HoldsFiler (D.files disk.old) filer.old records }
    ensures gives { (files : Files) (moments : List ℕ) (records : List Record) → D.files disk.old ≡ Some files → C.moments clock.old ≡ Some moments
        → IsFiled files filer.old records
        → GivesFor path records moments
        (Settling D.tick D.images D.image_since disk.old disk.new records) (Tearing D.tick D.images D.image_since disk.old disk.new records)
        (D.files disk.new) (C.moments clock.new) filer.new result }
    ensures held { ¬ (IsErrOf result ReplyFault.DiskFault) → (records : List Record) × HoldsFiler (D.files disk.new) filer.new records }
    ensures cause { IsCauseOf (D.faults disk.old) (D.faults disk.new) (IsErrOf result ReplyFault.DiskFault) }
    ensures grows { BothTold GrowsByRecords (D.files disk.old) (D.files disk.new) }
    ensures beside { D.beside disk.new ≡ D.beside disk.old }
    ensures calls { D.tick disk.new ≤ D.tick disk.old + 4 }
    ensures uncalled { IsErrOf result ReplyFault.Memory → D.tick disk.new ≡ D.tick disk.old }
{
    let made = created_reply(alloc, &path)?;
    let moment = clock.now();
    match filer.make_dir(alloc, disk, path, moment) {
        Ok(()) => Ok(made),
        Err(MakeFault::Refused(refusal)) => Ok(refusal_reply(alloc, &refusal)?),
        Err(MakeFault::DiskFault) => Err(ReplyFault::DiskFault),
        Err(MakeFault::Memory) => Err(ReplyFault::Memory),
    }
}
