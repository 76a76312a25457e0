ghost use Rattle.std.specs.Prelude.{◌≡◌, ◌≢◌, ◌↔◌, ◌≤◌, ◌+◌, ◌⊎◌, List, ℕ, length, Ok, Err, Some, IfOk, IfErr, IfSome, IsErrOf, MatchResult};
ghost use Rattle.weed_base.specs.Told.{Rose, IsCauseOf};
ghost use Rattle.weed_base.specs.Sent.{bytes_sent};
ghost use Rattle.weed_base.specs.Files.{Files, BothTold};
ghost use Rattle.weed_base.specs.Images.{LeavesOnly, OnlyReads};
ghost use Rattle.name_core.specs.declared.change.Record.{Record};
ghost use Rattle.meta_log.specs.Images.{HasLogOf, ImagesHoldRecords, IsMadeFrom, IsOwn};
ghost use Rattle.meta_log.specs.Kept.{TellsRecordLog, IsRecordDamage, IsRecordLog};
ghost use Rattle.meta_log.specs.LogText.{IsBlamable};
ghost use Rattle.meta_log.specs.Making.{LeavesOthers};
ghost use Rattle.meta_log.specs.declared.stem.Stem.TheVariants.{Log};
ghost use Rattle.weed_command.specs.Growth.{GrowsByRecords};
ghost use Rattle.weed_command.specs.Words.{order_of};
ghost use Rattle.weed_command.specs.Causes.{IsCauseBeside};
ghost use Rattle.weed_command.specs.Crash.{Survives};
ghost use Rattle.weed_command.specs.Filer.{HoldsFiler};
ghost use Rattle.weed_command.specs.Session.{State, Stands, Turns, most_turns};
ghost use Rattle.weed_command.specs.Tells.{IsSessionEnd};
ghost use Rattle.weed_command.specs.Run.{Starts, Begins, EndsRun, EndsUnread, IsEarly, IfDamagedExit, IsDoneOrShort, exit_of_fault};

use crate::exit::Exit;
use crate::inbox::Inbox;
use crate::plain_filer::PlainFiler;
use crate::ready::ReadyAnswers;
use crate::session::{Session, run};
use crate::words::{Order, read_words};
use crate::world::World;
use meta_log::LogFault;
use std::alloc::{AllocError, Global};
use weed_base::{Clock, Failed, Host, Source, Word};

impl From<AllocError> for Exit {
    ghost use Rattle.weed_command.specs.declared.exit.Exit.TheVariants.{Memory};

    ghost from_gives = { λ _ exit. exit ≡ Memory };

    fn from(_: AllocError) -> Self {
        Exit::Memory
    }
}

impl From<Failed> for Exit {
    ghost use Rattle.weed_command.specs.declared.exit.Exit.TheVariants.{DiskFault};

    ghost from_gives = { λ _ exit. exit ≡ DiskFault };

    fn from(_: Failed) -> Self {
        Exit::DiskFault
    }
}

impl From<LogFault> for Exit {
    ghost from_gives = { λ fault exit. exit ≡ exit_of_fault fault };

    fn from(fault: LogFault) -> Self {
        match fault {
            LogFault::DiskFault => Exit::DiskFault,
            LogFault::Damaged { file, at } => Exit::Damaged { file, at },
            LogFault::Memory => Exit::Memory,
        }
    }
}

/// Does what the words ask for, over the world that it is handed, and hands the world back.
///
/// `filer.once` answers the requests of the source over the log in the host's directory, in order and each
/// over what the ones before it left: an answer goes out once its record is settled on the disk, and before the
/// next request is read.
pub fn weed<S: Source, H: Host, C: Clock>(
    alloc: Global,
    words: &[Word],
    world: World<S, H, C>,
) -> (Exit, World<S, H, C>)
    ensures answers { (dir : List ℕ) (first : State) → order_of words.now ≡ Ok dir
        → Starts (S.left world.source) (bytes_sent (H.sent world.host)) (H.files world.host) (C.moments world.clock) first
        → (path : List State) × (last : State)
        × Stands (S.left result.1.source) (bytes_sent (H.sent result.1.host)) (H.files result.1.host) (C.moments result.1.clock) last
        × EndsRun (Rose (H.send_faults world.host) (H.send_faults result.1.host)) (result.1.source ≡ world.source) result.0 first path last (λ of_run.
        IsOwn (H.images world.host) → Survives H.tick H.images H.image_since H.sent world.host result.1.host result.0 first path last of_run) }

    // Where nothing of the outside failed, the log is one, and fewer than 2^40 requests are answered without
    // closing, the run is done, or memory was wanting.
    ensures complete { (dir : List ℕ) (first : State) → order_of words.now ≡ Ok dir
        → Starts (S.left world.source) (bytes_sent (H.sent world.host)) (H.files world.host) (C.moments world.clock) first
        → ¬ Rose (H.faults world.host) (H.faults result.1.host) → ¬ Rose (S.faults world.source) (S.faults result.1.source)
        → ¬ Rose (H.send_faults world.host) (H.send_faults result.1.host) → ((path : List State) → Turns first path → length path ≢ most_turns)
        → IsDoneOrShort result.0 }

    // Over files that are no log the run ends before it reads or sends anything, and leaves them as they are.
    ensures unreadable { (dir : List ℕ) (files : Files) → order_of words.now ≡ Ok dir → H.files world.host ≡ Some files
        → ((records : List Record) → ¬ IsRecordLog files records)
        → EndsUnread result.0 (H.sent world.host) (H.sent result.1.host) world.source result.1.source world.clock result.1.clock
        × (H.files result.1.host ≡ H.files world.host) }

    // Memory that was wanting and damage end a run before its session, whatever the outside tells.
    ensures unserved { (dir : List ℕ) → order_of words.now ≡ Ok dir → ¬ IsSessionEnd result.0
        → EndsUnread result.0 (H.sent world.host) (H.sent result.1.host) world.source result.1.source world.clock result.1.clock }
    ensures words { (place : ℕ) → (result.0 ≡ Exit.BadWords place) ↔ (order_of words.now ≡ Err place) }
    ensures untouched { (place : ℕ) → order_of words.now ≡ Err place → result.1 ≡ world }
    ensures damaged { IfDamagedExit
        (λ file at. IfSome (H.files world.host) (λ files. IsRecordDamage files file at) × (H.files result.1.host ≡ H.files world.host)) result.0 }
    ensures own { (files : Files) → H.files world.host ≡ Some files → IsOwn (H.images world.host) → IfDamagedExit (λ _ _. ⊥) result.0 }
    ensures blamed { IfDamagedExit (λ file _. IsBlamable Log file) result.0 }
    ensures disk { IsCauseOf (H.faults world.host) (H.faults result.1.host) (result.0 ≡ Exit.DiskFault) }
    ensures read { IsCauseOf (S.faults world.source) (S.faults result.1.source) (result.0 ≡ Exit.ReadFault) }
    ensures write { IsCauseBeside (H.send_faults world.host) (H.send_faults result.1.host) (result.0 ≡ Exit.WriteFault) (result.0 ≡ Exit.DiskFault) }

    // The log grows by texts of records, each as it is written, and no other file is touched.
    ensures grows { BothTold GrowsByRecords (H.files world.host) (H.files result.1.host) }
{
    let mut world = world;
    match read_words(words) {
        Ok(Order::FilerOnce { dir }) => {
            let exit = filer_once(alloc, dir, &mut world);
            (exit, world)
        }
        Err(bad) => (Exit::BadWords { place: bad.place }, world),
    }
}

/// Answers the requests of the source over the log in a directory.
fn filer_once<S: Source, H: Host, C: Clock>(
    alloc: Global,
    dir: &[u8],
    world: &mut World<S, H, C>,
) -> Exit
    ensures answers { (first : State)
        → Starts (S.left world.old.source) (bytes_sent (H.sent world.old.host)) (H.files world.old.host) (C.moments world.old.clock) first
        → (path : List State) × (last : State)
        × Stands (S.left world.new.source) (bytes_sent (H.sent world.new.host)) (H.files world.new.host) (C.moments world.new.clock) last
        × EndsRun (Rose (H.send_faults world.old.host) (H.send_faults world.new.host)) (world.new.source ≡ world.old.source) result first path last (λ of_run.
        IsOwn (H.images world.old.host) → Survives H.tick H.images H.image_since H.sent world.old.host world.new.host result first path last of_run) }
    ensures unreadable { (files : Files) → H.files world.old.host ≡ Some files → ((records : List Record) → ¬ IsRecordLog files records)
        → EndsUnread result (H.sent world.old.host) (H.sent world.new.host) world.old.source world.new.source world.old.clock world.new.clock
        × (H.files world.new.host ≡ H.files world.old.host) }
    ensures unserved { ¬ IsSessionEnd result → EndsUnread result (H.sent world.old.host) (H.sent world.new.host) world.old.source world.new.source world.old.clock world.new.clock }
    ensures good_words { (place : ℕ) → result ≡ Exit.BadWords place → ⊥ }
    ensures damaged { IfDamagedExit
        (λ file at. IfSome (H.files world.old.host) (λ files. IsRecordDamage files file at) × (H.files world.new.host ≡ H.files world.old.host)) result }
    ensures own { (files : Files) → H.files world.old.host ≡ Some files → IsOwn (H.images world.old.host) → IfDamagedExit (λ _ _. ⊥) result }
    ensures blamed { IfDamagedExit (λ file _. IsBlamable Log file) result }
    ensures disk { IsCauseOf (H.faults world.old.host) (H.faults world.new.host) (result ≡ Exit.DiskFault) }
    ensures read { IsCauseOf (S.faults world.old.source) (S.faults world.new.source) (result ≡ Exit.ReadFault) }
    ensures write { IsCauseBeside (H.send_faults world.old.host) (H.send_faults world.new.host) (result ≡ Exit.WriteFault) (result ≡ Exit.DiskFault) }
    ensures grows { BothTold GrowsByRecords (H.files world.old.host) (H.files world.new.host) }
{
    match begin(alloc, dir, &mut world.host) {
        Ok(mut session) => run(alloc, &mut session, world),
        Err(exit) => exit,
    }
}

/// Turns the host to a directory and opens the log there.
fn begin<H: Host>(alloc: Global, dir: &[u8], host: &mut H) -> Result<Session, Exit>
    ensures began { IfOk result (λ session. Begins (H.files host.old) (H.files host.new) session) }
    ensures held { IfOk result (λ session. (records : List Record) × HoldsFiler (H.files host.new) session.filer records) }
    ensures early { IfErr result IsEarly }
    ensures damaged { IfErr result (IfDamagedExit
        (λ file at. IfSome (H.files host.old) (λ files. IsRecordDamage files file at) × (H.files host.new ≡ H.files host.old))) }
    ensures kept { (records : List Record) → TellsRecordLog (H.files host.old) records → TellsRecordLog (H.files host.new) records }
    ensures made { BothTold (IsMadeFrom Log) (H.files host.old) (H.files host.new) }
    ensures others { BothTold (LeavesOthers Log) (H.files host.old) (H.files host.new) }
    ensures atomic { (files : Files) → H.files host.old ≡ Some files → LeavesOnly H.tick H.image_since host.old host.new (HasLogOf (H.images host.old)) }
    ensures settled { IfOk result (λ _. (files : Files) (records : List Record) → H.files host.old ≡ Some files
        → IsRecordLog files records → ImagesHoldRecords (H.images host.new) records) }
    ensures own { (files : Files) → H.files host.old ≡ Some files → IsOwn (H.images host.old) → IfErr result (IfDamagedExit (λ _ _. ⊥)) }
    ensures blamed { IfErr result (IfDamagedExit (λ file _. IsBlamable Log file)) }
    ensures cause { IsCauseOf (H.faults host.old) (H.faults host.new) (IsErrOf result Exit.DiskFault) }
    ensures beside { H.beside host.new ≡ H.beside host.old }
{
    let inbox = Inbox::new(alloc)?;
    let ready = ReadyAnswers::make(alloc)?;
    attach(alloc, dir, host)?;
    let filer = PlainFiler::open(alloc, host)?;
    Ok(Session {
        filer,
        inbox,
        ready,
    })
}

/// Turns the host to a directory.
fn attach<H: Host>(alloc: Global, dir: &[u8], host: &mut H) -> Result<(), Exit>
    ensures early { IfErr result IsEarly }
    ensures sound { IfErr result (IfDamagedExit (λ _ _. ⊥)) }
    ensures files { H.files host.new ≡ H.files host.old }
    ensures still { OnlyReads H.tick H.images H.image_since host.old host.new }
    ensures cause { IsCauseOf (H.faults host.old) (H.faults host.new) (IsErrOf result Exit.DiskFault) }
    ensures beside { H.beside host.new ≡ H.beside host.old }
{
    let place = Word::new(alloc, dir)?;
    host.attach(&place)?;
    Ok(())
}
