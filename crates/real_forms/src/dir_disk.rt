ghost use Rattle.std.specs.Prelude.{◌≡◌, ◌≤◌, ◌<◌, ◌+◌, ◌-◌, ◌^◌, ◌⊎◌, ◌↔◌, length, None, true, false, IsErr, IsErrOf, IfOk, IfSome, OnOk, OnErr, IsSomeAnd, MatchOption, string_bytes, refl, ⊤};
ghost use Rattle.std.proofs.lemmas.Bool.{false≢true};
ghost use Rattle.std.proofs.lemmas.Option.{none-some};
ghost use Rattle.weed_base.specs.Told.{raised, HasCause, IsCauseOf};
ghost use Rattle.weed_base.specs.Files.{ReadsAt};
ghost use Rattle.real_forms.specs.System.{Write, CutTo, CallFile, Missed, RemoveFile, RenameFile, ActsOnly, IsSettling, SettlingFailed, IsOpening};
ghost use Rattle.real_forms.specs.Awaiting.{Awaiting, SettlesInTurn};
ghost use Rattle.real_forms.specs.Folder.{OfFile, OfFileOrMissed, IsCallOf, IsNaming, IsMaking, SettlesMakesSettles, IsListing, IsOpenedFolder, IsSameFolder, KeepsFolder, MarksNoMore, HasMade, HasRemoved, HasRenamed, NamesMayHaveChanged, SettlesFiles, IsSettledWhole, path_of};
ghost use Rattle.real_forms.specs.declared.folder.Folder.{Folder};
ghost use Rattle.real_forms.specs.RealForms.{IsBrokenOff, IsCalled, Ticks, StaysBroken, StaysAttached, BreaksOffUnless, ActsOnceAttached, BothAttached, BothOrNone};
ghost use Rattle.real_forms.specs.declared.kept.Awaits.TheVariants.{Data, Everything};

use crate::folder::Folder;
use crate::system::{System, SystemFile};
use std::alloc::{AllocGlobal, Global};
use std::fs::File;
use std::io;
use weed_base::{Disk, Failed, Faults, FileName, Items, NamesFault, WholeDisk, Word};

/// How many calls were made, and how many of them failed.
#[derive(Drop)]
struct Counts {
    made: u64,
    faults: Faults,
}

impl Counts {
    /// Begins a call, and counts the fault where the numbers are used up.
    fn begin(&mut self) -> Result<(), Failed>
        ensures made { self.new.made ≡ raised self.old.made }
        ensures later { self.old.made ≤ self.new.made }
        ensures cause { HasCause self.old.faults self.new.faults result }
        ensures spent { IsErr result ↔ (self.old.made ≡ 2 ^ 64 - 1) }
    {
        if self.made == u64::MAX {
            return Err(self.faults.raise());
        }
        self.made += 1;
        Ok(())
    }
}

/// A disk over a directory of the system. Contracts see how many calls were made, how many failed, and which calls of
/// the system answered.
///
/// Each other call fails before an attach, and each call after an attach that failed, or a sync of what was
/// attached: the system may have dropped what was written. A call that lacks memory counts a fault, but for a listing.
#[derive(Drop)]
pub struct DirDisk<R, F = File> {
    system: R,
    folder: Option<Folder<F>>,
    broken: bool,
    counts: Counts,
}

impl<F: SystemFile + Drop, R: System<File = F> + AllocGlobal + Drop> DirDisk<R, F> {
    /// A disk that is attached to no directory yet.
    pub fn new(system: R) -> DirDisk<R, F>
        ensures { result ≡ record { system = system; folder = None; broken = false; counts = record { made = 0; faults = 0 } } }
    {
        DirDisk {
            system,
            folder: None,
            broken: false,
            counts: Counts {
                made: 0,
                faults: Faults::new(),
            },
        }
    }

    /// How many calls failed.
    pub fn faults(&self) -> u64
        ensures { result ≡ self.now.counts.faults }
    {
        self.counts.faults.count()
    }

    /// Lets the directory go, and takes no other.
    fn break_off(&mut self)
        ensures broken { IsBrokenOff self.new }
        ensures rest { (self.new.counts ≡ self.old.counts) × (self.new.system ≡ self.old.system) }
    {
        self.folder = None;
        self.broken = true;
    }

    /// Settles the directory that is attached.
    fn settle(&mut self) -> io::Result<()>
        ensures settled { OnOk result (BothOrNone (λ before after. SettlesFiles R.file_answered before after × IsSettledWhole after) self.old self.new) }
        ensures rest { (self.new.counts ≡ self.old.counts) }
        ensures done { OnOk result (ActsOnly R.one_done IsSettling self.old.system self.new.system) }
        ensures acts { ActsOnly R.one_act IsSettling self.old.system self.new.system }
    {
        match &mut self.folder {
            Some(folder) => folder.sync(&mut self.system),
            None => Ok(()),
        }
    }

    /// Settles the directory that is attached, and opens another.
    fn open(&mut self, place: &[u8]) -> io::Result<Folder<F>>
        ensures broken { IsBrokenOff self.old → IsErr result }
        ensures opened { IfOk result (IsOpenedFolder R.answered R.file_answered place.now) }
        ensures made { OnOk result (SettlesMakesSettles R.one_done R.answered R.file_answered place.now self.old.system self.new.system) }
        ensures left { OnOk result (BothOrNone (λ before after. SettlesFiles R.file_answered before after × IsSettledWhole after) self.old self.new) }
        ensures rest { (self.new.counts ≡ self.old.counts) }
        ensures acts { ActsOnly R.one_act (IsOpening place.now) self.old.system self.new.system }
        ensures none { IsBrokenOff self.old → self.new.system ≡ self.old.system }
    {
        if self.broken {
            return Err(io::ErrorKind::NotConnected.into());
        }
        self.settle()?;
        Folder::open(&mut self.system, place)
    }
}

impl<F: SystemFile + Drop, R: System<File = F> + AllocGlobal + Drop> Disk for DirDisk<R, F> {
    const MARKS_ONLY: bool = false;

    ghost MARKS_ONLY = { false };

    ghost files = { λ _. None };

    ghost faults = { λ disk. disk.counts.faults };

    ghost tick = { λ disk. disk.counts.made };

    ghost images = { λ _ _. ⊥ };

    ghost image_since = { λ _ _ _. ⊥ };

    ghost Beside = { Unit {0} };

    ghost beside = { λ _. tt };

    ghost counts_now = { λ disk moment image le now. now };

    ghost only_now = { λ disk image now. now };

    ghost reads_now = { λ disk read told. absurd (none-some read told) };

    ghost marks_only = { λ disk read name told there marks. absurd (false≢true marks) };

    fn tick(&self) -> u64 {
        self.counts.made
    }

    fn attach(&mut self, place: &Word) -> Result<(), Failed>
        ensures time { Ticks self.old self.new }
        ensures spent { self.old.counts.made ≡ 2 ^ 64 - 1 → IsErr result }
        ensures breaks { StaysBroken self.old self.new result }
        ensures cause { HasCause self.old.counts.faults self.new.counts.faults result }
        ensures settled { OnOk result (IfSome self.old.folder (λ before. (after : Folder F) × (SettlesFiles R.file_answered before after × IsSettledWhole after))) }
        ensures opened { OnOk result (IsSomeAnd self.new.folder (IsOpenedFolder R.answered R.file_answered place.now)) }
        ensures made { OnOk result (SettlesMakesSettles R.one_done R.answered R.file_answered place.now self.old.system self.new.system) }
        ensures whole { OnOk result (self.new.broken ≡ self.old.broken) }
        ensures broken { OnErr result (BreaksOffUnless (self.old.counts.made ≡ 2 ^ 64 - 1) self.old self.new) }
        ensures acts { ActsOnly R.one_act (IsOpening place.now) self.old.system self.new.system }
    {
        self.counts.begin()?;
        match self.open(place.as_slice()) {
            Ok(folder) => {
                self.folder = Some(folder);
                Ok(())
            }
            Err(_) => {
                self.break_off();
                Err(self.counts.faults.raise())
            }
        }
    }

    fn names(&mut self, alloc: Global) -> Result<Items<FileName>, NamesFault>
        ensures time { Ticks self.old self.new }
        ensures spent { self.old.counts.made ≡ 2 ^ 64 - 1 → IsErr result }
        ensures breaks { StaysBroken self.old self.new result }
        ensures cause { IsCauseOf self.old.counts.faults self.new.counts.faults (IsErrOf result NamesFault.Failed) }
        ensures keeps { StaysAttached self.old self.new }
        ensures names { IfOk result (λ names. IsSomeAnd self.old.folder (IsListing R.answered names)) }
        ensures detached { self.old.folder ≡ None → IsErrOf result NamesFault.Failed }
        ensures failed { IsErrOf result NamesFault.Failed
            → (self.old.counts.made ≡ 2 ^ 64 - 1) ⊎ (self.old.folder ≡ None) ⊎ IsSomeAnd self.old.folder (λ folder. R.unlisted (string_bytes folder.path)) }
        ensures looks { self.new.system ≡ self.old.system }
    {
        if self.counts.begin().is_err() {
            return Err(NamesFault::Failed);
        }
        let Some(folder) = &self.folder else {
            self.counts.faults.raise();
            return Err(NamesFault::Failed);
        };
        match folder.names(&self.system, alloc) {
            Ok(names) => Ok(Items::of(names)),
            Err(error) if error.kind() == io::ErrorKind::OutOfMemory => Err(NamesFault::Memory),
            Err(_) => {
                self.counts.faults.raise();
                Err(NamesFault::Failed)
            }
        }
    }

    fn size(&mut self, name: &FileName) -> Result<Option<u64>, Failed>
        ensures called { IsCalled self.old self.new result }
        ensures keeps { BothOrNone (KeepsFolder R.answered) self.old self.new }
        ensures more { BothOrNone (MarksNoMore (λ _ _. ⊥) ⊥) self.old self.new }
        ensures size { IfOk result (λ size. IsSomeAnd self.old.folder (λ folder. MatchOption size (R.answered (Missed (path_of folder name.now)))
            (λ size. OfFile R.answered (λ file. IfSome (F.bytes file) (λ told. size ≡ length told)) name.now folder))) }
        ensures looks { self.new.system ≡ self.old.system }
    {
        self.counts.begin()?;
        let Some(folder) = &mut self.folder else {
            return Err(self.counts.faults.raise());
        };
        let answer = folder.size(&self.system, name);
        self.counts.faults.note(answer)
    }

    fn read_at(&mut self, name: &FileName, at: u64, room: &mut [u8]) -> Result<usize, Failed>
        ensures called { IsCalled self.old self.new result }
        ensures keeps { BothOrNone (KeepsFolder R.answered) self.old self.new }
        ensures more { BothOrNone (MarksNoMore (λ _ _. ⊥) ⊥) self.old self.new }
        ensures bound { IfOk result (λ count. count ≤ length room.new) }
        ensures read { IfOk result (λ count. IsSomeAnd self.old.folder
            (OfFileOrMissed R.answered (count ≡ 0) (λ file. IfSome (F.bytes file) (λ told. ReadsAt told at count room.new)) name.now)) }
        ensures looks { self.new.system ≡ self.old.system }
    {
        self.counts.begin()?;
        let Some(folder) = &mut self.folder else {
            return Err(self.counts.faults.raise());
        };
        let answer = folder.read_at(&self.system, name, at, room);
        self.counts.faults.note(answer)
    }

    fn write_at(&mut self, name: &FileName, at: u64, piece: &[u8]) -> Result<(), Failed>
        ensures called { IsCalled self.old self.new result }
        ensures keeps { BothOrNone (KeepsFolder R.answered) self.old self.new }
        ensures more { BothOrNone (MarksNoMore (λ other mark. (name.now ≡ other) × (mark ≡ Data)) ⊥) self.old self.new }
        ensures bound { OnOk result (at + length piece.now < 2 ^ 63) }
        ensures written { OnOk result (BothAttached (λ before after. OfFile R.answered
            (λ file. R.file_answered (Write at piece.now) file × Awaiting name.now file Data after.kept.files.items) name.now before) self.old self.new) }
        ensures refused { OnErr result ((self.new.system ≡ self.old.system)
            ⊎ IsSomeAnd self.old.folder (OfFile R.answered (λ file. R.failed (CallFile file (Write at piece.now))) name.now)) }
        ensures acts { ActsOnceAttached R.one_act (λ before after act. IsCallOf R.answered (Write at piece.now) Data name.now before after act × (at + length piece.now < 2 ^ 63)) self.old self.new }
    {
        self.counts.begin()?;
        let Some(folder) = &mut self.folder else {
            return Err(self.counts.faults.raise());
        };
        let answer = folder.write_at(&mut self.system, name, at, piece);
        self.counts.faults.note(answer)
    }

    fn cut(&mut self, name: &FileName, to: u64) -> Result<(), Failed>
        ensures called { IsCalled self.old self.new result }
        ensures keeps { BothOrNone (KeepsFolder R.answered) self.old self.new }
        ensures more { BothOrNone (MarksNoMore (λ other _. name.now ≡ other) ⊥) self.old self.new }
        ensures cut { OnOk result (BothAttached (λ before after. OfFile R.answered
            (λ file. R.file_answered (CutTo to) file × Awaiting name.now file Everything after.kept.files.items) name.now before) self.old self.new) }
        ensures refused { OnErr result ((self.new.system ≡ self.old.system)
            ⊎ IsSomeAnd self.old.folder (OfFile R.answered (λ file. R.failed (CallFile file (CutTo to))) name.now)) }
        ensures acts { ActsOnceAttached R.one_act (IsCallOf R.answered (CutTo to) Everything name.now) self.old self.new }
    {
        self.counts.begin()?;
        let Some(folder) = &mut self.folder else {
            return Err(self.counts.faults.raise());
        };
        let answer = folder.cut(&mut self.system, name, to);
        self.counts.faults.note(answer)
    }

    fn make(&mut self, name: &FileName) -> Result<(), Failed>
        ensures called { IsCalled self.old self.new result }
        ensures keeps { BothOrNone (KeepsFolder R.answered) self.old self.new }
        ensures more { BothOrNone (λ before after. MarksNoMore (λ other _. name.now ≡ other) (R.answered (Missed (path_of before name.now))) before after) self.old self.new }
        ensures made { OnOk result (BothAttached (HasMade R.answered R.file_answered name.now) self.old self.new) }
        ensures acts { ActsOnceAttached R.one_act (IsMaking R.answered name.now) self.old self.new }
    {
        self.counts.begin()?;
        let Some(folder) = &mut self.folder else {
            return Err(self.counts.faults.raise());
        };
        let answer = folder.make(&mut self.system, name);
        self.counts.faults.note(answer)
    }

    fn remove(&mut self, name: &FileName) -> Result<(), Failed>
        ensures called { IsCalled self.old self.new result }
        ensures same { BothOrNone IsSameFolder self.old self.new }
        ensures removed { OnOk result (BothAttached (HasRemoved R.answered name.now) self.old self.new) }
        ensures failed { OnErr result ((self.new.folder ≡ self.old.folder) ⊎ BothAttached NamesMayHaveChanged self.old self.new) }
        ensures refused { OnErr result ((self.new.system ≡ self.old.system)
            ⊎ IsSomeAnd self.old.folder (λ folder. R.failed (RemoveFile (path_of folder name.now)))) }
        ensures acts { ActsOnceAttached R.one_act (λ before after. IsNaming (RemoveFile (path_of before name.now)) after) self.old self.new }
    {
        self.counts.begin()?;
        let Some(folder) = &mut self.folder else {
            return Err(self.counts.faults.raise());
        };
        let answer = folder.remove(&mut self.system, name);
        self.counts.faults.note(answer)
    }

    fn rename(&mut self, from: &FileName, to: &FileName) -> Result<(), Failed>
        ensures called { IsCalled self.old self.new result }
        ensures same { BothOrNone IsSameFolder self.old self.new }
        ensures renamed { OnOk result (BothAttached (HasRenamed R.answered from.now to.now) self.old self.new) }
        ensures failed { OnErr result ((self.new.folder ≡ self.old.folder) ⊎ BothAttached NamesMayHaveChanged self.old self.new) }
        ensures refused { OnErr result ((self.new.system ≡ self.old.system)
            ⊎ IsSomeAnd self.old.folder (λ folder. R.failed (RenameFile (path_of folder from.now) (path_of folder to.now)))) }
        ensures acts { ActsOnceAttached R.one_act (λ before after. IsNaming (RenameFile (path_of before from.now) (path_of before to.now)) after) self.old self.new }
    {
        self.counts.begin()?;
        let Some(folder) = &mut self.folder else {
            return Err(self.counts.faults.raise());
        };
        let answer = folder.rename(&mut self.system, from, to);
        self.counts.faults.note(answer)
    }

    fn sync(&mut self) -> Result<(), Failed>
        ensures called { IsCalled self.old self.new result }
        ensures settled { OnOk result (BothAttached (λ before after. IsSameFolder before after × SettlesFiles R.file_answered before after × IsSettledWhole after) self.old self.new) }
        ensures whole { OnOk result (self.new.broken ≡ self.old.broken) }
        ensures broken { OnErr result (BreaksOffUnless ((self.old.counts.made ≡ 2 ^ 64 - 1) ⊎ (self.old.folder ≡ None)) self.old self.new) }
        ensures failed { OnErr result ((self.old.counts.made ≡ 2 ^ 64 - 1) ⊎ (self.old.folder ≡ None) ⊎ SettlingFailed R.failed) }
        ensures done { OnOk result (ActsOnly R.one_done IsSettling self.old.system self.new.system) }
        ensures turns { MatchOption self.old.folder (self.new.system ≡ self.old.system)
            (λ folder. SettlesInTurn R.one_act folder.kept self.old.system self.new.system) }
    {
        self.counts.begin()?;
        let Some(folder) = &mut self.folder else {
            return Err(self.counts.faults.raise());
        };
        let answer = folder.sync(&mut self.system);
        if answer.is_err() {
            self.break_off();
        }
        self.counts.faults.note(answer)
    }
}

impl<F: SystemFile + Drop, R: System<File = F> + AllocGlobal + Drop> WholeDisk for DirDisk<R, F> {
    ghost whole = { refl };
}
