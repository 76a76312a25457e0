//! The open files of a directory, and what they await of the next sync.
ghost use Rattle.std.specs.Prelude.{◌≡◌, ◌≤◌, ◌<◌, ◌+◌, ◌^◌, ◌⊎◌, ℕ, List, [], length, true, false, IfOk, OnOk, OnErr};
ghost use Rattle.std.specs.List.{All, AllZip, position};
ghost use Rattle.std.specs.Str.{bytes_eq};
ghost use Rattle.real_forms.specs.System.{Write, CutTo, SettleAll, CallFile, ActsOnce, ActsOnly, IsSettling, SettlingFailed};
ghost use Rattle.real_forms.specs.Awaiting.{Covers, Awaiting, StillAwaits, AwaitsNoMore, IsNamedAt, IsFileAt, IsOpenAs, OpensNone, FallsByAnswer, SettlesBy, SettlesFirst, SettlesInTurn, AwaitsSomething, AwaitsNothing, without, AreRenamed};
ghost use Rattle.real_forms.specs.declared.kept.Awaits.{Awaits};
ghost use Rattle.real_forms.specs.declared.kept.Awaits.TheVariants.{Nothing, Data, Everything};

use crate::system::{System, SystemFile};
use std::alloc::Global;
use std::io;
use weed_base::FileName;

/// Once so many files are open, those that await nothing are let go.
const MAX_KEPT: usize = 64;

/// The greatest length of a file, in bytes.
pub(super) const MAX_END: u64 = (1 << 63) - 1;

/// What a file awaits of the next sync.
#[derive(Clone, Copy, PartialEq, Eq, Drop)]
pub(super) enum Awaits {
    /// It is settled.
    Nothing,
    /// Bytes were written, and maybe past the end.
    Data,
    /// The file was made or cut.
    Everything,
}

/// An open file, its name, and what it awaits.
#[derive(Drop)]
pub(super) struct KeptFile<F> {
    name: FileName,
    file: F,
    awaits: Awaits,
}

impl<F: SystemFile + Drop> KeptFile<F> {
    pub(super) fn new(name: FileName, file: F, awaits: Awaits) -> KeptFile<F>
        ensures { result ≡ record { name = name; file = file; awaits = awaits } }
    {
        KeptFile { name, file, awaits }
    }

    /// Settles what it awaits.
    fn sync<R: System<File = F>>(&mut self, system: &mut R) -> io::Result<()>
        ensures mark { FallsByAnswer R.file_answered self.old self.new }
        ensures settled { OnOk result (AwaitsNothing self.new) }
        ensures failed { OnErr result (SettlingFailed R.failed) }
        ensures done { OnOk result (ActsOnce R.one_done IsSettling system.old system.new) }
        ensures once { SettlesBy R.one_act self.old.awaits self.old.file system.old system.new }
        ensures acts { ActsOnce R.one_act IsSettling system.old system.new }
    {
        match self.awaits {
            Awaits::Nothing => return Ok(()),
            Awaits::Data => system.settle_data(&self.file)?,
            Awaits::Everything => system.settle_all(&self.file)?,
        }
        self.awaits = Awaits::Nothing;
        Ok(())
    }

    /// Writes, and awaits a sync even where that failed. A write whose end would pass 2^63 - 1
    /// fails.
    fn write_at<R: System<File = F>>(
        &mut self,
        system: &mut R,
        at: u64,
        piece: &[u8],
    ) -> io::Result<()>
        ensures name { self.new.name ≡ self.old.name }
        ensures still { Covers self.new.awaits self.old.awaits }
        ensures mark { (self.new.awaits ≡ self.old.awaits) ⊎ ((self.old.awaits ≡ Awaits.Nothing) × (self.new.awaits ≡ Awaits.Data)) }
        ensures marked { at + length piece.now < 2 ^ 63 → Covers self.new.awaits Awaits.Data }
        ensures fits { OnOk result (at + length piece.now < 2 ^ 63) }
        ensures file { self.new.file ≡ self.old.file }
        ensures written { OnOk result (R.file_answered (Write at piece.now) self.old.file) }
        ensures refused { OnErr result ((system.new ≡ system.old) ⊎ R.failed (CallFile self.old.file (Write at piece.now))) }
        ensures acts { ActsOnce R.one_act (λ act. (act ≡ CallFile self.old.file (Write at piece.now)) × (at + length piece.now < 2 ^ 63)) system.old system.new }
    {
        if piece.len() as u64 > MAX_END || at > MAX_END - piece.len() as u64 {
            return Err(io::ErrorKind::FileTooLarge.into());
        }
        if self.awaits == Awaits::Nothing {
            self.awaits = Awaits::Data;
        }
        system.write_piece(&self.file, at, piece)
    }

    /// Cuts, and awaits a sync even where that failed.
    fn cut<R: System<File = F>>(&mut self, system: &mut R, to: u64) -> io::Result<()>
        ensures name { self.new.name ≡ self.old.name }
        ensures marked { self.new.awaits ≡ Awaits.Everything }
        ensures file { self.new.file ≡ self.old.file }
        ensures cut { OnOk result (R.file_answered (CutTo to) self.old.file) }
        ensures refused { OnErr result (R.failed (CallFile self.old.file (CutTo to))) }
        ensures once { R.one_act system.old system.new (CallFile self.old.file (CutTo to)) }
    {
        self.awaits = Awaits::Everything;
        system.cut(&self.file, to)
    }
}

/// Settles what each of them awaits, up to the first that fails.
fn sync_each<F: SystemFile + Drop, R: System<File = F>>(
    system: &mut R,
    files: &mut [KeptFile<F>],
) -> io::Result<()>
    ensures marks { AllZip (FallsByAnswer R.file_answered) files.old files.new }
    ensures settled { OnOk result (All AwaitsNothing files.new) }
    ensures failed { OnErr result (SettlingFailed R.failed) }
    ensures done { OnOk result (ActsOnly R.one_done IsSettling system.old system.new) }
    ensures turns { (count : ℕ) × (count ≤ length files.old) × SettlesFirst R.one_act files.old count system.old system.new }
    ensures acts { ActsOnly R.one_act IsSettling system.old system.new }
{
    for kept in files.iter_mut() {
        kept.sync(system)?;
    }
    Ok(())
}

/// The open files of a directory, and whether its names await a sync too.
#[derive(Drop)]
pub(super) struct KeptFiles<F> {
    directory: F,
    files: Vec<KeptFile<F>>,
    names_await: bool,
}

impl<F: SystemFile + Drop> KeptFiles<F> {
    /// Those of a directory that is settled.
    pub(super) fn new(alloc: Global, directory: F) -> KeptFiles<F>
        ensures directory { result.directory ≡ directory }
        ensures files { result.files.items ≡ [] }
        ensures names { result.names_await ≡ false }
    {
        KeptFiles {
            directory,
            files: Vec::new(alloc),
            names_await: false,
        }
    }

    /// The place of the first open file of that name.
    pub(super) fn place_of(&self, name: &FileName) -> Option<usize>
        ensures { result ≡ position (λ kept. bytes_eq kept.name name.now) self.now.files.items }
    {
        self.files.iter().position(|kept| kept.name == *name)
    }

    /// The file at that place.
    pub(super) fn file(&self, place: usize) -> &F
        requires { place < length self.now.files.items }
        ensures { IsFileAt place self.now.files.items result.now }
    {
        &self.files[place].file
    }

    /// Lets the files go that await nothing, where there are too many.
    fn let_idle_go(&mut self)
        ensures still { StillAwaits self.old.files.items self.new.files.items }
        ensures only { OpensNone self.old.files.items self.new.files.items }
        ensures more { AwaitsNoMore (λ _ _. ⊥) self.old.files.items self.new.files.items }
        ensures few { 64 ≤ length self.old.files.items → All AwaitsSomething self.new.files.items }
        ensures names { self.new.names_await ≡ self.old.names_await }
        ensures directory { self.new.directory ≡ self.old.directory }
    {
        if self.files.len() >= MAX_KEPT {
            self.files.retain(|kept| kept.awaits != Awaits::Nothing);
        }
    }

    /// Keeps an open file, and answers its place.
    pub(super) fn keep(&mut self, opened: KeptFile<F>) -> io::Result<usize>
        ensures kept { IfOk result (λ place. IsNamedAt opened.name place self.new.files.items × IsFileAt place self.new.files.items opened.file) }
        ensures marked { OnOk result (Awaiting opened.name opened.file opened.awaits self.new.files.items) }
        ensures still { StillAwaits self.old.files.items self.new.files.items }
        ensures only { (name : List ℕ) (file : F) → IsOpenAs name file self.new.files.items
            → IsOpenAs name file self.old.files.items ⊎ ((opened.name ≡ name) × (opened.file ≡ file)) }
        ensures more { AwaitsNoMore (λ name mark. (opened.name ≡ name) × Covers opened.awaits mark) self.old.files.items self.new.files.items }
        ensures few { 64 ≤ length self.old.files.items → All (λ kept. AwaitsSomething kept ⊎ (kept ≡ opened)) self.new.files.items }
        ensures names { self.new.names_await ≡ self.old.names_await }
        ensures directory { self.new.directory ≡ self.old.directory }
    {
        self.let_idle_go();
        let place = self.files.len();
        self.files.push(opened)?;
        Ok(place)
    }

    /// Writes to the file at that place.
    pub(super) fn write_at<R: System<File = F>>(
        &mut self,
        system: &mut R,
        place: usize,
        at: u64,
        piece: &[u8],
    ) -> io::Result<()>
        requires { place < length self.old.files.items }
        ensures fits { OnOk result (at + length piece.now < 2 ^ 63) }
        ensures marked { (name : List ℕ) (file : F) → IsNamedAt name place self.old.files.items → IsFileAt place self.old.files.items file
            → at + length piece.now < 2 ^ 63 → Awaiting name file Awaits.Data self.new.files.items }
        ensures written { (file : F) → IsFileAt place self.old.files.items file → OnOk result (R.file_answered (Write at piece.now) file) }
        ensures refused { (file : F) → IsFileAt place self.old.files.items file
            → OnErr result ((system.new ≡ system.old) ⊎ R.failed (CallFile file (Write at piece.now))) }
        ensures acts { (file : F) → IsFileAt place self.old.files.items file
            → ActsOnce R.one_act (λ act. (act ≡ CallFile file (Write at piece.now)) × (at + length piece.now < 2 ^ 63)) system.old system.new }
        ensures still { StillAwaits self.old.files.items self.new.files.items }
        ensures only { OpensNone self.old.files.items self.new.files.items }
        ensures more { (name : List ℕ) → IsNamedAt name place self.old.files.items
            → AwaitsNoMore (λ other mark. (name ≡ other) × (mark ≡ Awaits.Data)) self.old.files.items self.new.files.items }
        ensures names { self.new.names_await ≡ self.old.names_await }
        ensures directory { self.new.directory ≡ self.old.directory }
    {
        self.files[place].write_at(system, at, piece)
    }

    /// Cuts the file at that place.
    pub(super) fn cut<R: System<File = F>>(
        &mut self,
        system: &mut R,
        place: usize,
        to: u64,
    ) -> io::Result<()>
        requires { place < length self.old.files.items }
        ensures marked { (name : List ℕ) (file : F) → IsNamedAt name place self.old.files.items → IsFileAt place self.old.files.items file
            → Awaiting name file Awaits.Everything self.new.files.items }
        ensures cut { (file : F) → IsFileAt place self.old.files.items file → OnOk result (R.file_answered (CutTo to) file) }
        ensures refused { (file : F) → IsFileAt place self.old.files.items file → OnErr result (R.failed (CallFile file (CutTo to))) }
        ensures once { (file : F) → IsFileAt place self.old.files.items file → R.one_act system.old system.new (CallFile file (CutTo to)) }
        ensures still { StillAwaits self.old.files.items self.new.files.items }
        ensures only { OpensNone self.old.files.items self.new.files.items }
        ensures more { (name : List ℕ) → IsNamedAt name place self.old.files.items
            → AwaitsNoMore (λ other _. name ≡ other) self.old.files.items self.new.files.items }
        ensures names { self.new.names_await ≡ self.old.names_await }
        ensures directory { self.new.directory ≡ self.old.directory }
    {
        self.files[place].cut(system, to)
    }

    /// Notes that a name may be made or taken away.
    pub(super) fn note_names(&mut self)
        ensures files { self.new.files.items ≡ self.old.files.items }
        ensures names { self.new.names_await ≡ true }
        ensures directory { self.new.directory ≡ self.old.directory }
    {
        self.names_await = true;
    }

    /// Lets the files of that name go, which was removed.
    pub(super) fn forget(&mut self, name: &FileName)
        ensures files { self.new.files.items ≡ without name.now self.old.files.items }
        ensures names { self.new.names_await ≡ self.old.names_await }
        ensures directory { self.new.directory ≡ self.old.directory }
    {
        self.files.retain(|kept| kept.name != *name);
    }

    /// Follows a rename between two names.
    pub(super) fn rename(&mut self, from: &FileName, to: &FileName)
        ensures files { AreRenamed from.now to.now self.old.files.items self.new.files.items }
        ensures names { self.new.names_await ≡ self.old.names_await }
        ensures directory { self.new.directory ≡ self.old.directory }
    {
        self.forget(to);
        for kept in self.files.iter_mut() {
            if kept.name == *from {
                kept.name = to.copy();
            }
        }
    }

    /// Settles each file that was made, written or cut since the last sync, and the names.
    pub(super) fn sync<R: System<File = F>>(&mut self, system: &mut R) -> io::Result<()>
        ensures marks { AllZip (FallsByAnswer R.file_answered) self.old.files.items self.new.files.items }
        ensures names { (self.new.names_await ≡ self.old.names_await) ⊎ ((self.new.names_await ≡ false) × R.file_answered SettleAll self.old.directory) }
        ensures settled { OnOk result (All AwaitsNothing self.new.files.items × (self.new.names_await ≡ false)) }
        ensures failed { OnErr result (SettlingFailed R.failed) }
        ensures directory { self.new.directory ≡ self.old.directory }
        ensures done { OnOk result (ActsOnly R.one_done IsSettling system.old system.new) }
        ensures turns { SettlesInTurn R.one_act self.old system.old system.new }
        ensures acts { ActsOnly R.one_act IsSettling system.old system.new }
    {
        sync_each(system, &mut self.files)?;
        if self.names_await {
            system.settle_all(&self.directory)?;
            self.names_await = false;
        }
        Ok(())
    }
}
