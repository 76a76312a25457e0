//! A directory of the system, and its open files. Nothing here counts faults.
ghost use Rattle.std.specs.Prelude.{◌≡◌, ◌≤◌, ◌<◌, ◌+◌, ◌^◌, ◌⊎◌, length, take, drop, true, string_bytes, IfOk, IfSome, OnOk, OnErr, MatchOption};
ghost use Rattle.std.specs.List.{All};
ghost use Rattle.weed_base.specs.Files.{ReadsAt, ReadsSome};
ghost use Rattle.real_forms.specs.System.{Write, CutTo, SettleAll, CallFile, OpenedToSettle, Missed, Made, ActsOnce, ActsOnly, IsSettling, SettlingFailed, IsOpening, MakeFile, RemoveFile, RenameFile, path_in, directory_above};
ghost use Rattle.real_forms.specs.Awaiting.{Covers, Awaiting, StillAwaits, AwaitsNoMore, IsNamedAt, IsFileAt, IsOpenAs, SettlesInTurn};
ghost use Rattle.real_forms.specs.Folder.{IsOpenAt, OfFile, OfFileOrMissed, IsCallOf, IsNaming, IsMaking, IsSettledAt, MakesThenSettles, IsListing, OpensOne, IsOpenedFolder, IsSameFolder, KeepsFolder, MarksNoMore, HasMade, HasRemoved, HasRenamed, NamesMayHaveChanged, SettlesFiles, IsSettledWhole, path_of};

use crate::kept::{Awaits, KeptFile, KeptFiles, MAX_END};
use crate::system::{System, SystemFile};
use std::alloc::{AllocGlobal, Global};
use std::path::Path;
use std::{io, str};
use weed_base::FileName;

/// Reads until the room is full or the file ends.
fn read_full<F: SystemFile>(file: &F, at: u64, room: &mut [u8]) -> io::Result<usize>
    ensures bound { IfOk result (λ count. count ≤ length room.new) }
    ensures read { IfOk result (λ count. IfSome (F.bytes file.now) (λ told. ReadsAt told at count room.new)) }
{
    let mut count = 0;
    while count < room.len() {
        let from = at.saturating_add(count as u64);
        if from > MAX_END {
            break;
        }
        let got = read_behind(file, from, room, count)?;
        if got == 0 {
            break;
        }
        count += got;
    }
    Ok(count)
}

/// Reads into the room behind so many first bytes of it.
fn read_behind<F: SystemFile>(file: &F, at: u64, room: &mut [u8], done: usize) -> io::Result<usize>
    requires { done ≤ length room.old }
    ensures front { take done room.new ≡ take done room.old }
    ensures bound { IfOk result (λ count. count ≤ length (drop done room.new)) }
    ensures read { IfOk result (λ count. IfSome (F.bytes file.now) (λ told. ReadsSome told at count (drop done room.new))) }
{
    file.read_some(at, &mut room[done..])
}

/// The path of the directory that a path's own name stands in.
fn directory_above(path: &str) -> &str
    ensures { result.now ≡ directory_above path.now }
{
    match Path::new(path).parent() {
        Some(above) if !above.as_str().is_empty() => above.as_str(),
        _ => ".",
    }
}

/// The text of these bytes.
fn text_of(bytes: &[u8]) -> io::Result<&str>
    ensures { IfOk result (λ text. text.now ≡ bytes.now) }
{
    Ok(str::from_utf8(bytes).map_err(|_| io::ErrorKind::InvalidFilename)?)
}

/// The path of a file in the directory at that path.
fn path_in(alloc: Global, path: &str, name: &FileName) -> io::Result<String>
    ensures { IfOk result (λ text. string_bytes text ≡ path_in path.now name.now) }
{
    let name = text_of(name.as_slice())?;
    Ok(format!(in alloc; "{path}/{name}")?)
}

/// Settles what lies at a path.
fn settle_at<F: SystemFile + Drop, R: System<File = F>>(
    system: &mut R,
    path: &str,
) -> io::Result<()>
    ensures settled { OnOk result ((file : F) × R.answered (OpenedToSettle path.now file) × R.file_answered SettleAll file × R.one_done system.old system.new (CallFile file SettleAll)) }
    ensures acts { ActsOnce R.one_act IsSettling system.old system.new }
{
    let file = system.open_to_settle(path)?;
    system.settle_all(&file)
}

/// Makes the directory where it isn't there, and settles its name: an earlier process may have been stopped
/// before it did.
fn make_folder<F: SystemFile + Drop, R: System<File = F>>(
    system: &mut R,
    path: &str,
) -> io::Result<()>
    ensures made { OnOk result (MakesThenSettles R.one_done R.answered R.file_answered path.now system.old system.new) }
    ensures acts { ActsOnly R.one_act (IsOpening path.now) system.old system.new }
{
    system.make_directory(path)?;
    settle_at(system, directory_above(path))
}

/// Settles each file of these names in the directory.
fn settle_each<F: SystemFile + Drop, R: System<File = F> + AllocGlobal>(
    system: &mut R,
    directory: &str,
    names: &[FileName],
) -> io::Result<()>
    ensures settled { OnOk result (All (λ name. IsSettledAt R.answered R.file_answered (path_in directory.now name)) names.now) }
    ensures done { OnOk result (ActsOnly R.one_done IsSettling system.old system.new) }
    ensures acts { ActsOnly R.one_act IsSettling system.old system.new }
{
    for name in names {
        let path = path_in(system.alloc(), directory, name)?;
        settle_at(system, path.as_str())?;
    }
    Ok(())
}

/// An attached directory.
#[derive(Drop)]
pub(crate) struct Folder<F> {
    path: String,
    kept: KeptFiles<F>,
}

impl<F: SystemFile + Drop> Folder<F> {
    /// Opens a directory, which is made where it isn't there, and settles it, since an earlier process may
    /// have left it unsettled.
    pub(crate) fn open<R: System<File = F> + AllocGlobal>(
        system: &mut R,
        path: &[u8],
    ) -> io::Result<Folder<F>>
        ensures opened { IfOk result (IsOpenedFolder R.answered R.file_answered path.now) }
        ensures made { OnOk result (MakesThenSettles R.one_done R.answered R.file_answered path.now system.old system.new) }
        ensures acts { ActsOnly R.one_act (IsOpening path.now) system.old system.new }
    {
        let path = text_of(path)?;
        make_folder(system, path)?;
        let directory = system.open_to_settle(path)?;
        let names = system.list(system.alloc(), path)?;
        settle_each(system, path, names.as_slice())?;
        system.settle_all(&directory)?;
        Ok(Folder {
            path: String::from_str(system.alloc(), path)?,
            kept: KeptFiles::new(system.alloc(), directory),
        })
    }

    fn path_of(&self, alloc: Global, name: &FileName) -> io::Result<String>
        ensures { IfOk result (λ path. string_bytes path ≡ path_of self.now name.now) }
    {
        path_in(alloc, self.path.as_str(), name)
    }

    /// The names of files, in byte order. Other names are left out.
    pub(crate) fn names<R: System<File = F>>(
        &self,
        system: &R,
        alloc: Global,
    ) -> io::Result<Vec<FileName>>
        ensures names { IfOk result (λ names. IsListing R.answered names.items self.now) }
        ensures failed { OnErr result (R.unlisted (string_bytes self.now.path)) }
    {
        let mut names = system.list(alloc, self.path.as_str())?;
        names.sort_unstable();
        Ok(names)
    }

    /// Notes that a name may be made or taken away.
    fn note_names(&mut self)
        ensures same { IsSameFolder self.old self.new }
        ensures noted { NamesMayHaveChanged self.old self.new }
    {
        self.kept.note_names();
    }

    /// Keeps a file that was opened or made at the path of its name, and answers its place.
    fn keep(&mut self, name: &FileName, file: F, awaits: Awaits) -> io::Result<usize>
        ensures kept { IfOk result (λ place. IsNamedAt name.now place self.new.kept.files.items × IsFileAt place self.new.kept.files.items file) }
        ensures marked { OnOk result (Awaiting name.now file awaits self.new.kept.files.items) }
        ensures same { IsSameFolder self.old self.new }
        ensures only { OpensOne name.now file self.old self.new }
        ensures still { StillAwaits self.old.kept.files.items self.new.kept.files.items }
        ensures more { MarksNoMore (λ other mark. (name.now ≡ other) × Covers awaits mark) ⊥ self.old self.new }
        ensures names { self.new.kept.names_await ≡ self.old.kept.names_await }
    {
        self.kept.keep(KeptFile::new(name.copy(), file, awaits))
    }

    /// The place of the open file of that name, where it is there.
    fn place_of<R: System<File = F> + AllocGlobal>(
        &mut self,
        system: &R,
        name: &FileName,
    ) -> io::Result<Option<usize>>
        ensures place { IfOk result (λ found. IfSome found (λ place. IsNamedAt name.now place self.new.kept.files.items)) }
        ensures opened { IfOk result (λ found. MatchOption found (R.answered (Missed (path_of self.old name.now)))
            (IsOpenAt R.answered (path_of self.old name.now) name.now self.old.kept.files.items self.new.kept.files.items)) }
        ensures keeps { KeepsFolder R.answered self.old self.new }
        ensures more { MarksNoMore (λ _ _. ⊥) ⊥ self.old self.new }
    {
        if let Some(place) = self.kept.place_of(name) {
            return Ok(Some(place));
        }
        let path = self.path_of(system.alloc(), name)?;
        let Some(file) = system.open_existing(path.as_str())? else {
            return Ok(None);
        };
        Ok(Some(self.keep(name, file, Awaits::Nothing)?))
    }

    /// A file's length in bytes, where it is there.
    pub(crate) fn size<R: System<File = F> + AllocGlobal>(
        &mut self,
        system: &R,
        name: &FileName,
    ) -> io::Result<Option<u64>>
        ensures size { IfOk result (λ size. MatchOption size (R.answered (Missed (path_of self.old name.now)))
            (λ size. OfFile R.answered (λ file. IfSome (F.bytes file) (λ told. size ≡ length told)) name.now self.old)) }
        ensures keeps { KeepsFolder R.answered self.old self.new }
        ensures more { MarksNoMore (λ _ _. ⊥) ⊥ self.old self.new }
    {
        match self.place_of(system, name)? {
            Some(place) => Ok(Some(self.kept.file(place).size()?)),
            None => Ok(None),
        }
    }

    /// Puts the file's bytes from `at` on into the front of `room`, as many as there are and fit, and answers
    /// how many; none where the file isn't there.
    pub(crate) fn read_at<R: System<File = F> + AllocGlobal>(
        &mut self,
        system: &R,
        name: &FileName,
        at: u64,
        room: &mut [u8],
    ) -> io::Result<usize>
        ensures bound { IfOk result (λ count. count ≤ length room.new) }
        ensures read { IfOk result (λ count. OfFileOrMissed R.answered (count ≡ 0) (λ file. IfSome (F.bytes file) (λ told. ReadsAt told at count room.new)) name.now self.old) }
        ensures keeps { KeepsFolder R.answered self.old self.new }
        ensures more { MarksNoMore (λ _ _. ⊥) ⊥ self.old self.new }
    {
        match self.place_of(system, name)? {
            Some(place) => read_full(self.kept.file(place), at, room),
            None => Ok(0),
        }
    }

    /// Writes the piece over what is there, and past the end.
    pub(crate) fn write_at<R: System<File = F> + AllocGlobal>(
        &mut self,
        system: &mut R,
        name: &FileName,
        at: u64,
        piece: &[u8],
    ) -> io::Result<()>
        ensures written { OnOk result (OfFile R.answered (λ file. R.file_answered (Write at piece.now) file × Awaiting name.now file Awaits.Data self.new.kept.files.items) name.now self.old) }
        ensures bound { OnOk result (at + length piece.now < 2 ^ 63) }
        ensures keeps { KeepsFolder R.answered self.old self.new }
        ensures more { MarksNoMore (λ other mark. (name.now ≡ other) × (mark ≡ Awaits.Data)) ⊥ self.old self.new }
        ensures refused { OnErr result ((system.new ≡ system.old) ⊎ OfFile R.answered (λ file. R.failed (CallFile file (Write at piece.now))) name.now self.old) }
        ensures acts { ActsOnce R.one_act (λ act. IsCallOf R.answered (Write at piece.now) Awaits.Data name.now self.old self.new act × (at + length piece.now < 2 ^ 63)) system.old system.new }
    {
        match self.place_of(&*system, name)? {
            Some(place) => self.kept.write_at(system, place, at, piece),
            None => Err(io::ErrorKind::NotFound.into()),
        }
    }

    /// Cuts a file to a length.
    pub(crate) fn cut<R: System<File = F> + AllocGlobal>(
        &mut self,
        system: &mut R,
        name: &FileName,
        to: u64,
    ) -> io::Result<()>
        ensures cut { OnOk result (OfFile R.answered (λ file. R.file_answered (CutTo to) file × Awaiting name.now file Awaits.Everything self.new.kept.files.items) name.now self.old) }
        ensures keeps { KeepsFolder R.answered self.old self.new }
        ensures more { MarksNoMore (λ other _. name.now ≡ other) ⊥ self.old self.new }
        ensures refused { OnErr result ((system.new ≡ system.old) ⊎ OfFile R.answered (λ file. R.failed (CallFile file (CutTo to))) name.now self.old) }
        ensures acts { ActsOnce R.one_act (IsCallOf R.answered (CutTo to) Awaits.Everything name.now self.old self.new) system.old system.new }
    {
        match self.place_of(&*system, name)? {
            Some(place) => self.kept.cut(system, place, to),
            None => Err(io::ErrorKind::NotFound.into()),
        }
    }

    /// Makes a file that isn't there.
    fn make_new<R: System<File = F> + AllocGlobal>(
        &mut self,
        system: &mut R,
        name: &FileName,
    ) -> io::Result<()>
        ensures made { OnOk result ((file : F) × R.answered (Made (path_of self.old name.now) file) × Awaiting name.now file Awaits.Everything self.new.kept.files.items) }
        ensures keeps { KeepsFolder R.answered self.old self.new }
        ensures more { AwaitsNoMore (λ other _. name.now ≡ other) self.old.kept.files.items self.new.kept.files.items }
        ensures names { self.new.kept.names_await ≡ true }
        ensures acts { ActsOnce R.one_act (λ act. act ≡ MakeFile (path_of self.old name.now)) system.old system.new }
    {
        self.note_names();
        let path = self.path_of(system.alloc(), name)?;
        let file = system.make_file(path.as_str())?;
        self.keep(name, file, Awaits::Everything)?;
        Ok(())
    }

    /// Makes a file, or empties the one that is there.
    pub(crate) fn make<R: System<File = F> + AllocGlobal>(
        &mut self,
        system: &mut R,
        name: &FileName,
    ) -> io::Result<()>
        ensures made { OnOk result (HasMade R.answered R.file_answered name.now self.old self.new) }
        ensures keeps { KeepsFolder R.answered self.old self.new }
        ensures more { MarksNoMore (λ other _. name.now ≡ other) (R.answered (Missed (path_of self.old name.now))) self.old self.new }
        ensures acts { ActsOnce R.one_act (IsMaking R.answered name.now self.old self.new) system.old system.new }
    {
        match self.place_of(&*system, name)? {
            Some(place) => self.kept.cut(system, place, 0),
            None => self.make_new(system, name),
        }
    }

    /// Removes a file, where it is there.
    pub(crate) fn remove<R: System<File = F> + AllocGlobal>(
        &mut self,
        system: &mut R,
        name: &FileName,
    ) -> io::Result<()>
        ensures removed { OnOk result (HasRemoved R.answered name.now self.old self.new) }
        ensures failed { OnErr result (NamesMayHaveChanged self.old self.new) }
        ensures same { IsSameFolder self.old self.new }
        ensures refused { OnErr result ((system.new ≡ system.old) ⊎ R.failed (RemoveFile (path_of self.old name.now))) }
        ensures acts { ActsOnce R.one_act (IsNaming (RemoveFile (path_of self.old name.now)) self.new) system.old system.new }
    {
        self.note_names();
        let path = self.path_of(system.alloc(), name)?;
        system.remove_file(path.as_str())?;
        self.kept.forget(name);
        Ok(())
    }

    /// Renames a file, which takes the place of what had the new name.
    pub(crate) fn rename<R: System<File = F> + AllocGlobal>(
        &mut self,
        system: &mut R,
        from: &FileName,
        to: &FileName,
    ) -> io::Result<()>
        ensures renamed { OnOk result (HasRenamed R.answered from.now to.now self.old self.new) }
        ensures failed { OnErr result (NamesMayHaveChanged self.old self.new) }
        ensures same { IsSameFolder self.old self.new }
        ensures refused { OnErr result ((system.new ≡ system.old) ⊎ R.failed (RenameFile (path_of self.old from.now) (path_of self.old to.now))) }
        ensures acts { ActsOnce R.one_act (IsNaming (RenameFile (path_of self.old from.now) (path_of self.old to.now)) self.new) system.old system.new }
    {
        self.note_names();
        let old = self.path_of(system.alloc(), from)?;
        let new = self.path_of(system.alloc(), to)?;
        system.rename_file(old.as_str(), new.as_str())?;
        if from != to {
            self.kept.rename(from, to);
        }
        Ok(())
    }

    /// Settles each file that was made, written or cut since the last sync, and the names.
    pub(crate) fn sync<R: System<File = F>>(&mut self, system: &mut R) -> io::Result<()>
        ensures falls { SettlesFiles R.file_answered self.old self.new }
        ensures settled { OnOk result (IsSettledWhole self.new) }
        ensures failed { OnErr result (SettlingFailed R.failed) }
        ensures same { IsSameFolder self.old self.new }
        ensures done { OnOk result (ActsOnly R.one_done IsSettling system.old system.new) }
        ensures turns { SettlesInTurn R.one_act self.old.kept system.old system.new }
        ensures acts { ActsOnly R.one_act IsSettling system.old system.new }
    {
        self.kept.sync(system)
    }
}
