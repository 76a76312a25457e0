//! The system's files: the edge where proof ends. What a call of them did no contract can see. That it was made, with
//! what, and answered Ok, the code above knows from these two traits alone; their bodies for the real system are a
//! call or a few of std each.
ghost use Rattle.std.specs.Prelude.{◌≡◌, ◌≤◌, ◌<◌, ◌^◌, ℕ, List, ⊤, length, Option, None, IfOk, IfSome, OnOk, OnErr, MatchOption};
ghost use Rattle.weed_base.specs.Files.{ReadsSome};
ghost use Rattle.real_forms.specs.System.{Act, CallFile, MakeDirectory, MakeFile, RemoveFile, RenameFile, FileCall, Write, CutTo, SettleData, SettleAll, PathCall, MadeDirectory, OpenedToSettle, Opened, Missed, Made, Removed, Renamed, Listed};

use std::alloc::{AllocGlobal, Global};
use std::fs::{File, OpenFile, OpenOptions};
use std::os::unix::fs::FileExt;
use std::rt::Files;
use std::{fs, io};
use weed_base::FileName;

/// An open file of the system, or a directory. Here it is only looked at.
pub trait SystemFile {
    /// Its bytes, where told: of a file that is only read.
    ghost bytes: { Self → Option (List ℕ) };

    /// A file has fewer than 2^63 bytes.
    ghost short: { (file : Self) → IfSome (bytes file) (λ told. length told < 2 ^ 63) };

    /// Its length in bytes.
    fn size(&self) -> io::Result<u64>
        ensures { IfOk result (λ size. IfSome (bytes self.now) (λ told. size ≡ length told)) };

    /// Puts bytes from `at` on into the front of `room`, and answers how many: none only at the end, or for no
    /// room.
    fn read_some(&self, at: u64, room: &mut [u8]) -> io::Result<usize>
        ensures bound { IfOk result (λ count. count ≤ length room.new) }
        ensures read { IfOk result (λ count. IfSome (bytes self.now) (λ told. ReadsSome told at count room.new)) };
}

impl SystemFile for File {
    ghost bytes = { λ _. None };

    ghost short = { λ _. tt };

    fn size(&self) -> io::Result<u64> {
        Ok(self.metadata()?.len())
    }

    fn read_some(&self, at: u64, room: &mut [u8]) -> io::Result<usize> {
        self.read_at(room, at)
    }
}

/// The system's calls by paths, and those that change a file. Each of the latter is one act, whatever it answers.
pub trait System {
    /// What it opens.
    type File: SystemFile + Drop;

    /// That it answered so to a call by a path.
    ghost answered: { PathCall Self.File → Type 0 };

    /// That it answered Ok to a call of an open file.
    ghost file_answered: { FileCall → Self.File → Type 0 };

    /// That an act failed.
    ghost failed: { Act Self.File → Type 0 };

    /// That it couldn't list a directory.
    ghost unlisted: { List ℕ → Type 0 };

    /// That one act led from here to there. Generic code has this from the call alone.
    ghost one_act: { Self → Self → Act Self.File → Type 0 };

    /// The same of one that answered Ok.
    ghost one_done: { Self → Self → Act Self.File → Type 0 };

    /// Makes a directory where nothing is there.
    fn make_directory(&mut self, path: &str) -> io::Result<()>
        ensures made { OnOk result (answered (MadeDirectory path.now)) }
        ensures done { OnOk result (one_done self.old self.new (MakeDirectory path.now)) }
        ensures once { one_act self.old self.new (MakeDirectory path.now) };

    /// Opens a directory or a file to be settled.
    fn open_to_settle(&self, path: &str) -> io::Result<Self::File>
        ensures { IfOk result (λ file. answered (OpenedToSettle path.now file)) };

    /// Opens a file to be read and written; `None` where nothing is there.
    fn open_existing(&self, path: &str) -> io::Result<Option<Self::File>>
        ensures { IfOk result (λ found. MatchOption found (answered (Missed path.now)) (λ file. answered (Opened path.now file))) };

    /// Makes a file that isn't there.
    fn make_file(&mut self, path: &str) -> io::Result<Self::File>
        ensures made { IfOk result (λ file. answered (Made path.now file)) }
        ensures once { one_act self.old self.new (MakeFile path.now) };

    /// Removes a file, where it is there.
    fn remove_file(&mut self, path: &str) -> io::Result<()>
        ensures removed { OnOk result (answered (Removed path.now)) }
        ensures failed { OnErr result (failed (RemoveFile path.now)) }
        ensures once { one_act self.old self.new (RemoveFile path.now) };

    /// Renames a file, which takes the place of what had the new name.
    fn rename_file(&mut self, from: &str, to: &str) -> io::Result<()>
        ensures renamed { OnOk result (answered (Renamed from.now to.now)) }
        ensures failed { OnErr result (failed (RenameFile from.now to.now)) }
        ensures once { one_act self.old self.new (RenameFile from.now to.now) };

    /// The names of files in a directory, in any order. Other names are left out.
    fn list(&self, alloc: Global, path: &str) -> io::Result<Vec<FileName>>
        ensures listed { IfOk result (λ names. answered (Listed path.now names.items)) }
        ensures failed { OnErr result (unlisted path.now) };

    /// Writes all of the piece to the file, from byte `at` on.
    fn write_piece(&mut self, file: &Self::File, at: u64, piece: &[u8]) -> io::Result<()>
        ensures written { OnOk result (file_answered (Write at piece.now) file.now) }
        ensures failed { OnErr result (failed (CallFile file.now (Write at piece.now))) }
        ensures once { one_act self.old self.new (CallFile file.now (Write at piece.now)) };

    /// Cuts the file to that length in bytes.
    fn cut(&mut self, file: &Self::File, to: u64) -> io::Result<()>
        ensures cut { OnOk result (file_answered (CutTo to) file.now) }
        ensures failed { OnErr result (failed (CallFile file.now (CutTo to))) }
        ensures once { one_act self.old self.new (CallFile file.now (CutTo to)) };

    /// Settles the file's bytes, and its length.
    fn settle_data(&mut self, file: &Self::File) -> io::Result<()>
        ensures settled { OnOk result (file_answered SettleData file.now) }
        ensures failed { OnErr result (failed (CallFile file.now SettleData)) }
        ensures done { OnOk result (one_done self.old self.new (CallFile file.now SettleData)) }
        ensures once { one_act self.old self.new (CallFile file.now SettleData) };

    /// Settles all of the file, and of a directory the names.
    fn settle_all(&mut self, file: &Self::File) -> io::Result<()>
        ensures settled { OnOk result (file_answered SettleAll file.now) }
        ensures failed { OnErr result (failed (CallFile file.now SettleAll)) }
        ensures done { OnOk result (one_done self.old self.new (CallFile file.now SettleAll)) }
        ensures once { one_act self.old self.new (CallFile file.now SettleAll) };
}

impl<R: Files<File = File> + AllocGlobal + Clone + Drop> System for R {
    type File = File;

    ghost answered = { λ _. ⊤ };

    ghost file_answered = { λ _ _. ⊤ };

    ghost failed = { λ _. ⊤ };

    ghost unlisted = { λ _. ⊤ };

    ghost one_act = { λ _ _ _. ⊤ };

    ghost one_done = { λ _ _ _. ⊤ };

    fn make_directory(&mut self, path: &str) -> io::Result<()> {
        match fs::create_dir(&*self, path) {
            Err(error) if error.kind() != io::ErrorKind::AlreadyExists => Err(error),
            _ => Ok(()),
        }
    }

    fn open_to_settle(&self, path: &str) -> io::Result<File> {
        File::open(self, path)
    }

    fn open_existing(&self, path: &str) -> io::Result<Option<File>> {
        match OpenOptions::new().read(true).write(true).open(self, path) {
            Ok(file) => Ok(Some(file)),
            Err(error) if error.kind() == io::ErrorKind::NotFound => Ok(None),
            Err(error) => Err(error),
        }
    }

    fn make_file(&mut self, path: &str) -> io::Result<File> {
        File::create_new(&*self, path)
    }

    fn remove_file(&mut self, path: &str) -> io::Result<()> {
        match fs::remove_file(&*self, path) {
            Err(error) if error.kind() != io::ErrorKind::NotFound => Err(error),
            _ => Ok(()),
        }
    }

    fn rename_file(&mut self, from: &str, to: &str) -> io::Result<()> {
        fs::rename(&*self, from, to)
    }

    fn list(&self, alloc: Global, path: &str) -> io::Result<Vec<FileName>> {
        let mut names = Vec::new(alloc);
        for entry in fs::read_dir(self, path)? {
            let entry = entry?;
            if let Some(name) = FileName::new(entry.file_name().as_bytes())
                && entry.file_type()?.is_file()
            {
                names.push(name)?;
            }
        }
        Ok(names)
    }

    fn write_piece(&mut self, file: &File, at: u64, piece: &[u8]) -> io::Result<()> {
        file.write_all_at(piece, at)
    }

    fn cut(&mut self, file: &File, to: u64) -> io::Result<()> {
        file.set_len(to)
    }

    fn settle_data(&mut self, file: &File) -> io::Result<()> {
        file.sync_data()
    }

    fn settle_all(&mut self, file: &File) -> io::Result<()> {
        file.sync_all()
    }
}
