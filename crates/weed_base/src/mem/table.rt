ghost use Rattle.std.specs.Prelude.{◌≡◌, ◌≤◌, OnOk, OnErr, IfOk, replicate};
ghost use Rattle.std.specs.Option.{option_copied};
ghost use Rattle.std.specs.FinMap.{get, empty, insert, remove, keys, from_entries};
ghost use Rattle.std.specs.BTreeMap as tree;
ghost use Rattle.std.specs.Ordering.{nat_cmp};
ghost use Rattle.std.specs.Cmp.Lexicographic.{slice_cmp};
ghost use Rattle.weed_base.specs.Files.{IsThere, written, cut_to, made, removed, renamed};
ghost use Rattle.weed_base.specs.Images.{where_there};
ghost use Rattle.weed_base.specs.NamedBytes.{files_from};

use crate::bytes::Bytes;
use crate::file_name::FileName;
use crate::mem::file::MemFile;
use std::alloc::{AllocError, Global};
use std::collections::BTreeMap;
use std::marker::Model;

/// A file to put on a memory disk.
#[derive(Debug, Drop)]
pub struct NamedBytes {
    pub name: FileName,
    pub bytes: Bytes,
}

/// Named files in memory.
#[derive(Debug, Drop)]
pub(crate) struct FileTable {
    alloc: Global,
    files: BTreeMap<FileName, MemFile>,
}

impl Model for FileTable {
    ghost use Rattle.std.specs.Prelude.{List, ℕ};
    ghost use Rattle.std.specs.Coded.{coded_list, coded_ℕ};
    ghost use Rattle.std.specs.FinMap.{from_entries, code};
    ghost use Rattle.weed_base.specs.Files.{Files};

    ghost Value = { Files };

    ghost coded = { code (coded_list coded_ℕ) (coded_list coded_ℕ) };

    ghost view = { λ table. from_entries table.files.entries };
}

impl FileTable {
    pub(crate) fn new(alloc: Global) -> FileTable
        ensures { result ≡ empty }
    {
        FileTable {
            alloc,
            files: BTreeMap::new(alloc),
        }
    }

    /// Where it takes its memory.
    pub(crate) fn alloc(&self) -> Global {
        self.alloc
    }

    /// A table of these files. Of two with one name the first counts.
    pub(crate) fn of(alloc: Global, files: &[NamedBytes]) -> Result<FileTable, AllocError>
        ensures { IfOk result (λ table. table ≡ files_from files.now) }
    {
        let mut table = FileTable::new(alloc);
        let mut left = files.len();
        while left > 0 {
            left -= 1;
            table.insert_copy(&files[left])?;
        }
        Ok(table)
    }

    /// All of the files.
    pub(crate) fn entries(&self) -> Result<Vec<NamedBytes>, AllocError>
        ensures { IfOk result (λ files. files_from files.items ≡ self.now) }
    {
        copied_entries(self.alloc, &self.files)
    }

    fn insert_copy(&mut self, file: &NamedBytes) -> Result<(), AllocError>
        ensures { OnOk result (self.new ≡ insert self.old file.now.name file.now.bytes) }
    {
        self.insert(&file.name, MemFile::of(file.bytes.copy(self.alloc)?))
    }

    pub(crate) fn get(&self, name: &FileName) -> Option<&MemFile>
        ensures { option_copied result ≡ get self.now name.now }
    {
        self.files.get(name)
    }

    /// Puts a file there, in place of what has the name. Nothing changes where memory is lacking.
    pub(crate) fn insert(&mut self, name: &FileName, file: MemFile) -> Result<(), AllocError>
        ensures ok { OnOk result (self.new ≡ insert self.old name.now file) }
        ensures err { OnErr result (self.new ≡ self.old) }
    {
        self.files.insert(name.copy(), file)?;
        Ok(())
    }

    pub(crate) fn remove(&mut self, name: &FileName) -> Option<MemFile>
        ensures file { result ≡ get self.old name.now }
        ensures after { self.new ≡ remove self.old name.now }
    {
        self.files.remove(name)
    }

    /// Makes the file, there and empty. Nothing changes where memory is lacking.
    pub(crate) fn make(&mut self, name: &FileName) -> Result<(), AllocError>
        ensures ok { OnOk result (self.new ≡ made name.now self.old) }
        ensures err { OnErr result (self.new ≡ self.old) }
    {
        self.insert(name, MemFile::new(self.alloc))
    }

    /// Puts a file in place of one that is there.
    fn replace(&mut self, name: &FileName, file: MemFile)
        requires { IsThere name.now self.old }
        ensures { self.new ≡ insert self.old name.now file }
    {
        *self.files.get_mut(name).unwrap() = file;
    }

    /// Renames a file that is there. Nothing changes where memory is lacking, since the new name takes its
    /// memory first.
    pub(crate) fn rename(&mut self, from: &FileName, to: &FileName) -> Result<(), AllocError>
        requires { IsThere from.now self.old }
        ensures ok { OnOk result (self.new ≡ renamed from.now to.now self.old) }
        ensures err { OnErr result (self.new ≡ self.old) }
    {
        if from == to {
            return Ok(());
        }
        self.make(to)?;
        let file = self.remove(from).unwrap();
        self.replace(to, file);
        Ok(())
    }

    /// Writes into a file that is there. Nothing is written where memory is lacking.
    pub(crate) fn write(
        &mut self,
        name: &FileName,
        at: usize,
        piece: &[u8],
    ) -> Result<(), AllocError>
        requires { IsThere name.now self.old }
        ensures ok { OnOk result (self.new ≡ written name.now at piece.now self.old) }
        ensures err { OnErr result (self.new ≡ self.old) }
    {
        self.files.get_mut(name).unwrap().write(at, piece)
    }

    /// Cuts a file that is there.
    pub(crate) fn cut(&mut self, name: &FileName, to: usize)
        requires { IsThere name.now self.old }
        ensures { self.new ≡ cut_to name.now to self.old }
    {
        self.files.get_mut(name).unwrap().cut(to);
    }

    /// Writes where the file is there. Nothing is written where memory is lacking.
    pub(crate) fn write_there(
        &mut self,
        name: &FileName,
        at: usize,
        piece: &[u8],
    ) -> Result<(), AllocError>
        ensures ok { OnOk result (self.new ≡ where_there name.now (written name.now at piece.now) self.old) }
        ensures err { OnErr result (self.new ≡ self.old) }
    {
        if self.get(name).is_none() {
            return Ok(());
        }
        self.write(name, at, piece)
    }

    /// Writes so many of one byte where the file is there.
    pub(crate) fn write_byte(
        &mut self,
        name: &FileName,
        at: usize,
        count: usize,
        byte: u8,
    ) -> Result<(), AllocError>
        ensures { OnOk result (self.new ≡ where_there name.now (written name.now at (replicate count byte)) self.old) }
    {
        let piece = vec![in self.alloc; byte; count]?;
        self.write_there(name, at, piece.as_slice())
    }

    /// Cuts the file where it is there.
    pub(crate) fn cut_there(&mut self, name: &FileName, to: usize)
        ensures { self.new ≡ where_there name.now (cut_to name.now to) self.old }
    {
        if self.get(name).is_none() {
            return;
        }
        self.cut(name, to);
    }

    /// Renames the file where it is there. Nothing changes where memory is lacking.
    pub(crate) fn rename_there(&mut self, from: &FileName, to: &FileName) -> Result<(), AllocError>
        ensures ok { OnOk result (self.new ≡ where_there from.now (renamed from.now to.now) self.old) }
        ensures err { OnErr result (self.new ≡ self.old) }
    {
        if self.get(from).is_none() {
            return Ok(());
        }
        self.rename(from, to)
    }

    /// All names, in byte order.
    pub(crate) fn names(&self, alloc: Global) -> Result<Vec<FileName>, AllocError>
        ensures { IfOk result (λ names. names.items ≡ keys self.now) }
    {
        copied_names(alloc, &self.files)
    }
}

fn copied_entries(
    alloc: Global,
    files: &BTreeMap<FileName, MemFile>,
) -> Result<Vec<NamedBytes>, AllocError>
    ensures { IfOk result (λ copied. files_from copied.items ≡ from_entries files.now.entries) }
{
    let mut copied = Vec::with_capacity(alloc, files.len())?;
    for (name, file) in files.iter() {
        let bytes = Bytes::new(alloc, file.as_slice())?;
        copied.push(NamedBytes {
            name: name.copy(),
            bytes,
        })?;
    }
    Ok(copied)
}

fn copied_names(
    alloc: Global,
    files: &BTreeMap<FileName, MemFile>,
) -> Result<Vec<FileName>, AllocError>
    ensures names { IfOk result (λ names. names.items ≡ tree.keys files.now) }
    ensures ordered { tree.IsOrdered (slice_cmp nat_cmp) files.now }
{
    let mut names = Vec::with_capacity(alloc, files.len())?;
    for name in files.keys() {
        names.push(name.copy())?;
    }
    Ok(names)
}
