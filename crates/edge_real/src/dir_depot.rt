//! The file system as a depot.

ghost use Rattle.std.specs.Prelude.{◌≡◌, ◌≤◌, None, length, IfOk};
ghost use Rattle.ghost_model.specs.core.Causes.{Rose};

use crate::file_fault::{Deed, FileFault, Reason, fault_of};
use crate::file_name::FileName;
use crate::lock::Lock;
use crate::replaced::{NONE_REPLACED, Replaced};
use crate::whole_file;
use edge_traits::Failed;
use edge_traits::depot::Depot;
use std::alloc::Global;
use std::fs::{File, OpenOptions};
use std::io;
use std::io::{Read, Seek, SeekFrom, Write};
use std::rt::Files;

/// Files of the file system, named by their paths as given.
///
/// The file that was read last stays open. So a file is opened once while it is read from its beginning to its end, and one
/// that cannot be read at any other place, as a pipe, can be read so. A file is replaced as a whole.
///
/// It may be told which files the command is to replace, and which older device it reads. Then at the first call it is tried whether
/// they can be replaced, and whether all are different ones; and none of them is read here.
#[derive(Drop)]
pub struct DirDepot<'a, R: Files> {
    alloc: Global,
    files: R,
    replaced: Replaced<'a>,
    tried: bool,
    kept: Option<KeptFile<R::File>>,
    first: Option<FileFault>,
    faults: u64,
    append_faults: u64,
}

/// A file that is open, with its name and the place at which it stands.
#[derive(Drop)]
struct KeptFile<F> {
    file: F,
    name: FileName,
    at: u64,
}

impl<'a, R: Files + Drop> DirDepot<'a, R> {
    /// A depot over the files that `files` reaches.
    pub fn new(alloc: Global, files: R) -> DirDepot<'a, R>
        ensures faults { result.faults ≡ 0 }
        ensures append_faults { result.append_faults ≡ 0 }
    {
        DirDepot::replacing(alloc, files, NONE_REPLACED)
    }

    /// A depot over the files that `files` reaches, for a command that is to replace these.
    pub fn replacing(alloc: Global, files: R, replaced: Replaced<'a>) -> DirDepot<'a, R>
        ensures faults { result.faults ≡ 0 }
        ensures append_faults { result.append_faults ≡ 0 }
    {
        DirDepot {
            alloc,
            files,
            replaced,
            tried: false,
            kept: None,
            first: None,
            faults: 0,
            append_faults: 0,
        }
    }

    /// Keeps a file open in place of an older one, which is closed, or only closes that one.
    fn keep(&mut self, file: Option<KeptFile<R::File>>)
        ensures faults { self.new.faults ≡ self.old.faults }
        ensures append_faults { self.new.append_faults ≡ self.old.append_faults }
    {
        self.kept = file;
    }

    /// The first call that failed, if one did.
    pub fn first_fault(&self) -> Option<FileFault> {
        self.first
    }

    /// Keeps what failed, where it is the first.
    fn note(&mut self, fault: &FileFault)
        ensures faults { self.new.faults ≡ self.old.faults }
        ensures append_faults { self.new.append_faults ≡ self.old.append_faults }
    {
        if self.first.is_none() {
            self.first = Some(*fault);
        }
    }

    /// Counts a fault.
    fn fault(&mut self, fault: &FileFault) -> Failed
        ensures rose { Rose self.old.faults self.new.faults }
        ensures never_falls { self.old.faults ≤ self.new.faults }
        ensures append_faults { self.new.append_faults ≡ self.old.append_faults }
    {
        self.note(fault);
        self.faults = self.faults.saturating_add(1);
        Failed
    }

    /// Tries at the first call whether the files can be replaced that are to be.
    fn try_first(&mut self) -> Result<(), FileFault>
    where
        R::File: Lock,
        ensures faults { self.new.faults ≡ self.old.faults }
        ensures append_faults { self.new.append_faults ≡ self.old.append_faults }
    {
        if !self.tried {
            self.replaced.try_all(self.alloc, &self.files)?;
            self.tried = true;
        }
        Ok(())
    }

    /// Reads from a place of a file on.
    fn read(&mut self, name: &str, at: u64, buf: &mut [u8]) -> Result<usize, FileFault>
    where
        R::File: Lock,
        ensures within { IfOk result (λ count. count ≤ length buf.old) }
        ensures faults { self.new.faults ≡ self.old.faults }
        ensures append_faults { self.new.append_faults ≡ self.old.append_faults }
    {
        self.try_first()?;
        let kept = kept_of(self.kept.take(), name);
        if kept.is_none() {
            self.replaced.try_read(self.alloc, &self.files, name)?;
        }
        match read_by(&self.files, kept, name, at, buf) {
            Ok((file, count)) => {
                self.keep(Some(file));
                Ok(count)
            }
            Err(error) => Err(fault_of(&self.files, Deed::Read, name, Reason::from(error))),
        }
    }

    /// Makes the bytes the whole of a file.
    fn write_whole(&mut self, name: &str, bytes: &[u8]) -> Result<(), FileFault>
    where
        R::File: Lock,
        ensures faults { self.new.faults ≡ self.old.faults }
        ensures append_faults { self.new.append_faults ≡ self.old.append_faults }
    {
        self.try_first()?;
        self.keep(None);
        self.replaced.try_once(self.alloc, &self.files)?;
        match whole_file::replace(self.alloc, &self.files, name, bytes) {
            Ok(()) => Ok(()),
            Err(reason) => Err(fault_of(&self.files, Deed::Write, name, reason)),
        }
    }

    /// Adds the bytes at the end of a file.
    fn write_more(&mut self, name: &str, bytes: &[u8]) -> Result<(), FileFault>
    where
        R::File: Lock,
        ensures faults { self.new.faults ≡ self.old.faults }
        ensures append_faults { self.new.append_faults ≡ self.old.append_faults }
    {
        self.try_first()?;
        self.keep(None);
        match add(&self.files, name, bytes) {
            Ok(()) => Ok(()),
            Err(error) => Err(fault_of(&self.files, Deed::Write, name, Reason::from(error))),
        }
    }
}

/// The file that is kept, if it is that of this name.
fn kept_of<F: Drop>(kept: Option<KeptFile<F>>, name: &str) -> Option<KeptFile<F>> {
    let found = kept?;
    if found.name.is(name) {
        Some(found)
    } else {
        None
    }
}

/// The file of a name, opened anew.
fn opened<R: Files>(files: &R, name: &str) -> io::Result<KeptFile<R::File>> {
    let file = File::open(files, name)?;
    let name = FileName::of(name);
    Ok(KeptFile { file, name, at: 0 })
}

/// Brings a file to a place.
fn bring<F: Seek>(found: &mut KeptFile<F>, at: u64) -> io::Result<()> {
    if found.at != at {
        found.file.seek(SeekFrom::Start(at))?;
        found.at = at;
    }
    Ok(())
}

/// Reads from a place on.
fn read_from<F: Read + Seek>(found: &mut KeptFile<F>, at: u64, buf: &mut [u8]) -> io::Result<usize>
    ensures within { IfOk result (λ count. count ≤ length buf.old) }
{
    bring(found, at)?;
    let count = found.file.read(buf)?;
    found.at = found.at.saturating_add(count as u64);
    Ok(count)
}

/// Reads from a place of a file on, which is the one that is kept or is opened anew, and answers that file too.
fn read_by<R: Files>(
    files: &R,
    kept: Option<KeptFile<R::File>>,
    name: &str,
    at: u64,
    buf: &mut [u8],
) -> io::Result<(KeptFile<R::File>, usize)>
    ensures within { IfOk result (λ read. read.1 ≤ length buf.old) }
{
    let mut file = match kept {
        Some(kept) => kept,
        None => opened(files, name)?,
    };
    let count = read_from(&mut file, at, buf)?;
    Ok((file, count))
}

/// Adds the bytes at the end of a file, which is made where it is not there.
fn add<R: Files>(files: &R, name: &str, bytes: &[u8]) -> io::Result<()> {
    let mut file = OpenOptions::new()
        .append(true)
        .create(true)
        .open(files, name)?;
    file.write_all(bytes)
}

impl<'a, R: Files + Drop> Depot for DirDepot<'a, R>
where
    R::File: Lock,
{
    ghost contents = { λ depot. None };

    ghost faults = { λ depot. depot.faults };

    ghost append_faults = { λ depot. depot.append_faults };

    ghost sure = { λ depot. λ name. ⊥ };

    fn read_at(&mut self, name: &str, at: u64, buf: &mut [u8]) -> Result<usize, Failed> {
        match self.read(name, at, buf) {
            Ok(count) => Ok(count),
            Err(fault) => Err(self.fault(&fault)),
        }
    }

    fn replace(&mut self, name: &str, bytes: &[u8]) -> Result<(), Failed> {
        match self.write_whole(name, bytes) {
            Ok(()) => Ok(()),
            Err(fault) => Err(self.fault(&fault)),
        }
    }

    fn append(&mut self, name: &str, bytes: &[u8]) -> Result<(), Failed> {
        if let Err(fault) = self.write_more(name, bytes) {
            self.append_faults = self.append_faults.saturating_add(1);
            return Err(self.fault(&fault));
        }
        Ok(())
    }
}
