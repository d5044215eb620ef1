//! A file as a flash device.

ghost use Rattle.std.specs.Prelude.{◌≡◌, ◌≤◌, ◌+◌, ◌*◌, IsTrue, IsOk, ◌↔◌, IfOk, None, option_map, true, false, [], vec_len};
ghost use Rattle.ghost_model.specs.core.Causes.{HasCause};
ghost use Rattle.edge_traits.specs.Devices.{next, since_call, is_made, made_before};
ghost use Rattle.edge_traits.specs.Marks.{is_marked};

use crate::file_fault::{Deed, FileFault, Reason, fault_of};
use crate::file_name::FileName;
use crate::lock::Lock;
use crate::places::{file_behind, folder_of, keep_folder, stands_at};
use edge_traits::flash::{AttachFault, FIRST_DEEP_PAGE, Flash};
use edge_traits::{Failed, counting, marks};
use std::alloc::Global;
use std::fs::{OpenFile, OpenOptions, Permissions};
use std::os::unix::fs::{FileExt, MetadataExt, OpenOptionsExt, PermissionsExt};
use std::rt::Files;

/// The bytes of a block.
const BLOCK_BYTES: u64 = 131_072;

/// A block of blank pages.
const BLANK_BLOCK: [u8; 131_072] = [0xFF; 131_072];

/// A blank page.
const BLANK_PAGE: [u8; 2048] = [0xFF; 2048];

/// How a device begins that was loaded.
const MAGIC: [u8; 7] = *b"GHOSTDB";

/// Before the write of each page below this one, all that was written before is brought to the disk.
const FIRST_WRITTEN_FREELY: u32 = 256;

/// The most blocks of a device.
const MOST_BLOCKS: u64 = 60_000_000;

/// A file of whole blocks, named by its path as given.
///
/// A page is read or written by one call of the system at its place in the file, and none is kept in memory; a block is
/// blanked by one write. Before a page of the first four blocks is written, all that was written before is brought to the disk,
/// and before the write of page 0 answers, that page, and the folder in which the file was made.
///
/// The device has its file alone while it is open: until it makes or attaches another, or ends. A file that another has is
/// neither read nor written, and one that is no device is not made one.
#[derive(Drop)]
pub struct FileFlash<R, F> {
    files: R,
    file: Option<F>,
    folder: Option<F>,
    name: Option<Vec<u8>>,
    called: FileName,
    first: Option<FileFault>,
    marks: Vec<u64>,
    calls: u64,
    deep_reads: u64,
    faults: u64,
    since_fault: u64,
    ghost small: { vec_len marks ≤ 60000000 },
}

/// A file that was made a device, and its folder.
#[derive(Drop)]
struct Made<F> {
    file: F,
    folder: F,
}

/// A file that was opened, and its number of blocks.
#[derive(Drop)]
struct Opened<F> {
    file: F,
    blocks: u32,
}

impl<R: Files + Drop> FileFlash<R, R::File> {
    /// A device over the files that `files` reaches. It has no page before it is made or attached.
    pub fn new(alloc: Global, files: R) -> FileFlash<R, R::File>
        ensures closed { result.name ≡ None }
        ensures no_page { vec_len result.marks ≡ 0 }
        ensures no_call { result.calls ≡ 0 }
        ensures no_deep_read { result.deep_reads ≡ 0 }
        ensures no_fault { result.faults ≡ 0 }
        ensures since_fault { result.since_fault ≡ 0 }
    {
        FileFlash {
            files,
            file: None,
            folder: None,
            name: None,
            called: FileName::of(""),
            first: None,
            marks: Vec::new(alloc),
            calls: 0,
            deep_reads: 0,
            faults: 0,
            since_fault: 0,
        }
    }

    /// Lets go of the file, so that there is no page.
    fn close(&mut self)
        ensures name { self.new.name ≡ None }
        ensures marks { vec_len self.new.marks ≡ 0 }
        ensures calls { self.new.calls ≡ self.old.calls }
        ensures deep_reads { self.new.deep_reads ≡ self.old.deep_reads }
        ensures faults { self.new.faults ≡ self.old.faults }
        ensures since_fault { self.new.since_fault ≡ self.old.since_fault }
    {
        self.file = None;
        self.folder = None;
        self.name = None;
        self.marks.clear();
    }

    /// The first call that failed, if one did.
    pub fn first_fault(&self) -> Option<FileFault> {
        self.first
    }

    /// Keeps what failed, where it is the first.
    fn note(&mut self, fault: &FileFault)
        ensures name { self.new.name ≡ self.old.name }
        ensures marks { self.new.marks ≡ self.old.marks }
        ensures calls { self.new.calls ≡ self.old.calls }
        ensures deep_reads { self.new.deep_reads ≡ self.old.deep_reads }
        ensures faults { self.new.faults ≡ self.old.faults }
        ensures since_fault { self.new.since_fault ≡ self.old.since_fault }
    {
        if self.first.is_none() {
            self.first = Some(*fault);
        }
    }

    /// Keeps why the file of a name is no device, or was not made one.
    fn note_opening(&mut self, deed: Deed, name: &str, reason: Reason)
        ensures name { self.new.name ≡ self.old.name }
        ensures marks { self.new.marks ≡ self.old.marks }
        ensures calls { self.new.calls ≡ self.old.calls }
        ensures deep_reads { self.new.deep_reads ≡ self.old.deep_reads }
        ensures faults { self.new.faults ≡ self.old.faults }
        ensures since_fault { self.new.since_fault ≡ self.old.since_fault }
    {
        let fault = fault_of(&self.files, deed, name, reason);
        self.note(&fault);
    }

    /// Counts a call on a page or a block by how it went, and keeps why it failed.
    fn end(&mut self, deed: Deed, went: Result<(), Reason>) -> Result<(), Failed>
        ensures answer { IsOk result ↔ IsOk went }
        ensures calls { self.new.calls ≡ next self.old.calls }
        ensures calls_rise { self.old.calls ≤ self.new.calls }
        ensures cause { HasCause self.old.faults self.new.faults result }
        ensures one_fault { self.new.faults ≤ self.old.faults + 1 }
        ensures since_fault { self.new.since_fault ≡ since_call self.old.since_fault result }
        ensures deep_reads { self.new.deep_reads ≡ self.old.deep_reads }
        ensures name { self.new.name ≡ self.old.name }
        ensures marks { self.new.marks ≡ self.old.marks }
    {
        if let Err(reason) = went {
            let name = self.called;
            self.note(&FileFault { deed, name, reason });
            return self.count(false);
        }
        self.count(true)
    }

    /// Counts a call by how it went.
    fn count(&mut self, went_well: bool) -> Result<(), Failed>
        ensures answer { IsOk result ↔ IsTrue went_well }
        ensures calls { self.new.calls ≡ next self.old.calls }
        ensures calls_rise { self.old.calls ≤ self.new.calls }
        ensures cause { HasCause self.old.faults self.new.faults result }
        ensures one_fault { self.new.faults ≤ self.old.faults + 1 }
        ensures since_fault { self.new.since_fault ≡ since_call self.old.since_fault result }
        ensures deep_reads { self.new.deep_reads ≡ self.old.deep_reads }
        ensures name { self.new.name ≡ self.old.name }
        ensures marks { self.new.marks ≡ self.old.marks }
    {
        self.calls = counting::one_more(self.calls);
        if went_well {
            self.since_fault = counting::one_more(self.since_fault);
            return Ok(());
        }
        self.since_fault = 0;
        self.faults = self.faults.saturating_add(1);
        Err(Failed)
    }
}

/// Blanks so many blocks from the beginning of a file.
fn blank_blocks<F: FileExt>(file: &F, blocks: u32) -> Result<(), Reason> {
    for block in 0..blocks {
        blank_block(file, block)?;
    }
    Ok(())
}

/// Blanks a block.
fn blank_block<F: FileExt>(file: &F, block: u32) -> Result<(), Reason> {
    file.write_all_at(&BLANK_BLOCK, u64::from(block) * BLOCK_BYTES)?;
    Ok(())
}

/// Reads a page.
fn read<F: FileExt>(file: &F, page: u32, buf: &mut [u8; 2048]) -> Result<(), Reason> {
    file.read_exact_at(buf, u64::from(page) * 2048)?;
    Ok(())
}

/// Writes a page, and brings to the disk what is to be there before and behind it.
fn write<F: FileExt + OpenFile>(
    file: &F,
    folder: &Option<F>,
    page: u32,
    bytes: &[u8; 2048],
) -> Result<(), Reason> {
    if page < FIRST_WRITTEN_FREELY {
        file.sync_data()?;
    }
    file.write_all_at(bytes, u64::from(page) * 2048)?;
    if page == 0 {
        file.sync_all()?;
        if let Some(folder) = folder {
            keep_folder(folder)?;
        }
    }
    Ok(())
}

/// A file of so many blank blocks, new or in place of an older device.
fn create<R: Files>(
    alloc: Global,
    files: &R,
    name: &str,
    blocks: u32,
) -> Result<Made<R::File>, Reason>
where
    R::File: FileExt + Lock,
{
    let Some(found) = file_behind(alloc, files, name)? else {
        return Err(Reason::NoFile);
    };
    let file = OpenOptions::new()
        .read(true)
        .write(true)
        .create(true)
        .mode(0o600)
        .open(files, found.as_str())?;
    file.take_alone()?;
    if !stands_at(files, found.as_str(), &file) {
        return Err(Reason::InUse);
    }
    look(&file)?;
    let folder = folder_of(files, found.as_str())?;
    hide(&file)?;
    file.set_len(0)?;
    blank_blocks(&file, blocks)?;
    Ok(Made { file, folder })
}

/// Looks whether a file may be made a device: one that is empty, is blank as far as a page goes, or is a device.
fn look<F: FileExt + OpenFile>(file: &F) -> Result<(), Reason> {
    let bytes = file.metadata()?.len();
    let mut page = [0; 2048];
    let head = &mut page[..bytes.min(2048) as usize];
    file.read_exact_at(head, 0)?;
    let is_blank = BLANK_PAGE.starts_with(head);
    let is_device = bytes % BLOCK_BYTES == 0 && head.starts_with(&MAGIC);
    if is_blank || is_device {
        Ok(())
    } else {
        Err(Reason::NoDevice(bytes))
    }
}

/// Makes a file readable by its owner alone.
fn hide<F: OpenFile>(file: &F) -> Result<(), Reason> {
    let others_may = file.metadata()?.mode() & 0o077 != 0;
    match file.set_permissions(Permissions::from_mode(0o600)) {
        Err(_) if others_may => Err(Reason::NotOurs),
        _ => Ok(()),
    }
}

/// A file that is there, if it is of whole blocks.
fn open<R: Files>(files: &R, name: &str) -> Result<Opened<R::File>, Reason>
where
    R::File: Lock,
    ensures { IfOk result (λ opened. opened.blocks ≤ 60000000) }
{
    let file = OpenOptions::new().read(true).write(true).open(files, name)?;
    file.take_alone()?;
    let bytes = file.metadata()?.len();
    if bytes % BLOCK_BYTES != 0 || bytes / BLOCK_BYTES > MOST_BLOCKS {
        return Err(Reason::NoDevice(bytes));
    }
    let blocks = (bytes / BLOCK_BYTES) as u32;
    Ok(Opened { file, blocks })
}

impl<R: Files + Drop> Flash for FileFlash<R, R::File>
where
    R::File: FileExt + Lock,
{
    ghost told = { false };

    ghost state = { λ flash. record {
      name = option_map (λ name. name.items) flash.name;
      page_count = 64 * vec_len flash.marks;
      page = λ page. [];
      others = λ name page. [];
      blank = is_marked flash.marks.items;
      calls = flash.calls;
      deep_reads = flash.deep_reads;
      faults = flash.faults;
      since_fault = flash.since_fault;
      gave = λ at page bytes. is_made flash.calls at;
    } };

    ghost made = { λ flash at page bytes. made_before flash.calls at };

    fn make(&mut self, alloc: Global, name: &str, blocks: u32) -> Result<(), AttachFault> {
        self.close();
        self.called = FileName::of(name);
        let (Ok(path), Ok(marks)) = (name.as_bytes().to_vec(alloc), marks::all_set(alloc, blocks))
        else {
            self.count(true)?;
            return Err(AttachFault::NoMemory);
        };
        match create(alloc, &self.files, name, blocks) {
            Err(Reason::NoMemory) => {
                self.count(true)?;
                Err(AttachFault::NoMemory)
            }
            Err(reason) => {
                self.note_opening(Deed::Make, name, reason);
                self.count(false)?;
                Err(AttachFault::Failed)
            }
            Ok(made) => {
                self.count(true)?;
                self.file = Some(made.file);
                self.folder = Some(made.folder);
                self.name = Some(path);
                self.marks = marks;
                Ok(())
            }
        }
    }

    fn attach(&mut self, alloc: Global, name: &str) -> Result<u32, AttachFault> {
        self.close();
        self.called = FileName::of(name);
        match open(&self.files, name) {
            Err(reason) => {
                self.note_opening(Deed::Open, name, reason);
                self.count(false)?;
                Err(AttachFault::Failed)
            }
            Ok(opened) => {
                self.count(true)?;
                let path = name.as_bytes().to_vec(alloc)?;
                self.marks = marks::all_clear(alloc, opened.blocks)?;
                self.name = Some(path);
                self.file = Some(opened.file);
                Ok(64 * opened.blocks)
            }
        }
    }

    fn read_page(&mut self, page: u32, buf: &mut [u8; 2048]) -> Result<(), Failed> {
        self.deep_reads = counting::one_more_if(page >= FIRST_DEEP_PAGE, self.deep_reads);
        let went = match &self.file {
            Some(file) => read(file, page, buf),
            None => Err(Reason::NotThere),
        };
        self.end(Deed::Read, went)
    }

    fn write_page(&mut self, page: u32, bytes: &[u8; 2048]) -> Result<(), Failed> {
        marks::clear(&mut self.marks, page);
        let went = match &self.file {
            Some(file) => write(file, &self.folder, page, bytes),
            None => Err(Reason::NotThere),
        };
        self.end(Deed::Write, went)
    }

    fn erase_block(&mut self, block: u32) -> Result<(), Failed> {
        let went = match &self.file {
            Some(file) => blank_block(file, block),
            None => Err(Reason::NotThere),
        };
        if went.is_ok() {
            marks::set_block(&mut self.marks, block);
        } else {
            marks::clear_block(&mut self.marks, block);
        }
        self.end(Deed::Write, went)
    }

    fn pages(&self) -> u32 {
        64 * self.marks.len() as u32
    }
}
