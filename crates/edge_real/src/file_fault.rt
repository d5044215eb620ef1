//! The first fault of a depot over files, or of a device in one, to be told.

use crate::file_name::FileName;
use crate::replaced::GivenBy;
use std::alloc::AllocError;
use std::fmt::{Display, Error as FormatError, Formatter, Write};
use std::fs::{File, OpenOptions};
use std::io;
use std::io::ErrorKind;
use std::rt::Files;

/// Why a call on a file failed.
#[derive(Clone, Copy, Drop)]
pub enum Reason {
    /// There is no such file, or no such folder.
    NotThere,

    /// There is no such folder in which it could be written.
    NoFolder,

    /// It may not be read.
    NotReadable,

    /// It may be read and not written.
    NotWritable,

    /// Nothing may be written in its folder.
    FolderClosed,

    /// Its folder may not be read.
    FolderNotRead,

    /// Its folder may not be entered.
    FolderShut,

    /// Its file system may not be written.
    ReadOnly,

    /// It cannot be kept from other users.
    NotOurs,

    /// The system does not allow it.
    NotAllowed,

    /// It is a folder.
    Folder,

    /// It is a pipe or a device of the system.
    NoFile,

    /// It has so many bytes, and is no device of pages.
    NoDevice(u64),

    /// Another device has it.
    InUse,

    /// Another program writes what is to be put in its place.
    PartInUse,

    /// Its file system has no locks.
    NoLocks,

    /// The command is to write over it.
    WrittenOver(GivenBy),

    /// It is the older device that the command reads.
    OldDevice,

    /// There is no room.
    NoRoom,

    /// It is larger than the system allows.
    TooLarge,

    /// It ends before what was to be read.
    Ended,

    /// It can only be read from its beginning to its end.
    NotSeekable,

    /// There was no memory for its name.
    NoMemory,

    /// Another cause.
    Other,
}

impl From<io::Error> for Reason {
    fn from(error: io::Error) -> Reason {
        Reason::of(error.kind())
    }
}

impl From<AllocError> for Reason {
    fn from(_error: AllocError) -> Reason {
        Reason::NoMemory
    }
}

impl Reason {
    /// The reason that an error of this kind has.
    fn of(kind: ErrorKind) -> Reason {
        match kind {
            ErrorKind::NotFound | ErrorKind::NotADirectory => Reason::NotThere,
            ErrorKind::PermissionDenied => Reason::NotAllowed,
            ErrorKind::ReadOnlyFilesystem => Reason::ReadOnly,
            ErrorKind::IsADirectory => Reason::Folder,
            ErrorKind::StorageFull | ErrorKind::QuotaExceeded => Reason::NoRoom,
            ErrorKind::FileTooLarge => Reason::TooLarge,
            ErrorKind::UnexpectedEof => Reason::Ended,
            ErrorKind::NotSeekable => Reason::NotSeekable,
            ErrorKind::OutOfMemory => Reason::NoMemory,
            _ => Reason::Other,
        }
    }

    /// What is told of it behind the file's name, where this was to be done.
    fn text(&self, deed: Deed) -> &'static str {
        match self {
            Reason::NotThere => ": it is not there",
            Reason::NoFolder => ": its folder is not there",
            Reason::NotReadable => ": it may not be read; give the right to read it",
            Reason::NotWritable => match deed {
                Deed::Open =>
                    ": it may be read and not written, and a session writes in it; give the right to write it",
                _ => ": it may not be written; give the right to write it, or another name",
            },
            Reason::FolderClosed =>
                ": its folder may not be written in; give the right to, or another name",
            Reason::FolderNotRead =>
                ": its folder may not be read, so that it cannot be brought to the disk; give the right to read it",
            Reason::FolderShut => ": its folder may not be entered; give the right to",
            Reason::ReadOnly => ": its file system can only be read; give a name in another",
            Reason::NotOurs =>
                ": it cannot be made readable by its owner alone; give a name in another folder",
            Reason::NotAllowed => ": the system does not allow it",
            Reason::Folder => ": it is a folder",
            Reason::NoFile =>
                ": what stands there is a pipe or a device of the system, and no file; give another name",
            Reason::PartInUse => ": another program is writing it; wait until that has ended",
            Reason::NoLocks =>
                ": its file system has no locks, without which a device is not safe; give a name in another",
            Reason::OldDevice =>
                ": it is the device that --flash names; give --visible the host's file",
            Reason::NoRoom =>
                ": there is no room; make some, or give a name in another file system",
            Reason::TooLarge => ": it would be larger than the system allows",
            Reason::Ended => ": it is shorter than it was",
            Reason::NotSeekable => ": it can only be read from its beginning to its end",
            Reason::NoMemory => ": there is no memory for its name",
            _ => "",
        }
    }
}

/// What was to be done with a file.
#[derive(Clone, Copy, Drop)]
pub enum Deed {
    /// Its bytes were to be read.
    Read,

    /// It was to be written.
    Write,

    /// A device was to be made of it.
    Make,

    /// It was to be opened as a device.
    Open,
}

/// A call on a file that failed.
#[derive(Clone, Copy, Drop)]
pub struct FileFault {
    /// What was to be done.
    pub deed: Deed,

    /// The file's name.
    pub name: FileName,

    /// Why it failed.
    pub reason: Reason,
}

/// The fault of a file for which a reason was found, told more exactly where the file system says more.
pub(crate) fn fault_of<R: Files>(files: &R, deed: Deed, name: &str, reason: Reason) -> FileFault {
    let reason = match (reason, deed) {
        (Reason::NotThere, Deed::Write | Deed::Make) => Reason::NoFolder,
        (Reason::NotAllowed, _) => missing_right(files, deed, name),
        _ => reason,
    };
    let name = FileName::of(name);
    FileFault { deed, name, reason }
}

/// Which right is missing where the system does not allow this to be done.
fn missing_right<R: Files>(files: &R, deed: Deed, name: &str) -> Reason {
    match files.metadata(name) {
        Ok(_) => match deed {
            Deed::Read => Reason::NotReadable,
            Deed::Open => match File::open(files, name) {
                Ok(_) => Reason::NotWritable,
                Err(_) => Reason::NotReadable,
            },
            Deed::Write | Deed::Make => match OpenOptions::new().write(true).open(files, name) {
                Ok(_) => Reason::FolderClosed,
                Err(_) => Reason::NotWritable,
            },
        },
        Err(error) => match (error.kind(), deed) {
            (ErrorKind::NotFound, Deed::Write | Deed::Make) => Reason::FolderClosed,
            (ErrorKind::PermissionDenied, _) => Reason::FolderShut,
            _ => Reason::NotAllowed,
        },
    }
}

impl Display for FileFault {
    fn fmt<W: Write>(&self, f: &mut Formatter<W>) -> Result<(), FormatError> {
        let name = self.name;
        let deed = match self.deed {
            Deed::Read => "read",
            Deed::Write => "write",
            Deed::Make => "make",
            Deed::Open => "open",
        };
        match (self.reason, self.deed) {
            (Reason::InUse, _) => write!(
                f,
                "{name} is in use by another key_program: nothing was read or written; wait until that has ended"
            ),
            (Reason::WrittenOver(given), _) => {
                write!(
                    f,
                    "{name} would be written over by {given}: it stays; give {given} another name"
                )
            }
            (Reason::NoDevice(bytes), Deed::Make) => write!(
                f,
                "could not make {name}: a file of {bytes} bytes stands there that is no device, and stays; remove it, or give another name"
            ),
            (Reason::NoDevice(bytes), _) => write!(
                f,
                "could not {deed} {name}: it has {bytes} bytes, and is no device of whole blocks; give the name that key_program load was given"
            ),
            (reason, _) => write!(f, "could not {deed} {name}{}", reason.text(self.deed)),
        }
    }
}
