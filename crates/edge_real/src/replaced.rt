//! Which files a command is to replace, so that it replaces none that it reads, and none twice.

use crate::file_fault::{Deed, FileFault, Reason, fault_of};
use crate::lock::Lock;
use crate::places::{are_one, file_behind, part_of};
use crate::whole_file::try_to_replace;
use std::alloc::Global;
use std::fmt::{Display, Error as FormatError, Formatter, Write};
use std::io::ErrorKind;
use std::rt::Files;

/// The files that a command is to replace, by the names that it is given. An empty name stands for none.
#[derive(Clone, Copy)]
pub struct Replaced<'a> {
    /// The device's file.
    pub flash: &'a str,

    /// The host's file.
    pub visible: &'a str,

    /// The journal's file.
    pub journal: &'a str,

    /// The file of an older device, which is none of these: it is read and stays.
    pub old_flash: &'a str,
}

/// The option by which a command is given the name of a file that it is to replace.
#[derive(Clone, Copy, Drop)]
pub enum GivenBy {
    /// The device's file.
    Flash,

    /// The host's file.
    Visible,

    /// The journal's file.
    Journal,

    /// The file of a device that is made beside an older one.
    NewFlash,

    /// The host's file that is made beside an older one.
    NewVisible,
}

impl Display for GivenBy {
    fn fmt<W: Write>(&self, f: &mut Formatter<W>) -> Result<(), FormatError> {
        f.write_str(match self {
            GivenBy::Flash => "--flash",
            GivenBy::Visible => "--visible",
            GivenBy::Journal => "--journal",
            GivenBy::NewFlash => "--to-flash",
            GivenBy::NewVisible => "--to-visible",
        })
    }
}

/// No file is to be replaced.
pub const NONE_REPLACED: Replaced<'static> = Replaced {
    flash: "",
    visible: "",
    journal: "",
    old_flash: "",
};

impl<'a> Replaced<'a> {
    /// Tries whether each file could be replaced, and whether none of them is another one of them or the older device.
    pub(crate) fn try_all<R: Files>(&self, alloc: Global, files: &R) -> Result<(), FileFault>
    where
        R::File: Lock,
    {
        self.try_once(alloc, files)?;
        for name in [self.visible, self.journal] {
            if !name.is_empty() {
                if let Err(reason) = try_to_replace(alloc, files, name) {
                    return Err(fault_of(files, Deed::Write, name, reason));
                }
            }
        }
        Ok(())
    }

    /// Tries whether none of the files is another one of them or the older device.
    pub(crate) fn try_once<R: Files>(&self, alloc: Global, files: &R) -> Result<(), FileFault> {
        let others = Replaced { flash: "", ..*self };
        let journal = Replaced {
            visible: "",
            ..others
        };
        let host = Replaced {
            journal: "",
            ..others
        };
        self.try_apart(alloc, files, Deed::Read, self.old_flash)?;
        others.try_apart(alloc, files, Deed::Write, self.flash)?;
        journal.try_apart(alloc, files, Deed::Write, self.visible)?;
        host.try_apart(alloc, files, Deed::Write, self.journal)
    }

    /// Tries whether a file that is to be read is none of those that are to be replaced, and not the older device.
    pub(crate) fn try_read<R: Files>(
        &self,
        alloc: Global,
        files: &R,
        name: &str,
    ) -> Result<(), FileFault> {
        self.try_apart(alloc, files, Deed::Read, name)?;
        if !self.old_flash.is_empty() && are_one(files, name, self.old_flash) {
            return Err(fault_of(files, Deed::Read, name, Reason::OldDevice));
        }
        Ok(())
    }

    /// Tries whether a file is none of those that are to be replaced, and is not written over while one of them is.
    fn try_apart<R: Files>(
        &self,
        alloc: Global,
        files: &R,
        deed: Deed,
        name: &str,
    ) -> Result<(), FileFault> {
        if name.is_empty() {
            return Ok(());
        }
        match self.over(alloc, files, name) {
            Ok(None) => Ok(()),
            Ok(Some(given)) => Err(fault_of(files, deed, name, Reason::WrittenOver(given))),
            Err(reason) => Err(fault_of(files, deed, name, reason)),
        }
    }

    /// The options that name the device's file and the host's.
    fn options(&self) -> (GivenBy, GivenBy) {
        if self.old_flash.is_empty() {
            (GivenBy::Flash, GivenBy::Visible)
        } else {
            (GivenBy::NewFlash, GivenBy::NewVisible)
        }
    }

    /// By which option a file would be written over, if by one.
    fn over<R: Files>(
        &self,
        alloc: Global,
        files: &R,
        name: &str,
    ) -> Result<Option<GivenBy>, Reason> {
        let (flash, visible) = self.options();
        let end = end_of(alloc, files, name)?;
        let name = end.as_deref().unwrap_or(name);
        if is_it(alloc, files, name, self.flash)? {
            return Ok(Some(flash));
        }
        for (given, other) in [(visible, self.visible), (GivenBy::Journal, self.journal)] {
            if is_over(alloc, files, name, other)? {
                return Ok(Some(given));
            }
        }
        Ok(None)
    }
}

/// Where a name leads that is that of a file, or of none yet.
fn end_of<R: Files>(alloc: Global, files: &R, name: &str) -> Result<Option<String>, Reason> {
    match file_behind(alloc, files, name) {
        Ok(found) => Ok(found),
        Err(error) if error.kind() == ErrorKind::OutOfMemory => Err(Reason::NoMemory),
        Err(_) => Ok(None),
    }
}

/// Whether a file is another one, through all links.
fn is_it<R: Files>(alloc: Global, files: &R, name: &str, other: &str) -> Result<bool, Reason> {
    if other.is_empty() {
        return Ok(false);
    }
    let end = end_of(alloc, files, other)?;
    Ok(are_one(files, name, end.as_deref().unwrap_or(other)))
}

/// Whether a file is another one, or the one that is written first where that is replaced. What cannot be replaced is neither.
fn is_over<R: Files>(alloc: Global, files: &R, name: &str, other: &str) -> Result<bool, Reason> {
    if is_it(alloc, files, name, other)? {
        return Ok(true);
    }
    if other.is_empty() {
        return Ok(false);
    }
    match end_of(alloc, files, other)? {
        Some(found) => Ok(are_one(files, name, part_of(alloc, found.as_str())?.as_str())),
        None => Ok(false),
    }
}
