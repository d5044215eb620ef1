//! A file that is replaced as a whole.

use crate::file_fault::Reason;
use crate::lock::Lock;
use crate::places::{file_behind, folder_of, keep_folder, part_of, stands_at};
use std::alloc::Global;
use std::fs::{File, OpenFile, OpenOptions, Permissions};
use std::io;
use std::io::{ErrorKind, Write};
use std::os::unix::fs::PermissionsExt;
use std::rt::Files;

/// Makes the bytes the whole of a file.
///
/// A file is written beside the older one, as NAME.part, brought to the disk, and put in its place at once, with its mode.
/// So under the name stands the older one or this one, and never a part. Through a link the file is replaced to which it
/// leads. What is no regular file, as a pipe, is written as it is.
pub(crate) fn replace<R: Files>(
    alloc: Global,
    files: &R,
    name: &str,
    bytes: &[u8],
) -> Result<(), Reason>
where
    R::File: Lock,
{
    match file_behind(alloc, files, name)? {
        Some(found) => replace_file(alloc, files, found.as_str(), bytes),
        None => Ok(write_there(files, name, bytes)?),
    }
}

/// Tries whether a file could be replaced, which it is not.
pub(crate) fn try_to_replace<R: Files>(alloc: Global, files: &R, name: &str) -> Result<(), Reason>
where
    R::File: Lock,
{
    let Some(found) = file_behind(alloc, files, name)? else {
        return Ok(());
    };
    let _mode = mode_of(files, found.as_str())?;
    let _folder = folder_of(files, found.as_str())?;
    let part = part_of(alloc, found.as_str())?;
    let was_there = files.symlink_metadata(part.as_str()).is_ok();
    let _file = open_part(files, part.as_str())?;
    if !was_there {
        files.remove_file(part.as_str())?;
    }
    Ok(())
}

/// Writes what is no regular file.
fn write_there<R: Files>(files: &R, name: &str, bytes: &[u8]) -> io::Result<()> {
    let mut file = File::create(files, name)?;
    file.write_all(bytes)
}

/// Replaces a regular file, or makes it.
fn replace_file<R: Files>(alloc: Global, files: &R, name: &str, bytes: &[u8]) -> Result<(), Reason>
where
    R::File: Lock,
{
    let mode = mode_of(files, name)?;
    let folder = folder_of(files, name)?;
    let part = part_of(alloc, name)?;
    let mut file = open_part(files, part.as_str())?;
    if let Err(error) = fill(files, &mut file, part.as_str(), name, bytes, mode) {
        let _removed = files.remove_file(part.as_str());
        return Err(Reason::from(error));
    }
    keep_folder(&folder)
}

/// The mode of a file that is there, which may be written.
fn mode_of<R: Files>(files: &R, name: &str) -> io::Result<Option<u32>> {
    match OpenOptions::new().write(true).open(files, name) {
        Ok(file) => Ok(Some(file.metadata()?.permissions().mode() & 0o7777)),
        Err(error) if error.kind() == ErrorKind::NotFound => Ok(None),
        Err(error) => Err(error),
    }
}

/// Opens the file that is written first, alone, as it is.
fn open_part<R: Files>(files: &R, part: &str) -> Result<R::File, Reason>
where
    R::File: Lock,
{
    let file = OpenOptions::new()
        .write(true)
        .create(true)
        .open(files, part)?;
    match file.take_alone() {
        Ok(()) if stands_at(files, part, &file) => Ok(file),
        Ok(()) | Err(Reason::InUse) => Err(Reason::PartInUse),
        Err(reason) => Err(reason),
    }
}

/// Writes the whole of a file, gives it its mode, brings it to the disk and puts it in its place.
fn fill<R: Files>(
    files: &R,
    file: &mut R::File,
    part: &str,
    name: &str,
    bytes: &[u8],
    mode: Option<u32>,
) -> io::Result<()> {
    file.set_len(0)?;
    if let Some(mode) = mode {
        if file.metadata()?.permissions().mode() & 0o7777 != mode {
            file.set_permissions(Permissions::from_mode(mode))?;
        }
    }
    file.write_all(bytes)?;
    file.sync_all()?;
    files.rename(part, name)
}
