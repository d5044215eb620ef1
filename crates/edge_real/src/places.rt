//! Where a name leads in the file system.

use crate::file_fault::Reason;
use std::alloc::{AllocError, Global};
use std::fs::{File, Metadata, OpenFile};
use std::io;
use std::io::ErrorKind;
use std::os::unix::fs::MetadataExt;
use std::rt::Files;

/// The most links that a name is followed through, as the system does.
const MOST_LINKS: u32 = 40;

/// The folder of a name, and its last part.
fn parts_of(name: &str) -> (&str, &str) {
    match name.rsplit_once('/') {
        None => (".", name),
        Some((folder, last)) => (if folder.is_empty() { "/" } else { folder }, last),
    }
}

/// The name of the file that is written first where this one is to be replaced.
pub(crate) fn part_of(alloc: Global, name: &str) -> Result<String, AllocError> {
    format!(in alloc; "{name}.part")
}

/// The name of the file to which a name leads through all links, whether it is there or not. None where what is there is no
/// file that could be replaced by another: a pipe, a device of the system, or what is open already. A folder is an error.
pub(crate) fn file_behind<R: Files>(
    alloc: Global,
    files: &R,
    name: &str,
) -> io::Result<Option<String>> {
    let mut found = String::from_str(alloc, name)?;
    for _ in 0..MOST_LINKS {
        if found.as_str().starts_with("/proc/") || found.as_str().starts_with("/dev/fd/") {
            return Ok(None);
        }
        match link_of(alloc, files, found.as_str())? {
            Some(next) => found = next,
            None => return if_file(files, found),
        }
    }
    Err(io::Error::from(ErrorKind::FilesystemLoop))
}

/// Where a link leads, if the name is that of one.
fn link_of<R: Files>(alloc: Global, files: &R, name: &str) -> io::Result<Option<String>> {
    match files.symlink_metadata(name) {
        Ok(known) if known.is_symlink() => {
            let text = files.read_link(alloc, name)?;
            Ok(Some(beside(alloc, name, text.as_str())?))
        }
        Ok(_) => Ok(None),
        Err(error) if error.kind() == ErrorKind::NotFound => Ok(None),
        Err(error) => Err(error),
    }
}

/// What the text of a link means that stands beside a file.
fn beside(alloc: Global, name: &str, text: &str) -> Result<String, AllocError> {
    if text.starts_with('/') {
        return String::from_str(alloc, text);
    }
    let (folder, _last) = parts_of(name);
    format!(in alloc; "{folder}/{text}")
}

/// The name, if nothing is there or a file that could be replaced.
fn if_file<R: Files>(files: &R, name: String) -> io::Result<Option<String>> {
    match files.metadata(name.as_str()) {
        Ok(known) if known.is_dir() => Err(io::Error::from(ErrorKind::IsADirectory)),
        Ok(known) if !known.is_file() => Ok(None),
        Ok(_) => Ok(Some(name)),
        Err(error) if error.kind() == ErrorKind::NotFound => Ok(Some(name)),
        Err(error) => Err(error),
    }
}

/// Whether what is known is known of one and the same.
fn is_same(one: &Metadata, other: &Metadata) -> bool {
    one.dev() == other.dev() && one.ino() == other.ino()
}

/// Whether two names are those of one file, or where neither file is there would be.
pub(crate) fn are_one<R: Files>(files: &R, one: &str, other: &str) -> bool {
    match (files.metadata(one), files.metadata(other)) {
        (Ok(first), Ok(second)) => first.is_file() && is_same(&first, &second),
        (Err(_), Err(_)) => would_be_one(files, one, other),
        _ => false,
    }
}

/// Whether two names would be those of one file: by their text, or by their folder and their last part.
fn would_be_one<R: Files>(files: &R, one: &str, other: &str) -> bool {
    if one == other {
        return true;
    }
    let ((one_folder, one_last), (other_folder, other_last)) = (parts_of(one), parts_of(other));
    match (files.metadata(one_folder), files.metadata(other_folder)) {
        (Ok(first), Ok(second)) => one_last == other_last && is_same(&first, &second),
        _ => false,
    }
}

/// Whether a file that is open still stands under its name, and not behind a link there.
pub(crate) fn stands_at<R: Files>(files: &R, name: &str, file: &R::File) -> bool {
    match (files.symlink_metadata(name), file.metadata()) {
        (Ok(there), Ok(open)) => is_same(&there, &open),
        _ => false,
    }
}

/// The folder of a file, opened so that it can be brought to the disk.
pub(crate) fn folder_of<R: Files>(files: &R, name: &str) -> Result<R::File, Reason> {
    let (folder, _last) = parts_of(name);
    match File::open(files, folder) {
        Ok(folder) => Ok(folder),
        Err(error) if error.kind() == ErrorKind::PermissionDenied => Err(Reason::FolderNotRead),
        Err(error) => Err(Reason::from(error)),
    }
}

/// Brings a folder to the disk, where its file system can.
pub(crate) fn keep_folder<F: OpenFile>(folder: &F) -> Result<(), Reason> {
    match folder.sync_all() {
        Ok(()) => Ok(()),
        Err(error) => match error.kind() {
            ErrorKind::InvalidInput | ErrorKind::Unsupported => Ok(()),
            _ => Err(Reason::from(error)),
        },
    }
}
