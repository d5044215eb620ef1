//! A file system on which nothing can be written, for one cause.

use std::alloc::Allocator;
use std::fs::{Metadata, OpenOptions};
use std::io;
use std::io::ErrorKind;
use std::rt::Files;

/// Files of which none can be opened to be written, for this cause.
#[derive(Drop)]
pub(crate) struct NoWrites<R> {
    /// The files.
    pub(crate) files: R,

    /// The cause.
    pub(crate) kind: ErrorKind,
}

impl<R: Files> Files for NoWrites<R> {
    type File = R::File;

    type Dir = R::Dir;

    fn open_file(&self, how: &OpenOptions, path: &str) -> io::Result<R::File> {
        if how.asks_write() {
            return Err(io::Error::from(self.kind));
        }
        self.files.open_file(how, path)
    }

    fn open_dir(&self, path: &str) -> io::Result<R::Dir> {
        self.files.open_dir(path)
    }

    fn metadata(&self, path: &str) -> io::Result<Metadata> {
        self.files.metadata(path)
    }

    fn symlink_metadata(&self, path: &str) -> io::Result<Metadata> {
        self.files.symlink_metadata(path)
    }

    fn copy(&self, _from: &str, _to: &str) -> io::Result<u64> {
        Err(io::Error::from(self.kind))
    }

    fn rename(&self, _from: &str, _to: &str) -> io::Result<()> {
        Err(io::Error::from(self.kind))
    }

    fn remove_file(&self, _path: &str) -> io::Result<()> {
        Err(io::Error::from(self.kind))
    }

    fn create_dir(&self, _path: &str) -> io::Result<()> {
        Err(io::Error::from(self.kind))
    }

    fn remove_dir(&self, _path: &str) -> io::Result<()> {
        Err(io::Error::from(self.kind))
    }

    fn remove_dir_all<B: Allocator>(&self, _alloc: B, _path: &str) -> io::Result<()> {
        Err(io::Error::from(self.kind))
    }
}
