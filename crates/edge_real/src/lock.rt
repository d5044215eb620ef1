//! A lock by which a file serves one device alone.

use crate::file_fault::Reason;
use std::fs::{File, TryLockError};

/// A file that one open of it at a time can have to itself, among all that ask, until it is closed.
pub trait Lock {
    /// Takes the file, and does not wait for it.
    fn take_alone(&self) -> Result<(), Reason>;
}

impl Lock for File {
    fn take_alone(&self) -> Result<(), Reason> {
        match self.try_lock() {
            Ok(()) => Ok(()),
            Err(TryLockError::WouldBlock) => Err(Reason::InUse),
            Err(TryLockError::Error(_)) => Err(Reason::NoLocks),
        }
    }
}
