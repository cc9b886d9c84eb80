//! What a file in memory has, for the store that is open over it and for those that are opened later.

ghost use Rattle.std.specs.Prelude.{◌≡◌, length, OnOk};

use std::alloc::{AllocError, Global};
use std::cell::RefCell;

/// The contents of a file: those that a read returns, and those that a power cut leaves.
#[derive(Drop)]
pub(crate) struct Contents {
    seen: RefCell<Vec<u8>>,
    synced: RefCell<Vec<u8>>,
}

/// Makes a vector `len` bytes long.
fn resized(file: &mut Vec<u8>, len: usize) -> Result<(), AllocError>
    ensures { OnOk result (length file.new.items ≡ len) }
{
    file.resize(len, 0)
}

/// Writes bytes into a vector.
fn overwrite(file: &mut Vec<u8>, at: usize, bytes: &[u8]) -> Result<(), AllocError> {
    let end = at.checked_add(bytes.len()).ok_or(AllocError)?;
    if end > file.len() {
        resized(file, end)?;
    }
    file[at..end].copy_from_slice(bytes);
    Ok(())
}

/// Replaces what one cell has by what the other has.
fn copied(from: &RefCell<Vec<u8>>, to: &RefCell<Vec<u8>>) -> Result<(), AllocError> {
    let Ok(bytes) = from.try_borrow() else {
        return Err(AllocError);
    };
    let Ok(mut file) = to.try_borrow_mut() else {
        return Err(AllocError);
    };
    file.clear();
    file.extend_from_slice(&bytes)
}

impl Contents {
    /// Returns the contents of a file that is empty.
    pub(crate) fn new(alloc: Global) -> Contents {
        Contents {
            seen: RefCell::new(Vec::new(alloc)),
            synced: RefCell::new(Vec::new(alloc)),
        }
    }

    /// Takes what a read of another file returns, as synced.
    ///
    /// Errors: lack of memory.
    pub(crate) fn take(&self, other: &Contents) -> Result<(), AllocError> {
        copied(&other.seen, &self.seen)?;
        copied(&other.seen, &self.synced)
    }

    /// Writes bytes.
    ///
    /// Errors: lack of memory.
    pub(crate) fn write(&self, at: usize, bytes: &[u8]) -> Result<(), AllocError> {
        match self.seen.try_borrow_mut() {
            Ok(mut file) => overwrite(&mut file, at, bytes),
            Err(_) => Err(AllocError),
        }
    }

    /// Changes the length.
    ///
    /// Errors: lack of memory.
    pub(crate) fn resize(&self, len: usize) -> Result<(), AllocError> {
        match self.seen.try_borrow_mut() {
            Ok(mut file) => resized(&mut file, len),
            Err(_) => Err(AllocError),
        }
    }

    /// Syncs the file.
    ///
    /// Errors: lack of memory.
    pub(crate) fn sync(&self) -> Result<(), AllocError> {
        copied(&self.seen, &self.synced)
    }

    /// Loses what was not synced.
    ///
    /// Errors: lack of memory.
    pub(crate) fn lose(&self) -> Result<(), AllocError> {
        copied(&self.synced, &self.seen)
    }

    /// Returns whether a power cut leaves what a read returns.
    pub(crate) fn is_synced(&self) -> bool {
        match (self.seen.try_borrow(), self.synced.try_borrow()) {
            (Ok(seen), Ok(synced)) => seen.as_slice() == synced.as_slice(),
            _ => false,
        }
    }

    /// Returns the cell of what a process that dies leaves, or of what a power cut does.
    pub(crate) fn left(&self, by_power_cut: bool) -> &RefCell<Vec<u8>> {
        if by_power_cut {
            &self.synced
        } else {
            &self.seen
        }
    }
}
