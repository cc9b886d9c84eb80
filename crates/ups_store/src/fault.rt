//! The errors of a store.

use sqlite_trees::error::StoreError;
use std::alloc::AllocError;
use thiserror::Error;

/// Why requests could not be read from an open store, or added to it.
#[derive(Clone, Copy, Debug, PartialEq, Eq, Error)]
pub enum StoreFault {
    /// Memory ran out.
    #[error("out of memory")]
    Memory,
    /// The disk failed.
    #[error("the store could not be read or written: the disk failed")]
    Disk,
    /// A page of the file is not what was written.
    #[error("the store is damaged: its file is not what was written")]
    Damaged,
    /// The disk or the file has no room.
    #[error("the store could not be written: no room on the disk")]
    Full,
    /// An earlier error has shut the store, and only reopening repairs it.
    #[error("the store was shut by an earlier failure, and has to be opened again")]
    Shut,
    /// The row of a request or run would be too large for the file: a billion bytes or more.
    #[error("a request is too large for the store")]
    TooLarge,
    /// There would be 2^63 requests or runs, or more.
    #[error("the store has too many requests")]
    TooMany,
    /// A row is not a request with its position as its number.
    #[error("the store is damaged: a row is no request, or has the number of another one")]
    NotRequest,
    /// The row of the last run counts more requests than there are.
    #[error("the store has fewer requests than its last run counted: some are lost")]
    Short,
}

impl From<StoreError> for StoreFault {
    ghost use Rattle.std.specs.Prelude.{◌≡◌};
    ghost use Rattle.ups_store.specs.Faults.{store_fault_of};

    ghost from_gives = { λ error fault. fault ≡ store_fault_of error };

    fn from(error: StoreError) -> StoreFault {
        match error {
            StoreError::OutOfMemory => StoreFault::Memory,
            StoreError::Io => StoreFault::Disk,
            StoreError::Corrupt => StoreFault::Damaged,
            StoreError::Full => StoreFault::Full,
            StoreError::Broken => StoreFault::Shut,
            StoreError::Unstorable => StoreFault::TooLarge,
        }
    }
}

impl From<AllocError> for StoreFault {
    ghost use Rattle.std.specs.Prelude.{◌≡◌};
    ghost use Rattle.ups_store.specs.declared.fault.StoreFault.TheVariants.{Memory};

    ghost from_gives = { λ _ fault. fault ≡ Memory };

    fn from(_error: AllocError) -> StoreFault {
        StoreFault::Memory
    }
}

/// Why a store was not opened.
#[derive(Clone, Copy, Debug, PartialEq, Eq, Error)]
pub enum OpenFault {
    /// Memory ran out.
    #[error("out of memory")]
    Memory,
    /// Another process has the file open.
    #[error("the store is held by another process")]
    Busy,
    /// The system cannot open or create the file.
    #[error("the store can't be opened or made: no such folder, no leave, or something else has its name")]
    Unopened,
    /// The disk failed.
    #[error("the store could not be read or written: the disk failed")]
    Disk,
    /// The disk has no room.
    #[error("the store could not be written: no room on the disk")]
    Full,
    /// A limit of the file format was reached.
    #[error("the store is at a limit of its file format")]
    AtLimit,
    /// The file is not what was written.
    #[error("the store is damaged: its file is not what was written")]
    Damaged,
    /// The file is something else.
    #[error("the file is no store of requests")]
    NotStore,
    /// There is no file, or it is blank.
    #[error("the file is missing or blank: upsd init makes a store")]
    Missing,
    /// The file is blank, but its log has commits.
    #[error("the file is blank, but the log next to it has requests: the file was emptied or replaced")]
    LogAlone,
    /// A store was to be made, but the file is not blank.
    #[error("the file is not blank: a store is made only where there is none")]
    Exists,
    /// The file is a store of another format.
    #[error("the store has another format: another version of the program made it")]
    OtherFormat,
}
