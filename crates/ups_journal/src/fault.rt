//! The reasons why there is no record, or no entry.

ghost use Rattle.std.specs.Prelude.{◌≡◌};

use std::alloc::{AllocError, AllocFailed};
use thiserror::Error;

/// The reason why there is no record of an entry. Each text continues a sentence about the request.
#[derive(Clone, Copy, Debug, PartialEq, Eq, Error)]
pub enum RecordingFault {
    /// A title has spaces at its ends. This never happens, because `Ae::of` removes them and no other function makes a
    /// title, but the invariant of `Ae` does not say so.
    #[error("a title in it has spaces at its ends")]
    BadTitle,
    /// A data set takes 2^32 bytes or more.
    #[error("its data set takes 4 GiB or more")]
    TooLarge,
    /// The entry has left memory. This never happens, because entries that are to be recorded stay there.
    #[error("it is no longer in memory")]
    Gone,
    /// Memory ran out.
    #[error("out of memory")]
    Memory,
}

impl From<AllocError> for RecordingFault {
    ghost use Rattle.ups_journal.specs.declared.fault.RecordingFault.TheVariants.{Memory};

    ghost from_gives = { λ _ e. e ≡ Memory };

    fn from(_e: AllocError) -> RecordingFault {
        RecordingFault::Memory
    }
}

/// The reason why a record stands for no entry. Each text says what is wrong with the record. Except for `Memory`, the
/// service never writes such a record, so something else has changed it.
#[derive(Clone, Copy, Debug, PartialEq, Eq, Error)]
pub enum RecordFault {
    /// The title of the requesting application entity is not a title, or has spaces at its ends.
    #[error("the title of who asked is none, or has spaces at its ends")]
    BadTitle,
    /// The instance UID is not a valid UID, is padded, or is one that the operation does not apply to.
    #[error("the instance UID is none, is padded, or is one that the operation can't be on")]
    BadInstance,
    /// The Transaction UID is not a valid UID, or is padded.
    #[error("the Transaction UID is none, or is padded")]
    BadTransaction,
    /// The Receiving AE is not a title, or has spaces at its ends.
    #[error("the Receiving AE is no title, or has spaces at its ends")]
    BadReceiver,
    /// The attributes are not a data set in Explicit VR Little Endian as `write_set` writes it: with all lengths
    /// defined, and without group lengths.
    #[error("the attributes are no data set in Explicit VR Little Endian as one is stored")]
    BadSet,
    /// The keys of the filter are unreadable, or are all universal.
    #[error("the keys of the filter can't be read, or are all universal")]
    BadKeys,
    /// A column that the operation needs is empty, or one that it does not use has a value.
    #[error("a column that the operation needs is empty, or one that it has no use for isn't")]
    BadColumns,
    /// Memory ran out.
    #[error("out of memory")]
    Memory,
}

impl From<AllocError> for RecordFault {
    ghost use Rattle.ups_journal.specs.declared.fault.RecordFault.TheVariants.{Memory};

    ghost from_gives = { λ _ e. e ≡ Memory };

    fn from(_e: AllocError) -> RecordFault {
        RecordFault::Memory
    }
}
