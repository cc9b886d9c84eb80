//! Why records were not committed.

ghost use Rattle.std.specs.Prelude.{◌≡◌};

use thiserror::Error;
use ups_journal::RecordingFault;

/// Why a ledger did not take records. All but the last may be over at the next try.
#[derive(Clone, Copy, Debug, PartialEq, Eq, Error)]
pub enum LedgerFault {
    /// There is no room: on the disk, in the ledger, or in memory. It has appended nothing, and is as it was.
    #[error("there is no room")]
    Full,
    /// It could not be written. Whether it has the records is found out by the next try.
    #[error("it can't be written")]
    Write,
    /// It takes nothing until it is reopened, because a write or a sync failed before.
    #[error("it is shut since a write failed")]
    Shut,
    /// It can't be reopened, or has other records than were committed. It takes no more records.
    #[error("it can't be opened anew, or has other records than were committed")]
    Lost,
}

/// Why entries were not committed.
#[derive(Clone, Copy, Debug, PartialEq, Eq, Error)]
pub enum CommitFault {
    /// The pass has made all the calls that it may make.
    #[error("the pass has made all of its calls")]
    Spent,
    /// An entry could not be recorded.
    #[error("{0}")]
    Recording(RecordingFault),
    /// The ledger did not take the records.
    #[error("{0}")]
    Ledger(LedgerFault),
}
