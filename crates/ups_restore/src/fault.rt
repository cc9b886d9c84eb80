//! The reasons why entries were not all entered again.

ghost use Rattle.std.specs.Prelude.{◌≡◌};

use std::alloc::{AllocError, AllocFailed};
use thiserror::Error;
use ups_journal::{RecordFault, RecordedOperation, RecordingFault};
use ups_ledger::LedgerFault;

/// The reason why an entry was not entered again. Each text follows the number of its request.
#[derive(Clone, Copy, Debug, PartialEq, Eq, Error)]
pub enum Refusal {
    /// Its moment is above `MAX_MOMENT`, so that it has no date up to the year 9999.
    #[error("its moment has no date up to the year 9999")]
    BadMoment,
    /// It is not accepted after the entries before it, with these settings.
    #[error("it is not accepted after those before it, with these settings")]
    Refused,
    /// There is no room for it: in the history, in the row of its step, or in memory.
    #[error("there is no room for it: in the history, in its step, or in memory")]
    NoRoom,
}

/// The place where a replay stopped, and the reason.
#[derive(Clone, Copy, Debug, PartialEq, Eq, Error)]
#[error("behind {place} requests: {refusal}")]
pub struct ReplayFault {
    /// The number of entries that were entered before the one that was not.
    pub place: usize,
    /// The reason why that one was not entered.
    pub refusal: Refusal,
}

/// The reason why a record was not entered again. Each text follows the number of its request.
#[derive(Clone, Copy, Debug, PartialEq, Eq, Error)]
pub enum RestoreRefusal {
    /// It is not the record of an entry, or memory ran out.
    #[error("{0}")]
    Record(RecordFault),
    /// Its entry was not entered.
    #[error("{0}")]
    Entry(Refusal),
}

/// The record that was not entered again, and the reason.
#[derive(Clone, Copy, Debug, PartialEq, Eq, Error)]
#[error("request {number} ({operation}): {refusal}")]
pub struct RestoreFault {
    /// The number of the record, counted from 1.
    pub number: u64,
    /// The operation of the record.
    pub operation: RecordedOperation,
    /// The reason why it was not entered.
    pub refusal: RestoreRefusal,
}

/// The reason why a manager was not given the compacted history of another.
#[derive(Clone, Copy, Debug, PartialEq, Eq, Error)]
pub enum CompactFault {
    /// Memory ran out.
    #[error("out of memory")]
    Memory,
    /// An entry could not be recorded.
    #[error("{0}")]
    Recording(RecordingFault),
    /// An entry was not entered.
    #[error("{0}")]
    Entering(RestoreRefusal),
    /// The ledger did not take records.
    #[error("{0}")]
    Ledger(LedgerFault),
}

impl From<AllocError> for CompactFault {
    ghost use Rattle.ups_restore.specs.declared.fault.CompactFault.TheVariants.{Memory};

    ghost from_gives = { λ _ e. e ≡ Memory };

    fn from(_e: AllocError) -> CompactFault {
        CompactFault::Memory
    }
}

impl<T: Drop> From<AllocFailed<T>> for CompactFault {
    ghost use Rattle.ups_restore.specs.declared.fault.CompactFault.TheVariants.{Memory};

    ghost from_gives = { λ _ e. e ≡ Memory };

    fn from(_e: AllocFailed<T>) -> CompactFault {
        CompactFault::Memory
    }
}

impl From<RecordingFault> for CompactFault {
    ghost use Rattle.ups_restore.specs.declared.fault.CompactFault.TheVariants.{Recording};

    ghost from_gives = { λ fault e. e ≡ Recording fault };

    fn from(fault: RecordingFault) -> CompactFault {
        CompactFault::Recording(fault)
    }
}

impl From<LedgerFault> for CompactFault {
    ghost use Rattle.ups_restore.specs.declared.fault.CompactFault.TheVariants.{Ledger};

    ghost from_gives = { λ fault e. e ≡ Ledger fault };

    fn from(fault: LedgerFault) -> CompactFault {
        CompactFault::Ledger(fault)
    }
}
