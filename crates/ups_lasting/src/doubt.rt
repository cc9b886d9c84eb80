//! What nobody knows about the records of a ledger.

ghost use Rattle.std.specs.Prelude.{◌≡◌};
ghost use Rattle.ups_lasting.specs.Doubting.{is_sure};

use crate::ghost_records::GhostRecords;
use std::alloc::Global;
use ups_compact::Shifts;

/// Records that take the place of those of a ledger.
#[derive(Drop)]
pub struct Successor {
    /// By how much the numbers of events are less in them than in the log.
    pub(crate) shifts: Shifts<Global>,
    /// The records, for contracts alone.
    pub(crate) records: GhostRecords,
}

/// What nobody knows about the records of a ledger, after a call that failed.
#[derive(Drop)]
pub enum Doubt {
    /// Nothing is in doubt.
    Nothing,
    /// Whether it has the last records that were to be appended.
    Append,
    /// Whether others have taken the place of its records.
    Exchange(Successor),
}

impl Doubt {
    /// Returns whether nothing is in doubt.
    pub(crate) fn is_nothing(&self) -> bool
        ensures { result ≡ is_sure self.now }
    {
        match self {
            Doubt::Nothing => true,
            _ => false,
        }
    }
}
