//! The stages of a compaction.

ghost use Rattle.std.specs.Prelude.{◌≡◌};

use http_server::Log;
use std::alloc::Global;
use ups_compact::{KeptSteps, Shifts, StepSorting};
use ups_journal::Record;
use ups_manager::Manager;
use ups_restore::Survey;

/// The most records that are read, entered, drafted or deleted in a slice.
pub(crate) const SLICE: usize = 64;

/// The most records that are drafted in a slice of following: more than are appended between two slices, so that the
/// drafts catch up with a ledger that grows.
pub(crate) const FOLLOWED: usize = 512;

/// The most UIDs that are put in order in a slice.
pub(crate) const SORTED: usize = 512;

/// The stage of a compaction.
#[derive(Drop)]
pub enum Stage {
    /// Nothing is under way.
    Resting,
    /// The drafts of an earlier compaction are deleted.
    Clearing,
    /// A manager enters the records from the first on.
    Surveying(Manager<Global>),
    /// The steps of which the compaction loses nothing are put in order.
    Sorting(Sorting),
    /// The records are read once more, and those that are kept are entered into a second manager and drafted.
    Carrying(Carriage),
    /// The acknowledgements are entered. The rest of the second manager is drafted.
    Finishing(Finish),
    /// What was appended meanwhile is drafted.
    Following(Follow),
    /// The records that drafts have replaced, or the drafts of a compaction that was given up, are deleted, so that others
    /// can have their room.
    Freeing,
}

/// The steps that are put in order.
#[derive(Drop)]
pub struct Sorting {
    /// The manager that has entered the records.
    pub(crate) whole: Manager<Global>,
    /// The steps of which the compaction loses nothing.
    pub(crate) steps: StepSorting<Global>,
}

/// The records that are read once more.
#[derive(Drop)]
pub struct Carriage {
    /// What is known of the manager that has entered the records.
    pub(crate) survey: Survey,
    /// The steps of which the compaction loses nothing.
    pub(crate) steps: KeptSteps<Global>,
    /// The manager for those that are kept.
    pub(crate) fresh: Manager<Global>,
    /// The number of records that were read once more.
    pub(crate) read: usize,
    /// The number of entries of `fresh` whose records are drafted.
    pub(crate) drafted: usize,
    /// The drafts, for contracts alone.
    pub(crate) drafts: Log<Record<Global>, ()>,
    ghost same: { fresh.settings ≡ survey.settings },
}

/// A compacted history, of which the rest is drafted.
#[derive(Drop)]
pub struct Finish {
    /// The manager with the compacted history.
    pub(crate) fresh: Manager<Global>,
    /// By how much its numbers are less.
    pub(crate) shifts: Shifts<Global>,
    /// The number of records that are compacted.
    pub(crate) from: usize,
    /// The number of its entries whose records are drafted.
    pub(crate) drafted: usize,
    /// The drafts, for contracts alone.
    pub(crate) drafts: Log<Record<Global>, ()>,
}

/// The records behind those that are compacted.
#[derive(Drop)]
pub struct Follow {
    /// By how much the numbers are less in the drafts.
    pub(crate) shifts: Shifts<Global>,
    /// The number of records that are compacted.
    pub(crate) from: usize,
    /// The number of records of which the drafts stand.
    pub(crate) read: usize,
    /// The drafts, for contracts alone.
    pub(crate) drafts: Log<Record<Global>, ()>,
}
