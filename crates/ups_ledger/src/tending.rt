//! What tending to a ledger has done.

/// What a slice of a compaction of a ledger has done.
#[derive(Clone, Copy, Debug, PartialEq, Eq)]
pub enum Tending {
    /// No compaction is due.
    Resting,
    /// A compaction is under way.
    Going,
    /// The stored records were replaced by fewer that stand for them.
    Compacted {
        /// The number of records that were stored before.
        before: u64,
        /// The number of records that are stored now.
        after: u64,
    },
}
