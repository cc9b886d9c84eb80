//! What a start may do with a store.

/// What a start, or a compaction, may do with the requests of a store.
#[derive(Clone, Copy)]
pub struct StartChoices {
    /// Whether requests that are not accepted again may be left out for good.
    pub may_leave_out: bool,
    /// Whether the requests may be replaced by those of a shorter history.
    pub may_compact: bool,
    /// Whether the terms of the service may be others than those of the last run, so that what was answered then may
    /// have another effect.
    pub may_change_terms: bool,
}
