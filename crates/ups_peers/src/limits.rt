//! The limits of a server for its peers, and their defaults.

ghost use Rattle.std.specs.Prelude.{◌≡◌};
ghost use Rattle.ups_peers.specs.Limits.{workers_limit, default_workers, turns_limit, idle_seconds, timeout_seconds, delivery_seconds, default_waiting, compact_at_limit, default_compact_at};

/// The maximum number of associations served at the same time: a desk has 1,024 passes, of which one sweeps and at
/// least one delivers event reports.
pub const MAX_WORKERS: u32 = 1_022;

/// The default number of associations served at the same time: a workstation may keep one open, and a small hospital
/// has about ten of these, with a scheduler or two.
pub const WORKERS: u32 = 16;

/// The maximum number of PDUs read over one association.
pub const TURNS: u64 = 1_000_000;

/// The default number of seconds for which an association may be silent between two messages.
pub const IDLE: u32 = 60;

/// The default number of seconds that a peer may take for each message that it has begun to send, and to receive each
/// answer.
pub const TIMEOUT: u32 = 60;

/// The default number of seconds that a watcher may take at most to be connected to, and for each answer.
pub const DELIVERY_TIMEOUT: u32 = 5;

/// The default number of event reports that may wait for one watcher: half as many as the requests that are held in memory.
pub const WAITING: u32 = 500_000;

/// The maximum number of records appended to the store before it is compacted.
pub const MAX_COMPACT_AT: u64 = 1_000_000_000;

/// The default number of records appended to the store before it is compacted.
pub const COMPACT_AT: u64 = 50_000;

/// The limits of a server: the number of associations served at the same time, the number of PDUs of each, the time to
/// wait for each, and how far the store grows.
#[derive(Clone, Copy)]
pub struct ServerLimits {
    /// The number of associations served at the same time, each by a worker of its own.
    pub workers: u32,
    /// The maximum number of PDUs read over one association.
    pub turns: u64,
    /// The number of seconds for which an association requested by a peer may be silent between two messages; 0 for no
    /// limit.
    pub idle: u32,
    /// The number of seconds that a peer may take for each message that it has begun to send, and to receive each
    /// answer; 0 for no limit. If there are more watchers than deliverers, an association with a watcher that has
    /// lasted longer gets no further report.
    pub timeout: u32,
    /// The number of seconds that a watcher may take at most to be connected to, and for each answer; 0 for ten seconds
    /// to be connected to and an hour for each answer, or ten seconds if it is neither away nor slow.
    pub delivery_timeout: u32,
    /// The number of event reports that may wait for one watcher; 0 for no limit. Of more than that, the oldest are given
    /// up.
    pub waiting: u32,
    /// The number of records appended to the store since it was last compacted at which it is compacted again, at least
    /// as many as that left.
    pub compact_at: u64,
}

/// The limits are those of the definitions.
pub fn limits_are_as_defined()
    ensures most_workers { MAX_WORKERS ≡ workers_limit }
    ensures workers { WORKERS ≡ default_workers }
    ensures turns { TURNS ≡ turns_limit }
    ensures idle { IDLE ≡ idle_seconds }
    ensures timeout { TIMEOUT ≡ timeout_seconds }
    ensures delivery_timeout { DELIVERY_TIMEOUT ≡ delivery_seconds }
    ensures waiting { WAITING ≡ default_waiting }
    ensures most_compact_at { MAX_COMPACT_AT ≡ compact_at_limit }
    ensures compact_at { COMPACT_AT ≡ default_compact_at }
{}
