//! The tender: has a ledger compacted slice by slice while a server runs, and logs how each compaction ended.

ghost use Rattle.std.specs.Prelude.{◌≡◌, ◌-◌, List};
ghost use Rattle.std.specs.Global.{Global};
ghost use Rattle.ups_ledger.specs.Keeping.{KeeperGoesOn};
ghost use Rattle.ups_life.specs.declared.entry.Entry.{Entry};

use crate::monitor::MINUTE;
use crate::roster::is_passed_over;
use log::Log;
use std::thread::{self, Threads};
use std::time::{Clock, Duration, Instant};
use ups_ledger::{Disposer, Keeper, Ledger, LedgerFault, Tending, Waste};
use ups_log::{moment_of, tell_compacted, tell_uncompacted};

/// The number of milliseconds to wait for entries between two slices of a compaction.
const BETWEEN_SLICES: u64 = 1;

/// Drops what a compaction no longer needs, in threads of their own. Nothing waits for such a thread: it gives back memory,
/// and no more.
#[derive(Clone, Copy)]
struct DropThreads<'a, R: Threads> {
    rt: &'a R,
}

impl<R: Threads> Disposer for DropThreads<'_, R> {
    fn dispose(&self, waste: Waste) {
        let _ = thread::spawn(self.rt, move || drop(waste));
    }
}

/// The compactions of a ledger since the server began, for its numbers.
#[derive(Clone, Copy)]
pub(crate) struct Compactions {
    /// The number of those that ended well.
    pub(crate) done: u64,
    /// The number of records by which they made the ledger shorter.
    pub(crate) saved: u64,
    /// When the last of them ended, in seconds since 1970-01-01 UTC; 0 if none has.
    pub(crate) last: u64,
    /// Whether the last try failed.
    pub(crate) is_failing: bool,
}

impl Compactions {
    /// Creates the count of a server that begins.
    fn new() -> Compactions {
        Compactions {
            done: 0,
            saved: 0,
            last: 0,
            is_failing: false,
        }
    }

    /// Counts a compaction that ended at `now`, and made a ledger of `before` records one of `after`.
    fn add(&mut self, before: u64, after: u64, now: u64) {
        self.done = self.done.saturating_add(1);
        let saved = before.saturating_sub(after);
        self.saved = self.saved.saturating_add(saved);
        self.last = now;
        self.is_failing = false;
    }

    /// Returns how many records a ledger has of which `committed` were committed in all.
    pub(crate) fn rows_of(&self, committed: u64) -> u64
        ensures { result ≡ committed - self.now.saved }
    {
        committed.saturating_sub(self.saved)
    }
}

/// What is known of the compaction of a ledger.
#[derive(Clone, Copy)]
pub(crate) struct Tender {
    /// Whether a compaction is under way.
    is_going: bool,
    /// When the last compaction began, or None if the clock failed then.
    begun: Option<Instant>,
    /// When a compaction failed last, in seconds since 1970-01-01 UTC.
    failed: Option<u64>,
    /// The compactions since the server began.
    compactions: Compactions,
}

impl Tender {
    /// Creates a tender of a ledger that is not being compacted.
    pub(crate) fn new() -> Tender {
        Tender {
            is_going: false,
            begun: None,
            failed: None,
            compactions: Compactions::new(),
        }
    }

    /// Returns whether a compaction is under way.
    pub(crate) fn is_going(&self) -> bool {
        self.is_going
    }

    /// Returns the compactions since the server began.
    pub(crate) fn compactions(&self) -> Compactions {
        self.compactions
    }

    /// Returns how long to wait for entries that one would wait `wait` for: no longer than until the next slice.
    pub(crate) fn wait_of(&self, wait: Duration) -> Duration {
        if self.is_going {
            wait.min(Duration::from_millis(BETWEEN_SLICES))
        } else {
            wait
        }
    }

    // Returns whether a compaction failed in the minute before `now`.
    fn is_resting(&self, now: u64) -> bool {
        match self.failed {
            Some(failed) => is_passed_over(failed, MINUTE, now),
            None => false,
        }
    }

    // Returns the time since the last compaction began, or zero if the clock fails.
    fn elapsed<R: Clock>(&self, rt: &R) -> Duration {
        match self.begun {
            Some(begun) => begun.elapsed(rt).unwrap_or(Duration::ZERO),
            None => Duration::ZERO,
        }
    }

    // Notes what was done at `now`, and logs it if a compaction has ended.
    fn note<R: Clock + Log>(&mut self, rt: &R, tended: Result<Tending, LedgerFault>, now: u64) {
        self.is_going = false;
        match tended {
            Ok(Tending::Resting) => {}
            Ok(Tending::Going) => self.is_going = true,
            Ok(Tending::Compacted { before, after }) => {
                self.compactions.add(before, after, now);
                tell_compacted(rt, before, after, self.elapsed(rt));
            }
            Err(fault) => {
                let is_told = self.is_resting(now);
                self.failed = Some(now);
                self.compactions.is_failing = true;
                if !is_told {
                    tell_uncompacted(rt, fault);
                }
            }
        }
    }

    /// Does a slice of a compaction of the ledger if one is under way, or if at least `at` records are new. What it no
    /// longer needs is dropped in another thread. In the minute after a failure none begins: what was drafted is deleted.
    pub(crate) fn tend<L: Ledger, R: Threads + Clock + Log>(
        &mut self,
        rt: &R,
        keeper: &mut Keeper<L>,
        at: u64,
    )
        ensures goes_on { (history : List (Entry Global)) → KeeperGoesOn L.Ledger keeper.old history keeper.new history }
    {
        let now = moment_of(rt);
        let at = if self.is_resting(now) { u64::MAX } else { at };
        if !self.is_going {
            self.begun = Instant::now(rt).ok();
        }
        let tended = keeper.tend(now, at, &DropThreads { rt });
        self.note(rt, tended, now);
    }
}
