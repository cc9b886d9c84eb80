//! What is logged about the deliveries to a watcher: at most one line a second.

use crate::failures::Failures;
use std::sync::atomic::{AtomicU64, Ordering};
use std::time::Duration;

/// The result of associations with a watcher in which reports were acknowledged.
#[derive(Clone, Copy)]
pub struct Digest {
    /// The number of associations.
    pub associations: u64,
    /// The number of acknowledged reports.
    pub reports: u64,
    /// The number of responses with a failure status, and the last of these.
    pub failures: Failures,
    /// The total time that the associations took.
    pub elapsed: Duration,
}

/// The deliveries to a watcher that were not logged yet. The deliverer that has the watcher adds to them, and the
/// sweeper takes them. Only the log depends on them.
pub struct UnloggedDeliveries {
    associations: AtomicU64,
    reports: AtomicU64,
    failures: AtomicU64,
    last: AtomicU64,
    milliseconds: AtomicU64,
    /// When a delivery was last logged, in seconds since 1970-01-01 UTC.
    told: AtomicU64,
}

impl Drop for UnloggedDeliveries {
    fn drop(self) {
        let UnloggedDeliveries {
            associations: _,
            reports: _,
            failures: _,
            last: _,
            milliseconds: _,
            told: _,
        } = self;
    }
}

impl UnloggedDeliveries {
    /// Creates an empty sum of deliveries.
    pub fn new() -> UnloggedDeliveries {
        UnloggedDeliveries {
            associations: AtomicU64::new(0),
            reports: AtomicU64::new(0),
            failures: AtomicU64::new(0),
            last: AtomicU64::new(0),
            milliseconds: AtomicU64::new(0),
            told: AtomicU64::new(0),
        }
    }

    /// Returns whether a delivery may be logged in this second, since none was yet; if so, notes that one is.
    pub fn is_to_be_told(&self, now: u64) -> bool {
        self.told.swap(now, Ordering::SeqCst) != now
    }

    /// Adds deliveries.
    pub fn add(&self, digest: Digest) {
        let milliseconds = u64::try_from(digest.elapsed.as_millis()).unwrap_or(0);
        self.reports.fetch_add(digest.reports, Ordering::SeqCst);
        self.failures
            .fetch_add(digest.failures.count, Ordering::SeqCst);
        if digest.failures.count > 0 {
            self.last
                .store(u64::from(digest.failures.last), Ordering::SeqCst);
        }
        self.milliseconds.fetch_add(milliseconds, Ordering::SeqCst);
        self.associations
            .fetch_add(digest.associations, Ordering::SeqCst);
    }

    /// Takes the deliveries to log in this second. Returns None if there are none, or others were logged in this
    /// second.
    pub fn take(&self, now: u64) -> Option<Digest> {
        if self.associations.load(Ordering::SeqCst) == 0 || !self.is_to_be_told(now) {
            return None;
        }
        let last = self.last.load(Ordering::SeqCst);
        Some(Digest {
            associations: self.associations.swap(0, Ordering::SeqCst),
            reports: self.reports.swap(0, Ordering::SeqCst),
            failures: Failures {
                count: self.failures.swap(0, Ordering::SeqCst),
                last: u16::try_from(last).unwrap_or(0),
            },
            elapsed: Duration::from_millis(self.milliseconds.swap(0, Ordering::SeqCst)),
        })
    }
}
