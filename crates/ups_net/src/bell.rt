//! A bell for which deliverers wait.

use std::sync::Wait;
use std::sync::atomic::{AtomicU64, Ordering};
use std::time::Duration;

/// The states of a bell: not rung since somebody came for it, and rung.
const STILL: u64 = 0;

const RUNG: u64 = 1;

/// The maximum number of seconds to wait for a bell.
const PATIENCE: u64 = 10;

/// A bell for which several threads may wait; a ring wakes one of them. It stays rung until one comes, so none waits
/// because it missed a ring. Rings before that count as one. No contract covers it.
#[derive(Drop)]
pub(crate) struct Bell {
    rung: AtomicU64,
}

impl Bell {
    /// Creates a bell that is not rung.
    pub(crate) fn new() -> Bell {
        Bell {
            rung: AtomicU64::new(STILL),
        }
    }

    /// Wakes one of those that wait, or else lets the next one through without waiting. Never blocks.
    pub(crate) fn ring(&self) {
        if self.rung.swap(RUNG, Ordering::SeqCst) == STILL {
            self.rung.wake_one();
        }
    }

    /// Waits for the bell for at most `PATIENCE` seconds; may return earlier.
    pub(crate) fn wait<R: Wait>(&self, rt: &R) {
        if self.rung.swap(STILL, Ordering::SeqCst) == STILL {
            let patience = Duration::from_secs(PATIENCE);
            self.rung.park_timeout(rt, STILL as u32, patience);
            self.rung.store(STILL, Ordering::SeqCst);
        }
    }
}
