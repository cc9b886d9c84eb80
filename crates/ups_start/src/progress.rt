//! Logging how many requests of a store were entered.

use log::{Log, info};
use std::time::{Clock, Duration, Instant};

/// The interval between two messages, in seconds.
const EVERY: u64 = 1;

/// The time of the last message, or None if the clock fails and nothing is logged.
#[derive(Drop)]
pub(crate) struct Progress {
    told: Option<Instant>,
}

impl Progress {
    /// Begins, with nothing to log for a second.
    pub(crate) fn begin<R: Clock>(rt: &R) -> Progress {
        Progress {
            told: Instant::now(rt).ok(),
        }
    }

    /// Logs how many requests were entered, at most once a second.
    pub(crate) fn tell<R: Clock + Log>(&mut self, rt: &R, count: u64) {
        let Some(told) = self.told else {
            return;
        };
        let elapsed = told.elapsed(rt).unwrap_or(Duration::ZERO);
        if elapsed.as_secs() < EVERY {
            return;
        }
        info!(rt; target: "upsd", "store: {count} requests");
        self.told = Instant::now(rt).ok();
    }
}
