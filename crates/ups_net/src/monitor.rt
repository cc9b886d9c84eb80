//! What the sweeper checks and logs besides its sweeps.

use crate::delivering::tell_unlogged;
use crate::numbers::{Numbers, tell_numbers};
use crate::options::ServerOptions;
use crate::roster::{Roster, is_passed_over};
use crate::server_state::ServerState;
use log::{Log, info, warn};
use std::sync::Wait;
use std::time::Clock;
use ups_ledger::Keeping;
use ups_log::{moment_of, tell_given_up};
use ups_peers::Watcher;
use ups_transport::Network;

/// The number of seconds in a minute, and between two lines of numbers.
pub(crate) const MINUTE: u64 = 60;

const TEN_MINUTES: u64 = 600;

/// The number of bytes in a MiB.
const MEBIBYTE: u64 = 1_048_576;

/// The number of MiB that a limit should leave for steps.
const ROOM: u64 = 500;

/// Logs how much memory the limit of addresses leaves for steps, once all threads have begun; warns if that is little.
/// Logs nothing if there is no limit, or the system does not tell.
pub(crate) fn tell_room<R: Log + Network>(rt: &R) {
    let (Some(most), Some(memory)) = (rt.memory_limit(), rt.memory()) else {
        return;
    };
    let left = most.saturating_sub(memory.addresses) / MEBIBYTE;
    if left < ROOM {
        warn!(rt; target: "upsd", "serve: LimitAS leaves {left} MiB for steps: raise it, or lower --associations");
        return;
    }
    info!(rt; target: "upsd", "serve: LimitAS leaves {left} MiB for steps");
}

/// Something that is done once in a number of seconds.
#[derive(Clone, Copy)]
pub(crate) struct Reminder {
    /// When it was last done, in seconds since 1970-01-01 UTC.
    done: u64,
    /// The number of seconds between two times.
    pause: u64,
}

impl Reminder {
    /// Creates a reminder of something never done, with `pause` seconds between two times.
    pub(crate) fn of(pause: u64) -> Reminder {
        Reminder { done: 0, pause }
    }

    /// Returns whether it is due now; if so, notes that it is done.
    pub(crate) fn is_due(&mut self, now: u64) -> bool {
        if is_passed_over(self.done, self.pause, now) {
            return false;
        }
        self.done = now;
        true
    }
}

/// What the sweeper has logged.
#[derive(Clone, Copy)]
pub(crate) struct Monitor {
    /// When the last minute of refused requests ended.
    minute: Reminder,
    /// When the numbers were last logged.
    numbers: Reminder,
}

/// Logs the deliveries to each watcher that were not logged yet.
fn tell_deliveries<R: Clock + Log>(rt: &R, roster: &Roster, watchers: &[Watcher]) {
    for (place, watcher) in watchers.iter().enumerate() {
        tell_unlogged(rt, roster.presence(place), watcher.ae);
    }
}

/// Logs how many reports for each watcher were given up since this was last logged.
fn tell_given_up_reports<R: Log>(rt: &R, roster: &Roster, watchers: &[Watcher]) {
    for (place, watcher) in watchers.iter().enumerate() {
        let count = roster.presence(place).take_untold();
        if count > 0 {
            tell_given_up(rt, watcher.ae, count);
        }
    }
}

impl Monitor {
    /// Creates the monitor of a sweeper that begins now.
    pub(crate) fn new<R: Clock>(rt: &R) -> Monitor {
        let done = moment_of(rt);
        Monitor {
            minute: Reminder {
                done,
                pause: MINUTE,
            },
            numbers: Reminder {
                done,
                pause: TEN_MINUTES,
            },
        }
    }

    /// Checks a server whose history has `entries` entries, counts the connections that wait, and logs what there is to
    /// log: that all workers are taken, what deliveries came to, how many requests were refused beyond those logged and
    /// how many reports were given up in a minute, and its numbers every ten minutes.
    pub(crate) fn look<K: Keeping, R: Wait + Clock + Log + Network>(
        &mut self,
        rt: &R,
        state: &ServerState<K>,
        options: &ServerOptions,
        entries: u64,
    ) {
        let now = moment_of(rt);
        state.door.note_waiting(rt);
        state.door.tell_taken(rt, options.limits.workers);
        tell_deliveries(rt, &state.roster, &options.watchers);
        if self.minute.is_due(now) {
            state.tally.end_minute(rt);
            tell_given_up_reports(rt, &state.roster, &options.watchers);
        }
        if self.numbers.is_due(now) {
            tell_numbers(rt, &Numbers::of(state, options, entries));
        }
    }
}
