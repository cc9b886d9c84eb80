//! How long a watcher may take.

ghost use Rattle.std.specs.Prelude.{◌≡◌, ◌<◌, ◌*◌, true, false};

use std::io;
use std::time::{Clock, Duration, Instant};

/// The number of seconds that a watcher has for an answer if no limit is given: a quick one, and another.
const QUICK_ANSWER: u64 = 10;

const ANSWER: u64 = 3_600;

/// The number of seconds for connecting to a watcher and its answer to the association request, if no limit is given.
const OPENING: u64 = 10;

/// The number of milliseconds for that with a quick watcher.
const QUICK_OPENING: u64 = 500;

/// Returns how many seconds to wait for an answer of a watcher: `asked`, unless that is 0.
///
/// For 0 it is an hour, or ten seconds for a quick watcher, so that one that falls silent does not keep a deliverer
/// forever.
pub fn answer_seconds(asked: u32, is_quick: bool) -> u64
    ensures asked { 0 < asked → result ≡ asked }
    ensures quick { asked ≡ 0 → is_quick ≡ true → result ≡ 10 }
    ensures other { asked ≡ 0 → is_quick ≡ false → result ≡ 3600 }
{
    if asked > 0 {
        return u64::from(asked);
    }
    if is_quick { QUICK_ANSWER } else { ANSWER }
}

/// Returns how many milliseconds to wait for connecting to a watcher and its answer to the association request.
///
/// Nothing is sent before that could arrive twice, so a quick watcher has half a second. If that is too short, it counts
/// as slow, and at once has the seconds asked for, or ten if that is 0.
pub fn opening_milliseconds(asked: u32, is_quick: bool) -> u64
    ensures quick { is_quick ≡ true → result ≡ 500 }
    ensures asked { is_quick ≡ false → 0 < asked → result ≡ 1000 * asked }
    ensures other { is_quick ≡ false → asked ≡ 0 → result ≡ 10000 }
{
    if is_quick {
        return QUICK_OPENING;
    }
    let seconds = if asked > 0 { u64::from(asked) } else { OPENING };
    seconds * 1_000
}

/// How long a watcher that this side sends requests to may take.
#[derive(Clone, Copy)]
pub struct Patience {
    /// The time for connecting to it and its answer to the association request.
    pub opening: Duration,
    /// The time for each answer, since what it answers was sent, and for each sending.
    pub each: Duration,
    /// The time after which no further message is begun, so that others get their turn; None for no limit.
    pub all: Option<Duration>,
    /// The moment from which that counts.
    pub since: Instant,
}

/// Returns what is left of a time since a moment.
///
/// # Errors
///
/// TimedOut if nothing is left; those of the clock.
pub fn left_of<R: Clock>(rt: &R, limit: Duration, since: Instant) -> io::Result<Duration> {
    match limit.checked_sub(since.elapsed(rt)?) {
        Some(left) if !left.is_zero() => Ok(left),
        _ => Err(io::Error::from(io::ErrorKind::TimedOut)),
    }
}

impl Patience {
    /// Creates the limits of a watcher from now on, with `seconds` for an answer (0: the defaults) and a limit for the
    /// whole association.
    ///
    /// # Errors
    ///
    /// If the clock fails.
    pub fn new<R: Clock>(
        rt: &R,
        seconds: u32,
        is_quick: bool,
        all: Option<Duration>,
    ) -> io::Result<Patience> {
        Ok(Patience {
            opening: Duration::from_millis(opening_milliseconds(seconds, is_quick)),
            each: Duration::from_secs(answer_seconds(seconds, is_quick)),
            all,
            since: Instant::now(rt)?,
        })
    }

    /// Returns what is left of the time for what began at `begun`, or begins now, on an association that is open
    /// already or not.
    ///
    /// # Errors
    ///
    /// TimedOut if nothing is left; those of the clock.
    pub fn left<R: Clock>(
        &self,
        rt: &R,
        is_open: bool,
        begun: Option<Instant>,
    ) -> io::Result<Duration> {
        let limit = if is_open { self.each } else { self.opening };
        match begun {
            Some(begun) => left_of(rt, limit, begun),
            None => Ok(limit),
        }
    }

    /// Returns whether no further message is to be begun.
    pub(crate) fn is_over<R: Clock>(&self, rt: &R) -> bool {
        match self.all {
            Some(limit) => left_of(rt, limit, self.since).is_err(),
            None => false,
        }
    }
}
