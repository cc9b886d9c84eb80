//! The clock of the host.

ghost use Rattle.ups_life.specs.Settings.{IsMoment};

use std::time::{Clock, SystemTime};
use ups_life::MAX_MOMENT;

/// Returns the seconds since 1970-01-01, 00:00 UTC, or 0 if the host's clock fails or is before that.
fn seconds_of<R: Clock>(rt: &R) -> u64 {
    match SystemTime::now(rt) {
        Ok(now) => match now.duration_since(SystemTime::UNIX_EPOCH) {
            Ok(since) => since.as_secs(),
            Err(_) => 0,
        },
        Err(_) => 0,
    }
}

/// Returns the milliseconds since 1970-01-01, 00:00 UTC, or 0 if the host's clock fails or is before that.
pub fn milliseconds_of<R: Clock>(rt: &R) -> u64 {
    match SystemTime::now(rt) {
        Ok(now) => match now.duration_since(SystemTime::UNIX_EPOCH) {
            Ok(since) => u64::try_from(since.as_millis()).unwrap_or(0),
            Err(_) => 0,
        },
        Err(_) => 0,
    }
}

/// Returns the current moment by the host's clock, in seconds since 1970-01-01 UTC: 0 if the clock fails, and at most
/// `MAX_MOMENT`.
pub fn moment_of<R: Clock>(rt: &R) -> u64
    ensures { IsMoment result }
{
    seconds_of(rt).min(MAX_MOMENT)
}
