//! The log of a start, whose lines the supervisor of the service is told too.

use crate::network::Network;
use log::kv::Source;
use log::span::Spans;
use log::{Log, Metadata, Record};
use std::fmt::Display;
use std::io;
use std::time::{Clock, Duration};

/// How long a supervisor waits for the next line of a start, in microseconds: five minutes, since what takes long between
/// two lines, as a compaction, has none of its own.
const PATIENCE: u64 = 300_000_000;

/// A runtime during the reading of a store, which may take longer than a supervisor waits for a start.
///
/// Each line that is logged is also the status of the service, and asks the supervisor to wait for the next one
/// (`EXTEND_TIMEOUT_USEC=` of sd_notify(3)).
#[derive(Clone, Copy)]
pub struct StartLog<'a, R> {
    rt: &'a R,
}

impl<'a, R> StartLog<'a, R> {
    /// Returns the log of a start on a runtime.
    pub fn new(rt: &'a R) -> StartLog<'a, R> {
        StartLog { rt }
    }
}

/// Tells the supervisor a line of the log as the status of the service, and to wait for the next one; nothing if memory
/// runs out.
fn tell_line<R: Network + AllocGlobal, D: Display>(rt: &R, line: &D) {
    if let Ok(state) = format!(in rt.alloc(); "EXTEND_TIMEOUT_USEC={PATIENCE}\nSTATUS={line}") {
        rt.tell_supervisor(state.as_str());
    }
}

impl<'a, R: Log + Network + AllocGlobal> Log for StartLog<'a, R> {
    fn enabled(&self, metadata: &Metadata<'_>) -> bool {
        self.rt.enabled(metadata)
    }

    fn log<D: Display, K: Source, S: Spans>(&self, record: &Record<'_, D, K, S>) {
        self.rt.log(record);
        tell_line(self.rt, record.args());
    }

    fn flush(&self) {
        self.rt.flush();
    }

    fn target(&self) -> &str {
        self.rt.target()
    }
}

impl<'a, R: Clock> Clock for StartLog<'a, R> {
    fn monotonic(&self) -> io::Result<Duration> {
        self.rt.monotonic()
    }

    fn since_1970(&self) -> io::Result<Duration> {
        self.rt.since_1970()
    }

    fn sleep(&self, duration: Duration) {
        self.rt.sleep(duration);
    }
}
