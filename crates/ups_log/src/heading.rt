//! The heading of a log line.

ghost use Rattle.ups_life.specs.Settings.{IsMoment};

use log::Level;
use std::os::unix::fs::MetadataExt;
use std::{env, fmt, fs, str};
use ups_match::write_dt;

/// The kind of heading of log lines.
#[derive(Clone, Copy, Debug, PartialEq, Eq)]
pub enum LineStyle {
    /// The time of the line, in UTC.
    Time,
    /// The priority of the line, as the systemd journal reads it; the journal knows the time itself.
    Priority,
}

/// Returns whether the words are the device and inode of a file, as in `8:1234`.
fn is_file(words: &str, device: u64, inode: u64) -> bool {
    match words.split_once(':') {
        Some((one, other)) => {
            u64::from_str_radix(one, 10) == Ok(device)
                && u64::from_str_radix(other, 10) == Ok(inode)
        }
        None => false,
    }
}

/// Returns whether standard error goes to the systemd journal, which then sets JOURNAL_STREAM to its device and inode.
fn goes_to_journal(rt: &HostRuntime) -> bool {
    let Ok(words) = env::var(rt, "JOURNAL_STREAM") else {
        return false;
    };
    match fs::metadata(rt, "/proc/self/fd/2") {
        Ok(file) => is_file(words.as_str(), file.dev(), file.ino()),
        Err(_) => false,
    }
}

impl LineStyle {
    /// Returns the style of lines that go to standard error.
    pub fn of(rt: &HostRuntime) -> LineStyle {
        if goes_to_journal(rt) {
            LineStyle::Priority
        } else {
            LineStyle::Time
        }
    }
}

/// Returns the priority of a level in the systemd journal.
fn priority_of(level: Level) -> u8 {
    match level {
        Level::Error => 3,
        Level::Warn => 4,
        Level::Info => 6,
        _ => 7,
    }
}

/// Formats a moment in UTC, as in 2026-11-27T08:30:00Z.
fn time_at(moment: u64) -> [u8; 20]
    requires { IsMoment moment }
{
    let [
        y0,
        y1,
        y2,
        y3,
        m0,
        m1,
        d0,
        d1,
        h0,
        h1,
        n0,
        n1,
        s0,
        s1,
        _,
        _,
        _,
        _,
        _,
    ] = write_dt(moment, 0);
    [
        y0, y1, y2, y3, b'-', m0, m1, b'-', d0, d1, b'T', h0, h1, b':', n0, n1, b':', s0, s1, b'Z',
    ]
}

/// The heading of one line.
#[derive(Clone, Copy)]
pub(crate) enum Heading {
    /// The time.
    Time([u8; 20]),
    /// The priority.
    Priority(u8),
}

impl Heading {
    /// Creates the heading of a line of this level, logged at `moment`.
    pub(crate) fn new(style: LineStyle, level: Level, moment: u64) -> Heading
        requires { IsMoment moment }
    {
        match style {
            LineStyle::Time => Heading::Time(time_at(moment)),
            LineStyle::Priority => Heading::Priority(priority_of(level)),
        }
    }
}

impl fmt::Display for Heading {
    fn fmt<W: fmt::Write>(&self, f: &mut fmt::Formatter<W>) -> fmt::Result {
        match self {
            Heading::Time(time) => write!(f, "{} ", str::from_utf8(time).unwrap_or("")),
            Heading::Priority(priority) => write!(f, "<{priority}>"),
        }
    }
}
