//! The two ends of a connection: one to read from it, and one to write on it.

ghost use Rattle.std.specs.Prelude.{◌≤◌, length, IfOk};

use crate::sink::Sink;
use crate::socket;
use crate::wire_fault::WireFault;
use std::alloc::Global;
use std::cell::Cell;
use std::io::{self, ErrorKind, Read, Write};
use std::net::TcpStream;
use std::time::Duration;
use ups_ledger::{CommitDue, Committed, Keeping, Noted};
use ups_pdu::{Pdu, write_pdu};

/// The source of an A-ABORT by the service provider, and its reason if none is specified (PS3.8 section 9.3.8).
const BY_PROVIDER: u8 = 2;

const NOT_SPECIFIED: u8 = 0;

/// Returns by how much longer than a limit a connection may let a read or a write wait: a tenth of it, but at most a
/// second.
fn slack_of(limit: Duration) -> Duration {
    (limit / 10).min(Duration::from_secs(1))
}

/// Returns whether a connection lets a read or a write wait for longer than a limit and its slack; None is no limit.
fn is_too_long(set: Option<Duration>, limit: Option<Duration>) -> bool {
    match (set, limit) {
        (_, None) => false,
        (None, Some(_)) => true,
        (Some(set), Some(limit)) => set.saturating_sub(slack_of(limit)) > limit,
    }
}

/// Returns whether a connection lets a read or a write wait for less than a limit; None is no limit.
fn is_too_short(set: Option<Duration>, limit: Option<Duration>) -> bool {
    match set {
        Some(set) => is_shorter(set, limit),
        None => false,
    }
}

/// Returns what is left of a limit after a wait; None is no limit.
#[cold]
fn rest_of(limit: Option<Duration>, waited: Option<Duration>) -> Option<Duration> {
    Some(limit?.saturating_sub(waited.unwrap_or(Duration::ZERO)))
}

/// Returns whether a time is shorter than another one; None is no limit.
pub(crate) fn is_shorter(one: Duration, other: Option<Duration>) -> bool {
    match other {
        Some(other) => one < other,
        None => true,
    }
}

/// A connection with a peer. It is read and written by its two ends alone.
#[derive(Drop)]
pub struct Connection {
    stream: TcpStream,
}

impl Connection {
    /// Returns the connection of a stream.
    pub fn of(stream: TcpStream) -> Connection {
        Connection { stream }
    }

    /// Returns the two ends of the connection, which lets a read and a write wait for `limit`.
    pub fn ends(&self, limit: Option<Duration>) -> (Inlet<'_>, Outlet<'_>) {
        ends_of(&self.stream, limit)
    }

    /// Makes the connection let a read wait for `limit`.
    pub(crate) fn set_read_limit(&self, limit: Option<Duration>) -> io::Result<()> {
        self.stream.set_read_timeout(limit)
    }

    /// Returns whether the peer has said something, or has closed or lost the connection, so that there is something to
    /// serve.
    pub(crate) fn has_spoken(&self) -> bool {
        match self.stream.peek(&mut [0]) {
            Ok(_) => true,
            Err(fault) => !matches!(
                fault.kind(),
                ErrorKind::WouldBlock | ErrorKind::TimedOut | ErrorKind::Interrupted
            ),
        }
    }
}

/// The end of a connection from which bytes are read. Nothing can be written on it.
#[derive(Drop)]
pub struct Inlet<'a> {
    stream: &'a TcpStream,
    /// How long the connection lets a read wait.
    limit: Cell<Option<Duration>>,
}

/// The end of a connection on which bytes are written. Nothing can be written on it but as on each [`Sink`].
#[derive(Drop)]
pub struct Outlet<'a> {
    stream: &'a TcpStream,
    /// How long the connection lets a write wait.
    limit: Option<Duration>,
}

/// Returns the two ends of a connection that lets a read and a write wait for `limit`.
pub fn ends_of<'a>(stream: &'a TcpStream, limit: Option<Duration>) -> (Inlet<'a>, Outlet<'a>) {
    let inlet = Inlet {
        stream,
        limit: Cell::new(limit),
    };
    let outlet = Outlet { stream, limit };
    (inlet, outlet)
}

impl<'a> Inlet<'a> {
    // Makes the connection let a read wait for `limit`.
    #[cold]
    fn set_limit(&self, limit: Option<Duration>) -> Result<(), WireFault> {
        self.stream.set_read_timeout(limit)?;
        self.limit.set(limit);
        Ok(())
    }

    /// Reads once.
    pub(crate) fn read_once(&self, buf: &mut [u8]) -> Result<usize, WireFault>
        ensures { IfOk result (λ count. count ≤ length buf.new) }
    {
        let mut reader = self.stream;
        Ok(reader.read(buf)?)
    }

    /// Reads once, waiting for `limit` or a little longer. If the connection lets a read wait for less, which is enough
    /// most often, waits for the rest after that: so most reads set no new limit.
    pub(crate) fn read_within(
        &self,
        buf: &mut [u8],
        limit: Option<Duration>,
    ) -> Result<usize, WireFault>
        ensures { IfOk result (λ count. count ≤ length buf.new) }
    {
        let set = self.limit.get();
        if set != limit && is_too_long(set, limit) {
            self.set_limit(limit)?;
        }
        let set = self.limit.get();
        match self.read_once(buf) {
            Err(fault) if fault.is_late() && is_too_short(set, limit) => {
                self.set_limit(rest_of(limit, set))?;
                self.read_once(buf)
            }
            read => read,
        }
    }

    /// Acknowledges at once what was received.
    pub(crate) fn acknowledge(&self) {
        socket::acknowledge(self.stream);
    }

    /// Returns whether something comes within `milliseconds`, or the connection ends.
    pub(crate) fn has_come(&self, milliseconds: i32) -> bool {
        socket::has_come(self.stream, milliseconds)
    }
}

impl<'a> Sink for Outlet<'a> {
    fn set_limit(&mut self, limit: Option<Duration>) -> Result<(), WireFault> {
        let set = self.limit;
        if set != limit && (is_too_long(set, limit) || is_too_short(set, limit)) {
            self.stream.set_write_timeout(limit)?;
            self.limit = limit;
        }
        Ok(())
    }

    fn write_backed<D: Noted, K: Keeping>(
        &mut self,
        due: &CommitDue<D>,
        committed: &Committed<K>,
        bytes: &[u8],
    ) -> Result<usize, WireFault> {
        let mut writer = self.stream;
        Ok(writer.write(bytes)?)
    }

    #[cold]
    fn write_abort(&mut self, alloc: Global) -> Result<(), WireFault> {
        let abort = Pdu::Abort {
            source: BY_PROVIDER,
            reason: NOT_SPECIFIED,
        };
        let abort = write_pdu(alloc, &abort)?;
        self.stream.set_nonblocking(true)?;
        let mut writer = self.stream;
        writer.write(abort.as_slice())?;
        Ok(())
    }
}
