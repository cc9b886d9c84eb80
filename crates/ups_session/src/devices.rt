//! A reader, a writer and a gate over memory, which record what they did.

ghost use Rattle.std.specs.Prelude.{◌≡◌, [], ◌∷◌, ◌+◌, ◌<◌, false, not, length, slice_index};
ghost use Rattle.ups_session.specs.declared.gate.GateCall.TheVariants.{Moment};
ghost use Rattle.ups_life.specs.Settings.{IsMoment};
ghost use Rattle.ups_session.specs.Tells.{Tells, told_calls};

use crate::gate::{Gate, GateCall};
use std::alloc::Allocator;
use std::io;
use std::io::{Error, ErrorKind, Read, Write};
use ups_life::MAX_MOMENT;

/// A reader that yields its bytes, and then ends or fails.
#[derive(Drop)]
pub struct CutReader<'a> {
    rest: &'a [u8],
    fails: bool,
}

impl<'a> CutReader<'a> {
    /// Creates a reader of these bytes, which then fails if `fails` is true, and else ends.
    pub fn new(rest: &'a [u8], fails: bool) -> CutReader<'a>
        ensures rest { result.rest.now ≡ rest.now }
        ensures fails { result.fails ≡ fails }
    {
        CutReader { rest, fails }
    }
}

impl<'a> Read for CutReader<'a> {
    ghost use Rattle.std.specs.Prelude.{Some};

    ghost remaining = { λ r. Some r.rest.now };

    fn read(&mut self, buf: &mut [u8]) -> io::Result<usize> {
        if self.fails && self.rest.is_empty() {
            return Err(Error::from(ErrorKind::ConnectionReset));
        }
        self.rest.read(buf)
    }
}

/// A writer that takes a number of bytes, and then fails.
#[derive(Drop)]
pub struct CutWriter<A: Allocator + Copy> {
    written: Vec<u8, A>,
    room: usize,
}

impl<A: Allocator + Copy> CutWriter<A> {
    /// Creates a writer that takes `room` bytes.
    pub fn new(alloc: A, room: usize) -> CutWriter<A>
        ensures written { result.written.items ≡ [] }
        ensures room { result.room ≡ room }
    {
        CutWriter {
            written: Vec::new(alloc),
            room,
        }
    }

    /// Returns the bytes that were written.
    pub fn written(&self) -> &[u8]
        ensures { result.now ≡ self.now.written.items }
    {
        self.written.as_slice()
    }
}

impl<A: Allocator + Copy> Write for CutWriter<A> {
    ghost use Rattle.std.specs.Prelude.{Some};

    ghost contents = { λ w. Some w.written.items };

    fn write(&mut self, buf: &[u8]) -> io::Result<usize> {
        let count = self.room.min(buf.len());
        if count == 0 && !buf.is_empty() {
            return Err(Error::from(ErrorKind::BrokenPipe));
        }
        self.written.extend_from_slice(&buf[..count])?;
        self.room -= count;
        Ok(count)
    }

    fn flush(&mut self) -> io::Result<()> {
        Ok(())
    }
}

/// A gate that gives the moments of a list, and moment 0 after them. It records its calls until memory runs out.
#[derive(Drop)]
pub struct ListGate<'a, A: Allocator + Copy> {
    moments: &'a [u64],
    given: usize,
    calls: Vec<GateCall, A>,
    over: bool,
}

impl<'a, A: Allocator + Copy> ListGate<'a, A> {
    /// Creates a gate of these moments, in seconds since 1970-01-01 UTC. One above `MAX_MOMENT` ends the list.
    pub fn new(alloc: A, moments: &'a [u64]) -> ListGate<'a, A>
        ensures moments { result.moments.now ≡ moments.now }
        ensures given { result.given ≡ 0 }
        ensures calls { result.calls.items ≡ [] }
        ensures over { result.over ≡ false }
    {
        ListGate {
            moments,
            given: 0,
            calls: Vec::new(alloc),
            over: false,
        }
    }

    /// Returns the recorded calls, in order.
    pub fn calls(&self) -> &[GateCall]
        ensures { result.now ≡ self.now.calls.items }
    {
        self.calls.as_slice()
    }

    /// Returns the next moment of the list, or moment 0 after it.
    fn moment(&mut self) -> u64
        ensures within { IsMoment result }
        ensures next { self.old.given < length self.old.moments.now → IsMoment (slice_index self.old.moments.now self.old.given)
            → (result ≡ slice_index self.old.moments.now self.old.given) × (self.new.given ≡ self.old.given + 1) }
        ensures moments { self.new.moments.now ≡ self.old.moments.now }
        ensures calls { self.new.calls.items ≡ self.old.calls.items }
        ensures over { self.new.over ≡ self.old.over }
    {
        if self.given < self.moments.len() {
            let moment = self.moments[self.given];
            if moment <= MAX_MOMENT {
                self.given += 1;
                return moment;
            }
        }
        0
    }

    /// Records a call.
    fn record(&mut self, call: GateCall)
        ensures tells { Tells (told_calls self.old.calls.items (not self.old.over)) (told_calls self.new.calls.items (not self.new.over)) (call ∷ []) }
        ensures given { self.new.given ≡ self.old.given }
        ensures moments { self.new.moments.now ≡ self.old.moments.now }
    {
        if !self.over {
            self.over = self.calls.push(call).is_err();
        }
    }
}

impl<'a, A: Allocator + Copy> Gate for ListGate<'a, A> {
    ghost use Rattle.ups_session.specs.Tells.{told_calls};
    ghost use Rattle.std.specs.Prelude.{not};

    ghost told = { λ g. told_calls g.calls.items (not g.over) };

    fn now(&mut self) -> u64
        ensures tells { Tells (told_calls self.old.calls.items (not self.old.over)) (told_calls self.new.calls.items (not self.new.over)) (Moment result ∷ []) }
        ensures within { IsMoment result }
        ensures next { self.old.given < length self.old.moments.now → IsMoment (slice_index self.old.moments.now self.old.given)
            → (result ≡ slice_index self.old.moments.now self.old.given) × (self.new.given ≡ self.old.given + 1) }
        ensures moments { self.new.moments.now ≡ self.old.moments.now }
    {
        let moment = self.moment();
        self.record(GateCall::Moment(moment));
        moment
    }

    fn before_write(&mut self) {
        self.record(GateCall::Before);
    }

    fn after_write(&mut self) {
        self.record(GateCall::After);
    }
}
