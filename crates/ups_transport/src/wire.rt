//! A connection whose answers are sent together before the next read, and whose peer has a time limit.

ghost use Rattle.std.specs.Prelude.{◌≡◌, ◌≤◌, true, length, IfOk};
ghost use Rattle.ups_ledger.specs.Backed.{IsBacked};
ghost use Rattle.ups_transport.specs.Leaving.{HasLeft};

use crate::arrival::Arrival;
use crate::connection::{Inlet, is_shorter};
use crate::grace::{Activity, Pressure, Seen, Stay};
use crate::outbox::{CommitWait, Outbox, Pace};
use crate::outward::Departing;
use crate::patience::{Patience, left_of};
use crate::requests::Requests;
use crate::responses::Responses;
use crate::sink::Sink;
use crate::wire_fault::WireFault;
use log::Log;
use std::alloc::Global;
use std::cell::{Cell, RefCell};
use std::io::{self, ErrorKind, Read, Write};
use std::sync::ledger::Share;
use std::sync::{Mutex, Wait};
use std::time::{Clock, Duration, Instant};
use ups_ledger::{CommitDue, Keeping};
use ups_log::{Account, Failures, Overrun, reason_in};
use ups_pdu::PduKind;

/// The number of waiting bytes from which on they are sent at once.
const FULL: usize = 16_384;

/// The number of bytes of memory that a worker sets aside for the requests to come.
const AHEAD: usize = 65_536;

/// The number of answers between two times that it does so.
const ANSWERS: u32 = 16;

/// How long a peer may take.
#[derive(Clone, Copy)]
pub enum Deadline {
    /// The limits of a peer that sends requests.
    Request(TimeLimits),
    /// The limits of a watcher, to which this side sends requests.
    Answer(Patience),
}

/// How long a peer that sends requests may take.
#[derive(Clone, Copy)]
pub struct TimeLimits {
    /// The time until the first bytes of its next message come; None for no limit.
    pub idle: Option<Duration>,
    /// The time for a message, from its first bytes to its last, and to take a whole answer; None for no limit.
    pub message: Option<Duration>,
}

/// The peer of a wire.
#[derive(Clone, Copy)]
pub struct WirePeer<'a> {
    /// How long it may take.
    pub deadline: Deadline,
    /// What its association may have to make way for.
    pub pressure: Option<Pressure<'a>>,
    /// The account that learns of all that is read and sent, if there is one.
    pub account: Option<&'a Account<'a>>,
}

/// A connection, and the bytes that wait to be sent on it.
///
/// The bytes are sent before the next read, once there are 16 KiB of them, or by `send`. So one system call reads a
/// request that came whole and one sends its answer, however many PDUs these have; and answers that are sent together
/// wait for one commit.
///
/// A peer that sends or takes its bytes one by one has no more time for them than a silent one: after the first bytes
/// of a message, each read waits only for what is left of the limit, and so does each write after those of an answer.
/// The same holds for each read from a watcher, since it was sent a request. Between two messages, a peer that sends
/// requests may be silent for as long as another limit says.
///
/// A peer may hold back the rest of a PDU until its first bytes are acknowledged (Nagle's algorithm), and the system
/// acknowledges up to 40 ms late, or with the answer. So each read after unanswered bytes acknowledges them at once.
///
/// Nothing is promised about the bytes that are read and sent, except that they are sent only while at least as many
/// entries are committed as the pass of the association has noted.
#[derive(Drop)]
pub struct Wire<'a, R: Wait + Clock + Log, D: Departing, K: Keeping, S: Sink> {
    rt: &'a R,
    alloc: Global,
    inlet: Inlet<'a>,
    outbox: Outbox<'a, D, K, S>,
    deadline: Deadline,
    /// How far into a message the received bytes go.
    arrival: Cell<Arrival>,
    /// When the first bytes of an incomplete message came, or the last answer after them was sent; for a watcher, when
    /// it was sent a request.
    begun: Cell<Option<Instant>>,
    /// Whether bytes came since the last answer was sent.
    is_unanswered: Cell<bool>,
    /// When they last came, if an account learns how long the answer takes.
    came: Cell<Option<Instant>>,
    /// When the first bytes since the last read were sent; for a watcher, the first bytes of what is being sent.
    answering: Cell<Option<Instant>>,
    /// The limit that the peer ran into.
    overrun: Cell<Option<Overrun>>,
    /// Whether the association was accepted; for a watcher, whether it has answered the association request.
    is_open: Cell<bool>,
    /// The source and the reason for which the peer rejected the association.
    rejection: Cell<Option<(u8, u8)>>,
    /// How long it took to connect to a watcher and to get its answer to the association request.
    opening: Cell<Duration>,
    /// The requests of a peer that sends them.
    requests: RefCell<Requests>,
    /// The responses of a watcher.
    responses: RefCell<Responses>,
    /// The source and the reason for which this side aborted it.
    aborted: Cell<Option<(u8, u8)>>,
    /// Whether something was sent since the last read.
    is_speaking: Cell<bool>,
    /// What the association may have to make way for.
    pressure: Option<Pressure<'a>>,
    /// The number of bytes that came of the message that began at `begun`, and that left since `answering`.
    come: Cell<u32>,
    gone: Cell<u32>,
    /// The number of answers to send before memory is set aside again.
    answers: Cell<u32>,
    /// The account that learns of all that is read and sent, if there is one.
    account: Option<&'a Account<'a>>,
}

/// The reader of a connection, which first sends what waits.
#[derive(Drop)]
pub struct WireReader<'a, R: Wait + Clock + Log, D: Departing, K: Keeping, S: Sink> {
    wire: &'a Wire<'a, R, D, K, S>,
}

/// The writer of a connection, which appends to the bytes that wait to be sent.
#[derive(Drop)]
pub struct WireWriter<'a, R: Wait + Clock + Log, D: Departing, K: Keeping, S: Sink> {
    wire: &'a Wire<'a, R, D, K, S>,
}

/// Returns what is left of a limit since a moment, or all of it if there is no moment; None is no limit.
///
/// Errors: those of `left_of`.
fn left_since<R: Clock>(
    rt: &R,
    limit: Option<Duration>,
    since: Option<Instant>,
) -> Result<Option<Duration>, WireFault> {
    match (limit, since) {
        (Some(limit), Some(since)) => Ok(Some(left_of(rt, limit, since)?)),
        (limit, _) => Ok(limit),
    }
}

/// How long a read waits before it is looked whether others wait, and how long a write does, in milliseconds.
const READ_LOOK: u64 = 500;

const WRITE_LOOK: u64 = 100;

/// The longest time of one wait for the peer and the door, in milliseconds.
const MINUTE: i32 = 60_000;

/// Returns a number of bytes and that of further ones together.
fn added(bytes: u32, more: usize) -> u32 {
    bytes.saturating_add(u32::try_from(more).unwrap_or(u32::MAX))
}

/// Returns a time in whole milliseconds: at least one, and at most a minute, which also stands for no limit.
fn whole_milliseconds(time: Option<Duration>) -> i32 {
    match time {
        Some(time) => i32::try_from(time.as_millis())
            .unwrap_or(MINUTE)
            .clamp(1, MINUTE),
        None => MINUTE,
    }
}

impl<'a, R: Wait + Clock + Log, D: Departing, K: Keeping, S: Sink> Wire<'a, R, D, K, S> {
    /// Creates a connection with these two ends, on which nothing waits.
    ///
    /// The connection must already end each read and write that takes longer than a message may take or, for a watcher,
    /// the opening.
    pub fn new(
        rt: &'a R,
        alloc: Global,
        ends: (Inlet<'a>, S),
        peer: WirePeer<'a>,
        commit_wait: CommitWait<'a, K>,
        due: CommitDue<D>,
    ) -> Wire<'a, R, D, K, S>
        requires left { S.left ends.1 ≡ D.left }
    {
        let (inlet, sink) = ends;
        let WirePeer {
            deadline,
            pressure,
            account,
        } = peer;
        Wire {
            rt,
            alloc,
            inlet,
            outbox: Outbox::new(alloc, sink, commit_wait, due),
            deadline,
            arrival: Cell::new(Arrival::new()),
            begun: Cell::new(None),
            is_unanswered: Cell::new(false),
            came: Cell::new(None),
            answering: Cell::new(None),
            overrun: Cell::new(None),
            is_open: Cell::new(false),
            rejection: Cell::new(None),
            opening: Cell::new(Duration::ZERO),
            requests: RefCell::new(Requests::new(alloc)),
            responses: RefCell::new(Responses::new(alloc)),
            aborted: Cell::new(None),
            is_speaking: Cell::new(false),
            pressure,
            come: Cell::new(0),
            gone: Cell::new(0),
            answers: Cell::new(0),
            account,
        }
    }

    /// Returns the reader of this connection.
    pub fn reader(&'a self) -> WireReader<'a, R, D, K, S> {
        WireReader { wire: self }
    }

    /// Returns the writer of this connection.
    pub fn writer(&'a self) -> WireWriter<'a, R, D, K, S> {
        WireWriter { wire: self }
    }

    /// Returns how many entries must be committed before anything is sent: as many as what waits rests on.
    pub fn due(&self) -> &Mutex<CommitDue<D>> {
        self.outbox.due()
    }

    /// Sends what waits, once all that it rests on is committed.
    ///
    /// Afterwards nothing waits, even if sending failed. A message to a watcher that has used up its time for all of
    /// them is not begun: the association is aborted instead. If what an answer rests on was not committed in time,
    /// neither the answer nor anything after it is sent.
    ///
    /// # Errors
    ///
    /// If the connection fails; TimedOut if the peer takes too long or has used up its time, or what an answer rests on
    /// was not committed in time.
    pub fn send(&self) -> Result<(), WireFault> {
        let Some(first) = self.outbox.first() else {
            return Ok(());
        };
        if self.is_withheld() {
            return self.withhold();
        }
        if self.is_overdue(first) {
            return self.pause();
        }
        self.is_speaking.set(true);
        match self.outbox.send(self.rt, self) {
            Ok(true) => {
                self.set_aside();
                self.renew()
            }
            Ok(false) => self.withhold(),
            Err(fault) => self.fail(fault),
        }
    }

    /// Sends what waits, as `send` does, and returns whether that went well. Then as many entries are committed as a pass
    /// has noted, if requests are kept.
    pub fn finish(&self, share: &mut Share<D>) -> bool
        ensures { result ≡ true → IsBacked K.had share.old.amount }
    {
        self.send().is_ok() && self.outbox.is_backed(self.rt, share)
    }

    /// Returns the end on which was written. All that has left it rests on what was committed then.
    pub fn into_sink(self) -> S
        ensures { ∥ HasLeft K.had D.left (S.left result) ∥₁ }
    {
        let Wire { outbox, .. } = self;
        outbox.into_sink()
    }

    // Returns whether what an earlier answer rests on was not committed in time.
    fn is_withheld(&self) -> bool {
        matches!(self.overrun.get(), Some(Overrun::Commit))
    }

    // Returns whether what waits begins, with this byte, a message for which the peer no longer has time.
    fn is_overdue(&self, first: u8) -> bool {
        let Deadline::Answer(patience) = self.deadline else {
            return false;
        };
        let is_message = first == PduKind::Data.code();
        is_message && !self.is_speaking.get() && patience.is_over(self.rt)
    }

    // Aborts the association instead of sending a message.
    #[cold]
    fn pause(&self) -> Result<(), WireFault> {
        self.outbox.clear();
        self.overrun.set(Some(Overrun::Whole));
        let _ = self.outbox.abort(self.alloc);
        Err(WireFault::of(ErrorKind::TimedOut))
    }

    // Ends the association instead of sending an answer that rests on what is not committed.
    #[cold]
    fn withhold(&self) -> Result<(), WireFault> {
        self.outbox.clear();
        self.overrun.set(Some(Overrun::Commit));
        Err(WireFault::of(ErrorKind::TimedOut))
    }

    // Notes that the peer did not take an answer, if its time was over.
    #[cold]
    fn fail(&self, fault: WireFault) -> Result<(), WireFault> {
        if fault.is_late() {
            self.overrun.set(Some(Overrun::Answer));
        }
        Err(fault)
    }

    // Makes the memory of this thread grow for many requests at once. The C library would otherwise ask the system for
    // another page at nearly each request that is kept.
    fn set_aside(&self) {
        match self.answers.get() {
            0 => {
                let _ = Vec::<u8>::with_capacity(self.alloc, AHEAD);
                self.answers.set(ANSWERS);
            }
            left => self.answers.set(left - 1),
        }
    }

    // Appends bytes to those that wait, and returns how many wait now.
    fn put(&self, bytes: &[u8]) -> Result<usize, WireFault> {
        let waiting = self.outbox.put(bytes)?;
        if bytes.first() == Some(&PduKind::AssociateAc.code()) {
            self.is_open.set(true);
        } else if bytes.first() == Some(&PduKind::Abort.code()) {
            self.aborted.set(reason_in(bytes));
        }
        if let Some(account) = self.account {
            account.note(self.rt, self.alloc, bytes);
        }
        Ok(waiting)
    }

    // Returns how long the next read may wait; None is no limit.
    fn left_to_read(&self) -> Result<Option<Duration>, WireFault> {
        match (self.deadline, self.begun.get()) {
            (Deadline::Request(limits), None) => Ok(limits.idle),
            (Deadline::Request(limits), begun) => left_since(self.rt, limits.message, begun),
            (Deadline::Answer(patience), begun) => self.left_of_patience(patience, begun),
        }
    }

    // Returns what is left of the time of a watcher for what began at `begun`, or begins now.
    #[inline(never)]
    fn left_of_patience(
        &self,
        patience: Patience,
        begun: Option<Instant>,
    ) -> Result<Option<Duration>, WireFault> {
        Ok(Some(patience.left(self.rt, self.is_open.get(), begun)?))
    }

    // Gives the peer its whole time again after something was sent: for the rest of a message that has begun, or for
    // its answer.
    fn renew(&self) -> Result<(), WireFault> {
        self.is_unanswered.set(false);
        let is_asked = matches!(self.deadline, Deadline::Answer(_));
        if is_asked {
            self.answering.set(None);
        }
        if is_asked || self.begun.get().is_some() {
            self.begin()?;
        }
        Ok(())
    }

    // Notes that a message begins, or the time for it.
    fn begin(&self) -> Result<(), WireFault> {
        self.come.set(0);
        self.begun.set(Some(Instant::now(self.rt)?));
        Ok(())
    }

    // Notes received bytes.
    fn hear(&self, bytes: &[u8]) -> Result<(), WireFault> {
        if let Some(account) = self.account {
            account.hear(bytes);
            self.came.set(Instant::now(self.rt).ok());
        }
        self.is_unanswered.set(true);
        let is_request = matches!(self.deadline, Deadline::Request(_));
        let mut arrival = self.arrival.get();
        let is_ended = if is_request {
            self.hear_requests(&mut arrival, bytes)
        } else {
            self.hear_responses(&mut arrival, bytes)
        };
        self.arrival.set(arrival);
        if is_request && arrival.is_between() {
            self.begun.set(None);
        } else if self.begun.get().is_none() || (is_request && is_ended) {
            self.begin()?;
        } else {
            self.come.set(added(self.come.get(), bytes.len()));
        }
        Ok(())
    }

    // Notes bytes received from a peer that sends requests, and returns whether a command or a data set ends among them.
    fn hear_requests(&self, arrival: &mut Arrival, bytes: &[u8]) -> bool {
        match self.requests.try_borrow_mut() {
            Ok(mut requests) => arrival.take(bytes, &mut *requests),
            Err(_) => false,
        }
    }

    // Notes bytes received from a watcher, and returns whether a message ends among them.
    #[inline(never)]
    fn hear_responses(&self, arrival: &mut Arrival, bytes: &[u8]) -> bool {
        if bytes.first() == Some(&PduKind::AssociateRj.code()) && !self.is_open.get() {
            self.rejection.set(reason_in(bytes));
        }
        let is_ended = match self.responses.try_borrow_mut() {
            Ok(mut responses) => arrival.take(bytes, &mut *responses),
            Err(_) => false,
        };
        if is_ended && !self.is_open.get() {
            self.open();
        }
        is_ended
    }

    // Notes that a watcher has answered the association request.
    fn open(&self) {
        self.is_open.set(true);
        if let Deadline::Answer(patience) = self.deadline {
            let elapsed = patience.since.elapsed(self.rt);
            self.opening.set(elapsed.unwrap_or(Duration::ZERO));
        }
    }

    // Tells the account how long an answer took that is sent from `now` on.
    fn note_time(&self, now: Instant) {
        if let Some(account) = self.account
            && let Some(came) = self.came.get()
        {
            account.note_time(now.duration_since(came));
            self.came.set(None);
        }
    }

    // Returns what the association does, and for how long already, if nothing has come for `waited`.
    fn activity(&self, waited: Duration) -> (Activity, Duration) {
        let elapsed = match self.begun.get() {
            Some(begun) => begun.elapsed(self.rt).unwrap_or(waited),
            None => waited,
        };
        let activity = match (self.is_open.get(), self.begun.get()) {
            (true, None) => Activity::Idle,
            (true, Some(_)) => Activity::Moving(self.come.get()),
            (false, _) => Activity::Opening,
        };
        (activity, elapsed)
    }

    // Waits until the peer says something. Makes way if others wait at the door meanwhile.
    //
    // Errors: TimedOut if it makes way, or the rest of its time is over; those of the clock.
    #[cold]
    fn stay(&self, stay: &mut Stay<'a>, rest: Option<Duration>) -> Result<(), WireFault> {
        let since = Instant::now(self.rt)?;
        for _ in 0..u64::MAX {
            let left = left_since(self.rt, rest, Some(since))?;
            match stay.look(self.rt, &self.inlet, whole_milliseconds(left)) {
                Seen::Peer => return Ok(()),
                Seen::Others => {
                    self.overrun.set(Some(Overrun::Way));
                    break;
                }
                Seen::Nothing => {}
            }
        }
        Err(WireFault::of(ErrorKind::TimedOut))
    }

    // Reads once, and stays before that while others wait, or after nothing has come for a while.
    fn read_or_stay(
        &self,
        buf: &mut [u8],
        pressure: Pressure<'a>,
        left: Option<Duration>,
    ) -> Result<usize, WireFault>
        ensures { IfOk result (λ count. count ≤ length buf.new) }
    {
        let mut waited = Duration::ZERO;
        if !pressure.is_felt() {
            waited = Duration::from_millis(READ_LOOK);
            match self.inlet.read_within(buf, Some(waited)) {
                Err(fault) if fault.is_late() => {}
                read => return read,
            }
        }
        let (activity, elapsed) = self.activity(waited);
        let mut stay = Stay::new(self.rt, pressure, activity, elapsed);
        let stayed = self.stay(&mut stay, left.map(|left| left.saturating_sub(waited)));
        stay.end(self.rt);
        stayed?;
        self.inlet.read_once(buf)
    }

    // Reads once. Acknowledges what came and isn't answered before waiting for more.
    fn try_receive(&self, buf: &mut [u8]) -> Result<usize, WireFault>
        ensures { IfOk result (λ count. count ≤ length buf.new) }
    {
        let left = self.left_to_read()?;
        if self.is_unanswered.get() || self.begun.get().is_some() {
            self.inlet.acknowledge();
        }
        match self.pressure {
            Some(pressure) if is_shorter(Duration::from_millis(READ_LOOK), left) => {
                self.read_or_stay(buf, pressure, left)
            }
            _ => self.inlet.read_within(buf, left),
        }
    }

    // Returns whether the association makes way, of whose answer the peer has taken too little since `begun`.
    #[cold]
    fn stops_writing(&self, pressure: Pressure<'a>, begun: Instant) -> bool {
        let elapsed = begun.elapsed(self.rt).unwrap_or(Duration::ZERO);
        let activity = Activity::Moving(self.gone.get());
        let mut stay = Stay::new(self.rt, pressure, activity, elapsed);
        let makes_way = stay.makes_way(self.rt);
        stay.end(self.rt);
        makes_way
    }

    // Returns what is left of the time to write, or how long a write waits before it is looked whether others wait.
    //
    // Errors: TimedOut if the association makes way.
    fn left_under(
        &self,
        pressure: Pressure<'a>,
        begun: Option<Instant>,
        left: Option<Duration>,
    ) -> Result<Option<Duration>, WireFault> {
        if let Some(begun) = begun
            && pressure.is_felt()
            && self.stops_writing(pressure, begun)
        {
            return Err(WireFault::of(ErrorKind::TimedOut));
        }
        let look = Duration::from_millis(WRITE_LOOK);
        if is_shorter(look, left) {
            return Ok(Some(look));
        }
        Ok(left)
    }

    // Reads once, in what is left of the time.
    fn receive(&self, buf: &mut [u8]) -> Result<usize, WireFault>
        ensures { IfOk result (λ count. count ≤ length buf.new) }
    {
        match self.try_receive(buf) {
            Ok(count) => {
                self.hear(buf.get(..count).unwrap_or(&[]))?;
                Ok(count)
            }
            Err(fault) => {
                if fault.is_late() && self.overrun.get().is_none() {
                    self.overrun.set(Some(match self.begun.get() {
                        Some(_) => Overrun::Message,
                        None => Overrun::Idle,
                    }));
                }
                Err(fault)
            }
        }
    }

    /// Returns the limit that the peer ran into, if any.
    pub fn overrun(&self) -> Option<Overrun> {
        self.overrun.get()
    }

    /// Returns how long it took to connect to the peer and to get its answer to the association request.
    pub fn opening(&self) -> Duration {
        self.opening.get()
    }

    /// Returns the responses with a failure status.
    pub fn failures(&self) -> Failures {
        match self.responses.try_borrow() {
            Ok(responses) => responses.failures(),
            Err(_) => Failures::none(),
        }
    }

    /// Returns the source and the reason for which the peer rejected the association or this side aborted it, if either
    /// did.
    pub fn reason(&self) -> Option<(u8, u8)> {
        self.aborted.get().or(self.rejection.get())
    }

    /// Aborts the association of a peer that ran into a limit or had to make way, or whose answer was withheld.
    ///
    /// Sends an A-ABORT by the service provider (PS3.8 section 9.3.8), as far as the connection takes it at once. Sends
    /// nothing if the peer didn't take an answer, since the last PDU of that may have been sent in part; nor if no
    /// association was accepted.
    pub fn abort_late(&self) {
        let is_due = matches!(
            self.overrun.get(),
            Some(Overrun::Idle | Overrun::Message | Overrun::Way | Overrun::Commit)
        );
        if is_due && self.is_open.get() {
            let _ = self.outbox.abort(self.alloc);
        }
    }
}

impl<'a, R: Wait + Clock + Log, D: Departing, K: Keeping, S: Sink> Pace for Wire<'a, R, D, K, S> {
    fn left_to_write(&self) -> Result<Option<Duration>, WireFault> {
        let begun = self.answering.get();
        if begun.is_none() {
            let now = Instant::now(self.rt)?;
            self.answering.set(Some(now));
            self.gone.set(0);
            self.note_time(now);
        }
        let left = match self.deadline {
            Deadline::Request(limits) => left_since(self.rt, limits.message, begun),
            Deadline::Answer(patience) => self.left_of_patience(patience, begun),
        }?;
        match self.pressure {
            Some(pressure) => self.left_under(pressure, begun, left),
            None => Ok(left),
        }
    }

    fn note_written(&self, count: usize) {
        self.gone.set(added(self.gone.get(), count));
    }

    fn tries_again(&self) -> bool {
        self.pressure.is_some()
    }
}

impl<'a, R: Wait + Clock + Log, D: Departing, K: Keeping, S: Sink> Read
    for WireReader<'a, R, D, K, S> {
    fn read(&mut self, buf: &mut [u8]) -> io::Result<usize> {
        self.wire.send()?;
        self.wire.answering.set(None);
        self.wire.is_speaking.set(false);
        Ok(self.wire.receive(buf)?)
    }
}

impl<'a, R: Wait + Clock + Log, D: Departing, K: Keeping, S: Sink> Write
    for WireWriter<'a, R, D, K, S> {
    fn write(&mut self, buf: &[u8]) -> io::Result<usize> {
        if self.wire.put(buf)? >= FULL {
            self.wire.send()?;
        }
        Ok(buf.len())
    }

    fn flush(&mut self) -> io::Result<()> {
        Ok(self.wire.send()?)
    }
}
