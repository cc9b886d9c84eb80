//! The outbox of a connection: what waits to be sent, what that rests on, and the commits behind it.

ghost use Rattle.std.specs.Prelude.{◌≡◌, ◌≤◌, true, length, IfOk, IfSome};
ghost use Rattle.ups_ledger.specs.Backed.{IsBacked};
ghost use Rattle.ups_transport.specs.Leaving.{HasLeft};

use crate::outward::{Departing, Outward};
use crate::sink::Sink;
use crate::wire_fault::WireFault;
use std::alloc::Global;
use std::cell::RefCell;
use std::io::{self, ErrorKind, Write};
use std::sync::ledger::Share;
use std::sync::{Mutex, Wait};
use std::time::{Clock, Duration};
use ups_ledger::{CommitDue, Commits, Committed, Keeping};

/// What answers wait for before they are sent: until as many entries are committed as they rest on, for at most
/// `limit`.
#[derive(Drop)]
pub struct CommitWait<'a, K: Keeping> {
    pub commits: &'a Commits<K>,
    pub limit: Duration,
}

/// What says how long a write may wait.
pub(crate) trait Pace {
    /// Returns how long the next write may wait; None is no limit.
    ///
    /// # Errors
    ///
    /// TimedOut if the time of the peer is over; those of the clock.
    fn left_to_write(&self) -> Result<Option<Duration>, WireFault>;

    /// Notes that so many bytes left.
    fn note_written(&self, count: usize);

    /// Returns whether a write that waited in vain is to be tried again, if its time is not over.
    fn tries_again(&self) -> bool;
}

/// The bytes that wait to be sent on a connection. All that is sent on it leaves here.
#[derive(Drop)]
pub(crate) struct Outbox<'a, D: Departing, K: Keeping, S: Sink> {
    outward: RefCell<Outward<D, K, S>>,
    waiting: RefCell<Vec<u8>>,
    /// The number of entries that must be committed before anything is sent.
    due: Mutex<CommitDue<D>>,
    commit_wait: CommitWait<'a, K>,
}

/// The sending of what waits. At least as many entries are committed as are due.
#[derive(Drop)]
struct Departure<'a, P: Pace, D: Departing, K: Keeping, S: Sink> {
    outward: &'a mut Outward<D, K, S>,
    pace: &'a P,
    due: &'a CommitDue<D>,
    committed: &'a Committed<K>,
    ghost backed: { due.now.seen.total ≤ committed.now.count },
}

impl<'a, P: Pace, D: Departing, K: Keeping, S: Sink> Departure<'a, P, D, K, S> {
    // Writes once, in what is left of the time.
    fn write_once(&mut self, buf: &[u8]) -> Result<usize, WireFault>
        ensures { IfOk result (λ count. count ≤ length buf.now) }
    {
        self.outward.set_limit(self.pace.left_to_write()?)?;
        let written = self.outward.write_backed(self.due, self.committed, buf);
        match written {
            Ok(count) => self.pace.note_written(count),
            Err(fault) if fault.is_late() && self.pace.tries_again() => {
                return Err(WireFault::of(ErrorKind::Interrupted));
            }
            Err(_) => {}
        }
        written
    }
}

impl<'a, P: Pace, D: Departing, K: Keeping, S: Sink> Write for Departure<'a, P, D, K, S> {
    fn write(&mut self, buf: &[u8]) -> io::Result<usize> {
        match self.write_once(buf) {
            Ok(count) => Ok(count),
            Err(fault) => Err(io::Error::from(fault)),
        }
    }

    fn flush(&mut self) -> io::Result<()> {
        Ok(())
    }
}

impl<'a, D: Departing, K: Keeping, S: Sink> Outbox<'a, D, K, S> {
    /// Creates an outbox in which nothing waits.
    pub(crate) fn new(
        alloc: Global,
        sink: S,
        commit_wait: CommitWait<'a, K>,
        due: CommitDue<D>,
    ) -> Outbox<'a, D, K, S>
        requires left { S.left sink ≡ D.left }
    {
        Outbox {
            outward: RefCell::new(Outward::new(sink)),
            waiting: RefCell::new(Vec::new(alloc)),
            due: Mutex::new(due),
            commit_wait,
        }
    }

    /// Returns how many entries must be committed before anything is sent: as many as what waits rests on.
    pub(crate) fn due(&self) -> &Mutex<CommitDue<D>> {
        &self.due
    }

    /// Appends bytes to those that wait, and returns how many wait now.
    ///
    /// # Errors
    ///
    /// If memory runs out.
    pub(crate) fn put(&self, bytes: &[u8]) -> Result<usize, WireFault> {
        let Ok(mut waiting) = self.waiting.try_borrow_mut() else {
            return Err(WireFault::of(ErrorKind::ResourceBusy));
        };
        waiting.extend_from_slice(bytes)?;
        Ok(waiting.len())
    }

    /// Returns the first byte that waits, or None if none does.
    pub(crate) fn first(&self) -> Option<u8> {
        match self.waiting.try_borrow() {
            Ok(waiting) => waiting.first().copied(),
            Err(_) => None,
        }
    }

    /// Throws away what waits.
    #[cold]
    pub(crate) fn clear(&self) {
        if let Ok(mut waiting) = self.waiting.try_borrow_mut() {
            waiting.clear();
        }
    }

    // Waits until as many entries are committed as are due. Returns None if that was not in time.
    fn committed_for<R: Wait + Clock>(&self, rt: &R, due: &CommitDue<D>) -> Option<Committed<K>>
        ensures { IfSome result (λ committed. due.now.seen.total ≤ committed.count) }
    {
        let wait = &self.commit_wait;
        wait.commits.wait_for(rt, due.entries()?, wait.limit)
    }

    /// Sends what waits, once all that it rests on is committed. Returns false, and sends nothing, if that was not
    /// committed in time. Afterwards nothing waits, even if sending failed.
    ///
    /// # Errors
    ///
    /// If the connection fails; TimedOut if the peer takes too long.
    pub(crate) fn send<P: Pace, R: Wait + Clock>(
        &self,
        rt: &R,
        pace: &P,
    ) -> Result<bool, WireFault> {
        let Ok(mut waiting) = self.waiting.try_borrow_mut() else {
            return Err(WireFault::of(ErrorKind::ResourceBusy));
        };
        let Ok(mut outward) = self.outward.try_borrow_mut() else {
            return Err(WireFault::of(ErrorKind::ResourceBusy));
        };
        let due = self.due.lock(rt);
        let Some(committed) = self.committed_for(rt, &due) else {
            waiting.clear();
            return Ok(false);
        };
        let mut departure = Departure {
            outward: &mut outward,
            pace,
            due: &due,
            committed: &committed,
        };
        let sent = departure.write_all(waiting.as_slice());
        waiting.clear();
        sent?;
        Ok(true)
    }

    /// Returns whether as many entries are committed as are due, which are at least those that a pass has noted.
    pub(crate) fn is_backed<R: Wait>(&self, rt: &R, share: &mut Share<D>) -> bool
        ensures { result ≡ true → IsBacked K.had share.old.amount }
    {
        let mut due = self.due.lock(rt);
        due.audit(share);
        let Some(entries) = due.entries() else {
            return false;
        };
        let Some(_committed) = self.commit_wait.commits.reached(entries) else {
            return false;
        };
        true
    }

    /// Sends an A-ABORT, without waiting. It rests on no entry.
    ///
    /// # Errors
    ///
    /// If memory runs out, or the connection fails.
    pub(crate) fn abort(&self, alloc: Global) -> Result<(), WireFault> {
        match self.outward.try_borrow_mut() {
            Ok(mut outward) => outward.write_abort(alloc),
            Err(_) => Err(WireFault::of(ErrorKind::ResourceBusy)),
        }
    }

    /// Returns the sink. All that has left it rests on what was committed then.
    pub(crate) fn into_sink(self) -> S
        ensures { ∥ HasLeft K.had D.left (S.left result) ∥₁ }
    {
        let Outbox { outward, .. } = self;
        outward.into_inner().into_sink()
    }
}
