//! The door of a server: which connection a worker serves next.

use crate::connection::Connection;
use crate::grace::Pressure;
use crate::network::Network;
use crate::socket::{is_waited, lengthen_queue, limit_of};
use crate::tenants::Tenants;
use log::Log;
use std::alloc::Global;
use std::io::{self, ErrorKind};
use std::net::{IpAddr, SocketAddr, TcpListener};
use std::sync::atomic::{AtomicBool, AtomicU64, Ordering};
use std::sync::{Mutex, Wait};
use std::thread;
use std::time::{Clock, Duration};
use ups_log::{milliseconds_of, moment_of, tell_all_taken};

/// The number of milliseconds of one look for the first bytes of a connection.
const LOOK: u64 = 20;

/// The number of looks in a second.
const LOOKS: u64 = 1_000 / LOOK;

/// The number of milliseconds that a worker pauses after a connection could not be accepted. If no descriptor is left,
/// `accept` fails at once, and without a pause the worker would keep a processor busy.
const PAUSE: u64 = 100;

/// The value of `tenure` and of `waited_since` if nobody waits.
pub(crate) const NOBODY: u64 = 0;

/// The number of seconds until it is logged again that all workers are taken.
const QUIET: u64 = 60;

/// A connection that a peer has made.
#[derive(Drop)]
pub struct Caller {
    /// The connection.
    pub connection: Connection,
    /// The address of the peer.
    pub address: SocketAddr,
}

/// A listener that workers share.
///
/// A peer asks for an association as soon as it is connected (PS3.8 section 9.2.1). A connection that says nothing
/// keeps its worker for at most one time limit, and makes way after a second if another one is waiting. Each further
/// one in a row that says nothing makes way in half the time of the one before it, so silent peers keep nobody out for
/// long. An association makes way so that all that wait are served within about 20 seconds, whatever its peer does. No contract
/// covers that: `trials/abuse.py` and `trials/crowds.py` measure it.
pub struct Door {
    listener: TcpListener,
    /// Whether a worker is checking for a waiting connection. The listener doesn't block meanwhile.
    looking: AtomicBool,
    /// The number of associations that have a number.
    numbered: AtomicU64,
    /// The number of workers that serve an association.
    taken: AtomicU64,
    /// The number of workers that wait for a connection, or for the first bytes of one.
    free: AtomicU64,
    /// For how many milliseconds an association may keep its worker while others wait; 0 if nobody waits.
    tenure: AtomicU64,
    /// Since when others wait, in milliseconds since 1970-01-01 UTC; 0 if nobody does.
    waited_since: AtomicU64,
    /// The associations that have a worker, once there was one.
    tenants: Mutex<Option<Tenants>>,
    /// When it was last logged that all workers are taken, in seconds since 1970-01-01 UTC. Only the sweeper's thread
    /// logs it.
    told: AtomicU64,
}

impl Drop for Door {
    fn drop(self) {
        let Door {
            listener: _,
            looking: _,
            numbered: _,
            taken: _,
            free: _,
            tenure: _,
            waited_since: _,
            tenants: _,
            told: _,
        } = self;
    }
}

/// Returns how many times a worker looks for the first bytes of a connection, with a time limit in seconds (0: none).
fn looks_of(seconds: u32) -> u64 {
    if seconds == 0 {
        return u64::MAX;
    }
    u64::from(seconds) * LOOKS
}

impl Door {
    /// Creates the door of a listener.
    pub fn new(listener: TcpListener) -> Door {
        lengthen_queue(&listener);
        Door {
            listener,
            looking: AtomicBool::new(false),
            numbered: AtomicU64::new(0),
            taken: AtomicU64::new(0),
            free: AtomicU64::new(0),
            tenure: AtomicU64::new(NOBODY),
            waited_since: AtomicU64::new(NOBODY),
            tenants: Mutex::new(None),
            told: AtomicU64::new(0),
        }
    }

    /// Returns the address at which it listens.
    ///
    /// # Errors
    ///
    /// If the listener fails.
    pub fn address(&self) -> io::Result<SocketAddr> {
        self.listener.local_addr()
    }

    /// Returns the number of the next association: 1, 2 and so on.
    pub fn next_number(&self) -> u64 {
        self.numbered
            .fetch_add(1, Ordering::SeqCst)
            .saturating_add(1)
    }

    /// Notes that an association takes a worker, and returns what it may have to make way for. `number` is its number,
    /// and `address` that of its peer.
    pub fn take_worker<R: Wait + Clock>(
        &self,
        rt: &R,
        alloc: Global,
        number: u64,
        address: SocketAddr,
    ) -> Pressure<'_> {
        self.taken.fetch_add(1, Ordering::SeqCst);
        let address = address.ip();
        let mut tenants = self.tenants.lock(rt);
        match &mut *tenants {
            Some(tenants) => tenants.add(number, address),
            None => {
                let mut first = Tenants::new(alloc);
                first.add(number, address);
                *tenants = Some(first);
            }
        }
        Pressure {
            door: self,
            number,
            address,
            since: milliseconds_of(rt),
        }
    }

    /// Notes that the worker of the association with this number is free again.
    pub fn free_worker<R: Wait>(&self, rt: &R, number: u64) {
        self.taken.fetch_sub(1, Ordering::SeqCst);
        if let Some(tenants) = &mut *self.tenants.lock(rt) {
            tenants.remove(number);
        }
    }

    /// Returns how many workers serve an association.
    pub fn taken(&self) -> u64 {
        self.taken.load(Ordering::SeqCst)
    }

    // Returns whether to warn now that all workers are taken, since there was no such warning for a minute.
    fn is_to_be_told(&self, now: u64) -> bool {
        let told = self.told.load(Ordering::SeqCst);
        let is_quiet = told <= now && now - told < QUIET;
        if !is_quiet {
            self.told.store(now, Ordering::SeqCst);
        }
        !is_quiet
    }

    /// Returns how many connections wait to be accepted, or None if the system does not tell.
    pub fn count_waiting<R: Network>(&self, rt: &R) -> Option<u64> {
        rt.waiting_at(self.address().ok()?)
    }

    /// Warns that all `workers` workers serve an association, if they do, and how many connections wait: at most once a
    /// minute.
    pub fn tell_taken<R: Clock + Log + Network>(&self, rt: &R, workers: u32) {
        let taken = self.taken.load(Ordering::SeqCst);
        if taken >= u64::from(workers) && self.is_to_be_told(moment_of(rt)) {
            tell_all_taken(rt, workers, self.count_waiting(rt));
        }
    }

    // Returns how many connections wait for a worker that serves an association. Those that are free now, and those whose
    // connection says nothing, accept one each. If the system does not tell how many wait, it is one.
    fn count_kept_out<R: Network>(&self, rt: &R) -> u64 {
        if !self.is_waited() {
            return 0;
        }
        let waiting = self.count_waiting(rt).unwrap_or(1);
        waiting.saturating_sub(self.free.load(Ordering::SeqCst))
    }

    /// Counts the connections that wait, so that associations make way for them. To be called about once a second.
    pub fn note_waiting<R: Wait + Clock + Network>(&self, rt: &R) {
        let waiting = self.count_kept_out(rt);
        if waiting == 0 {
            self.note_nobody();
            return;
        }
        let now = milliseconds_of(rt);
        let is_first = self.waited_since() == NOBODY;
        if let Some(tenants) = &mut *self.tenants.lock(rt) {
            let tenure = tenants.note_waiting(now, waiting, is_first);
            if is_first {
                self.waited_since.store(now, Ordering::SeqCst);
            }
            self.tenure.store(tenure, Ordering::SeqCst);
        }
    }

    // Notes that nobody waits.
    fn note_nobody(&self) {
        self.tenure.store(NOBODY, Ordering::SeqCst);
        self.waited_since.store(NOBODY, Ordering::SeqCst);
    }

    // Accepts the next connection. It sends each answer at once (TCP_NODELAY), and one look waits for its first bytes.
    fn accept(&self, seconds: u32) -> io::Result<Caller> {
        let (stream, address) = self.listener.accept()?;
        if self.tenure() != NOBODY && !self.is_waited() {
            self.note_nobody();
        }
        stream.set_nodelay(true)?;
        stream.set_read_timeout(Some(Duration::from_millis(LOOK)))?;
        stream.set_write_timeout(limit_of(seconds))?;
        Ok(Caller {
            connection: Connection::of(stream),
            address,
        })
    }

    // Waits for the next connection. Pauses after one that can't be accepted.
    fn wait<R: Wait + Clock>(&self, rt: &R, seconds: u32) -> Caller {
        for _ in rt.forever() {
            match self.accept(seconds) {
                Ok(caller) => return caller,
                Err(fault) if fault.kind() == ErrorKind::WouldBlock => {
                    thread::sleep(rt, Duration::from_millis(1));
                }
                Err(_) => thread::sleep(rt, Duration::from_millis(PAUSE)),
            }
        }
        unreachable!()
    }

    // Accepts a connection that waits already. The listener blocks again afterwards.
    fn accept_waiting(&self, seconds: u32) -> io::Result<Caller> {
        self.listener.set_nonblocking(true)?;
        let accepted = self.accept(seconds);
        self.listener.set_nonblocking(false)?;
        accepted
    }

    // Accepts a connection that waits already. Returns None if none does, or another worker is looking for one.
    fn waiting(&self, seconds: u32) -> Option<Caller> {
        if self.looking.swap(true, Ordering::SeqCst) {
            return None;
        }
        let accepted = self.accept_waiting(seconds);
        self.looking.store(false, Ordering::SeqCst);
        accepted.ok()
    }

    // Waits until a connection says something, and returns it, or one for which it had to make way. Returns None when
    // the limit is over: the connection is closed then, before the next one is waited for.
    fn spoken<R: Wait + Clock>(&self, rt: &R, caller: Caller, seconds: u32) -> Option<Caller> {
        let mut caller = caller;
        let mut looks: u64 = 0;
        let mut patience = LOOKS;
        for _ in rt.forever() {
            if caller.connection.has_spoken() {
                return Some(caller);
            }
            looks = looks.saturating_add(1);
            if looks >= patience
                && let Some(other) = self.waiting(seconds)
            {
                caller = other;
                looks = 0;
                patience = (patience / 2).max(1);
            } else if looks >= looks_of(seconds) {
                return None;
            }
        }
        unreachable!()
    }

    /// Returns for how many milliseconds an association may keep its worker while others wait; 0 if nobody waits.
    pub(crate) fn tenure(&self) -> u64 {
        self.tenure.load(Ordering::SeqCst)
    }

    /// Returns since when others wait, in milliseconds since 1970-01-01 UTC; 0 if nobody does.
    pub(crate) fn waited_since(&self) -> u64 {
        self.waited_since.load(Ordering::SeqCst)
    }

    /// Returns whether a connection waits to be accepted.
    pub(crate) fn is_waited(&self) -> bool {
        is_waited(&self.listener)
    }

    /// Returns whether an association of this address is spared, since another address has more than half of the workers.
    pub(crate) fn is_spared<R: Wait>(&self, rt: &R, address: IpAddr) -> bool {
        match &*self.tenants.lock(rt) {
            Some(tenants) => tenants.is_spared(address),
            None => false,
        }
    }

    // Returns whether an association makes way now: the first one of those that are to, if no worker is about to be free, or
    // each if more connections wait than workers make way.
    fn is_free_to_go(&self, tenants: &Tenants, number: u64) -> bool {
        if tenants.is_crowded() {
            return true;
        }
        self.free.load(Ordering::SeqCst) == 0 && tenants.is_next(number)
    }

    /// Notes that an association is to make way, whose peer has been silent since a moment in milliseconds since
    /// 1970-01-01 UTC. Returns whether it does so before all others that are to. Each asks at each of its looks, so the
    /// first one is known at its second look.
    pub(crate) fn is_next<R: Wait>(&self, rt: &R, number: u64, silent_since: u64) -> bool {
        match &mut *self.tenants.lock(rt) {
            Some(tenants) => {
                tenants.note_silence(number, Some(silent_since));
                self.is_free_to_go(tenants, number)
            }
            None => true,
        }
    }

    /// Returns whether an association makes way, and notes that it does.
    pub(crate) fn lets_go<R: Wait>(&self, rt: &R, number: u64) -> bool {
        match &mut *self.tenants.lock(rt) {
            Some(tenants) => {
                let lets_go = self.is_free_to_go(tenants, number);
                if lets_go {
                    tenants.note_leaving(number);
                }
                lets_go
            }
            None => true,
        }
    }

    /// Notes that an association is no longer to make way.
    pub(crate) fn step_back<R: Wait>(&self, rt: &R, number: u64) {
        if let Some(tenants) = &mut *self.tenants.lock(rt) {
            tenants.note_silence(number, None);
        }
    }

    /// Waits for the next connection that says something, with a limit in seconds for each read and write (0: none).
    ///
    /// One that says nothing is closed if it has to make way, or when the limit is over.
    pub fn next_connection<R: Wait + Clock>(&self, rt: &R, seconds: u32) -> Caller {
        self.free.fetch_add(1, Ordering::SeqCst);
        let caller = self.next_spoken(rt, seconds);
        self.free.fetch_sub(1, Ordering::SeqCst);
        caller
    }

    // Waits for the next connection that says something.
    fn next_spoken<R: Wait + Clock>(&self, rt: &R, seconds: u32) -> Caller {
        for _ in rt.forever() {
            let caller = self.wait(rt, seconds);
            let Some(caller) = self.spoken(rt, caller, seconds) else {
                continue;
            };
            if caller.connection.set_read_limit(limit_of(seconds)).is_ok() {
                return caller;
            }
        }
        unreachable!()
    }
}
