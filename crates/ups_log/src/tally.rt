//! The counts of a server for its log.

use crate::journal::{tell_more_of, tell_more_refusals};
use crate::kinds::{KindCounts, RequestKind};
use log::Log;
use std::alloc::{AllocError, Global};
use std::sync::atomic::{AtomicU64, Ordering};
use std::sync::{Mutex, Wait};
use std::time::Duration;

/// The maximum number of refused requests of one peer with a line of their own in a minute.
const MOST_TOLD: u64 = 30;

/// The maximum number of peers whose refused requests are counted apart in a minute.
const PEERS: usize = 64;

/// The refused requests of a peer in a minute.
#[derive(Drop)]
struct Refusals {
    /// The title of the peer, if it is known, and its address.
    peer: String,
    /// The number of them that have a line of their own.
    told: u64,
    /// The number of the others.
    more: u64,
}

impl Refusals {
    /// Adds a request, and returns whether it gets a line.
    fn add(&mut self) -> bool {
        if self.told < MOST_TOLD {
            self.told += 1;
            return true;
        }
        self.more = self.more.saturating_add(1);
        false
    }
}

/// Adds a refused request of a peer, and returns whether it gets a line of its own. Returns None if those of `PEERS`
/// others are counted already, or memory runs out.
fn add_of(peers: &mut Vec<Refusals>, peer: String) -> Option<bool> {
    if let Some(place) = peers
        .iter()
        .position(|it| it.peer.as_str() == peer.as_str())
    {
        return Some(peers.get_mut(place)?.add());
    }
    if peers.len() >= PEERS {
        return None;
    }
    let refusals = Refusals {
        peer,
        told: 1,
        more: 0,
    };
    peers.push(refusals).ok()?;
    Some(true)
}

/// Adds a peer that is warned, and returns whether it was not among them. Returns false if there are `PEERS` others
/// already, or memory runs out.
fn add_warned(peers: &mut Vec<String>, peer: String) -> bool {
    if peers.len() >= PEERS || peers.iter().any(|it| it.as_str() == peer.as_str()) {
        return false;
    }
    peers.push(peer).is_ok()
}

/// The number of steps at a start that is not known.
const UNKNOWN: u64 = u64::MAX;

/// The counts of a server since its start: associations, answered requests, refused ones, and steps. Only the log and the
/// file of numbers depend on them.
pub struct Tally {
    associations: AtomicU64,
    requests: AtomicU64,
    refusals: AtomicU64,
    /// The answered and the refused requests, by kind.
    kinds: KindCounts,
    /// The refused requests in this minute, by peer.
    peers: Mutex<Vec<Refusals>>,
    /// The number of those without a line and of none of these peers.
    others: AtomicU64,
    /// The peers with a line in this minute about a sequence that was read as bytes.
    warned: Mutex<Vec<String>>,
    /// The longest time until an answer since it was last taken, in nanoseconds.
    longest: AtomicU64,
    /// The number of steps that were held at the start, or `UNKNOWN`.
    begun_with: AtomicU64,
    /// The number of steps that were removed since.
    removed: AtomicU64,
}

impl Drop for Tally {
    fn drop(self) {
        let Tally {
            associations: _,
            requests: _,
            refusals: _,
            kinds: _,
            peers: _,
            others: _,
            warned: _,
            longest: _,
            begun_with: _,
            removed: _,
        } = self;
    }
}

impl Tally {
    /// Creates the counts of a server that begins.
    pub fn new(alloc: Global) -> Tally {
        Tally {
            associations: AtomicU64::new(0),
            requests: AtomicU64::new(0),
            refusals: AtomicU64::new(0),
            kinds: KindCounts::new(alloc),
            peers: Mutex::new(Vec::new(alloc)),
            others: AtomicU64::new(0),
            warned: Mutex::new(Vec::new(alloc)),
            longest: AtomicU64::new(0),
            begun_with: AtomicU64::new(UNKNOWN),
            removed: AtomicU64::new(0),
        }
    }

    /// Counts an association that begins.
    pub(crate) fn add_association(&self) {
        self.associations.fetch_add(1, Ordering::SeqCst);
    }

    /// Counts an answered request.
    pub(crate) fn add_request(&self, kind: RequestKind) {
        self.requests.fetch_add(1, Ordering::SeqCst);
        self.kinds.add(kind);
    }

    /// Notes how long an answer took.
    pub(crate) fn add_time(&self, time: Duration) {
        let time = u64::try_from(time.as_nanos()).unwrap_or(u64::MAX);
        if time > self.longest.load(Ordering::SeqCst) {
            self.longest.fetch_max(time, Ordering::SeqCst);
        }
    }

    /// Takes the longest time until an answer since this was last called.
    pub fn take_longest(&self) -> Duration {
        Duration::from_nanos(self.longest.swap(0, Ordering::SeqCst))
    }

    /// Counts a refused request of a peer (None if memory ran out), and returns whether it gets a line of its own.
    /// Never blocks.
    #[cold]
    pub(crate) fn add_refusal(&self, kind: RequestKind, status: u16, peer: Option<String>) -> bool {
        self.refusals.fetch_add(1, Ordering::SeqCst);
        self.kinds.add_refusal(kind, status);
        let is_told = match (self.peers.try_lock(), peer) {
            (Some(mut peers), Some(peer)) => add_of(&mut peers, peer),
            _ => None,
        };
        if is_told.is_none() {
            self.others.fetch_add(1, Ordering::SeqCst);
        }
        is_told == Some(true)
    }

    /// Returns whether a query of a peer (None if memory ran out) with a sequence that was read as bytes gets a line: the
    /// first one in a minute does. Never blocks.
    #[cold]
    pub(crate) fn add_unread(&self, peer: Option<String>) -> bool {
        match (self.warned.try_lock(), peer) {
            (Some(mut peers), Some(peer)) => add_warned(&mut peers, peer),
            _ => false,
        }
    }

    /// Logs how many requests were refused beyond those logged, by peer, and begins a new minute.
    pub fn end_minute<R: Wait + Log>(&self, rt: &R) {
        let mut peers = self.peers.lock(rt);
        for peer in peers.iter() {
            if peer.more > 0 {
                tell_more_of(rt, peer.more, peer.peer.as_str());
            }
        }
        peers.clear();
        let others = self.others.swap(0, Ordering::SeqCst);
        if others > 0 {
            tell_more_refusals(rt, others);
        }
        self.warned.lock(rt).clear();
    }

    /// Notes how many steps were held at the start.
    pub fn begin_with(&self, steps: u64) {
        self.begun_with.store(steps, Ordering::SeqCst);
    }

    /// Counts steps that a sweep removed.
    pub fn add_removed(&self, steps: u64) {
        self.removed.fetch_add(steps, Ordering::SeqCst);
    }

    /// Returns how many steps are held: those of the start and those created since, without those removed. Returns None if
    /// it isn't known how many there were, or memory ran out for the counts of requests.
    pub fn steps(&self) -> Option<u64> {
        let begun_with = self.begun_with.load(Ordering::SeqCst);
        if begun_with == UNKNOWN {
            return None;
        }
        let created = self.kinds.of(RequestKind::Create)?.accepted();
        let removed = self.removed.load(Ordering::SeqCst);
        Some(begun_with.saturating_add(created).saturating_sub(removed))
    }

    /// Returns how many associations have begun.
    pub fn associations(&self) -> u64 {
        self.associations.load(Ordering::SeqCst)
    }

    /// Returns how many requests were answered.
    pub fn requests(&self) -> u64 {
        self.requests.load(Ordering::SeqCst)
    }

    /// Returns how many requests were refused.
    pub fn refusals(&self) -> u64 {
        self.refusals.load(Ordering::SeqCst)
    }

    /// Returns how many requests of each kind were answered and refused.
    pub fn kinds(&self) -> &KindCounts {
        &self.kinds
    }
}
