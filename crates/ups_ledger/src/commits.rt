//! The number of committed entries, and the threads that wait for it.

ghost use Rattle.std.specs.Prelude.{◌≤◌, ℕ, IfSome};
ghost use Rattle.ups_ledger.specs.Backed.{Backs, IsBacked};

use crate::keeper::Keeper;
use crate::ledger::Ledger;
use std::marker::{Brand, PhantomData};
use std::sync::Wait;
use std::sync::atomic::{AtomicIn, AtomicU64, Ordering, Rule};
use std::time::{Clock, Duration, Instant};

/// What holds once a number of entries is committed, whatever they are committed to.
pub trait Keeping {
    ghost use Rattle.std.specs.Prelude.{ℕ};

    ghost had: { ℕ → Type 0 };
}

impl Keeping for Brand {
    ghost had = { λ _. Unit {0} };
}

/// The rule of the number of committed entries.
pub struct AreCommitted<K: Keeping> {
    keeping: PhantomData<K>,
}

impl<K: Keeping> Rule for AreCommitted<K> {
    ghost invariant = { λ n. IsBacked K.had n };
}

/// A number of committed entries.
#[derive(Drop)]
pub struct Committed<K: Keeping> {
    count: u64,
    keeping: PhantomData<K>,
    ghost backed: { IsBacked K.had count },
}

/// The number of committed entries of a history, for which threads wait, and the number that the committing thread is
/// asked for.
pub struct Commits<K: Keeping> {
    count: AtomicIn<AreCommitted<K>>,
    /// Counts how often the number was set, for the threads that sleep until then.
    bell: AtomicU64,
    /// The highest number that was asked for.
    asked: AtomicU64,
    /// The number of waiting threads.
    waiting: AtomicU64,
    /// The number that has to be asked for to wake the committing thread; 0 if it is awake.
    alarm: AtomicU64,
    /// The number of the run, or 0 if nothing is kept.
    run: u64,
}

impl<K: Keeping> Drop for Commits<K> {
    fn drop(self) {
        let Commits {
            count: _,
            bell: _,
            asked: _,
            waiting: _,
            alarm: _,
            run: _,
        } = self;
    }
}

/// The alarm while the committing thread is awake.
const AWAKE: u64 = 0;

/// The count of a server that keeps nothing, since no history has that many entries.
const ALL: u64 = u64::MAX;

/// Returns the half of a word that a sleeping thread watches.
fn low_half(word: u64) -> u32 {
    (word % (1 << 32)) as u32
}

/// Returns what is left of `limit`, counted from `since`, or zero if the clock fails.
fn left_of<R: Clock>(rt: &R, limit: Duration, since: Instant) -> Duration {
    let elapsed = since.elapsed(rt).unwrap_or(Duration::MAX);
    limit.saturating_sub(elapsed)
}

impl<K: Keeping> Commits<K> {
    /// Returns the state in which as many entries are committed as a keeper counts.
    pub fn new<L: Ledger>(keeper: &Keeper<L>) -> Commits<K>
        requires { Backs L.Ledger K.had }
    {
        let count = keeper.count();
        Commits {
            count: AtomicIn::new(count),
            bell: AtomicU64::new(0),
            asked: AtomicU64::new(count),
            waiting: AtomicU64::new(0),
            alarm: AtomicU64::new(AWAKE),
            run: keeper.ledger.run(),
        }
    }

    /// Returns the state of a server that keeps nothing: nobody waits.
    pub fn of_none() -> Commits<K>
        requires { (n : ℕ) → K.had n }
    {
        Commits {
            count: AtomicIn::new(ALL),
            bell: AtomicU64::new(0),
            asked: AtomicU64::new(ALL),
            waiting: AtomicU64::new(0),
            alarm: AtomicU64::new(AWAKE),
            run: 0,
        }
    }

    /// Returns the number of committed entries.
    pub fn count(&self) -> u64
        ensures { IsBacked K.had result }
    {
        self.count.load(Ordering::SeqCst)
    }

    /// Returns the number of committed entries, or None if nothing is kept.
    pub fn kept(&self) -> Option<u64>
        ensures { IfSome result (λ count. IsBacked K.had count) }
    {
        match self.count() {
            ALL => None,
            count => Some(count),
        }
    }

    /// Returns the number of the run whose entries are kept, or None if nothing is kept.
    pub fn run(&self) -> Option<u64> {
        if self.run == 0 {
            return None;
        }
        Some(self.run)
    }

    /// Returns the highest number that was asked for.
    pub fn asked(&self) -> u64 {
        self.asked.load(Ordering::SeqCst)
    }

    /// Sets the number of committed entries to that of a keeper, and wakes all waiting threads.
    pub fn advance<L: Ledger>(&self, keeper: &Keeper<L>)
        requires { Backs L.Ledger K.had }
    {
        self.count.store(keeper.count(), Ordering::SeqCst);
        self.bell.fetch_add(1, Ordering::SeqCst);
        if self.waiting.load(Ordering::SeqCst) > 0 {
            self.bell.wake_all();
        }
    }

    // Asks for `count` entries, and wakes the committing thread if it sleeps until that many are asked for.
    fn ask(&self, count: u64) {
        self.asked.fetch_max(count, Ordering::SeqCst);
        let alarm = self.alarm.load(Ordering::SeqCst);
        if alarm != AWAKE && count >= alarm && self.alarm.swap(AWAKE, Ordering::SeqCst) != AWAKE {
            self.alarm.wake_one();
        }
    }

    /// Waits until `count` entries are asked for, or for `limit`, and returns the highest number asked for by then.
    /// Only one thread may wait here: the committing one.
    pub fn await_asked<R: Wait>(&self, rt: &R, count: u64, limit: Duration) -> u64 {
        self.alarm.store(count, Ordering::SeqCst);
        if self.asked() < count {
            self.alarm.park_timeout(rt, low_half(count), limit);
        }
        self.alarm.store(AWAKE, Ordering::SeqCst);
        self.asked()
    }

    /// Returns the number of committed entries if it is at least `count`.
    pub fn reached(&self, count: u64) -> Option<Committed<K>>
        ensures { IfSome result (λ committed. count ≤ committed.count) }
    {
        let committed = self.count();
        if committed < count {
            return None;
        }
        Some(Committed {
            count: committed,
            keeping: PhantomData,
        })
    }

    /// Waits until `count` entries are committed, for at most `limit` from `since`. Returns None if they are not
    /// committed by then, or if the clock fails.
    fn wait_since<R: Wait + Clock>(
        &self,
        rt: &R,
        count: u64,
        limit: Duration,
        since: Instant,
    ) -> Option<Committed<K>>
        ensures { IfSome result (λ committed. count ≤ committed.count) }
    {
        for _ in rt.forever() {
            let rung = self.bell.load(Ordering::SeqCst);
            let committed = self.reached(count);
            if committed.is_some() {
                return committed;
            }
            let left = left_of(rt, limit, since);
            if left.is_zero() {
                return None;
            }
            self.bell.park_timeout(rt, low_half(rung), left);
        }
        unreachable!()
    }

    /// Asks for `count` entries, and waits for at most `limit` until they are committed. Returns None if they are not
    /// by then, or if the clock fails.
    pub fn wait_for<R: Wait + Clock>(
        &self,
        rt: &R,
        count: u64,
        limit: Duration,
    ) -> Option<Committed<K>>
        ensures { IfSome result (λ committed. count ≤ committed.count) }
    {
        let committed = self.reached(count);
        if committed.is_some() {
            return committed;
        }
        self.waiting.fetch_add(1, Ordering::SeqCst);
        self.ask(count);
        let committed = match Instant::now(rt) {
            Ok(since) => self.wait_since(rt, count, limit, since),
            Err(_) => None,
        };
        self.waiting.fetch_sub(1, Ordering::SeqCst);
        committed
    }
}
