//! Which watchers are away, which deliverer takes which watcher, and the bells of the deliverers.

ghost use Rattle.std.specs.Prelude.{◌≡◌, ◌+◌, ◌*◌, ◌<◌, ◌≤◌, ◌↔◌, IsTrue};
ghost use Rattle.ups_net.specs.declared.roster.Share.TheVariants.{All, Quick};
ghost use Rattle.ups_net.specs.Sharing.{may_take};

use crate::bell::Bell;
use std::alloc::{AllocError, Global};
use std::sync::atomic::{AtomicU64, Ordering};
use std::sync::{Mutex, Wait};
use std::time::Clock;
use ups_log::{UnloggedDeliveries, moment_of};
use ups_peers::{Watcher, WatcherAddress};

/// The maximum number of seconds for which a watcher is passed over.
const LONGEST: u64 = 60;

/// The number of seconds between two counts of what waits for each watcher, each by one deliverer.
const SECONDS_OF_A_COUNT: u64 = 64;

/// The states of a watcher: no deliverer has it, one has it, and one has it while another has come for it.
const FREE: u64 = 0;

const TAKEN: u64 = 1;

const WANTED: u64 = 2;

/// Returns how many seconds to pass over a watcher that failed once more; `pause` is the number before that, 0 if it
/// had not failed.
pub fn longer_pause(pause: u64) -> u64
    ensures first { pause ≡ 0 → result ≡ 1 }
    ensures doubled { 0 < pause → pause ≤ 30 → result ≡ 2 * pause }
    ensures most { 30 < pause → result ≡ 60 }
{
    if pause == 0 {
        return 1;
    }
    pause.min(LONGEST / 2) * 2
}

/// Returns whether a watcher that failed at second `failed`, and is passed over for `pause` seconds, still is at `now`.
/// It isn't if the clock was set back to before the failure.
pub fn is_passed_over(failed: u64, pause: u64, now: u64) -> bool
    ensures { IsTrue result ↔ ((failed ≤ now) × (now < failed + pause)) }
{
    failed <= now && now - failed < pause
}

/// The share of the watchers that a deliverer takes.
#[derive(Clone, Copy, Debug, PartialEq, Eq)]
pub enum Share {
    /// All of them.
    All,
    /// Those that are quick: neither away nor slow.
    Quick,
}

/// Returns which watchers a deliverer takes, by its place among the deliverers, from 1 on.
///
/// If there are several, those in the first half, rounded up, take only quick watchers. So the other watchers keep at
/// most half of the deliverers busy.
pub fn share_of(place: u32, deliverers: u32) -> Share
    ensures alone { deliverers ≤ 1 → result ≡ All }
    ensures first { 2 ≤ deliverers → 2 * place ≤ deliverers + 1 → result ≡ Quick }
    ensures others { 2 ≤ deliverers → deliverers + 1 < 2 * place → result ≡ All }
{
    let (place, deliverers) = (u64::from(place), u64::from(deliverers));
    if deliverers >= 2 && 2 * place <= deliverers + 1 {
        return Share::Quick;
    }
    Share::All
}

/// Returns whether a deliverer with this share may take a watcher. A quick watcher is neither away nor slow.
pub fn may_take(share: Share, is_quick: bool) -> bool
    ensures { result ≡ may_take share is_quick }
{
    match share {
        Share::All => true,
        Share::Quick => is_quick,
    }
}

/// Where a watcher listens, whether it is away, by how its deliveries ended, and whether a deliverer has it. Only the
/// deliverer that has it writes `pause`, `failed` and `slow`, and only the sweeper writes `address`.
pub(crate) struct Presence {
    /// Where it listens; None if it is retired.
    address: Mutex<Option<WatcherAddress>>,
    /// 1 if it listens elsewhere since a deliverer last asked where, else 0.
    moved: AtomicU64,
    /// Whether a deliverer has it.
    holder: AtomicU64,
    /// The number of seconds for which it is passed over after its last failure; 0 while it isn't away.
    pause: AtomicU64,
    /// When it last failed, in seconds since 1970-01-01 UTC.
    failed: AtomicU64,
    /// 1 if it was slow to take the reports of its last delivery or to open an association, else 0.
    slow: AtomicU64,
    /// The number of events that waited for it when they were last counted.
    waiting: AtomicU64,
    /// The number of reports that it acknowledged since the start.
    delivered: AtomicU64,
    /// The number of events that were given up.
    given_up: AtomicU64,
    /// How many of these were not logged yet.
    untold: AtomicU64,
    /// The deliveries to it that were not logged yet.
    pub(crate) unlogged: UnloggedDeliveries,
}

impl Drop for Presence {
    fn drop(self) {
        let Presence {
            address: _,
            moved: _,
            holder: _,
            pause: _,
            failed: _,
            slow: _,
            waiting: _,
            delivered: _,
            given_up: _,
            untold: _,
            unlogged: _,
        } = self;
    }
}

impl Presence {
    /// Creates the presence of a watcher that listens at an address or is retired, that has not failed yet, and that no
    /// deliverer has.
    fn new(address: Option<WatcherAddress>) -> Presence {
        Presence {
            address: Mutex::new(address),
            moved: AtomicU64::new(0),
            holder: AtomicU64::new(FREE),
            pause: AtomicU64::new(0),
            failed: AtomicU64::new(0),
            slow: AtomicU64::new(0),
            waiting: AtomicU64::new(0),
            delivered: AtomicU64::new(0),
            given_up: AtomicU64::new(0),
            untold: AtomicU64::new(0),
            unlogged: UnloggedDeliveries::new(),
        }
    }

    /// Returns where the watcher listens, for the deliverer that has it, or None if it is retired. If it listens elsewhere
    /// than before, the time for which it is passed over begins anew.
    ///
    /// Errors: lack of memory.
    pub(crate) fn address<R: Wait>(&self, rt: &R) -> Result<Option<WatcherAddress>, AllocError> {
        if self.moved.swap(0, Ordering::SeqCst) == 1 {
            let pause = self.pause.load(Ordering::SeqCst);
            self.pause.store(pause.min(1), Ordering::SeqCst);
        }
        self.address.lock(rt).clone()
    }

    /// Notes that the watcher listens at this address from now on, so that it is tried there at once. Returns whether it
    /// listened elsewhere; false also if it is retired, since it stays so.
    ///
    /// Errors: lack of memory.
    pub(crate) fn move_to<R: Wait>(
        &self,
        rt: &R,
        address: &WatcherAddress,
    ) -> Result<bool, AllocError> {
        let mut place = self.address.lock(rt);
        match &*place {
            Some(before) if before != address => {}
            _ => return Ok(false),
        }
        *place = Some(address.clone()?);
        self.moved.store(1, Ordering::SeqCst);
        Ok(true)
    }

    /// Takes the watcher for one deliverer. Returns false if another has it.
    pub(crate) fn take(&self) -> bool {
        self.holder
            .compare_exchange(FREE, TAKEN, Ordering::SeqCst, Ordering::SeqCst)
            .is_ok()
    }

    /// Tells the deliverer that has the watcher that something waits for it again. Returns false if none has it any
    /// longer.
    pub(crate) fn want(&self) -> bool {
        let found = self
            .holder
            .compare_exchange(TAKEN, WANTED, Ordering::SeqCst, Ordering::SeqCst);
        found != Err(FREE)
    }

    /// Lets go of the watcher that this deliverer has, and returns whether another came for it in the meantime.
    pub(crate) fn let_go(&self) -> bool {
        self.holder.swap(FREE, Ordering::SeqCst) == WANTED
    }

    /// Returns whether the watcher is away.
    pub(crate) fn is_away(&self) -> bool {
        self.pause.load(Ordering::SeqCst) > 0
    }

    /// Returns whether the watcher is quick: neither away nor slow.
    pub(crate) fn is_quick(&self) -> bool {
        !self.is_away() && self.slow.load(Ordering::SeqCst) == 0
    }

    /// Returns whether the watcher is passed over now: it failed, and has listened at the same address since.
    fn is_passed_over<R: Clock>(&self, rt: &R) -> bool {
        let pause = self.pause.load(Ordering::SeqCst);
        let failed = self.failed.load(Ordering::SeqCst);
        self.moved.load(Ordering::SeqCst) == 0 && is_passed_over(failed, pause, moment_of(rt))
    }

    /// Returns whether a deliverer with this share delivers to the watcher now.
    pub(crate) fn is_due<R: Clock>(&self, rt: &R, share: Share) -> bool {
        may_take(share, self.is_quick()) && !self.is_passed_over(rt)
    }

    /// Notes that a delivery to the watcher failed, and returns whether it goes away by that.
    ///
    /// If it acknowledged a report before, it is tried again after a second, however often it has failed.
    pub(crate) fn goes<R: Clock>(&self, rt: &R, has_taken: bool) -> bool {
        let pause = self.pause.load(Ordering::SeqCst);
        let before = if has_taken { 0 } else { pause };
        self.failed.store(moment_of(rt), Ordering::SeqCst);
        self.pause.store(longer_pause(before), Ordering::SeqCst);
        pause == 0
    }

    /// Notes that a delivery to the watcher succeeded and whether it was slow, and returns whether it comes back by
    /// that.
    pub(crate) fn comes(&self, is_slow: bool) -> bool {
        self.slow.store(u64::from(is_slow), Ordering::SeqCst);
        self.pause.swap(0, Ordering::SeqCst) > 0
    }

    /// Notes that the watcher is slow to open an association.
    pub(crate) fn slows(&self) {
        self.slow.store(1, Ordering::SeqCst);
    }

    /// Notes how many events wait for the watcher.
    pub(crate) fn note_waiting(&self, waiting: u64) {
        self.waiting.store(waiting, Ordering::SeqCst);
    }

    /// Returns how many events waited for the watcher when they were last counted, without those given up since.
    pub(crate) fn waiting(&self) -> u64 {
        self.waiting.load(Ordering::SeqCst)
    }

    /// Counts reports that the watcher acknowledged.
    pub(crate) fn add_delivered(&self, reports: u64) {
        self.delivered.fetch_add(reports, Ordering::SeqCst);
    }

    /// Returns how many reports the watcher acknowledged since the start.
    pub(crate) fn delivered(&self) -> u64 {
        self.delivered.load(Ordering::SeqCst)
    }

    /// Notes that this many events of those that wait for the watcher were given up.
    pub(crate) fn gives_up(&self, count: u64) {
        self.note_waiting(self.waiting().saturating_sub(count));
        self.given_up.fetch_add(count, Ordering::SeqCst);
        self.untold.fetch_add(count, Ordering::SeqCst);
    }

    /// Returns how many events were given up since the server began.
    pub(crate) fn given_up(&self) -> u64 {
        self.given_up.load(Ordering::SeqCst)
    }

    /// Returns how many events were given up since the last call.
    pub(crate) fn take_untold(&self) -> u64 {
        self.untold.swap(0, Ordering::SeqCst)
    }
}

/// What the deliverers of a server know of its watchers, and their bells.
///
/// A watcher that fails is away until a delivery to it succeeds. It is passed over for a second, and after each further
/// failure for twice as long as before, for at most a minute. A deliverer takes a watcher that no other one has, gives
/// it all the time that it is to have, and lets it go: so one that doesn't answer keeps one deliverer busy, and no
/// other watcher waiting while a deliverer is free. Half of the deliverers take only quick watchers: neither away, nor
/// slow with their last reports. Before a deliverer connects to a watcher, it rings for another, which looks after the
/// next ones. No contract covers that.
pub struct Roster {
    presences: Vec<Presence>,
    /// The presence of a watcher that isn't among them.
    other: Presence,
    /// The number of deliverers.
    deliverers: u32,
    /// The bell of those that take only quick watchers.
    quick: Bell,
    /// The bell of the others.
    all: Bell,
    /// When what waits for each watcher was last counted, in seconds since 1970-01-01 UTC.
    counted: AtomicU64,
}

impl Drop for Roster {
    fn drop(self) {
        let Roster {
            presences: _,
            other: _,
            deliverers: _,
            quick: _,
            all: _,
            counted: _,
        } = self;
    }
}

impl Roster {
    /// Creates the roster of these watchers, none of which is away, for `deliverers` deliverers.
    ///
    /// # Errors
    ///
    /// If memory runs out.
    pub fn new(alloc: Global, watchers: &[Watcher], deliverers: u32) -> Result<Roster, AllocError> {
        let mut presences = Vec::with_capacity(alloc, watchers.len())?;
        for watcher in watchers {
            presences.push(Presence::new(watcher.address.clone()?))?;
        }
        Ok(Roster {
            presences,
            other: Presence::new(None),
            deliverers,
            quick: Bell::new(),
            all: Bell::new(),
            counted: AtomicU64::new(0),
        })
    }

    /// Returns which watchers a deliverer takes, by its place among the deliverers, from 1 on.
    pub(crate) fn share_of(&self, place: u32) -> Share {
        share_of(place, self.deliverers)
    }

    /// Returns whether there are more watchers than deliverers, so that a watcher may wait for a deliverer.
    pub(crate) fn is_crowded(&self) -> bool {
        self.presences.len() as u64 > u64::from(self.deliverers)
    }

    /// Returns the presence of the watcher in a place.
    pub(crate) fn presence(&self, place: usize) -> &Presence {
        self.presences.get(place).unwrap_or(&self.other)
    }

    /// Rings for a deliverer of each share.
    pub(crate) fn ring(&self) {
        self.quick.ring();
        self.all.ring();
    }

    /// Waits until the bell rings for a deliverer with this share, for some seconds at most.
    pub(crate) fn wait<R: Wait>(&self, rt: &R, share: Share) {
        match share {
            Share::Quick => self.quick.wait(rt),
            Share::All => self.all.wait(rt),
        }
    }

    /// Returns whether to count now what waits for each watcher: true for one deliverer, about once a minute.
    pub(crate) fn is_count_due<R: Clock>(&self, rt: &R) -> bool {
        let now = moment_of(rt);
        let counted = self.counted.load(Ordering::SeqCst);
        if is_passed_over(counted, SECONDS_OF_A_COUNT, now) {
            return false;
        }
        self.counted
            .compare_exchange(counted, now, Ordering::SeqCst, Ordering::SeqCst)
            .is_ok()
    }
}
