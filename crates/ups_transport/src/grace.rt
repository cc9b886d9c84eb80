//! How an association makes way for a connection that waits.

ghost use Rattle.std.specs.Prelude.{◌≡◌, ◌<◌, ◌≤◌, ◌*◌, ◌+◌, min};

use crate::connection::Inlet;
use crate::door::{Door, NOBODY};
use std::net::IpAddr;
use std::sync::Wait;
use std::thread;
use std::time::{Clock, Duration};
use ups_log::milliseconds_of;

/// The number of milliseconds of a look at the door.
const LOOK: i32 = 10;

/// The number of milliseconds after which an association looks again whether others wait.
const LONG_LOOK: i32 = 500;

/// The longest time for which an association keeps its worker while others wait, and the shortest, in milliseconds.
pub(crate) const LONGEST_TENURE: u64 = 20_000;

const SHORTEST_TENURE: u64 = 500;

/// The number of milliseconds in which all that wait get a worker, if none keeps it for longer than its tenure.
const ROUND: u64 = 15_000;

/// Returns for how many milliseconds an association may keep its worker while others wait.
///
/// If each of `pressed` workers goes on to the next one after that time, all `waiting` connections get a worker within 15
/// seconds. It is 20 seconds at most, and half a second at least.
pub fn tenure_of(pressed: u32, waiting: u64) -> u64
    ensures least { 500 ≤ result }
    ensures most { result ≤ 20000 }
    ensures all { 500 < result → result * waiting ≤ 15000 * pressed }
    ensures whole { result < 20000 → 15000 * pressed < (result + 1) * waiting }
{
    let all = ROUND * u64::from(pressed);
    if waiting == 0 || all / waiting >= LONGEST_TENURE {
        return LONGEST_TENURE;
    }
    (all / waiting).max(SHORTEST_TENURE)
}

/// Returns for how many milliseconds an association request that has begun is left alone while others wait: a second,
/// but no longer than an association may keep its worker.
pub fn request_grace(tenure: u64) -> u64
    ensures { result ≡ min 1000 tenure }
{
    tenure.min(1_000)
}

/// Returns for how many milliseconds an idle association is left alone while others wait: ten seconds, but no longer than
/// an association may keep its worker.
pub fn idle_grace(tenure: u64) -> u64
    ensures { result ≡ min 10000 tenure }
{
    tenure.min(10_000)
}

/// Returns for how many milliseconds an association is left alone after the begin of a message, or of an answer, of which
/// so many bytes have been moved, while others wait: as an idle one, and a millisecond more for each byte.
pub fn message_grace(tenure: u64, bytes: u32) -> u64
    ensures { result ≡ min 10000 tenure + bytes }
{
    idle_grace(tenure) + u64::from(bytes)
}

/// What an association does while its peer is waited for.
#[derive(Clone, Copy)]
pub(crate) enum Activity {
    /// Its association request is not complete.
    Opening,
    /// Nothing was asked since the last answer.
    Idle,
    /// Of a message or an answer so many bytes have been moved.
    Moving(u32),
}

impl Activity {
    /// Returns for how many milliseconds an association is left alone that does this.
    fn grace(self, tenure: u64) -> u64 {
        match self {
            Activity::Opening => request_grace(tenure),
            Activity::Idle => idle_grace(tenure),
            Activity::Moving(bytes) => message_grace(tenure, bytes),
        }
    }
}

/// What an association may have to make way for: the connections that wait at a door.
#[derive(Clone, Copy)]
pub struct Pressure<'a> {
    pub(crate) door: &'a Door,
    /// The number of the association.
    pub(crate) number: u64,
    /// The address of its peer.
    pub(crate) address: IpAddr,
    /// When it took its worker, in milliseconds since 1970-01-01 UTC.
    pub(crate) since: u64,
}

impl<'a> Pressure<'a> {
    /// Returns whether others wait.
    pub(crate) fn is_felt(&self) -> bool {
        self.door.tenure() != NOBODY
    }

    /// Returns when the association has had its worker for as long as it may.
    fn end(&self, tenure: u64) -> u64 {
        self.since
            .max(self.door.waited_since())
            .saturating_add(tenure)
    }
}

/// The result of a look.
#[derive(Clone, Copy, PartialEq, Eq)]
pub(crate) enum Seen {
    /// The peer has said something, or is gone.
    Peer,
    /// Another connection waits, and this association is the one that makes way.
    Others,
    /// Neither.
    Nothing,
}

/// Returns the result of a look at the peer alone.
fn seen_of(has_spoken: bool) -> Seen {
    if has_spoken {
        Seen::Peer
    } else {
        Seen::Nothing
    }
}

/// When an association is to make way.
#[derive(Clone, Copy, PartialEq, Eq)]
enum Due {
    /// Nobody waits.
    Never,
    /// In so many milliseconds.
    In(u64),
    /// Now, since its peer has been silent or slow for too long.
    Silent,
    /// Now, since it has had its worker for as long as it may.
    Over,
}

/// The stay of an association on which nothing comes, or goes. It ends if others wait for its worker. No contract covers
/// it.
#[derive(Drop)]
pub(crate) struct Stay<'a> {
    pressure: Pressure<'a>,
    activity: Activity,
    /// Since when it does that, in milliseconds since 1970-01-01 UTC.
    since: u64,
    /// Whether the door knows that it is to make way.
    is_noted: bool,
}

impl<'a> Stay<'a> {
    /// Creates the stay of an association that has done something for so long.
    pub(crate) fn new<R: Clock>(
        rt: &R,
        pressure: Pressure<'a>,
        activity: Activity,
        elapsed: Duration,
    ) -> Stay<'a> {
        let elapsed = u64::try_from(elapsed.as_millis()).unwrap_or(0);
        Stay {
            pressure,
            activity,
            since: milliseconds_of(rt).saturating_sub(elapsed),
            is_noted: false,
        }
    }

    // Returns when it is to make way, if it is not before others of its kind.
    fn due<R: Wait + Clock>(&self, rt: &R) -> Due {
        let tenure = self.pressure.door.tenure();
        if tenure == NOBODY {
            return Due::Never;
        }
        let now = milliseconds_of(rt);
        let end = self.pressure.end(tenure);
        let at = self.since.saturating_add(self.activity.grace(tenure));
        if now < at && now < end {
            return Due::In(at.min(end).saturating_sub(now));
        }
        if self.pressure.door.is_spared(rt, self.pressure.address) {
            return self.due_spared(now);
        }
        if now < end { Due::Silent } else { Due::Over }
    }

    // Returns when it is to make way if another address has more than half of the workers: after twice as long a silence.
    fn due_spared(&self, now: u64) -> Due {
        let grace = self.activity.grace(LONGEST_TENURE).saturating_mul(2);
        let at = self.since.saturating_add(grace);
        if now < at {
            return Due::In(at - now);
        }
        Due::Silent
    }

    // Returns whether a connection waits now, and no other association makes way before this one.
    fn is_next<R: Wait>(&mut self, rt: &R) -> bool {
        let Pressure { door, number, .. } = self.pressure;
        self.is_noted = true;
        door.is_waited() && door.is_next(rt, number, self.since)
    }

    // Returns whether a connection waits now, and this association makes way.
    fn goes<R: Wait>(&self, rt: &R) -> bool {
        let Pressure { door, number, .. } = self.pressure;
        door.is_waited() && door.lets_go(rt, number)
    }

    // Looks at the door once, and once more after a pause: a worker that is free again takes the connection meanwhile.
    fn look_at_door<R: Wait + Clock>(&mut self, rt: &R, inlet: &Inlet<'_>, is_over: bool) -> Seen {
        if !self.is_next(rt) {
            return seen_of(inlet.has_come(LOOK));
        }
        if is_over {
            thread::sleep(rt, Duration::from_millis(LOOK as u64));
        } else if inlet.has_come(LOOK) {
            return Seen::Peer;
        }
        if self.goes(rt) {
            Seen::Others
        } else {
            Seen::Nothing
        }
    }

    /// Waits for the peer and for others for at most `milliseconds`.
    pub(crate) fn look<R: Wait + Clock>(
        &mut self,
        rt: &R,
        inlet: &Inlet<'_>,
        milliseconds: i32,
    ) -> Seen {
        let most = milliseconds.min(LONG_LOOK);
        match self.due(rt) {
            Due::Never => seen_of(inlet.has_come(most)),
            Due::In(left) => seen_of(inlet.has_come(i32::try_from(left).unwrap_or(most).min(most))),
            Due::Silent => self.look_at_door(rt, inlet, false),
            Due::Over => self.look_at_door(rt, inlet, true),
        }
    }

    /// Returns whether it makes way now, whatever its peer does.
    pub(crate) fn makes_way<R: Wait + Clock>(&mut self, rt: &R) -> bool {
        if matches!(self.due(rt), Due::Never | Due::In(_)) || !self.is_next(rt) {
            return false;
        }
        thread::sleep(rt, Duration::from_millis(LOOK as u64));
        self.goes(rt)
    }

    /// Ends the stay, since the peer has spoken, its time is over or it makes way.
    pub(crate) fn end<R: Wait>(&self, rt: &R) {
        if self.is_noted {
            self.pressure.door.step_back(rt, self.pressure.number);
        }
    }
}
