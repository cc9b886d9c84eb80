//! The queue of a watcher.

ghost use Rattle.std.specs.Prelude.{◌≡◌, ◌≢◌, ◌<◌, ◌≤◌, ◌+◌, [], false, take, length, None, Some, IfOk, IsOk, OnOk, OnErr, MatchResult};
ghost use Rattle.std.specs.List.{AllByRecursion};
ghost use Rattle.ups_life.specs.declared.event.Event.{Event};
ghost use Rattle.ups_events.specs.Queue.{IsAdded, IsAcked, ack_fault};
ghost use Rattle.ups_events.specs.Telling.{event_of};

use crate::fault::AckFault;
use crate::slots::{
    EventSlot, ReportNumbers, drop_front, first_live, is_among, keeps_order, live_with, make_way,
    tidy,
};
use std::alloc::{AllocError, Allocator};
use std::collections::{HashMap, VecDeque};
use std::marker::Model;
use ups_life::{Event, Report};

/// The events that a watcher has not acknowledged, oldest first, without each State Report that a later one of the same
/// step supersedes (PS3.4 CC.2.4). They are numbered from 1, and are not renumbered when others leave. A contract sees
/// the greatest number assigned, the greatest number acknowledged, the events, and the number of further events for
/// which there is room.
pub struct Queue<A: Allocator + Copy> {
    alloc: A,
    made: u64,
    acked: u64,
    slots: VecDeque<EventSlot, A>,
    index: ReportNumbers<A>,
    /// Whether the entries are known not to fall from slot to slot. It is always so where events are added in the order
    /// of the history.
    in_order: bool,
    /// The number of live events.
    live: usize,
}

impl<A: Allocator + Copy> Drop for Queue<A> {
    fn drop(self) {
        let Queue {
            alloc: _,
            made: _,
            acked: _,
            slots: _,
            index: _,
            in_order: _,
            live: _,
        } = self;
    }
}

impl<A: Allocator + Copy> Model for Queue<A> {
    ghost use Rattle.std.specs.Prelude.{◌≡◌, ◌-◌, ◌^◌, ◌≤◌, true, length, min};
    ghost use Rattle.std.specs.HashMap.{spare};
    ghost use Rattle.std.specs.VecDeque.{deque_len, deque_capacity};
    ghost use Rattle.ups_events.specs.Queue.{QueueView};

    ghost Value = { QueueView };

    ghost use Rattle.ups_events.specs.Kept.{lives, InOrder, KeepsQueue};

    ghost view = { λ q. record { made = q.made; acked = q.acked; events = lives q.slots.items; spare = min (deque_capacity q.slots - deque_len q.slots) (min (spare q.index) (2 ^ 64 - 1 - q.made)) } };

    ghost invariant = { λ q. KeepsQueue q.made q.acked q.index.entries q.slots.items × (q.acked ≤ q.made) × (q.in_order ≡ true → InOrder q.slots.items) × (q.live ≡ length (lives q.slots.items)) };
}

impl<A: Allocator + Copy> Queue<A> {
    /// Returns an empty queue, in which no number has been used. It takes no memory.
    pub fn new(alloc: A) -> Queue<A>
        ensures made { result.made ≡ 0 }
        ensures acked { result.acked ≡ 0 }
        ensures events { result.events ≡ [] }
    {
        Queue {
            alloc,
            made: 0,
            acked: 0,
            slots: VecDeque::new(alloc),
            index: HashMap::new(alloc),
            in_order: true,
            live: 0,
        }
    }

    /// Makes room for at least `more` further events.
    ///
    /// # Errors
    ///
    /// If memory runs out, but never if there is that room already. Events and numbers then stay the same.
    pub fn reserve(&mut self, more: usize) -> Result<(), AllocError>
        ensures room { OnOk result (more ≤ self.new.spare) }
        ensures succeeds { more ≤ self.old.spare → IsOk result }
        ensures keeps { self.old.spare ≤ self.new.spare }
        ensures made { self.new.made ≡ self.old.made }
        ensures acked { self.new.acked ≡ self.old.acked }
        ensures events { self.new.events ≡ self.old.events }
    {
        let Queue {
            made,
            slots,
            index,
            ..
        } = self;
        if more as u64 > u64::MAX - *made {
            return Err(AllocError);
        }
        index.reserve(more)?;
        slots.reserve(more)
    }

    /// Adds a report of the entry at an index of the history as an event, with the next number. A State Report
    /// supersedes the previous one of its step (PS3.4 CC.2.4). This uses the room of one event, and takes no memory.
    pub fn put(&mut self, entry: u64, report: Report)
        requires room { 0 < self.old.spare }
        ensures { IsAdded self.old (event_of (self.old.made + 1) entry report) self.new }
    {
        let Queue {
            made,
            acked,
            slots,
            index,
            in_order,
            live,
            ..
        } = self;
        let number = *made + 1;
        let superseded = make_way(slots, index, report.kind, report.step, number);
        *in_order = keeps_order(slots, *in_order, entry);
        slots.push_back_reserved(EventSlot {
            event: Event {
                number,
                entry,
                kind: report.kind,
                step: report.step,
                state: report.state,
                readiness: report.readiness,
            },
            live: true,
        });
        *made = number;
        *live = live_with(*live, superseded);
        drop_front(slots, index, *acked);
        tidy(slots, *live);
    }

    /// Returns the greatest number assigned, or 0 if there is none.
    pub fn made(&self) -> u64
        ensures { result ≡ self.now.made }
    {
        self.made
    }

    /// Returns the greatest number acknowledged, or 0 if there is none.
    pub fn acked(&self) -> u64
        ensures { result ≡ self.now.acked }
    {
        self.acked
    }

    /// Returns the first `max` pending events, oldest first (PS3.4 CC.2.4).
    ///
    /// # Errors
    ///
    /// If memory runs out.
    pub fn pending(&self, max: u64) -> Result<Vec<Event, A>, AllocError>
        ensures { IfOk result (λ v. v.items ≡ take max self.now.events) }
    {
        first_live(self.alloc, &self.slots, max)
    }

    /// Returns the number of pending events (PS3.4 CC.2.4).
    pub fn waiting(&self) -> usize
        ensures { result ≡ length self.now.events }
    {
        self.live
    }

    /// Returns whether an event of the entry at an index of the history may be pending. If it returns false, none is. It
    /// may return true though none is: an event that was superseded counts for a while, and all entries do if events
    /// were not added in the order of the history. This takes logarithmic time, and no memory.
    pub fn refers_to(&self, entry: u64) -> bool
        ensures { result ≡ false → AllByRecursion (λ (x : Event). x.entry ≢ entry) self.now.events }
    {
        !self.in_order || is_among(&self.slots, entry)
    }

    /// Acknowledges the events up to a number, and removes them. It takes no memory.
    ///
    /// # Errors
    ///
    /// `AckAhead` if the number is greater than any assigned, otherwise `AckStale` if this number, or a greater one,
    /// was acknowledged before. The queue then stays the same.
    pub fn ack(&mut self, upto: u64) -> Result<(), AckFault>
        ensures acked { OnOk result (IsAcked self.old upto self.new) }
        ensures fault { MatchResult result (λ done. ack_fault self.old upto ≡ None) (λ fault. ack_fault self.old upto ≡ Some fault) }
        ensures same { OnErr result (self.new ≡ self.old) }
    {
        if upto > self.made {
            return Err(AckFault::AckAhead);
        }
        if upto <= self.acked {
            return Err(AckFault::AckStale);
        }
        let Queue {
            acked,
            slots,
            index,
            live,
            ..
        } = self;
        *live -= drop_front(slots, index, upto);
        *acked = upto;
        Ok(())
    }

    /// Returns the number of further events for which there is room.
    pub fn spare(&self) -> u64
        ensures { result ≡ self.now.spare }
    {
        let slots = self.slots.capacity() - self.slots.len();
        let steps = self.index.capacity() - self.index.len();
        (slots.min(steps) as u64).min(u64::MAX - self.made)
    }
}
