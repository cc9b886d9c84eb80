//! The queues of all watchers.

ghost use Rattle.std.specs.Prelude.{◌≡◌, ◌≢◌, ◌<◌, ◌≤◌, ◌+◌, ℕ, List, true, false, None, Some, is_some, length, slice_index_or, if◌then◌else◌, IfOk, IsOk, OnOk, OnErr, MatchResult};
ghost use Rattle.std.specs.List.{AllByRecursion};
ghost use Rattle.ups_life.specs.declared.event.Event.{Event};
ghost use Rattle.ups_events.specs.Queue.{QueueView, queue_at, IsAdded, IsAcked, IsReserved, IsNew, ack_fault};
ghost use Rattle.ups_events.specs.Telling.{event_of, line_at, told};

use crate::fault::AckFault;
use crate::queue::Queue;
use std::alloc::{AllocError, Allocator};
use std::marker::Model;
use ups_life::{Report, Subscription};

/// The queues of watchers, each at the index of its watcher in the list of peers (PS3.4 CC.2.4). A contract sees the
/// list of the queues.
#[derive(Drop)]
pub struct Queues<A: Allocator + Copy> {
    queues: Vec<Queue<A>, A>,
}

impl<A: Allocator + Copy> Model for Queues<A> {
    ghost use Rattle.std.specs.Prelude.{List};
    ghost use Rattle.ups_events.specs.Queue.{QueueView};

    ghost Value = { List QueueView };

    ghost view = { λ q. q.queues.items };
}

impl<A: Allocator + Copy> Queues<A> {
    /// Returns empty queues for this number of peers.
    ///
    /// # Errors
    ///
    /// If memory runs out.
    pub fn new(alloc: A, peers: usize) -> Result<Queues<A>, AllocError>
        ensures peers { IfOk result (λ q. length q ≡ peers) }
        ensures empty { IfOk result (λ q. (p : ℕ) → p < peers → IsNew (queue_at q p)) }
    {
        let mut queues = Vec::with_capacity(alloc, peers)?;
        for _ in 0..peers {
            queues.push(Queue::new(alloc))?;
        }
        Ok(Queues { queues })
    }

    /// Makes room for at least `more` further events of a peer.
    ///
    /// # Errors
    ///
    /// If memory runs out, but never if there is that room already. Events and numbers then stay the same.
    pub fn reserve(&mut self, peer: usize, more: usize) -> Result<(), AllocError>
        requires peer { peer < length self.old }
        ensures room { OnOk result (more ≤ (queue_at self.new peer).spare) }
        ensures succeeds { more ≤ (queue_at self.old peer).spare → IsOk result }
        ensures kept { IsReserved (queue_at self.old peer) (queue_at self.new peer) }
        ensures others { (p : ℕ) → p ≢ peer → queue_at self.new p ≡ queue_at self.old p }
        ensures peers { length self.new ≡ length self.old }
    {
        self.queues[peer].reserve(more)
    }

    /// Adds a report of the entry at an index of the history as an event of a peer, with the next number. A State
    /// Report supersedes the previous one of its step (PS3.4 CC.2.4). This uses the room of one event, and takes no
    /// memory.
    pub fn put(&mut self, peer: usize, entry: u64, report: Report)
        requires peer { peer < length self.old }
        requires room { 0 < (queue_at self.old peer).spare }
        ensures added { IsAdded (queue_at self.old peer) (event_of ((queue_at self.old peer).made + 1) entry report) (queue_at self.new peer) }
        ensures others { (p : ℕ) → p ≢ peer → queue_at self.new p ≡ queue_at self.old p }
        ensures peers { length self.new ≡ length self.old }
    {
        self.queues[peer].put(entry, report)
    }

    /// Returns the queue of a peer.
    pub fn of_peer(&self, peer: usize) -> &Queue<A>
        requires { peer < length self.now }
        ensures { result.now ≡ queue_at self.now peer }
    {
        &self.queues[peer]
    }

    /// Returns whether an event of the entry at an index of the history may be pending for a peer. If it returns false,
    /// none is; it may return true though none is, as `Queue::refers_to` may. For each peer, this takes logarithmic time.
    pub fn refers_to(&self, entry: u64) -> bool
        ensures { result ≡ false → (p : ℕ) → AllByRecursion (λ (x : Event). x.entry ≢ entry) (queue_at self.now p).events }
    {
        for queue in &self.queues {
            if queue.refers_to(entry) {
                return true;
            }
        }
        false
    }

    /// Acknowledges the events of a peer up to a number, and removes them. It takes no memory.
    ///
    /// # Errors
    ///
    /// `AckAhead` if the number is greater than any assigned, otherwise `AckStale` if this number, or a greater one,
    /// was acknowledged before. The queues then stay the same.
    pub fn ack(&mut self, peer: usize, upto: u64) -> Result<(), AckFault>
        requires peer { peer < length self.old }
        ensures acked { OnOk result (IsAcked (queue_at self.old peer) upto (queue_at self.new peer)) }
        ensures fault { MatchResult result (λ done. ack_fault (queue_at self.old peer) upto ≡ None) (λ fault. ack_fault (queue_at self.old peer) upto ≡ Some fault) }
        ensures same { OnErr result (queue_at self.new peer ≡ queue_at self.old peer) }
        ensures others { (p : ℕ) → p ≢ peer → queue_at self.new p ≡ queue_at self.old p }
        ensures peers { length self.new ≡ length self.old }
    {
        self.queues[peer].ack(upto)
    }

    /// Adds reports of the entry at an index of the history as events of a peer, in their order (PS3.4 CC.2.4). There
    /// is room for them, so it takes no memory.
    pub fn tell(&mut self, peer: usize, entry: u64, reports: &[Report])
        requires peer { peer < length self.old }
        requires room { length reports.now ≤ (queue_at self.old peer).spare }
        ensures told { line_at self.new peer ≡ told entry reports.now (line_at self.old peer) }
        ensures others { (p : ℕ) → p ≢ peer → queue_at self.new p ≡ queue_at self.old p }
        ensures peers { length self.new ≡ length self.old }
    {
        for report in reports {
            self.put(peer, entry, *report);
        }
    }

    /// Adds reports as events of a peer if `watches`.
    fn tell_if(&mut self, watches: bool, peer: usize, entry: u64, reports: &[Report])
        requires peer { peer < length self.old }
        requires room { watches ≡ true → length reports.now ≤ (queue_at self.old peer).spare }
        ensures told { line_at self.new peer ≡ (if watches then told entry reports.now (line_at self.old peer) else line_at self.old peer) }
        ensures others { (p : ℕ) → p ≢ peer → queue_at self.new p ≡ queue_at self.old p }
        ensures same { watches ≡ false → self.new ≡ self.old }
        ensures peers { length self.new ≡ length self.old }
    {
        if watches {
            self.tell(peer, entry, reports);
        }
    }

    /// Adds reports of the entry at an index of the history as events of each peer that is subscribed and has room for
    /// them (PS3.4 CC.2.3, CC.2.4); `cells` are the subscriptions, indexed by peer. It takes no memory.
    pub fn tell_each(&mut self, cells: &[Option<Subscription>], entry: u64, reports: &[Report])
        requires peers { length cells.now ≤ length self.old }
        requires room { (p : ℕ) → is_some (slice_index_or cells.now p None) ≡ true → length reports.now ≤ (queue_at self.old p).spare }
        ensures lines { (p : ℕ) → line_at self.new p ≡ (if is_some (slice_index_or cells.now p None) then told entry reports.now (line_at self.old p) else line_at self.old p) }
        ensures others { (p : ℕ) → is_some (slice_index_or cells.now p None) ≡ false → queue_at self.new p ≡ queue_at self.old p }
        ensures peers { length self.new ≡ length self.old }
    {
        for (peer, cell) in cells.iter().enumerate() {
            self.tell_if(cell.is_some(), peer, entry, reports);
        }
    }
}
