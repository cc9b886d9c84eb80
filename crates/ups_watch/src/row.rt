//! The subscriptions of all peers to one step.

ghost use Rattle.std.specs.Prelude.{◌≡◌, ◌<◌, None, IfOk, length, nat_eq, replicate, slice_index_or, slice_set, if◌then◌else◌};
ghost use Rattle.ups_watch.specs.Table.{is_locked, is_locked_by_any};

use std::alloc::{AllocError, Allocator};
use std::marker::Model;
use ups_life::Subscription;

/// The subscriptions of all peers to one step: a cell for each peer, at the index of the peer. A contract sees the list
/// of the cells.
#[derive(Drop)]
pub(crate) struct WatchRow<A: Allocator + Copy> {
    cells: Vec<Option<Subscription>, A>,
}

impl<A: Allocator + Copy> Model for WatchRow<A> {
    ghost use Rattle.std.specs.Prelude.{List, Option};
    ghost use Rattle.ups_life.specs.declared.watching.Subscription.{Subscription};

    ghost Value = { List (Option Subscription) };

    ghost view = { λ r. r.cells.items };
}

impl<A: Allocator + Copy> WatchRow<A> {
    /// Returns a row for `width` peers, none of which is subscribed.
    ///
    /// Errors: if memory runs out.
    pub fn blank(alloc: A, width: usize) -> Result<WatchRow<A>, AllocError>
        ensures { IfOk result (λ r. r ≡ replicate width None) }
    {
        let cells = vec![in alloc; None; width]?;
        Ok(WatchRow { cells })
    }

    /// Returns the cells.
    pub fn as_slice(&self) -> &[Option<Subscription>]
        ensures { result.now ≡ self.now }
    {
        self.cells.as_slice()
    }

    /// Sets the subscription of a peer.
    pub fn set(&mut self, peer: usize, subscription: Option<Subscription>)
        requires { peer < length self.old }
        ensures { self.new ≡ slice_set self.old peer subscription }
    {
        self.cells[peer] = subscription;
    }

    /// Ends the subscription of a peer, if the row has a cell for it.
    pub fn clear(&mut self, peer: usize)
        ensures { self.new ≡ slice_set self.old peer None }
    {
        if peer < self.cells.len() {
            self.cells[peer] = None;
        }
    }
}

/// Returns the subscription of a peer, or None if it has none or there is no cell for it.
pub(crate) fn cell_at(cells: &[Option<Subscription>], peer: usize) -> Option<Subscription>
    ensures { result ≡ slice_index_or cells.now peer None }
{
    if peer < cells.len() {
        cells[peer]
    } else {
        None
    }
}

/// Returns whether the subscription in a cell has a deletion lock (PS3.4 CC.2.3).
pub(crate) fn is_locked(cell: Option<Subscription>) -> bool
    ensures { result ≡ is_locked cell }
{
    match cell {
        Some(Subscription::Locked) => true,
        _ => false,
    }
}

/// Returns whether any of the peers has a deletion lock.
pub(crate) fn is_kept(cells: &[Option<Subscription>]) -> bool
    ensures { result ≡ is_locked_by_any cells.now }
{
    cells.iter().any(|cell| is_locked(*cell))
}

/// Returns what the cell at `place` contains after the one at `peer` is replaced.
fn cell_with(
    place: usize,
    cell: Option<Subscription>,
    peer: usize,
    subscription: Option<Subscription>,
) -> Option<Subscription>
    ensures { result ≡ (if nat_eq peer place then subscription else cell) }
{
    if place == peer { subscription } else { cell }
}

/// Returns whether any of the peers would have a deletion lock if `peer` had this subscription.
pub(crate) fn is_kept_with(
    cells: &[Option<Subscription>],
    peer: usize,
    subscription: Option<Subscription>,
) -> bool
    requires { peer < length cells.now }
    ensures { result ≡ is_locked_by_any (slice_set cells.now peer subscription) }
{
    for (place, cell) in cells.iter().enumerate() {
        if is_locked(cell_with(place, *cell, peer, subscription)) {
            return true;
        }
    }
    false
}
