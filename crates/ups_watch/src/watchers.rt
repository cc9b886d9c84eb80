//! The table of subscriptions.

ghost use Rattle.std.specs.Prelude.{◌≡◌, ◌<◌, ◌≤◌, ◌+◌, ◌&&◌, ◌||◌, not, ℕ, List, [], None, Some, is_some, true, false, length, replicate, nat_eq, slice_index_or, slice_set, if◌then◌else◌, IfOk, IsOk, OnOk};
ghost use Rattle.std.specs.Option.{option_or};
ghost use Rattle.std.specs.Str.{bytes_eq};
ghost use Rattle.ups_life.specs.Watching.{is_among, is_at};
ghost use Rattle.ups_watch.specs.Covers.{covers_left, subscription_gained};
ghost use Rattle.ups_watch.specs.Table.{watching, knows, covering, cells_of, is_locked_by_any, locks};

use crate::cover::{Cover, end_cover, fill, newly_all};
use crate::row::{WatchRow, cell_at, is_kept, is_kept_with, is_locked};
use crate::rows::{Rows, add_blanks, end_at, put_each, put_row, set_cell, set_cells, take_row};
use std::alloc::{AllocError, Allocator};
use std::collections::HashMap;
use std::marker::Model;
use ups_dataset::DataSet;
use ups_life::{Place, StepUid, Subscription};

/// The subscriptions of all peers (PS3.4 CC.2.3). A peer is identified by its index in the list of peers. A step is
/// known from its creation to its removal. A contract sees the global subscription of each peer, the known steps with
/// the subscription of each peer to them, and the number of further steps for which there is room.
pub struct Watchers<A: Allocator + Copy> {
    alloc: A,
    covers: Vec<Option<Cover<A>>, A>,
    rows: Rows<A>,
    blanks: Vec<WatchRow<A>, A>,
}

impl<A: Allocator + Copy> Drop for Watchers<A> {
    fn drop(self) {
        let Watchers {
            alloc: _,
            covers: _,
            rows: _,
            blanks: _,
        } = self;
    }
}

impl<A: Allocator + Copy> Model for Watchers<A> {
    ghost use Rattle.std.specs.Prelude.{min};
    ghost use Rattle.std.specs.HashMap.{spare};
    ghost use Rattle.std.specs.Vec.{vec_len};
    ghost use Rattle.ups_watch.specs.Table.{WatchersView, KeepsWatchers};

    ghost Value = { WatchersView A };

    ghost use Rattle.std.specs.Coded.{codes};
    ghost use Rattle.ups_dataset.specs.Code.{set_code};
    ghost use Rattle.ups_match.specs.KeyCode.{keys_code};

    ghost coded = { Prim.hlevel (keys_code, set_code, codes) };

    ghost view = { λ w. record { covers = w.covers.items; rows = w.rows.entries; spare = min (spare w.rows) (vec_len w.blanks) } };

    ghost invariant = { λ w. KeepsWatchers w.covers.items w.rows.entries w.blanks.items };
}

impl<A: Allocator + Copy> Watchers<A> {
    /// Returns a table for this number of peers, in which no peer is subscribed to anything and no step is known.
    ///
    /// # Errors
    ///
    /// If memory runs out.
    pub fn new(alloc: A, peers: usize) -> Result<Watchers<A>, AllocError>
        ensures covers { IfOk result (λ w. w.covers ≡ replicate peers None) }
        ensures rows { IfOk result (λ w. w.rows ≡ []) }
    {
        let mut covers = Vec::with_capacity(alloc, peers)?;
        for _ in 0..peers {
            covers.push(None)?;
        }
        Ok(Watchers {
            alloc,
            covers,
            rows: HashMap::new(alloc),
            blanks: Vec::new(alloc),
        })
    }

    /// Makes room for `steps` further steps.
    ///
    /// # Errors
    ///
    /// If memory runs out, but never if there is that room already. The subscriptions then stay the same, and there is
    /// no less room.
    pub fn reserve(&mut self, steps: usize) -> Result<(), AllocError>
        ensures room { OnOk result (steps ≤ self.new.spare) }
        ensures succeeds { steps ≤ self.old.spare → IsOk result }
        ensures keeps { self.old.spare ≤ self.new.spare }
        ensures covers { self.new.covers ≡ self.old.covers }
        ensures watching { (p : ℕ) → (u : List ℕ) → watching self.new p u ≡ watching self.old p u }
        ensures cells { (u : List ℕ) → cells_of self.new u ≡ cells_of self.old u }
        ensures known { (u : List ℕ) → knows self.new u ≡ knows self.old u }
    {
        let Watchers {
            alloc,
            covers,
            rows,
            blanks,
        } = self;
        rows.reserve(steps)?;
        add_blanks(*alloc, blanks, covers.len(), steps)
    }

    /// Adds a step that is created with these attributes, for which there is room, and subscribes to it each peer whose
    /// global subscription takes it in (PS3.4 CC.2.3).
    pub fn created(&mut self, step: StepUid, attributes: &DataSet<A>)
        requires room { 0 < self.old.spare }
        ensures watching { (p : ℕ) → (u : List ℕ) → watching self.new p u ≡ (if bytes_eq step u then covering self.old p attributes.now else watching self.old p u) }
        ensures known { (u : List ℕ) → knows self.new u ≡ (bytes_eq step u || knows self.old u) }
        ensures covers { self.new.covers ≡ self.old.covers }
        ensures spare { self.old.spare ≤ self.new.spare + 1 }
    {
        let Watchers {
            covers,
            rows,
            blanks,
            ..
        } = self;
        let Some(mut row) = blanks.pop() else {
            unreachable!();
        };
        fill(&mut row, covers, attributes);
        put_row(rows, covers.len(), step, row);
    }

    /// Subscribes a peer to a known step, replacing the subscription that it has to the step, if any (PS3.4 CC.2.3).
    pub fn subscribe(&mut self, peer: usize, step: StepUid, subscription: Subscription)
        requires peer { peer < length self.old.covers }
        requires known { knows self.old step ≡ true }
        ensures watching { (p : ℕ) → (u : List ℕ) → watching self.new p u ≡ (if nat_eq peer p && bytes_eq step u then Some subscription else watching self.old p u) }
        ensures known { (u : List ℕ) → knows self.new u ≡ knows self.old u }
        ensures covers { self.new.covers ≡ self.old.covers }
        ensures spare { self.old.spare ≤ self.new.spare }
    {
        let Watchers { covers, rows, .. } = self;
        set_cell(rows, covers.len(), step, peer, Some(subscription));
    }

    /// Ends subscriptions of a peer: the one to a single step, or those to all steps together with the global
    /// subscription (PS3.4 CC.2.3).
    pub fn unsubscribe(&mut self, peer: usize, place: Place)
        requires peer { peer < length self.old.covers }
        ensures watching { (p : ℕ) → (u : List ℕ) → watching self.new p u ≡ (if nat_eq peer p && is_at place u then None else watching self.old p u) }
        ensures known { (u : List ℕ) → knows self.new u ≡ knows self.old u }
        ensures covers { self.new.covers ≡ covers_left place peer self.old.covers }
        ensures spare { self.old.spare ≤ self.new.spare }
    {
        let Watchers { covers, rows, .. } = self;
        end_at(rows, covers.len(), &place, peer);
        end_cover(covers, &place, peer);
    }

    /// Gives a peer a global subscription, replacing the one that it has, if any, and subscribes it to `steps`, which
    /// are known: the caller lists the steps that the subscription takes in (PS3.4 CC.2.3).
    pub fn global(&mut self, peer: usize, cover: Cover<A>, steps: &[StepUid])
        requires peer { peer < length self.old.covers }
        requires known { (u : List ℕ) → is_among u steps.now ≡ true → knows self.old u ≡ true }
        ensures watching { (p : ℕ) → (u : List ℕ) → watching self.new p u ≡ (if nat_eq peer p && is_among u steps.now then Some cover.subscription else watching self.old p u) }
        ensures known { (u : List ℕ) → knows self.new u ≡ knows self.old u }
        ensures covers { self.new.covers ≡ slice_set self.old.covers peer (Some cover) }
        ensures spare { self.old.spare ≤ self.new.spare }
    {
        let Watchers { covers, rows, .. } = self;
        set_cells(rows, covers.len(), steps, peer, Some(cover.subscription));
        covers[peer] = Some(cover);
    }

    /// Ends the global subscription of a peer, if it has one. Its subscriptions to steps stay (PS3.4 CC.2.3).
    pub fn suspend(&mut self, peer: usize)
        requires peer { peer < length self.old.covers }
        ensures watching { (p : ℕ) → (u : List ℕ) → watching self.new p u ≡ watching self.old p u }
        ensures known { (u : List ℕ) → knows self.new u ≡ knows self.old u }
        ensures covers { self.new.covers ≡ slice_set self.old.covers peer None }
        ensures spare { self.old.spare ≤ self.new.spare }
    {
        self.covers[peer] = None;
    }

    /// Removes a step, if it is known, and all subscriptions to it.
    pub fn removed(&mut self, step: StepUid)
        ensures watching { (p : ℕ) → (u : List ℕ) → watching self.new p u ≡ (if bytes_eq step u then None else watching self.old p u) }
        ensures known { (u : List ℕ) → knows self.new u ≡ (not (bytes_eq step u) && knows self.old u) }
        ensures covers { self.new.covers ≡ self.old.covers }
        ensures spare { self.old.spare ≤ self.new.spare }
    {
        take_row(&mut self.rows, self.covers.len(), step);
    }

    /// Returns the subscription of each peer to a step, indexed by peer; empty if the step is not known.
    pub fn of_step(&self, step: StepUid) -> &[Option<Subscription>]
        ensures cells { result.now ≡ cells_of self.now step }
        ensures watching { (p : ℕ) → slice_index_or result.now p None ≡ watching self.now p step }
        ensures width { knows self.now step ≡ true → length result.now ≡ length self.now.covers }
    {
        match self.rows.get(&step) {
            Some(row) => row.as_slice(),
            None => &[],
        }
    }

    /// Returns the subscription of a peer to a step, or None if it has none.
    pub fn watching(&self, peer: usize, step: StepUid) -> Option<Subscription>
        ensures { result ≡ watching self.now peer step }
    {
        cell_at(self.of_step(step), peer)
    }

    /// Returns the number of peers that have a deletion lock on a step (PS3.4 CC.2.3).
    pub fn locks(&self, step: StepUid) -> usize
        ensures { result ≡ locks self.now step }
    {
        self.of_step(step)
            .iter()
            .filter(|cell| is_locked(**cell))
            .count()
    }

    /// Returns whether a step is known.
    pub fn knows(&self, step: StepUid) -> bool
        ensures { result ≡ knows self.now step }
    {
        self.rows.contains_key(&step)
    }

    /// Returns whether any of the peers has a deletion lock on a step, which keeps it from being removed (PS3.4
    /// CC.2.3).
    pub fn is_kept(&self, step: StepUid) -> bool
        ensures { result ≡ is_locked_by_any (cells_of self.now step) }
    {
        is_kept(self.of_step(step))
    }

    /// Returns whether any of the peers would have a deletion lock on a known step if `peer` had this subscription to
    /// it.
    pub fn is_kept_with(
        &self,
        step: StepUid,
        peer: usize,
        subscription: Option<Subscription>,
    ) -> bool
        requires known { knows self.now step ≡ true }
        requires peer { peer < length self.now.covers }
        ensures { result ≡ is_locked_by_any (slice_set (cells_of self.now step) peer subscription) }
    {
        is_kept_with(self.of_step(step), peer, subscription)
    }

    /// Does nothing at run time: its contract tells a proof that `of_step` has a cell for each peer if the step is known.
    pub fn learn(&self)
        ensures { (u : List ℕ) → knows self.now u ≡ true → length (cells_of self.now u) ≡ length self.now.covers }
    {
        let _ = &self.covers;
    }

    /// Returns the number of peers. `of_step` has a cell for each of them if the step is known.
    pub fn peers(&self) -> usize
        ensures peers { result ≡ length self.now.covers }
        ensures width { (u : List ℕ) → knows self.now u ≡ true → length (cells_of self.now u) ≡ length self.now.covers }
    {
        self.covers.len()
    }

    /// Returns whether a peer has a global subscription.
    pub fn has_cover(&self, peer: usize) -> bool
        requires { peer < length self.now.covers }
        ensures { result ≡ is_some (slice_index_or self.now.covers peer None) }
    {
        self.covers[peer].is_some()
    }

    /// Returns the subscription to a step that each peer gains by a change of the step's attributes, indexed by peer:
    /// that of its global subscription if the peer is not subscribed to the step, and the step matches the keys of the
    /// global subscription after the change but not before; None otherwise. PS3.4 CC.2.3 leaves open when keys are
    /// tried; this rule is the profile's.
    ///
    /// # Errors
    ///
    /// If memory runs out.
    pub fn newly(
        &self,
        step: StepUid,
        before: &DataSet<A>,
        after: &DataSet<A>,
    ) -> Result<Vec<Option<Subscription>, A>, AllocError>
        ensures newly { IfOk result (λ v. (p : ℕ) → slice_index_or v.items p None ≡ subscription_gained (slice_index_or self.now.covers p None) (watching self.now p step) before.now after.now) }
        ensures width { IfOk result (λ v. length v.items ≡ length self.now.covers) }
    {
        newly_all(
            self.alloc,
            self.covers.as_slice(),
            self.of_step(step),
            before,
            after,
        )
    }

    /// Subscribes each peer for which a subscription is given, indexed by peer, to a known step.
    pub fn subscribe_each(&mut self, step: StepUid, newly: &[Option<Subscription>])
        requires width { length newly.now ≤ length self.old.covers }
        requires known { knows self.old step ≡ true }
        ensures watching { (p : ℕ) → (u : List ℕ) → watching self.new p u ≡ (if bytes_eq step u then option_or (slice_index_or newly.now p None) (watching self.old p u) else watching self.old p u) }
        ensures known { (u : List ℕ) → knows self.new u ≡ knows self.old u }
        ensures covers { self.new.covers ≡ self.old.covers }
        ensures spare { self.old.spare ≤ self.new.spare }
    {
        put_each(&mut self.rows, self.covers.len(), step, newly);
    }

    /// Returns the number of further steps for which there is room.
    pub fn spare(&self) -> usize
        ensures { result ≡ self.now.spare }
    {
        let steps = self.rows.capacity() - self.rows.len();
        steps.min(self.blanks.len())
    }
}
