//! The tables, and their contents for an empty history.

ghost use Rattle.std.specs.Prelude.{◌≡◌, [], ℕ, List, None, replicate, IfOk};
ghost use Rattle.ups_events.specs.Telling.{empty_line};
ghost use Rattle.ups_tables.specs.Fit.{how, queue_line, TablesFit};

use std::alloc::{AllocError, Allocator};
use std::collections::HashSet;
use std::hash::{BuildHasherDefault, FoldHasher};
use ups_events::Queues;
use ups_keep::Due;
use ups_life::StepUid;
use ups_steps::Steps;
use ups_watch::Watchers;

/// What is known about a history of accepted requests. A peer is identified by its index in the list of peers.
pub struct Tables<A: Allocator + Copy> {
    /// The held steps, in order of creation, keyed by UID.
    pub steps: Steps<A>,
    /// The UIDs of all steps ever created, and those reserved: none is used again (PS3.4 CC.2.5).
    pub used: HashSet<StepUid, BuildHasherDefault<FoldHasher>, A>,
    /// The global subscription of each peer, and the subscription of each peer to each held step (PS3.4 CC.2.3).
    pub watchers: Watchers<A>,
    /// The events of each peer that it has not acknowledged (PS3.4 CC.2.4).
    pub queues: Queues<A>,
    /// The steps that await removal: they are final, and no peer has a deletion lock on them (PS3.4 CC.2.3).
    pub due: Due<A>,
}

impl<A: Allocator + Copy> Drop for Tables<A> {
    fn drop(self) {
        let Tables {
            steps: _,
            used: _,
            watchers: _,
            queues: _,
            due: _,
        } = self;
    }
}

impl<A: Allocator + Copy> Tables<A> {
    /// Returns the tables of an empty history, for this number of peers.
    ///
    /// # Errors
    ///
    /// If memory runs out.
    pub fn new(alloc: A, peers: usize) -> Result<Tables<A>, AllocError>
        ensures steps { IfOk result (λ t. t.steps.entries ≡ []) }
        ensures used { IfOk result (λ t. t.used.keys ≡ []) }
        ensures covers { IfOk result (λ t. t.watchers.covers ≡ replicate peers None) }
        ensures hows { IfOk result (λ t. (p : ℕ) → (u : List ℕ) → how t p u ≡ None) }
        ensures queues { IfOk result (λ t. (p : ℕ) → queue_line t p ≡ empty_line) }
        ensures fits { IfOk result (λ t. TablesFit t) }
    {
        let watchers = Watchers::new(alloc, peers)?;
        let queues = Queues::new(alloc, peers)?;
        Ok(Tables {
            steps: Steps::new(alloc),
            used: HashSet::new(alloc),
            watchers,
            queues,
            due: Due::new(alloc),
        })
    }
}
