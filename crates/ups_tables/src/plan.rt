//! The plan of an accepted request: its effect on the tables, computed in full before the tables change. A peer is
//! identified by its index in the list of peers.

ghost use Rattle.std.specs.Prelude.{◌≡◌};
ghost use Rattle.ups_tables.specs.Planned.{removed_by, swept_by};

use std::alloc::Allocator;
use ups_keep::Final;
use ups_life::{Report, StepUid, Subscription};
use ups_steps::HeldRow;
use ups_watch::Cover;

/// The effect of a request on the tables.
#[derive(Drop)]
pub enum Plan<A: Allocator + Copy> {
    /// The creation of a step (PS3.4 CC.2.5). The peers that a global subscription subscribes to it are told `news`.
    Create {
        step: StepUid,
        held: HeldRow<A>,
        news: Vec<Report, A>,
    },
    /// A change of the row or the holder of a step (PS3.4 CC.2.1, CC.2.2). Its watchers are told `news`.
    Change {
        step: StepUid,
        held: HeldRow<A>,
        news: Vec<Report, A>,
    },
    /// A change of attributes of a step (PS3.4 CC.2.6). Its watchers are told `news`; the peers that `newly`, indexed
    /// by peer, subscribes to it as a result are told only `first`.
    Set {
        step: StepUid,
        held: HeldRow<A>,
        news: Vec<Report, A>,
        newly: Vec<Option<Subscription>, A>,
        first: Vec<Report, A>,
    },
    /// A subscription of a peer to one step, of which it is told (PS3.4 CC.2.3).
    Single {
        peer: usize,
        step: StepUid,
        subscription: Subscription,
        news: Vec<Report, A>,
    },
    /// A global subscription of a peer, which subscribes it to the `chosen` steps and tells it of them (PS3.4 CC.2.3).
    /// The `freed` steps, on which only this peer had a deletion lock, await removal from now on.
    Global {
        peer: usize,
        cover: Cover<A>,
        chosen: Vec<StepUid, A>,
        freed: Vec<Final, A>,
        news: Vec<Report, A>,
    },
    /// The end of a peer's subscription to one step (PS3.4 CC.2.3).
    End {
        peer: usize,
        step: StepUid,
    },
    /// The end of all subscriptions of a peer (PS3.4 CC.2.3). The `freed` steps await removal from now on.
    EndAll {
        peer: usize,
        freed: Vec<Final, A>,
    },
    /// The end of a peer's global subscription (PS3.4 CC.2.3).
    Suspend {
        peer: usize,
    },
    /// An acknowledgement of a peer's events up to a number.
    Ack {
        peer: usize,
        upto: u64,
    },
    /// The removal of the steps that became final no later than a moment and that no peer has a deletion lock on.
    Sweep {
        due: Vec<Final, A>,
        moment: u64,
    },
    /// The reservation of a UID, which is used from then on (PS3.4 CC.2.5).
    Reserve {
        step: StepUid,
    },
    /// No effect: a sweep when no step has awaited removal long enough.
    Idle,
}

impl<A: Allocator + Copy> Plan<A> {
    /// Returns the steps that the plan removes, each with the moment at which it became final. Only a sweep removes
    /// any.
    pub fn removed(&self) -> &[Final]
        ensures { result.now ≡ removed_by self.now }
    {
        match self {
            Plan::Sweep { due, .. } => due.as_slice(),
            _ => &[],
        }
    }

    /// Returns the number of steps that the plan removes, which is the reply to a sweep.
    pub fn swept(&self) -> usize
        ensures { result ≡ swept_by self.now }
    {
        match self {
            Plan::Sweep { due, .. } => due.len(),
            _ => 0,
        }
    }
}
