//! The watchers of steps, and their subscriptions.

ghost use Rattle.std.specs.Prelude.{◌≡◌, true, [], MatchOption};
ghost use Rattle.ups_match.specs.Matching.{is_match};
ghost use Rattle.ups_life.specs.Instances.{IsFilter};

use crate::step::StepUid;
use std::alloc::Allocator;
use std::marker::Model;
use ups_dataset::DataSet;
use ups_match::{Keys, Matcher, Probe};
use ups_pdu::Ae;

/// The subscription of a watcher to a step (PS3.4 CC.2.3).
#[derive(Clone, Copy, Debug, PartialEq, Eq)]
pub enum Subscription {
    /// A subscription without a Deletion Lock.
    Free,
    /// A subscription with a Deletion Lock: the step is not removed.
    Locked,
}

/// A step that a watcher is subscribed to.
#[derive(Clone, Copy)]
pub struct Watched {
    /// The instance UID of the step.
    pub step: StepUid,
    /// The subscription of the watcher to the step.
    pub subscription: Subscription,
}

/// A watcher that is subscribed to a step.
#[derive(Clone, Copy)]
pub struct Subscriber {
    /// The title of the watcher.
    pub ae: Ae,
    /// The subscription of the watcher to the step.
    pub subscription: Subscription,
}

/// The keys of a filtered global subscription (PS3.4 CC.2.3), at least one of which is not universal. A contract sees
/// them as keys.
#[derive(Drop)]
pub struct Filter<A: Allocator + Copy> {
    keys: Keys<A>,
}

impl<A: Allocator + Copy> Model for Filter<A> {
    ghost use Rattle.ups_match.specs.KeyCode.{keys_code};
    ghost use Rattle.ups_match.specs.Matching.{KeySet};
    ghost use Rattle.ups_life.specs.Instances.{IsFilter};

    ghost Value = { KeySet };

    ghost coded = { keys_code };

    ghost view = { λ f. f.keys };

    ghost invariant = { λ f. IsFilter f.keys };
}

impl<A: Allocator + Copy> Filter<A> {
    /// Creates a filter from keys, or returns None if they are all universal, that is, if they match a step without any
    /// attribute (PS3.4 section C.2.2.2.3).
    pub fn of(alloc: A, keys: Keys<A>) -> Option<Filter<A>>
        ensures { MatchOption result (is_match keys [] ≡ true) (λ f. f ≡ keys) }
    {
        if Probe::new().matches(&keys, &DataSet::new(alloc)) {
            return None;
        }
        Some(Filter { keys })
    }

    /// Returns the keys.
    pub fn keys(&self) -> &Keys<A>
        ensures keys { result.now ≡ self.now }
        ensures filters { IsFilter self.now }
    {
        &self.keys
    }
}

/// The target of a subscription (PS3.4 CC.2.3).
#[derive(Drop)]
pub enum Target<A: Allocator + Copy> {
    /// One step, or None if its instance UID is absent or malformed.
    Single(Option<StepUid>),
    /// Every step, including those created later: the global subscription.
    Global,
    /// The steps that match keys: the filtered global subscription.
    Filtered(Filter<A>),
}

/// The steps for which subscriptions end (PS3.4 CC.2.3).
#[derive(Clone, Copy)]
pub enum Place {
    /// One step, or None if its instance UID is absent or malformed.
    At(Option<StepUid>),
    /// Every step, including those created later.
    Everywhere,
}
