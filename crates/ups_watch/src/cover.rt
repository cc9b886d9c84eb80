//! Global subscriptions, and the steps that they take in.

ghost use Rattle.std.specs.Prelude.{◌≡◌, ◌<◌, ℕ, None, IfOk, length, slice_index_or};
ghost use Rattle.ups_watch.specs.Covers.{are_met, covered, covering_in, is_newly_met, subscription_gained, covers_left};

use crate::row::{WatchRow, cell_at};
use std::alloc::{AllocError, Allocator};
use ups_dataset::DataSet;
use ups_life::{Place, Subscription};
use ups_match::{Keys, Matcher, Probe};

/// The global subscription of a peer, filtered or not (PS3.4 CC.2.3).
#[derive(Drop)]
pub struct Cover<A: Allocator + Copy> {
    /// The keys that a step has to match, or None if the subscription takes in every step.
    pub keys: Option<Keys<A>>,
    /// The subscription of the peer to a step that is taken in.
    pub subscription: Subscription,
}

/// Returns whether a step with these attributes matches the keys of a global subscription, if it has any.
fn are_met<A: Allocator + Copy>(keys: &Option<Keys<A>>, attributes: &DataSet<A>) -> bool
    ensures { result ≡ are_met keys.now attributes.now }
{
    match keys {
        None => true,
        Some(keys) => Probe::new().matches(keys, attributes),
    }
}

/// Returns the subscription of a peer with this global subscription to a step that is created with these attributes.
fn covered<A: Allocator + Copy>(
    cover: &Option<Cover<A>>,
    attributes: &DataSet<A>,
) -> Option<Subscription>
    ensures { result ≡ covered cover.now attributes.now }
{
    match cover {
        Some(cover) if are_met(&cover.keys, attributes) => Some(cover.subscription),
        _ => None,
    }
}

/// Fills the row of a step that is created with these attributes: subscribes each peer as its global subscription says.
pub(crate) fn fill<A: Allocator + Copy>(
    row: &mut WatchRow<A>,
    covers: &[Option<Cover<A>>],
    attributes: &DataSet<A>,
)
    requires width { length row.old ≡ length covers.now }
    ensures cells { (p : ℕ) → slice_index_or row.new p None ≡ covering_in covers.now p attributes.now }
    ensures width { length row.new ≡ length covers.now }
{
    for (peer, cover) in covers.iter().enumerate() {
        row.set(peer, covered(cover, attributes));
    }
}

/// Ends the global subscription of a peer if its subscriptions end everywhere, but not if they end at one step.
pub(crate) fn end_cover<A: Allocator + Copy>(
    covers: &mut Vec<Option<Cover<A>>, A>,
    place: &Place,
    peer: usize,
)
    requires { peer < length covers.old.items }
    ensures { covers.new.items ≡ covers_left place.now peer covers.old.items }
{
    match place {
        Place::At(_) => {}
        Place::Everywhere => covers[peer] = None,
    }
}

/// Returns whether a step matches the keys of a global subscription after a change of its attributes, but not before.
fn is_newly_met<A: Allocator + Copy>(
    keys: &Option<Keys<A>>,
    before: &DataSet<A>,
    after: &DataSet<A>,
) -> bool
    ensures { result ≡ is_newly_met keys.now before.now after.now }
{
    match keys {
        None => false,
        Some(keys) => { Probe::new().matches(keys, after) && !Probe::new().matches(keys, before) }
    }
}

/// Returns the subscription to a step that a peer with this global subscription gains by a change of the step's
/// attributes, or None if it gains none. `current` is its subscription before the change.
fn newly_covered<A: Allocator + Copy>(
    cover: &Option<Cover<A>>,
    current: Option<Subscription>,
    before: &DataSet<A>,
    after: &DataSet<A>,
) -> Option<Subscription>
    ensures { result ≡ subscription_gained cover.now current before.now after.now }
{
    match (cover, current) {
        (Some(cover), None) if is_newly_met(&cover.keys, before, after) => Some(cover.subscription),
        _ => None,
    }
}

/// Returns the subscription to a step that each peer gains by a change of the step's attributes, indexed by peer.
/// `cells` are the subscriptions to the step before the change.
///
/// Errors: if memory runs out.
pub(crate) fn newly_all<A: Allocator + Copy>(
    alloc: A,
    covers: &[Option<Cover<A>>],
    cells: &[Option<Subscription>],
    before: &DataSet<A>,
    after: &DataSet<A>,
) -> Result<Vec<Option<Subscription>, A>, AllocError>
    ensures newly { IfOk result (λ v. (p : ℕ) → slice_index_or v.items p None ≡ subscription_gained (slice_index_or covers.now p None) (slice_index_or cells.now p None) before.now after.now) }
    ensures width { IfOk result (λ v. length v.items ≡ length covers.now) }
{
    let mut found = Vec::with_capacity(alloc, covers.len())?;
    for (peer, cover) in covers.iter().enumerate() {
        found.push(newly_covered(cover, cell_at(cells, peer), before, after))?;
    }
    Ok(found)
}
