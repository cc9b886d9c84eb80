//! The subscriptions and events of a watcher, by its index in the list of peers. A watcher without an index is no peer,
//! and has none.

ghost use Rattle.std.specs.Prelude.{◌≡◌, ◌<◌, ◌++◌, ◌∷◌, [], ℕ, None, Some, take, length, IfOk, OnOk};
ghost use Rattle.std.specs.List.{filter_map};
ghost use Rattle.ups_life.specs.Watching.{watched_step};
ghost use Rattle.ups_events.specs.Telling.{empty_line};
ghost use Rattle.ups_tables.specs.Fit.{how, queue_line};
ghost use Rattle.ups_tables.specs.Places.{by_place};

use std::alloc::{AllocError, Allocator};
use ups_life::{Event, StepUid, Subscription, Watched};
use ups_tables::Tables;

/// Returns the subscription of the peer at an index to a step, or None if it has none (PS3.4 CC.2.3).
fn how_at<A: Allocator + Copy>(
    tables: &Tables<A>,
    place: Option<usize>,
    step: StepUid,
) -> Option<Subscription>
    ensures { result ≡ by_place None (λ p. how tables.now p step) place }
{
    match place {
        Some(peer) => tables.watchers.watching(peer, step),
        None => None,
    }
}

/// Adds a step if a watcher is subscribed to it.
///
/// Errors: if memory runs out.
fn add_watched<A: Allocator + Copy>(
    found: &mut Vec<Watched, A>,
    step: StepUid,
    subscription: Option<Subscription>,
) -> Result<(), AllocError>
    ensures { OnOk result (found.new.items ≡ found.old.items ++ filter_map (λ u. watched_step u subscription) (step ∷ [])) }
{
    if let Some(subscription) = subscription {
        found.push(Watched { step, subscription })?;
    }
    Ok(())
}

/// Returns those of these steps that the peer at an index is subscribed to, each with the subscription (PS3.4 CC.2.3).
///
/// Errors: if memory runs out.
pub(crate) fn watched_in<A: Allocator + Copy>(
    alloc: A,
    tables: &Tables<A>,
    place: Option<usize>,
    steps: &[StepUid],
) -> Result<Vec<Watched, A>, AllocError>
    ensures { IfOk result (λ v. v.items ≡ filter_map (λ u. watched_step u (by_place None (λ p. how tables.now p u) place)) steps.now) }
{
    let mut found = Vec::new(alloc);
    for step in steps {
        let subscription = how_at(tables, place, *step);
        add_watched(&mut found, *step, subscription)?;
    }
    Ok(found)
}

/// Returns the first `max` events that are pending for the peer at an index, oldest first (PS3.4 CC.2.4).
///
/// Errors: if memory runs out.
pub(crate) fn first_pending<A: Allocator + Copy>(
    alloc: A,
    tables: &Tables<A>,
    place: Option<usize>,
    max: u64,
) -> Result<Vec<Event, A>, AllocError>
    requires { (p : ℕ) → place ≡ Some p → p < length tables.now.queues }
    ensures { IfOk result (λ v. v.items ≡ take max (by_place empty_line (λ p. queue_line tables.now p) place).events) }
{
    match place {
        Some(peer) => tables.queues.of_peer(peer).pending(max),
        None => Ok(Vec::new(alloc)),
    }
}

/// Returns all events that are pending for the peer at an index, oldest first (PS3.4 CC.2.4).
///
/// Errors: if memory runs out.
pub(crate) fn all_pending<A: Allocator + Copy>(
    alloc: A,
    tables: &Tables<A>,
    place: Option<usize>,
) -> Result<Vec<Event, A>, AllocError>
    requires { (p : ℕ) → place ≡ Some p → p < length tables.now.queues }
    ensures { IfOk result (λ v. v.items ≡ (by_place empty_line (λ p. queue_line tables.now p) place).events) }
{
    let waiting = waiting_at(tables, place);
    first_pending(alloc, tables, place, waiting as u64)
}

/// Returns the number of events that were made for the peer at an index.
pub(crate) fn made_at<A: Allocator + Copy>(tables: &Tables<A>, place: Option<usize>) -> u64
    requires { (p : ℕ) → place ≡ Some p → p < length tables.now.queues }
    ensures { result ≡ (by_place empty_line (λ p. queue_line tables.now p) place).made }
{
    match place {
        Some(peer) => tables.queues.of_peer(peer).made(),
        None => 0,
    }
}

/// Returns the number up to which the peer at an index has acknowledged its events, or 0 if it has acknowledged none.
pub(crate) fn acked_at<A: Allocator + Copy>(tables: &Tables<A>, place: Option<usize>) -> u64
    requires { (p : ℕ) → place ≡ Some p → p < length tables.now.queues }
    ensures { result ≡ (by_place empty_line (λ p. queue_line tables.now p) place).acked }
{
    match place {
        Some(peer) => tables.queues.of_peer(peer).acked(),
        None => 0,
    }
}

/// Returns the number of events that are pending for the peer at an index (PS3.4 CC.2.4).
pub(crate) fn waiting_at<A: Allocator + Copy>(tables: &Tables<A>, place: Option<usize>) -> usize
    requires { (p : ℕ) → place ≡ Some p → p < length tables.now.queues }
    ensures { result ≡ length (by_place empty_line (λ p. queue_line tables.now p) place).events }
{
    match place {
        Some(peer) => tables.queues.of_peer(peer).waiting(),
        None => 0,
    }
}
