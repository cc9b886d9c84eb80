//! Keeps the list of the steps that await removal in line with deletion locks and states: a step is listed if it is
//! final and no peer has a deletion lock on it (PS3.4 CC.2.3).

ghost use Rattle.std.specs.Prelude.{◌≡◌, ◌≤◌, ◌<◌, ◌+◌, ◌&&◌, ℕ, not, List, None, Some, is_some, true, false, length, if◌then◌else◌};
ghost use Rattle.std.specs.Option.{option_or};
ghost use Rattle.std.specs.Str.{bytes_eq};
ghost use Rattle.ups_life.specs.Distinct.{Distinct};
ghost use Rattle.ups_life.specs.Watching.{is_among};
ghost use Rattle.ups_keep.specs.Waits.{steps_of, waits, unless_kept};
ghost use Rattle.ups_watch.specs.Table.{cells_of, is_locked_by_any, is_locked, knows, watching};

use std::alloc::Allocator;
use ups_keep::{Due, Final};
use ups_life::{StepUid, Subscription};
use ups_watch::Watchers;

/// Returns the moment since which a step awaits removal: `final_at`, or None if a peer keeps the step or it isn't
/// final.
fn waiting_since(kept: bool, final_at: Option<u64>) -> Option<u64>
    ensures { result ≡ unless_kept kept final_at }
{
    if kept { None } else { final_at }
}

/// Returns the moment since which a step awaits removal: `final_at`, or None if a peer keeps the step or it isn't
/// final. Peers are asked only about a final step.
pub(crate) fn waiting_in<A: Allocator + Copy>(
    watchers: &Watchers<A>,
    step: StepUid,
    final_at: Option<u64>,
) -> Option<u64>
    ensures { result ≡ unless_kept (is_locked_by_any (cells_of watchers.now step)) final_at }
{
    if final_at.is_none() {
        return None;
    }
    waiting_since(watchers.is_kept(step), final_at)
}

/// Returns whether both are the same moment, or both None.
fn is_same(before: Option<u64>, after: Option<u64>) -> bool
    ensures { result ≡ true → before ≡ after }
{
    match (before, after) {
        (Some(before), Some(after)) => before == after,
        (None, None) => true,
        _ => false,
    }
}

/// Removes a step that is in the list with the moment `before`, unless that is None.
fn take_if<A: Allocator + Copy>(due: &mut Due<A>, step: StepUid, before: Option<u64>)
    requires once { Distinct (steps_of due.old.steps) }
    requires before { waits step due.old.steps ≡ before }
    ensures waits { (u : List ℕ) → waits u due.new.steps ≡ (if bytes_eq step u then None else waits u due.old.steps) }
    ensures once { Distinct (steps_of due.new.steps) }
    ensures spare { due.old.spare ≤ due.new.spare }
{
    match before {
        Some(moment) => due.take(&Final { moment, step }),
        None => {}
    }
}

/// Adds a step that is not in the list, with the moment `after`, unless that is None. There is room for it.
fn add_if<A: Allocator + Copy>(due: &mut Due<A>, step: StepUid, after: Option<u64>)
    requires once { Distinct (steps_of due.old.steps) }
    requires absent { waits step due.old.steps ≡ None }
    requires room { 0 < due.old.spare }
    ensures waits { (u : List ℕ) → waits u due.new.steps ≡ (if bytes_eq step u then after else waits u due.old.steps) }
    ensures once { Distinct (steps_of due.new.steps) }
{
    match after {
        Some(moment) => due.add(Final { moment, step }),
        None => {}
    }
}

/// Updates the list for a step that has awaited removal since `before`, if at all, and awaits it since `after` now, if
/// at all. There is room for it.
pub(crate) fn settle<A: Allocator + Copy>(
    due: &mut Due<A>,
    step: StepUid,
    before: Option<u64>,
    after: Option<u64>,
)
    requires once { Distinct (steps_of due.old.steps) }
    requires before { waits step due.old.steps ≡ before }
    requires room { 0 < due.old.spare }
    ensures waits { (u : List ℕ) → waits u due.new.steps ≡ (if bytes_eq step u then after else waits u due.old.steps) }
    ensures once { Distinct (steps_of due.new.steps) }
{
    if is_same(before, after) {
        return;
    }
    take_if(due, step, before);
    add_if(due, step, after);
}

/// Removes all steps on which a peer has a deletion lock. It walks the list once.
pub(crate) fn drop_kept<A: Allocator + Copy>(due: &mut Due<A>, watchers: &Watchers<A>)
    requires once { Distinct (steps_of due.old.steps) }
    ensures waits { (u : List ℕ) → waits u due.new.steps ≡ unless_kept (is_locked_by_any (cells_of watchers.now u)) (waits u due.old.steps) }
    ensures once { Distinct (steps_of due.new.steps) }
    ensures spare { due.old.spare ≤ due.new.spare }
{
    due.retain(|step| !watchers.is_kept(step.step));
}

/// Removes all steps on which a peer has a deletion lock, if `locks`: otherwise the list contains no such step.
fn drop_kept_if<A: Allocator + Copy>(due: &mut Due<A>, watchers: &Watchers<A>, locks: bool)
    requires once { Distinct (steps_of due.old.steps) }
    requires unlocked { locks ≡ false → (u : List ℕ) → is_locked_by_any (cells_of watchers.now u) ≡ true → waits u due.old.steps ≡ None }
    ensures waits { (u : List ℕ) → waits u due.new.steps ≡ unless_kept (is_locked_by_any (cells_of watchers.now u)) (waits u due.old.steps) }
    ensures once { Distinct (steps_of due.new.steps) }
    ensures spare { due.old.spare ≤ due.new.spare }
{
    if locks {
        drop_kept(due, watchers);
    }
}

/// Adds many steps that are not in the list. There is room for them.
fn add_freed<A: Allocator + Copy>(due: &mut Due<A>, freed: &[Final])
    requires once { Distinct (steps_of due.old.steps) }
    requires freed { Distinct (steps_of freed.now) }
    requires apart { (u : List ℕ) → is_some (waits u freed.now) ≡ true → waits u due.old.steps ≡ None }
    requires room { length freed.now ≤ due.old.spare }
    ensures waits { (u : List ℕ) → waits u due.new.steps ≡ option_or (waits u due.old.steps) (waits u freed.now) }
    ensures once { Distinct (steps_of due.new.steps) }
{
    due.merge(freed);
}

/// Returns whether a subscription has a deletion lock (PS3.4 CC.2.3).
fn is_lock(subscription: Option<Subscription>) -> bool
    ensures { result ≡ is_locked subscription }
{
    match subscription {
        Some(Subscription::Locked) => true,
        _ => false,
    }
}

/// Updates the list after a peer's subscription to many steps became `subscription`: removes the steps that are kept
/// now, and adds those freed by it. There is room for them.
pub(crate) fn settle_many<A: Allocator + Copy>(
    due: &mut Due<A>,
    watchers: &Watchers<A>,
    subscription: Option<Subscription>,
    freed: &[Final],
)
    requires once { Distinct (steps_of due.old.steps) }
    requires freed { Distinct (steps_of freed.now) }
    requires apart { (u : List ℕ) → is_some (waits u freed.now) ≡ true → waits u due.old.steps ≡ None }
    requires unlocked { is_locked subscription ≡ false → (u : List ℕ) → is_locked_by_any (cells_of watchers.now u) ≡ true → waits u due.old.steps ≡ None }
    requires room { length freed.now ≤ due.old.spare }
    ensures waits { (u : List ℕ) → waits u due.new.steps ≡ option_or (unless_kept (is_locked_by_any (cells_of watchers.now u)) (waits u due.old.steps)) (waits u freed.now) }
    ensures once { Distinct (steps_of due.new.steps) }
{
    drop_kept_if(due, watchers, is_lock(subscription));
    add_freed(due, freed);
}

/// Removes these steps from the table of subscriptions, with all subscriptions to them.
pub(crate) fn forget<A: Allocator + Copy>(watchers: &mut Watchers<A>, steps: &[Final])
    ensures watching { (p : ℕ) → (u : List ℕ) → watching watchers.new p u ≡ (if is_among u (steps_of steps.now) then None else watching watchers.old p u) }
    ensures known { (u : List ℕ) → knows watchers.new u ≡ (not (is_among u (steps_of steps.now)) && knows watchers.old u) }
    ensures covers { watchers.new.covers ≡ watchers.old.covers }
{
    for step in steps {
        watchers.removed(step.step);
    }
}
