//! The slots of a queue, and the index of its State Reports.

ghost use Rattle.std.specs.Prelude.{◌≡◌, ◌≢◌, ◌<◌, ◌≤◌, ◌+◌, ◌-◌, ◌^◌, ◌&&◌, ◌++◌, ◌∷◌, [], ◌⊎◌, ℕ, List, true, false, map, filter, take, length, Some, IfOk, OnOk, None, MatchOption, slice_index_or, if◌then◌else◌};
ghost use Rattle.std.specs.HashMap.{get, spare};
ghost use Rattle.std.specs.List.{AllByRecursion};
ghost use Rattle.std.specs.Str.{bytes_eq};
ghost use Rattle.std.specs.VecDeque.{deque_len, deque_capacity};
ghost use Rattle.ups_life.specs.Events.{is_state_report, is_report_of};
ghost use Rattle.ups_events.specs.Kept.{lives, is_live, spent, made_way, goes, dropped, Rises, InOrder, Indexed, KeepsQueue};

use std::alloc::{AllocError, Allocator};
use std::collections::{HashMap, VecDeque};
use std::hash::{BuildHasherDefault, FoldHasher};
use ups_life::{Event, EventKind, StepUid};

/// The number of spent slots that are left in place beside a quarter of all slots: few are not worth a walk over the others.
const SPENT_LEFT: usize = 32;

/// The number of the live State Report of each step that has one.
pub(crate) type ReportNumbers<A> = HashMap<StepUid, u64, BuildHasherDefault<FoldHasher>, A>;

/// An event of a queue. It is live until it is spent: acknowledged, or superseded by a later State Report of its step.
#[derive(Clone, Copy)]
pub(crate) struct EventSlot {
    pub(crate) event: Event,
    pub(crate) live: bool,
}

/// Returns whether a report is a State Report (PS3.4 CC.2.4).
fn is_state_report(kind: EventKind) -> bool
    ensures { result ≡ is_state_report kind }
{
    match kind {
        EventKind::StateReport => true,
        EventKind::CancelRequested | EventKind::ProgressReport | EventKind::Assigned => false,
    }
}

/// Returns whether an event is a State Report of this step (PS3.4 CC.2.4).
fn is_report_of(step: StepUid, event: &Event) -> bool
    ensures { result ≡ is_report_of step event.now }
{
    event.step.as_bytes() == step.as_bytes() && is_state_report(event.kind)
}

/// Marks the State Report of a step, whose number is known, as spent if it is still there. Returns whether it was live.
fn spend<A: Allocator + Copy>(
    slots: &mut VecDeque<EventSlot, A>,
    number: u64,
    step: StepUid,
) -> bool
    requires rises { Rises slots.old.items }
    requires alone { (i : ℕ) → (d : EventSlot) → i < length slots.old.items → (slice_index_or slots.old.items i d).live ≡ true → is_report_of step (slice_index_or slots.old.items i d).event ≡ true → (slice_index_or slots.old.items i d).event.number ≡ number }
    ensures slots { slots.new.items ≡ map (spent step) slots.old.items }
    ensures count { (if result then 1 else 0) + length (lives slots.new.items) ≡ length (lives slots.old.items) }
    ensures len { deque_len slots.new ≡ deque_len slots.old }
    ensures capacity { deque_capacity slots.new ≡ deque_capacity slots.old }
{
    let place = slots.partition_point(|slot| slot.event.number < number);
    if let Some(slot) = slots.get_mut(place) {
        if is_report_of(step, &slot.event) {
            let was_live = slot.live;
            slot.live = false;
            return was_live;
        }
    }
    false
}

/// Sets the number of a step's new State Report, and marks the previous one as spent. Returns whether one was live.
fn supersede<A: Allocator + Copy>(
    slots: &mut VecDeque<EventSlot, A>,
    index: &mut ReportNumbers<A>,
    step: StepUid,
    number: u64,
) -> bool
    requires rises { Rises slots.old.items }
    requires indexed { Indexed index.old.entries slots.old.items }
    requires room { 0 < spare index.old }
    ensures slots { slots.new.items ≡ map (spent step) slots.old.items }
    ensures count { (if result then 1 else 0) + length (lives slots.new.items) ≡ length (lives slots.old.items) }
    ensures len { deque_len slots.new ≡ deque_len slots.old }
    ensures capacity { deque_capacity slots.new ≡ deque_capacity slots.old }
    ensures index { (u : List ℕ) → get bytes_eq index.new u ≡ (if bytes_eq step u then Some number else get bytes_eq index.old u) }
    ensures spare { spare index.old ≤ spare index.new + 1 }
{
    let Ok(earlier) = index.insert(step, number) else {
        unreachable!();
    };
    match earlier {
        Some(earlier) => spend(slots, earlier, step),
        None => false,
    }
}

/// Makes way for an event of this kind and number: a State Report supersedes the previous one of its step. Returns
/// whether one was live.
pub(crate) fn make_way<A: Allocator + Copy>(
    slots: &mut VecDeque<EventSlot, A>,
    index: &mut ReportNumbers<A>,
    kind: EventKind,
    step: StepUid,
    number: u64,
) -> bool
    requires rises { Rises slots.old.items }
    requires indexed { Indexed index.old.entries slots.old.items }
    requires room { 0 < spare index.old }
    ensures slots { slots.new.items ≡ made_way kind step slots.old.items }
    ensures count { (if result then 1 else 0) + length (lives slots.new.items) ≡ length (lives slots.old.items) }
    ensures len { deque_len slots.new ≡ deque_len slots.old }
    ensures capacity { deque_capacity slots.new ≡ deque_capacity slots.old }
    ensures index { (u : List ℕ) → get bytes_eq index.new u ≡ (if is_state_report kind && bytes_eq step u then Some number else get bytes_eq index.old u) }
    ensures spare { spare index.old ≤ spare index.new + 1 }
{
    if is_state_report(kind) {
        supersede(slots, index, step, number)
    } else {
        false
    }
}

/// Returns whether the slots are known to be in order when an event of an entry is added, from whether they were before.
pub(crate) fn keeps_order<A: Allocator + Copy>(
    slots: &VecDeque<EventSlot, A>,
    in_order: bool,
    entry: u64,
) -> bool
    requires { in_order ≡ true → InOrder slots.now.items }
    ensures { result ≡ true → (s : EventSlot) → s.event.entry ≡ entry → InOrder (slots.now.items ++ s ∷ []) }
{
    match slots.back() {
        Some(last) => in_order && last.event.entry <= entry,
        None => true,
    }
}

/// Returns whether a slot at the front can go: it is spent, or its event is acknowledged.
fn goes(slot: &EventSlot, upto: u64) -> bool
    ensures { result ≡ goes upto slot.now }
{
    !slot.live || slot.event.number <= upto
}

/// Returns the slot at the front, if it can go.
fn going<A: Allocator + Copy>(slots: &VecDeque<EventSlot, A>, upto: u64) -> Option<EventSlot>
    ensures { MatchOption result (dropped upto slots.now.items ≡ slots.now.items) (λ s. (goes upto s ≡ true) × ((rest : List EventSlot) × (slots.now.items ≡ s ∷ rest))) }
{
    match slots.front() {
        Some(slot) if goes(slot, upto) => Some(*slot),
        _ => None,
    }
}

/// Removes from the index the State Report of a slot that is dropped. A spent one is no longer there: the index has the
/// number of the one that superseded it.
fn forget<A: Allocator + Copy>(index: &mut ReportNumbers<A>, slot: &EventSlot)
    ensures index { (u : List ℕ) → get bytes_eq index.new u ≡ (if slot.now.live && is_report_of u slot.now.event then None else get bytes_eq index.old u) }
    ensures spare { spare index.old ≤ spare index.new }
{
    if slot.live && is_state_report(slot.event.kind) {
        index.remove(&slot.event.step);
    }
}

/// Returns a count, and one more if a slot is live.
fn one_more_if_live(count: usize, slot: &EventSlot) -> usize
    requires { count < 2 ^ 64 - 1 }
    ensures { result ≡ (if slot.now.live then 1 else 0) + count }
{
    if slot.live { count + 1 } else { count }
}

/// Drops the slots at the front that can go: the spent ones, and those of the events up to a number. Returns how many of
/// them were live.
pub(crate) fn drop_front<A: Allocator + Copy>(
    slots: &mut VecDeque<EventSlot, A>,
    index: &mut ReportNumbers<A>,
    upto: u64,
) -> usize
    ensures slots { slots.new.items ≡ dropped upto slots.old.items }
    ensures count { result + length (lives slots.new.items) ≡ length (lives slots.old.items) }
    ensures keeps { (made : ℕ) → (acked : ℕ) → KeepsQueue made acked index.old.entries slots.old.items → KeepsQueue made acked index.new.entries slots.new.items }
    ensures len { deque_len slots.new ≤ deque_len slots.old }
    ensures capacity { deque_capacity slots.new ≡ deque_capacity slots.old }
    ensures spare { spare index.old ≤ spare index.new }
{
    let mut count = 0;
    while let Some(slot) = going(slots, upto) {
        slots.pop_front();
        forget(index, &slot);
        count = one_more_if_live(count, &slot);
    }
    count
}

/// Drops the spent slots.
fn compact<A: Allocator + Copy>(slots: &mut VecDeque<EventSlot, A>)
    ensures slots { slots.new.items ≡ filter is_live slots.old.items }
    ensures len { deque_len slots.new ≤ deque_len slots.old }
    ensures capacity { deque_capacity slots.new ≡ deque_capacity slots.old }
{
    slots.retain(|slot| slot.live);
}

/// Returns the number of live events behind an event that was added, from the number before it.
pub(crate) fn live_with(live: usize, superseded: bool) -> usize
    requires few { live < 2 ^ 64 - 1 }
    requires had { (if superseded then 1 else 0) ≤ live }
    ensures { (if superseded then 1 else 0) + result ≡ live + 1 }
{
    if superseded { live } else { live + 1 }
}

/// Drops the spent slots if there are more of them than `SPENT_LEFT` and a quarter of all slots. The others are live.
pub(crate) fn tidy<A: Allocator + Copy>(slots: &mut VecDeque<EventSlot, A>, live: usize)
    ensures slots { (slots.new.items ≡ slots.old.items) ⊎ (slots.new.items ≡ filter is_live slots.old.items) }
    ensures len { deque_len slots.new ≤ deque_len slots.old }
    ensures capacity { deque_capacity slots.new ≡ deque_capacity slots.old }
{
    let spent = slots.len().saturating_sub(live);
    if spent >= SPENT_LEFT && spent - SPENT_LEFT >= slots.len() / 4 {
        compact(slots);
    }
}

/// Adds the event of a slot, unless it is spent.
///
/// Errors: if memory runs out.
fn add_live<A: Allocator + Copy>(
    found: &mut Vec<Event, A>,
    slot: &EventSlot,
) -> Result<(), AllocError>
    ensures { OnOk result (found.new.items ≡ found.old.items ++ lives (slot.now ∷ [])) }
{
    if slot.live {
        found.push(slot.event)?;
    }
    Ok(())
}

/// Returns the first `max` live events, oldest first. It looks no further than the slot of the last of these.
///
/// Errors: if memory runs out.
pub(crate) fn first_live<A: Allocator + Copy>(
    alloc: A,
    slots: &VecDeque<EventSlot, A>,
    max: u64,
) -> Result<Vec<Event, A>, AllocError>
    ensures { IfOk result (λ v. v.items ≡ take max (lives slots.now.items)) }
{
    let mut found = Vec::new(alloc);
    for place in 0..slots.len() {
        if found.len() as u64 >= max {
            return Ok(found);
        }
        add_live(&mut found, &slots[place])?;
    }
    Ok(found)
}

/// Returns whether one of the slots, which are in order, is of an entry.
pub(crate) fn is_among<A: Allocator + Copy>(slots: &VecDeque<EventSlot, A>, entry: u64) -> bool
    requires { InOrder slots.now.items }
    ensures { result ≡ false → AllByRecursion (λ (x : Event). x.entry ≢ entry) (lives slots.now.items) }
{
    let place = slots.partition_point(|slot| slot.event.entry < entry);
    match slots.get(place) {
        Some(slot) => slot.event.entry == entry,
        None => false,
    }
}
