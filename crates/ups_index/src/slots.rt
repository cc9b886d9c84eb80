//! The lookup of steps by posts, which lead to the places of their slots.

ghost use Rattle.std.specs.Prelude.{◌≡◌, ◌≤◌, ◌<◌, ◌+◌, ◌++◌, ℕ, List, Some, true, false, length, map, max, take, Contains, IfOk, OnOk, MatchOption};
ghost use Rattle.std.specs.Option.{option_to_list};
ghost use Rattle.std.specs.Bool.{MatchBool};
ghost use Rattle.std.specs.List.{filter_map};
ghost use Rattle.std.specs.List.Sorted.{IsNonDecreasing};
ghost use Rattle.ups_dataset.specs.declared.tag.Tag.{Tag};
ghost use Rattle.ups_match.specs.Class.{first_view};
ghost use Rattle.ups_index.specs.Kept.{text_view, in_class, HasNoneIn, IsSlot, StepsPosted};
ghost use Rattle.ups_index.specs.Numbers.{text_number, step_number, moment_number};
ghost use Rattle.ups_index.specs.Posts.{post, KeepsEach, KeepsOthers};
ghost use Rattle.ups_index.specs.Slots.{seen_step};
ghost use Rattle.ups_index.specs.Stored.{RowValues, has_first};

use crate::numbers::{moment_number, step_number, text_number};
use crate::posts::{Post, Posts};
use crate::slot_table::{IndexedStep, SlotTable};
use crate::values::StoredText;
use std::alloc::{AllocError, Allocator};
use std::collections::btree_set;
use ups_life::StepUid;
use ups_match::First;

/// The number of places for which room is taken at once: most lookups find few steps, but how many is not known in
/// advance.
const USUAL_PLACES: usize = 16;

/// Returns whether the slot at a place has a step.
fn is_slot_of<A: Allocator + Copy>(slots: &SlotTable<A>, place: u32, step: StepUid) -> bool
    ensures { MatchBool result ((values : RowValues) × IsSlot slots.now.slots place step values) ((values : RowValues) → IsSlot slots.now.slots place step values → ⊥) }
{
    match slots.get(place) {
        Some(indexed) => indexed.step == step,
        None => false,
    }
}

/// Returns the place of a step, if one of the posts leads to it.
fn place_among<A: Allocator + Copy>(
    posts: &[Post],
    slots: &SlotTable<A>,
    step: StepUid,
) -> Option<u32>
    ensures { MatchOption result ((number place : ℕ) → (values : RowValues) → IsSlot slots.now.slots place step values → Contains posts.now (post number place) → ⊥) (λ place. (values : RowValues) × IsSlot slots.now.slots place step values) }
{
    for post in posts {
        if is_slot_of(slots, post.place, step) {
            return Some(post.place);
        }
    }
    None
}

/// Returns the place of a step, if one of a run of posts leads to it.
fn place_in<A: Allocator + Copy>(
    run: btree_set::Range<'_, Post>,
    slots: &SlotTable<A>,
    step: StepUid,
) -> Option<u32>
    ensures { MatchOption result ((number place : ℕ) → (values : RowValues) → IsSlot slots.now.slots place step values → Contains run.entry (post number place) → ⊥) (λ place. (values : RowValues) × IsSlot slots.now.slots place step values) }
{
    for post in run {
        if is_slot_of(slots, post.place, step) {
            return Some(post.place);
        }
    }
    None
}

/// Returns the place of a step, if it is in the index.
pub(crate) fn place_of<A: Allocator + Copy>(
    steps: &Posts<A>,
    slots: &SlotTable<A>,
    step: StepUid,
) -> Option<u32>
    requires { StepsPosted slots.now.slots steps.now.posts }
    ensures { MatchOption result ((place : ℕ) → (values : RowValues) → IsSlot slots.now.slots place step values → ⊥) (λ place. (values : RowValues) × IsSlot slots.now.slots place step values) }
{
    let number = step_number(step.as_bytes());
    let (run, waiting) = steps.runs(number, number);
    match place_in(run, slots, step) {
        Some(place) => Some(place),
        None => place_among(waiting, slots, step),
    }
}

/// Adds the posts of texts at a place.
pub(crate) fn put_texts<A: Allocator + Copy>(
    table: &mut Posts<A>,
    texts: &[StoredText<A>],
    place: u32,
)
    requires { length texts.now ≤ table.old.room }
    ensures has { (stored : Tag × List ℕ) → Contains (map text_view texts.now) stored → Contains table.new.posts (post (text_number stored.0 stored.1) place) }
    ensures keeps { KeepsEach table.old.posts table.new.posts }
    ensures room { table.old.room ≤ table.new.room + length texts.now }
{
    for stored in texts {
        table.put(text_number(stored.tag, stored.text.as_slice()), place);
    }
}

/// Removes the posts of texts at a place, and all others of the place that wait. Those that wait are gone through once,
/// not once a text.
pub(crate) fn take_texts<A: Allocator + Copy>(
    table: &mut Posts<A>,
    texts: &[StoredText<A>],
    place: u32,
)
    ensures keeps { KeepsOthers place table.old.posts table.new.posts }
    ensures room { table.old.room ≤ table.new.room }
{
    table.take_waiting(place);
    for stored in texts {
        table.take_settled(text_number(stored.tag, stored.text.as_slice()), place);
    }
}

/// Adds the post of a start at a place.
pub(crate) fn put_start<A: Allocator + Copy>(table: &mut Posts<A>, start: Option<i64>, place: u32)
    requires { 0 < table.old.room }
    ensures has { MatchOption start (Unit {0}) (λ moment. Contains table.new.posts (post (moment_number moment) place)) }
    ensures keeps { KeepsEach table.old.posts table.new.posts }
    ensures room { table.old.room ≤ table.new.room + 1 }
{
    match start {
        Some(moment) => table.put(moment_number(moment), place),
        None => {}
    }
}

/// Removes the post of a start at a place.
pub(crate) fn take_start<A: Allocator + Copy>(table: &mut Posts<A>, start: Option<i64>, place: u32)
    ensures keeps { KeepsOthers place table.old.posts table.new.posts }
    ensures room { table.old.room ≤ table.new.room }
{
    match start {
        Some(moment) => table.take(moment_number(moment), place),
        None => {}
    }
}

/// Adds the place of a post, if its number is from `low` to `high`.
///
/// Errors: if memory runs out.
fn add_place<A: Allocator + Copy>(
    places: &mut Vec<u32, A>,
    post: Post,
    low: u64,
    high: u64,
) -> Result<(), AllocError>
    ensures has { OnOk result (low ≤ post.number → post.number ≤ high → Contains places.new.items post.place) }
    ensures keeps { OnOk result ((place : ℕ) → Contains places.old.items place → Contains places.new.items place) }
{
    if post.number < low || high < post.number {
        return Ok(());
    }
    places.push(post.place)?;
    Ok(())
}

/// Adds the places of those posts whose numbers are from `low` to `high`.
///
/// Errors: if memory runs out.
fn add_places<A: Allocator + Copy>(
    places: &mut Vec<u32, A>,
    posts: &[Post],
    low: u64,
    high: u64,
) -> Result<(), AllocError>
    ensures has { OnOk result ((number place : ℕ) → Contains posts.now (post number place) → low ≤ number → number ≤ high → Contains places.new.items place) }
    ensures keeps { OnOk result ((place : ℕ) → Contains places.old.items place → Contains places.new.items place) }
{
    for post in posts {
        add_place(places, *post, low, high)?;
    }
    Ok(())
}

/// Adds the places of a run of posts.
///
/// Errors: if memory runs out.
fn add_run<A: Allocator + Copy>(
    places: &mut Vec<u32, A>,
    run: btree_set::Range<'_, Post>,
) -> Result<(), AllocError>
    ensures has { OnOk result ((number place : ℕ) → Contains run.entry (post number place) → Contains places.new.items place) }
    ensures keeps { OnOk result ((place : ℕ) → Contains places.old.items place → Contains places.new.items place) }
{
    for post in run {
        places.push(post.place)?;
    }
    Ok(())
}

/// Returns, in order, the places of the numbers from `low` to `high`.
///
/// Errors: if memory runs out.
fn places_of<A: Allocator + Copy>(
    alloc: A,
    table: &Posts<A>,
    low: u64,
    high: u64,
) -> Result<Vec<u32, A>, AllocError>
    ensures sorted { IfOk result (λ places. IsNonDecreasing places.items) }
    ensures has { IfOk result (λ places. (number place : ℕ) → Contains table.now.posts (post number place) → low ≤ number → number ≤ high → Contains places.items place) }
{
    if high < low {
        return Ok(Vec::new(alloc));
    }
    let (run, waiting) = table.runs(low, high);
    let mut places = Vec::with_capacity(alloc, USUAL_PLACES)?;
    add_run(&mut places, run)?;
    add_places(&mut places, waiting, low, high)?;
    places.sort_unstable();
    Ok(places)
}

/// Adds a step, if it has the first indexed key.
///
/// Errors: if memory runs out.
fn add_step<A: Allocator + Copy>(
    steps: &mut Vec<StepUid, A>,
    indexed: &IndexedStep<A>,
    first: &First<'_>,
) -> Result<(), AllocError>
    ensures { OnOk result (steps.new.items ≡ steps.old.items ++ option_to_list (in_class (first_view first.now) (Some (seen_step indexed.now)))) }
{
    if indexed.values.has(first) {
        steps.push(indexed.step)?;
    }
    Ok(())
}

/// Adds the step at a place, if it has the first indexed key and is not passed yet, and returns the place from which on
/// none is passed.
///
/// Errors: if memory runs out.
fn visit<A: Allocator + Copy>(
    steps: &mut Vec<StepUid, A>,
    slots: &SlotTable<A>,
    next: usize,
    place: u32,
    first: &First<'_>,
) -> Result<usize, AllocError>
    requires found { steps.old.items ≡ filter_map (in_class (first_view first.now)) (take next slots.now.slots) }
    requires none { HasNoneIn (first_view first.now) slots.now.slots next place }
    ensures found { IfOk result (λ next. steps.new.items ≡ filter_map (in_class (first_view first.now)) (take next slots.now.slots)) }
    ensures next { IfOk result (λ passed. passed ≡ max next (place + 1)) }
{
    let passed = place as usize + 1;
    if passed <= next {
        return Ok(next);
    }
    match slots.get(place) {
        Some(indexed) => {
            add_step(steps, indexed, first)?;
            Ok(passed)
        }
        None => Ok(passed),
    }
}

/// Returns the steps that have the first indexed key, each of which is at one of the places.
///
/// Errors: if memory runs out.
fn steps_at<A: Allocator + Copy>(
    alloc: A,
    slots: &SlotTable<A>,
    places: &[u32],
    first: &First<'_>,
) -> Result<Vec<StepUid, A>, AllocError>
    requires sorted { IsNonDecreasing places.now }
    requires has { (place : ℕ) → (step : List ℕ) → (values : RowValues) → IsSlot slots.now.slots place step values → has_first (first_view first.now) values ≡ true → Contains places.now place }
    ensures { IfOk result (λ steps. steps.items ≡ filter_map (in_class (first_view first.now)) slots.now.slots) }
{
    let mut steps = Vec::with_capacity(alloc, places.len())?;
    let mut next = 0;
    for place in places {
        next = visit(&mut steps, slots, next, *place, first)?;
    }
    Ok(steps)
}

/// Returns the steps that have the first indexed key, which is looked up by the numbers from `low` to `high`.
///
/// Errors: if memory runs out.
pub(crate) fn look_up<A: Allocator + Copy>(
    alloc: A,
    slots: &SlotTable<A>,
    table: &Posts<A>,
    low: u64,
    high: u64,
    first: &First<'_>,
) -> Result<Vec<StepUid, A>, AllocError>
    requires { (place : ℕ) → (step : List ℕ) → (values : RowValues) → IsSlot slots.now.slots place step values → has_first (first_view first.now) values ≡ true → (number : ℕ) × (low ≤ number) × (number ≤ high) × Contains table.now.posts (post number place) }
    ensures { IfOk result (λ steps. steps.items ≡ filter_map (in_class (first_view first.now)) slots.now.slots) }
{
    let places = places_of(alloc, table, low, high)?;
    steps_at(alloc, slots, &places, first)
}
