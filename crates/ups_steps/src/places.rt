//! The places of steps, in order of creation. The place of a removed step stays, and is free.

ghost use Rattle.std.specs.Prelude.{◌≡◌, ◌≤◌, ◌<◌, ◌+◌, ◌^◌, ◌++◌, ◌∷◌, [], not, None, is_some, true, false, filter, length, if◌then◌else◌};
ghost use Rattle.std.specs.Map.{lookup, remove_entry};
ghost use Rattle.std.specs.Option.{option_copied};
ghost use Rattle.std.specs.Str.{bytes_eq};
ghost use Rattle.indexmap.specs.IndexMap.{insert_entry, spare};
ghost use Rattle.ups_life.specs.Watching.{is_among};
ghost use Rattle.ups_keep.specs.Waits.{steps_of};
ghost use Rattle.ups_steps.specs.Held.{held_at, put_held};
ghost use Rattle.ups_steps.specs.Parts.{PartsCover};
ghost use Rattle.ups_steps.specs.Places.{held_in};

use crate::held::HeldRow;
use crate::parts::{Parts, forget};
use indexmap::IndexMap;
use std::alloc::Allocator;
use std::hash::{BuildHasherDefault, FoldHasher};
use ups_keep::Final;
use ups_life::StepUid;

/// The places, keyed by the UID of the step that was put there; None if the place is free.
pub(crate) type Places<A> = IndexMap<
    StepUid,
    Option<HeldRow<A>>,
    BuildHasherDefault<FoldHasher>,
    A,
>;

/// Returns the row and the holder of a step, or None if it is not held.
pub(crate) fn find<'a, A: Allocator + Copy>(
    places: &'a Places<A>,
    step: &StepUid,
) -> Option<&'a HeldRow<A>>
    ensures { option_copied result ≡ held_at step.now (held_in places.now.entries) }
{
    places.len();
    match places.get(step) {
        Some(place) => place.as_ref(),
        None => None,
    }
}

/// Removes the place of a step. All parts are forgotten then: those behind it begin one place earlier.
fn remove_place<A: Allocator + Copy>(places: &mut Places<A>, parts: &mut Parts<A>, step: &StepUid)
    ensures entries { places.new.entries ≡ remove_entry (bytes_eq step.now) places.old.entries }
    ensures gone { lookup (bytes_eq step.now) places.new.entries ≡ None }
    ensures spare { spare places.old ≤ spare places.new }
    ensures covers { PartsCover parts.old.items places.old.entries → PartsCover parts.new.items places.new.entries }
    ensures len { length places.new.entries ≤ length places.old.entries }
{
    if places.shift_remove(step).is_some() {
        parts.clear();
    }
}

/// Appends a step that is not held. There is room for it. The part of its place is forgotten.
pub(crate) fn add<A: Allocator + Copy>(
    places: &mut Places<A>,
    parts: &mut Parts<A>,
    step: StepUid,
    held: HeldRow<A>,
)
    requires fresh { held_at step (held_in places.old.entries) ≡ None }
    requires room { 0 < spare places.old }
    ensures steps { held_in places.new.entries ≡ held_in places.old.entries ++ (step, held) ∷ [] }
    ensures spare { spare places.old ≤ spare places.new + 1 }
    ensures len { length places.new.entries ≤ length places.old.entries + 1 }
    ensures small { length places.new.entries < 2 ^ 63 }
    ensures covers { PartsCover parts.old.items places.old.entries → PartsCover parts.new.items places.new.entries }
{
    // A free place under its UID would come before those of older steps. No UID is used again, so there is none.
    remove_place(places, parts, &step);
    let Ok(_) = places.insert(step, Some(held)) else {
        unreachable!();
    };
    forget(parts, places, &step);
    places.len();
}

/// Replaces the row and the holder of a step. The part of its place is forgotten.
pub(crate) fn replace<A: Allocator + Copy>(
    places: &mut Places<A>,
    parts: &mut Parts<A>,
    step: StepUid,
    held: HeldRow<A>,
)
    requires { is_some (held_at step (held_in places.old.entries)) ≡ true }
    ensures steps { held_in places.new.entries ≡ put_held step held (held_in places.old.entries) }
    ensures spare { spare places.new ≡ spare places.old }
    ensures len { length places.new.entries ≡ length places.old.entries }
    ensures covers { PartsCover parts.old.items places.old.entries → PartsCover parts.new.items places.new.entries }
{
    places.len();
    let Some(place) = places.get_mut(&step) else {
        unreachable!();
    };
    *place = Some(held);
    forget(parts, places, &step);
}

/// Frees the place of a step, and returns whether the step was held.
fn free<A: Allocator + Copy>(places: &mut Places<A>, step: StepUid) -> bool
    ensures steps { held_in places.new.entries ≡ filter (λ e. not (bytes_eq step e.0)) (held_in places.old.entries) }
    ensures count { length (held_in places.new.entries) + (if result then 1 else 0) ≡ length (held_in places.old.entries) }
    ensures spare { spare places.new ≡ spare places.old }
    ensures len { length places.new.entries ≡ length places.old.entries }
    ensures freed { result ≡ true → places.new.entries ≡ insert_entry bytes_eq places.old.entries step None }
    ensures same { result ≡ false → places.new.entries ≡ places.old.entries }
{
    places.len();
    match places.get_mut(&step) {
        Some(place) => place.take().is_some(),
        None => false,
    }
}

/// Frees the place of a step as `free` does. If the step was held, the part of its place is forgotten.
fn free_part<A: Allocator + Copy>(
    places: &mut Places<A>,
    parts: &mut Parts<A>,
    step: StepUid,
) -> bool
    ensures steps { held_in places.new.entries ≡ filter (λ e. not (bytes_eq step e.0)) (held_in places.old.entries) }
    ensures count { length (held_in places.new.entries) + (if result then 1 else 0) ≡ length (held_in places.old.entries) }
    ensures spare { spare places.new ≡ spare places.old }
    ensures len { length places.new.entries ≡ length places.old.entries }
    ensures covers { PartsCover parts.old.items places.old.entries → PartsCover parts.new.items places.new.entries }
{
    if free(places, step) {
        forget(parts, places, &step);
        true
    } else {
        false
    }
}

/// Frees the places of these steps. `count` places hold a step before; returns the number of those that do afterwards.
pub(crate) fn free_each<A: Allocator + Copy>(
    places: &mut Places<A>,
    parts: &mut Parts<A>,
    steps: &[Final],
    count: usize,
) -> usize
    requires { count ≡ length (held_in places.old.entries) }
    ensures steps { held_in places.new.entries ≡ filter (λ e. not (is_among e.0 (steps_of steps.now))) (held_in places.old.entries) }
    ensures count { result ≡ length (held_in places.new.entries) }
    ensures spare { spare places.new ≡ spare places.old }
    ensures len { length places.new.entries ≡ length places.old.entries }
    ensures covers { PartsCover parts.old.items places.old.entries → PartsCover parts.new.items places.new.entries }
{
    let mut left = count;
    for step in steps {
        if free_part(places, parts, step.step) {
            left -= 1;
        }
    }
    left
}

/// Removes the free places. It walks all places once.
pub(crate) fn close_up<A: Allocator + Copy>(places: &mut Places<A>)
    ensures steps { held_in places.new.entries ≡ held_in places.old.entries }
    ensures spare { spare places.old ≤ spare places.new }
    ensures len { length places.new.entries ≡ length (held_in places.old.entries) }
{
    places.retain(|_, place| place.is_some());
}
