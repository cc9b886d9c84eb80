//! The rows of the held steps in parts, each for so many places. A part is made when it is asked for, and forgotten when
//! one of its places changes.

ghost use Rattle.std.specs.Prelude.{◌≡◌, ◌≤◌, ◌<◌, ◌*◌, ◌+◌, List, ℕ, Option, length, drop, take, IfOk, OnOk};
ghost use Rattle.std.specs.Str.{bytes_eq};
ghost use Rattle.indexmap.specs.IndexMap.{insert_entry};
ghost use Rattle.ups_rows.specs.Answering.{rows_of_parts};
ghost use Rattle.ups_steps.specs.declared.held.HeldRow.{HeldRow as HeldOf};
ghost use Rattle.ups_steps.specs.Held.{attributes_held};
ghost use Rattle.ups_steps.specs.Places.{held_in};
ghost use Rattle.ups_steps.specs.Parts.{PartsCover};

use crate::iter::Iter;
use crate::places::Places;
use std::alloc::{AllocError, Allocator};
use ups_life::StepUid;
use ups_rows::SharedPart;

/// The number of places of a part. One more owner of a row is an addition in memory that is in no cache, 140 ns; with
/// parts, a query without an indexed key waits for one of 64 rows. To make a part anew after a change costs 64 of them,
/// 8 microseconds.
const PART: usize = 64;

/// The most parts that `make_parts` makes in a call: a third of a millisecond for rows in no cache.
const MOST_MADE: usize = 8;

/// The parts, the first for the first places; None for one that was not made since a place of it has changed.
pub(crate) type Parts<A> = Vec<Option<SharedPart<A>>, A>;

/// Forgets the part of a step's place, which is the only place that has changed since the parts were right.
pub(crate) fn forget<A: Allocator + Copy>(parts: &mut Parts<A>, places: &Places<A>, step: &StepUid)
    ensures { (before : List (List ℕ × Option (HeldOf A))) → (place : Option (HeldOf A)) → places.now.entries ≡ insert_entry bytes_eq before step.now place → PartsCover parts.old.items before → PartsCover parts.new.items places.now.entries }
{
    if let Some(index) = places.get_index_of(step) {
        let k = index / PART;
        if k < parts.len() {
            parts[k] = None;
        }
    }
}

/// Returns the rows of the steps that hold the places from `start` on, as many places as a part has.
///
/// Errors: if memory runs out.
fn part_of<A: Allocator + Copy>(
    places: &Places<A>,
    start: usize,
    alloc: A,
) -> Result<SharedPart<A>, AllocError>
    requires { start ≤ length places.now.entries }
    ensures { IfOk result (λ part. part ≡ attributes_held (held_in (take 64 (drop start places.now.entries)))) }
{
    let end = places.len().min(start + PART);
    let mut rows = Vec::new(alloc);
    for (_, held) in Iter::between(places, start, end) {
        rows.push(held.row.share()?)?;
    }
    let part = SharedPart::new(alloc, rows)?;
    Ok(part)
}

/// Keeps part `k`. Those before it were kept before.
///
/// Errors: if memory runs out. The parts stay the same then.
fn keep_part<A: Allocator + Copy>(
    parts: &mut Parts<A>,
    k: usize,
    part: SharedPart<A>,
) -> Result<(), AllocError>
    requires { k ≤ length parts.old.items }
    ensures covers { (places : List (List ℕ × Option (HeldOf A))) → part ≡ attributes_held (held_in (take 64 (drop (64 * k) places))) → PartsCover parts.old.items places → PartsCover parts.new.items places }
    ensures more { OnOk result (k < length parts.new.items) }
{
    if k < parts.len() {
        parts[k] = Some(part);
        return Ok(());
    }
    parts.push(Some(part))?;
    Ok(())
}

/// Returns part `k`, which is made if it is not there.
///
/// Errors: if memory runs out.
fn share_part<A: Allocator + Copy>(
    parts: &mut Parts<A>,
    places: &Places<A>,
    k: usize,
    alloc: A,
) -> Result<SharedPart<A>, AllocError>
    requires next { k ≤ length parts.old.items }
    requires within { 64 * k ≤ length places.now.entries }
    requires covers { PartsCover parts.old.items places.now.entries }
    ensures part { IfOk result (λ part. part ≡ attributes_held (held_in (take 64 (drop (64 * k) places.now.entries)))) }
    ensures covers { PartsCover parts.new.items places.now.entries }
    ensures more { OnOk result (k < length parts.new.items) }
{
    if let Some(Some(part)) = parts.get(k) {
        let shared = part.share()?;
        return Ok(shared);
    }
    places.len();
    let part = part_of(places, PART * k, alloc)?;
    let shared = part.share()?;
    keep_part(parts, k, part)?;
    Ok(shared)
}

/// Makes part `k` if it is not there. Returns whether it was not.
///
/// Errors: if memory runs out.
fn make_part<A: Allocator + Copy>(
    parts: &mut Parts<A>,
    places: &Places<A>,
    k: usize,
    alloc: A,
) -> Result<bool, AllocError>
    requires next { k ≤ length parts.old.items }
    requires within { 64 * k ≤ length places.now.entries }
    requires covers { PartsCover parts.old.items places.now.entries }
    ensures covers { PartsCover parts.new.items places.now.entries }
    ensures more { OnOk result (k < length parts.new.items) }
{
    if k < parts.len() && parts[k].is_some() {
        return Ok(false);
    }
    share_part(parts, places, k, alloc)?;
    Ok(true)
}

/// Makes the first `MOST_MADE` of the parts that are not there. Returns whether there may be more of them.
///
/// Errors: if memory runs out.
pub(crate) fn make_parts<A: Allocator + Copy>(
    parts: &mut Parts<A>,
    places: &Places<A>,
    alloc: A,
) -> Result<bool, AllocError>
    requires { PartsCover parts.old.items places.now.entries }
    ensures { PartsCover parts.new.items places.now.entries }
{
    let mut left = MOST_MADE;
    for k in 0..places.len().div_ceil(PART) {
        if left == 0 {
            return Ok(true);
        }
        if make_part(parts, places, k, alloc)? {
            left -= 1;
        }
    }
    Ok(false)
}

/// Returns all parts, of which it makes those that are not there.
///
/// Errors: if memory runs out.
pub(crate) fn share_parts<A: Allocator + Copy>(
    parts: &mut Parts<A>,
    places: &Places<A>,
    alloc: A,
) -> Result<Vec<SharedPart<A>, A>, AllocError>
    requires { PartsCover parts.old.items places.now.entries }
    ensures rows { IfOk result (λ shared. rows_of_parts shared.items ≡ attributes_held (held_in places.now.entries)) }
    ensures covers { PartsCover parts.new.items places.now.entries }
{
    let mut shared = Vec::new(alloc);
    for k in 0..places.len().div_ceil(PART) {
        shared.push(share_part(parts, places, k, alloc)?)?;
    }
    Ok(shared)
}
