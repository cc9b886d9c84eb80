//! The rows of the known steps. `width` is the number of peers: most functions take it only for their contracts, which
//! state with it that each row has a cell for each peer.

ghost use Rattle.std.specs.Prelude.{◌≡◌, ◌<◌, ◌≤◌, ◌+◌, ◌&&◌, ◌||◌, not, ℕ, List, None, true, length, nat_eq, slice_index_or, if◌then◌else◌, IsOk, OnOk};
ghost use Rattle.std.specs.HashMap.{spare};
ghost use Rattle.std.specs.Vec.{vec_len};
ghost use Rattle.ups_watch.specs.Table.{AreBlank};
ghost use Rattle.std.specs.Option.{option_or};
ghost use Rattle.std.specs.Str.{bytes_eq};
ghost use Rattle.ups_life.specs.Watching.{is_among, is_at};
ghost use Rattle.ups_watch.specs.Rows.{watching_in, knows_in, HasWidth};

use crate::row::WatchRow;
use std::alloc::{AllocError, Allocator};
use std::collections::HashMap;
use std::hash::{BuildHasherDefault, FoldHasher};
use ups_life::{Place, StepUid, Subscription};

/// The row of each known step.
pub(crate) type Rows<A> = HashMap<StepUid, WatchRow<A>, BuildHasherDefault<FoldHasher>, A>;

/// Sets the subscription of a peer to a known step.
pub(crate) fn set_cell<A: Allocator + Copy>(
    rows: &mut Rows<A>,
    width: usize,
    step: StepUid,
    peer: usize,
    subscription: Option<Subscription>,
)
    requires known { knows_in rows.old.entries step ≡ true }
    requires width { HasWidth width rows.old.entries }
    requires within { peer < width }
    ensures watching { (p : ℕ) → (u : List ℕ) → watching_in rows.new.entries p u ≡ (if nat_eq peer p && bytes_eq step u then subscription else watching_in rows.old.entries p u) }
    ensures known { (u : List ℕ) → knows_in rows.new.entries u ≡ knows_in rows.old.entries u }
    ensures width { HasWidth width rows.new.entries }
    ensures spare { spare rows.old ≤ spare rows.new }
{
    if let Some(row) = rows.get_mut(&step) {
        row.set(peer, subscription);
    }
}

/// Ends the subscriptions of a peer to all steps.
fn clear_cells<A: Allocator + Copy>(rows: &mut Rows<A>, width: usize, peer: usize)
    requires width { HasWidth width rows.old.entries }
    requires within { peer < width }
    ensures watching { (p : ℕ) → (u : List ℕ) → watching_in rows.new.entries p u ≡ (if nat_eq peer p then None else watching_in rows.old.entries p u) }
    ensures known { (u : List ℕ) → knows_in rows.new.entries u ≡ knows_in rows.old.entries u }
    ensures width { HasWidth width rows.new.entries }
    ensures spare { spare rows.old ≤ spare rows.new }
{
    rows.retain(|_, row| {
        row.clear(peer);
        true
    });
}

/// Removes the row of a step, if the step is known.
pub(crate) fn take_row<A: Allocator + Copy>(rows: &mut Rows<A>, width: usize, step: StepUid)
    requires width { HasWidth width rows.old.entries }
    ensures watching { (p : ℕ) → (u : List ℕ) → watching_in rows.new.entries p u ≡ (if bytes_eq step u then None else watching_in rows.old.entries p u) }
    ensures known { (u : List ℕ) → knows_in rows.new.entries u ≡ (not (bytes_eq step u) && knows_in rows.old.entries u) }
    ensures width { HasWidth width rows.new.entries }
    ensures spare { spare rows.old ≤ spare rows.new }
{
    rows.remove(&step);
}

/// Adds the row of a step, for which there is room. It replaces the row that the step has, if it is known.
pub(crate) fn put_row<A: Allocator + Copy>(
    rows: &mut Rows<A>,
    width: usize,
    step: StepUid,
    row: WatchRow<A>,
)
    requires width { HasWidth width rows.old.entries }
    requires row { length row ≡ width }
    requires room { 0 < spare rows.old }
    ensures watching { (p : ℕ) → (u : List ℕ) → watching_in rows.new.entries p u ≡ (if bytes_eq step u then slice_index_or row p None else watching_in rows.old.entries p u) }
    ensures known { (u : List ℕ) → knows_in rows.new.entries u ≡ (bytes_eq step u || knows_in rows.old.entries u) }
    ensures width { HasWidth width rows.new.entries }
    ensures spare { spare rows.old ≤ spare rows.new + 1 }
{
    let Ok(_) = rows.insert(step, row) else {
        unreachable!();
    };
}

/// Adds rows without a subscription until there are `count`.
///
/// Errors: if memory runs out, but never if there are that many already.
pub(crate) fn add_blanks<A: Allocator + Copy>(
    alloc: A,
    blanks: &mut Vec<WatchRow<A>, A>,
    width: usize,
    count: usize,
) -> Result<(), AllocError>
    requires blank { AreBlank width blanks.old.items }
    ensures blank { AreBlank width blanks.new.items }
    ensures enough { OnOk result (count ≤ vec_len blanks.new) }
    ensures succeeds { count ≤ vec_len blanks.old → IsOk result }
    ensures more { vec_len blanks.old ≤ vec_len blanks.new }
{
    while blanks.len() < count {
        blanks.push(WatchRow::blank(alloc, width)?)?;
    }
    Ok(())
}

/// Ends the subscription of a peer to one step, if the step is known.
fn end_single<A: Allocator + Copy>(rows: &mut Rows<A>, width: usize, step: StepUid, peer: usize)
    requires width { HasWidth width rows.old.entries }
    requires within { peer < width }
    ensures watching { (p : ℕ) → (u : List ℕ) → watching_in rows.new.entries p u ≡ (if nat_eq peer p && bytes_eq step u then None else watching_in rows.old.entries p u) }
    ensures known { (u : List ℕ) → knows_in rows.new.entries u ≡ knows_in rows.old.entries u }
    ensures width { HasWidth width rows.new.entries }
    ensures spare { spare rows.old ≤ spare rows.new }
{
    if rows.contains_key(&step) {
        set_cell(rows, width, step, peer, None);
    }
}

/// Ends subscriptions of a peer: the one to a single step, or those to all steps.
pub(crate) fn end_at<A: Allocator + Copy>(
    rows: &mut Rows<A>,
    width: usize,
    place: &Place,
    peer: usize,
)
    requires width { HasWidth width rows.old.entries }
    requires within { peer < width }
    ensures watching { (p : ℕ) → (u : List ℕ) → watching_in rows.new.entries p u ≡ (if nat_eq peer p && is_at place.now u then None else watching_in rows.old.entries p u) }
    ensures known { (u : List ℕ) → knows_in rows.new.entries u ≡ knows_in rows.old.entries u }
    ensures width { HasWidth width rows.new.entries }
    ensures spare { spare rows.old ≤ spare rows.new }
{
    match place {
        Place::At(Some(step)) => end_single(rows, width, *step, peer),
        Place::At(None) => {}
        Place::Everywhere => clear_cells(rows, width, peer),
    }
}

/// Sets the subscription of a peer to each of these steps, which are known.
pub(crate) fn set_cells<A: Allocator + Copy>(
    rows: &mut Rows<A>,
    width: usize,
    steps: &[StepUid],
    peer: usize,
    subscription: Option<Subscription>,
)
    requires known { (u : List ℕ) → is_among u steps.now ≡ true → knows_in rows.old.entries u ≡ true }
    requires width { HasWidth width rows.old.entries }
    requires within { peer < width }
    ensures watching { (p : ℕ) → (u : List ℕ) → watching_in rows.new.entries p u ≡ (if nat_eq peer p && is_among u steps.now then subscription else watching_in rows.old.entries p u) }
    ensures known { (u : List ℕ) → knows_in rows.new.entries u ≡ knows_in rows.old.entries u }
    ensures width { HasWidth width rows.new.entries }
    ensures spare { spare rows.old ≤ spare rows.new }
{
    for step in steps {
        set_cell(rows, width, *step, peer, subscription);
    }
}

/// Sets the subscription of a peer to a known step if a subscription is given.
fn set_if<A: Allocator + Copy>(
    rows: &mut Rows<A>,
    width: usize,
    step: StepUid,
    peer: usize,
    subscription: Option<Subscription>,
)
    requires known { knows_in rows.old.entries step ≡ true }
    requires width { HasWidth width rows.old.entries }
    requires within { peer < width }
    ensures watching { (p : ℕ) → (u : List ℕ) → watching_in rows.new.entries p u ≡ (if nat_eq peer p && bytes_eq step u then option_or subscription (watching_in rows.old.entries p u) else watching_in rows.old.entries p u) }
    ensures known { (u : List ℕ) → knows_in rows.new.entries u ≡ knows_in rows.old.entries u }
    ensures width { HasWidth width rows.new.entries }
    ensures spare { spare rows.old ≤ spare rows.new }
{
    if subscription.is_some() {
        set_cell(rows, width, step, peer, subscription);
    }
}

/// Sets the subscription to a known step of each peer for which `cells`, indexed by peer, contains one.
pub(crate) fn put_each<A: Allocator + Copy>(
    rows: &mut Rows<A>,
    width: usize,
    step: StepUid,
    cells: &[Option<Subscription>],
)
    requires known { knows_in rows.old.entries step ≡ true }
    requires width { HasWidth width rows.old.entries }
    requires cells { length cells.now ≤ width }
    ensures watching { (p : ℕ) → (u : List ℕ) → watching_in rows.new.entries p u ≡ (if bytes_eq step u then option_or (slice_index_or cells.now p None) (watching_in rows.old.entries p u) else watching_in rows.old.entries p u) }
    ensures known { (u : List ℕ) → knows_in rows.new.entries u ≡ knows_in rows.old.entries u }
    ensures width { HasWidth width rows.new.entries }
    ensures spare { spare rows.old ≤ spare rows.new }
{
    for (peer, cell) in cells.iter().enumerate() {
        set_if(rows, width, step, peer, *cell);
    }
}
