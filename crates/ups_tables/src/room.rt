//! Makes room for the effect of a request on the tables, so that it can be carried out without memory.

ghost use Rattle.std.specs.Prelude.{◌≡◌, ◌≤◌, ◌<◌, ℕ, None, is_some, true, length, slice_index_or, IsOk, OnOk};
ghost use Rattle.std.specs.HashSet as set;
ghost use Rattle.ups_events.specs.Queue.{queue_at, IsReserved};
ghost use Rattle.ups_watch.specs.Table.{cells_of, watching};
ghost use Rattle.ups_tables.specs.Fit.{how, TablesFit};
ghost use Rattle.ups_tables.specs.Effects.{Reserved, RoomFor};
ghost use Rattle.ups_tables.specs.Planned.{RoomToCreate, RoomToChange};

use crate::tables::Tables;
use std::alloc::{AllocError, Allocator};
use ups_events::Queues;
use ups_life::{StepUid, Subscription};
use ups_watch::Watchers;

/// Makes room for `more` further events of a peer if `wanted`.
///
/// Errors: if memory runs out, but never if there is that room already.
fn reserve_if<A: Allocator + Copy>(
    queues: &mut Queues<A>,
    wanted: bool,
    peer: usize,
    more: usize,
) -> Result<(), AllocError>
    requires { peer < length queues.old }
    ensures room { OnOk result (wanted ≡ true → more ≤ (queue_at queues.new peer).spare) }
    ensures succeeds { (wanted ≡ true → more ≤ (queue_at queues.old peer).spare) → IsOk result }
    ensures same { (p : ℕ) → IsReserved (queue_at queues.old p) (queue_at queues.new p) }
    ensures peers { length queues.new ≡ length queues.old }
{
    if wanted {
        return queues.reserve(peer, more);
    }
    Ok(())
}

/// Makes room for `more` further events of each subscribed peer; `cells` are the subscriptions, indexed by peer.
///
/// Errors: if memory runs out, but never if there is that room already.
fn reserve_cells<A: Allocator + Copy>(
    queues: &mut Queues<A>,
    cells: &[Option<Subscription>],
    more: usize,
) -> Result<(), AllocError>
    requires { length cells.now ≤ length queues.old }
    ensures room { OnOk result (RoomFor (λ p. is_some (slice_index_or cells.now p None)) more queues.new) }
    ensures succeeds { RoomFor (λ p. is_some (slice_index_or cells.now p None)) more queues.old → IsOk result }
    ensures same { (p : ℕ) → IsReserved (queue_at queues.old p) (queue_at queues.new p) }
    ensures peers { length queues.new ≡ length queues.old }
{
    for (peer, cell) in cells.iter().enumerate() {
        reserve_if(queues, cell.is_some(), peer, more)?;
    }
    Ok(())
}

/// Makes room for `news` further events of each peer that is subscribed to a step. Most changes tell nothing, and then
/// the step is not looked up.
///
/// Errors: if memory runs out, but never if there is that room already.
fn reserve_watchers<A: Allocator + Copy>(
    queues: &mut Queues<A>,
    watchers: &Watchers<A>,
    step: StepUid,
    news: usize,
) -> Result<(), AllocError>
    requires { length (cells_of watchers.now step) ≤ length queues.old }
    ensures room { OnOk result (RoomFor (λ p. is_some (watching watchers.now p step)) news queues.new) }
    ensures succeeds { RoomFor (λ p. is_some (watching watchers.now p step)) news queues.old → IsOk result }
    ensures same { (p : ℕ) → IsReserved (queue_at queues.old p) (queue_at queues.new p) }
    ensures peers { length queues.new ≡ length queues.old }
{
    if news == 0 {
        return Ok(());
    }
    reserve_cells(queues, watchers.of_step(step), news)
}

/// Makes room for `more` further events of each peer that has a global subscription.
///
/// Errors: if memory runs out, but never if there is that room already.
fn reserve_covered<A: Allocator + Copy>(
    queues: &mut Queues<A>,
    watchers: &Watchers<A>,
    more: usize,
) -> Result<(), AllocError>
    requires { length watchers.now.covers ≤ length queues.old }
    ensures room { OnOk result (RoomFor (λ p. is_some (slice_index_or watchers.now.covers p None)) more queues.new) }
    ensures succeeds { RoomFor (λ p. is_some (slice_index_or watchers.now.covers p None)) more queues.old → IsOk result }
    ensures same { (p : ℕ) → IsReserved (queue_at queues.old p) (queue_at queues.new p) }
    ensures peers { length queues.new ≡ length queues.old }
{
    for peer in 0..watchers.peers() {
        reserve_if(queues, watchers.has_cover(peer), peer, more)?;
    }
    Ok(())
}

/// Makes room for one more step, and for `news` further events of each peer that has a global subscription, which may
/// subscribe it to the step (PS3.4 CC.2.3).
///
/// Errors: if memory runs out, but never if there is that room already. The contents of the tables stay the same.
pub(crate) fn make_room_to_create<A: Allocator + Copy>(
    tables: &mut Tables<A>,
    news: usize,
) -> Result<(), AllocError>
    requires { TablesFit tables.old }
    ensures steps { OnOk result (0 < tables.new.steps.spare) }
    ensures used { OnOk result (0 < set.spare tables.new.used) }
    ensures rows { OnOk result (0 < tables.new.watchers.spare) }
    ensures events { OnOk result (RoomFor (λ p. is_some (slice_index_or tables.new.watchers.covers p None)) news tables.new.queues) }
    ensures succeeds { RoomToCreate tables.old news → IsOk result }
    ensures same { Reserved tables.old tables.new }
    ensures fits { TablesFit tables.new }
{
    tables.steps.reserve(1)?;
    tables.used.reserve(1)?;
    tables.watchers.reserve(1)?;
    reserve_covered(&mut tables.queues, &tables.watchers, news)
}

/// Makes room for `news` further events of each peer that is subscribed to a step, for `first` further events of each
/// peer that `newly`, indexed by peer, subscribes to it, and for one more step that awaits removal.
///
/// Errors: if memory runs out, but never if there is that room already. The contents of the tables stay the same.
pub(crate) fn make_room_to_change<A: Allocator + Copy>(
    tables: &mut Tables<A>,
    step: StepUid,
    news: usize,
    newly: &[Option<Subscription>],
    first: usize,
) -> Result<(), AllocError>
    requires fits { TablesFit tables.old }
    requires width { length newly.now ≤ length tables.old.watchers.covers }
    ensures due { OnOk result (0 < tables.new.due.spare) }
    ensures news { OnOk result (RoomFor (λ p. is_some (how tables.new p step)) news tables.new.queues) }
    ensures first { OnOk result (RoomFor (λ p. is_some (slice_index_or newly.now p None)) first tables.new.queues) }
    ensures succeeds { RoomToChange tables.old step news newly.now first → IsOk result }
    ensures same { Reserved tables.old tables.new }
    ensures fits { TablesFit tables.new }
{
    tables.due.reserve(1)?;
    reserve_watchers(&mut tables.queues, &tables.watchers, step, news)?;
    reserve_cells(&mut tables.queues, newly, first)
}

/// Makes room for `news` further events of a peer, and for `freed` more steps that await removal, but for at least one.
///
/// Errors: if memory runs out, but never if there is that room already. The contents of the tables stay the same.
pub(crate) fn make_room_to_subscribe<A: Allocator + Copy>(
    tables: &mut Tables<A>,
    peer: usize,
    news: usize,
    freed: usize,
) -> Result<(), AllocError>
    requires fits { TablesFit tables.old }
    requires peer { peer < length tables.old.watchers.covers }
    ensures due { OnOk result (freed ≤ tables.new.due.spare) }
    ensures one { OnOk result (0 < tables.new.due.spare) }
    ensures events { OnOk result (news ≤ (queue_at tables.new.queues peer).spare) }
    ensures succeeds { freed ≤ tables.old.due.spare → 0 < tables.old.due.spare → news ≤ (queue_at tables.old.queues peer).spare → IsOk result }
    ensures same { Reserved tables.old tables.new }
    ensures fits { TablesFit tables.new }
{
    make_room_to_cover(tables, peer, news, freed.max(1))
}

/// Makes room for `news` further events of a peer, and for `freed` more steps that await removal.
///
/// Errors: if memory runs out, but never if there is that room already. The contents of the tables stay the same.
pub(crate) fn make_room_to_cover<A: Allocator + Copy>(
    tables: &mut Tables<A>,
    peer: usize,
    news: usize,
    freed: usize,
) -> Result<(), AllocError>
    requires fits { TablesFit tables.old }
    requires peer { peer < length tables.old.watchers.covers }
    ensures due { OnOk result (freed ≤ tables.new.due.spare) }
    ensures events { OnOk result (news ≤ (queue_at tables.new.queues peer).spare) }
    ensures succeeds { freed ≤ tables.old.due.spare → news ≤ (queue_at tables.old.queues peer).spare → IsOk result }
    ensures same { Reserved tables.old tables.new }
    ensures fits { TablesFit tables.new }
{
    tables.due.reserve(freed)?;
    reserve_if(&mut tables.queues, true, peer, news)
}

/// Makes room for `freed` more steps that await removal, but for at least one.
///
/// Errors: if memory runs out, but never if there is that room already. The contents of the tables stay the same.
pub(crate) fn make_room_to_free<A: Allocator + Copy>(
    tables: &mut Tables<A>,
    freed: usize,
) -> Result<(), AllocError>
    requires { TablesFit tables.old }
    ensures due { OnOk result (freed ≤ tables.new.due.spare) }
    ensures one { OnOk result (0 < tables.new.due.spare) }
    ensures succeeds { freed ≤ tables.old.due.spare → 0 < tables.old.due.spare → IsOk result }
    ensures same { Reserved tables.old tables.new }
    ensures fits { TablesFit tables.new }
{
    let steps = freed.max(1);
    tables.due.reserve(steps)
}
