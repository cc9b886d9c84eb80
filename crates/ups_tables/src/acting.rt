//! The effect of each kind of request on the tables. Room was made for it: nothing here takes memory or can fail. A
//! peer is identified by its index in the list of peers, and an entry by its index in the history.

ghost use Rattle.std.specs.Prelude.{◌≡◌, ◌≤◌, ◌<◌, ℕ, List, None, Some, is_some, true, length, slice_index_or, ◌∷◌, []};
ghost use Rattle.std.specs.HashSet as set;
ghost use Rattle.ups_life.specs.declared.watching.Place.TheVariants.{At, Everywhere};
ghost use Rattle.ups_life.specs.Watching.{is_among};
ghost use Rattle.ups_keep.specs.Due.{due_until};
ghost use Rattle.ups_keep.specs.Waits.{steps_of};
ghost use Rattle.ups_events.specs.Queue.{ack_fault, queue_at};
ghost use Rattle.ups_tables.specs.Held.{held_at};
ghost use Rattle.ups_tables.specs.Fit.{how, holds, TablesFit, AreFreed};
ghost use Rattle.ups_tables.specs.Effects.{IsCreated, IsChanged, IsSubscribed, IsUnsubscribed, IsSuspended, AcknowledgesUpto, IsSwept, ReservesUid, RoomFor};

use crate::settling::{forget, settle, settle_many, waiting_in};
use crate::tables::Tables;
use crate::used::use_uid;
use std::alloc::Allocator;
use ups_keep::Final;
use ups_life::{Place, Report, StepUid, Subscription};
use ups_steps::HeldRow;
use ups_watch::Cover;

/// Creates a step (PS3.4 CC.2.5). Each peer whose global subscription takes the step in is subscribed to it and told
/// `news` (PS3.4 CC.2.3, CC.2.4).
pub(crate) fn create<A: Allocator + Copy>(
    tables: &mut Tables<A>,
    entry: u64,
    step: StepUid,
    held: HeldRow<A>,
    news: &[Report],
)
    requires fits { TablesFit tables.old }
    requires fresh { held_at step tables.old.steps.entries ≡ None }
    requires unfinished { held.row.final_at ≡ None }
    requires room_steps { 0 < tables.old.steps.spare }
    requires room_used { 0 < set.spare tables.old.used }
    requires room_rows { 0 < tables.old.watchers.spare }
    requires room_events { RoomFor (λ p. is_some (slice_index_or tables.old.watchers.covers p None)) (length news.now) tables.old.queues }
    ensures effect { IsCreated entry step held news.now tables.old tables.new }
    ensures fits { TablesFit tables.new }
{
    use_uid(&mut tables.used, step);
    tables.watchers.created(step, &held.row.get().attributes);
    tables
        .queues
        .tell_each(tables.watchers.of_step(step), entry, news);
    tables.steps.push(step, held);
    tables.watchers.learn();
}

/// Replaces the row and the holder of a step, for a change of its state, a request to cancel it, or attributes that are
/// set (PS3.4 CC.2.1, CC.2.2, CC.2.6). Its watchers are told `news`. The peers that `newly`, indexed by peer,
/// subscribes to it as a result are told only `first` (PS3.4 CC.2.3, CC.2.4).
pub(crate) fn change<A: Allocator + Copy>(
    tables: &mut Tables<A>,
    entry: u64,
    step: StepUid,
    held: HeldRow<A>,
    news: &[Report],
    newly: &[Option<Subscription>],
    first: &[Report],
)
    requires fits { TablesFit tables.old }
    requires here { holds tables.old step ≡ true }
    requires width { length newly.now ≤ length tables.old.watchers.covers }
    requires apart { (p : ℕ) → is_some (how tables.old p step) ≡ true → slice_index_or newly.now p None ≡ None }
    requires room_due { 0 < tables.old.due.spare }
    requires room_news { RoomFor (λ p. is_some (how tables.old p step)) (length news.now) tables.old.queues }
    requires room_first { RoomFor (λ p. is_some (slice_index_or newly.now p None)) (length first.now) tables.old.queues }
    ensures effect { IsChanged entry step held news.now newly.now first.now tables.old tables.new }
    ensures fits { TablesFit tables.new }
{
    let before = waiting_in(&tables.watchers, step, tables.steps.final_at(step));
    tables
        .queues
        .tell_each(tables.watchers.of_step(step), entry, news);
    tables.queues.tell_each(newly, entry, first);
    tables.watchers.subscribe_each(step, newly);
    let after = waiting_in(&tables.watchers, step, held.row.get().final_at);
    settle(&mut tables.due, step, before, after);
    tables.steps.put(step, held);
    tables.watchers.learn();
}

/// Replaces the row and the holder of a step, for a change of its state or a request to cancel it (PS3.4 CC.2.1,
/// CC.2.2). Its watchers are told `news`, and no peer is newly subscribed.
pub(crate) fn change_alone<A: Allocator + Copy>(
    tables: &mut Tables<A>,
    entry: u64,
    step: StepUid,
    held: HeldRow<A>,
    news: &[Report],
)
    requires fits { TablesFit tables.old }
    requires here { holds tables.old step ≡ true }
    requires room_due { 0 < tables.old.due.spare }
    requires room_news { RoomFor (λ p. is_some (how tables.old p step)) (length news.now) tables.old.queues }
    ensures effect { IsChanged entry step held news.now [] [] tables.old tables.new }
    ensures fits { TablesFit tables.new }
{
    change(tables, entry, step, held, news, &[], &[]);
}

/// Subscribes a peer to one step, and tells it `news` (PS3.4 CC.2.3).
pub(crate) fn subscribe_single<A: Allocator + Copy>(
    tables: &mut Tables<A>,
    entry: u64,
    peer: usize,
    step: StepUid,
    subscription: Subscription,
    news: &[Report],
)
    requires fits { TablesFit tables.old }
    requires peer { peer < length tables.old.watchers.covers }
    requires here { holds tables.old step ≡ true }
    requires room_due { 0 < tables.old.due.spare }
    requires room_events { length news.now ≤ (queue_at tables.old.queues peer).spare }
    ensures effect { IsSubscribed entry peer subscription None (step ∷ []) news.now tables.old tables.new }
    ensures fits { TablesFit tables.new }
{
    let since = tables.steps.final_at(step);
    let before = waiting_in(&tables.watchers, step, since);
    tables.watchers.subscribe(peer, step, subscription);
    let after = waiting_in(&tables.watchers, step, since);
    settle(&mut tables.due, step, before, after);
    tables.queues.tell(peer, entry, news);
    tables.watchers.learn();
}

/// Gives a peer a global subscription, subscribes it to the `chosen` steps, and tells it `news` (PS3.4 CC.2.3). The
/// `freed` steps are those of them on which only this peer had a deletion lock, and has none now.
pub(crate) fn subscribe_all<A: Allocator + Copy>(
    tables: &mut Tables<A>,
    entry: u64,
    peer: usize,
    cover: Cover<A>,
    chosen: &[StepUid],
    freed: &[Final],
    news: &[Report],
)
    requires fits { TablesFit tables.old }
    requires peer { peer < length tables.old.watchers.covers }
    requires here { (u : List ℕ) → is_among u chosen.now ≡ true → holds tables.old u ≡ true }
    requires freed { AreFreed tables.old peer (Some cover.subscription) (λ u. is_among u chosen.now) freed.now }
    requires room_due { length freed.now ≤ tables.old.due.spare }
    requires room_events { length news.now ≤ (queue_at tables.old.queues peer).spare }
    ensures effect { IsSubscribed entry peer cover.subscription (Some cover) chosen.now news.now tables.old tables.new }
    ensures fits { TablesFit tables.new }
{
    let subscription = cover.subscription;
    tables.watchers.global(peer, cover, chosen);
    settle_many(&mut tables.due, &tables.watchers, Some(subscription), freed);
    tables.queues.tell(peer, entry, news);
    tables.watchers.learn();
}

/// Ends the subscription of a peer to one step (PS3.4 CC.2.3).
pub(crate) fn end_single<A: Allocator + Copy>(tables: &mut Tables<A>, peer: usize, step: StepUid)
    requires fits { TablesFit tables.old }
    requires peer { peer < length tables.old.watchers.covers }
    requires room_due { 0 < tables.old.due.spare }
    ensures effect { IsUnsubscribed peer (At (Some step)) tables.old tables.new }
    ensures fits { TablesFit tables.new }
{
    let since = tables.steps.final_at(step);
    let before = waiting_in(&tables.watchers, step, since);
    tables.watchers.unsubscribe(peer, Place::At(Some(step)));
    let after = waiting_in(&tables.watchers, step, since);
    settle(&mut tables.due, step, before, after);
    tables.watchers.learn();
}

/// Ends all subscriptions of a peer (PS3.4 CC.2.3). The `freed` steps are those on which only this peer had a deletion
/// lock.
pub(crate) fn end_everywhere<A: Allocator + Copy>(
    tables: &mut Tables<A>,
    peer: usize,
    freed: &[Final],
)
    requires fits { TablesFit tables.old }
    requires peer { peer < length tables.old.watchers.covers }
    requires freed { AreFreed tables.old peer None (λ u. true) freed.now }
    requires room_due { length freed.now ≤ tables.old.due.spare }
    ensures effect { IsUnsubscribed peer Everywhere tables.old tables.new }
    ensures fits { TablesFit tables.new }
{
    tables.watchers.unsubscribe(peer, Place::Everywhere);
    settle_many(&mut tables.due, &tables.watchers, None, freed);
    tables.watchers.learn();
}

/// Ends the global subscription of a peer. Its subscriptions to steps stay (PS3.4 CC.2.3).
pub(crate) fn suspend<A: Allocator + Copy>(tables: &mut Tables<A>, peer: usize)
    requires fits { TablesFit tables.old }
    requires peer { peer < length tables.old.watchers.covers }
    ensures effect { IsSuspended peer tables.old tables.new }
    ensures fits { TablesFit tables.new }
{
    tables.watchers.suspend(peer);
    tables.watchers.learn();
}

/// Acknowledges the events of a peer up to a number, which it may acknowledge: they leave its queue.
pub(crate) fn acknowledge_upto<A: Allocator + Copy>(tables: &mut Tables<A>, peer: usize, upto: u64)
    requires fits { TablesFit tables.old }
    requires peer { peer < length tables.old.queues }
    requires allowed { ack_fault (queue_at tables.old.queues peer) upto ≡ None }
    ensures effect { AcknowledgesUpto peer upto tables.old tables.new }
    ensures fits { TablesFit tables.new }
{
    let Ok(_) = tables.queues.ack(peer, upto) else {
        unreachable!();
    };
    tables.watchers.learn();
}

/// Reserves a UID: it is used from then on (PS3.4 CC.2.5).
pub(crate) fn reserve_uid<A: Allocator + Copy>(tables: &mut Tables<A>, uid: StepUid)
    requires fits { TablesFit tables.old }
    requires room_used { 0 < set.spare tables.old.used }
    ensures effect { ReservesUid uid tables.old tables.new }
    ensures fits { TablesFit tables.new }
{
    use_uid(&mut tables.used, uid);
}

/// Removes the steps that became final no later than a moment and that no peer has a deletion lock on, with all
/// subscriptions to them (PS3.4 CC.2.3). Their UIDs stay used (PS3.4 CC.2.5).
pub(crate) fn sweep<A: Allocator + Copy>(tables: &mut Tables<A>, due: &[Final], moment: u64)
    requires fits { TablesFit tables.old }
    requires due { due.now ≡ due_until moment tables.old.due.steps }
    ensures effect { IsSwept (steps_of due.now) tables.old tables.new }
    ensures fits { TablesFit tables.new }
{
    forget(&mut tables.watchers, due);
    tables.steps.remove(due);
    tables.due.sweep(moment);
    tables.watchers.learn();
}
