//! The steps that are held, and who watches them, found by walking the history: plain and slow.

ghost use Rattle.std.specs.Prelude.{◌≡◌, ◌<◌, ◌≤◌, ◌+◌, ◌∷◌, [], ◌++◌, ◌&&◌, length, take, not, filter, is_some, All, Some, None, IfOk, IfErr, OnOk, MatchResult, if◌then◌else◌};
ghost use Rattle.std.specs.List.{filter_map};
ghost use Rattle.std.specs.Str.{bytes_eq};
ghost use Rattle.ups_match.specs.Matching.{is_match};
ghost use Rattle.ups_life.specs.Settings.{IsMoment, IsOffset};
ghost use Rattle.ups_life.specs.Deep.{WalkFails};
ghost use Rattle.ups_life.specs.Steps.{past, row, row_of, is_step, is_on, state_then, state, finished, final_at};
ghost use Rattle.std.specs.Option.{option_copied, option_or};
ghost use Rattle.ups_life.specs.Filters.{filter_after, filter_now};
ghost use Rattle.ups_life.specs.Watching.{granted, takes_in, is_at, global_after, cover_after, cover, watch_after, watch, is_locked, is_kept, has_passed, is_due, held_after, held, watched_step, watched};

use crate::rows::{RowWalk, go_on, is_on, row, unwalked};
use std::alloc::{AllocError, Allocator};
use ups_cycle::StepState;
use ups_dataset::DataSet;
use ups_life::{
    ChangeFault, Configuration, Entry, Filter, Peer, Place, Request, StepUid, Subscription, Target,
    Watched, is_peer, may_lock,
};
use ups_match::{Matcher, Probe};
use ups_pdu::Ae;
use ups_rules::{finished, state_then};

/// Returns the subscription of a watcher, with a Deletion Lock if it asks for one and may have it.
fn granted(peers: &[Peer], ae: Ae, lock: bool) -> Subscription
    ensures { result ≡ granted peers.now ae lock }
{
    if lock && may_lock(peers, ae) {
        Subscription::Locked
    } else {
        Subscription::Free
    }
}

/// Returns whether a subscription to this target includes a step with these attributes.
fn takes_in<A: Allocator + Copy>(target: &Target<A>, step: StepUid, attributes: &DataSet<A>) -> bool
    ensures { result ≡ takes_in target.now step attributes.now }
{
    match target {
        Target::Single(Some(single)) => single.as_bytes() == step.as_bytes(),
        Target::Single(None) => false,
        Target::Global => true,
        Target::Filtered(filter) => is_match(filter, attributes),
    }
}

/// Returns whether an end of subscriptions at this place includes this step.
fn is_at(place: &Place, step: StepUid) -> bool
    ensures { result ≡ is_at place.now step }
{
    match place {
        Place::At(Some(single)) => single.as_bytes() == step.as_bytes(),
        Place::At(None) => false,
        Place::Everywhere => true,
    }
}

/// Returns the global subscription, for steps with these attributes, after a subscription to this target.
fn global_after<A: Allocator + Copy>(
    target: &Target<A>,
    attributes: &DataSet<A>,
    how: Subscription,
    before: Option<Subscription>,
) -> Option<Subscription>
    ensures { result ≡ global_after target.now attributes.now how before }
{
    match target {
        Target::Single(_) => before,
        Target::Global => Some(how),
        Target::Filtered(filter) => {
            if is_match(filter, attributes) {
                Some(how)
            } else {
                None
            }
        }
    }
}

/// Returns the same after any request.
fn cover_after<A: Allocator + Copy>(
    peers: &[Peer],
    ae: Ae,
    attributes: &DataSet<A>,
    before: Option<Subscription>,
    request: &Request<A>,
) -> Option<Subscription>
    ensures { result ≡ cover_after peers.now ae attributes.now before request.now }
{
    match request {
        Request::Subscribe {
            target,
            receiver,
            lock,
        } if receiver.as_bytes() == ae.as_bytes() => {
            global_after(target, attributes, granted(peers, ae, *lock), before)
        }
        Request::Unsubscribe {
            place: Place::Everywhere,
            receiver,
        }
        | Request::Suspend { receiver }
            if receiver.as_bytes() == ae.as_bytes() => { None }
        _ => before,
    }
}

/// Returns how a watcher's global subscription subscribes it to a step with these attributes, or None if it does not
/// (PS3.4 CC.2.3).
fn cover<A: Allocator + Copy>(
    peers: &[Peer],
    entries: &[Entry<A>],
    ae: Ae,
    attributes: &DataSet<A>,
) -> Option<Subscription>
    ensures { result ≡ cover peers.now (past entries.now) ae attributes.now }
{
    let mut found = None;
    for entry in entries {
        found = cover_after(peers, ae, attributes, found, &entry.request);
    }
    found
}

fn same_step(step: StepUid, other: StepUid) -> bool
    ensures { result ≡ bytes_eq step other }
{
    step.as_bytes() == other.as_bytes()
}

fn same_ae(ae: Ae, other: Ae) -> bool
    ensures { result ≡ bytes_eq ae other }
{
    ae.as_bytes() == other.as_bytes()
}

/// Returns the keys of a watcher's global subscription after a request, given those before, or None if there is no such
/// subscription or it has no keys.
fn filter_after<'a, A: Allocator + Copy>(
    ae: Ae,
    before: Option<&'a Filter<A>>,
    request: &'a Request<A>,
) -> Option<&'a Filter<A>>
    ensures { option_copied result ≡ filter_after ae (option_copied before.entry) request.now }
{
    match request {
        Request::Subscribe {
            target: Target::Filtered(filter),
            receiver,
            ..
        } if receiver.as_bytes() == ae.as_bytes() => { Some(filter) }
        Request::Subscribe {
            target: Target::Global,
            receiver,
            ..
        }
        | Request::Unsubscribe {
            place: Place::Everywhere,
            receiver,
        }
        | Request::Suspend { receiver }
            if receiver.as_bytes() == ae.as_bytes() => { None }
        _ => before,
    }
}

/// Returns whether attributes match the keys of a filter.
fn is_match<A: Allocator + Copy>(filter: &Filter<A>, attributes: &DataSet<A>) -> bool
    ensures { result ≡ is_match filter.now attributes.now }
{
    Probe::new().matches(filter.keys(), attributes)
}

/// Returns the subscription to a step after a new one, which includes it or not, given the one before.
fn if_taken_in(
    taken_in: bool,
    how: Subscription,
    before: Option<Subscription>,
) -> Option<Subscription>
    ensures { result ≡ (if taken_in then Some how else before) }
{
    if taken_in { Some(how) } else { before }
}

/// Returns how a watcher is subscribed to a step after `so_far`, which ends with the creation of `new`, given how it
/// was before: to a new step by its global subscription after `earlier`, the entries before.
///
/// Errors: those of `row`.
fn created<A: Allocator + Copy>(
    alloc: A,
    configuration: &Configuration<A>,
    earlier: &[Entry<A>],
    so_far: &[Entry<A>],
    new: StepUid,
    ae: Ae,
    step: StepUid,
    before: Option<Subscription>,
) -> Result<Option<Subscription>, ChangeFault>
    requires moments { All (λ e. IsMoment e.moment) so_far.now }
    requires offset { IsOffset configuration.now.offset }
    ensures watching { IfOk result (λ o. o ≡ (if bytes_eq new step then cover configuration.now.peers (past earlier.now) ae (row configuration.now (past so_far.now) step) else before)) }
    ensures memory { IfErr result (WalkFails configuration.now (past so_far.now)) }
{
    if same_step(new, step) {
        let row = row(alloc, configuration, so_far, step)?;
        Ok(cover(configuration.peers(), earlier, ae, &row))
    } else {
        Ok(before)
    }
}

/// Returns how a watcher's global subscription with these keys newly subscribes it to a step that the entry at this
/// place changes: it includes the new attributes, and did not include those before.
///
/// Errors: those of `go_on`.
fn newly_covered<A: Allocator + Copy>(
    alloc: A,
    configuration: &Configuration<A>,
    entries: &[Entry<A>],
    place: usize,
    filter: &Filter<A>,
    walk: &mut RowWalk<A>,
    ae: Ae,
    step: StepUid,
) -> Result<Option<Subscription>, ChangeFault>
    requires filter { filter_now (past (take place entries.now)) ae ≡ Some filter.now }
    requires row { walk.old.row ≡ row_of configuration.now (past (take walk.old.count entries.now)) step }
    requires earlier { walk.old.count ≤ place }
    requires within { place < length entries.now }
    requires moments { All (λ e. IsMoment e.moment) entries.now }
    requires offset { IsOffset configuration.now.offset }
    ensures newly { IfOk result (λ o. o ≡ (if is_some (cover configuration.now.peers (past (take place entries.now)) ae (row configuration.now (past (take place entries.now)) step)) then None else cover configuration.now.peers (past (take place entries.now)) ae (row configuration.now (past (take (place + 1) entries.now)) step))) }
    ensures row { walk.new.row ≡ row_of configuration.now (past (take walk.new.count entries.now)) step }
    ensures earlier { walk.new.count ≤ place + 1 }
    ensures memory { IfErr result (WalkFails configuration.now (past entries.now)) }
{
    let earlier = &entries[..place];
    go_on(alloc, configuration, walk, entries, place, step)?;
    if is_match(filter, &walk.row.attributes) {
        return Ok(None);
    }
    go_on(alloc, configuration, walk, entries, place + 1, step)?;
    if !is_match(filter, &walk.row.attributes) {
        return Ok(None);
    }
    Ok(cover(configuration.peers(), earlier, ae, &walk.row.attributes))
}

/// Returns whether this step is the one that a request names.
fn is_step(step: StepUid, named: Option<StepUid>) -> bool
    ensures { result ≡ is_step step named }
{
    match named {
        Some(named) => same_step(named, step),
        None => false,
    }
}

/// Returns how a watcher is subscribed to a step after an N-SET of the step `named`, the entry at this place, given how
/// it was before: one who is not subscribed may be so newly, by the global subscription after the entries before.
/// `filter` has the keys of that; if it has none, no step is looked at.
///
/// Errors: those of `go_on`.
fn set<A: Allocator + Copy>(
    alloc: A,
    configuration: &Configuration<A>,
    entries: &[Entry<A>],
    place: usize,
    filter: Option<&Filter<A>>,
    walk: &mut RowWalk<A>,
    named: Option<StepUid>,
    ae: Ae,
    step: StepUid,
    before: Option<Subscription>,
) -> Result<Option<Subscription>, ChangeFault>
    requires filter { option_copied filter ≡ filter_now (past (take place entries.now)) ae }
    requires row { walk.old.row ≡ row_of configuration.now (past (take walk.old.count entries.now)) step }
    requires earlier { walk.old.count ≤ place }
    requires within { place < length entries.now }
    requires moments { All (λ e. IsMoment e.moment) entries.now }
    requires offset { IsOffset configuration.now.offset }
    ensures after { IfOk result (λ o. o ≡ (if is_step step named then option_or before (if is_some (cover configuration.now.peers (past (take place entries.now)) ae (row configuration.now (past (take place entries.now)) step)) then None else cover configuration.now.peers (past (take place entries.now)) ae (row configuration.now (past (take (place + 1) entries.now)) step)) else before)) }
    ensures row { walk.new.row ≡ row_of configuration.now (past (take walk.new.count entries.now)) step }
    ensures earlier { walk.new.count ≤ place + 1 }
    ensures memory { IfErr result (WalkFails configuration.now (past entries.now)) }
{
    let Some(filter) = filter else {
        return Ok(before);
    };
    match before {
        None if is_step(step, named) => {
            newly_covered(alloc, configuration, entries, place, filter, walk, ae, step)
        }
        _ => Ok(before),
    }
}

/// Returns how a watcher is subscribed to a step after a subscription of the receiver, given how it was before.
///
/// Errors: those of `row`.
fn subscribed<A: Allocator + Copy>(
    alloc: A,
    configuration: &Configuration<A>,
    earlier: &[Entry<A>],
    target: &Target<A>,
    receiver: Ae,
    lock: bool,
    ae: Ae,
    step: StepUid,
    before: Option<Subscription>,
) -> Result<Option<Subscription>, ChangeFault>
    requires moments { All (λ e. IsMoment e.moment) earlier.now }
    requires offset { IsOffset configuration.now.offset }
    ensures watching { IfOk result (λ o. o ≡ (if bytes_eq receiver ae && takes_in target.now step (row configuration.now (past earlier.now) step) then Some (granted configuration.now.peers ae lock) else before)) }
    ensures memory { IfErr result (WalkFails configuration.now (past earlier.now)) }
{
    if same_ae(receiver, ae) {
        let row = row(alloc, configuration, earlier, step)?;
        let how = granted(configuration.peers(), ae, lock);
        Ok(if_taken_in(takes_in(target, step, &row), how, before))
    } else {
        Ok(before)
    }
}

/// Returns how a watcher is subscribed to a step after subscriptions of the receiver end, given how it was before.
fn ended(
    place: &Place,
    receiver: Ae,
    ae: Ae,
    step: StepUid,
    before: Option<Subscription>,
) -> Option<Subscription>
    ensures { result ≡ (if bytes_eq receiver ae && is_at place.now step then None else before) }
{
    if same_ae(receiver, ae) && is_at(place, step) {
        None
    } else {
        before
    }
}

/// Returns how a watcher is subscribed to a step after the entry at this place, given how it was before; `filter` has
/// the keys of its global subscription before it, and `walk` is what is held of the step after some of the entries
/// before.
///
/// Errors: those of `go_on`.
fn watch_after<A: Allocator + Copy>(
    alloc: A,
    configuration: &Configuration<A>,
    entries: &[Entry<A>],
    place: usize,
    filter: Option<&Filter<A>>,
    walk: &mut RowWalk<A>,
    entry: &Entry<A>,
    ae: Ae,
    step: StepUid,
    before: Option<Subscription>,
) -> Result<Option<Subscription>, ChangeFault>
    requires entry { past (take (place + 1) entries.now) ≡ entry.now ∷ past (take place entries.now) }
    requires filter { option_copied filter ≡ filter_now (past (take place entries.now)) ae }
    requires row { walk.old.row ≡ row_of configuration.now (past (take walk.old.count entries.now)) step }
    requires earlier { walk.old.count ≤ place }
    requires within { place < length entries.now }
    requires moments { All (λ e. IsMoment e.moment) entries.now }
    requires offset { IsOffset configuration.now.offset }
    ensures after { IfOk result (λ after. after ≡ watch_after configuration.now (past (take place entries.now)) entry.now ae step before entry.now.request) }
    ensures row { walk.new.row ≡ row_of configuration.now (past (take walk.new.count entries.now)) step }
    ensures earlier { walk.new.count ≤ place + 1 }
    ensures memory { IfErr result (WalkFails configuration.now (past entries.now)) }
{
    let earlier = &entries[..place];
    match &entry.request {
        Request::Create { step: new, .. } => {
            created(
                alloc,
                configuration,
                earlier,
                &entries[..place + 1],
                *new,
                ae,
                step,
                before,
            )
        }
        Request::Set { step: named, .. } => set(
            alloc,
            configuration,
            entries,
            place,
            filter,
            walk,
            *named,
            ae,
            step,
            before,
        ),
        Request::Subscribe {
            target,
            receiver,
            lock,
        } => {
            subscribed(
                alloc,
                configuration,
                earlier,
                target,
                *receiver,
                *lock,
                ae,
                step,
                before,
            )
        }
        Request::Unsubscribe { place, receiver } => {
            Ok(ended(place, *receiver, ae, step, before))
        }
        Request::Change { .. }
        | Request::AskCancel { .. }
        | Request::Suspend { .. }
        | Request::Ack { .. }
        | Request::Sweep
        | Request::Reserve { .. } => Ok(before),
    }
}

/// Returns how a watcher is subscribed to a step that is held (PS3.4 CC.2.3), or None if it is not.
///
/// Errors: those of `row`.
fn watch<A: Allocator + Copy>(
    alloc: A,
    configuration: &Configuration<A>,
    entries: &[Entry<A>],
    ae: Ae,
    step: StepUid,
) -> Result<Option<Subscription>, ChangeFault>
    requires moments { All (λ e. IsMoment e.moment) entries.now }
    requires offset { IsOffset configuration.now.offset }
    ensures { MatchResult result (λ found. found ≡ watch configuration.now (past entries.now) ae step) (WalkFails configuration.now (past entries.now)) }
{
    let mut found = None;
    let mut filter = None;
    let mut walk = unwalked(alloc);
    for (place, entry) in entries.iter().enumerate() {
        found = watch_after(
            alloc,
            configuration,
            entries,
            place,
            filter,
            &mut walk,
            entry,
            ae,
            step,
            found,
        )?;
        filter = filter_after(ae, filter, &entry.request);
    }
    Ok(found)
}

/// Returns whether a subscription has a Deletion Lock.
fn is_locked(subscription: Option<Subscription>) -> bool
    ensures { result ≡ is_locked subscription }
{
    match subscription {
        Some(Subscription::Locked) => true,
        _ => false,
    }
}

/// Returns whether a peer keeps a step by a Deletion Lock.
///
/// Errors: those of `row`.
fn is_kept<A: Allocator + Copy>(
    alloc: A,
    configuration: &Configuration<A>,
    entries: &[Entry<A>],
    step: StepUid,
) -> Result<bool, ChangeFault>
    requires moments { All (λ e. IsMoment e.moment) entries.now }
    requires offset { IsOffset configuration.now.offset }
    ensures { MatchResult result (λ kept. kept ≡ is_kept configuration.now (past entries.now) step) (WalkFails configuration.now (past entries.now)) }
{
    let peers = configuration.peers();
    for peer in peers {
        if is_locked(watch(alloc, configuration, entries, peer.ae, step)?) {
            return Ok(true);
        }
    }
    Ok(false)
}

/// Returns the state of a step after a request, which may be on another step.
fn state_after<A: Allocator + Copy>(
    step: StepUid,
    before: StepState,
    request: &Request<A>,
) -> StepState
    ensures { result ≡ (if is_on step request.now then state_then before request.now else before) }
{
    if is_on(step, request) {
        state_then(before, request)
    } else {
        before
    }
}

/// Returns when the state of a step became final, after an entry, which may be on another step; `state` is the state
/// before it.
fn final_after<A: Allocator + Copy>(
    step: StepUid,
    state: StepState,
    before: Option<u64>,
    entry: &Entry<A>,
) -> Option<u64>
    ensures { result ≡ (if is_on step entry.now.request then option_or (finished state entry.now.moment entry.now.request) before else before) }
{
    if is_on(step, &entry.request) {
        let after = state_then(state, &entry.request);
        finished(state, entry.moment, after).or(before)
    } else {
        before
    }
}

/// Returns when the state of a step became final, in seconds since 1970-01-01 UTC, or None if it is not final.
fn final_at<A: Allocator + Copy>(entries: &[Entry<A>], step: StepUid) -> Option<u64>
    ensures { result ≡ final_at (past entries.now) step }
{
    let mut found = None;
    let mut state = StepState::Scheduled;
    for entry in entries {
        found = final_after(step, state, found, entry);
        state = state_after(step, state, &entry.request);
    }
    found
}

/// Returns whether at least `seconds` have passed between `since` and `moment`.
fn has_passed(seconds: u32, moment: u64, since: Option<u64>) -> bool
    ensures { result ≡ has_passed seconds moment since }
{
    match since {
        Some(since) => since <= moment && u64::from(seconds) <= moment - since,
        None => false,
    }
}

/// Returns whether a sweep at a moment removes a step that is held: its state has been final for the time that it is
/// kept, and no peer keeps it by a Deletion Lock. It is slow: for each peer it walks the entries, and those before each
/// of them.
///
/// # Errors
///
/// `Memory` if memory runs out; `TooDeep`, only if the entries are not a legal history.
pub fn is_due<A: Allocator + Copy>(
    alloc: A,
    configuration: &Configuration<A>,
    entries: &[Entry<A>],
    moment: u64,
    step: StepUid,
) -> Result<bool, ChangeFault>
    requires moments { All (λ e. IsMoment e.moment) entries.now }
    requires offset { IsOffset configuration.now.offset }
    ensures { MatchResult result (λ due. due ≡ is_due configuration.now (past entries.now) moment step) (WalkFails configuration.now (past entries.now)) }
{
    if !has_passed(configuration.keep(), moment, final_at(entries, step)) {
        return Ok(false);
    }
    let kept = is_kept(alloc, configuration, entries, step)?;
    Ok(!kept)
}

/// Adds a step, unless it is due.
///
/// Errors: if memory runs out.
fn add_left<A: Allocator + Copy>(
    left: &mut Vec<StepUid, A>,
    step: StepUid,
    due: bool,
) -> Result<(), AllocError>
    ensures { OnOk result (left.new.items ≡ left.old.items ++ (if not due then step ∷ [] else [])) }
{
    if !due {
        left.push(step)?;
    }
    Ok(())
}

/// Returns those of these steps that a sweep at a moment leaves.
///
/// Errors: those of `is_due`.
fn left<A: Allocator + Copy>(
    alloc: A,
    configuration: &Configuration<A>,
    entries: &[Entry<A>],
    moment: u64,
    steps: &[StepUid],
) -> Result<Vec<StepUid, A>, ChangeFault>
    requires moments { All (λ e. IsMoment e.moment) entries.now }
    requires offset { IsOffset configuration.now.offset }
    ensures { MatchResult result (λ v. v.items ≡ filter (λ u. not (is_due configuration.now (past entries.now) moment u)) steps.now) (WalkFails configuration.now (past entries.now)) }
{
    let mut left = Vec::new(alloc);
    for step in steps {
        let due = is_due(alloc, configuration, entries, moment, *step)?;
        add_left(&mut left, *step, due)?;
    }
    Ok(left)
}

/// Returns the steps held after an entry, given those held before; `earlier` are the entries before it.
///
/// Errors: those of `is_due`.
fn held_after<A: Allocator + Copy>(
    alloc: A,
    configuration: &Configuration<A>,
    earlier: &[Entry<A>],
    entry: &Entry<A>,
    mut steps: Vec<StepUid, A>,
) -> Result<Vec<StepUid, A>, ChangeFault>
    requires moments { All (λ e. IsMoment e.moment) earlier.now }
    requires offset { IsOffset configuration.now.offset }
    ensures { MatchResult result (λ v. v.items ≡ held_after configuration.now (past earlier.now) entry.now.moment steps.items entry.now.request) (WalkFails configuration.now (past earlier.now)) }
{
    match &entry.request {
        Request::Create { step, .. } => {
            add_left(&mut steps, *step, false)?;
            Ok(steps)
        }
        Request::Sweep => left(
            alloc,
            configuration,
            earlier,
            entry.moment,
            steps.as_slice(),
        ),
        _ => Ok(steps),
    }
}

/// Returns the steps held, in order of creation. It is slow: for each sweep it finds out of each step whether it is
/// due.
///
/// # Errors
///
/// Those of `is_due`.
pub fn plain_held<A: Allocator + Copy>(
    alloc: A,
    configuration: &Configuration<A>,
    entries: &[Entry<A>],
) -> Result<Vec<StepUid, A>, ChangeFault>
    requires moments { All (λ e. IsMoment e.moment) entries.now }
    requires offset { IsOffset configuration.now.offset }
    ensures { MatchResult result (λ v. v.items ≡ held configuration.now (past entries.now)) (WalkFails configuration.now (past entries.now)) }
{
    let mut steps = Vec::new(alloc);
    for (place, entry) in entries.iter().enumerate() {
        steps = held_after(alloc, configuration, &entries[..place], entry, steps)?;
    }
    Ok(steps)
}

/// Adds a step, if a watcher is subscribed to it.
///
/// Errors: if memory runs out.
fn add_watched<A: Allocator + Copy>(
    found: &mut Vec<Watched, A>,
    step: StepUid,
    subscription: Option<Subscription>,
) -> Result<(), AllocError>
    ensures { OnOk result (found.new.items ≡ found.old.items ++ filter_map (λ u. watched_step u subscription) (step ∷ [])) }
{
    if let Some(subscription) = subscription {
        found.push(Watched { step, subscription })?;
    }
    Ok(())
}

/// Returns those of these steps that a watcher is subscribed to, each with its subscription.
///
/// Errors: those of `is_due`.
pub fn watched_among<A: Allocator + Copy>(
    alloc: A,
    configuration: &Configuration<A>,
    entries: &[Entry<A>],
    ae: Ae,
    steps: &[StepUid],
) -> Result<Vec<Watched, A>, ChangeFault>
    requires moments { All (λ e. IsMoment e.moment) entries.now }
    requires offset { IsOffset configuration.now.offset }
    ensures { MatchResult result (λ v. v.items ≡ filter_map (λ u. watched_step u (watch configuration.now (past entries.now) ae u)) steps.now) (WalkFails configuration.now (past entries.now)) }
{
    let mut found = Vec::new(alloc);
    for step in steps {
        let subscription = watch(alloc, configuration, entries, ae, *step)?;
        add_watched(&mut found, *step, subscription)?;
    }
    Ok(found)
}

/// Returns the steps that a watcher is subscribed to, in order of creation, each with its subscription (PS3.4 CC.2.3).
/// It is slow.
///
/// # Errors
///
/// Those of `is_due`.
pub fn plain_watches<A: Allocator + Copy>(
    alloc: A,
    configuration: &Configuration<A>,
    entries: &[Entry<A>],
    ae: Ae,
) -> Result<Vec<Watched, A>, ChangeFault>
    requires moments { All (λ e. IsMoment e.moment) entries.now }
    requires offset { IsOffset configuration.now.offset }
    ensures { MatchResult result (λ v. v.items ≡ watched configuration.now (past entries.now) ae) (WalkFails configuration.now (past entries.now)) }
{
    let steps = plain_held(alloc, configuration, entries)?;
    watched_among(alloc, configuration, entries, ae, steps.as_slice())
}
