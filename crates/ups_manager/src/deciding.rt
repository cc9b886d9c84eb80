//! The decision about a call, made from the tables, and its effect on them.

ghost use Rattle.std.specs.Prelude.{◌≡◌, ◌<◌, ◌++◌, ◌∷◌, [], true, false, MatchResult, IfOk};
ghost use Rattle.std.specs.Option.{option_copied};
ghost use Rattle.ups_cycle.specs.Statuses.{is_done};
ghost use Rattle.ups_history.specs.View.{KeepsMemory};
ghost use Rattle.ups_life.specs.Settings.{IsMoment};
ghost use Rattle.ups_life.specs.Steps.{past};
ghost use Rattle.ups_life.specs.Verdict.{verdict};
ghost use Rattle.ups_keep.specs.Waits.{steps_of};
ghost use Rattle.ups_life.specs.History.{legal, receiver_of, of_peer, of_lock, status, accepts, acknowledged};
ghost use Rattle.ups_tables.specs.Planned.{IsPlan, removed_by, room_for};
ghost use Rattle.ups_tables.specs.Stands.{Stands as TablesStand};
ghost use Rattle.ups_manager.specs.declared.deciding.Kind.TheVariants.{OfStep, OfWatcher, OfEvents, OfTime, OfUid};
ghost use Rattle.ups_manager.specs.Deciding.{kind_of, IsDecided, IsRefused};
ghost use Rattle.ups_manager.specs.Indexing.{after_change, has_room};
ghost use Rattle.ups_manager.specs.Kept.{ManagerStands};

use crate::indexing::{IndexChange, change_index};
use crate::peers::{acked_at, made_at};
use crate::rows::known;
use crate::submitting::step_for;
use std::alloc::{AllocError, Allocator};
use ups_cycle::Status;
use ups_history::History;
use ups_index::{Index, Values};
use ups_life::{Configuration, Entry, Peer, Reply, Request, Row, StepUid, is_peer, may_lock};
use ups_pdu::Ae;
use ups_rules::verdict;
use ups_tables::{
    Plan, Tables, carry_out, place_of, plan_end, plan_step, plan_subscription, plan_suspend,
    plan_sweep,
};

/// What a request is about.
#[derive(Clone, Copy, PartialEq, Eq)]
pub(crate) enum Kind {
    /// A step, which it creates or changes.
    OfStep,
    /// A watcher's subscriptions.
    OfWatcher,
    /// The events of the requesting application entity, up to a number.
    OfEvents(u64),
    /// The time for which finished steps are kept.
    OfTime,
    /// A UID, under which no step is to be created.
    OfUid(StepUid),
}

/// The reply to an accepted call, the plan of its effect on the tables, and its effect on the index.
pub(crate) struct Decision<A: Allocator + Copy> {
    pub reply: Reply<A>,
    pub plan: Plan<A>,
    pub change: IndexChange<A>,
}

impl<A: Allocator + Copy> Drop for Decision<A> {
    fn drop(self) {
        let Decision {
            reply: _,
            plan: _,
            change: _,
        } = self;
    }
}

impl<A: Allocator + Copy> Decision<A> {
    /// Carries out the decision about a call, for which there is room: enters the call into the history, the tables and
    /// the index. Returns the reply to it.
    pub(crate) fn apply(
        self,
        configuration: &Configuration<A>,
        history: &mut History<A>,
        tables: &mut Tables<A>,
        index: &mut Index<A>,
        call: Entry<A>,
    ) -> Reply<A>
        requires stands { TablesStand configuration.now history.old.entries tables.old }
        requires legal { legal configuration.now (call ∷ past history.old.entries) ≡ true }
        requires plan { IsPlan configuration.now (past history.old.entries) call tables.old self.plan }
        requires room { room_for tables.old self.plan }
        requires history_room { 0 < history.old.spare }
        requires index_room { has_room index.old.spare self.change }
        ensures reply { result ≡ self.reply }
        ensures history { history.new.entries ≡ history.old.entries ++ call ∷ [] }
        ensures memory { KeepsMemory history.old history.new }
        ensures stands { TablesStand configuration.now history.new.entries tables.new }
        ensures steps { index.new.steps ≡ after_change self.change (steps_of (removed_by self.plan)) index.old.steps }
        ensures offset { index.new.offset ≡ index.old.offset }
    {
        let Decision {
            reply,
            plan,
            change,
        } = self;
        change_index(index, change, plan.removed());
        carry_out(configuration, history, tables, call, plan);
        reply
    }
}

/// Returns what a request is about.
fn kind_of<A: Allocator + Copy>(request: &Request<A>) -> Kind
    ensures { result ≡ kind_of request.now }
{
    match request {
        Request::Create { .. }
        | Request::Change { .. }
        | Request::AskCancel { .. }
        | Request::Set { .. } => Kind::OfStep,
        Request::Subscribe { .. } | Request::Unsubscribe { .. } | Request::Suspend { .. } => {
            Kind::OfWatcher
        }
        Request::Ack { upto } => Kind::OfEvents(*upto),
        Request::Sweep => Kind::OfTime,
        Request::Reserve { step } => Kind::OfUid(*step),
    }
}

/// Decides about a request that creates or changes a step.
///
/// Errors: the reply that refuses the request, or that says that memory ran out.
fn decide_step<A: Allocator + Copy>(
    alloc: A,
    configuration: &Configuration<A>,
    history: &History<A>,
    tables: &Tables<A>,
    call: &Entry<A>,
) -> Result<Decision<A>, Reply<A>>
    requires moment { IsMoment call.now.moment }
    requires stands { ManagerStands configuration.now history.now.entries tables.now }
    requires kind { kind_of call.now.request ≡ OfStep }
    ensures { MatchResult result (IsDecided configuration.now history.now.entries tables.now call.now) (IsRefused configuration.now history.now.entries call.now) }
{
    let Some(step) = call.request.step() else {
        return Err(Reply::Status(Status::UnknownInstance));
    };
    let offset = configuration.offset();
    let held = match step_for(alloc, offset, history, tables, call, step) {
        Ok(held) => held,
        Err(fault) => return Err(Reply::Status(fault.status())),
    };
    let Ok(values) = Values::of(alloc, &held.row.get().attributes, offset) else {
        return Err(Reply::Status(Status::ResourceLimitation));
    };
    match plan_step(alloc, configuration, history, tables, call, step, held) {
        Ok(plan) => Ok(Decision {
            reply: Reply::Status(Status::Success),
            plan,
            change: IndexChange::Put { step, values },
        }),
        Err(_) => Err(Reply::Status(Status::ResourceLimitation)),
    }
}

/// Returns the status of a request for a watcher: `UnknownReceivingAe` if the watcher is no peer, or else `status`
/// (PS3.4 CC.2.3).
fn of_peer(peers: &[Peer], receiver: Option<Ae>, status: Status) -> Status
    ensures { result ≡ of_peer peers.now receiver status }
{
    match receiver {
        Some(receiver) if !is_peer(peers, receiver) => Status::UnknownReceivingAe,
        _ => status,
    }
}

/// Returns the status of a request that may ask for a deletion lock: `DeletionLockNotGranted` in place of success if
/// the peer has no right to the lock, or else `status` (PS3.4 CC.2.3).
fn of_lock<A: Allocator + Copy>(peers: &[Peer], request: &Request<A>, status: Status) -> Status
    ensures { result ≡ of_lock peers.now request.now status }
{
    match (request, status) {
        (Request::Subscribe { receiver, lock, .. }, Status::Success)
            if *lock && !may_lock(peers, *receiver) => { Status::DeletionLockNotGranted }
        _ => status,
    }
}

/// Returns the status of a request for a watcher, by the watcher, the step that it names and the lock that it asks for.
fn watcher_status<A: Allocator + Copy>(
    peers: &[Peer],
    row: Option<&Row<A>>,
    request: &Request<A>,
) -> Status
    ensures { result ≡ of_peer peers.now (receiver_of request.now) (of_lock peers.now request.now (verdict (option_copied row.entry) false request.now)) }
{
    let status = of_lock(peers, request, verdict(row, false, request));
    of_peer(peers, request.receiver(), status)
}

/// Returns the plan of an accepted request for a watcher.
///
/// Errors: if memory runs out.
fn plan_watcher<A: Allocator + Copy>(
    alloc: A,
    configuration: &Configuration<A>,
    history: &History<A>,
    tables: &Tables<A>,
    call: &Entry<A>,
) -> Result<Plan<A>, AllocError>
    requires stands { TablesStand configuration.now history.now.entries tables.now }
    requires kind { kind_of call.now.request ≡ OfWatcher }
    requires accepted { is_done (status configuration.now (past history.now.entries) call.now) ≡ true }
    ensures { IfOk result (λ p. IsPlan configuration.now (past history.now.entries) call.now tables.now p) }
{
    match &call.request {
        Request::Subscribe {
            target,
            receiver,
            lock,
        } => plan_subscription(
            alloc,
            configuration,
            history,
            tables,
            call,
            target,
            *receiver,
            *lock,
        ),
        Request::Unsubscribe { place, receiver } => plan_end(
            alloc,
            configuration,
            history,
            tables,
            call,
            *place,
            *receiver,
        ),
        Request::Suspend { receiver } => {
            Ok(plan_suspend(configuration, history, tables, call, *receiver))
        }
        _ => unreachable!(),
    }
}

/// Decides about a request for a watcher.
///
/// Errors: the reply that refuses the request, or that says that memory ran out.
#[inline(never)]
fn decide_watcher<A: Allocator + Copy>(
    alloc: A,
    configuration: &Configuration<A>,
    history: &History<A>,
    tables: &Tables<A>,
    call: &Entry<A>,
) -> Result<Decision<A>, Reply<A>>
    requires stands { ManagerStands configuration.now history.now.entries tables.now }
    requires kind { kind_of call.now.request ≡ OfWatcher }
    ensures { MatchResult result (IsDecided configuration.now history.now.entries tables.now call.now) (IsRefused configuration.now history.now.entries call.now) }
{
    let row = known(tables, call.request.named_step());
    let status = watcher_status(configuration.peers(), row, &call.request);
    if status.is_done() {
        match plan_watcher(alloc, configuration, history, tables, call) {
            Ok(plan) => Ok(Decision {
                reply: Reply::Status(status),
                plan,
                change: IndexChange::Nothing,
            }),
            Err(_) => Err(Reply::Status(Status::ResourceLimitation)),
        }
    } else {
        Err(Reply::Status(status))
    }
}

/// Returns the reply to an acknowledgement up to `upto`, if `made` events were made and those up to `before` were
/// acknowledged before.
fn acknowledged<A: Allocator + Copy>(made: u64, before: u64, upto: u64) -> Reply<A>
    ensures { result ≡ acknowledged made before upto }
{
    if made < upto {
        Reply::AckAhead
    } else if upto <= before {
        Reply::AckStale
    } else {
        Reply::Status(Status::Success)
    }
}

/// Returns whether a reply accepts a request.
fn accepts<A: Allocator + Copy>(reply: &Reply<A>) -> bool
    ensures { result ≡ accepts reply.now }
{
    match reply {
        Reply::Status(status) => status.is_done(),
        Reply::Swept(count) => *count > 0,
        _ => false,
    }
}

/// Decides about an acknowledgement up to a number. An application entity that is no peer has no events to acknowledge.
///
/// Errors: the reply that refuses the acknowledgement.
#[inline(never)]
fn decide_ack<A: Allocator + Copy>(
    configuration: &Configuration<A>,
    history: &History<A>,
    tables: &Tables<A>,
    call: &Entry<A>,
    upto: u64,
) -> Result<Decision<A>, Reply<A>>
    requires stands { ManagerStands configuration.now history.now.entries tables.now }
    requires kind { kind_of call.now.request ≡ OfEvents upto }
    ensures { MatchResult result (IsDecided configuration.now history.now.entries tables.now call.now) (IsRefused configuration.now history.now.entries call.now) }
{
    let place = place_of(configuration.peers(), call.ae);
    let made = made_at(tables, place);
    let acked = acked_at(tables, place);
    let reply = acknowledged(made, acked, upto);
    if accepts(&reply) {
        let Some(peer) = place else {
            unreachable!();
        };
        Ok(Decision {
            reply,
            plan: Plan::Ack { peer, upto },
            change: IndexChange::Nothing,
        })
    } else {
        Err(reply)
    }
}

/// Decides about a sweep: which of the held steps it removes.
///
/// Errors: the reply that it removes none, or that memory ran out.
#[inline(never)]
fn decide_sweep<A: Allocator + Copy>(
    alloc: A,
    configuration: &Configuration<A>,
    history: &History<A>,
    tables: &Tables<A>,
    call: &Entry<A>,
) -> Result<Decision<A>, Reply<A>>
    requires stands { ManagerStands configuration.now history.now.entries tables.now }
    requires kind { kind_of call.now.request ≡ OfTime }
    ensures { MatchResult result (IsDecided configuration.now history.now.entries tables.now call.now) (IsRefused configuration.now history.now.entries call.now) }
{
    let Ok(plan) = plan_sweep(alloc, configuration, history, tables, call) else {
        return Err(Reply::Status(Status::ResourceLimitation));
    };
    let count = plan.swept() as u64;
    if count == 0 {
        return Err(Reply::Swept(count));
    }
    Ok(Decision {
        reply: Reply::Swept(count),
        plan,
        change: IndexChange::Remove,
    })
}

/// Decides about the reservation of a UID. It is always accepted, and takes no memory.
fn decide_reserve<A: Allocator + Copy>(
    configuration: &Configuration<A>,
    history: &History<A>,
    tables: &Tables<A>,
    call: &Entry<A>,
    step: StepUid,
) -> Decision<A>
    requires stands { ManagerStands configuration.now history.now.entries tables.now }
    requires kind { kind_of call.now.request ≡ OfUid step }
    ensures { IsDecided configuration.now history.now.entries tables.now call.now result }
{
    Decision {
        reply: Reply::Status(Status::Success),
        plan: Plan::Reserve { step },
        change: IndexChange::Nothing,
    }
}

/// Decides about a call, provided that the history has room for it.
///
/// Errors: the reply that refuses the call, or that says that memory ran out.
pub(crate) fn decide<A: Allocator + Copy>(
    alloc: A,
    configuration: &Configuration<A>,
    history: &History<A>,
    tables: &Tables<A>,
    call: &Entry<A>,
) -> Result<Decision<A>, Reply<A>>
    requires moment { IsMoment call.now.moment }
    requires stands { ManagerStands configuration.now history.now.entries tables.now }
    ensures { MatchResult result (IsDecided configuration.now history.now.entries tables.now call.now) (IsRefused configuration.now history.now.entries call.now) }
{
    match kind_of(&call.request) {
        Kind::OfStep => decide_step(alloc, configuration, history, tables, call),
        Kind::OfWatcher => decide_watcher(alloc, configuration, history, tables, call),
        Kind::OfEvents(upto) => decide_ack(configuration, history, tables, call, upto),
        Kind::OfTime => decide_sweep(alloc, configuration, history, tables, call),
        Kind::OfUid(step) => Ok(decide_reserve(configuration, history, tables, call, step)),
    }
}
