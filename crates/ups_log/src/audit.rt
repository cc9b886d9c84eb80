//! The lines of the audit: who did what to which step, in a form that programs read.

use crate::account::Account;
use crate::journal::title_of;
use log::{Log, info};
use std::alloc::Global;
use std::{fmt, str};
use ups_cycle::{Status, StepState};
use ups_dataset::{DataSet, Tag};
use ups_life::{Ask, Place, Reply, Request, StepUid, Target};
use ups_pdu::{Ae, RegisteredUid, Uid};

/// The maximum number of tags in a line.
const MOST: usize = 64;

/// The tags of attributes, as a line shows them: each with a space before it, and how many more there are.
#[derive(Drop)]
struct TagList {
    tags: Vec<Tag>,
    more: u64,
}

impl TagList {
    /// Creates the list of the tags of these attributes. Leaves out those beyond `MOST`, or for which memory runs out.
    fn of(attributes: &DataSet<Global>) -> TagList {
        let mut found = TagList {
            tags: Vec::new(attributes.allocator()),
            more: 0,
        };
        for element in attributes.elements() {
            found.add(element.tag);
        }
        found
    }

    /// Appends a tag, or counts it as left out.
    fn add(&mut self, tag: Tag) {
        if self.tags.len() >= MOST || self.tags.push(tag).is_err() {
            self.more = self.more.saturating_add(1);
        }
    }
}

impl fmt::Display for TagList {
    fn fmt<W: fmt::Write>(&self, f: &mut fmt::Formatter<W>) -> fmt::Result {
        for tag in self.tags.iter() {
            let Tag { group, element } = tag;
            write!(f, " ({group:04X},{element:04X})")?;
        }
        if self.more > 0 {
            write!(f, " and {} more", self.more)?;
        }
        Ok(())
    }
}

/// What a peer asks for.
#[derive(Drop)]
enum Deed {
    Create,
    /// A change to this state.
    Change(StepState),
    Cancel,
    /// An N-SET of these attributes.
    Set(TagList),
    /// A subscription of this watcher, and whether with a Deletion Lock.
    Subscribe(Ae, bool),
    /// The end of subscriptions of this watcher.
    Unsubscribe(Ae),
    /// The end of the global subscription of this watcher.
    Suspend(Ae),
    Get,
    /// A query with these keys.
    Find(TagList),
}

/// What a peer asks for, and the SOP Instance UID that it names. It keeps no value of an attribute but the state.
#[derive(Drop)]
pub struct AuditedAsk {
    instance: Option<Uid>,
    deed: Deed,
}

/// Returns the UID of a step.
fn uid_of(step: Option<StepUid>) -> Option<Uid> {
    match step {
        Some(step) => Some(step.uid()),
        None => None,
    }
}

/// Returns the instance UID that a subscription to a target names (PS3.4 CC.2.3).
fn target_uid(target: &Target<Global>) -> Option<Uid> {
    match target {
        Target::Single(step) => uid_of(*step),
        Target::Global => Some(RegisteredUid::GlobalSubscription.uid()),
        Target::Filtered(_) => Some(RegisteredUid::FilteredGlobalSubscription.uid()),
    }
}

/// Returns the instance UID of the place of subscriptions that end: that of the global subscription for every step.
fn place_uid(place: Place) -> Option<Uid> {
    match place {
        Place::At(step) => uid_of(step),
        Place::Everywhere => Some(RegisteredUid::GlobalSubscription.uid()),
    }
}

/// Returns the deed of a request, or None if it is none of a peer's.
fn deed_of(request: &Request<Global>) -> Option<Deed> {
    match request {
        Request::Create { .. } => Some(Deed::Create),
        Request::Change { state, .. } => Some(Deed::Change(*state)),
        Request::AskCancel { .. } => Some(Deed::Cancel),
        Request::Set { attributes, .. } => Some(Deed::Set(TagList::of(attributes))),
        Request::Subscribe { receiver, lock, .. } => Some(Deed::Subscribe(*receiver, *lock)),
        Request::Unsubscribe { receiver, .. } => Some(Deed::Unsubscribe(*receiver)),
        Request::Suspend { receiver } => Some(Deed::Suspend(*receiver)),
        Request::Ack { .. } | Request::Sweep | Request::Reserve { .. } => None,
    }
}

/// Returns the instance UID that a request names.
fn instance_of(request: &Request<Global>) -> Option<Uid> {
    match request {
        Request::Subscribe { target, .. } => target_uid(target),
        Request::Unsubscribe { place, .. } => place_uid(*place),
        Request::Suspend { .. } => Some(RegisteredUid::GlobalSubscription.uid()),
        _ => uid_of(request.step()),
    }
}

impl AuditedAsk {
    /// Returns what a line says of an ask, or None if no peer asks so.
    pub fn of(ask: &Ask<Global>) -> Option<AuditedAsk> {
        let (instance, deed) = match ask {
            Ask::Do(request) => (instance_of(request), deed_of(request)?),
            Ask::Get { step, .. } => (uid_of(*step), Deed::Get),
            Ask::Find(keys) => (None, Deed::Find(TagList::of(keys.attributes()))),
            Ask::Pending { .. } => return None,
        };
        Some(AuditedAsk { instance, deed })
    }

    /// Returns the name of the operation.
    fn name(&self) -> &'static str {
        match &self.deed {
            Deed::Create => "Create",
            Deed::Change(_) => "Change",
            Deed::Cancel => "Cancel",
            Deed::Set(_) => "Set",
            Deed::Subscribe(..) => "Subscribe",
            Deed::Unsubscribe(_) => "Unsubscribe",
            Deed::Suspend(_) => "Suspend",
            Deed::Get => "Get",
            Deed::Find(_) => "Find",
        }
    }
}

/// The reply to an ask that is accepted.
#[derive(Clone, Copy)]
struct Acceptance {
    status: Status,
    /// The number of answers to a query.
    answers: usize,
}

/// Returns the acceptance of an ask with this reply, or None if it is refused.
fn acceptance_of(reply: &Reply<Global>) -> Option<Acceptance> {
    let (status, answers) = match reply {
        Reply::Status(status) if status.is_done() => (*status, 0),
        Reply::Set(status, _) => (*status, 0),
        Reply::Sets(sets) => (Status::Success, sets.as_slice().len()),
        _ => return None,
    };
    Some(Acceptance { status, answers })
}

/// Returns the state of a step before an accepted change to `state` (PS3.4 CC.1.1).
fn state_before(state: StepState) -> StepState {
    match state {
        StepState::Scheduled | StepState::InProgress => StepState::Scheduled,
        StepState::Completed | StepState::Canceled => StepState::InProgress,
    }
}

/// Returns a state as text.
fn text_of(state: StepState) -> &'static str {
    str::from_utf8(state.text()).unwrap_or("")
}

/// What was done, as the end of a line shows it.
#[derive(Clone, Copy)]
struct Done<'a> {
    deed: &'a Deed,
    acceptance: Acceptance,
}

impl<'a> fmt::Display for Done<'a> {
    fn fmt<W: fmt::Write>(&self, f: &mut fmt::Formatter<W>) -> fmt::Result {
        match self.deed {
            Deed::Create | Deed::Get => Ok(()),
            Deed::Change(state) => {
                let before = text_of(state_before(*state));
                write!(f, ", {before} to {}", text_of(*state))
            }
            Deed::Cancel => write!(f, ", asks for CANCELED"),
            Deed::Set(tags) => write!(f, ", sets{tags}"),
            Deed::Subscribe(receiver, is_locking) => {
                let is_locked = *is_locking && self.acceptance.status == Status::Success;
                let lock = if is_locked { "lock " } else { "" };
                write!(f, ", {lock}for {}", title_of(receiver))
            }
            Deed::Unsubscribe(receiver) | Deed::Suspend(receiver) => {
                write!(f, ", for {}", title_of(receiver))
            }
            Deed::Find(tags) => write!(f, ", {} answers{tags}", self.acceptance.answers),
        }
    }
}

/// Tells the account of an association under which title the service knows the peer, and logs what was done for it, unless
/// the reply refuses it. `number` is the number of accepted requests behind the answer: of an accepted request, its own.
pub fn tell_done<R: Log>(
    rt: &R,
    account: &Account<'_>,
    ae: Ae,
    number: u64,
    asked: &AuditedAsk,
    reply: &Reply<Global>,
) {
    account.know(ae);
    let Some(acceptance) = acceptance_of(reply) else {
        return;
    };
    let name = asked.name();
    let instance = match &asked.instance {
        Some(uid) => str::from_utf8(uid.as_bytes()).unwrap_or("-"),
        None => "-",
    };
    let status = acceptance.status.code();
    let deed = &asked.deed;
    let done = Done { deed, acceptance };
    info!(rt; target: "upsd", "audit: {name} {account}, {instance}, {status:04X}{done}, at {number}");
}

/// Logs how many steps a sweep of the server with this title removed, if it is asked to and there are any. `number` is
/// the number of accepted requests up to the sweep.
pub fn tell_swept<R: Log>(rt: &R, is_audited: bool, ae: Ae, number: u64, reply: &Reply<Global>) {
    match reply {
        Reply::Swept(steps) if is_audited && *steps > 0 => {
            let title = title_of(&ae);
            info!(rt; target: "upsd", "audit: Sweep {title}, {steps} steps, at {number}");
        }
        _ => {}
    }
}
