//! The requests to the service, and its replies.

use crate::event_reports::EventReports;
use crate::sets::Sets;
use crate::step::StepUid;
use crate::watching::{Place, Target};
use std::alloc::Allocator;
use ups_cycle::{Status, StepState};
use ups_dataset::DataSet;
use ups_dimse::Tags;
use ups_match::Keys;
use ups_pdu::{Ae, Uid};

/// The Transaction UID (0008,1195) of a request. Whoever knows that of a step's claim is its performer (PS3.4 CC.1.1).
#[derive(Clone, Copy)]
pub enum Transaction {
    /// It is absent or has no value.
    Absent,
    /// It is not a valid UID.
    Malformed,
    /// It is this UID.
    Proper(Uid),
}

/// A well-formed request that changes what the service holds.
#[derive(Drop)]
pub enum Request<A: Allocator + Copy> {
    /// Creates a step with these attributes (N-CREATE, PS3.4 CC.2.5).
    Create {
        /// The instance UID of the step.
        step: StepUid,
        /// The attributes as they were sent.
        attributes: DataSet<A>,
    },
    /// Changes the state of a step (N-ACTION type 1, PS3.4 CC.2.1).
    Change {
        /// The instance UID of the step, or None if it is absent, malformed or well known.
        step: Option<StepUid>,
        /// The new state of the step.
        state: StepState,
        /// The Transaction UID that was sent.
        transaction: Transaction,
    },
    /// Asks that a step be canceled (N-ACTION type 2, PS3.4 CC.2.2).
    AskCancel {
        /// The instance UID of the step, or None if it is absent, malformed or well known.
        step: Option<StepUid>,
        /// The attributes as they were sent: the reason, and whom to contact about it.
        reasons: DataSet<A>,
    },
    /// Sets attributes of a step (N-SET, PS3.4 CC.2.6).
    Set {
        /// The instance UID of the step, or None if it is absent, malformed or well known.
        step: Option<StepUid>,
        /// The Transaction UID that was sent.
        transaction: Transaction,
        /// The attributes as they were sent.
        attributes: DataSet<A>,
    },
    /// Subscribes a watcher (N-ACTION type 3, PS3.4 CC.2.3).
    Subscribe {
        /// The target of the subscription.
        target: Target<A>,
        /// The watcher: the Receiving AE (0074,1234).
        receiver: Ae,
        /// Whether the steps are to be locked against removal: the Deletion Lock (0074,1230).
        lock: bool,
    },
    /// Ends subscriptions of a watcher (N-ACTION type 4, PS3.4 CC.2.3).
    Unsubscribe {
        /// The steps for which they end.
        place: Place,
        /// The watcher: the Receiving AE (0074,1234).
        receiver: Ae,
    },
    /// Ends the global subscription of a watcher, which stays subscribed to each step that it is subscribed to
    /// (N-ACTION type 5, PS3.4 CC.2.3).
    Suspend {
        /// The watcher: the Receiving AE (0074,1234).
        receiver: Ae,
    },
    /// Acknowledges the events of the requesting application entity up to a number.
    Ack {
        /// The number of the last acknowledged event.
        upto: u64,
    },
    /// Removes each step that has been final for as long as steps are kept, and that no watcher has locked.
    Sweep,
    /// Reserves the instance UID of a step, so that no step is created under it (PS3.4 CC.2.5). No message asks for it:
    /// a compaction enters it in the place of the creation of a step of which nothing else is kept.
    Reserve {
        /// The instance UID.
        step: StepUid,
    },
}

impl<A: Allocator + Copy> Request<A> {
    ghost use Rattle.std.specs.Prelude.{◌≡◌};
    ghost use Rattle.ups_life.specs.Steps.{step_of, named_step};
    ghost use Rattle.ups_life.specs.History.{receiver_of};
    ghost use Rattle.ups_life.specs.Telling.{IsWellFormed};

    /// Returns the instance UID of the step that the request creates or changes, or None if it is absent, malformed or
    /// well known, or if the request is not on a step.
    pub fn step(&self) -> Option<StepUid>
        ensures { result ≡ step_of self.now }
    {
        match self {
            Request::Create { step, .. } => Some(*step),
            Request::Change { step, .. }
            | Request::AskCancel { step, .. }
            | Request::Set { step, .. } => *step,
            Request::Subscribe { .. }
            | Request::Unsubscribe { .. }
            | Request::Suspend { .. }
            | Request::Ack { .. }
            | Request::Sweep
            | Request::Reserve { .. } => None,
        }
    }

    /// Returns the instance UID of the step that the request names: its step, or that of a single subscription.
    pub fn named_step(&self) -> Option<StepUid>
        ensures { result ≡ named_step self.now }
    {
        match self {
            Request::Subscribe {
                target: Target::Single(step),
                ..
            }
            | Request::Unsubscribe {
                place: Place::At(step),
                ..
            } => *step,
            _ => self.step(),
        }
    }

    /// Returns the watcher that the request is for, if any (PS3.4 CC.2.3).
    pub fn receiver(&self) -> Option<Ae>
        ensures { result ≡ receiver_of self.now }
    {
        match self {
            Request::Subscribe { receiver, .. }
            | Request::Unsubscribe { receiver, .. }
            | Request::Suspend { receiver } => Some(*receiver),
            _ => None,
        }
    }

    /// Does nothing at run time: its contract tells a proof that what is sent with the request is a data set, that a
    /// new step has the UID of a step, and that a filter has a key that is not universal.
    pub fn is_well_formed(&self)
        ensures { IsWellFormed self.now }
    {
        match self {
            Request::Create { step, attributes } => {
                let _bytes = step.as_bytes();
                attributes.is_a_data_set();
            }
            Request::AskCancel { reasons, .. } => reasons.is_a_data_set(),
            Request::Set { attributes, .. } => attributes.is_a_data_set(),
            Request::Subscribe {
                target: Target::Filtered(filter),
                ..
            } => {
                let _keys = filter.keys();
            }
            _ => {}
        }
    }
}

/// A request or a query to the service.
#[derive(Drop)]
pub enum Ask<A: Allocator + Copy> {
    /// Carries out a request.
    Do(Request<A>),
    /// Shows attributes of a step, or all of them if the list is empty (N-GET, PS3.4 CC.2.7).
    Get {
        /// The instance UID of the step, or None if it is absent, malformed or well known.
        step: Option<StepUid>,
        /// The tags of the attributes.
        attributes: Tags<A>,
    },
    /// Finds the steps that match keys (C-FIND, PS3.4 sections CC.2.8 and C.4.1).
    Find(Keys<A>),
    /// Lists the events that are pending for the requesting application entity, oldest first: those that it has not
    /// acknowledged, and that no later State Report of the same step supersedes.
    Pending {
        /// The maximum number of events listed.
        max: u64,
    },
}

/// A reply of the service.
#[derive(Drop)]
pub enum Reply<A: Allocator + Copy> {
    /// A status alone.
    Status(Status),
    /// A status and attributes of a step.
    Set(Status, DataSet<A>),
    /// The requested attributes of each step found, in order of creation.
    Sets(Sets<A>),
    /// The number of steps that a sweep removed.
    Swept(u64),
    /// The application entity acknowledges a greater number than any of its events has.
    AckAhead,
    /// The application entity has already acknowledged this number or a greater one.
    AckStale,
    /// Pending events, each with its Event Information, oldest first.
    Reports(EventReports<A>),
}
