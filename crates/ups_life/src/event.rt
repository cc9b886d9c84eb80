//! The events that watchers are told of.

use crate::readiness::InputReadiness;
use crate::step::StepUid;
use ups_cycle::StepState;

/// The type of an event (PS3.4 CC.2.4).
#[derive(Clone, Copy, Debug, PartialEq, Eq)]
pub enum EventKind {
    /// UPS State Report: the state of a step, and the readiness of its input. Event type 1.
    StateReport,
    /// UPS Cancel Requested: the performer of a step is asked to cancel it. Event type 2.
    CancelRequested,
    /// UPS Progress Report: the progress of a step. Event type 3.
    ProgressReport,
    /// UPS Assigned: who is to perform a step. Event type 5.
    Assigned,
}

/// A report that a request causes for each watcher of a step (PS3.4 CC.2.4).
#[derive(Clone, Copy)]
pub struct Report {
    /// The type of the event.
    pub kind: EventKind,
    /// The instance UID of the step.
    pub step: StepUid,
    /// The state of the step after the request.
    pub state: StepState,
    /// The readiness of the step's input after the request.
    pub readiness: Option<InputReadiness>,
}

/// An event that is reported to one watcher (PS3.4 CC.2.4).
#[derive(Clone, Copy)]
pub struct Event {
    /// The number of the event: the events of each watcher are numbered from 1.
    pub number: u64,
    /// The index in the history, from 0, of the request that caused the event.
    pub entry: u64,
    /// The type of the event.
    pub kind: EventKind,
    /// The instance UID of the step.
    pub step: StepUid,
    /// The state of the step after the request.
    pub state: StepState,
    /// The readiness of the step's input after the request, or None if the step's attributes name none, which is never
    /// so for a held step.
    pub readiness: Option<InputReadiness>,
}
