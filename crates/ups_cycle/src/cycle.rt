//! The changes of state that a step accepts.

ghost use Rattle.std.specs.Prelude.{◌≡◌};
ghost use Rattle.ups_cycle.specs.Cycle.{claim_status, complete_status, discontinue_status, wrong_status, cancel_status, set_status};

use crate::state::StepState;
use crate::status::Status;

// THE LIFE CYCLE (PS3.4 CC.1.1, CC.2.1, CC.2.2): each function is a row of its table, each arm a cell.

/// Returns the status of a change to IN PROGRESS, with a proper Transaction UID.
pub fn claim_status(state: StepState) -> Status
    ensures { result ≡ claim_status state }
{
    match state {
        StepState::Scheduled => Status::Success,
        StepState::InProgress => Status::AlreadyInProgress,
        StepState::Completed => Status::NoLongerUpdatable,
        StepState::Canceled => Status::NoLongerUpdatable,
    }
}

/// Returns the status of a change to COMPLETED, with the right Transaction UID; `performed` is whether the requirements
/// of COMPLETED are met.
pub fn complete_status(performed: bool, state: StepState) -> Status
    ensures { result ≡ complete_status performed state }
{
    match state {
        StepState::Scheduled => Status::NotInProgress,
        StepState::InProgress if performed => Status::Success,
        StepState::InProgress => Status::FinalStateNotMet,
        StepState::Completed => Status::AlreadyCompleted,
        StepState::Canceled => Status::NoLongerUpdatable,
    }
}

/// Returns the status of a change to CANCELED, with the right Transaction UID; `discontinued` is whether the
/// requirements of CANCELED are met.
pub fn discontinue_status(discontinued: bool, state: StepState) -> Status
    ensures { result ≡ discontinue_status discontinued state }
{
    match state {
        StepState::Scheduled => Status::NotInProgress,
        StepState::InProgress if discontinued => Status::Success,
        StepState::InProgress => Status::FinalStateNotMet,
        StepState::Completed => Status::NoLongerUpdatable,
        StepState::Canceled => Status::AlreadyCanceled,
    }
}

/// Returns the status of a change to a final state, with a wrong Transaction UID or none; `proper` is whether it is a
/// UID.
pub fn wrong_status(proper: bool, state: StepState) -> Status
    ensures { result ≡ wrong_status proper state }
{
    match state {
        StepState::Scheduled if proper => Status::NotInProgress,
        StepState::Scheduled => Status::WrongTransactionUid,
        StepState::InProgress => Status::WrongTransactionUid,
        StepState::Completed => Status::WrongTransactionUid,
        StepState::Canceled => Status::WrongTransactionUid,
    }
}

/// Returns the status of a request to cancel.
pub fn cancel_status(state: StepState) -> Status
    ensures { result ≡ cancel_status state }
{
    match state {
        StepState::Scheduled => Status::Success,
        StepState::InProgress => Status::Success,
        StepState::Completed => Status::TooLateToCancel,
        StepState::Canceled => Status::AlreadyCanceled,
    }
}

/// Returns the status of an N-SET; `right` is whether its Transaction UID is that of the claim, `given` whether it has
/// one.
pub fn set_status(right: bool, given: bool, state: StepState) -> Status
    ensures { result ≡ set_status right given state }
{
    match state {
        StepState::Scheduled if given => Status::NotInProgress,
        StepState::Scheduled => Status::Success,
        StepState::InProgress if right => Status::Success,
        StepState::InProgress => Status::WrongTransactionUid,
        StepState::Completed => Status::NoLongerUpdatable,
        StepState::Canceled => Status::NoLongerUpdatable,
    }
}
