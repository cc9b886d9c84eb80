//! The decision on a request: the life cycle of a step.

ghost use Rattle.std.specs.Prelude.{◌≡◌, Option, codes};
ghost use Rattle.std.specs.Option.{option_copied};
ghost use Rattle.ups_dataset.specs.Data.{element_at};
ghost use Rattle.ups_dataset.specs.View.{value_view};
ghost use Rattle.ups_life.specs.Values.{is_text, is_blank_value, says, is_blank};
ghost use Rattle.ups_life.specs.Verdict.{create_status, is_proper, is_given, is_right, change_status, gives_fixed, set_attributes_status, update_status, if_held, verdict};
ghost use Rattle.ups_cycle.specs.declared.status.Status.TheVariants.{Success};

use crate::checks::{first_fault, first_given_fault};
use crate::values::{is_discontinued, is_performed};
use std::alloc::Allocator;
use ups_cycle::{
    Status, StepState, cancel_status, claim_status, complete_status, discontinue_status,
    set_status, wrong_status,
};
use ups_dataset::dictionary::{
    PROCEDURE_STEP_STATE, SOP_CLASS_UID, SOP_INSTANCE_UID, TRANSACTION_UID,
};
use ups_dataset::{DataSet, Value};
use ups_life::{CHECKED, Place, Request, Row, Target, Transaction};
use ups_pdu::{Uid, without_padding};

fn is_text<A: Allocator + Copy>(value: &Value<A>, text: &[u8]) -> bool
    ensures { result ≡ is_text text.now (value_view value.now) }
{
    match value {
        Value::Bytes(bytes) => without_padding(bytes.as_slice()) == text,
        Value::Items(_) => false,
    }
}

fn is_blank_value<A: Allocator + Copy>(value: &Value<A>) -> bool
    ensures { result ≡ is_blank_value (value_view value.now) }
{
    match value {
        Value::Bytes(bytes) => without_padding(bytes.as_slice()).is_empty(),
        Value::Items(_) => false,
    }
}

/// Returns the status of the attributes of a Create (PS3.4 CC.2.5): its state is checked first, then its Transaction
/// UID, then the checked attributes by rising tag.
fn create_status<A: Allocator + Copy>(attributes: &DataSet<A>) -> Status
    ensures { result ≡ create_status attributes.now }
{
    let scheduled = match attributes.get(PROCEDURE_STEP_STATE) {
        Some(state) => is_text(&state.value, b"SCHEDULED"),
        None => false,
    };
    if !scheduled {
        return Status::NotScheduled;
    }
    let unclaimed = match attributes.get(TRANSACTION_UID) {
        Some(transaction) => is_blank_value(&transaction.value),
        None => true,
    };
    if !unclaimed {
        return Status::InvalidAttributeValue;
    }
    first_fault(&CHECKED, attributes)
}

/// Returns whether a Transaction UID is a UID.
fn is_proper(transaction: &Transaction) -> bool
    ensures { result ≡ is_proper transaction.now }
{
    match transaction {
        Transaction::Absent | Transaction::Malformed => false,
        Transaction::Proper(_) => true,
    }
}

/// Returns whether there is a Transaction UID, even one that is not a UID.
fn is_given(transaction: &Transaction) -> bool
    ensures { result ≡ is_given transaction.now }
{
    match transaction {
        Transaction::Absent => false,
        Transaction::Malformed | Transaction::Proper(_) => true,
    }
}

/// Returns whether a Transaction UID is that of the claim.
fn is_right(claimed: &Option<Uid>, transaction: &Transaction) -> bool
    ensures { result ≡ is_right claimed.now transaction.now }
{
    match (claimed, transaction) {
        (Some(right), Transaction::Proper(uid)) => uid.as_bytes() == right.as_bytes(),
        _ => false,
    }
}

/// Returns the status of a change of a step to a state (PS3.4 CC.2.1).
fn change_status<A: Allocator + Copy>(
    row: &Row<A>,
    state: StepState,
    transaction: &Transaction,
) -> Status
    ensures { result ≡ change_status row.now state transaction.now }
{
    let proper = is_proper(transaction);
    let right = is_right(&row.transaction, transaction);
    match state {
        StepState::Scheduled => Status::ScheduledByCreateAlone,
        StepState::InProgress if proper => claim_status(row.state),
        StepState::InProgress => Status::WrongTransactionUid,
        StepState::Completed if right => {
            complete_status(is_performed(&row.attributes), row.state)
        }
        StepState::Canceled if right => {
            discontinue_status(is_discontinued(&row.attributes), row.state)
        }
        StepState::Completed | StepState::Canceled => wrong_status(proper, row.state),
    }
}

/// Returns whether an N-SET gives the class, the instance or the state of its step.
fn gives_fixed<A: Allocator + Copy>(attributes: &DataSet<A>) -> bool
    ensures { result ≡ gives_fixed attributes.now }
{
    attributes.get(SOP_CLASS_UID).is_some()
        || attributes.get(SOP_INSTANCE_UID).is_some()
        || attributes.get(PROCEDURE_STEP_STATE).is_some()
}

/// Returns the status of the attributes of an N-SET (PS3.4 CC.2.6).
fn set_attributes_status<A: Allocator + Copy>(attributes: &DataSet<A>) -> Status
    ensures { result ≡ set_attributes_status attributes.now }
{
    if gives_fixed(attributes) {
        return Status::InvalidAttributeValue;
    }
    first_given_fault(&CHECKED, attributes)
}

/// Returns the status of an N-SET on a step (PS3.4 CC.2.6).
fn update_status<A: Allocator + Copy>(
    row: &Row<A>,
    transaction: &Transaction,
    attributes: &DataSet<A>,
) -> Status
    ensures { result ≡ update_status row.now transaction.now attributes.now }
{
    let right = is_right(&row.transaction, transaction);
    match set_status(right, is_given(transaction), row.state) {
        Status::Success => set_attributes_status(attributes),
        status => status,
    }
}

/// Returns the status of a request that is allowed on each held step, and on no other.
fn held_status<A: Allocator + Copy>(row: Option<&Row<A>>) -> Status
    ensures { result ≡ if_held (option_copied row.entry) (λ _. Success) }
{
    if row.is_some() {
        Status::Success
    } else {
        Status::UnknownInstance
    }
}

/// Returns the status of a request, decided by what is known of the step that it names: what is held of it, and whether
/// its UID was ever used (PS3.4 CC.2.1 to CC.2.3, CC.2.5, CC.2.6). It does not consider the peers, nor the room that is
/// left.
pub fn verdict<A: Allocator + Copy>(
    row: Option<&Row<A>>,
    used: bool,
    request: &Request<A>,
) -> Status
    ensures { result ≡ verdict (option_copied row.entry) used request.now }
{
    match (request, row) {
        (Request::Create { .. }, _) if used => Status::DuplicateSopInstance,
        (Request::Create { attributes, .. }, _) => create_status(attributes),
        (
            Request::Subscribe {
                target: Target::Single(_),
                ..
            }
            | Request::Unsubscribe {
                place: Place::At(_),
                ..
            },
            _,
        ) => held_status(row),
        (
            Request::Subscribe { .. }
            | Request::Unsubscribe { .. }
            | Request::Suspend { .. }
            | Request::Ack { .. }
            | Request::Sweep
            | Request::Reserve { .. },
            _,
        ) => Status::Success,
        (_, None) => Status::UnknownInstance,
        (
            Request::Change {
                state,
                transaction,
                ..
            },
            Some(row),
        ) => { change_status(row, *state, transaction) }
        (Request::AskCancel { .. }, Some(row)) => cancel_status(row.state),
        (
            Request::Set {
                transaction,
                attributes,
                ..
            },
            Some(row),
        ) => update_status(row, transaction, attributes),
    }
}
