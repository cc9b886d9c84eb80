//! Reading asks from messages.

ghost use Rattle.std.specs.Prelude.{◌≡◌, ◌⊎◌, List, Option, Ok, Err, IfErr, MatchResult};
ghost use Rattle.ups_dataset.specs.Data.{El, element_at};
ghost use Rattle.ups_dataset.specs.View.{value_view};
ghost use Rattle.ups_dimse.specs.declared.command.Operation.{Operation};
ghost use Rattle.ups_match.specs.Matching.{fault_of};
ghost use Rattle.ups_life.specs.declared.request.Ask.{Ask};
ghost use Rattle.ups_life.specs.Asking.{transaction_value, transaction_of, named_state, changed, asked_cancel, acted, finds, asked};
ghost use Rattle.ups_cycle.specs.declared.status.Status.TheVariants.{ResourceLimitation};

use crate::actions::{CHANGE_STATE, REQUEST_CANCEL, SUBSCRIBE, SUSPEND, UNSUBSCRIBE};
use crate::instances::{is_subscription, step_in};
use crate::request::{Ask, Request, Transaction};
use crate::subscribing::{subscribed, suspended, unsubscribed};
use std::alloc::Allocator;
use ups_cycle::{Status, StepState};
use ups_dataset::dictionary::{PROCEDURE_STEP_STATE, TRANSACTION_UID};
use ups_dataset::{DataSet, Value};
use ups_dimse::{Operation, Tags};
use ups_match::Keys;
use ups_pdu::{Uid, without_padding};

/// Returns the Transaction UID of a value.
fn transaction_value<A: Allocator + Copy>(value: &Value<A>) -> Transaction
    ensures { result ≡ transaction_value (value_view value.now) }
{
    let Value::Bytes(bytes) = value else {
        return Transaction::Malformed;
    };
    if without_padding(bytes.as_slice()).is_empty() {
        return Transaction::Absent;
    }
    match Uid::of(bytes.as_slice()) {
        Some(uid) => Transaction::Proper(uid),
        None => Transaction::Malformed,
    }
}

/// Returns the Transaction UID (0008,1195) of a data set.
fn transaction_of<A: Allocator + Copy>(attributes: &DataSet<A>) -> Transaction
    ensures { result ≡ transaction_of (element_at TRANSACTION_UID attributes.now) }
{
    match attributes.get(TRANSACTION_UID) {
        Some(element) => transaction_value(&element.value),
        None => Transaction::Absent,
    }
}

/// Returns the state that a data set names, or None if it names none.
fn named_state<A: Allocator + Copy>(attributes: &DataSet<A>) -> Option<StepState>
    ensures { result ≡ named_state (element_at PROCEDURE_STEP_STATE attributes.now) }
{
    match &attributes.get(PROCEDURE_STEP_STATE)?.value {
        Value::Bytes(bytes) => StepState::of(bytes.as_slice()),
        Value::Items(_) => None,
    }
}

/// Returns what a Change UPS State asks (PS3.4 CC.2.1).
///
/// Errors: C314 for a global subscription, which is not a step; 0115 if no state is named.
fn changed<A: Allocator + Copy>(
    instance: &Option<Uid>,
    attributes: &DataSet<A>,
) -> Result<Ask<A>, Status>
    ensures { result ≡ changed instance.now attributes.now }
{
    if is_subscription(instance) {
        return Err(Status::ActionNotAppropriate);
    }
    let Some(state) = named_state(attributes) else {
        return Err(Status::InvalidArgumentValue);
    };
    Ok(Ask::Do(Request::Change {
        step: step_in(instance),
        state,
        transaction: transaction_of(attributes),
    }))
}

/// Returns what a Request UPS Cancel asks (PS3.4 CC.2.2).
///
/// Errors: C314 for a global subscription, which is not a step.
fn canceled<A: Allocator + Copy>(
    instance: &Option<Uid>,
    reasons: DataSet<A>,
) -> Result<Ask<A>, Status>
    ensures { result ≡ asked_cancel instance.now reasons }
{
    if is_subscription(instance) {
        return Err(Status::ActionNotAppropriate);
    }
    Ok(Ask::Do(Request::AskCancel {
        step: step_in(instance),
        reasons,
    }))
}

/// Returns what an N-ACTION asks.
///
/// Errors: 0123 for a type other than these five; the errors of each.
fn acted<A: Allocator + Copy>(
    instance: &Option<Uid>,
    action: u16,
    attributes: DataSet<A>,
    offset: i16,
) -> Result<Ask<A>, Status>
    ensures { result ≡ acted offset instance.now action attributes }
{
    match action {
        CHANGE_STATE => changed(instance, &attributes),
        REQUEST_CANCEL => canceled(instance, attributes),
        SUBSCRIBE => subscribed(instance, attributes, offset),
        UNSUBSCRIBE => unsubscribed(instance, &attributes),
        SUSPEND => suspended(instance, &attributes),
        _ => Err(Status::NoSuchActionType),
    }
}

/// Returns what a C-FIND asks: the steps that match keys (PS3.4 sections CC.2.8 and C.4.1).
///
/// Errors: A900 if a key can't be read.
fn finds<A: Allocator + Copy>(attributes: DataSet<A>, offset: i16) -> Result<Ask<A>, Status>
    ensures { result ≡ finds offset attributes (fault_of offset attributes) }
{
    match Keys::of(attributes, offset) {
        Ok(keys) => Ok(Ask::Find(keys)),
        Err(_) => Err(Status::IdentifierMismatch),
    }
}

/// Returns what a message asks, by its operation and its data set, which is empty if it has none. `offset` is the
/// offset of the local time from UTC in minutes, positive to the east, for each DT of a key that has no offset of its
/// own.
///
/// Errors: 0117 if a step is to be created whose UID is absent, malformed or well known; for an N-ACTION (PS3.4 CC.2.1
/// to CC.2.3), 0123 for any type but 1 to 5, C314 for a change or a cancel of a global subscription, which is not a
/// step, and for the suspension of anything else, 0115 if a change names no state, if an action on subscriptions names
/// no Receiving AE, if a Deletion Lock is neither TRUE nor FALSE, and if a key of a filter can't be read, and 0114 if
/// all keys of a filter are universal; A900 if a key of a C-FIND can't be read (PS3.4 section C.4.1.1.4); 0211 for a
/// C-ECHO (PS3.4 annex A) and an N-EVENT-REPORT, which ask nothing of a step; 0213 if memory runs out, and only for a
/// message that asks something.
pub fn read_request<A: Allocator + Copy>(
    alloc: A,
    operation: &Operation<A>,
    attributes: DataSet<A>,
    offset: i16,
) -> Result<Ask<A>, Status>
    ensures asks { MatchResult result (λ ask. asked offset operation.now attributes ≡ Ok ask)
        (λ status. ((status ≡ ResourceLimitation) × (ask : Ask A) × (asked offset operation.now attributes ≡ Ok ask))
        ⊎ (asked offset operation.now attributes ≡ Err status)) }
{
    match operation {
        Operation::Create { instance } => match step_in(instance) {
            Some(step) => Ok(Ask::Do(Request::Create { step, attributes })),
            None => Err(Status::InvalidObjectInstance),
        },
        Operation::Get {
            instance,
            attributes,
        } => {
            let listed = Vec::from_slice(alloc, attributes.as_slice()).map_err(
                |_| Status::ResourceLimitation,
            )?;
            Ok(Ask::Get {
                step: step_in(instance),
                attributes: Tags::from_vec(listed),
            })
        }
        Operation::Set { instance } => Ok(Ask::Do(Request::Set {
            step: step_in(instance),
            transaction: transaction_of(&attributes),
            attributes,
        })),
        Operation::Action { instance, action } => acted(instance, *action, attributes, offset),
        Operation::Find { .. } => finds(attributes, offset),
        Operation::Echo | Operation::EventReport { .. } => Err(Status::UnrecognizedOperation),
    }
}
