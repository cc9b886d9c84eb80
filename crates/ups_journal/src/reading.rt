//! Reading the entry that a record stands for.

ghost use Rattle.std.specs.Prelude.{◌≡◌, ◌≢◌, ℕ, Bool, List, Option, None, Some, IfOk, MatchResult};
ghost use Rattle.ups_dataset.specs.Data.{El};
ghost use Rattle.ups_cycle.specs.declared.state.StepState.{StepState};
ghost use Rattle.ups_life.specs.declared.request.Request.{Request};
ghost use Rattle.ups_life.specs.declared.request.Request.TheVariants.{Create, Change, AskCancel, Set, Subscribe, Unsubscribe, Suspend, Ack, Sweep, Reserve};
ghost use Rattle.ups_life.specs.declared.request.Transaction.{Transaction};
ghost use Rattle.ups_life.specs.declared.watching.Target.{Target};
ghost use Rattle.ups_life.specs.declared.watching.Place.{Place};
ghost use Rattle.ups_life.specs.declared.entry.Entry.{Entry};
ghost use Rattle.ups_journal.specs.Columns.{target_instance, target_offset, target_set, place_instance, columns_of, recorded};
ghost use Rattle.ups_journal.specs.Writable.{IsWritableTarget, IsPlace, IsRecordable, IsWritableEntry};
ghost use Rattle.ups_journal.specs.declared.fault.RecordFault.TheVariants.{Memory};
ghost use Rattle.ups_journal.specs.declared.operation.RecordedOperation.TheVariants as operations;

use crate::fault::RecordFault;
use crate::operation::RecordedOperation;
use crate::record::{Columns, Record};
use crate::sets::stored_set;
use crate::targets::{is_instance, place_in, target_in};
use crate::texts::{one_step_in, receiver_in, step_in, title_in, transaction_in};
use std::alloc::Allocator;
use ups_life::{Entry, Request};
use ups_pdu::RegisteredUid;

/// Reads a creation.
///
/// Errors: BadColumns, BadInstance, BadSet, Memory.
fn create_in<A: Allocator + Copy>(alloc: A, columns: &Columns<A>) -> Result<Request<A>, RecordFault>
    requires { columns.now.operation ≡ operations.Create }
    ensures read { IfOk result (λ q. (columns_of q ≡ columns.now) × IsRecordable q) }
    ensures only { (step : List ℕ) → (attributes : List El) → IsRecordable {A = A} (Create step attributes) → columns_of {A = A} (Create step attributes) ≡ columns.now
        → MatchResult result (λ q. q ≡ Create step attributes) (λ f. f ≡ Memory) }
{
    let Columns {
        operation: _,
        instance: Some(instance),
        transaction_uid: None,
        state: None,
        receiver: None,
        deletion_lock: None,
        event: None,
        utc_offset: None,
        attributes: Some(attributes),
    } = columns
    else {
        return Err(RecordFault::BadColumns);
    };
    let Some(step) = one_step_in(instance.as_slice()) else {
        return Err(RecordFault::BadInstance);
    };
    let attributes = stored_set(alloc, attributes.as_slice())?;
    Ok(Request::Create { step, attributes })
}

/// Reads a change of state.
///
/// Errors: BadColumns, BadInstance, BadTransaction.
fn change_in<A: Allocator + Copy>(columns: &Columns<A>) -> Result<Request<A>, RecordFault>
    requires { columns.now.operation ≡ operations.Change }
    ensures read { IfOk result (λ q. (columns_of q ≡ columns.now) × IsRecordable q) }
    ensures only { (step : Option (List ℕ)) → (state : StepState) → (transaction : Transaction) → IsRecordable {A = A} (Change step state transaction) → columns_of {A = A} (Change step state transaction) ≡ columns.now
        → MatchResult result (λ q. q ≡ Change step state transaction) (λ f. f ≡ Memory) }
{
    let Columns {
        operation: _,
        instance,
        transaction_uid: transaction,
        state: Some(state),
        receiver: None,
        deletion_lock: None,
        event: None,
        utc_offset: None,
        attributes: None,
    } = columns
    else {
        return Err(RecordFault::BadColumns);
    };
    let step = step_in(instance)?;
    let transaction = transaction_in(transaction)?;
    Ok(Request::Change {
        step,
        state: *state,
        transaction,
    })
}

/// Reads a request to cancel.
///
/// Errors: BadColumns, BadInstance, BadSet, Memory.
fn ask_cancel_in<A: Allocator + Copy>(
    alloc: A,
    columns: &Columns<A>,
) -> Result<Request<A>, RecordFault>
    requires { columns.now.operation ≡ operations.AskCancel }
    ensures read { IfOk result (λ q. (columns_of q ≡ columns.now) × IsRecordable q) }
    ensures only { (step : Option (List ℕ)) → (reasons : List El) → IsRecordable {A = A} (AskCancel step reasons) → columns_of {A = A} (AskCancel step reasons) ≡ columns.now
        → MatchResult result (λ q. q ≡ AskCancel step reasons) (λ f. f ≡ Memory) }
{
    let Columns {
        operation: _,
        instance,
        transaction_uid: None,
        state: None,
        receiver: None,
        deletion_lock: None,
        event: None,
        utc_offset: None,
        attributes: Some(attributes),
    } = columns
    else {
        return Err(RecordFault::BadColumns);
    };
    let step = step_in(instance)?;
    let reasons = stored_set(alloc, attributes.as_slice())?;
    Ok(Request::AskCancel { step, reasons })
}

/// Reads an N-SET.
///
/// Errors: BadColumns, BadInstance, BadTransaction, BadSet, Memory.
fn set_in<A: Allocator + Copy>(alloc: A, columns: &Columns<A>) -> Result<Request<A>, RecordFault>
    requires { columns.now.operation ≡ operations.Set }
    ensures read { IfOk result (λ q. (columns_of q ≡ columns.now) × IsRecordable q) }
    ensures only { (step : Option (List ℕ)) → (transaction : Transaction) → (attributes : List El) → IsRecordable {A = A} (Set step transaction attributes) → columns_of {A = A} (Set step transaction attributes) ≡ columns.now
        → MatchResult result (λ q. q ≡ Set step transaction attributes) (λ f. f ≡ Memory) }
{
    let Columns {
        operation: _,
        instance,
        transaction_uid: transaction,
        state: None,
        receiver: None,
        deletion_lock: None,
        event: None,
        utc_offset: None,
        attributes: Some(attributes),
    } = columns
    else {
        return Err(RecordFault::BadColumns);
    };
    let step = step_in(instance)?;
    let transaction = transaction_in(transaction)?;
    let attributes = stored_set(alloc, attributes.as_slice())?;
    Ok(Request::Set {
        step,
        transaction,
        attributes,
    })
}

/// Reads a subscription.
///
/// Errors: BadColumns, BadInstance, BadReceiver, BadSet, BadKeys, Memory.
fn subscribe_in<A: Allocator + Copy>(
    alloc: A,
    columns: &Columns<A>,
) -> Result<Request<A>, RecordFault>
    requires { columns.now.operation ≡ operations.Subscribe }
    ensures read { IfOk result (λ q. (columns_of q ≡ columns.now) × IsRecordable q) }
    ensures only { (target : Target A) → (receiver : List ℕ) → (lock : Bool) → IsRecordable {A = A} (Subscribe target receiver lock) → columns_of {A = A} (Subscribe target receiver lock) ≡ columns.now
        → MatchResult result (λ q. q ≡ Subscribe target receiver lock) (λ f. f ≡ Memory) }
{
    let Columns {
        operation: _,
        instance,
        transaction_uid: None,
        state: None,
        receiver: Some(receiver),
        deletion_lock: Some(lock),
        event: None,
        utc_offset: offset,
        attributes,
    } = columns
    else {
        return Err(RecordFault::BadColumns);
    };
    let receiver = receiver_in(receiver.as_slice())?;
    let target = target_in(alloc, instance, offset, attributes)?;
    Ok(Request::Subscribe {
        target,
        receiver,
        lock: *lock,
    })
}

/// Reads the end of subscriptions.
///
/// Errors: BadColumns, BadInstance, BadReceiver.
fn unsubscribe_in<A: Allocator + Copy>(columns: &Columns<A>) -> Result<Request<A>, RecordFault>
    requires { columns.now.operation ≡ operations.Unsubscribe }
    ensures read { IfOk result (λ q. (columns_of q ≡ columns.now) × IsRecordable q) }
    ensures only { (place : Place) → (receiver : List ℕ) → IsRecordable {A = A} (Unsubscribe place receiver) → columns_of {A = A} (Unsubscribe place receiver) ≡ columns.now
        → MatchResult result (λ q. q ≡ Unsubscribe place receiver) (λ f. f ≡ Memory) }
{
    let Columns {
        operation: _,
        instance,
        transaction_uid: None,
        state: None,
        receiver: Some(receiver),
        deletion_lock: None,
        event: None,
        utc_offset: None,
        attributes: None,
    } = columns
    else {
        return Err(RecordFault::BadColumns);
    };
    let receiver = receiver_in(receiver.as_slice())?;
    let place = place_in(instance)?;
    Ok(Request::Unsubscribe { place, receiver })
}

/// Reads the end of a global subscription.
///
/// Errors: BadColumns, BadInstance, BadReceiver.
fn suspend_in<A: Allocator + Copy>(columns: &Columns<A>) -> Result<Request<A>, RecordFault>
    requires { columns.now.operation ≡ operations.Suspend }
    ensures read { IfOk result (λ q. (columns_of q ≡ columns.now) × IsRecordable q) }
    ensures only { (receiver : List ℕ) → IsRecordable {A = A} (Suspend receiver) → columns_of {A = A} (Suspend receiver) ≡ columns.now
        → MatchResult result (λ q. q ≡ Suspend receiver) (λ f. f ≡ Memory) }
{
    let Columns {
        operation: _,
        instance,
        transaction_uid: None,
        state: None,
        receiver: Some(receiver),
        deletion_lock: None,
        event: None,
        utc_offset: None,
        attributes: None,
    } = columns
    else {
        return Err(RecordFault::BadColumns);
    };
    if !is_instance(instance, RegisteredUid::GlobalSubscription) {
        return Err(RecordFault::BadInstance);
    }
    let receiver = receiver_in(receiver.as_slice())?;
    Ok(Request::Suspend { receiver })
}

/// Reads an acknowledgment.
///
/// Errors: BadColumns.
fn acknowledge_in<A: Allocator + Copy>(columns: &Columns<A>) -> Result<Request<A>, RecordFault>
    requires { columns.now.operation ≡ operations.Acknowledge }
    ensures read { IfOk result (λ q. (columns_of q ≡ columns.now) × IsRecordable q) }
    ensures only { (upto : ℕ) → columns_of {A = A} (Ack upto) ≡ columns.now → MatchResult result (λ q. q ≡ Ack upto) (λ f. f ≡ Memory) }
{
    let Columns {
        operation: _,
        instance: None,
        transaction_uid: None,
        state: None,
        receiver: None,
        deletion_lock: None,
        event: Some(upto),
        utc_offset: None,
        attributes: None,
    } = columns
    else {
        return Err(RecordFault::BadColumns);
    };
    Ok(Request::Ack { upto: *upto })
}

/// Reads a sweep.
///
/// Errors: BadColumns.
fn sweep_in<A: Allocator + Copy>(columns: &Columns<A>) -> Result<Request<A>, RecordFault>
    requires { columns.now.operation ≡ operations.Sweep }
    ensures read { IfOk result (λ q. (columns_of q ≡ columns.now) × IsRecordable q) }
    ensures only { columns_of {A = A} Sweep ≡ columns.now → MatchResult result (λ q. q ≡ Sweep) (λ f. f ≡ Memory) }
{
    let Columns {
        operation: _,
        instance: None,
        transaction_uid: None,
        state: None,
        receiver: None,
        deletion_lock: None,
        event: None,
        utc_offset: None,
        attributes: None,
    } = columns
    else {
        return Err(RecordFault::BadColumns);
    };
    Ok(Request::Sweep)
}

/// Reads the reservation of an instance UID.
///
/// Errors: BadColumns, BadInstance.
fn reserve_in<A: Allocator + Copy>(columns: &Columns<A>) -> Result<Request<A>, RecordFault>
    requires { columns.now.operation ≡ operations.Reserve }
    ensures read { IfOk result (λ q. (columns_of q ≡ columns.now) × IsRecordable q) }
    ensures only { (step : List ℕ) → IsRecordable {A = A} (Reserve step) → columns_of {A = A} (Reserve step) ≡ columns.now → MatchResult result (λ q. q ≡ Reserve step) (λ f. f ≡ Memory) }
{
    let Columns {
        operation: _,
        instance: Some(instance),
        transaction_uid: None,
        state: None,
        receiver: None,
        deletion_lock: None,
        event: None,
        utc_offset: None,
        attributes: None,
    } = columns
    else {
        return Err(RecordFault::BadColumns);
    };
    match one_step_in(instance.as_slice()) {
        Some(step) => Ok(Request::Reserve { step }),
        None => Err(RecordFault::BadInstance),
    }
}

/// Reads the request.
///
/// Errors: those of its operation.
fn request_in<A: Allocator + Copy>(
    alloc: A,
    columns: &Columns<A>,
) -> Result<Request<A>, RecordFault>
    ensures read { IfOk result (λ q. (columns_of q ≡ columns.now) × IsRecordable q) }
    ensures only { (q : Request A) → IsRecordable q → columns_of q ≡ columns.now → MatchResult result (λ x. x ≡ q) (λ f. f ≡ Memory) }
{
    match columns.operation {
        RecordedOperation::Create => create_in(alloc, columns),
        RecordedOperation::Change => change_in(columns),
        RecordedOperation::AskCancel => ask_cancel_in(alloc, columns),
        RecordedOperation::Set => set_in(alloc, columns),
        RecordedOperation::Subscribe => subscribe_in(alloc, columns),
        RecordedOperation::Unsubscribe => unsubscribe_in(columns),
        RecordedOperation::Suspend => suspend_in(columns),
        RecordedOperation::Acknowledge => acknowledge_in(columns),
        RecordedOperation::Sweep => sweep_in(columns),
        RecordedOperation::Reserve => reserve_in(columns),
    }
}

/// Returns the entry that a record stands for: the one whose record it is.
///
/// # Errors
///
/// Any but `Memory` if no entry has this record: `BadTitle`, `BadInstance`, `BadTransaction`, `BadReceiver`, `BadSet`
/// or `BadKeys` if a column has a value that is never written there; `BadColumns` if a column that the operation needs
/// is empty, or one that it does not use has a value. `Memory` if memory runs out.
pub fn entry_of<A: Allocator + Copy>(alloc: A, stored: &Record<A>) -> Result<Entry<A>, RecordFault>
    ensures read { IfOk result (λ e. (recorded e ≡ stored.now) × IsWritableEntry e) }
    ensures only { (e : Entry A) → IsWritableEntry e → recorded e ≡ stored.now → MatchResult result (λ x. x ≡ e) (λ f. f ≡ Memory) }
{
    let Some(ae) = title_in(stored.title.as_slice()) else {
        return Err(RecordFault::BadTitle);
    };
    let request = request_in(alloc, &stored.request)?;
    Ok(Entry {
        caller: stored.caller,
        ae,
        moment: stored.moment,
        request,
    })
}
