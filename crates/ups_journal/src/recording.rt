//! Making the record of an entry.

ghost use Rattle.std.specs.Prelude.{◌≡◌, ◌≢◌, None, Some, IfOk, IfErr};
ghost use Rattle.ups_pdu.specs.Registered.{text_of};
ghost use Rattle.ups_life.specs.declared.request.Request.TheVariants.{Create, Change, AskCancel, Set, Subscribe, Unsubscribe, Suspend, Reserve};
ghost use Rattle.ups_journal.specs.Columns.{target_instance, target_offset, target_set, place_instance, transaction_text, columns_of, recorded};
ghost use Rattle.ups_journal.specs.Writable.{IsTitle, IsStep, IsTransaction, IsWritableTarget, IsPlace, IsRecordable, IsWritableEntry};
ghost use Rattle.ups_journal.specs.declared.operation.RecordedOperation.TheVariants as operations;
ghost use Rattle.ups_journal.specs.declared.fault.RecordingFault.TheVariants.{Memory};

use crate::fault::RecordingFault;
use crate::operation::RecordedOperation;
use crate::record::{Columns, Record};
use crate::sets::written_set;
use crate::texts::title_in;
use std::alloc::{AllocError, Allocator};
use ups_cycle::StepState;
use ups_dataset::DataSet;
use ups_life::{Entry, Place, Request, StepUid, Target, Transaction};
use ups_pdu::{Ae, Bytes, RegisteredUid};

/// Returns the column of a title.
///
/// Errors: BadTitle if it has spaces at its ends; Memory.
fn title_column<A: Allocator + Copy>(alloc: A, title: Ae) -> Result<Bytes<A>, RecordingFault>
    ensures written { IfOk result (λ b. (b ≡ title) × IsTitle title) }
    ensures fault { IfErr result (λ f. f ≢ Memory → IsTitle title → ⊥) }
{
    if title_in(title.as_bytes()).is_none() {
        return Err(RecordingFault::BadTitle);
    }
    Ok(Bytes::copy_of(alloc, title.as_bytes())?)
}

/// Returns the column of the UID of a step.
fn step_column<A: Allocator + Copy>(
    alloc: A,
    step: &Option<StepUid>,
) -> Result<Option<Bytes<A>>, AllocError>
    ensures { IfOk result (λ b. (b ≡ step.now) × IsStep step.now) }
{
    match step {
        Some(step) => Ok(Some(Bytes::copy_of(alloc, step.as_bytes())?)),
        None => Ok(None),
    }
}

/// Returns the column of a well-known instance.
fn well_known_column<A: Allocator + Copy>(
    alloc: A,
    uid: RegisteredUid,
) -> Result<Option<Bytes<A>>, AllocError>
    ensures { IfOk result (λ b. b ≡ Some (text_of uid)) }
{
    Ok(Some(Bytes::copy_of(alloc, uid.text())?))
}

/// Returns the column of a Transaction UID.
fn transaction_column<A: Allocator + Copy>(
    alloc: A,
    transaction: &Transaction,
) -> Result<Option<Bytes<A>>, AllocError>
    ensures { IfOk result (λ b. (b ≡ transaction_text transaction.now) × IsTransaction transaction.now) }
{
    match transaction {
        Transaction::Absent => Ok(None),
        Transaction::Malformed => Ok(Some(Bytes::from_vec(Vec::new(alloc)))),
        Transaction::Proper(uid) => Ok(Some(Bytes::copy_of(alloc, uid.as_bytes())?)),
    }
}

/// Records a creation.
fn create_columns<A: Allocator + Copy>(
    alloc: A,
    step: &StepUid,
    attributes: &DataSet<A>,
) -> Result<Columns<A>, RecordingFault>
    ensures written { IfOk result (λ c. (c ≡ columns_of (Create step.now attributes.now)) × IsRecordable {A = A} (Create step.now attributes.now)) }
    ensures fault { IfErr result (λ f. f ≢ Memory → IsRecordable {A = A} (Create step.now attributes.now) → ⊥) }
{
    let mut columns = Columns::of(RecordedOperation::Create);
    columns.instance = Some(Bytes::copy_of(alloc, step.as_bytes())?);
    columns.attributes = Some(written_set(alloc, attributes)?);
    Ok(columns)
}

/// Records a change of state.
fn change_columns<A: Allocator + Copy>(
    alloc: A,
    step: &Option<StepUid>,
    state: StepState,
    transaction: &Transaction,
) -> Result<Columns<A>, AllocError>
    ensures { IfOk result (λ c. (c ≡ columns_of (Change step.now state transaction.now)) × IsRecordable {A = A} (Change step.now state transaction.now)) }
{
    let mut columns = Columns::of(RecordedOperation::Change);
    columns.instance = step_column(alloc, step)?;
    columns.transaction_uid = transaction_column(alloc, transaction)?;
    columns.state = Some(state);
    Ok(columns)
}

/// Records a request to cancel.
fn ask_cancel_columns<A: Allocator + Copy>(
    alloc: A,
    step: &Option<StepUid>,
    reasons: &DataSet<A>,
) -> Result<Columns<A>, RecordingFault>
    ensures written { IfOk result (λ c. (c ≡ columns_of (AskCancel step.now reasons.now)) × IsRecordable {A = A} (AskCancel step.now reasons.now)) }
    ensures fault { IfErr result (λ f. f ≢ Memory → IsRecordable {A = A} (AskCancel step.now reasons.now) → ⊥) }
{
    let mut columns = Columns::of(RecordedOperation::AskCancel);
    columns.instance = step_column(alloc, step)?;
    columns.attributes = Some(written_set(alloc, reasons)?);
    Ok(columns)
}

/// Records an N-SET.
fn set_columns<A: Allocator + Copy>(
    alloc: A,
    step: &Option<StepUid>,
    transaction: &Transaction,
    attributes: &DataSet<A>,
) -> Result<Columns<A>, RecordingFault>
    ensures written { IfOk result (λ c. (c ≡ columns_of (Set step.now transaction.now attributes.now)) × IsRecordable {A = A} (Set step.now transaction.now attributes.now)) }
    ensures fault { IfErr result (λ f. f ≢ Memory → IsRecordable {A = A} (Set step.now transaction.now attributes.now) → ⊥) }
{
    let mut columns = Columns::of(RecordedOperation::Set);
    columns.instance = step_column(alloc, step)?;
    columns.transaction_uid = transaction_column(alloc, transaction)?;
    columns.attributes = Some(written_set(alloc, attributes)?);
    Ok(columns)
}

/// Records the target of a subscription: its instance, and the keys of a filter with their offset.
fn target_columns<A: Allocator + Copy>(
    alloc: A,
    target: &Target<A>,
) -> Result<Columns<A>, RecordingFault>
    ensures written { IfOk result (λ c. (c ≡ record { operation = operations.Subscribe; instance = target_instance target.now; transaction_uid = None; state = None; receiver = None; deletion_lock = None; event = None; utc_offset = target_offset target.now; attributes = target_set target.now }) × IsWritableTarget target.now) }
    ensures fault { IfErr result (λ f. f ≢ Memory → IsWritableTarget target.now → ⊥) }
{
    let mut columns = Columns::of(RecordedOperation::Subscribe);
    match target {
        Target::Single(step) => columns.instance = step_column(alloc, step)?,
        Target::Global => {
            columns.instance = well_known_column(alloc, RegisteredUid::GlobalSubscription)?;
        }
        Target::Filtered(filter) => {
            let keys = filter.keys();
            columns.instance = well_known_column(alloc, RegisteredUid::FilteredGlobalSubscription)?;
            columns.utc_offset = Some(keys.offset());
            columns.attributes = Some(written_set(alloc, keys.attributes())?);
        }
    }
    Ok(columns)
}

/// Records a subscription.
fn subscribe_columns<A: Allocator + Copy>(
    alloc: A,
    target: &Target<A>,
    receiver: Ae,
    lock: bool,
) -> Result<Columns<A>, RecordingFault>
    ensures written { IfOk result (λ c. (c ≡ columns_of (Subscribe target.now receiver lock)) × IsRecordable {A = A} (Subscribe target.now receiver lock)) }
    ensures fault { IfErr result (λ f. f ≢ Memory → IsRecordable {A = A} (Subscribe target.now receiver lock) → ⊥) }
{
    let mut columns = target_columns(alloc, target)?;
    columns.receiver = Some(title_column(alloc, receiver)?);
    columns.deletion_lock = Some(lock);
    Ok(columns)
}

/// Returns the column of the place where subscriptions end.
fn place_column<A: Allocator + Copy>(
    alloc: A,
    place: &Place,
) -> Result<Option<Bytes<A>>, AllocError>
    ensures { IfOk result (λ b. (b ≡ place_instance place.now) × IsPlace place.now) }
{
    match place {
        Place::At(step) => step_column(alloc, step),
        Place::Everywhere => well_known_column(alloc, RegisteredUid::GlobalSubscription),
    }
}

/// Records the end of subscriptions.
fn unsubscribe_columns<A: Allocator + Copy>(
    alloc: A,
    place: &Place,
    receiver: Ae,
) -> Result<Columns<A>, RecordingFault>
    ensures written { IfOk result (λ c. (c ≡ columns_of (Unsubscribe place.now receiver)) × IsRecordable {A = A} (Unsubscribe place.now receiver)) }
    ensures fault { IfErr result (λ f. f ≢ Memory → IsRecordable {A = A} (Unsubscribe place.now receiver) → ⊥) }
{
    let mut columns = Columns::of(RecordedOperation::Unsubscribe);
    columns.instance = place_column(alloc, place)?;
    columns.receiver = Some(title_column(alloc, receiver)?);
    Ok(columns)
}

/// Records the end of a global subscription.
fn suspend_columns<A: Allocator + Copy>(
    alloc: A,
    receiver: Ae,
) -> Result<Columns<A>, RecordingFault>
    ensures written { IfOk result (λ c. (c ≡ columns_of (Suspend receiver)) × IsRecordable {A = A} (Suspend receiver)) }
    ensures fault { IfErr result (λ f. f ≢ Memory → IsRecordable {A = A} (Suspend receiver) → ⊥) }
{
    let mut columns = Columns::of(RecordedOperation::Suspend);
    columns.instance = well_known_column(alloc, RegisteredUid::GlobalSubscription)?;
    columns.receiver = Some(title_column(alloc, receiver)?);
    Ok(columns)
}

/// Records the reservation of an instance UID.
fn reserve_columns<A: Allocator + Copy>(alloc: A, step: &StepUid) -> Result<Columns<A>, AllocError>
    ensures { IfOk result (λ c. (c ≡ columns_of {A = A} (Reserve step.now)) × IsRecordable {A = A} (Reserve step.now)) }
{
    let mut columns = Columns::of(RecordedOperation::Reserve);
    columns.instance = Some(Bytes::copy_of(alloc, step.as_bytes())?);
    Ok(columns)
}

/// Records a request.
fn request_columns<A: Allocator + Copy>(
    alloc: A,
    request: &Request<A>,
) -> Result<Columns<A>, RecordingFault>
    ensures written { IfOk result (λ c. (c ≡ columns_of request.now) × IsRecordable request.now) }
    ensures fault { IfErr result (λ f. f ≢ Memory → IsRecordable request.now → ⊥) }
{
    match request {
        Request::Create { step, attributes } => create_columns(alloc, step, attributes),
        Request::Change {
            step,
            state,
            transaction,
        } => Ok(change_columns(alloc, step, *state, transaction)?),
        Request::AskCancel { step, reasons } => ask_cancel_columns(alloc, step, reasons),
        Request::Set {
            step,
            transaction,
            attributes,
        } => set_columns(alloc, step, transaction, attributes),
        Request::Subscribe {
            target,
            receiver,
            lock,
        } => subscribe_columns(alloc, target, *receiver, *lock),
        Request::Unsubscribe { place, receiver } => unsubscribe_columns(alloc, place, *receiver),
        Request::Suspend { receiver } => suspend_columns(alloc, *receiver),
        Request::Ack { upto } => {
            let mut columns = Columns::of(RecordedOperation::Acknowledge);
            columns.event = Some(*upto);
            Ok(columns)
        }
        Request::Sweep => Ok(Columns::of(RecordedOperation::Sweep)),
        Request::Reserve { step } => Ok(reserve_columns(alloc, step)?),
    }
}

/// Returns the record of an entry. It is read back as that entry.
///
/// # Errors
///
/// `BadTitle` if a title has spaces at its ends, which no title made by `Ae::of` has; `TooLarge` if a data set takes
/// 2^32 bytes or more; `Memory` if memory runs out. For an entry that has a record, only `Memory`.
pub fn record_of<A: Allocator + Copy>(
    alloc: A,
    entry: &Entry<A>,
) -> Result<Record<A>, RecordingFault>
    ensures written { IfOk result (λ r. r ≡ recorded entry.now) }
    ensures again { IfOk result (λ r. IsWritableEntry entry.now) }
    ensures fault { IfErr result (λ f. f ≢ Memory → IsWritableEntry entry.now → ⊥) }
{
    Ok(Record {
        caller: entry.caller,
        title: title_column(alloc, entry.ae)?,
        moment: entry.moment,
        request: request_columns(alloc, &entry.request)?,
    })
}
