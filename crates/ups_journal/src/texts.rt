//! Titles and UIDs as columns of text.

ghost use Rattle.std.specs.Prelude.{◌≡◌, ◌≢◌, None, Some, Ok, IfOk, MatchOption, MatchResult};
ghost use Rattle.ups_pdu.specs.Identifier.{IsUid};
ghost use Rattle.ups_life.specs.declared.request.Transaction.{Transaction};
ghost use Rattle.ups_life.specs.Instances.{IsStepUid};
ghost use Rattle.ups_journal.specs.Columns.{transaction_text};
ghost use Rattle.ups_journal.specs.Writable.{IsTitle, IsStep, IsTransaction};
ghost use Rattle.ups_journal.specs.declared.fault.RecordFault.TheVariants.{Memory};

use crate::fault::RecordFault;
use std::alloc::Allocator;
use ups_life::{StepUid, Transaction};
use ups_pdu::{Ae, Bytes, Uid};

/// Returns the text as a title, or None if it is not one or has spaces at its ends.
pub(crate) fn title_in(text: &[u8]) -> Option<Ae>
    ensures { MatchOption result (IsTitle text.now → ⊥) (λ t. (t ≡ text.now) × IsTitle text.now) }
{
    let title = Ae::of(text)?;
    if title.as_bytes() != text {
        return None;
    }
    Some(title)
}

/// Returns the watcher that a text names.
///
/// Errors: BadReceiver.
pub(crate) fn receiver_in(text: &[u8]) -> Result<Ae, RecordFault>
    ensures { MatchResult result (λ t. (t ≡ text.now) × IsTitle text.now) (λ f. IsTitle text.now → ⊥) }
{
    match title_in(text) {
        Some(title) => Ok(title),
        None => Err(RecordFault::BadReceiver),
    }
}

/// Returns the text as a UID, or None if it is not one or has padding.
#[tactic(auto, using(crate::proofs::Unpadded::spells_itself))]
fn uid_in(text: &[u8]) -> Option<Uid>
    ensures { MatchOption result (IsUid text.now → ⊥) (λ u. (u ≡ text.now) × IsUid text.now) }
{
    let uid = Uid::of(text)?;
    if uid.as_bytes() != text {
        return None;
    }
    Some(uid)
}

/// Returns the step whose UID is the text, or None if the text is not a UID, or is a well-known one.
pub(crate) fn one_step_in(text: &[u8]) -> Option<StepUid>
    ensures { MatchOption result (IsStepUid text.now → ⊥) (λ s. (s ≡ text.now) × IsStepUid text.now) }
{
    StepUid::of(uid_in(text)?)
}

/// Returns the step whose UID a column has, or None if the column is empty.
///
/// Errors: BadInstance.
pub(crate) fn step_in<A: Allocator + Copy>(
    column: &Option<Bytes<A>>,
) -> Result<Option<StepUid>, RecordFault>
    ensures { MatchResult result (λ s. (s ≡ column.now) × IsStep column.now) (λ f. IsStep column.now → ⊥) }
{
    let Some(text) = column else {
        return Ok(None);
    };
    match one_step_in(text.as_slice()) {
        Some(step) => Ok(Some(step)),
        None => Err(RecordFault::BadInstance),
    }
}

/// Returns the Transaction UID that a column has.
///
/// Errors: BadTransaction.
pub(crate) fn transaction_in<A: Allocator + Copy>(
    column: &Option<Bytes<A>>,
) -> Result<Transaction, RecordFault>
    ensures read { IfOk result (λ t. (transaction_text t ≡ column.now) × IsTransaction t) }
    ensures only { (t : Transaction) → IsTransaction t → transaction_text t ≡ column.now → result ≡ Ok t }
{
    let Some(text) = column else {
        return Ok(Transaction::Absent);
    };
    if text.is_empty() {
        return Ok(Transaction::Malformed);
    }
    match uid_in(text.as_slice()) {
        Some(uid) => Ok(Transaction::Proper(uid)),
        None => Err(RecordFault::BadTransaction),
    }
}
