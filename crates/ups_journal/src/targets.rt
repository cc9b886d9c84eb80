//! Reading the targets of subscriptions, and the places where they end, from records.

ghost use Rattle.std.specs.Prelude.{◌≡◌, Option, None, Some, IfOk, MatchResult};
ghost use Rattle.ups_pdu.specs.declared.syntax.TransferSyntax.TheVariants.{Explicit};
ghost use Rattle.ups_pdu.specs.declared.registered.RegisteredUid.TheVariants.{GlobalSubscription, FilteredGlobalSubscription};
ghost use Rattle.ups_pdu.specs.Registered.{text_of};
ghost use Rattle.ups_dataset.specs.Written.{written};
ghost use Rattle.ups_match.specs.Matching.{KeySet};
ghost use Rattle.ups_life.specs.declared.watching.Target.{Target};
ghost use Rattle.ups_life.specs.declared.watching.Target.TheVariants.{Filtered};
ghost use Rattle.ups_life.specs.declared.watching.Place.{Place};
ghost use Rattle.ups_life.specs.Subscribing.{is_instance};
ghost use Rattle.ups_journal.specs.Columns.{target_instance, target_offset, target_set, place_instance};
ghost use Rattle.ups_journal.specs.Writable.{AreKeys, IsWritableTarget, IsPlace};
ghost use Rattle.ups_journal.specs.declared.fault.RecordFault.TheVariants.{Memory};

use crate::fault::RecordFault;
use crate::keys::filter_in;
use crate::sets::stored_set;
use crate::texts::step_in;
use std::alloc::Allocator;
use ups_life::{Place, Target};
use ups_pdu::{Bytes, RegisteredUid};

/// Returns whether a column has this well-known instance.
pub(crate) fn is_instance<A: Allocator + Copy>(
    column: &Option<Bytes<A>>,
    registered: RegisteredUid,
) -> bool
    ensures { result ≡ is_instance column.now registered }
{
    match column {
        Some(text) => text.as_slice() == registered.text(),
        None => false,
    }
}

/// Reads a filtered subscription.
///
/// Errors: BadColumns, BadSet, BadKeys, Memory.
fn filtered_in<A: Allocator + Copy>(
    alloc: A,
    offset: &Option<i16>,
    attributes: &Option<Bytes<A>>,
) -> Result<Target<A>, RecordFault>
    ensures read { IfOk result (λ t. (target_instance t ≡ Some (text_of FilteredGlobalSubscription)) × (target_offset t ≡ offset.now) × (target_set t ≡ attributes.now) × IsWritableTarget t) }
    ensures only { (keys : KeySet) → AreKeys keys → Some keys.offset ≡ offset.now → Some (written Explicit keys.attributes) ≡ attributes.now
        → MatchResult result (λ t. t ≡ Filtered keys) (λ f. f ≡ Memory) }
{
    let (Some(offset), Some(attributes)) = (offset, attributes) else {
        return Err(RecordFault::BadColumns);
    };
    let keys = stored_set(alloc, attributes.as_slice())?;
    Ok(Target::Filtered(filter_in(alloc, keys, *offset)?))
}

/// Reads the target of a subscription.
///
/// Errors: BadColumns, BadInstance, BadSet, BadKeys, Memory.
pub(crate) fn target_in<A: Allocator + Copy>(
    alloc: A,
    instance: &Option<Bytes<A>>,
    offset: &Option<i16>,
    attributes: &Option<Bytes<A>>,
) -> Result<Target<A>, RecordFault>
    ensures read { IfOk result (λ t. (target_instance t ≡ instance.now) × (target_offset t ≡ offset.now) × (target_set t ≡ attributes.now) × IsWritableTarget t) }
    ensures only { (t : Target A) → IsWritableTarget t → target_instance t ≡ instance.now → target_offset t ≡ offset.now → target_set t ≡ attributes.now
        → MatchResult result (λ x. x ≡ t) (λ f. f ≡ Memory) }
{
    if is_instance(instance, RegisteredUid::FilteredGlobalSubscription) {
        return filtered_in(alloc, offset, attributes);
    }
    if offset.is_some() || attributes.is_some() {
        return Err(RecordFault::BadColumns);
    }
    if is_instance(instance, RegisteredUid::GlobalSubscription) {
        return Ok(Target::Global);
    }
    Ok(Target::Single(step_in(instance)?))
}

/// Reads the place where subscriptions end.
///
/// Errors: BadInstance.
pub(crate) fn place_in<A: Allocator + Copy>(
    instance: &Option<Bytes<A>>,
) -> Result<Place, RecordFault>
    ensures read { IfOk result (λ p. (place_instance p ≡ instance.now) × IsPlace p) }
    ensures only { (p : Place) → IsPlace p → place_instance p ≡ instance.now → MatchResult result (λ x. x ≡ p) (λ f. f ≡ Memory) }
{
    if is_instance(instance, RegisteredUid::GlobalSubscription) {
        return Ok(Place::Everywhere);
    }
    Ok(Place::At(step_in(instance)?))
}
