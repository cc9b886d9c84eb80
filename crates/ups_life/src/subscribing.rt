//! Reading asks about subscriptions from messages.

ghost use Rattle.std.specs.Prelude.{◌≡◌};
ghost use Rattle.ups_dataset.specs.Data.{element_at};
ghost use Rattle.ups_dataset.specs.View.{value_view};
ghost use Rattle.ups_life.specs.Subscribing.{title_value, named_receiver, lock_in, named_lock, filter_keys, filter_of, target_of, subscribed, place_of, unsubscribed, suspended};

use crate::instances::{is_instance, is_subscription, step_in};
use crate::request::{Ask, Request};
use crate::watching::{Filter, Place, Target};
use std::alloc::Allocator;
use ups_cycle::Status;
use ups_dataset::dictionary::{DELETION_LOCK, RECEIVING_AE};
use ups_dataset::{DataSet, Value};
use ups_match::Keys;
use ups_pdu::{Ae, RegisteredUid, Uid, without_padding};

/// Returns the title encoded in a value, without padding, or None if it encodes none.
fn title_value<A: Allocator + Copy>(value: &Value<A>) -> Option<Ae>
    ensures { result ≡ title_value (value_view value.now) }
{
    match value {
        Value::Bytes(bytes) => Ae::of(without_padding(bytes.as_slice())),
        Value::Items(_) => None,
    }
}

/// Returns the Receiving AE (0074,1234) that a data set names, or None if it names none.
fn named_receiver<A: Allocator + Copy>(attributes: &DataSet<A>) -> Option<Ae>
    ensures { result ≡ named_receiver (element_at RECEIVING_AE attributes.now) }
{
    title_value(&attributes.get(RECEIVING_AE)?.value)
}

/// Returns whether a text asks for a Deletion Lock, or None if it is neither TRUE nor FALSE.
fn lock_in(text: &[u8]) -> Option<bool>
    ensures { result ≡ lock_in text.now }
{
    if text == b"TRUE".as_slice() {
        Some(true)
    } else if text == b"FALSE".as_slice() {
        Some(false)
    } else {
        None
    }
}

/// Returns the Deletion Lock (0074,1230) of a data set, or None if it is neither TRUE nor FALSE.
fn named_lock<A: Allocator + Copy>(attributes: &DataSet<A>) -> Option<bool>
    ensures { result ≡ named_lock (element_at DELETION_LOCK attributes.now) }
{
    match &attributes.get(DELETION_LOCK)?.value {
        Value::Bytes(bytes) => lock_in(without_padding(bytes.as_slice())),
        Value::Items(_) => None,
    }
}

/// Returns the filter with these keys.
///
/// Errors: 0115 if a key can't be read, 0114 if all keys are universal.
fn filter_of<A: Allocator + Copy>(keys: DataSet<A>, offset: i16) -> Result<Target<A>, Status>
    ensures { result ≡ filter_of offset keys }
{
    let alloc = keys.allocator();
    let Ok(keys) = Keys::of(keys, offset) else {
        return Err(Status::InvalidArgumentValue);
    };
    match Filter::of(alloc, keys) {
        Some(filter) => Ok(Target::Filtered(filter)),
        None => Err(Status::NoSuchArgument),
    }
}

/// Returns the keys of a filter: all attributes of a message but the two that every subscription has.
fn filter_keys<A: Allocator + Copy>(attributes: DataSet<A>) -> DataSet<A>
    ensures { result ≡ filter_keys attributes }
{
    let mut keys = attributes;
    keys.remove(DELETION_LOCK);
    keys.remove(RECEIVING_AE);
    keys
}

/// Returns the target of a subscription to an instance.
///
/// Errors: those of a filter.
fn target_of<A: Allocator + Copy>(
    instance: &Option<Uid>,
    attributes: DataSet<A>,
    offset: i16,
) -> Result<Target<A>, Status>
    ensures { result ≡ target_of offset instance.now attributes }
{
    if is_instance(instance, RegisteredUid::GlobalSubscription) {
        Ok(Target::Global)
    } else if is_instance(instance, RegisteredUid::FilteredGlobalSubscription) {
        filter_of(filter_keys(attributes), offset)
    } else {
        Ok(Target::Single(step_in(instance)))
    }
}

/// Returns what a Subscribe to Receive UPS Event Reports asks (PS3.4 CC.2.3). On the filtered instance, all elements
/// but the Receiving AE and the Deletion Lock are keys; on any other, they are ignored. Preparing the keys takes
/// memory; if there is none, they are used unprepared.
///
/// Errors: 0115 if no Receiving AE is named, if the Deletion Lock is neither TRUE nor FALSE, and if a key can't be
/// read; 0114 if all keys of a filter are universal.
#[tactic(auto, unfolding(crate::specs::Subscribing::subscribed))]
pub(crate) fn subscribed<A: Allocator + Copy>(
    instance: &Option<Uid>,
    attributes: DataSet<A>,
    offset: i16,
) -> Result<Ask<A>, Status>
    ensures { result ≡ subscribed offset instance.now attributes }
{
    let Some(receiver) = named_receiver(&attributes) else {
        return Err(Status::InvalidArgumentValue);
    };
    let Some(lock) = named_lock(&attributes) else {
        return Err(Status::InvalidArgumentValue);
    };
    match target_of(instance, attributes, offset) {
        Ok(target) => Ok(Ask::Do(Request::Subscribe {
            target,
            receiver,
            lock,
        })),
        Err(status) => Err(status),
    }
}

/// Returns the steps for which an Unsubscribe from an instance ends subscriptions.
fn place_of(instance: &Option<Uid>) -> Place
    ensures { result ≡ place_of instance.now }
{
    if is_subscription(instance) {
        Place::Everywhere
    } else {
        Place::At(step_in(instance))
    }
}

/// Returns what an Unsubscribe from Receiving UPS Event Reports asks (PS3.4 CC.2.3).
///
/// Errors: 0115 if no Receiving AE is named.
#[tactic(auto, unfolding(crate::specs::Subscribing::unsubscribed))]
pub(crate) fn unsubscribed<A: Allocator + Copy>(
    instance: &Option<Uid>,
    attributes: &DataSet<A>,
) -> Result<Ask<A>, Status>
    ensures { result ≡ unsubscribed instance.now attributes.now }
{
    let Some(receiver) = named_receiver(attributes) else {
        return Err(Status::InvalidArgumentValue);
    };
    Ok(Ask::Do(Request::Unsubscribe {
        place: place_of(instance),
        receiver,
    }))
}

/// Returns what a Suspend Global Subscription asks (PS3.4 CC.2.3).
///
/// Errors: C314 for any instance but those of the global subscriptions; 0115 if no Receiving AE is named.
#[tactic(auto, unfolding(crate::specs::Subscribing::suspended))]
pub(crate) fn suspended<A: Allocator + Copy>(
    instance: &Option<Uid>,
    attributes: &DataSet<A>,
) -> Result<Ask<A>, Status>
    ensures { result ≡ suspended instance.now attributes.now }
{
    if !is_subscription(instance) {
        return Err(Status::ActionNotAppropriate);
    }
    let Some(receiver) = named_receiver(attributes) else {
        return Err(Status::InvalidArgumentValue);
    };
    Ok(Ask::Do(Request::Suspend { receiver }))
}
