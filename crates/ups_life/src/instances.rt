//! The instances that messages name.

ghost use Rattle.std.specs.Prelude.{◌≡◌};
ghost use Rattle.ups_life.specs.Instances.{is_subscription, step_in};
ghost use Rattle.ups_life.specs.Subscribing.{is_instance};

use crate::step::{StepUid, is_well_known};
use ups_pdu::{RegisteredUid, Uid};

/// Returns whether the instance UID is the registered one.
pub(crate) fn is_instance(instance: &Option<Uid>, registered: RegisteredUid) -> bool
    ensures { result ≡ is_instance instance.now registered }
{
    match instance {
        Some(uid) => uid.as_bytes() == registered.text(),
        None => false,
    }
}

/// Returns whether the instance UID is one of the two for global subscriptions.
pub(crate) fn is_subscription(instance: &Option<Uid>) -> bool
    ensures { result ≡ is_subscription instance.now }
{
    match instance {
        Some(uid) => is_well_known(*uid),
        None => false,
    }
}

/// Returns the instance UID as that of a step, or None if it is absent, malformed or well known.
pub(crate) fn step_in(instance: &Option<Uid>) -> Option<StepUid>
    ensures { result ≡ step_in instance.now }
{
    match instance {
        Some(uid) => StepUid::of(*uid),
        None => None,
    }
}
