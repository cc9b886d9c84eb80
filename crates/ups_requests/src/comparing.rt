//! Comparing records.

ghost use Rattle.std.specs.Prelude.{◌≡◌, IsTrue};
ghost use Rattle.ups_requests.specs.Alike.{AreOnOneStep, AreForOneWatcher};

use std::alloc::Allocator;
use ups_journal::{Columns, Record};
use ups_pdu::Bytes;

/// Returns whether two optional texts are equal.
fn same_bytes<A: Allocator + Copy>(a: &Option<Bytes<A>>, b: &Option<Bytes<A>>) -> bool
    ensures { IsTrue result → a.now ≡ b.now }
{
    match (a, b) {
        (Some(a), Some(b)) => a.as_slice() == b.as_slice(),
        (None, None) => true,
        _ => false,
    }
}

/// Returns whether both do the same to the same step.
fn same_target<A: Allocator + Copy>(a: &Columns<A>, b: &Columns<A>) -> bool
    ensures { IsTrue result → AreOnOneStep a.now b.now }
{
    if a.operation != b.operation || a.state != b.state {
        return false;
    }
    if !same_bytes(&a.instance, &b.instance) {
        return false;
    }
    same_bytes(&a.transaction_uid, &b.transaction_uid)
}

/// Returns whether both are for the same watcher, with the same attributes.
fn same_watcher<A: Allocator + Copy>(a: &Columns<A>, b: &Columns<A>) -> bool
    ensures { IsTrue result → AreForOneWatcher a.now b.now }
{
    if a.deletion_lock != b.deletion_lock || a.event != b.event || a.utc_offset != b.utc_offset {
        return false;
    }
    if !same_bytes(&a.receiver, &b.receiver) {
        return false;
    }
    same_bytes(&a.attributes, &b.attributes)
}

/// Returns whether two records are equal.
pub(crate) fn is_same<A: Allocator + Copy>(a: &Record<A>, b: &Record<A>) -> bool
    ensures { IsTrue result → a.now ≡ b.now }
{
    if a.caller != b.caller || a.moment != b.moment {
        return false;
    }
    if a.title.as_slice() != b.title.as_slice() {
        return false;
    }
    if !same_target(&a.request, &b.request) {
        return false;
    }
    same_watcher(&a.request, &b.request)
}
