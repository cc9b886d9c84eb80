//! The faults of unreadable keys (PS3.4 section C.2.2.2).

ghost use Rattle.std.specs.Prelude.{◌≡◌, None, if◌then◌else◌};
ghost use Rattle.ups_dataset.specs.Data.{elements_of, items_of};
ghost use Rattle.ups_dataset.specs.View.{value_view};
ghost use Rattle.ups_match.specs.Matching.{key_rule, text_fault, key_fault, items_fault, keys_fault};
ghost use Rattle.ups_match.specs.Values.{is_no_key};

use crate::fault::KeyFault;
use crate::ranges::span_of;
use crate::rule::{Rule, rule_of};
use crate::texts::is_universal_text;
use crate::universal::is_no_key;
use std::alloc::Allocator;
use ups_dataset::{DataSet, Element, Tag, Value, vr_of};
use ups_pdu::without_padding;

/// Returns the rule for a key that is not a sequence.
pub(crate) fn key_rule(tag: Tag) -> Rule
    ensures { result ≡ key_rule tag }
{
    rule_of(vr_of(tag))
}

/// Returns the fault of the text of a key, if there is one. The rule is looked up only if the key isn't universal.
fn text_fault(tag: Tag, offset: i16, key: &[u8]) -> Option<KeyFault>
    ensures { result ≡ text_fault (key_rule tag) offset key.now }
{
    if is_universal_text(key)
        || key_rule(tag) != Rule::Range
        || span_of(without_padding(key), offset).is_some()
    {
        return None;
    }
    Some(KeyFault::BadRange)
}

/// Returns the fault of a key, if there is one.
#[cycle(faults)]
fn key_fault<A: Allocator + Copy>(key: &Element<A>, offset: i16) -> Option<KeyFault>
    ensures { result ≡ (if is_no_key key.now.tag then None else key_fault offset key.now.tag (value_view key.now.value)) }
{
    if is_no_key(key.tag) {
        return None;
    }
    match &key.value {
        Value::Bytes(bytes) => text_fault(key.tag, offset, bytes.as_slice()),
        Value::Items(sets) => items_fault(sets, offset),
    }
}

/// Returns the fault of the items of a key, if there is one.
#[cycle(faults)]
fn items_fault<A: Allocator + Copy>(sets: &[DataSet<A>], offset: i16) -> Option<KeyFault>
    ensures { result ≡ items_fault offset (items_of sets.now) }
{
    if sets.is_empty() {
        return None;
    }
    if sets.len() > 1 {
        return Some(KeyFault::TwoItems);
    }
    keys_fault(&sets[0], offset)
}

/// Returns the fault of the first key, by rising tag, that has one.
#[cycle(faults)]
pub(crate) fn keys_fault<A: Allocator + Copy>(keys: &DataSet<A>, offset: i16) -> Option<KeyFault>
    ensures { result ≡ keys_fault offset (elements_of keys.now) }
{
    for key in keys.elements() {
        if let Some(fault) = key_fault(key, offset) {
            return Some(fault);
        }
    }
    None
}
