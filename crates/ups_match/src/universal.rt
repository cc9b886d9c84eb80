//! Keys that match whatever is stored, even nothing (PS3.4 section C.2.2.2.3).

ghost use Rattle.std.specs.Prelude.{◌≡◌};
ghost use Rattle.ups_dataset.specs.Data.{elements_of};
ghost use Rattle.ups_dataset.specs.View.{value_view};
ghost use Rattle.ups_match.specs.Matching.{all_universal, is_universal, is_universal_key};
ghost use Rattle.ups_match.specs.Values.{is_no_key};

use crate::texts::is_universal_text;
use std::alloc::Allocator;
use ups_dataset::dictionary::{SPECIFIC_CHARACTER_SET, TRANSACTION_UID};
use ups_dataset::{DataSet, Element, Tag, Value};

/// Returns whether an attribute is not a key: the character set of the other texts, or a UID that is not disclosed.
pub(crate) fn is_no_key(tag: Tag) -> bool
    ensures { result ≡ is_no_key tag }
{
    tag == SPECIFIC_CHARACTER_SET || tag == TRANSACTION_UID
}

/// Returns whether a key matches whatever is stored.
#[cycle(universal)]
pub(crate) fn is_universal_key<A: Allocator + Copy>(key: &Element<A>) -> bool
    ensures { result ≡ is_universal_key key.now.tag (value_view key.now.value) }
{
    is_no_key(key.tag) || is_universal(&key.value)
}

/// Returns whether each key of a set matches whatever is stored.
#[cycle(universal)]
pub(crate) fn all_universal<A: Allocator + Copy>(keys: &DataSet<A>) -> bool
    ensures { result ≡ all_universal (elements_of keys.now) }
{
    for key in keys.elements() {
        if !is_universal_key(key) {
            return false;
        }
    }
    true
}

/// Returns whether the value of a key matches whatever is stored.
#[cycle(universal)]
fn is_universal<A: Allocator + Copy>(value: &Value<A>) -> bool
    ensures { result ≡ is_universal (value_view value.now) }
{
    match value {
        Value::Bytes(bytes) => is_universal_text(bytes.as_slice()),
        Value::Items(sets) => {
            if sets.is_empty() {
                return true;
            }
            sets.len() == 1 && all_universal(&sets[0])
        }
    }
}
