//! The matching of a data set with keys (PS3.4 section C.2.2.2).

ghost use Rattle.std.specs.Prelude.{◌≡◌, ◌||◌};
ghost use Rattle.ups_dataset.specs.Data.{elements_of, items_of};
ghost use Rattle.ups_dataset.specs.View.{value_view};
ghost use Rattle.ups_match.specs.Matching.{key_rule, is_universal_key, value_at, matches_stored_text, value_matches, any_item, any_stored_item, all_match};

use crate::faults::key_rule;
use crate::texts::matches_text;
use crate::universal::is_universal_key;
use std::alloc::Allocator;
use ups_dataset::{DataSet, Element, Tag, Value};

/// Returns whether the text of a key matches what a data set has under its tag.
fn stored_text_matches<A: Allocator + Copy>(
    tag: Tag,
    key: &[u8],
    row: &DataSet<A>,
    offset: i16,
) -> bool
    ensures { result ≡ matches_stored_text (key_rule tag) offset key.now (value_at tag (elements_of row.now)) }
{
    let Some(stored) = row.get(tag) else {
        return false;
    };
    match &stored.value {
        Value::Bytes(bytes) => matches_text(key_rule(tag), offset, key, bytes.as_slice()),
        Value::Items(_) => false,
    }
}

/// Returns whether a key is universal, or matches what a data set has.
#[cycle(matching)]
fn key_matches<A: Allocator + Copy>(key: &Element<A>, row: &DataSet<A>, offset: i16) -> bool
    ensures { result ≡ (is_universal_key key.now.tag (value_view key.now.value) || value_matches offset key.now.tag (value_view key.now.value) (value_at key.now.tag (elements_of row.now))) }
{
    if is_universal_key(key) {
        return true;
    }
    match &key.value {
        Value::Bytes(bytes) => stored_text_matches(key.tag, bytes.as_slice(), row, offset),
        Value::Items(sets) => match sets.first() {
            Some(item) => stored_item_matches(key.tag, item, row, offset),
            None => true,
        },
    }
}

/// Returns whether a data set has a sequence with an item that matches all keys of `item`.
#[cycle(matching)]
fn stored_item_matches<A: Allocator + Copy>(
    tag: Tag,
    item: &DataSet<A>,
    row: &DataSet<A>,
    offset: i16,
) -> bool
    ensures { result ≡ any_stored_item (all_match offset (elements_of item.now)) (value_at tag (elements_of row.now)) }
{
    let Some(stored) = row.get(tag) else {
        return false;
    };
    match &stored.value {
        Value::Bytes(_) => false,
        Value::Items(sets) => any_item(item, sets, offset),
    }
}

/// Returns whether one of the items matches all keys of a set.
#[cycle(matching)]
fn any_item<A: Allocator + Copy>(keys: &DataSet<A>, items: &[DataSet<A>], offset: i16) -> bool
    ensures { result ≡ any_item (all_match offset (elements_of keys.now)) (items_of items.now) }
{
    for item in items {
        if all_match(keys, item, offset) {
            return true;
        }
    }
    false
}

/// Returns whether a data set matches each key of a set.
#[cycle(matching)]
pub(crate) fn all_match<A: Allocator + Copy>(
    keys: &DataSet<A>,
    row: &DataSet<A>,
    offset: i16,
) -> bool
    ensures { result ≡ all_match offset (elements_of keys.now) (elements_of row.now) }
{
    for key in keys.elements() {
        if !key_matches(key, row, offset) {
            return false;
        }
    }
    true
}
