//! The matching of a data set with prepared keys (PS3.4 section C.2.2.2).

ghost use Rattle.std.specs.Prelude.{◌≡◌};
ghost use Rattle.ups_dataset.specs.Data.{elements_of, items_of};
ghost use Rattle.ups_match.specs.Matching.{any_item, value_at};
ghost use Rattle.ups_match.specs.Met.{all_met, value_met};
ghost use Rattle.ups_match.specs.Prepared.{prepared_view};

use crate::prepared::{Prepared, PreparedKey, PreparedValue};
use crate::texts::is_text_met;
use std::alloc::Allocator;
use ups_dataset::{DataSet, Value};

/// Returns whether a data set meets a key.
#[cycle(meeting)]
fn is_met<A: Allocator + Copy>(key: &PreparedKey<A>, row: &DataSet<A>, offset: i16) -> bool
    ensures { result ≡ value_met offset key.now.tag (prepared_view key.now.value) (value_at key.now.tag (elements_of row.now)) }
{
    let Some(stored) = row.get(key.tag.tag()) else {
        return false;
    };
    match (&key.value, &stored.value) {
        (PreparedValue::Uids(list), Value::Bytes(bytes)) => {
            list.is_met(key.tag.rule(), offset, bytes.as_slice())
        }
        (PreparedValue::Text(text), Value::Bytes(bytes)) => is_text_met(
            key.tag.rule(),
            offset,
            text.as_slice(),
            bytes.as_slice(),
        ),
        (PreparedValue::Item(keys), Value::Items(sets)) => any_meets(keys, sets, offset),
        _ => false,
    }
}

/// Returns whether one of the items meets all keys.
#[cycle(meeting)]
fn any_meets<A: Allocator + Copy>(keys: &Prepared<A>, items: &[DataSet<A>], offset: i16) -> bool
    ensures { result ≡ any_item (all_met offset (elements_of keys.now)) (items_of items.now) }
{
    for item in items {
        if meets_all(keys, item, offset) {
            return true;
        }
    }
    false
}

/// Returns whether a data set meets each key.
#[cycle(meeting)]
pub(crate) fn meets_all<A: Allocator + Copy>(
    keys: &Prepared<A>,
    row: &DataSet<A>,
    offset: i16,
) -> bool
    ensures { result ≡ all_met offset (elements_of keys.now) (elements_of row.now) }
{
    for key in keys.keys() {
        if !is_met(key, row, offset) {
            return false;
        }
    }
    true
}
