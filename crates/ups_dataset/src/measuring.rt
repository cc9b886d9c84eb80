//! The nesting depth of items.

ghost use Rattle.std.specs.Prelude.{◌≡◌, ◌≤◌};
ghost use Rattle.ups_dataset.specs.Data.{elements_of};
ghost use Rattle.ups_dataset.specs.Valid.{depth_data, depth_elements};
ghost use Rattle.ups_dataset.specs.View.{value_view};
ghost use Rattle.ups_dataset.specs.Limits.{max_depth};

use crate::limits::MAX_DEPTH;
use crate::set::{DataSet, Value};
use std::alloc::Allocator;

/// Returns how deep the items of a data set nest.
#[cycle(measuring)]
fn set_depth<A: Allocator + Copy>(set: &DataSet<A>) -> u8
    ensures depth { result ≡ depth_elements (elements_of set.now) }
    ensures fits { result ≤ max_depth }
{
    let mut deepest: u8 = 0;
    for element in &set.elements {
        deepest = deepest.max(value_depth(&element.value));
    }
    deepest
}

/// Returns how deep the items of a value nest.
#[cycle(measuring)]
pub(crate) fn value_depth<A: Allocator + Copy>(value: &Value<A>) -> u8
    ensures { result ≡ depth_data (value_view value.now) }
{
    match value {
        Value::Bytes(_) => 0,
        Value::Items(sets) => {
            let mut deepest: u8 = 0;
            for set in sets {
                deepest = deepest.max(set_depth(set) + 1);
            }
            deepest
        }
    }
}
