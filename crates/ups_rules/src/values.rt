//! The attributes that a step must have before it is final.

ghost use Rattle.std.specs.Prelude.{◌≡◌};
ghost use Rattle.ups_dataset.specs.Data.{element_at, elements_of};
ghost use Rattle.ups_dataset.specs.View.{value_view};
ghost use Rattle.ups_life.specs.Values.{has_text, is_said_in, one_item_says, has_item_with};
ghost use Rattle.ups_life.specs.Verdict.{is_performed, is_discontinued};
ghost use Rattle.std.specs.List.{list_all};

use std::alloc::Allocator;
use ups_dataset::dictionary::{
    PERFORMED_PROCEDURE_STEP_END_DATE_TIME, PERFORMED_PROCEDURE_STEP_START_DATE_TIME,
    PROCEDURE_STEP_CANCELLATION_DATE_TIME, PROCEDURE_STEP_PROGRESS_INFORMATION_SEQUENCE,
    UNIFIED_PROCEDURE_STEP_PERFORMED_PROCEDURE_SEQUENCE,
};
use ups_dataset::{DataSet, Tag, Value};
use ups_pdu::without_padding;

/// Returns whether a value is a text that is not empty.
fn has_text<A: Allocator + Copy>(value: &Value<A>) -> bool
    ensures { result ≡ has_text (value_view value.now) }
{
    match value {
        Value::Bytes(bytes) => !without_padding(bytes.as_slice()).is_empty(),
        Value::Items(_) => false,
    }
}

/// Returns whether an item has an attribute with a text that is not empty.
#[tactic(auto, using(crate::proofs::Items::said_in))]
fn is_said_in<A: Allocator + Copy>(item: &DataSet<A>, tag: Tag) -> bool
    ensures { result ≡ is_said_in (elements_of item.now) tag }
{
    match item.get(tag) {
        Some(element) => has_text(&element.value),
        None => false,
    }
}

/// Returns whether an item has each of these attributes with a text that is not empty.
fn all_said_in<A: Allocator + Copy>(item: &DataSet<A>, tags: &[Tag]) -> bool
    ensures { result ≡ list_all (is_said_in (elements_of item.now)) tags.now }
{
    for tag in tags {
        if !is_said_in(item, *tag) {
            return false;
        }
    }
    true
}

/// Returns whether an attribute is a sequence of exactly one item, which has a text for each of `tags`.
fn has_item_with<A: Allocator + Copy>(set: &DataSet<A>, sequence: Tag, tags: &[Tag]) -> bool
    ensures { result ≡ has_item_with tags.now (element_at sequence set.now) }
{
    let Some(element) = set.get(sequence) else {
        return false;
    };
    match &element.value {
        Value::Items(items) if items.len() == 1 => all_said_in(&items[0], tags),
        _ => false,
    }
}

/// Returns whether the requirements of COMPLETED are met: one performed procedure, with its start and its end (PS3.4
/// table CC.2.5-3).
pub(crate) fn is_performed<A: Allocator + Copy>(attributes: &DataSet<A>) -> bool
    ensures { result ≡ is_performed attributes.now }
{
    has_item_with(
        attributes,
        UNIFIED_PROCEDURE_STEP_PERFORMED_PROCEDURE_SEQUENCE,
        &[
            PERFORMED_PROCEDURE_STEP_START_DATE_TIME,
            PERFORMED_PROCEDURE_STEP_END_DATE_TIME,
        ],
    )
}

/// Returns whether the requirements of CANCELED are met: one item of progress information, with the time of the
/// cancellation (PS3.4 table CC.2.5-3).
pub(crate) fn is_discontinued<A: Allocator + Copy>(attributes: &DataSet<A>) -> bool
    ensures { result ≡ is_discontinued attributes.now }
{
    has_item_with(
        attributes,
        PROCEDURE_STEP_PROGRESS_INFORMATION_SEQUENCE,
        &[PROCEDURE_STEP_CANCELLATION_DATE_TIME],
    )
}
