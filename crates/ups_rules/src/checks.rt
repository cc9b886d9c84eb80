//! The checks of attributes whose values are restricted.

ghost use Rattle.std.specs.Prelude.{◌≡◌};
ghost use Rattle.ups_dataset.specs.Data.{element_at};
ghost use Rattle.ups_dataset.specs.View.{value_view};
ghost use Rattle.ups_life.specs.Values.{text_status, value_status, attribute_status, first_fault, given_status, first_given_fault};

use std::alloc::Allocator;
use ups_cycle::Status;
use ups_dataset::{DataSet, Value};
use ups_life::{Checked, ValueRule};
use ups_pdu::without_padding;

fn text_status(rule: ValueRule, text: &[u8]) -> Status
    ensures { result ≡ text_status rule text.now }
{
    if text.is_empty() {
        Status::MissingAttributeValue
    } else if rule.allows(text) {
        Status::Success
    } else {
        Status::InvalidAttributeValue
    }
}

fn value_status<A: Allocator + Copy>(rule: ValueRule, value: &Value<A>) -> Status
    ensures { result ≡ value_status rule (value_view value.now) }
{
    match value {
        Value::Bytes(bytes) => text_status(rule, without_padding(bytes.as_slice())),
        Value::Items(_) => Status::InvalidAttributeValue,
    }
}

fn attribute_status<A: Allocator + Copy>(checked: Checked, set: &DataSet<A>) -> Status
    ensures { result ≡ attribute_status checked set.now }
{
    match set.get(checked.tag) {
        Some(element) => value_status(checked.rule, &element.value),
        None => Status::MissingAttribute,
    }
}

/// Returns the first fault of the attributes of a table, or Success.
pub(crate) fn first_fault<A: Allocator + Copy>(table: &[Checked], set: &DataSet<A>) -> Status
    ensures { result ≡ first_fault table.now set.now }
{
    for checked in table {
        let status = attribute_status(*checked, set);
        if status != Status::Success {
            return status;
        }
    }
    Status::Success
}

fn given_status<A: Allocator + Copy>(checked: Checked, set: &DataSet<A>) -> Status
    ensures { result ≡ given_status checked.rule (element_at checked.tag set.now) }
{
    match set.get(checked.tag) {
        Some(element) => value_status(checked.rule, &element.value),
        None => Status::Success,
    }
}

/// Returns the first fault of those attributes of a table that are given, or Success.
pub(crate) fn first_given_fault<A: Allocator + Copy>(table: &[Checked], set: &DataSet<A>) -> Status
    ensures { result ≡ first_given_fault table.now set.now }
{
    for checked in table {
        let status = given_status(*checked, set);
        if status != Status::Success {
            return status;
        }
    }
    Status::Success
}
