//! Copying data sets.

ghost use Rattle.std.specs.Prelude.{◌≡◌, IfOk};
ghost use Rattle.ups_dataset.specs.View.{element_view, value_view};

use crate::set::{DataSet, Element, Value};
use crate::tag::Tag;
use crate::vr::Vr;
use std::alloc::{AllocError, Allocator};

/// Copies a data set.
#[cycle(copying)]
pub(crate) fn copy_set<A: Allocator + Copy>(
    alloc: A,
    set: &DataSet<A>,
) -> Result<DataSet<A>, AllocError>
    ensures { IfOk result (λ s. s ≡ set.now) }
{
    let mut elements = Vec::with_capacity(alloc, set.elements.len())?;
    for element in &set.elements {
        elements.push(copy_element(alloc, element)?)?;
    }
    Ok(DataSet::from_vec(elements))
}

/// Copies an element. One whose value is held in place, as most are, is copied at once.
#[cycle(copying)]
pub(crate) fn copy_element<A: Allocator + Copy>(
    alloc: A,
    element: &Element<A>,
) -> Result<Element<A>, AllocError>
    ensures { IfOk result (λ e. element_view e ≡ element_view element.now) }
{
    if let Value::Bytes(bytes) = &element.value {
        if let Some(copy) = bytes.copy_in_place() {
            return Ok(Element {
                tag: element.tag,
                vr: element.vr,
                value: Value::Bytes(copy),
            });
        }
    }
    copy_long_element(alloc, element.tag, element.vr, &element.value)
}

/// Copies an element whose value is on the heap.
#[cycle(copying)]
#[inline(never)]
fn copy_long_element<A: Allocator + Copy>(
    alloc: A,
    tag: Tag,
    vr: Vr,
    value: &Value<A>,
) -> Result<Element<A>, AllocError>
    ensures { IfOk result (λ e. element_view e ≡ record { tag = tag; vr = vr; value = value_view value.now }) }
{
    let value = match value {
        Value::Bytes(bytes) => Value::Bytes(bytes.copy(alloc)?),
        Value::Items(sets) => {
            let mut copies = Vec::with_capacity(alloc, sets.len())?;
            for set in sets {
                copies.push(copy_set(alloc, set)?)?;
            }
            Value::of_items(copies)
        }
    };
    Ok(Element { tag, vr, value })
}
