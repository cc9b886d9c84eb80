//! Building a data set from the bytes that encode it.

ghost use Rattle.std.specs.Prelude.{◌≡◌, ◌<◌, ◌≤◌, ◌++◌, ◌∷◌, [], false, length, map, OnOk, IfErr};
ghost use Rattle.ups_dataset.specs.declared.fault.SetFault.TheVariants.{Memory};
ghost use Rattle.ups_dataset.specs.Head.{IsLength, is_sequence};
ghost use Rattle.ups_dataset.specs.View.{element_view, value_view};
ghost use Rattle.ups_dataset.specs.Building.{keeps, BuildsValue, BuildsElements, BuildsItems, BuildsOrFails};
ghost use Rattle.ups_dataset.specs.Failing.{ElementsFail, ValueFails, ItemsFail};
ghost use Rattle.ups_dataset.specs.Limits.{max_depth, undefined_length};

use crate::fault::SetFault;
use crate::head::{Reach, end_at, is_sequence, item_at, known_at};
use crate::limits::{MAX_DEPTH, UNDEFINED_LENGTH};
use crate::passing::{inside, opened, rest_behind};
use crate::set::{DataSet, Element, Value};
use crate::tag::{ITEM_DELIMITATION, SEQUENCE_DELIMITATION, Tag};
use crate::trimming::trim;
use crate::value_bytes::ValueBytes;
use crate::vr::Vr;
use std::alloc::Allocator;
use ups_pdu::TransferSyntax;

/// Reads the value that follows a header, and returns it with the VR to keep it under and the bytes that follow.
#[cycle(building)]
fn value_of<A: Allocator + Copy>(
    alloc: A,
    syntax: TransferSyntax,
    level: u8,
    vr: Vr,
    len: u32,
    after: &[u8],
) -> Result<(Value<A>, Vr, &[u8]), SetFault>
    requires nested { level ≤ max_depth }
    requires fits { IsLength len (length after.now) }
    requires bytes { is_sequence vr len ≡ false → len < undefined_length }
    ensures { BuildsOrFails result (λ x. BuildsValue syntax level vr len after.now (value_view x.0) x.1 x.2.now) (ValueFails syntax level vr len after.now) }
{
    if !is_sequence(vr, len) {
        let (body, rest) = after.split_at(len as usize);
        return Ok((Value::Bytes(ValueBytes::copy_of(alloc, body)?), vr, rest));
    }
    let (reach, inner, behind) = opened(len, after);
    let built = items_of(alloc, inside(syntax, vr), level, reach, inner)?;
    Ok((
        Value::of_items(built.0),
        Vr::Sq,
        rest_behind(reach, built.1, behind),
    ))
}

/// Adds an element, unless it is a group length. The first one reserves room for one: many items hold no more.
fn keep<A: Allocator + Copy>(
    elements: &mut Vec<Element<A>, A>,
    tag: Tag,
    vr: Vr,
    value: Value<A>,
) -> Result<(), SetFault>
    ensures kept { OnOk result (map element_view elements.new.items ≡ keeps tag vr (value_view value) (map element_view elements.old.items)) }
    ensures memory { IfErr result (λ e. e ≡ Memory) }
{
    if tag.is_group_length() {
        return Ok(());
    }
    if elements.is_empty() {
        elements.reserve_exact(1)?;
    }
    elements.push(Element { tag, vr, value })?;
    Ok(())
}

/// Adds an item. The first one reserves room for one: many sequences hold no more.
fn keep_item<A: Allocator + Copy>(
    sets: &mut Vec<DataSet<A>, A>,
    set: DataSet<A>,
) -> Result<(), SetFault>
    ensures kept { OnOk result (sets.new.items ≡ sets.old.items ++ set ∷ []) }
    ensures memory { IfErr result (λ e. e ≡ Memory) }
{
    if sets.is_empty() {
        sets.reserve_exact(1)?;
    }
    sets.push(set)?;
    Ok(())
}

/// Reads the elements at the front, and returns their data set, without group lengths, and the bytes that follow. The
/// data set begins with room for `room` elements.
#[cycle(building)]
pub(crate) fn set_of<A: Allocator + Copy>(
    alloc: A,
    syntax: TransferSyntax,
    level: u8,
    reach: Reach,
    room: usize,
    text: &[u8],
) -> Result<(DataSet<A>, &[u8]), SetFault>
    requires { level ≤ max_depth }
    ensures { BuildsOrFails result (λ x. BuildsElements syntax level reach 0 text.now x.0 x.1.now) (ElementsFail syntax level reach 0 text.now) }
{
    let mut elements = Vec::with_capacity(alloc, room)?;
    let mut from = 0;
    let mut rest = text;
    loop {
        if let Some(end) = end_at(ITEM_DELIMITATION, reach, rest) {
            trim(&mut elements)?;
            return Ok((DataSet::from_vec(elements), end));
        }
        let (tag, vr, len, after) = known_at(syntax, from, rest)?;
        let (value, vr, next) = value_of(alloc, syntax, level, vr, len, after)?;
        keep(&mut elements, tag, vr, value)?;
        from = u64::from(tag.number()) + 1;
        rest = next;
    }
}

/// Reads the items at the front, and returns them with the bytes that follow.
#[cycle(building)]
fn items_of<A: Allocator + Copy>(
    alloc: A,
    syntax: TransferSyntax,
    level: u8,
    reach: Reach,
    text: &[u8],
) -> Result<(Vec<DataSet<A>, A>, &[u8]), SetFault>
    requires { level ≤ max_depth }
    ensures { BuildsOrFails result (λ x. BuildsItems syntax level reach text.now x.0.items x.1.now) (ItemsFail syntax level reach text.now) }
{
    let mut sets = Vec::new(alloc);
    let mut rest = text;
    loop {
        if let Some(end) = end_at(SEQUENCE_DELIMITATION, reach, rest) {
            trim(&mut sets)?;
            return Ok((sets, end));
        }
        let (len, after) = item_at(level, rest)?;
        let (within, inner, behind) = opened(len, after);
        let built = set_of(alloc, syntax, level + 1, within, 0, inner)?;
        rest = rest_behind(within, built.1, behind);
        keep_item(&mut sets, built.0)?;
    }
}
