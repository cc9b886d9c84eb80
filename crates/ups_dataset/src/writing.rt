//! Writing data sets, with defined lengths (PS3.5 sections 7.1 and 7.5).

ghost use Rattle.std.specs.Prelude.{◌≡◌, ◌<◌, ◌^◌, ◌++◌, true, length, min, OnOk, IfOk};
ghost use Rattle.ups_pdu.specs.declared.syntax.TransferSyntax.TheVariants.{Explicit};
ghost use Rattle.ups_dataset.specs.Data.{items_of};
ghost use Rattle.ups_dataset.specs.View.{element_view};
ghost use Rattle.ups_dataset.specs.Written.{written, written_head, written_items, written_element, sequence_item, KeepsVrs};
ghost use Rattle.ups_dataset.specs.Vr.{is_long};
ghost use Rattle.ups_dataset.specs.Spelling.{SpellsSet};
ghost use Rattle.ups_dataset.specs.Tag.{item_tag};

use crate::set::{DataSet, Element, Value};
use crate::tag::{ITEM, Tag};
use crate::vr::Vr;
use std::alloc::{AllocError, Allocator};
use ups_pdu::TransferSyntax;

/// Returns the number of bytes of a header.
fn head_size(syntax: TransferSyntax, vr: Vr) -> u64
    ensures { result ≡ length (written_head syntax item_tag vr 0) }
{
    match syntax {
        TransferSyntax::Implicit => 8,
        TransferSyntax::Explicit => {
            if vr.is_long() {
                return 12;
            }
            8
        }
    }
}

/// Returns the number of bytes of a data set, or the greatest `u64` if there are more.
#[cycle(sizing)]
pub(crate) fn set_size<A: Allocator + Copy>(syntax: TransferSyntax, set: &DataSet<A>) -> u64
    ensures { result ≡ min (length (written syntax set.now)) 18446744073709551615 }
{
    let mut total: u64 = 0;
    for element in &set.elements {
        total = total.saturating_add(element_size(syntax, element));
    }
    total
}

/// Returns the number of bytes of an element, or the greatest `u64` if there are more.
#[cycle(sizing)]
fn element_size<A: Allocator + Copy>(syntax: TransferSyntax, element: &Element<A>) -> u64
    ensures { result ≡ min (length (written_element syntax (element_view element.now))) 18446744073709551615 }
{
    let value_size = match &element.value {
        Value::Bytes(bytes) => bytes.len() as u64,
        Value::Items(sets) => items_size(syntax, sets),
    };
    head_size(syntax, element.vr).saturating_add(value_size)
}

/// Returns the number of bytes of the items of a sequence, or the greatest `u64` if there are more.
#[cycle(sizing)]
#[inline(never)]
fn items_size<A: Allocator + Copy>(syntax: TransferSyntax, sets: &[DataSet<A>]) -> u64
    ensures { result ≡ min (length (written_items syntax (items_of sets.now))) 18446744073709551615 }
{
    let mut total: u64 = 0;
    for set in sets {
        total = total.saturating_add(set_size(syntax, set).saturating_add(8));
    }
    total
}

/// Appends the header of an element whose VR has a long length, in Explicit VR (PS3.5 section 7.1.2).
fn put_long_head<A: Allocator + Copy>(
    out: &mut Vec<u8, A>,
    tag: Tag,
    vr: Vr,
    len: u32,
) -> Result<(), AllocError>
    requires { is_long vr ≡ true }
    ensures { OnOk result (out.new.items ≡ out.old.items ++ written_head Explicit tag vr len) }
{
    tag.put(out)?;
    out.extend_from_slice(&vr.letters())?;
    out.extend_from_slice(&[0, 0])?;
    out.extend_from_slice(&len.to_le_bytes())
}

/// Appends the header of an element. That of a usual element is appended at once.
fn put_head<A: Allocator + Copy>(
    out: &mut Vec<u8, A>,
    syntax: TransferSyntax,
    tag: Tag,
    vr: Vr,
    len: u32,
) -> Result<(), AllocError>
    ensures { OnOk result (out.new.items ≡ out.old.items ++ written_head syntax tag vr len) }
{
    let [group, high_group] = tag.group.to_le_bytes();
    let [element, high_element] = tag.element.to_le_bytes();
    let [first, second, third, fourth] = len.to_le_bytes();
    match syntax {
        TransferSyntax::Implicit => out.extend_from_slice(&[
            group,
            high_group,
            element,
            high_element,
            first,
            second,
            third,
            fourth,
        ]),
        TransferSyntax::Explicit => {
            if vr.is_long() {
                return put_long_head(out, tag, vr, len);
            }
            let [letter, other] = vr.letters();
            out.extend_from_slice(&[
                group,
                high_group,
                element,
                high_element,
                letter,
                other,
                first,
                second,
            ])
        }
    }
}

/// Appends a data set.
#[cycle(putting)]
fn put_set<A: Allocator + Copy>(
    out: &mut Vec<u8, A>,
    syntax: TransferSyntax,
    set: &DataSet<A>,
) -> Result<(), AllocError>
    requires { length (written syntax set.now) < 2 ^ 32 }
    ensures { OnOk result (out.new.items ≡ out.old.items ++ written syntax set.now) }
{
    for element in &set.elements {
        put_element(out, syntax, element)?;
    }
    Ok(())
}

/// Appends an element.
#[cycle(putting)]
fn put_element<A: Allocator + Copy>(
    out: &mut Vec<u8, A>,
    syntax: TransferSyntax,
    element: &Element<A>,
) -> Result<(), AllocError>
    requires { length (written_element syntax (element_view element.now)) < 2 ^ 32 }
    ensures { OnOk result (out.new.items ≡ out.old.items ++ written_element syntax (element_view element.now)) }
{
    let len = match &element.value {
        Value::Bytes(bytes) => bytes.len() as u32,
        Value::Items(sets) => items_size(syntax, sets) as u32,
    };
    put_head(out, syntax, element.tag, element.vr, len)?;
    match &element.value {
        Value::Bytes(bytes) => out.extend_from_slice(bytes.as_slice()),
        Value::Items(sets) => put_items(out, syntax, sets),
    }
}

/// Appends an item.
#[cycle(putting)]
fn put_item<A: Allocator + Copy>(
    out: &mut Vec<u8, A>,
    syntax: TransferSyntax,
    set: &DataSet<A>,
) -> Result<(), AllocError>
    requires { length (sequence_item syntax set.now) < 2 ^ 32 }
    ensures { OnOk result (out.new.items ≡ out.old.items ++ sequence_item syntax set.now) }
{
    let len = set_size(syntax, set) as u32;
    ITEM.put(out)?;
    out.extend_from_slice(&len.to_le_bytes())?;
    put_set(out, syntax, set)
}

/// Appends the items of a sequence.
#[cycle(putting)]
#[inline(never)]
fn put_items<A: Allocator + Copy>(
    out: &mut Vec<u8, A>,
    syntax: TransferSyntax,
    sets: &[DataSet<A>],
) -> Result<(), AllocError>
    requires { length (written_items syntax (items_of sets.now)) < 2 ^ 32 }
    ensures { OnOk result (out.new.items ≡ out.old.items ++ written_items syntax (items_of sets.now)) }
{
    for set in sets {
        put_item(out, syntax, set)?;
    }
    Ok(())
}

/// Encodes a data set, with defined lengths and without group lengths. If its size in Explicit VR is known to be
/// below 2^32 bytes, so is its size in Implicit VR.
///
/// # Errors
///
/// If memory runs out.
pub fn write_set<A: Allocator + Copy>(
    alloc: A,
    syntax: TransferSyntax,
    set: &DataSet<A>,
) -> Result<Vec<u8, A>, AllocError>
    requires { length (written Explicit set.now) < 2 ^ 32 }
    ensures written { IfOk result (λ v. v.items ≡ written syntax set.now) }
    // Reading the bytes gives the data set again; in Implicit VR only if reading gives each tag the VR that it has.
    ensures again { KeepsVrs syntax set.now → IfOk result (λ v. SpellsSet syntax v.items set.now) }
{
    set.is_a_data_set();
    let mut out = Vec::with_capacity(alloc, set_size(syntax, set) as usize)?;
    put_set(&mut out, syntax, set)?;
    Ok(out)
}
