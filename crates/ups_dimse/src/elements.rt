//! The elements of a command set (PS3.7 section 6.3.1). In Implicit VR Little Endian, each consists of its tag, the
//! length of its value in four bytes, and its value.

ghost use Rattle.std.specs.Prelude.{◌≡◌, ◌↔◌, ◌%◌, ℕ, List, [], None, Some, length, IsTrue, IfOk, MatchOption, MatchResult};
ghost use Rattle.ups_pdu.specs.Each.{Each};
ghost use Rattle.ups_dataset.specs.declared.tag.Tag.{Tag};
ghost use Rattle.ups_dimse.specs.Elements.{CommandElement, IsCommandElement, SpellsCommandElements, AreCommandElements, value_in};
ghost use Rattle.std.specs.Option.{option_copied};
ghost use Rattle.ups_dimse.specs.Faults.{ReadsOrFails};
ghost use Rattle.ups_dimse.specs.Sorted.{HasValues};
ghost use Rattle.ups_dimse.specs.Values.{HasUs, UsFails, MayHaveUs, PresentUsFails, HasUid, HasDataSet, IsTagAt, HasTags, TagsFail};

use crate::fault::DimseFault;
use crate::numbers::{DATA_SET_TYPE, command_tag};
use crate::tag_list::Tags;
use crate::values::CommandValues;
use std::alloc::{AllocError, Allocator};
use ups_dataset::{Tag, UNDEFINED_LENGTH};
use ups_pdu::{Uid, le_u32_at};

/// The length of the header of an element, in bytes: its tag and the length of its value.
pub const HEADER_LEN: usize = 8;

/// Reads the element at the front and returns its number, its value and the rest, or None if there is none.
#[inline(always)]
fn element_at(bytes: &[u8]) -> Option<(u16, &[u8], &[u8])>
    ensures { MatchOption result
        ((element : CommandElement) → (rest : List ℕ) → IsCommandElement bytes.now element rest → ⊥)
        (λ x. IsCommandElement bytes.now (record { number = x.0; value = x.1.now }) x.2.now) }
{
    if bytes.len() < HEADER_LEN {
        return None;
    }
    let (tag, after) = Tag::at(bytes)?;
    let (len, rest) = le_u32_at(after)?;
    if tag.group != 0 || len == UNDEFINED_LENGTH || len % 2 != 0 || rest.len() < len as usize {
        return None;
    }
    let (value, rest) = rest.split_at(len as usize);
    Some((tag.element, value, rest))
}

/// Returns the values of the elements, or None if the bytes are not elements with rising tags, and nothing else.
pub(crate) fn values_in(bytes: &[u8]) -> Option<CommandValues<'_>>
    ensures { MatchOption result (AreCommandElements 0 bytes.now → ⊥) (λ values. (elements : List CommandElement) × SpellsCommandElements 0 bytes.now elements [] × HasValues elements values) }
{
    let mut values = CommandValues::none();
    let mut from = 0;
    let mut rest = bytes;
    while !rest.is_empty() {
        let Some((number, value, after)) = element_at(rest) else {
            return None;
        };
        if u32::from(number) < from {
            return None;
        }
        values.keep(number, value);
        from = u32::from(number) + 1;
        rest = after;
    }
    Some(values)
}

/// Returns the number that a value with the value representation US encodes (PS3.5 section 6.2). `number` is that of
/// its element.
pub(crate) fn us_of(value: Option<&[u8]>, number: u16) -> Result<u16, DimseFault>
    ensures { (elements : List CommandElement) → option_copied value.entry ≡ value_in number elements → MatchResult result (HasUs elements number) (UsFails elements number) }
{
    let Some(value) = optional_us_of(value, number)? else {
        return Err(DimseFault::Missing(command_tag(number)));
    };
    Ok(value)
}

/// Returns the number that a value with the value representation US encodes, or None if there is no value. `number` is
/// that of its element.
#[inline(always)]
pub(crate) fn optional_us_of(value: Option<&[u8]>, number: u16) -> Result<Option<u16>, DimseFault>
    ensures { (elements : List CommandElement) → option_copied value.entry ≡ value_in number elements → MatchResult result (MayHaveUs elements number) (PresentUsFails elements number) }
{
    let Some(value) = value else {
        return Ok(None);
    };
    if value.len() != 2 {
        return Err(DimseFault::BadValue(command_tag(number)));
    }
    Ok(Some(u16::from_le_bytes([value[0], value[1]])))
}

/// Returns the UID that a value with the value representation UI encodes (PS3.5 section 6.2), or None if it is absent
/// or malformed.
pub(crate) fn uid_of(value: Option<&[u8]>) -> Option<Uid>
    ensures { (elements : List CommandElement) → (number : ℕ) → option_copied value.entry ≡ value_in number elements → HasUid elements number result }
{
    Uid::of(value?)
}

/// Returns whether a data set follows the command (PS3.7 annex E.1, Command Data Set Type).
pub(crate) fn has_data_set(values: &CommandValues<'_>) -> Result<bool, DimseFault>
    ensures { (elements : List CommandElement) → HasValues elements values.now → MatchResult result (HasDataSet elements) (UsFails elements 0x0800) }
{
    Ok(us_of(values.data_set_type, DATA_SET_TYPE)? != 0x0101)
}

/// Returns the tags that the bytes encode.
fn tags_in<A: Allocator + Copy>(alloc: A, bytes: &[u8]) -> Result<Tags<A>, AllocError>
    requires { length bytes.now % 4 ≡ 0 }
    ensures read { IfOk result (Each IsTagAt bytes.now) }
    ensures there { (tags : List Tag) × Each IsTagAt bytes.now tags }
{
    let mut tags = Vec::new(alloc);
    let mut rest = bytes;
    while let Some((tag, after)) = Tag::at(rest) {
        tags.push(tag)?;
        rest = after;
    }
    Ok(Tags::from_vec(tags))
}

/// Returns the tags that a value with the value representation AT encodes (PS3.5 section 6.2), or none if there is no
/// value. `number` is that of its element.
pub(crate) fn tags_of<A: Allocator + Copy>(
    alloc: A,
    value: Option<&[u8]>,
    number: u16,
) -> Result<Tags<A>, DimseFault>
    ensures { (elements : List CommandElement) → option_copied value.entry ≡ value_in number elements → ReadsOrFails (HasTags elements number) (TagsFail elements number) result }
{
    let Some(value) = value else {
        return Ok(Tags::new(alloc));
    };
    if value.len() % 4 != 0 {
        return Err(DimseFault::BadValue(command_tag(number)));
    }
    Ok(tags_in(alloc, value)?)
}
