//! The first indexed key of a query, by which the held steps are looked up.

ghost use Rattle.std.specs.Prelude.{◌≡◌, ◌||◌, Some, option_copied};
ghost use Rattle.std.specs.List.{list_any};
ghost use Rattle.std.specs.Ordering.{int_eq};
ghost use Rattle.ups_pdu.specs.Padding.{is_nil};
ghost use Rattle.ups_dataset.specs.Data.{bytes, items, elements_of, items_of};
ghost use Rattle.ups_dataset.specs.declared.dictionary.TheConstants.{SCHEDULED_PROCEDURE_STEP_START_DATE_TIME};
ghost use Rattle.ups_match.specs.Class.{is_special, plain, plain_value, plain_code, text_asked, range_key, start_key, first_of, first_among, first_view};
ghost use Rattle.ups_match.specs.Matching.{value_at};

use crate::indexed::{INDEXED, Indexed, KeyKind};
use crate::ranges::{Span, span_of};
use crate::texts::is_universal_text;
use std::alloc::Allocator;
use ups_dataset::dictionary::{CODE_VALUE, SCHEDULED_PROCEDURE_STEP_START_DATE_TIME};
use ups_dataset::{DataSet, Tag, Value};
use ups_pdu::without_padding;

/// The key by which the held steps are looked up.
#[derive(Clone, Copy, Debug)]
pub enum First<'a> {
    /// The value of an attribute, without padding. In a code sequence it is the code value of an item.
    Value(Tag, &'a [u8]),
    /// The moments of the start.
    Start(Span),
    /// No key: every step is looked at.
    All,
}

/// Returns whether a byte is a wild card or the separator of values.
fn is_special(byte: u8) -> bool
    ensures { result ≡ is_special byte }
{
    byte == b'*' || byte == b'?' || byte == b'\\'
}

/// Returns whether a text has a wild card or a separator of values.
fn has_special(text: &[u8]) -> bool
    ensures { result ≡ list_any is_special text.now }
{
    text.iter().any(|byte| is_special(*byte))
}

/// Returns whether a text is empty, or has a wild card or a separator of values.
fn is_wild(text: &[u8]) -> bool
    ensures { result ≡ (is_nil text.now || list_any is_special text.now) }
{
    text.is_empty() || has_special(text)
}

/// Returns the text if it is a single value that is not empty and has no wild cards.
fn plain(text: &[u8]) -> Option<&[u8]>
    ensures { option_copied result ≡ plain text.now }
{
    if is_wild(text) {
        return None;
    }
    Some(text)
}

/// Returns the single value that the key with a tag asks for.
fn plain_value<A: Allocator + Copy>(keys: &DataSet<A>, tag: Tag) -> Option<&[u8]>
    ensures { option_copied result ≡ plain_value (value_at tag (elements_of keys.now)) }
{
    let Some(key) = keys.get(tag) else {
        return None;
    };
    match &key.value {
        Value::Bytes(bytes) => plain(without_padding(bytes.as_slice())),
        Value::Items(_) => None,
    }
}

/// Returns the single code value that the first item asks for.
fn code_of<A: Allocator + Copy>(sets: &[DataSet<A>]) -> Option<&[u8]>
    ensures { option_copied result ≡ plain_code (Some (items (items_of sets.now))) }
{
    let Some(item) = sets.first() else {
        return None;
    };
    plain_value(item, CODE_VALUE)
}

/// Returns the single code value that the first item of the key with a tag asks for.
fn plain_code<A: Allocator + Copy>(keys: &DataSet<A>, tag: Tag) -> Option<&[u8]>
    ensures { option_copied result ≡ plain_code (value_at tag (elements_of keys.now)) }
{
    let Some(key) = keys.get(tag) else {
        return None;
    };
    match &key.value {
        Value::Bytes(_) => None,
        Value::Items(sets) => code_of(sets),
    }
}

/// Returns the single value or code value that an indexed key asks for.
fn text_asked<A: Allocator + Copy>(keys: &DataSet<A>, indexed: Indexed) -> Option<&[u8]>
    ensures { option_copied result ≡ text_asked indexed.kind (value_at indexed.tag (elements_of keys.now)) }
{
    match indexed.kind {
        KeyKind::Value => plain_value(keys, indexed.tag),
        KeyKind::Code => plain_code(keys, indexed.tag),
    }
}

/// Returns whether two offsets are the same.
fn is_same(one: i16, other: i16) -> bool
    ensures { result ≡ int_eq one other }
{
    one == other
}

/// Returns the range of the start in a key, if it is not universal and `offset` is that of the service, `configured`.
fn range_of(text: &[u8], offset: i16, configured: i16) -> Option<Span>
    ensures { range_key result ≡ start_key configured offset (Some (bytes text.now)) }
{
    if is_universal_text(text) {
        return None;
    }
    if !is_same(offset, configured) {
        return None;
    }
    span_of(without_padding(text), offset)
}

/// Returns the range of the start in the keys, if it is not universal and `offset` is that of the service,
/// `configured`.
fn start_range<A: Allocator + Copy>(keys: &DataSet<A>, offset: i16, configured: i16) -> Option<Span>
    ensures { range_key result ≡ start_key configured offset (value_at SCHEDULED_PROCEDURE_STEP_START_DATE_TIME (elements_of keys.now)) }
{
    let Some(key) = keys.get(SCHEDULED_PROCEDURE_STEP_START_DATE_TIME) else {
        return None;
    };
    match &key.value {
        Value::Bytes(bytes) => range_of(bytes.as_slice(), offset, configured),
        Value::Items(_) => None,
    }
}

/// Returns the first key of a table among the keys, or else the range of the start.
fn first_of<'a, A: Allocator + Copy>(
    table: &[Indexed],
    keys: &'a DataSet<A>,
    offset: i16,
    configured: i16,
) -> First<'a>
    ensures { first_view result ≡ first_of table.now (elements_of keys.now) (start_key configured offset (value_at SCHEDULED_PROCEDURE_STEP_START_DATE_TIME (elements_of keys.now))) }
{
    for indexed in table {
        if let Some(text) = text_asked(keys, *indexed) {
            return First::Value(indexed.tag, text);
        }
    }
    match start_range(keys, offset, configured) {
        Some(span) => First::Start(span),
        None => First::All,
    }
}

/// Returns the first indexed key among the keys.
pub(crate) fn first_among<A: Allocator + Copy>(
    keys: &DataSet<A>,
    offset: i16,
    configured: i16,
) -> First<'_>
    ensures { first_view result ≡ first_among configured offset (elements_of keys.now) }
{
    first_of(&INDEXED, keys, offset, configured)
}
