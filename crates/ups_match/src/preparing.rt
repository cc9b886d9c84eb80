//! The preparation of keys, done once for many data sets.

ghost use Rattle.std.specs.Prelude.{◌≡◌, ◌||◌, ℤ, Option, IfOk};
ghost use Rattle.std.specs.Option.{option_map};
ghost use Rattle.ups_dataset.specs.Data.{Data};
ghost use Rattle.ups_dataset.specs.View as data_set;
ghost use Rattle.ups_match.specs.Matching.{is_universal_key, value_matches};
ghost use Rattle.ups_match.specs.Met.{key_met, Prepares, SaysText};
ghost use Rattle.ups_match.specs.Prepared.{prepared_view};

use crate::faults::key_rule;
use crate::key_tag::KeyTag;
use crate::patterns::shortened;
use crate::prepared::{Prepared, PreparedKey, PreparedValue};
use crate::rule::Rule;
use crate::uids::UidList;
use crate::universal::is_universal_key;
use std::alloc::{AllocError, Allocator};
use ups_dataset::{DataSet, Element, Value};
use ups_pdu::without_padding;

/// The greatest length, in bytes, of a list whose UIDs are compared one by one.
const SHORT_LIST: usize = 256;

/// Prepares the keys of a data set.
///
/// Errors: if memory runs out.
#[cycle(preparing)]
pub(crate) fn prepare_keys<A: Allocator + Copy>(
    keys: &DataSet<A>,
) -> Result<Prepared<A>, AllocError>
    ensures { IfOk result (λ prepared. Prepares prepared keys.now) }
{
    let alloc = keys.allocator();
    let mut prepared = Vec::new(alloc);
    for key in keys.elements() {
        if let Some(value) = prepare_key(alloc, key)? {
            prepared.push(PreparedKey {
                tag: KeyTag::of(key.tag),
                value,
            })?;
        }
    }
    Ok(Prepared::from_vec(prepared))
}

/// Prepares a key, or returns None if it is universal.
///
/// Errors: if memory runs out.
#[cycle(preparing)]
fn prepare_key<A: Allocator + Copy>(
    alloc: A,
    key: &Element<A>,
) -> Result<Option<PreparedValue<A>>, AllocError>
    ensures { IfOk result (λ value. (offset : ℤ) → (stored : Option Data) → key_met offset key.now.tag (option_map prepared_view value) stored ≡ (is_universal_key key.now.tag (data_set.value_view key.now.value) || value_matches offset key.now.tag (data_set.value_view key.now.value) stored)) }
{
    if is_universal_key(key) {
        return Ok(None);
    }
    match &key.value {
        Value::Bytes(text) => Ok(Some(prepare_text(alloc, key_rule(key.tag), text.as_slice())?)),
        Value::Items(sets) => match sets.first() {
            Some(item) => Ok(Some(PreparedValue::Item(prepare_keys(item)?))),
            None => Ok(None),
        },
    }
}

/// Prepares the text of a key that is matched by `rule`.
///
/// Errors: if memory runs out.
fn prepare_text<A: Allocator + Copy>(
    alloc: A,
    rule: Rule,
    key: &[u8],
) -> Result<PreparedValue<A>, AllocError>
    ensures { IfOk result (λ value. SaysText rule key.now (prepared_view value)) }
{
    match rule {
        Rule::UidList if key.len() > SHORT_LIST => {
            Ok(PreparedValue::Uids(UidList::of(alloc, key)?))
        }
        Rule::UidList => Ok(PreparedValue::Text(Vec::from_slice(alloc, key)?)),
        Rule::WildCards | Rule::WildCardsInText => {
            Ok(PreparedValue::Text(shortened(alloc, without_padding(key))?))
        }
        Rule::Range | Rule::OneOfValues | Rule::WholeValue => Ok(PreparedValue::Text(
            Vec::from_slice(alloc, without_padding(key))?,
        )),
    }
}
