//! The matching of the texts of keys with stored texts (PS3.4 section C.2.2.2).

ghost use Rattle.std.specs.Prelude.{◌≡◌, false};
ghost use Rattle.std.specs.Str.{bytes_eq};
ghost use Rattle.ups_match.specs.Likeness.{is_like};
ghost use Rattle.ups_match.specs.Matching.{matches_text};
ghost use Rattle.ups_match.specs.Met.{text_met};
ghost use Rattle.ups_match.specs.Ranges.{span_of, spans};
ghost use Rattle.ups_match.specs.Moments.{moment};
ghost use Rattle.ups_match.specs.Values.{any_value, is_universal_text, shares_uid};

use crate::likeness::{is_longer, likes};
use crate::moments::read_dt;
use crate::ranges::span_of;
use crate::rule::Rule;
use ups_pdu::without_padding;

/// Returns whether a key matches whatever is stored: it is empty or `*`, apart from padding (PS3.4 section C.2.2.2.3).
pub(crate) fn is_universal_text(text: &[u8]) -> bool
    ensures { result ≡ is_universal_text text.now }
{
    let text = without_padding(text);
    text.is_empty() || text == b"*".as_slice()
}

/// Returns whether the text of a key matches a stored text, by the rule for its attribute.
pub(crate) fn matches_text(rule: Rule, offset: i16, key: &[u8], stored: &[u8]) -> bool
    ensures { result ≡ matches_text rule offset key.now stored.now }
{
    match rule {
        Rule::UidList => shares_uid(key, stored),
        _ => is_text_met(rule, offset, without_padding(key), stored),
    }
}

/// Returns whether a stored text meets a key, which has no padding after it unless it is a list of UIDs.
pub(crate) fn is_text_met(rule: Rule, offset: i16, key: &[u8], stored: &[u8]) -> bool
    ensures { result ≡ text_met rule offset key.now stored.now }
{
    match rule {
        Rule::UidList => shares_uid(key, stored),
        Rule::WildCards => is_any_like(key, stored),
        Rule::WildCardsInText => is_long_and_like(key, without_padding(stored)),
        Rule::Range => is_in_range(key, without_padding(stored), offset),
        Rule::OneOfValues => is_any_equal(key, stored),
        Rule::WholeValue => key == without_padding(stored),
    }
}

/// Returns whether a stored text is a moment that a key includes.
fn is_in_range(key: &[u8], stored: &[u8], offset: i16) -> bool
    ensures { result ≡ spans (span_of offset key.now) (moment stored.now offset false) }
{
    match (span_of(key, offset), read_dt(stored, offset, false)) {
        (Some(span), Some(moment)) => span.takes_in(moment),
        _ => false,
    }
}

/// Returns whether one of the UIDs of a list is one of the stored UIDs (PS3.4 section C.2.2.2.2), comparing them one by
/// one.
pub(crate) fn shares_uid(key: &[u8], stored: &[u8]) -> bool
    ensures { result ≡ shares_uid key.now stored.now }
{
    key.split(|byte| *byte == b'\\')
        .any(|uid| is_any_equal(without_padding(uid), stored))
}

/// Returns whether one of the stored values is like a pattern.
fn is_any_like(pattern: &[u8], stored: &[u8]) -> bool
    ensures { result ≡ any_value (is_like pattern.now) stored.now }
{
    stored
        .split(|byte| *byte == b'\\')
        .any(|value| is_long_and_like(pattern, without_padding(value)))
}

/// Returns whether a value is like a pattern, without going through a long pattern for a short value.
#[tactic(auto, using(crate::proofs::Lengths::too_short))]
fn is_long_and_like(pattern: &[u8], value: &[u8]) -> bool
    ensures { result ≡ is_like pattern.now value.now }
{
    if is_longer(pattern, value.len()) {
        return false;
    }
    likes(pattern, value)
}

/// Returns whether one of the stored values is equal to `text`.
fn is_any_equal(text: &[u8], stored: &[u8]) -> bool
    ensures { result ≡ any_value (bytes_eq text.now) stored.now }
{
    stored
        .split(|byte| *byte == b'\\')
        .any(|value| text == without_padding(value))
}
