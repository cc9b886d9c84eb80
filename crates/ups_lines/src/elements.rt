//! The data set of an exact line: each word stands for the bytes of one element, and these follow one another as the
//! words do.

ghost use Rattle.std.specs.Prelude.{◌≡◌, ◌<◌, ◌∷◌, ◌++◌, ℕ, List, length, OnOk, IfOk};
ghost use Rattle.std.specs.Option.{IfSome, option_copied};
ghost use Rattle.ups_lines.specs.Elements.{IsPair, SpellsBytes, IsAttribute, EncodesWord, Encodes};
ghost use Rattle.ups_lines.specs.Words.{words_left};

use crate::fault::{LineFault, LineReason};
use crate::spelling::put_value;
use crate::text::{Text, byte_of};
use crate::words::{Words, filled, tag_of};
use std::alloc::Allocator;

/// Returns the byte that the first two hex digits of a text encode, and what follows. Returns None if the text does not
/// begin with two.
fn pair_of(text: &[u8]) -> Option<(u8, &[u8])>
    ensures pair { IfSome result (λ x. IsPair text.now x.0 x.1.now) }
    ensures falls { IfSome result (λ x. length x.1.now < length text.now) }
{
    let [high, low, rest @ ..] = text else {
        return None;
    };
    Some((byte_of(*high, *low)?, rest))
}

/// Appends the bytes that hex digits encode, two each.
///
/// Errors: Escape; lack of memory.
fn put_digits<A: Allocator + Copy>(out: &mut Vec<u8, A>, digits: &[u8]) -> Result<(), LineFault>
    ensures { OnOk result ((bytes : List ℕ) × SpellsBytes digits.now bytes × (out.new.items ≡ out.old.items ++ bytes)) }
{
    let mut rest = digits;
    while let Some(pair) = pair_of(rest) {
        out.push(pair.0)?;
        rest = pair.1;
    }
    if rest.is_empty() {
        Ok(())
    } else {
        Err(LineFault::Malformed(LineReason::Escape))
    }
}

/// Appends the element that a text makes under the tag that eight hex digits encode.
///
/// Errors: Attribute; Escape; lack of memory.
pub fn put_argument<A: Allocator + Copy>(
    out: &mut Vec<u8, A>,
    digits: &[u8],
    text: &[u8],
) -> Result<(), LineFault>
    ensures { OnOk result ((encoded : List ℕ) × IsAttribute (digits.now ++ (61 ∷ text.now)) encoded × (out.new.items ≡ out.old.items ++ encoded)) }
{
    let Some(tag) = tag_of(digits) else {
        return Err(LineFault::Malformed(LineReason::Attribute));
    };
    let Some(value) = Text::of(text) else {
        return Err(LineFault::Malformed(LineReason::Escape));
    };
    put_value(out, tag, value)
}

/// Returns what follows an equals sign, with which a text begins.
fn value_in(text: &[u8]) -> Option<&[u8]>
    ensures { IfSome result (λ value. text.now ≡ 61 ∷ value.now) }
{
    match text {
        [b'=', value @ ..] => Some(value),
        _ => None,
    }
}

/// Appends the element that `ggggeeee=value` is.
///
/// Errors: Attribute; Escape; lack of memory.
fn put_attribute<A: Allocator + Copy>(out: &mut Vec<u8, A>, word: &[u8]) -> Result<(), LineFault>
    ensures { OnOk result ((encoded : List ℕ) × IsAttribute word.now encoded × (out.new.items ≡ out.old.items ++ encoded)) }
{
    let Some((digits, behind)) = word.split_at_checked(8) else {
        return Err(LineFault::Malformed(LineReason::Attribute));
    };
    let Some(text) = value_in(behind) else {
        return Err(LineFault::Malformed(LineReason::Attribute));
    };
    put_argument(out, digits, text)
}

/// Appends the bytes that a word stands for.
///
/// Errors: Attribute; Escape; lack of memory.
fn put_word<A: Allocator + Copy>(out: &mut Vec<u8, A>, word: &[u8]) -> Result<(), LineFault>
    ensures { OnOk result ((encoded : List ℕ) × EncodesWord word.now encoded × (out.new.items ≡ out.old.items ++ encoded)) }
{
    match word {
        [b':', digits @ ..] => put_digits(out, digits),
        _ => put_attribute(out, word),
    }
}

/// Returns the bytes that words stand for.
///
/// Errors: EmptyWord, Attribute or Escape at the first word that stands for none; lack of memory.
pub fn elements_of<A: Allocator + Copy>(
    alloc: A,
    mut words: Words<'_>,
) -> Result<Vec<u8, A>, LineFault>
    ensures { IfOk result (λ encoded. Encodes (words_left (option_copied words.entry.rest)) encoded.items) }
{
    let mut out = Vec::new(alloc);
    while let Some(word) = words.front() {
        put_word(&mut out, filled(word)?)?;
    }
    Ok(out)
}
