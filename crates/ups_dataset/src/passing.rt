//! Finding the first fault of bytes, without allocating memory.

ghost use Rattle.std.specs.Prelude.{◌≡◌, ◌<◌, ◌≤◌, false, length, MatchResult};
ghost use Rattle.ups_dataset.specs.Data.{Data, Items, Elements};
ghost use Rattle.ups_dataset.specs.Head.{IsLength, IsDelimited, is_sequence, rest_behind};
ghost use Rattle.ups_dataset.specs.Spelling.{inside, SpellsElements, SpellsValue, SpellsItems};
ghost use Rattle.ups_dataset.specs.Failing.{ElementsFail, ValueFails, ItemsFail};
ghost use Rattle.ups_dataset.specs.Limits.{max_depth, undefined_length};

use crate::fault::SetFault;
use crate::head::{Reach, end_at, is_sequence, item_at, known_at};
use crate::limits::{MAX_DEPTH, UNDEFINED_LENGTH};
use crate::tag::{ITEM_DELIMITATION, SEQUENCE_DELIMITATION};
use crate::vr::Vr;
use ups_pdu::TransferSyntax;

/// Returns the transfer syntax of the items that follow a header.
pub(crate) fn inside(syntax: TransferSyntax, vr: Vr) -> TransferSyntax
    ensures { result ≡ inside syntax vr }
{
    match vr {
        Vr::Un => TransferSyntax::Implicit,
        _ => syntax,
    }
}

/// Returns the reach of the content after a length, its bytes, and the bytes that follow. For an undefined length,
/// both are `after`.
pub(crate) fn opened(len: u32, after: &[u8]) -> (Reach, &[u8], &[u8])
    requires { IsLength len (length after.now) }
    ensures { IsDelimited len after.now result.0 result.1.now result.2.now }
{
    if len == UNDEFINED_LENGTH {
        return (Reach::Ended, after, after);
    }
    let (inner, behind) = after.split_at(len as usize);
    (Reach::Filled, inner, behind)
}

/// Returns the bytes that follow the content after a length, of which `left` is left over.
pub(crate) fn rest_behind<'a>(reach: Reach, left: &'a [u8], behind: &'a [u8]) -> &'a [u8]
    ensures { result.now ≡ rest_behind reach left.now behind.now }
{
    match reach {
        Reach::Filled => behind,
        Reach::Ended => left,
    }
}

/// Passes over the value that follows a header, and returns the bytes that follow.
#[cycle(passing)]
fn value_end(
    syntax: TransferSyntax,
    level: u8,
    vr: Vr,
    len: u32,
    after: &[u8],
) -> Result<&[u8], SetFault>
    requires nested { level ≤ max_depth }
    requires fits { IsLength len (length after.now) }
    requires bytes { is_sequence vr len ≡ false → len < undefined_length }
    ensures { MatchResult result (λ rest. (kept : Vr) × (d : Data) × SpellsValue syntax level vr len after.now kept d rest.now) (ValueFails syntax level vr len after.now) }
{
    if !is_sequence(vr, len) {
        let (_, rest) = after.split_at(len as usize);
        return Ok(rest);
    }
    let (reach, inner, behind) = opened(len, after);
    let left = items_end(inside(syntax, vr), level, reach, inner)?;
    Ok(rest_behind(reach, left, behind))
}

/// Passes over the elements at the front, inside `level` items, and returns the bytes that follow and the number of
/// elements.
#[cycle(passing)]
pub(crate) fn elements_end(
    syntax: TransferSyntax,
    level: u8,
    reach: Reach,
    text: &[u8],
) -> Result<(&[u8], usize), SetFault>
    requires { level ≤ max_depth }
    ensures { MatchResult result (λ x. (es : Elements) × SpellsElements syntax level reach 0 text.now es x.0.now) (ElementsFail syntax level reach 0 text.now) }
{
    let mut count: usize = 0;
    let mut from = 0;
    let mut rest = text;
    loop {
        if let Some(end) = end_at(ITEM_DELIMITATION, reach, rest) {
            return Ok((end, count));
        }
        let (tag, vr, len, after) = known_at(syntax, from, rest)?;
        rest = value_end(syntax, level, vr, len, after)?;
        from = u64::from(tag.number()) + 1;
        count = count.saturating_add(1);
    }
}

/// Passes over the items at the front, inside `level` others, and returns the bytes that follow.
#[cycle(passing)]
fn items_end(
    syntax: TransferSyntax,
    level: u8,
    reach: Reach,
    text: &[u8],
) -> Result<&[u8], SetFault>
    requires { level ≤ max_depth }
    ensures { MatchResult result (λ rest. (is : Items) × SpellsItems syntax level reach text.now is rest.now) (ItemsFail syntax level reach text.now) }
{
    let mut rest = text;
    loop {
        if let Some(end) = end_at(SEQUENCE_DELIMITATION, reach, rest) {
            return Ok(end);
        }
        let (len, after) = item_at(level, rest)?;
        let (within, inner, behind) = opened(len, after);
        let (left, _) = elements_end(syntax, level + 1, within, inner)?;
        rest = rest_behind(within, left, behind);
    }
}
