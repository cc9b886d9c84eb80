//! The headers of elements and items (PS3.5 sections 7.1.2, 7.1.3 and 7.5).

ghost use Rattle.std.specs.Prelude.{◌≡◌, ◌<◌, ◌∷◌, ◌++◌, ℕ, List, ◌⊎◌, Option, None, Some, length, MatchOption, MatchResult};
ghost use Rattle.std.specs.Int.{w16, to_le_bytes};
ghost use Rattle.ups_dataset.specs.declared.tag.Tag.{Tag};
ghost use Rattle.ups_dataset.specs.declared.head.Head.TheVariants.{Known, Strange};
ghost use Rattle.ups_pdu.specs.declared.syntax.TransferSyntax.TheVariants.{Explicit};
ghost use Rattle.ups_dataset.specs.Head.{implicit_vr, is_sequence, head_fault, item_fault, length_fault, IsMark, IsShortHead, IsLongHead, IsStrange, IsHead, HeadFails, IsKnown, ItemHeadFails, IsSequenceItem, Ends, Opens};

use crate::dictionary::vr_of;
use crate::fault::SetFault;
use crate::limits::{MAX_DEPTH, MAX_SHORT_LENGTH, UNDEFINED_LENGTH};
use crate::tag::{ITEM, Tag};
use crate::vr::Vr;
use ups_pdu::{TransferSyntax, le_u16_at, le_u32_at};

/// The extent of a data set or of the items of a sequence: they fill their bytes, or a mark ends them.
#[derive(Clone, Copy, Debug, PartialEq, Eq)]
pub(crate) enum Reach {
    /// The length is defined, and they fill it.
    Filled,
    /// The length is undefined, and a mark ends them.
    Ended,
}

/// The header at the front of bytes, where an element is expected.
#[derive(Clone, Copy, Debug, PartialEq, Eq)]
pub(crate) enum Head {
    /// The header of an element: its tag, its value representation and its length.
    Known(Tag, Vr, u32),
    /// A tag, with letters that are not a value representation.
    Strange(Tag),
    /// An item or an end (group FFFE): its tag and its length.
    Mark(Tag, u32),
}

/// Returns the VR of an element without letters: that of the dictionary, or Unknown for a value that is longer than
/// that VR allows.
fn implicit_vr(tag: Tag, len: u32) -> Vr
    ensures { result ≡ implicit_vr tag len }
{
    let vr = vr_of(tag);
    if MAX_SHORT_LENGTH < len && len < UNDEFINED_LENGTH && !vr.is_long() {
        return Vr::Un;
    }
    vr
}

/// Returns whether items follow the header: those of a sequence, or of an unknown value of undefined length.
pub(crate) fn is_sequence(vr: Vr, len: u32) -> bool
    ensures { result ≡ is_sequence vr len }
{
    match vr {
        Vr::Sq => true,
        Vr::Un => len == UNDEFINED_LENGTH,
        _ => false,
    }
}

/// Reads a tag and a length, and returns them with the bytes that follow.
pub(crate) fn mark_at(text: &[u8]) -> Option<(Tag, u32, &[u8])>
    ensures { MatchOption result (length text.now < 8) (λ x. IsMark text.now x.0 x.1 x.2.now) }
{
    let (tag, after) = Tag::at(text)?;
    let (len, rest) = le_u32_at(after)?;
    Some((tag, len, rest))
}

/// Reads two bytes and a number of two bytes, and returns them with the bytes that follow.
fn letters_at(text: &[u8]) -> Option<(u8, u8, u16, &[u8])>
    ensures { MatchOption result (length text.now < 4) (λ x. text.now ≡ x.0 ∷ x.1 ∷ (to_le_bytes w16 x.2 ++ x.3.now)) }
{
    let [first, second, after @ ..] = text else {
        return None;
    };
    let (number, rest) = le_u16_at(after)?;
    Some((*first, *second, number, rest))
}

/// Reads a header with letters, and returns it with the bytes that follow.
fn explicit_at(text: &[u8]) -> Option<(Head, &[u8])>
    ensures { MatchOption result
        ((tag : Tag) → (vr : Vr) → (len : ℕ) → (rest : List ℕ) → (IsShortHead text.now tag vr len rest → ⊥) × (IsLongHead text.now tag vr len rest → ⊥) × (IsStrange text.now tag rest → ⊥))
        (λ x. (tag : Tag) × (((vr : Vr) × (len : ℕ) × (x.0 ≡ Known tag vr len) × IsShortHead text.now tag vr len x.1.now)
        ⊎ (((vr : Vr) × (len : ℕ) × (x.0 ≡ Known tag vr len) × IsLongHead text.now tag vr len x.1.now) ⊎ ((x.0 ≡ Strange tag) × IsStrange text.now tag x.1.now)))) }
{
    let (tag, after) = Tag::at(text)?;
    let (first, second, short, rest) = letters_at(after)?;
    let Some(vr) = Vr::of(first, second) else {
        return Some((Head::Strange(tag), rest));
    };
    if !vr.is_long() {
        return Some((Head::Known(tag, vr, u32::from(short)), rest));
    }
    let (len, rest) = le_u32_at(rest)?;
    Some((Head::Known(tag, vr, len), rest))
}

/// Reads a header, and returns it with the bytes that follow.
fn head_at(syntax: TransferSyntax, text: &[u8]) -> Option<(Head, &[u8])>
    ensures { MatchOption result ((head : Head) → (rest : List ℕ) → IsHead syntax text.now head rest → ⊥) (λ x. IsHead syntax text.now x.0 x.1.now) }
{
    let (tag, len, rest) = mark_at(text)?;
    if tag.is_mark() {
        return Some((Head::Mark(tag, len), rest));
    }
    match syntax {
        TransferSyntax::Implicit => Some((Head::Known(tag, implicit_vr(tag, len), len), rest)),
        TransferSyntax::Explicit => {
            let (head, rest) = explicit_at(text)?;
            Some((head, rest))
        }
    }
}

/// Returns the first fault of a defined length that `room` bytes follow.
fn length_fault(len: u32, room: usize) -> Option<SetFault>
    ensures { result ≡ length_fault len room }
{
    if len % 2 != 0 {
        return Some(SetFault::OddLength);
    }
    if room < len as usize {
        return Some(SetFault::Short);
    }
    None
}

/// Returns the first fault of a header that `room` bytes follow. A tag below `from` is a fault.
fn head_fault(from: u64, head: Head, room: usize) -> Option<SetFault>
    ensures { result ≡ head_fault from head room }
{
    match head {
        Head::Known(tag, vr, len) => {
            if u64::from(tag.number()) < from {
                return Some(SetFault::TagOrder);
            }
            if len == UNDEFINED_LENGTH {
                if is_sequence(vr, len) {
                    return None;
                }
                return Some(SetFault::BadItem);
            }
            length_fault(len, room)
        }
        Head::Strange(tag) => {
            if u64::from(tag.number()) < from {
                return Some(SetFault::TagOrder);
            }
            Some(SetFault::BadVr)
        }
        Head::Mark(_, _) => Some(SetFault::BadItem),
    }
}

/// Returns the first fault of the header of an item that `room` bytes follow, inside `level` items.
fn item_fault(level: u8, len: u32, room: usize) -> Option<SetFault>
    ensures { result ≡ item_fault level len room }
{
    if len != UNDEFINED_LENGTH {
        if len % 2 != 0 {
            return Some(SetFault::OddLength);
        }
        if room < len as usize {
            return Some(SetFault::Short);
        }
    }
    if level < MAX_DEPTH {
        return None;
    }
    Some(SetFault::Depth)
}

/// Reads the header of the element at the front, and returns its tag, VR and length with the bytes that follow.
#[inline(always)]
pub(crate) fn known_at(
    syntax: TransferSyntax,
    from: u64,
    text: &[u8],
) -> Result<(Tag, Vr, u32, &[u8]), SetFault>
    ensures { MatchResult result (λ x. IsKnown syntax from text.now x.0 x.1 x.2 x.3.now) (HeadFails syntax from text.now) }
{
    let Some((head, rest)) = head_at(syntax, text) else {
        return Err(SetFault::Short);
    };
    if let Some(fault) = head_fault(from, head, rest.len()) {
        return Err(fault);
    }
    match head {
        Head::Known(tag, vr, len) => Ok((tag, vr, len, rest)),
        Head::Strange(_) => Err(SetFault::BadVr),
        Head::Mark(_, _) => Err(SetFault::BadItem),
    }
}

/// Reads the header of the item at the front, and returns its length with the bytes that follow.
pub(crate) fn item_at(level: u8, text: &[u8]) -> Result<(u32, &[u8]), SetFault>
    ensures { MatchResult result (λ x. IsSequenceItem level text.now x.0 x.1.now) (ItemHeadFails level text.now) }
{
    let Some((tag, len, rest)) = mark_at(text) else {
        return Err(SetFault::Short);
    };
    if tag != ITEM {
        return Err(SetFault::BadItem);
    }
    if let Some(fault) = item_fault(level, len, rest.len()) {
        return Err(fault);
    }
    Ok((len, rest))
}

/// Returns the bytes that follow the end, if the end is at the front.
pub(crate) fn end_at(mark: Tag, reach: Reach, text: &[u8]) -> Option<&[u8]>
    ensures { MatchOption result ((rest : List ℕ) → Ends mark reach text.now rest → ⊥) (λ x. Ends mark reach text.now x.now) }
{
    match reach {
        Reach::Filled => {
            if text.is_empty() {
                return Some(text);
            }
            None
        }
        Reach::Ended => {
            let (tag, len, rest) = mark_at(text)?;
            if tag == mark && len == 0 {
                return Some(rest);
            }
            None
        }
    }
}
