//! Items and sub-items of the association PDUs, in any order (PS3.8 section 9.3.2).

ghost use Rattle.std.specs.Prelude.{◌≡◌, ◌↔◌, ◌<◌, ◌∷◌, [], ℕ, List, length, IsTrue, IsSome, IfOk, IfSome, MatchOption, Option};
ghost use Rattle.std.specs.Option.{option_copied, option_to_list};
ghost use Rattle.std.specs.List.{list_all};
ghost use Rattle.ups_pdu.specs.Each.{Each};
ghost use Rattle.ups_pdu.specs.Item.{Item, IsItem, is_one_of, EachSpells, HasContents, IsNext};

use crate::number::be_u16_at;
use std::alloc::{AllocError, Allocator};

/// Reads the type and the content of the item at the front, and returns them with the bytes that follow.
pub(crate) fn item_at(bytes: &[u8]) -> Option<(u8, &[u8], &[u8])>
    ensures { MatchOption result ((item : Item) → (rest : List ℕ) → IsItem bytes.now item rest → ⊥)
        (λ x. IsItem bytes.now (record { kind = x.0; content = x.1.now }) x.2.now) }
{
    let [kind, _, after @ ..] = bytes else {
        return None;
    };
    let (len, rest) = be_u16_at(after)?;
    let len = usize::from(len);
    if rest.len() < len {
        return None;
    }
    let (content, rest) = rest.split_at(len);
    Some((*kind, content, rest))
}

/// Returns the content of the first item of type `kind`, and the bytes that follow that item.
pub(crate) fn next_of(kind: u8, bytes: &[u8]) -> Option<(&[u8], &[u8])>
    ensures next { (found : List (List ℕ)) → HasContents kind bytes.now found → MatchOption result (found ≡ []) (λ x. IsNext kind x.0.now x.1.now found) }
    ensures shorter { IfSome result (λ x. length x.1.now < length bytes.now) }
{
    let mut rest = bytes;
    while let Some((found, content, after)) = item_at(rest) {
        if found == kind {
            return Some((content, after));
        }
        rest = after;
    }
    None
}

/// Returns whether each item has one of the types in `kinds`.
pub(crate) fn has_only(kinds: &[u8], bytes: &[u8]) -> bool
    ensures { (items : List Item) → Each IsItem bytes.now items → result ≡ list_all (is_one_of kinds.now) items }
{
    let mut rest = bytes;
    while let Some((kind, _, after)) = item_at(rest) {
        if !kinds.contains(&kind) {
            return false;
        }
        rest = after;
    }
    true
}

/// Returns whether there is an item of type `kind`.
pub(crate) fn has(kind: u8, bytes: &[u8]) -> bool
    ensures { (found : List (List ℕ)) → HasContents kind bytes.now found → IsTrue result ↔ (found ≡ [] → ⊥) }
{
    next_of(kind, bytes).is_some()
}

/// Returns the content of the item of type `kind` if there is one, or None if there are several.
pub(crate) fn optional_content(kind: u8, bytes: &[u8]) -> Option<Option<&[u8]>>
    ensures { (found : List (List ℕ)) → HasContents kind bytes.now found
        → MatchOption result ((content : Option (List ℕ)) → found ≡ option_to_list content → ⊥) (λ x. found ≡ option_to_list (option_copied x)) }
{
    let Some((content, after)) = next_of(kind, bytes) else {
        return Some(None);
    };
    match next_of(kind, after) {
        Some(_) => None,
        None => Some(Some(content)),
    }
}

/// A value encoded in the content of an item, read without allocating memory.
pub(crate) trait Spelled: Copy {
    ghost spells: { List ℕ → Self → Type 0 };

    fn spelled_by(content: &[u8]) -> Option<Self>
        ensures { MatchOption result ((x : Self) → spells content.now x → ⊥) (spells content.now) };
}

/// Returns the value of the item of type `kind` if there is one, or None if it is malformed or there are several.
pub(crate) fn optional<T: Spelled>(kind: u8, bytes: &[u8]) -> Option<Option<T>>
    ensures { (found : List (List ℕ)) → HasContents kind bytes.now found
        → MatchOption result ((x : Option T) → EachSpells T.spells found (option_to_list x) → ⊥) (λ x. EachSpells T.spells found (option_to_list x)) }
{
    let Some(content) = optional_content(kind, bytes)? else {
        return Some(None);
    };
    let x = T::spelled_by(content)?;
    Some(Some(x))
}

/// Returns the value of the only item of type `kind`.
pub(crate) fn only<T: Spelled>(kind: u8, bytes: &[u8]) -> Option<T>
    ensures { (found : List (List ℕ)) → HasContents kind bytes.now found
        → MatchOption result ((x : T) → EachSpells T.spells found (x ∷ []) → ⊥) (λ x. EachSpells T.spells found (x ∷ [])) }
{
    optional(kind, bytes)?
}

/// Returns whether each item of type `kind` encodes a value.
pub(crate) fn are_all<T: Spelled>(kind: u8, bytes: &[u8]) -> bool
    ensures { (found : List (List ℕ)) → HasContents kind bytes.now found → IsTrue result ↔ ((xs : List T) × EachSpells T.spells found xs) }
{
    let mut rest = bytes;
    while let Some((content, after)) = next_of(kind, rest) {
        let Some(_) = T::spelled_by(content) else {
            return false;
        };
        rest = after;
    }
    true
}

/// Returns the values of the items of type `kind`, in order, and skips malformed items.
pub(crate) fn all_of<A: Allocator + Copy, T: Spelled>(
    alloc: A,
    kind: u8,
    bytes: &[u8],
) -> Result<Vec<T, A>, AllocError>
    ensures { (found : List (List ℕ)) → HasContents kind bytes.now found → (xs : List T) → EachSpells T.spells found xs
        → IfOk result (λ v. EachSpells T.spells found v.items) }
{
    let mut all = Vec::new(alloc);
    let mut rest = bytes;
    while let Some((content, after)) = next_of(kind, rest) {
        if let Some(x) = T::spelled_by(content) {
            all.push(x)?;
        }
        rest = after;
    }
    Ok(all)
}
