//! Unique identifiers.

ghost use Rattle.std.specs.Prelude.{◌≡◌, ◌↔◌, ◌≤◌, ◌++◌, ◌-◌, ◌&&◌, ◌==◌, nat_lt, slice_index, List, ℕ, length, replicate, IsTrue, MatchOption};
ghost use Rattle.std.specs.List.{list_all, prefix_len, slice_split};
ghost use Rattle.ups_pdu.specs.Identifier.{is_digit, is_dot, is_component, IsUid, SpellsUid};

use crate::text::without_padding;
use std::hash::{Hash, Hasher};
use std::marker::Model;

/// A unique identifier (PS3.5 section 9): 1 to 64 bytes, digits and dots. It holds its bytes in place, so copying it
/// allocates no memory. Contracts see it as the list of its bytes.
#[derive(Clone, Copy)]
pub struct Uid {
    bytes: [u8; 64],
    len: usize,
}

impl Model for Uid {
    ghost use Rattle.std.specs.Prelude.{◌≡◌, ◌≤◌, ◌-◌, ◌++◌, List, ℕ, length, take, drop, replicate};
    ghost use Rattle.ups_pdu.specs.Identifier.{IsUid};
    ghost use Rattle.ups_pdu.specs.InPlace.{array_again};

    ghost Value = { List ℕ };

    ghost view = { λ u. take u.len u.bytes };

    ghost invariant = { λ u. (u.len ≤ 64) × (length u.bytes ≡ 64) × (drop u.len u.bytes ≡ replicate (64 - u.len) 0) × IsUid (take u.len u.bytes) };

    ghost inverse = { λ t. record { bytes = t ++ replicate (64 - length t) 0; len = length t } };

    ghost inverse_ok = { λ a h. let e = array_again 64 a.bytes a.len h.0 h.1 h.2 in λ i. record { bytes = e.0 i; len = e.1 i } };
}

/// Returns the number of digits at the front of a text.
fn digits_len(text: &[u8]) -> usize
    ensures len { result ≡ prefix_len is_digit text.now }
    ensures bound { result ≤ length text.now }
{
    text.iter()
        .take_while(|byte| b'0' <= **byte && **byte <= b'9')
        .count()
}

/// Returns whether more digits follow a zero, which a component does not begin with (PS3.5 section 9.1).
fn has_leading_zero(digits: &[u8]) -> bool
    ensures { result ≡ (nat_lt 1 (length digits.now) && (slice_index digits.now 0 == 48)) }
{
    digits.len() > 1 && digits[0] == b'0'
}

/// Returns whether the text is components, separated by dots (PS3.5 section 9.1).
fn are_components(text: &[u8]) -> bool
    ensures { result ≡ list_all is_component (slice_split is_dot text.now) }
{
    let mut rest = text;
    loop {
        let (digits, behind) = rest.split_at(digits_len(rest));
        if digits.is_empty() || has_leading_zero(digits) {
            return false;
        }
        let Some((byte, after)) = behind.split_first() else {
            return true;
        };
        if *byte != b'.' {
            return false;
        }
        rest = after;
    }
}

fn is_uid(text: &[u8]) -> bool
    ensures { IsTrue result ↔ IsUid text.now }
{
    !text.is_empty() && text.len() <= 64 && are_components(text)
}

/// Returns the text, followed by zeros.
fn in_place(text: &[u8]) -> [u8; 64]
    requires { length text.now ≤ 64 }
    ensures { result ≡ text.now ++ replicate (64 - length text.now) 0 }
{
    let mut bytes = [0; 64];
    bytes[..text.len()].copy_from_slice(text);
    bytes
}

impl Uid {
    /// Returns the UID encoded in the bytes, without the spaces and NULs after it, or None if they encode no UID.
    pub fn of(bytes: &[u8]) -> Option<Uid>
        ensures { MatchOption result ((uid : List ℕ) → SpellsUid bytes.now uid → ⊥) (SpellsUid bytes.now) }
    {
        let text = without_padding(bytes);
        if !is_uid(text) {
            return None;
        }
        Some(Uid {
            bytes: in_place(text),
            len: text.len(),
        })
    }

    /// Returns the bytes of the UID, without padding.
    pub fn as_bytes(&self) -> &[u8]
        ensures bytes { result.now ≡ self.now }
        ensures is_uid { IsUid self.now }
    {
        &self.bytes[..self.len]
    }
}

impl PartialEq for Uid {
    ghost use Rattle.std.specs.Prelude.{nat_eq};
    ghost use Rattle.std.specs.Cmp.Lexicographic.{pointwise, nat_list_eq_equiv};
    ghost use Rattle.std.specs.Cmp.{partial_equiv_from_equiv};

    ghost eq = { λ a b. pointwise nat_eq a b };

    ghost laws = { partial_equiv_from_equiv nat_list_eq_equiv };

    fn eq(&self, other: &Uid) -> bool {
        self.as_bytes() == other.as_bytes()
    }
}

impl Eq for Uid {
    ghost use Rattle.std.specs.Cmp.Lexicographic.{nat_list_eq_equiv};

    ghost laws = { nat_list_eq_equiv };
}

impl Hash for Uid {
    ghost use Rattle.std.specs.Hash as fed;
    ghost use Rattle.std.proofs.Common.{rules};
    ghost use Rattle.std.specs.Cmp.Rules.{hashing};

    ghost hash_input = { λ u. fed.slice fed.u8 u };

    ghost respects_eq = { Prim.search (hashing, rules) };

    fn hash<H: Hasher>(&self, state: &mut H) {
        self.as_bytes().hash(state);
    }
}
