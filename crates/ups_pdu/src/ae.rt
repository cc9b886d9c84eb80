//! Application entity titles.

ghost use Rattle.std.specs.Prelude.{◌≡◌, ◌↔◌, ◌≤◌, ◌++◌, ◌-◌, List, ℕ, length, replicate, IsTrue, MatchOption};
ghost use Rattle.std.specs.List.{list_all};
ghost use Rattle.ups_pdu.specs.Padding.{is_space, without_leading, without_trailing};
ghost use Rattle.ups_pdu.specs.Title.{is_title_byte, IsAe, SpellsAe};

use std::marker::Model;

/// An application entity title (PS3.8 section 9.3.2): 1 to 16 bytes. It holds its bytes in place, so copying it
/// allocates no memory. Contracts see it as the list of its bytes.
#[derive(Clone, Copy)]
pub struct Ae {
    bytes: [u8; 16],
    len: usize,
}

impl Model for Ae {
    ghost use Rattle.std.specs.Prelude.{◌≡◌, ◌≤◌, ◌-◌, ◌++◌, List, ℕ, length, take, drop, replicate};
    ghost use Rattle.ups_pdu.specs.Title.{IsAe};
    ghost use Rattle.ups_pdu.specs.InPlace.{array_again};

    ghost Value = { List ℕ };

    ghost view = { λ t. take t.len t.bytes };

    ghost invariant = { λ t. (t.len ≤ 16) × (length t.bytes ≡ 16) × (drop t.len t.bytes ≡ replicate (16 - t.len) 0) × IsAe (take t.len t.bytes) };

    ghost inverse = { λ t. record { bytes = t ++ replicate (16 - length t) 0; len = length t } };

    ghost inverse_ok = { λ a h. let e = array_again 16 a.bytes a.len h.0 h.1 h.2 in λ i. record { bytes = e.0 i; len = e.1 i } };
}

fn are_title_bytes(text: &[u8]) -> bool
    ensures { result ≡ list_all is_title_byte text.now }
{
    text.iter().all(|b| *b >= 0x20 && *b <= 0x7e && *b != b'\\')
}

fn is_ae(text: &[u8]) -> bool
    ensures { IsTrue result ↔ IsAe text.now }
{
    !text.is_empty() && text.len() <= 16 && are_title_bytes(text)
}

/// Returns the bytes without the spaces at their front.
fn without_leading_spaces(bytes: &[u8]) -> &[u8]
    ensures { result.now ≡ without_leading is_space bytes.now }
{
    let mut rest = bytes;
    while let Some((first, after)) = rest.split_first() {
        if *first != b' ' {
            return rest;
        }
        rest = after;
    }
    rest
}

/// Returns the bytes without the spaces at their end.
#[tactic(auto, using(crate::proofs::Trailing::space_goes, crate::proofs::Trailing::no_space_stays))]
fn without_trailing_spaces(bytes: &[u8]) -> &[u8]
    ensures { result.now ≡ without_trailing is_space bytes.now }
{
    let mut rest = bytes;
    while let Some((last, front)) = rest.split_last() {
        if *last != b' ' {
            return rest;
        }
        rest = front;
    }
    rest
}

/// Returns the text, followed by zeros.
fn in_place(text: &[u8]) -> [u8; 16]
    requires { length text.now ≤ 16 }
    ensures { result ≡ text.now ++ replicate (16 - length text.now) 0 }
{
    let mut bytes = [0; 16];
    for (i, b) in text.iter().enumerate() {
        bytes[i] = *b;
    }
    bytes
}

impl Ae {
    /// Returns the title encoded in the bytes, without the spaces around it, or None if they encode no title.
    pub fn of(bytes: &[u8]) -> Option<Ae>
        ensures { MatchOption result ((title : List ℕ) → SpellsAe bytes.now title → ⊥) (SpellsAe bytes.now) }
    {
        let text = without_trailing_spaces(without_leading_spaces(bytes));
        if !is_ae(text) {
            return None;
        }
        Some(Ae {
            bytes: in_place(text),
            len: text.len(),
        })
    }

    /// Returns the bytes of the title, without the spaces around it.
    pub fn as_bytes(&self) -> &[u8]
        ensures bytes { result.now ≡ self.now }
        ensures is_ae { IsAe self.now }
    {
        &self.bytes[..self.len]
    }
}

impl PartialEq for Ae {
    ghost use Rattle.std.specs.Prelude.{nat_eq};
    ghost use Rattle.std.specs.Cmp.Lexicographic.{pointwise, nat_list_eq_equiv};
    ghost use Rattle.std.specs.Cmp.{partial_equiv_from_equiv};

    ghost eq = { λ a b. pointwise nat_eq a b };

    ghost laws = { partial_equiv_from_equiv nat_list_eq_equiv };

    fn eq(&self, other: &Ae) -> bool {
        self.as_bytes() == other.as_bytes()
    }
}

impl Eq for Ae {
    ghost use Rattle.std.specs.Cmp.Lexicographic.{nat_list_eq_equiv};

    ghost laws = { nat_list_eq_equiv };
}
