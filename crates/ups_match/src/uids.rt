//! Long lists of UIDs, with the UIDs in order (PS3.4 section C.2.2.2.2).

ghost use Rattle.std.specs.Prelude.{◌≡◌, ◌<◌, ◌≤◌, ◌||◌, ◌∷◌, ℕ, List, IfOk, IfSome, length, option_copied};
ghost use Rattle.std.specs.List.{position_or_len, slice_split};
ghost use Rattle.std.specs.Str.{bytes_eq};
ghost use Rattle.ups_match.specs.Met.{text_met};
ghost use Rattle.ups_match.specs.Uids.{has_uid, values_of};
ghost use Rattle.ups_match.specs.Values.{any_value, is_backslash, shares_uid};

use crate::rule::Rule;
use crate::texts::is_text_met;
use std::alloc::{AllocError, Allocator};
use std::collections::BTreeSet;
use std::marker::Model;
use ups_pdu::without_padding;

/// A list of UIDs, with the UIDs in order. A contract sees the text of the list.
pub(crate) struct UidList<A: Allocator + Copy> {
    text: Vec<u8, A>,
    uids: BTreeSet<Vec<u8, A>, A>,
}

impl<A: Allocator + Copy> Drop for UidList<A> {
    fn drop(self) {
        let UidList { text: _, uids: _ } = self;
    }
}

impl<A: Allocator + Copy> Model for UidList<A> {
    ghost use Rattle.std.specs.Prelude.{◌≡◌, ℕ, List};
    ghost use Rattle.std.specs.Str.{bytes_eq};
    ghost use Rattle.ups_match.specs.Uids.{has_uid};
    ghost use Rattle.ups_match.specs.Values.{any_value};

    ghost Value = { List ℕ };

    ghost view = { λ l. l.text.items };

    ghost invariant = { λ l. (uid : List ℕ) → has_uid l.uids uid ≡ any_value (bytes_eq uid) l.text.items };
}

impl<A: Allocator + Copy> UidList<A> {
    /// Returns the list of a text.
    ///
    /// Errors: if memory runs out.
    pub(crate) fn of(alloc: A, text: &[u8]) -> Result<UidList<A>, AllocError>
        ensures { IfOk result (λ list. list ≡ text.now) }
    {
        let uids = uids_of(alloc, text)?;
        let text = Vec::from_slice(alloc, text)?;
        Ok(UidList { text, uids })
    }

    /// Returns whether a stored text meets the list, as a key that is matched by `rule`.
    pub(crate) fn is_met(&self, rule: Rule, offset: i16, stored: &[u8]) -> bool
        ensures { result ≡ text_met rule offset self.now stored.now }
    {
        match rule {
            Rule::UidList => self.shares_uid(stored),
            _ => is_text_met(rule, offset, self.text.as_slice(), stored),
        }
    }

    /// Returns whether a UID is in the list.
    fn has(&self, uid: &[u8]) -> bool
        ensures { result ≡ any_value (bytes_eq uid.now) self.now }
    {
        self.uids.contains(uid)
    }

    /// Returns whether one of the UIDs of the list is one of the stored UIDs.
    fn shares_uid(&self, stored: &[u8]) -> bool
        ensures { result ≡ shares_uid self.now stored.now }
    {
        stored
            .split(|byte| *byte == b'\\')
            .any(|uid| self.has(without_padding(uid)))
    }
}

/// Returns the UIDs of a text, in order.
///
/// Errors: if memory runs out.
fn uids_of<A: Allocator + Copy>(
    alloc: A,
    text: &[u8],
) -> Result<BTreeSet<Vec<u8, A>, A>, AllocError>
    ensures { IfOk result (λ uids. (uid : List ℕ) → has_uid uids uid ≡ any_value (bytes_eq uid) text.now) }
{
    let mut uids = BTreeSet::new(alloc);
    let mut rest = text;
    loop {
        let (uid, others) = split_value(rest);
        put_uid(alloc, &mut uids, without_padding(uid))?;
        let Some(behind) = others else {
            return Ok(uids);
        };
        rest = behind;
    }
}

/// Splits a text into its first value and the text of the others, if there are others.
fn split_value(text: &[u8]) -> (&[u8], Option<&[u8]>)
    ensures values { slice_split is_backslash text.now ≡ result.0.now ∷ values_of (option_copied result.1) }
    ensures shorter { IfSome result.1 (λ others. length others.now < length text.now) }
{
    let (value, behind) = text.split_at(value_len(text));
    match behind.split_first() {
        Some((_, others)) => (value, Some(others)),
        None => (value, None),
    }
}

/// Returns the number of bytes before the first backslash of a text.
fn value_len(text: &[u8]) -> usize
    ensures value { result ≡ position_or_len is_backslash text.now }
    ensures bound { result ≤ length text.now }
{
    text.iter().take_while(|byte| **byte != b'\\').count()
}

/// Inserts a UID if it is not there yet.
///
/// Errors: if memory runs out.
fn put_uid<A: Allocator + Copy>(
    alloc: A,
    uids: &mut BTreeSet<Vec<u8, A>, A>,
    uid: &[u8],
) -> Result<(), AllocError>
    ensures { IfOk result (λ _. (other : List ℕ) → has_uid uids.new other ≡ (bytes_eq other uid.now || has_uid uids.old other)) }
{
    if !uids.contains(uid) {
        uids.insert(Vec::from_slice(alloc, uid)?)?;
    }
    Ok(())
}
