//! The texts of a line, and the bytes that they encode.

ghost use Rattle.std.specs.Prelude.{◌≡◌, ◌<◌, ◌++◌, ℕ, List, length, IfOk, OnOk, MatchOption};
ghost use Rattle.std.specs.Char.{digit_value};
ghost use Rattle.std.specs.Cow.{cow_slice_items};
ghost use Rattle.std.specs.List.{count_by, list_any};
ghost use Rattle.ups_lines.specs.Escapes.{is_percent, SpellsByte, StandsFirst, StandsFor, IsText};

use std::alloc::{AllocError, Allocator};
use std::borrow::CowSlice;

/// Returns the value of a hex digit, in either case, or None if the byte is no hex digit.
fn digit_of(byte: u8) -> Option<u8>
    ensures { MatchOption result (digit_value byte < 16 → ⊥) (λ digit. (digit_value byte < 16) × (digit ≡ digit_value byte)) }
{
    match byte {
        b'0'..=b'9' => Some(byte - b'0'),
        b'a'..=b'f' => Some(byte - b'a' + 10),
        b'A'..=b'F' => Some(byte - b'A' + 10),
        _ => None,
    }
}

/// Returns the byte that two hex digits encode.
pub(crate) fn byte_of(high: u8, low: u8) -> Option<u8>
    ensures { MatchOption result ((byte : ℕ) → SpellsByte high low byte → ⊥) (SpellsByte high low) }
{
    Some(16 * digit_of(high)? + digit_of(low)?)
}

/// Returns the first byte that a text encodes, and what follows. Returns None at its end, or if a `%` is not followed
/// by two hex digits.
fn front_of(text: &[u8]) -> Option<(u8, &[u8])>
    ensures { MatchOption result ((byte : ℕ) → (rest : List ℕ) → StandsFirst text.now byte rest → ⊥) (λ x. StandsFirst text.now x.0 x.1.now) }
{
    match text {
        [b'%', high, low, rest @ ..] => Some((byte_of(*high, *low)?, rest)),
        [b'%', ..] | [] => None,
        [byte, rest @ ..] => Some((*byte, rest)),
    }
}

/// Returns the number of `%` in a text.
fn escapes_in(text: &[u8]) -> usize
    ensures { result ≡ count_by is_percent text.now }
{
    text.iter().filter(|byte| **byte == b'%').count()
}

/// A text as a script has it: each byte encodes itself, but `%` with two hex digits encodes the byte with that value.
#[derive(Clone, Copy)]
pub struct Text<'a> {
    /// The bytes of the script.
    pub written: &'a [u8],
}

impl<'a> Text<'a> {
    /// Returns the text written in the script as `written`, or None if a `%` is not followed by two hex digits.
    pub fn of(written: &'a [u8]) -> Option<Text<'a>>
        ensures { MatchOption result (IsText written.now → ⊥) (λ text. (text.written.now ≡ written.now) × IsText written.now) }
    {
        let mut rest = written;
        while !rest.is_empty() {
            let front = front_of(rest)?;
            rest = front.1;
        }
        Some(Text { written })
    }

    /// Returns whether one of its bytes is escaped.
    fn has_escapes(self) -> bool
        ensures { result ≡ list_any is_percent self.entry.written.now }
    {
        self.written.contains(&b'%')
    }

    /// Returns the number of bytes that it encodes.
    pub(crate) fn len(self) -> usize
        ensures { (bytes : List ℕ) → StandsFor self.entry.written.now bytes → result ≡ length bytes }
    {
        let escapes = escapes_in(self.written);
        self.written.len().saturating_sub(escapes.saturating_mul(2))
    }

    /// Appends the bytes that it encodes.
    pub(crate) fn put<A: Allocator + Copy>(self, out: &mut Vec<u8, A>) -> Result<(), AllocError>
        ensures { (bytes : List ℕ) → StandsFor self.entry.written.now bytes → OnOk result (out.new.items ≡ out.old.items ++ bytes) }
    {
        if !self.has_escapes() {
            return out.extend_from_slice(self.written);
        }
        let mut rest = self.written;
        while let Some(front) = front_of(rest) {
            out.push(front.0)?;
            rest = front.1;
        }
        Ok(())
    }

    /// Returns the bytes that it encodes, borrowed from the script if none is escaped.
    pub fn bytes<A: Allocator + Copy>(self, alloc: A) -> Result<CowSlice<'a, u8, A>, AllocError>
        ensures { (bytes : List ℕ) → StandsFor self.entry.written.now bytes → IfOk result (λ cow. cow_slice_items cow ≡ bytes) }
    {
        if !self.has_escapes() {
            return Ok(CowSlice::Borrowed(self.written));
        }
        let mut bytes = Vec::new(alloc);
        self.put(&mut bytes)?;
        Ok(CowSlice::Owned(bytes))
    }
}
