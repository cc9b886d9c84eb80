//! The words of a line, and the numbers and tags that they encode.

ghost use Rattle.std.specs.Prelude.{◌≡◌, ◌≢◌, ◌<◌, ◌^◌, ◌∷◌, [], ℕ, IfOk, IfErr, OnErr, OnOk, MatchOption, OnSome};
ghost use Rattle.std.specs.Char.{digit_value};
ghost use Rattle.std.specs.List.{position};
ghost use Rattle.std.specs.Option.{IfSome, option_copied};
ghost use Rattle.std.specs.Str.Parse.{IsNumeral, digits_value};
ghost use Rattle.ups_lines.specs.declared.fault.LineReason.TheVariants.{EmptyWord};
ghost use Rattle.ups_pdu.specs.Padding.{is_space};
ghost use Rattle.ups_lines.specs.Words.{words_of, word_bytes_left, words_left, NoWord, SpellsNumber, SpellsTag};

use crate::fault::LineReason;
use crate::text::byte_of;
use ups_dataset::Tag;

/// The words of a text, separated by single spaces. There is an empty word between two spaces in a row.
#[derive(Clone, Copy)]
pub struct Words<'a> {
    /// The text of the remaining words, or None after the last one.
    pub rest: Option<&'a [u8]>,
}

/// Returns the position of the first space in a text, or None if there is none.
fn space_in(text: &[u8]) -> Option<usize>
    ensures { result ≡ position is_space text.now }
{
    text.iter().position(|byte| *byte == b' ')
}

impl<'a> Words<'a> {
    /// Returns the words of a text.
    pub fn of(text: &'a [u8]) -> Words<'a>
        ensures { words_left (option_copied result.rest) ≡ words_of text.now }
    {
        Words { rest: Some(text) }
    }

    /// Returns the next word, or None after the last one.
    pub fn front(&mut self) -> Option<&'a [u8]>
        ensures word { MatchOption result (words_left (option_copied self.old.rest) ≡ []) (λ word. words_left (option_copied self.old.rest) ≡ word.now ∷ words_left (option_copied self.new.rest)) }
        ensures falls { OnSome result (word_bytes_left (option_copied self.new.rest) < word_bytes_left (option_copied self.old.rest)) }
    {
        let text = self.rest?;
        match space_in(text) {
            Some(place) => {
                self.rest = Some(&text[place + 1..]);
                Some(&text[..place])
            }
            None => {
                self.rest = None;
                Some(text)
            }
        }
    }

    /// Returns the next word, which is not empty.
    ///
    /// Errors: MissingWord; EmptyWord.
    pub fn word(&mut self) -> Result<&'a [u8], LineReason>
        ensures word { IfOk result (λ word. words_left (option_copied self.old.rest) ≡ word.now ∷ words_left (option_copied self.new.rest)) }
        ensures fault { IfErr result (NoWord (words_left (option_copied self.old.rest))) }
    {
        let word = self.front().ok_or(LineReason::MissingWord)?;
        filled(word)
    }

    /// Checks that no words are left.
    ///
    /// Errors: EmptyWord if the next one is empty; ExtraWord.
    pub fn end(mut self) -> Result<(), LineReason>
        ensures none { OnOk result (words_left (option_copied self.entry.rest) ≡ []) }
        ensures some { OnErr result (words_left (option_copied self.entry.rest) ≢ []) }
    {
        match self.front() {
            None => Ok(()),
            Some(word) => {
                filled(word)?;
                Err(LineReason::ExtraWord)
            }
        }
    }
}

/// Returns the word if it is not empty.
///
/// Errors: EmptyWord.
pub fn filled(word: &[u8]) -> Result<&[u8], LineReason>
    ensures filled { IfOk result (λ filled. filled.now ≡ word.now) }
    ensures empty { IfErr result (λ reason. (word.now ≡ []) × (reason ≡ EmptyWord)) }
{
    if word.is_empty() {
        Err(LineReason::EmptyWord)
    } else {
        Ok(word)
    }
}

impl<'a> Iterator for Words<'a> {
    type Item = &'a [u8];

    ghost use Rattle.std.specs.Iterator.{at_most};
    ghost use Rattle.std.specs.Option.{option_copied};
    ghost use Rattle.ups_lines.specs.Words.{word_bytes_left};

    ghost remaining = { λ w. at_most (word_bytes_left (option_copied w.rest)) };

    fn next(&mut self) -> Option<&'a [u8]> {
        self.front()
    }
}

/// Returns the value of a decimal digit, or None if the byte is no decimal digit.
fn decimal_digit(byte: u8) -> Option<u8>
    ensures { MatchOption result (digit_value byte < 10 → ⊥) (λ value. (digit_value byte < 10) × (value ≡ digit_value byte)) }
{
    match byte {
        b'0'..=b'9' => Some(byte - b'0'),
        _ => None,
    }
}

/// Returns the number that decimal digits encode, with any leading zeros, or None if they encode no number below 2^64.
pub fn number_of(word: &[u8]) -> Option<u64>
    ensures { MatchOption result (IsNumeral 10 word.now → digits_value 10 word.now < 2 ^ 64 → ⊥) (λ number. IsNumeral 10 word.now × (number ≡ digits_value 10 word.now)) }
{
    let mut number: u64 = 0;
    for digit in word {
        let value = decimal_digit(*digit)?;
        number = number.checked_mul(10)?.checked_add(u64::from(value))?;
    }
    if word.is_empty() { None } else { Some(number) }
}

/// Returns the number that four hex digits encode.
fn hex_number(a: u8, b: u8, c: u8, d: u8) -> Option<u16>
    ensures { MatchOption result ((number : ℕ) → SpellsNumber a b c d number → ⊥) (SpellsNumber a b c d) }
{
    Some(u16::from_be_bytes([byte_of(a, b)?, byte_of(c, d)?]))
}

/// Returns the tag that eight hex digits encode: those of the group and those of the element (PS3.5 section 7.1).
/// Sorting attributes reads many tags, so this does not use a reader of texts of any length.
pub fn tag_of(digits: &[u8]) -> Option<Tag>
    ensures { MatchOption result ((tag : Tag) → SpellsTag digits.now tag → ⊥) (SpellsTag digits.now) }
{
    let [a, b, c, d, e, f, g, h] = digits else {
        return None;
    };
    Some(Tag {
        group: hex_number(*a, *b, *c, *d)?,
        element: hex_number(*e, *f, *g, *h)?,
    })
}
