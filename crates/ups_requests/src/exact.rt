//! Exact lines: their words alone say what they ask.

ghost use Rattle.std.specs.Prelude.{◌≡◌, true, false, OnOk, IfErr};
ghost use Rattle.std.specs.Option.{option_copied};
ghost use Rattle.ups_lines.specs.Words.{words_left};
ghost use Rattle.ups_lines.specs.declared.fault.LineReason.TheVariants.{OfHistory};
ghost use Rattle.ups_requests.specs.Questions.{IsColon, IsColonFirst, BehindFirst, IsExact, IsFor, IsOfHistory, OnBad};

use crate::line::Verb;
use ups_lines::{LineFault, LineReason, Words};

/// Which lines a script may have.
#[derive(Clone, Copy, Debug, PartialEq, Eq)]
pub enum Grammar {
    /// Those of a script.
    Script,
    /// Those of a history too: attributes that begin with a colon, and the reservation of a UID.
    History,
}

/// Returns whether a word begins with a colon.
fn is_colon(word: &[u8]) -> bool
    ensures colon { result ≡ true → IsColon word.now }
    ensures other { result ≡ false → IsColon word.now → ⊥ }
{
    match word {
        [first, ..] => *first == b':',
        [] => false,
    }
}

/// Returns whether the first word begins with a colon.
pub(crate) fn is_colon_first(mut words: Words<'_>) -> bool
    ensures colon { result ≡ true → IsColonFirst (words_left (option_copied words.entry.rest)) }
    ensures other { result ≡ false → IsColonFirst (words_left (option_copied words.entry.rest)) → ⊥ }
{
    match words.front() {
        Some(word) => is_colon(word),
        None => false,
    }
}

/// Returns whether the second word begins with a colon.
fn is_colon_second(mut words: Words<'_>) -> bool
    ensures colon { result ≡ true → BehindFirst IsColonFirst (words_left (option_copied words.entry.rest)) }
    ensures other { result ≡ false → BehindFirst IsColonFirst (words_left (option_copied words.entry.rest)) → ⊥ }
{
    match words.front() {
        Some(_) => is_colon_first(words),
        None => false,
    }
}

/// Returns whether the third word begins with a colon.
fn is_colon_third(mut words: Words<'_>) -> bool
    ensures colon { result ≡ true → BehindFirst (BehindFirst IsColonFirst) (words_left (option_copied words.entry.rest)) }
    ensures other { result ≡ false → BehindFirst (BehindFirst IsColonFirst) (words_left (option_copied words.entry.rest)) → ⊥ }
{
    match words.front() {
        Some(_) => is_colon_second(words),
        None => false,
    }
}

/// Returns whether the fourth word begins with a colon.
fn is_colon_fourth(mut words: Words<'_>) -> bool
    ensures colon { result ≡ true → BehindFirst (BehindFirst (BehindFirst IsColonFirst)) (words_left (option_copied words.entry.rest)) }
    ensures other { result ≡ false → BehindFirst (BehindFirst (BehindFirst IsColonFirst)) (words_left (option_copied words.entry.rest)) → ⊥ }
{
    match words.front() {
        Some(_) => is_colon_third(words),
        None => false,
    }
}

/// Returns whether only a history has a line with this verb and these words behind it.
fn is_of_history(verb: Verb, words: Words<'_>) -> bool
    ensures of { result ≡ true → IsOfHistory verb (words_left (option_copied words.entry.rest)) }
    ensures other { result ≡ false → IsOfHistory verb (words_left (option_copied words.entry.rest)) → ⊥ }
{
    match verb {
        Verb::Create => is_colon_second(words),
        Verb::Get => false,
        Verb::Set => is_colon_third(words),
        Verb::Change => false,
        Verb::Cancel => is_colon_second(words),
        Verb::Subscribe => is_colon_fourth(words),
        Verb::Unsubscribe => false,
        Verb::Suspend => false,
        Verb::Find => is_colon_first(words),
        Verb::Pending => false,
        Verb::Ack => false,
        Verb::Watches => false,
        Verb::Sweep => false,
        Verb::Held => false,
        Verb::Holder => false,
        Verb::Reserve => true,
    }
}

/// Checks that a script of this grammar may have a line with this verb and these words behind it.
///
/// Errors: OfHistory if only a history has it, and the script is none.
pub(crate) fn check_grammar(grammar: Grammar, verb: Verb, words: Words<'_>) -> Result<(), LineFault>
    ensures narrow { OnOk result (IsFor grammar verb (words_left (option_copied words.entry.rest))) }
    ensures fault { IfErr result (λ fault. OnBad fault (λ reason. (reason ≡ OfHistory) × IsOfHistory verb (words_left (option_copied words.entry.rest)))) }
{
    match grammar {
        Grammar::History => Ok(()),
        Grammar::Script => {
            if is_of_history(verb, words) {
                return Err(LineFault::Malformed(LineReason::OfHistory));
            }
            Ok(())
        }
    }
}

/// Returns whether a verb with these words behind it makes an exact line.
pub(crate) fn is_exact(verb: Verb, words: Words<'_>) -> bool
    ensures { result ≡ true → IsExact verb (words_left (option_copied words.entry.rest)) }
{
    match verb {
        Verb::Create => is_colon_second(words),
        Verb::Get => false,
        Verb::Set => is_colon_third(words),
        Verb::Change => true,
        Verb::Cancel => is_colon_second(words),
        Verb::Subscribe => is_colon_fourth(words),
        Verb::Unsubscribe => true,
        Verb::Suspend => true,
        Verb::Find => is_colon_first(words),
        Verb::Pending => false,
        Verb::Ack => true,
        Verb::Watches => false,
        Verb::Sweep => true,
        Verb::Held => false,
        Verb::Holder => false,
        Verb::Reserve => true,
    }
}
