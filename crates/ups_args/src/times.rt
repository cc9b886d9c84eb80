//! How long a finished step is kept, and the local time.

ghost use Rattle.std.specs.Prelude.{◌≡◌, ℕ, ℤ, option_map, IfErr, MatchResult};
ghost use Rattle.ups_args.specs.Arguments.{SaysKeep, SaysMinutes, SaysOffset, SaysSecondsOr};

use crate::fault::ArgumentFault;
use crate::options::worded;
use clap::Command;
use std::alloc::{AllocError, Global};
use ups_life::{MAX_OFFSET, MIN_OFFSET};
use ups_settings::{KEEP, OFFSET};

/// Adds the options for how long a finished step is kept, and for the local time.
pub(crate) fn with_times<'a>(
    alloc: Global,
    command: Command<'a>,
) -> Result<Command<'a>, AllocError> {
    let keep = "for how many seconds a finished step is kept at least [default: 60]";
    let offset = "the offset of the local time from UTC, above 0 east of it [default: 0]";
    with_helped_times(alloc, command, keep, offset)
}

/// Adds the same options with these help texts.
pub(crate) fn with_helped_times<'a>(
    alloc: Global,
    command: Command<'a>,
    keep: &'a str,
    offset: &'a str,
) -> Result<Command<'a>, AllocError> {
    let offset = worded(alloc, "offset", "MINUTES", offset).allow_negative_numbers(true);
    command.arg(worded(alloc, "keep", "N", keep))?.arg(offset)
}

/// Returns a number of seconds, from the word after an option, or `default` without one.
///
/// Errors: `fault` if the word is not a number below 2^32.
pub(crate) fn seconds_asked<'a>(
    word: Option<&str>,
    default: u32,
    fault: ArgumentFault<'a>,
) -> Result<u32, ArgumentFault<'a>>
    ensures said { MatchResult result (SaysSecondsOr default (option_map (λ w. w.now) word.entry)) (λ _. (seconds : ℕ) → SaysSecondsOr default (option_map (λ w. w.now) word.entry) seconds → ⊥) }
    ensures fault { IfErr result (λ it. it ≡ fault.entry) }
{
    match word {
        Some(word) => word.parse::<u32>().or(Err(fault)),
        None => Ok(default),
    }
}

/// Parses an offset from UTC in minutes (PS3.5 section 6.2, DT).
///
/// Errors: Offset if it is not a number from -720 to 840.
pub(crate) fn offset_of(word: &str) -> Result<i16, ArgumentFault<'_>>
    ensures said { MatchResult result (SaysMinutes word.now) (λ _. (offset : ℤ) → SaysMinutes word.now offset → ⊥) }
    ensures fault { IfErr result (λ fault. fault ≡ ArgumentFault.Offset) }
{
    match word.parse::<i16>() {
        Ok(offset) if offset >= MIN_OFFSET && offset <= MAX_OFFSET => Ok(offset),
        _ => Err(ArgumentFault::Offset),
    }
}

/// Returns the minimum number of seconds for which a finished step is kept, from the word after `--keep`, or 60 without
/// one.
///
/// Errors: Keep if the word is not a number below 2^32.
pub(crate) fn keep_asked(word: Option<&str>) -> Result<u32, ArgumentFault<'_>>
    ensures said { MatchResult result (SaysKeep (option_map (λ w. w.now) word.entry)) (λ _. (keep : ℕ) → SaysKeep (option_map (λ w. w.now) word.entry) keep → ⊥) }
    ensures fault { IfErr result (λ fault. fault ≡ ArgumentFault.Keep) }
{
    seconds_asked(word, KEEP, ArgumentFault::Keep)
}

/// Returns the offset of the local time from UTC in minutes, from the word after `--offset`, or 0 without one.
///
/// Errors: those of `offset_of`.
pub(crate) fn offset_asked(word: Option<&str>) -> Result<i16, ArgumentFault<'_>>
    ensures said { MatchResult result (SaysOffset (option_map (λ w. w.now) word.entry)) (λ _. (offset : ℤ) → SaysOffset (option_map (λ w. w.now) word.entry) offset → ⊥) }
    ensures fault { IfErr result (λ fault. fault ≡ ArgumentFault.Offset) }
{
    match word {
        Some(word) => offset_of(word),
        None => Ok(OFFSET),
    }
}
