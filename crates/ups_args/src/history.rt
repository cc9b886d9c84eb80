//! The arguments of `history`.

ghost use Rattle.std.specs.Prelude.{◌≡◌, ℕ, ℤ, [], Option, codes, option_map, unwrap_or, IfErr, IfOk, MatchResult};
ghost use Rattle.clap.specs.Matches.{first_value, found_of};
ghost use Rattle.ups_args.specs.Arguments.{FailToAskHistory, SaysOtherOffset, SaysUntil, SaysUntilOrNot};
ghost use Rattle.ups_args.specs.declared.fault.ArgumentFault.TheVariants.{Until};

use crate::fault::ArgumentFault;
use crate::options::worded;
use crate::store::store_word;
use crate::times::offset_of;
use clap::{ArgMatches, Command};
use std::alloc::{AllocError, Global};

/// Returns the command line of `upsd history`.
pub(crate) fn history_command<'a>(alloc: Global) -> Result<Command<'a>, AllocError> {
    let until = "how many requests are told, from the first; all without --until";
    let offset =
        "the offset from UTC with which the lines are read; without --offset as in the last run";
    let offset = worded(alloc, "offset", "MINUTES", offset).allow_negative_numbers(true);
    Command::new(alloc, "history")
        .about("tells the accepted requests of a store, as lines for upsd script --history")
        .arg(worded(alloc, "until", "N", until))?
        .arg(offset)?
        .arg(store_word(
            alloc,
            "the file of the store, which no server may have open",
        ))
}

/// The arguments of `history`.
#[derive(Clone, Copy)]
pub struct HistoryArguments<'a> {
    /// The file of the store.
    pub store: &'a str,
    /// The number of requests that are told, from the first; None for all.
    pub until: Option<u64>,
    /// The offset of the local time from UTC with which the lines are read, in minutes; None for that of the last run.
    pub offset: Option<i16>,
}

/// Parses a number of requests.
///
/// Errors: Until if it is not a number below 2^64.
fn until_of(word: &str) -> Result<u64, ArgumentFault<'_>>
    ensures said { MatchResult result (SaysUntil word.now) (λ _. (count : ℕ) → SaysUntil word.now count → ⊥) }
    ensures fault { IfErr result (λ fault. fault ≡ Until) }
{
    word.parse::<u64>().or(Err(ArgumentFault::Until))
}

/// Returns the number of requests after `--until`, if the option is given.
///
/// Errors: those of `until_of`.
fn until_asked(word: Option<&str>) -> Result<Option<u64>, ArgumentFault<'_>>
    ensures said { MatchResult result (SaysUntilOrNot (option_map (λ w. w.now) word.entry)) (λ _. (until : Option ℕ) → SaysUntilOrNot (option_map (λ w. w.now) word.entry) until → ⊥) }
    ensures fault { IfErr result (λ fault. fault ≡ Until) }
{
    match word {
        Some(word) => Ok(Some(until_of(word)?)),
        None => Ok(None),
    }
}

/// Returns the offset from UTC in minutes that a word names, if there is one.
///
/// Errors: Offset if the word is not a number from -720 to 840.
fn other_offset_asked(word: Option<&str>) -> Result<Option<i16>, ArgumentFault<'_>>
    ensures said { MatchResult result (SaysOtherOffset (option_map (λ w. w.now) word.entry)) (λ _. (offset : Option ℤ) → SaysOtherOffset (option_map (λ w. w.now) word.entry) offset → ⊥) }
    ensures fault { IfErr result (λ fault. fault ≡ ArgumentFault.Offset) }
{
    match word {
        Some(word) => Ok(Some(offset_of(word)?)),
        None => Ok(None),
    }
}

/// Parses the arguments of `history`.
///
/// # Errors
///
/// Until if the word after `--until` is not a number below 2^64; Offset.
pub fn history_arguments<'a>(
    matches: &ArgMatches<'a>,
) -> Result<HistoryArguments<'a>, ArgumentFault<'a>>
    ensures store { IfOk result (λ asked. asked.store.now ≡ unwrap_or (first_value (found_of matches.now) (codes "store")) []) }
    ensures until { IfOk result (λ asked. SaysUntilOrNot (first_value (found_of matches.now) (codes "until")) asked.until) }
    ensures offset { IfOk result (λ asked. SaysOtherOffset (first_value (found_of matches.now) (codes "offset")) asked.offset) }
    ensures refused { IfErr result (FailToAskHistory (found_of matches.now)) }
{
    Ok(HistoryArguments {
        until: until_asked(matches.get_str("until"))?,
        offset: other_offset_asked(matches.get_str("offset"))?,
        store: matches.get_str("store").unwrap_or(""),
    })
}
