//! The arguments of `compact`.

ghost use Rattle.std.specs.Prelude.{◌≡◌, ◌≤◌, [], codes, is_some, length, None, IfErr, IfOk, IfSome, unwrap_or};
ghost use Rattle.clap.specs.Matches.{first_value, found_of};
ghost use Rattle.ups_args.specs.Arguments.{FailToAskScript, IsFlag, NamePeers, SaysKeep, SaysOffset, argument_words, gives_settings};
ghost use Rattle.ups_life.specs.Limits.{history_limit, peer_limit};
ghost use Rattle.ups_settings.specs.Refusal.{refusal};

use crate::fault::ArgumentFault;
use crate::peers::with_peers;
use crate::script::{ScriptArguments, script_arguments};
use crate::store::{leave_out_flag, other_settings_flag, store_word};
use crate::times::with_helped_times;
use clap::{ArgMatches, Command};
use std::alloc::{AllocError, Global};

/// Returns the command line of `upsd compact`.
pub(crate) fn compact_command<'a>(alloc: Global) -> Result<Command<'a>, AllocError> {
    let command = Command::new(alloc, "compact")
        .about("takes out of a store what is about removed steps of which no report waits")
        .arg(leave_out_flag(alloc))?
        .arg(other_settings_flag(alloc))?;
    let keep =
        "for how many seconds a finished step is kept at least; without --keep, --offset and PEER as in the last run";
    let offset =
        "the offset of the local time from UTC, above 0 east of it; without --keep, --offset and PEER as in the last run";
    let command = with_helped_times(alloc, command, keep, offset)?.arg(store_word(
        alloc,
        "the file of the store, which no server may have open",
    ))?;
    with_peers(alloc, command)
}

/// The arguments of `compact`.
#[derive(Drop)]
pub struct CompactArguments<'a> {
    /// The file of the store.
    pub store: &'a str,
    /// Whether requests of the store that are not accepted with these settings are left out.
    pub leave_out: bool,
    /// Whether other settings than those of the last run of the store are allowed.
    pub other_settings: bool,
    /// The settings, or None if no word gives any: then those of the last run of the store hold.
    pub settings: Option<ScriptArguments>,
}

/// Returns whether a word gives a setting of the service: `--keep`, `--offset` or a peer.
fn gives_settings(matches: &ArgMatches<'_>) -> bool
    ensures { result ≡ gives_settings (found_of matches.now) }
{
    matches.get_str("keep").is_some()
        || matches.get_str("offset").is_some()
        || !matches.get_strs("peer").unwrap_or(&[]).is_empty()
}

/// Parses the arguments of `compact`.
///
/// # Errors
///
/// Those of the words, as in [`ArgumentFault`].
pub fn compact_arguments<'a>(
    alloc: Global,
    matches: &ArgMatches<'a>,
) -> Result<CompactArguments<'a>, ArgumentFault<'a>>
    ensures store { IfOk result (λ asked. asked.store.now ≡ unwrap_or (first_value (found_of matches.now) (codes "store")) []) }
    ensures leave_out { IfOk result (λ asked. IsFlag (found_of matches.now) (codes "store-leave-out") asked.leave_out) }
    ensures other_settings { IfOk result (λ asked. IsFlag (found_of matches.now) (codes "store-other-settings") asked.other_settings) }
    ensures given { IfOk result (λ asked. is_some asked.settings ≡ gives_settings (found_of matches.now)) }
    ensures peers { IfOk result (λ asked. IfSome asked.settings (λ s. NamePeers (argument_words (found_of matches.now) (codes "peer")) s.peers.items)) }
    ensures keep { IfOk result (λ asked. IfSome asked.settings (λ s. SaysKeep (first_value (found_of matches.now) (codes "keep")) s.keep)) }
    ensures offset { IfOk result (λ asked. IfSome asked.settings (λ s. SaysOffset (first_value (found_of matches.now) (codes "offset")) s.offset)) }
    ensures few { IfOk result (λ asked. IfSome asked.settings (λ s. length s.peers.items ≤ peer_limit)) }
    ensures allowed { IfOk result (λ asked. IfSome asked.settings (λ s. refusal s.peers.items s.offset history_limit ≡ None)) }
    ensures refused { IfErr result (FailToAskScript (found_of matches.now)) }
{
    let settings = if gives_settings(matches) {
        Some(script_arguments(alloc, matches)?)
    } else {
        None
    };
    Ok(CompactArguments {
        store: matches.get_str("store").unwrap_or(""),
        leave_out: matches.get_flag("store-leave-out"),
        other_settings: matches.get_flag("store-other-settings"),
        settings,
    })
}
