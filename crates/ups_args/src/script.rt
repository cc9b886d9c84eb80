//! The arguments of `script`.

ghost use Rattle.std.specs.Prelude.{◌≡◌, ◌≤◌, codes, length, None, IfErr, IfOk};
ghost use Rattle.clap.specs.Matches.{first_value, found_of};
ghost use Rattle.ups_args.specs.Arguments.{FailToAskScript, IsFlag, NamePeers, SaysKeep, SaysOffset, argument_words};
ghost use Rattle.ups_life.specs.Limits.{history_limit, peer_limit};
ghost use Rattle.ups_settings.specs.Refusal.{refusal};

use crate::fault::ArgumentFault;
use crate::options::flag;
use crate::peers::{peers_of, with_peers};
use crate::times::{keep_asked, offset_asked, with_times};
use clap::{ArgMatches, Command};
use std::alloc::{AllocError, Global};
use ups_life::Peer;

/// Returns the command line of `upsd script`.
pub(crate) fn script_command<'a>(alloc: Global) -> Result<Command<'a>, AllocError> {
    let history = "read lines of a history too: attributes that begin with a colon, and reserve";
    let command = Command::new(alloc, "script")
        .about("answers a script from standard input, a line for each of its lines")
        .arg(flag(alloc, "history", history))?;
    with_peers(alloc, with_times(alloc, command)?)
}

/// The arguments of `script`.
#[derive(Drop)]
pub struct ScriptArguments {
    /// The peers that may watch steps.
    pub peers: Vec<Peer>,
    /// The minimum number of seconds for which a finished step is kept.
    pub keep: u32,
    /// The offset of the local time from UTC in minutes, positive east of it.
    pub offset: i16,
}

/// Returns whether `script` is to read lines of a history too.
pub fn reads_history(matches: &ArgMatches<'_>) -> bool
    ensures { IsFlag (found_of matches.now) (codes "history") result }
{
    matches.get_flag("history")
}

/// Parses the arguments of `script`.
///
/// # Errors
///
/// Those of the words, as in [`ArgumentFault`].
#[tactic(auto, using(crate::proofs::Naming::unrefused_at))]
pub fn script_arguments<'a>(
    alloc: Global,
    matches: &ArgMatches<'a>,
) -> Result<ScriptArguments, ArgumentFault<'a>>
    ensures peers { IfOk result (λ asked. NamePeers (argument_words (found_of matches.now) (codes "peer")) asked.peers.items) }
    ensures keep { IfOk result (λ asked. SaysKeep (first_value (found_of matches.now) (codes "keep")) asked.keep) }
    ensures offset { IfOk result (λ asked. SaysOffset (first_value (found_of matches.now) (codes "offset")) asked.offset) }
    ensures few { IfOk result (λ asked. length asked.peers.items ≤ peer_limit) }
    ensures allowed { IfOk result (λ asked. refusal asked.peers.items asked.offset history_limit ≡ None) }
    ensures refused { IfErr result (FailToAskScript (found_of matches.now)) }
{
    Ok(ScriptArguments {
        peers: peers_of(alloc, matches.get_strs("peer").unwrap_or(&[]))?,
        keep: keep_asked(matches.get_str("keep"))?,
        offset: offset_asked(matches.get_str("offset"))?,
    })
}
