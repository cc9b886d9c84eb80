//! The arguments of `pipe`.

ghost use Rattle.std.specs.Prelude.{◌≡◌, ◌≤◌, [], codes, length, None, IfErr, IfOk, unwrap_or};
ghost use Rattle.clap.specs.Matches.{first_value, found_of};
ghost use Rattle.ups_args.specs.Arguments.{FailToAskPipe, IsFlag, NamePeers, argument_words};
ghost use Rattle.ups_settings.specs.Defaults.{local_offset};
ghost use Rattle.ups_life.specs.Limits.{history_limit, peer_limit};
ghost use Rattle.ups_settings.specs.Refusal.{refusal};
ghost use Rattle.ups_pdu.specs.Title.{SpellsAe};

use crate::fault::ArgumentFault;
use crate::options::flag;
use crate::peers::{peers_of, with_peers};
use crate::title::{ae_of, ae_word};
use clap::{ArgMatches, Command};
use std::alloc::{AllocError, Global};
use ups_life::Peer;
use ups_pdu::Ae;

/// Returns the command line of `upsd pipe`.
pub(crate) fn pipe_command<'a>(alloc: Global) -> Result<Command<'a>, AllocError> {
    let hex = "read hex digits, and write each PDU as a line of them";
    let command = Command::new(alloc, "pipe")
        .about("answers one association from standard input to standard output")
        .arg(ae_word(alloc))?
        .arg(flag(alloc, "hex", hex))?;
    with_peers(alloc, command)
}

/// The arguments of `pipe`.
#[derive(Drop)]
pub struct PipeArguments {
    /// The title of this application entity.
    pub ae: Ae,
    /// Whether input and output are hex digits.
    pub hex: bool,
    /// The peers that may watch steps.
    pub peers: Vec<Peer>,
}

/// Parses the arguments of `pipe`.
///
/// # Errors
///
/// Those of the words, as in [`ArgumentFault`].
#[tactic(auto, using(crate::proofs::Naming::unrefused))]
pub fn pipe_arguments<'a>(
    alloc: Global,
    matches: &ArgMatches<'a>,
) -> Result<PipeArguments, ArgumentFault<'a>>
    ensures title { IfOk result (λ asked. SpellsAe (unwrap_or (first_value (found_of matches.now) (codes "ae")) []) asked.ae) }
    ensures hex { IfOk result (λ asked. IsFlag (found_of matches.now) (codes "hex") asked.hex) }
    ensures peers { IfOk result (λ asked. NamePeers (argument_words (found_of matches.now) (codes "peer")) asked.peers.items) }
    ensures few { IfOk result (λ asked. length asked.peers.items ≤ peer_limit) }
    ensures allowed { IfOk result (λ asked. refusal asked.peers.items local_offset history_limit ≡ None) }
    ensures refused { IfErr result (FailToAskPipe (found_of matches.now)) }
{
    Ok(PipeArguments {
        ae: ae_of(matches.get_str("ae").unwrap_or(""))?,
        hex: matches.get_flag("hex"),
        peers: peers_of(alloc, matches.get_strs("peer").unwrap_or(&[]))?,
    })
}
