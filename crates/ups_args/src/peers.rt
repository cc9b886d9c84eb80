//! The application entities that may watch steps, and where each of them listens.

ghost use Rattle.std.specs.Prelude.{◌≡◌, ◌≤◌, Bool, List, false, length, map, option_map, IfErr, IfOk, MatchOption};
ghost use Rattle.std.specs.Char.{is_ascii_whitespace};
ghost use Rattle.std.specs.List.{list_any};
ghost use Rattle.std.specs.Str.{trim};
ghost use Rattle.ups_args.specs.Arguments.{CutsLock, FailToName, NamePeers, NamesPeer, NamesPlace, NameWatchers, SaysLine, SaysLock, SaysPlace, is_spaced, listens_at, says_nothing};
ghost use Rattle.ups_life.specs.declared.peer.Peer.{Peer};
ghost use Rattle.ups_life.specs.Limits.{peer_limit};
ghost use Rattle.ups_settings.specs.Refusal.{is_named, is_twice};

use crate::addresses::{Address, address_of};
use crate::fault::ArgumentFault;
use crate::options::worded;
use crate::store::naming_file;
use clap::{Arg, ArgAction, Command};
use std::alloc::{AllocError, Allocator, Global};
use ups_life::{MAX_PEERS, Peer};
use ups_pdu::Ae;
use ups_peers::{Watcher, WatcherAddress};

/// Returns the argument for the words that name peers.
fn peer_words<'a>(alloc: Global) -> Arg<'a> {
    Arg::new(alloc, "peer")
        .value_name("PEER")
        .help(
            "an application entity that may watch steps, and gets its reports there: AE=host:port or AE=host:port,lock; AE=- or AE=-,lock for one that is gone",
        )
        .action(ArgAction::Append)
}

/// Adds the option for a file that names peers, and the argument for the words that do.
pub(crate) fn with_peers<'a>(
    alloc: Global,
    command: Command<'a>,
) -> Result<Command<'a>, AllocError> {
    let peers =
        "a file with a PEER on each line, as if they came last; blank lines and those that begin with # count for nothing";
    command
        .arg(naming_file(worded(alloc, "peers", "FILE", peers)))?
        .arg(peer_words(alloc))
}

/// What stands in the place of an address for a peer that is never connected to.
const NOWHERE: &str = "-";

/// Returns where a text says that a peer listens, and whether the peer may lock steps: `,lock` at the end allows that.
fn lock_cut<'a>(text: &'a str) -> (&'a str, bool)
    ensures { CutsLock text.now result.0.now result.1 }
{
    match text.strip_suffix(",lock") {
        Some(front) => (front, true),
        None => (text, false),
    }
}

/// Returns the address of a peer, if it has one, and whether the peer may lock steps. Returns None if the text is neither
/// an address nor `-`, with or without `,lock`.
#[tactic(auto, using(crate::proofs::Parts::placed))]
fn lock_of<'a>(text: &'a str) -> Option<(Option<Address<'a>>, bool)>
    ensures { MatchOption result ((lock : Bool) → SaysLock text.now lock → ⊥) (λ r. SaysPlace text.now (option_map (λ a. (a.host.now, a.port)) r.0) r.1) }
{
    let (place, lock) = lock_cut(text);
    if place == NOWHERE {
        return Some((None, lock));
    }
    let address = address_of(place)?;
    Some((Some(address), lock))
}

/// A peer, and where it listens, if it does.
#[derive(Clone, Copy)]
struct PeerWord<'a> {
    peer: Peer,
    address: Option<Address<'a>>,
}

/// Parses a peer and where it listens, as `AE=host:port` or `AE=host:port,lock`, or with `-` for the address of one that is
/// never connected to. The first `=` ends the title.
fn peer_word_of<'a>(word: &'a str) -> Option<PeerWord<'a>>
    ensures { MatchOption result ((peer : Peer) → NamesPeer word.now peer → ⊥) (λ p. NamesPlace word.now p.peer (option_map (λ a. (a.host.now, a.port)) p.address)) }
{
    let (title, rest) = word.split_once('=')?;
    let ae = Ae::of(title.as_bytes())?;
    let (address, lock) = lock_of(rest)?;
    Some(PeerWord {
        peer: Peer { ae, lock },
        address,
    })
}

/// Parses the words that name peers.
///
/// Errors: TooMany if there are more than 1,000 words; else for the first wrong word: Peer if it names none, Doubled if
/// an earlier word has the same title; lack of memory.
#[tactic(auto, using(crate::proofs::Naming::twice_on))]
pub(crate) fn peers_of<'a, A: Allocator + Copy>(
    alloc: A,
    words: &[&'a str],
) -> Result<Vec<Peer, A>, ArgumentFault<'a>>
    ensures named { IfOk result (λ peers. NamePeers (map (λ w. w.now) words.now) peers.items) }
    ensures few { IfOk result (λ peers. length peers.items ≤ peer_limit) }
    ensures once { IfOk result (λ peers. is_twice peers.items ≡ false) }
    ensures fault { IfErr result (FailToName (map (λ w. w.now) words.now)) }
{
    let mut peers = Vec::new(alloc);
    if words.len() > MAX_PEERS {
        return Err(ArgumentFault::TooMany);
    }
    for word in words {
        let Some(PeerWord { peer, address: _ }) = peer_word_of(word) else {
            return Err(ArgumentFault::Peer(word));
        };
        if is_named(&peers, peer.ae) {
            return Err(ArgumentFault::Doubled);
        }
        peers.push(peer)?;
    }
    Ok(peers)
}

/// Returns whether one of the peers has this title.
fn is_named(peers: &[Peer], ae: Ae) -> bool
    ensures { result ≡ is_named ae peers.now }
{
    peers.iter().any(|peer| peer.ae == ae)
}

/// Returns the address of a watcher as the server keeps it.
///
/// Errors: lack of memory.
fn kept_address<'a>(
    alloc: Global,
    address: Option<Address<'a>>,
) -> Result<Option<WatcherAddress>, AllocError>
    ensures { IfOk result (λ kept. listens_at kept ≡ option_map (λ a. (a.host.now, a.port)) address.entry) }
{
    let Some(Address { host, port }) = address else {
        return Ok(None);
    };
    let host = host.to_string(alloc)?;
    Ok(Some(WatcherAddress { host, port }))
}

/// Parses the words that name peers as watchers: the titles of the peers, and where they listen.
///
/// Errors: Peer for the first word that names none; lack of memory.
pub(crate) fn watchers_of<'a>(
    alloc: Global,
    words: &[&'a str],
) -> Result<Vec<Watcher>, ArgumentFault<'a>>
    ensures named { IfOk result (λ watchers. NameWatchers (map (λ w. w.now) words.now) watchers.items) }
    ensures fault { IfErr result (λ fault. (peers : List Peer) → NamePeers (map (λ w. w.now) words.now) peers → fault ≡ ArgumentFault.Memory) }
{
    let mut watchers = Vec::new(alloc);
    for word in words {
        let Some(place) = peer_word_of(word) else {
            return Err(ArgumentFault::Peer(word));
        };
        watchers.push(Watcher {
            ae: place.peer.ae,
            address: kept_address(alloc, place.address)?,
        })?;
    }
    Ok(watchers)
}

/// What a line of a file of peers says.
#[derive(Clone, Copy, Debug, PartialEq, Eq)]
pub enum PeerLine<'a> {
    /// Nothing: it is blank, or begins with `#`.
    Nothing,
    /// This word, which names a peer.
    Peer(&'a str),
    /// Something else.
    Other,
}

/// Returns whether a text says nothing to a reader of peers: it is empty, or begins with `#`.
fn says_nothing(text: &str) -> bool
    ensures { result ≡ says_nothing text.now }
{
    match text.as_bytes().first() {
        Some(first) => *first == b'#',
        None => true,
    }
}

/// Returns whether a text has white space.
fn has_space(text: &str) -> bool
    ensures { result ≡ list_any is_ascii_whitespace text.now }
{
    text.as_bytes().iter().any(|b| b.is_ascii_whitespace())
}

/// Returns whether the host of an address has white space.
fn is_spaced(address: Option<Address<'_>>) -> bool
    ensures { result ≡ is_spaced (option_map (λ a. (a.host.now, a.port)) address.entry) }
{
    match address {
        Some(address) => has_space(address.host),
        None => false,
    }
}

/// Returns what a line of a file of peers says, without the white space at its ends. A host has no white space: two words
/// on a line would be a peer.
pub fn peer_line(line: &str) -> PeerLine<'_>
    ensures { SaysLine (trim line.now) result }
{
    let word = line.trim();
    if says_nothing(word) {
        return PeerLine::Nothing;
    }
    let Some(PeerWord { peer: _, address }) = peer_word_of(word) else {
        return PeerLine::Other;
    };
    if is_spaced(address) {
        return PeerLine::Other;
    }
    PeerLine::Peer(word)
}
