use fixtures::rows::check;
use fixtures::{Refusing, title};
use std::alloc::{Allocator, Global};
use std::test::Fail;
use ups_life::Peer;
use ups_manager::*;

/// What is asked, and the outcome: the titles of the peers, the offset of the local time, the limit, or that the manager
/// is lasting, and the number of the growth that is refused; the fault, or the settings of the manager, and whether that
/// growth is still to come.
const ROWS: &str = "\
# A manager has the settings that it was given, and no history
WATCH1,WATCH2 -300 10 0 -> keep 60 offset -300 limit 10 entries 0 peers WATCH1 WATCH2 false
# No peer is named twice
WATCH1,WATCH1,WATCH2 0 10 0 -> TwicePeer false
WATCH1,WATCH1,WATCH2 0 0 0 -> TwicePeer false
WATCH1,WATCH1,WATCH2 900 10 0 -> TwicePeer false
WATCH1,WATCH1,WATCH2 900 0 0 -> TwicePeer false
WATCH1,WATCH2,WATCH1 0 10 0 -> TwicePeer false
WATCH1,WATCH2,WATCH1 0 0 0 -> TwicePeer false
WATCH1,WATCH2,WATCH1 900 10 0 -> TwicePeer false
WATCH1,WATCH2,WATCH1 900 0 0 -> TwicePeer false
WATCH2,WATCH1,WATCH1 0 10 0 -> TwicePeer false
WATCH2,WATCH1,WATCH1 0 0 0 -> TwicePeer false
WATCH2,WATCH1,WATCH1 900 10 0 -> TwicePeer false
WATCH2,WATCH1,WATCH1 900 0 0 -> TwicePeer false
WATCH1,WATCH2,WATCH11 0 10 0 -> keep 60 offset 0 limit 10 entries 0 peers WATCH1 WATCH2 WATCH11 false
# The limit is from one to a million
 0 0 0 -> BadLimit false
 900 0 0 -> BadLimit false
 0 1 0 -> keep 60 offset 0 limit 1 entries 0 peers false
 0 1000000 0 -> keep 60 offset 0 limit 1000000 entries 0 peers false
 0 1000001 0 -> BadLimit false
 -721 1000001 0 -> BadLimit false
 0 18446744073709551615 0 -> BadLimit false
# The offset is from twelve hours west to fourteen east
 -32768 10 0 -> BadOffset false
 -721 10 0 -> BadOffset false
 -720 10 0 -> keep 60 offset -720 limit 10 entries 0 peers false
 0 10 0 -> keep 60 offset 0 limit 10 entries 0 peers false
 840 10 0 -> keep 60 offset 840 limit 10 entries 0 peers false
 841 10 0 -> BadOffset false
 900 10 0 -> BadOffset false
 32767 10 0 -> BadOffset false
# The other faults are told before memory is asked for
WATCH1,WATCH1 0 10 1 -> TwicePeer true
 0 0 1 -> BadLimit true
 900 10 1 -> BadOffset true
# There is no manager where one of its growths is refused: the lists of peers, of their subscriptions and of their queues
WATCH1,WATCH2 0 10 1 -> Memory false
WATCH1,WATCH2 0 10 2 -> Memory false
WATCH1,WATCH2 0 10 3 -> Memory false
WATCH1,WATCH2 0 10 4 -> keep 60 offset 0 limit 10 entries 0 peers WATCH1 WATCH2 true
# A lasting manager has a limit that no history reaches, and its other settings are allowed where those of any manager are
WATCH1,WATCH2 -300 lasting 0 -> keep 60 offset -300 limit 4611686018427387904 entries 0 peers WATCH1 WATCH2 false
WATCH1,WATCH2,WATCH1 0 lasting 1 -> TwicePeer true
WATCH1,WATCH1 900 lasting 1 -> TwicePeer true
 -721 lasting 1 -> BadOffset true
 -720 lasting 0 -> keep 60 offset -720 limit 4611686018427387904 entries 0 peers false
 840 lasting 0 -> keep 60 offset 840 limit 4611686018427387904 entries 0 peers false
 841 lasting 1 -> BadOffset true
WATCH1,WATCH2 0 lasting 3 -> Memory false
WATCH1,WATCH2 0 lasting 4 -> keep 60 offset 0 limit 4611686018427387904 entries 0 peers WATCH1 WATCH2 true";

/// Returns the peers with these titles, none of which may lock.
fn peers_of(alloc: Global, titles: &str) -> Result<Vec<Peer>, Fail> {
    let mut peers = Vec::new(alloc);
    for text in titles.split_terminator(',') {
        peers.push(Peer {
            ae: title(text)?,
            lock: false,
        })?;
    }
    Ok(peers)
}

/// Returns the settings of a manager as a text.
fn settings_of<A: Allocator + Copy>(
    rt: &impl AllocGlobal,
    manager: &Manager<A>,
) -> Result<String, Fail> {
    let (keep, offset, limit) = (manager.keep(), manager.offset(), manager.limit());
    let entries = manager.entries();
    let mut text = format!(in rt.alloc();
        "keep {keep} offset {offset} limit {limit} entries {entries} peers"
    )?;
    for peer in manager.peers() {
        text.push_str(" ")?;
        text.push_str(super::text_of(peer.ae.as_bytes())?)?;
    }
    Ok(text)
}

/// Starts a manager with a limit, or a lasting one, and returns the fault or its settings.
fn started<A: Allocator + Copy>(
    rt: &impl AllocGlobal,
    alloc: A,
    peers: &[Peer],
    offset: i16,
    limit: Option<u64>,
) -> Result<String, Fail> {
    if peers.len() > 1000 {
        return Err("too many peers".into());
    }
    let started = match limit {
        Some(limit) => Manager::new(alloc, peers, 60, offset, limit),
        None => Manager::lasting(alloc, peers, 60, offset),
    };
    match started {
        Ok(manager) => settings_of(rt, &manager),
        Err(fault) => Ok(format!(in rt.alloc(); "{fault:?}")?),
    }
}

/// Returns the limit that a word names, or None if it is that of a lasting manager.
fn limit_of(word: &str) -> Result<Option<u64>, Fail> {
    if word == "lasting" {
        return Ok(None);
    }
    Ok(Some(word.parse::<u64>()?))
}

/// Returns the outcome of what a row asks.
fn outcome_of(rt: &impl AllocGlobal, asked: &str) -> Result<String, Fail> {
    let mut words = asked.split(' ');
    let titles = words.next().ok_or("titles")?;
    let offset = words.next().ok_or("an offset")?.parse::<i16>()?;
    let limit = limit_of(words.next().ok_or("a limit")?)?;
    let growth = words.next().ok_or("a growth")?.parse::<u64>()?;
    let peers = peers_of(rt.alloc(), titles)?;
    let heap = Refusing::new(rt.alloc());
    heap.refuse(growth);
    let told = started(rt, &heap, &peers, offset, limit)?;
    Ok(format!(in rt.alloc(); "{told} {}", heap.is_armed())?)
}

/// Returns whether a row has the outcome of what it asks.
fn is_so(rt: &impl AllocGlobal, row: &str) -> Result<bool, Fail> {
    let (asked, outcome) = row.split_once(" -> ").ok_or("an outcome")?;
    Ok(outcome_of(rt, asked)?.as_str() == outcome)
}

#[test]
fn a_manager_has_the_settings_that_are_allowed(rt: HostRuntime) -> Result<(), Fail> {
    for row in ROWS.lines() {
        check(row, row.starts_with("# ") || is_so(&rt, row)?)?;
    }
    Ok(())
}
