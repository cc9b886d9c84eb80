//! Terms from text.

ghost use Rattle.std.specs.Prelude.{◌≡◌, IfOk};
ghost use Rattle.ups_terms.specs.Text.{terms_text};

use crate::terms::{Terms, TermsFault};
use crate::writing::terms_text;
use std::alloc::Allocator;
use std::str::{self, Lines};
use ups_life::Peer;
use ups_pdu::Ae;

/// Returns the peer of a line, or None if it is the line of none.
fn peer_of(line: &str) -> Option<Peer> {
    let (word, title) = line.split_once('=')?;
    let lock = match word {
        "lock" => true,
        "peer" => false,
        _ => return None,
    };
    let ae = Ae::of(title.as_bytes())?;
    Some(Peer { ae, lock })
}

/// Returns the peers of the remaining lines.
///
/// Errors: Memory; Unreadable.
fn peers_of<A: Allocator + Copy>(alloc: A, lines: Lines<'_>) -> Result<Vec<Peer, A>, TermsFault> {
    let mut peers = Vec::new(alloc);
    for line in lines {
        let Some(peer) = peer_of(line) else {
            return Err(TermsFault::Unreadable);
        };
        peers.push(peer)?;
    }
    Ok(peers)
}

/// Returns the number of seconds in the first of these lines, or None if it tells none.
fn keep_of(lines: &mut Lines<'_>) -> Option<u32> {
    lines.next()?.strip_prefix("keep=")?.parse().ok()
}

/// Returns the offset in the first of these lines, or None if it tells none.
fn offset_of(lines: &mut Lines<'_>) -> Option<i16> {
    lines.next()?.strip_prefix("offset=")?.parse().ok()
}

/// Returns the terms that the lines of a text tell.
///
/// Errors: Memory; Unreadable.
fn terms_in<A: Allocator + Copy>(alloc: A, text: &str) -> Result<Terms<A>, TermsFault> {
    let mut lines = text.lines();
    let Some(keep) = keep_of(&mut lines) else {
        return Err(TermsFault::Unreadable);
    };
    let Some(offset) = offset_of(&mut lines) else {
        return Err(TermsFault::Unreadable);
    };
    let peers = peers_of(alloc, lines)?;
    Ok(Terms {
        keep,
        offset,
        peers,
    })
}

/// Returns the terms whose text this is.
///
/// # Errors
///
/// Memory; Unreadable if it is not what [`terms_text`](crate::terms_text) writes.
pub fn parse_terms<A: Allocator + Copy>(alloc: A, text: &[u8]) -> Result<Terms<A>, TermsFault>
    ensures { IfOk result (λ terms. terms_text terms.keep terms.offset terms.peers.items ≡ text.now) }
{
    let Ok(lines) = str::from_utf8(text) else {
        return Err(TermsFault::Unreadable);
    };
    let terms = terms_in(alloc, lines)?;
    let again = terms_text(alloc, terms.keep, terms.offset, &terms.peers)?;
    if again.as_bytes() != text {
        return Err(TermsFault::Unreadable);
    }
    Ok(terms)
}
