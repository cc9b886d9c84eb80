//! The checks of the settings of a manager.

ghost use Rattle.std.specs.Prelude.{◌≡◌};
ghost use Rattle.ups_settings.specs.Refusal.{is_named, is_twice, refusal};

use crate::fault::ManagerFault;
use ups_life::{MAX_HISTORY, MAX_OFFSET, MIN_OFFSET, Peer};
use ups_pdu::Ae;

/// Returns whether one of the peers has this title.
fn is_named(ae: Ae, peers: &[Peer]) -> bool
    ensures { result ≡ is_named ae peers.now }
{
    peers.iter().any(|peer| peer.ae == ae)
}

/// Returns whether two of the peers have the same title.
fn is_twice(peers: &[Peer]) -> bool
    ensures { result ≡ is_twice peers.now }
{
    for (place, peer) in peers.iter().enumerate() {
        if is_named(peer.ae, &peers[place + 1..]) {
            return true;
        }
    }
    false
}

/// Returns the first reason why no manager is made with these settings, if any.
pub fn refusal(peers: &[Peer], offset: i16, limit: u64) -> Option<ManagerFault>
    ensures { result ≡ refusal peers.now offset limit }
{
    if is_twice(peers) {
        return Some(ManagerFault::TwicePeer);
    }
    if limit == 0 || limit > MAX_HISTORY {
        return Some(ManagerFault::BadLimit);
    }
    if offset < MIN_OFFSET || offset > MAX_OFFSET {
        return Some(ManagerFault::BadOffset);
    }
    None
}
