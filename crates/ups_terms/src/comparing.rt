//! What a run lacks of the terms of an earlier one.

ghost use Rattle.std.specs.Prelude.{◌≡◌, ◌↔◌, None, IfSome, IsTrue};
ghost use Rattle.ups_terms.specs.Permits.{is_still, LacksRight, Permits, Lacks};

use crate::lacking::Difference;
use crate::terms::Terms;
use std::alloc::Allocator;
use ups_life::{Peer, is_peer, may_lock};

/// Returns what a peer of an earlier run lacks among these, or None if it is still one, with its right.
fn lack_of(peers: &[Peer], was: &Peer) -> Option<Difference>
    ensures none { result ≡ None ↔ IsTrue (is_still peers.now was.now) }
    ensures some { IfSome result (LacksRight peers.now was.now) }
{
    if !is_peer(peers, was.ae) {
        return Some(Difference::Peer(was.ae));
    }
    if was.lock && !may_lock(peers, was.ae) {
        return Some(Difference::Lock(was.ae));
    }
    None
}

/// Returns what a run with this keep (in seconds), offset (in minutes) and these peers lacks of the terms of an earlier
/// one: the first difference in the order of these terms, or None if it permits as much.
pub fn difference<A: Allocator>(
    old: &Terms<A>,
    keep: u32,
    offset: i16,
    peers: &[Peer],
) -> Option<Difference>
    ensures none { result ≡ None ↔ Permits old.now keep offset peers.now }
    ensures some { IfSome result (Lacks old.now keep offset peers.now) }
{
    if old.keep != keep {
        return Some(Difference::Keep(old.keep));
    }
    if old.offset != offset {
        return Some(Difference::Offset(old.offset));
    }
    for was in &old.peers {
        if let Some(lack) = lack_of(peers, was) {
            return Some(lack);
        }
    }
    None
}
