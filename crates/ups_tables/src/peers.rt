//! The index of a peer in the list of peers.

ghost use Rattle.std.specs.Prelude.{◌≡◌};
ghost use Rattle.ups_tables.specs.Places.{place_of_title};

use ups_life::Peer;
use ups_pdu::Ae;

/// Returns the index of the first peer with the title, or None if no peer has it.
pub fn place_of(peers: &[Peer], ae: Ae) -> Option<usize>
    ensures { result ≡ place_of_title peers.now ae }
{
    for (place, peer) in peers.iter().enumerate() {
        if peer.ae.as_bytes() == ae.as_bytes() {
            return Some(place);
        }
    }
    None
}
