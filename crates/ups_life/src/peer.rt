//! The application entities that may watch steps.

ghost use Rattle.std.specs.Prelude.{◌≡◌};
ghost use Rattle.ups_life.specs.Watching.{is_peer, may_lock};

use ups_pdu::Ae;

/// An application entity that may watch steps.
#[derive(Clone, Copy)]
pub struct Peer {
    /// The title of the application entity.
    pub ae: Ae,
    /// Whether it may lock steps against removal.
    pub lock: bool,
}

/// Returns whether one of the peers has this title.
pub fn is_peer(peers: &[Peer], ae: Ae) -> bool
    ensures { result ≡ is_peer peers.now ae }
{
    peers.iter().any(|peer| peer.ae.as_bytes() == ae.as_bytes())
}

/// Returns whether one of the peers has this title and may lock steps (PS3.4 CC.2.3).
pub fn may_lock(peers: &[Peer], ae: Ae) -> bool
    ensures { result ≡ may_lock peers.now ae }
{
    peers
        .iter()
        .any(|peer| peer.ae.as_bytes() == ae.as_bytes() && peer.lock)
}
