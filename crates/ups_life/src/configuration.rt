//! The configuration of the service.

ghost use Rattle.std.specs.Prelude.{◌≡◌};

use crate::peer::Peer;
use std::alloc::Allocator;
use std::marker::Model;

/// The configuration of the service, which is fixed at the start.
#[derive(Drop)]
pub struct Configuration<A: Allocator + Copy> {
    peers: Vec<Peer, A>,
    keep: u32,
    offset: i16,
    limit: u64,
}

impl<A: Allocator + Copy> Model for Configuration<A> {
    ghost use Rattle.ups_life.specs.Settings.{Settings};

    ghost Value = { Settings };

    ghost view = { λ c. record { peers = c.peers.items; keep = c.keep; offset = c.offset; limit = c.limit } };
}

impl<A: Allocator + Copy> Configuration<A> {
    /// Creates a configuration: the peers that may watch steps, the least number of seconds for which a finished step
    /// is kept, the offset of the local time from UTC in minutes, positive to the east (PS3.5 section 6.2, DT), and the
    /// maximum number of requests in the history.
    pub fn new(peers: Vec<Peer, A>, keep: u32, offset: i16, limit: u64) -> Configuration<A>
        ensures { result ≡ record { peers = peers.items; keep = keep; offset = offset; limit = limit } }
    {
        Configuration {
            peers,
            keep,
            offset,
            limit,
        }
    }

    /// Returns the peers that may watch steps.
    pub fn peers(&self) -> &[Peer]
        ensures { result.now ≡ self.now.peers }
    {
        self.peers.as_slice()
    }

    /// Returns the least number of seconds for which a finished step is kept.
    pub fn keep(&self) -> u32
        ensures { result ≡ self.now.keep }
    {
        self.keep
    }

    /// Returns the offset of the local time from UTC in minutes, positive to the east.
    pub fn offset(&self) -> i16
        ensures { result ≡ self.now.offset }
    {
        self.offset
    }

    /// Returns the maximum number of requests in the history.
    pub fn limit(&self) -> u64
        ensures { result ≡ self.now.limit }
    {
        self.limit
    }
}
