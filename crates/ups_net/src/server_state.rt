//! What the threads of a server share, besides its desk.

use crate::roster::Roster;
use std::alloc::{AllocError, Global};
use ups_ledger::{Commits, Keeping};
use ups_log::Tally;
use ups_peers::Watcher;
use ups_transport::Door;

/// What the threads of a server share, besides its desk: the door, the roster of its watchers, the counts for its log,
/// and the number of committed entries of its history.
pub struct ServerState<K: Keeping> {
    pub(crate) door: Door,
    pub(crate) roster: Roster,
    pub(crate) tally: Tally,
    pub(crate) commits: Commits<K>,
}

impl<K: Keeping> Drop for ServerState<K> {
    fn drop(self) {
        let ServerState {
            door: _,
            roster: _,
            tally: _,
            commits: _,
        } = self;
    }
}

impl<K: Keeping> ServerState<K> {
    /// Creates the state of a server with this door, for these watchers, none of which is away, and `deliverers`
    /// deliverers. Answers and reports wait for `commits`.
    ///
    /// # Errors
    ///
    /// If memory runs out.
    pub fn new(
        alloc: Global,
        door: Door,
        watchers: &[Watcher],
        deliverers: u32,
        commits: Commits<K>,
    ) -> Result<ServerState<K>, AllocError> {
        let roster = Roster::new(alloc, watchers, deliverers)?;
        Ok(ServerState {
            door,
            roster,
            tally: Tally::new(alloc),
            commits,
        })
    }

    /// Notes how many steps the server begins with, for its numbers.
    pub fn begin_with(&self, steps: u64) {
        self.tally.begin_with(steps);
    }

    /// Returns the door.
    pub fn door(&self) -> &Door {
        &self.door
    }
}
