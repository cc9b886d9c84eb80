//! What the supervisor of the service is told in each round of the sweeper.

use crate::committer::Committer;
use crate::options::ServerOptions;
use crate::server_state::ServerState;
use ups_ledger::Keeping;
use ups_transport::Network;

/// Tells the supervisor that the server works: its history has `entries` entries, so many of them are committed, if a
/// store is kept, and so many workers are taken.
///
/// Tells nothing once the store is lost: a supervisor that waits for each round (`WatchdogSec=` of systemd) then starts
/// the server anew, which is all that helps.
pub(crate) fn tell_state<K: Keeping, R: Network>(
    rt: &R,
    state: &ServerState<K>,
    options: &ServerOptions,
    committer: &Committer,
    entries: u64,
) {
    if committer.is_lost() {
        return;
    }
    let alloc = options.alloc;
    let taken = state.door.taken();
    let workers = options.limits.workers;
    let told = match state.commits.kept() {
        Some(committed) => {
            format!(in alloc;
                "WATCHDOG=1\nSTATUS={entries} requests, {committed} committed; {taken} of {workers} workers taken"
            )
        }
        None => {
            format!(in alloc;
                "WATCHDOG=1\nSTATUS={entries} requests; {taken} of {workers} workers taken"
            )
        }
    };
    match told {
        Ok(lines) => rt.tell_supervisor(lines.as_str()),
        Err(_) => rt.tell_supervisor("WATCHDOG=1"),
    }
}
