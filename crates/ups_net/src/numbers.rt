//! The numbers of a server, for its log.

ghost use Rattle.std.specs.Prelude.{◌≡◌, IfSome};
ghost use Rattle.ups_ledger.specs.Backed.{IsBacked};

use crate::options::ServerOptions;
use crate::roster::Roster;
use crate::server_state::ServerState;
use log::{Log, info};
use std::fmt;
use ups_ledger::Keeping;
use ups_log::{Tally, title_of};
use ups_peers::Watcher;

/// The numbers of a server, as a line of its log shows them.
#[derive(Clone, Copy)]
pub(crate) struct Numbers<'a> {
    /// The number of entries in the history.
    pub(crate) entries: u64,
    /// The number of the run and of its committed entries, if they are kept.
    pub(crate) run: Option<u64>,
    pub(crate) committed: Option<u64>,
    /// The number of workers that serve an association, and the number of all workers.
    pub(crate) taken: u64,
    pub(crate) workers: u32,
    /// The counts since the start.
    pub(crate) tally: &'a Tally,
    /// The roster, which knows how many reports wait for each of these watchers.
    pub(crate) roster: &'a Roster,
    pub(crate) watchers: &'a [Watcher],
}

impl<'a> Numbers<'a> {
    /// Returns the numbers of a server whose history has `entries` entries.
    pub(crate) fn of<K: Keeping>(
        state: &'a ServerState<K>,
        options: &'a ServerOptions,
        entries: u64,
    ) -> Numbers<'a>
        ensures entries { result.entries ≡ entries }
        ensures committed { IfSome result.committed (λ count. IsBacked K.had count) }
        ensures workers { result.workers ≡ options.now.limits.workers }
    {
        Numbers {
            entries,
            run: state.commits.run(),
            committed: state.commits.kept(),
            taken: state.door.taken(),
            workers: options.limits.workers,
            tally: &state.tally,
            roster: &state.roster,
            watchers: &options.watchers,
        }
    }
}

impl<'a> fmt::Display for Numbers<'a> {
    fn fmt<W: fmt::Write>(&self, f: &mut fmt::Formatter<W>) -> fmt::Result {
        write!(
            f,
            "entries={} taken={} workers={} associations={} requests={} refusals={}",
            self.entries,
            self.taken,
            self.workers,
            self.tally.associations(),
            self.tally.requests(),
            self.tally.refusals()
        )?;
        if let (Some(run), Some(committed)) = (self.run, self.committed) {
            write!(f, " run={run} committed={committed}")?;
        }
        for (place, watcher) in self.watchers.iter().enumerate() {
            let waiting = self.roster.presence(place).waiting();
            if waiting > 0 {
                write!(f, " reports.{}={waiting}", title_of(&watcher.ae))?;
            }
        }
        Ok(())
    }
}

/// Logs the numbers of a server.
pub(crate) fn tell_numbers<R: Log>(rt: &R, numbers: &Numbers<'_>) {
    info!(rt; target: "upsd", "serve: {numbers}");
}
