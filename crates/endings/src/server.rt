//! A server that ends.

ghost use Rattle.std.specs.Prelude.{◌≡◌, All};

use crate::comparing::are_of_first;
use crate::history::tell_history;
use crate::ledger::{MemoryLedger, MemoryStores};
use crate::texts::{no_words, out_of_memory};
use clap::ArgMatches;
use log::Log;
use std::alloc::Global;
use std::io;
use std::sync::Wait;
use std::thread::Threads;
use std::time::Clock;
use ups_args::{ArgumentFault, command};
use ups_ledger::Keeper;
use ups_life::Entry;
use ups_manager::Manager;
use ups_server::{ClosedServer, NoBook, RanServer, serve_words};
use ups_transport::Network;
use ups_turn::Pass;

/// Returns the error for refused words, or for lack of memory.
fn error_of(fault: ArgumentFault<'_>) -> io::Error {
    match fault {
        ArgumentFault::Memory => out_of_memory(),
        _ => no_words(),
    }
}

/// Runs a server with the words after `serve`, for a number of associations of each worker and of rounds of the sweeper
/// and of each deliverer; then closes its desk, and prints what it leaves. A store that the words name is a ledger in
/// memory.
///
/// Errors: InvalidInput if it does not listen, or the words are refused; those of the output; lack of memory, or of a
/// thread.
fn tell_served<R>(
    rt: &R,
    matches: &ArgMatches<'_>,
    associations: u64,
    rounds: u64,
) -> io::Result<()>
where
    R: Threads + Wait + Clock + Log + Sync + AllocGlobal + Print + Eprint + Network,
{
    let stores = MemoryStores::new(rt.alloc());
    match serve_words(rt, &stores, NoBook, matches, associations, rounds) {
        Ok(Some(server)) => tell_left(rt, rt.alloc(), server),
        Ok(None) => Err(no_words()),
        Err(fault) => Err(error_of(fault)),
    }
}

/// Returns the greatest number of entries that one of these passes has seen.
fn most_seen(passes: &[Pass<Manager<Global>, Global>]) -> u64 {
    let mut most: u64 = 0;
    for pass in passes {
        most = most.max(pass.seen());
    }
    most
}

/// Returns the greatest number of entries that a pass of a server has seen, or None if its threads did not begin.
fn seen_by(server: &RanServer<MemoryLedger>) -> Option<u64> {
    if !server.begun {
        return None;
    }
    Some(most_seen(&server.passes))
}

/// Closes the desk of a server, and prints what the server leaves.
///
/// Errors: those of the output; lack of memory, or of a thread.
fn tell_left<R: Print>(rt: &R, alloc: Global, server: RanServer<MemoryLedger>) -> io::Result<()>
    requires here { All (λ p. p.table ≡ server.desk.table) server.passes.items }
{
    let seen = seen_by(&server);
    match server.close() {
        Ok(closed) => tell_closed(rt, alloc, &closed, seen),
        Err(_) => Err(no_words()),
    }
}

/// Prints the history of a closed server, and what its ledger has of it, if there is one, given the greatest number of
/// entries that a pass has seen.
///
/// Errors: those of the output; lack of memory, also if there is no such number, since a thread could not begin.
fn tell_closed<R: Print>(
    rt: &R,
    alloc: Global,
    closed: &ClosedServer<MemoryLedger>,
    seen: Option<u64>,
) -> io::Result<()> {
    let Some(seen) = seen else {
        return Err(out_of_memory());
    };
    let history = closed.manager.history();
    tell_history(rt, history)?;
    match &closed.keeper {
        Some(keeper) => tell_kept(rt, alloc, history, keeper, seen),
        None => Ok(()),
    }
}

/// Prints the numbers of entries of a history, of those that a pass has seen, and of those that are committed; and
/// whether the ledger has their records.
///
/// Errors: those of the output; lack of memory.
fn tell_kept<R: Print>(
    rt: &R,
    alloc: Global,
    history: &[Entry<Global>],
    keeper: &Keeper<MemoryLedger>,
    seen: u64,
) -> io::Result<()> {
    let records = keeper.ledger.records();
    let are_first = are_of_first(alloc, records, history)?;
    let which = if are_first {
        "those of the first entries"
    } else {
        "not those of the first entries"
    };
    println!(rt;
        "history: {} entries, of which a pass has seen {seen}",
        history.len()
    )?;
    println!(rt; "committed: {} entries", keeper.committed)?;
    println!(rt; "ledger: {} records, {which}", records.len())
}

/// Parses the words of a command line, whose first word stands for the program.
///
/// Errors: InvalidInput if the words are not a command line of `upsd`; lack of memory.
fn matches_of(alloc: Global, words: &[String]) -> io::Result<ArgMatches<'_>> {
    match command(alloc)?.try_get_matches_from(words) {
        Ok(matches) => Ok(matches),
        Err(_) => Err(no_words()),
    }
}

/// Runs a server as a command line asks, and prints what it leaves.
///
/// Errors: InvalidInput if the command is not `serve`, the words after it are refused, or it does not listen; those of
/// the output; lack of memory, or of a thread.
fn tell_asked<R>(rt: &R, matches: &ArgMatches<'_>, associations: u64, rounds: u64) -> io::Result<()>
where
    R: Threads + Wait + Clock + Log + Sync + AllocGlobal + Print + Eprint + Network,
{
    match matches.subcommand() {
        Some(("serve", matches)) => tell_served(rt, matches, associations, rounds),
        _ => Err(no_words()),
    }
}

/// Runs a server with a command line of `upsd serve`, whose first word stands for the program, and prints what it leaves.
///
/// Errors: InvalidInput if the words are not such a command line, or it does not listen; those of the output; lack of
/// memory, or of a thread.
pub(crate) fn tell_server<R>(
    rt: &R,
    words: &[String],
    associations: u64,
    rounds: u64,
) -> io::Result<()>
where
    R: Threads + Wait + Clock + Log + Sync + AllocGlobal + Print + Eprint + Network,
{
    let matches = matches_of(rt.alloc(), words)?;
    tell_asked(rt, &matches, associations, rounds)
}
