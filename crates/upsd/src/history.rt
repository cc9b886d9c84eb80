//! The accepted requests of a store, as lines of a script.

use crate::ending::{ExitStatus, refuse};
use crate::place::ServerPlace;
use crate::storing::stopped;
use clap::ArgMatches;
use sqlite_trees::store::Store;
use std::alloc::{AllocError, Global};
use std::io::{self, BufWriter, Write};
use std::str;
use ups_args::{HistoryArguments, history_arguments};
use ups_life::Peer;
use ups_requests::{Untold, line_of};
use ups_settings::OFFSET;
use ups_start::{Replay, StartFault, StorePlace, last_terms};
use ups_store::{StoreFault, StoredRequest};
use ups_terms::Terms;

/// Why the lines of a history end early.
#[derive(Clone, Copy, Debug, PartialEq, Eq)]
enum EndedEarly {
    /// The requests could not be read.
    Read(StoreFault),
    /// No line tells the request with this number.
    Untold(u64),
    /// The store has only this many requests.
    Few(u64),
    /// A write failed.
    Write,
    /// Memory ran out.
    Memory,
}

/// Writes the line of the request with this number, and a line feed.
///
/// Errors: Untold; Write; Memory.
fn put_request<W: Write>(
    alloc: Global,
    writer: &mut W,
    number: u64,
    stored: &StoredRequest,
    offset: i16,
) -> Result<(), EndedEarly> {
    let line = match line_of(alloc, &stored.asked, offset) {
        Ok(line) => line,
        Err(Untold::Unsayable) => return Err(EndedEarly::Untold(number)),
        Err(Untold::Memory) => return Err(EndedEarly::Memory),
    };
    if writer.write_all(&line).is_err() || writer.write_all(b"\n").is_err() {
        return Err(EndedEarly::Write);
    }
    Ok(())
}

/// Reads the next request, if there is one.
///
/// Errors: Read; Memory.
fn next_of<S: Store>(replay: &mut Replay<S>) -> Result<Option<StoredRequest>, EndedEarly> {
    match replay.next_request() {
        Ok(found) => Ok(found),
        Err(StoreFault::Memory) => Err(EndedEarly::Memory),
        Err(fault) => Err(EndedEarly::Read(fault)),
    }
}

/// Writes the lines of the first requests of a store that was just opened: of so many, or of all.
///
/// Errors: Read; Untold, after the lines of the requests before it; Few, after those of all; Write; Memory.
fn put_requests<S: Store, W: Write>(
    alloc: Global,
    replay: &mut Replay<S>,
    writer: &mut W,
    offset: i16,
    until: Option<u64>,
) -> Result<(), EndedEarly> {
    for before in 0..until.unwrap_or(u64::MAX) {
        match next_of(replay)? {
            Some(stored) => put_request(alloc, writer, before + 1, &stored, offset)?,
            None if until.is_some() => return Err(EndedEarly::Few(before)),
            None => return Ok(()),
        }
    }
    Ok(())
}

/// Appends a peer as a word for a shell. Nothing is sent to it, so any address serves.
fn push_peer(text: &mut String, peer: &Peer) -> Result<(), AllocError> {
    text.push_str(" '")?;
    for letter in str::from_utf8(peer.ae.as_bytes()).unwrap_or("").chars() {
        match letter {
            '\'' => text.push_str("'\\''")?,
            _ => text.push(letter)?,
        }
    }
    text.push_str(if peer.lock {
        "=none:1,lock'"
    } else {
        "=none:1'"
    })
}

/// Returns the command line that goes with the lines of a store whose last run noted these terms, if they are read with
/// this offset.
///
/// Errors: lack of memory.
fn script_command(alloc: Global, terms: &Terms<Global>, offset: i16) -> Result<String, AllocError> {
    let mut text = format!(in alloc;
        "upsd script --history --keep {} --offset={offset}",
        terms.keep
    )?;
    for peer in &terms.peers {
        push_peer(&mut text, peer)?;
    }
    Ok(text)
}

/// Prints the command line that goes with the lines of a store, and returns the offset with which they are read: this one,
/// or that of the last run.
///
/// Errors: lack of memory.
fn tell_terms<R: Eprint>(
    rt: &R,
    alloc: Global,
    asked: HistoryArguments<'_>,
    noted: Option<Terms<Global>>,
) -> Result<i16, AllocError> {
    let Some(terms) = noted else {
        let _ = eprintln!(rt;
            "upsd: the store {}: its last run noted no settings: give upsd script --history those of the server, and --offset here too",
            asked.store
        );
        return Ok(asked.offset.unwrap_or(OFFSET));
    };
    let offset = asked.offset.unwrap_or(terms.offset);
    let text = script_command(alloc, &terms, offset)?;
    let _ = eprintln!(rt; "{text}");
    Ok(offset)
}

/// Prints why the lines of a history ended early, and returns how the program ends.
///
/// Errors: lack of memory, if that is why.
fn ended_early<R: Eprint>(rt: &R, file: &str, ended: EndedEarly) -> Result<ExitStatus, AllocError> {
    let _ = match ended {
        EndedEarly::Read(fault) => return stopped(rt, file, &StartFault::Read(fault)),
        EndedEarly::Memory => return Err(AllocError),
        EndedEarly::Untold(number) => {
            eprintln!(rt;
                "upsd: the store {file}: no line tells request {number}: its keys were read with another --offset"
            )
        }
        EndedEarly::Few(count) => {
            eprintln!(rt; "upsd: the store {file}: it has {count} requests")
        }
        EndedEarly::Write => eprintln!(rt; "upsd: a write failed"),
    };
    Ok(ExitStatus::Stopped)
}

/// Writes the lines of the requests of a store to standard output, and flushes them.
///
/// Errors: those of `put_requests`.
fn put_history<S: Store>(
    rt: &HostRuntime,
    replay: &mut Replay<S>,
    offset: i16,
    until: Option<u64>,
) -> Result<(), EndedEarly> {
    let alloc = rt.alloc();
    let Ok(mut writer) = BufWriter::new(alloc, io::writer(rt)) else {
        return Err(EndedEarly::Memory);
    };
    let ended = put_requests(alloc, replay, &mut writer, offset, until);
    if writer.flush().is_err() {
        return Err(EndedEarly::Write);
    }
    ended
}

/// Tells the requests of the store at a place, and returns how the program ends.
///
/// Errors: lack of memory.
fn told_at<P: StorePlace>(
    rt: &HostRuntime,
    place: &P,
    asked: HistoryArguments<'_>,
) -> Result<ExitStatus, AllocError> {
    let file = asked.store;
    let noted = match last_terms(rt.alloc(), place) {
        Ok(noted) => noted,
        Err(fault) => return stopped(rt, file, &fault),
    };
    let mut replay = match place.open() {
        Ok(replay) => replay,
        Err(fault) => return stopped(rt, file, &StartFault::Open(fault)),
    };
    let offset = tell_terms(rt, rt.alloc(), asked, noted)?;
    match put_history(rt, &mut replay, offset, asked.until) {
        Ok(()) => Ok(ExitStatus::Done),
        Err(ended) => ended_early(rt, file, ended),
    }
}

/// Runs `history`: tells the accepted requests of the store that the command line names, and returns how the program ends.
///
/// Errors: lack of memory.
pub(crate) fn perform_history(
    rt: &HostRuntime,
    matches: &ArgMatches<'_>,
) -> Result<ExitStatus, AllocError> {
    match history_arguments(matches) {
        Ok(asked) => told_at(rt, &ServerPlace::new(rt, asked.store), asked),
        Err(fault) => refuse(rt, fault),
    }
}
