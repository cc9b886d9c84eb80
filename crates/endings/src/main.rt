//! `endings`: tells what a server that ends leaves in the history of its desk, and in its ledger. It is not part of the
//! product.
//!
//! The first two words are the number of associations that each worker serves and the number of rounds of the sweeper and
//! of each deliverer; a command line of `upsd serve` follows. With port 0 it prints its port first, as `upsd` does. Then
//! a line for each entry of the history tells the number of the pass that made it, the title of the one who asked, and
//! what was asked. With `--store` and any word its ledger keeps the records in memory. Three more lines then tell how
//! many entries the history has and the passes have seen, how many are committed, and whether the ledger has their
//! records.
#![tactic(auto)]

mod comparing;
mod history;
mod ledger;
mod server;
mod texts;

use crate::server::tell_server;
use crate::texts::{no_words, number_of};
use log::Log;
use std::io::{self, ErrorKind};
use std::process::ExitCode;
use std::sync::Wait;
use std::thread::Threads;
use std::time::Clock;
use ups_transport::Network;

/// Does what the words ask for, the first of which is the name of the program.
///
/// Errors: InvalidInput if the words are not valid; those of the network, and of the output; lack of memory.
fn tell<R>(rt: &R, words: &[String]) -> io::Result<()>
where
    R: Threads + Wait + Clock + Log + Sync + AllocGlobal + Print + Eprint + Network,
{
    let first = words.get(1).ok_or(no_words())?;
    let second = words.get(2).ok_or(no_words())?;
    let associations = number_of(first.as_str())?;
    let rounds = number_of(second.as_str())?;
    tell_server(rt, &words[2..], associations, rounds)
}

/// Returns the words of the command line.
fn words(rt: &HostRuntime) -> io::Result<Vec<String>> {
    let words: Vec<String> = std::env::args(rt)?.collect(rt.alloc())?;
    Ok(words)
}

/// Prints why the program failed, and returns the exit status: 3 if memory ran out, or else 2.
fn status_of<R: Eprint>(rt: &R, error: ErrorKind) -> ExitCode {
    if error == ErrorKind::OutOfMemory {
        let _ = eprintln!(rt; "endings: out of memory");
        return ExitCode::from(3);
    }
    let _ = eprintln!(rt; "endings: the words ask for no server, or the network or a write failed");
    ExitCode::from(2)
}

fn main(rt: HostRuntime) -> ExitCode {
    let told = match words(&rt) {
        Ok(words) => tell(&rt, &words),
        Err(error) => Err(error),
    };
    match told {
        Ok(()) => ExitCode::SUCCESS,
        Err(error) => status_of(&rt, error.kind()),
    }
}
