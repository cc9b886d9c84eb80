//! `passes`: tells what the passes of a desk leave in its history, once their threads are done and the desk is closed.
//! It is not part of the product.
//!
//! The words are numbers of passes. For each, that many passes, each in its own thread, claim each of a hundred steps at
//! the same time. Lines tell how many passes there are, how the claims were answered, how many entries a pass has seen
//! once it has met all others, how many the history has, and how many of these no pass made; then one for each pass,
//! whether it has as many as it had claims accepted.
#![tactic(auto)]

mod claims;
mod outcome;
mod race;
mod steps;

use crate::outcome::{RaceOutcome, tell_outcome};
use crate::race::outcome_over;
use crate::steps::with_steps;
use std::io::{self, ErrorKind};
use std::process::ExitCode;
use std::sync::Wait;
use std::thread::Threads;
use ups_pdu::Ae;

/// Makes that many passes claim each of a hundred steps at the same time, and returns the outcome.
///
/// Errors: InvalidInput if no desk has so many; lack of memory.
fn outcome_of<R: Threads + Wait + Sync + AllocGlobal>(
    rt: &R,
    seats: u32,
) -> io::Result<RaceOutcome> {
    let Some(ae) = Ae::of(b"PERFORM1") else {
        return Err(io::Error::from(ErrorKind::InvalidInput));
    };
    let manager = with_steps(rt.alloc())?;
    outcome_over(rt, rt.alloc(), ae, manager, seats)
}

/// Makes as many passes as a word says claim each of a hundred steps at the same time, and prints the outcome.
///
/// Errors: InvalidInput if the word is not the number of passes that a desk may have; those of the output; lack of
/// memory.
fn tell_race<R: Threads + Wait + Sync + AllocGlobal + Print>(rt: &R, word: &str) -> io::Result<()> {
    let Ok(seats) = word.parse::<u32>() else {
        return Err(io::Error::from(ErrorKind::InvalidInput));
    };
    let outcome = outcome_of(rt, seats)?;
    tell_outcome(rt, &outcome)
}

/// Does the same for each word but the first, which is the name of the program.
///
/// Errors: InvalidInput if a word is not the number of passes that a desk may have; those of the output; lack of
/// memory.
fn tell_races<R: Threads + Wait + Sync + AllocGlobal + Print>(
    rt: &R,
    words: &[String],
) -> io::Result<()> {
    for word in words.iter().skip(1) {
        tell_race(rt, word.as_str())?;
    }
    Ok(())
}

/// Returns the words of the command line.
fn words(rt: &HostRuntime) -> io::Result<Vec<String>> {
    let words: Vec<String> = std::env::args(rt)?.collect(rt.alloc())?;
    Ok(words)
}

/// Prints why the program failed, and returns the exit status: 3 if memory ran out, or else 2.
fn status_of<R: Eprint>(rt: &R, error: ErrorKind) -> ExitCode {
    if error == ErrorKind::OutOfMemory {
        let _ = eprintln!(rt; "passes: out of memory");
        return ExitCode::from(3);
    }
    let _ = eprintln!(rt; "passes: a word is no number of passes, or a write failed");
    ExitCode::from(2)
}

fn main(rt: HostRuntime) -> ExitCode {
    let told = match words(&rt) {
        Ok(words) => tell_races(&rt, &words),
        Err(error) => Err(error),
    };
    match told {
        Ok(()) => ExitCode::SUCCESS,
        Err(error) => status_of(&rt, error.kind()),
    }
}
