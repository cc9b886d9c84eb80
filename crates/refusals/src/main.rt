//! `refusals`: tells what a service answers when one growth of memory is refused, so that each of its growths can be
//! refused in turn in a built program; and what it answers when its history or its devices are short. It is not part of
//! the product.
//!
//! A line of input is the number of the growth to refuse, counted from 1, followed by the parts of a course, each with
//! a space before it, its kind, a colon and hex digits: what a peer sends in an association (`serve`), what the watcher
//! W1 answers in the association that this side asks it for (`deliver`), or the lines of a script (`script`). One
//! service handles all of them. With 0 nothing is refused. A script that acknowledges (`ack`) is given by its moment,
//! the title, and how many of the newest events are left out, plus 1: with 0 there is one event too few.
//!
//! The number and each kind may have options, each with a comma before it. After the number: `history=N`, the limit of
//! the history in requests; `lasting`, if it has no end, and then nothing is refused; and `offset=N`, the local time in
//! minutes east of UTC. After a kind: `turns=N`, the maximum number of PDUs or lines to read; and after that of an
//! association `room=N`, the number of bytes that the output accepts; `fails`, if the input fails after its bytes
//! instead of ending; `reads` and `writes`, if each read or each write is interrupted once; `timed`, if the first two
//! moments are noon of 2024-02-29, UTC, and a minute later; `full`, to report the calls of the gate and the caller, the
//! title and the moment of each entry; and `pending`, to report the numbers of the events that are then pending for W1.
//!
//! Five kinds of parts ask nothing of the service: `plain`, what the plain programs list of its history, like the
//! replies to `held`, and to `watches` of each peer; `find`, what the plain program finds, given the keys of a line;
//! `due`, whether the plain program finds a step due to be removed, given the moment, a space and its UID; `size`, the
//! number of bytes of the row of a step, given its UID; and `counts`, about how many steps the last query asked, and
//! how many events wait for each peer and were made for it. If the history has no end, there are also `go:N`, which
//! lets the requests before index N leave memory and tells how many have left, and `compact:MOMENT`, which gives the
//! service its compacted history.
//!
//! A line of output has for each part the hex digits of what is written, how it ends, and the number of requests in the
//! history then; and after all parts `refused`, or `all` if no growth was refused because there are fewer.
#![tactic(auto)]

mod associations;
mod courses;
mod devices;
mod lasting;
mod lines;
mod options;
mod parts;
mod plainly;

use crate::courses::course_of;
use std::io::{self, BufRead, BufReader, ErrorKind};
use std::process::ExitCode;

/// Runs the course of each line of standard input, and prints its outcome.
///
/// Errors: those of a line, and of the reader.
fn tell_all<R: Input + Print + AllocGlobal>(rt: &R) -> io::Result<()> {
    for line in BufReader::new(rt.alloc(), rt.reader())?.lines(rt.alloc()) {
        let line = line?;
        tell(rt, line.as_str())?;
    }
    Ok(())
}

/// Runs the course of a line, and prints its outcome.
///
/// Errors: InvalidData if the line is not valid; those of the writer; lack of memory.
fn tell<R: Print + AllocGlobal>(rt: &R, line: &str) -> io::Result<()> {
    let text = course_of(rt.alloc(), line)?;
    println!(rt; "{text}")
}

/// Prints why not all lines were handled, and returns the exit status: 3 if memory ran out, or else 2.
fn status_of<R: Eprint>(rt: &R, error: ErrorKind) -> ExitCode {
    if error == ErrorKind::OutOfMemory {
        let _ = eprintln!(rt; "refusals: out of memory");
        return ExitCode::from(3);
    }
    let _ = eprintln!(rt; "refusals: a line is none, or a read or a write failed");
    ExitCode::from(2)
}

fn main(rt: HostRuntime) -> ExitCode {
    match tell_all(&rt) {
        Ok(()) => ExitCode::SUCCESS,
        Err(error) => status_of(&rt, error.kind()),
    }
}
