//! `readings`: describes bytes, so that rows of bytes can be tried on a built program. It is not part of the product.
//!
//! A line of input is a kind of bytes, a space, and the bytes in hex digits. A line of output is what they are, or
//! their fault, and after ` | ` the hex digits of what is written for them.
#![tactic(auto)]

mod commands;
mod lines;
mod parts;
mod pdus;
mod requests;
mod sets;

use crate::commands::{answer_line, command_line};
use crate::lines::{bytes_of, no_row};
use crate::parts::{
    announcing_line, class_line, dictionary_line, padded_line, tag_line, title_line, uid_line,
};
use crate::pdus::{header_line, pdu_line};
use crate::requests::request_line;
use crate::sets::set_line;
use std::io::{self, BufRead, BufReader, ErrorKind};
use std::process::ExitCode;
use ups_pdu::TransferSyntax;

/// Describes bytes of a kind.
///
/// Errors: InvalidData if there is no such kind, or the bytes are not of it; lack of memory.
fn line_of_kind(rt: &impl AllocGlobal, kind: &str, bytes: &[u8]) -> io::Result<String> {
    match kind {
        "uid" => uid_line(rt.alloc(), bytes),
        "title" => title_line(rt.alloc(), bytes),
        "padded" => padded_line(rt.alloc(), bytes),
        "header" => header_line(rt.alloc(), bytes),
        "pdu" => pdu_line(rt.alloc(), bytes),
        "set-implicit" => set_line(
            rt,
            TransferSyntax::Implicit,
            TransferSyntax::Implicit,
            bytes,
        ),
        "set-explicit" => set_line(
            rt,
            TransferSyntax::Explicit,
            TransferSyntax::Explicit,
            bytes,
        ),
        "set-converted" => set_line(
            rt,
            TransferSyntax::Implicit,
            TransferSyntax::Explicit,
            bytes,
        ),
        "tag" => tag_line(rt.alloc(), bytes),
        "dictionary" => dictionary_line(rt.alloc()),
        "command" => command_line(rt.alloc(), bytes),
        "announcing" => announcing_line(rt.alloc(), bytes),
        "class" => class_line(rt.alloc(), bytes),
        "request" => request_line(rt.alloc(), bytes),
        _ => match kind.strip_prefix("answer ") {
            Some(how) => answer_line(rt.alloc(), how, bytes),
            None => Err(no_row()),
        },
    }
}

/// Describes the bytes of a line.
///
/// Errors: InvalidData if it is not valid; those of the writer; lack of memory.
fn tell<R: Print + AllocGlobal>(rt: &R, line: &str) -> io::Result<()> {
    let Some((kind, digits)) = line.rsplit_once(' ') else {
        return Err(no_row());
    };
    let bytes = bytes_of(rt.alloc(), digits)?;
    let text = line_of_kind(rt, kind, &bytes)?;
    println!(rt; "{text}")
}

/// Describes the bytes of a line that was read, or fails as the read did.
fn tell_read<R: Print + AllocGlobal>(rt: &R, line: io::Result<String>) -> io::Result<()> {
    tell(rt, line?.as_str())
}

/// Describes the bytes of each line of standard input.
///
/// Errors: those of a line, and of the reader.
fn tell_all<R: Input + Print + AllocGlobal>(rt: &R) -> io::Result<()> {
    for line in BufReader::new(rt.alloc(), rt.reader())?.lines(rt.alloc()) {
        tell_read(rt, line)?;
    }
    Ok(())
}

/// Prints why not all lines were described, and returns the exit status: 3 if memory ran out, or else 2.
fn status_of<R: Eprint>(rt: &R, error: ErrorKind) -> ExitCode {
    if error == ErrorKind::OutOfMemory {
        let _ = eprintln!(rt; "readings: out of memory");
        return ExitCode::from(3);
    }
    let _ = eprintln!(rt; "readings: a line is none, or a read or a write failed");
    ExitCode::from(2)
}

fn main(rt: HostRuntime) -> ExitCode {
    match tell_all(&rt) {
        Ok(()) => ExitCode::SUCCESS,
        Err(error) => status_of(&rt, error.kind()),
    }
}
