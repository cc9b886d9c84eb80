//! `upsd`, a DICOM Unified Procedure Step manager.
#![tactic(auto)]

ghost use Rattle.std.specs.Prelude.{◌≡◌, ◌≤◌, length, None};
ghost use Rattle.ups_settings.specs.Defaults.{local_offset};
ghost use Rattle.ups_settings.specs.Refusal.{refusal};
ghost use Rattle.ups_life.specs.Limits.{history_limit, peer_limit};

mod beside;
mod ending;
mod following;
mod history;
mod keeping;
mod naming;
mod place;
mod scripting;
mod storing;

use crate::ending::{checked_status, refuse, server_status};
use crate::history::perform_history;
use crate::naming::{NamedWords, with_peers};
use crate::scripting::answer_script;
use crate::storing::{AskedServer, Stores, perform_compact, perform_init, server_asked};
use clap::ArgMatches;
use clap::error::ErrorKind as AskedKind;
pub use ending::{ExitStatus, parse_status, script_status, session_status};
use log::{LevelFilter, Log, Logged};
use std::alloc::{AllocError, Global};
use std::io::{self, BufReader, ErrorKind};
use std::process::ExitCode;
use std::str;
use std::sync::Wait;
use std::thread::Threads;
use std::time::Clock;
use ups_args::{
    PipeArguments, command, pipe_arguments, provenance, reads_history, script_arguments,
};
use ups_log::{LineStyle, LossyLog};
pub use ups_net::{ServerOptions, work};
use ups_peers::TURNS;
use ups_pipe::{Piped, pipe_told};
pub use ups_server::{RanServer, answer_network, check_words, serve_words};
pub use ups_session::{End, SessionFault};
use ups_session::{WatchedReader, WatchedWriter};
use ups_transport::{Network, StartLog};

/// Answers one association from standard input to standard output, prints its fault, and returns how the program ends.
///
/// Errors: lack of memory before it begins.
fn answer<R: Input + Print + Eprint + AllocGlobal>(
    rt: &R,
    asked: &PipeArguments,
) -> Result<ExitStatus, AllocError>
    requires few { length asked.now.peers.items ≤ peer_limit }
    requires allowed { refusal asked.now.peers.items local_offset history_limit ≡ None }
{
    let alloc = rt.alloc();
    let Ok(reader) = BufReader::new(alloc, rt.reader()) else {
        return Err(AllocError);
    };
    let mut reader = WatchedReader::new(reader);
    let mut writer = WatchedWriter::new(io::writer(rt));
    let piped = pipe_told(
        alloc,
        &mut reader,
        &mut writer,
        asked.ae,
        &asked.peers,
        asked.hex,
        TURNS,
    );
    tell(rt, &piped);
    Ok(session_status(&piped.ended))
}

/// Prints why a session stopped, if it did: invalid digits are reported as such, and not as a failed read.
fn tell<R: Eprint>(rt: &R, piped: &Piped) {
    let _ = match (piped.ended, piped.digits) {
        (Err(SessionFault::Read), Some(fault)) => eprintln!(rt; "upsd: {fault}"),
        (Err(fault), _) => eprintln!(rt; "upsd: {fault}"),
        (Ok(_), _) => return,
    };
}

/// Runs `pipe` or `script`, and returns how the program ends.
///
/// Errors: lack of memory before anything is done.
fn perform<R: Input + Print + Eprint + AllocGlobal>(
    rt: &R,
    matches: &ArgMatches<'_>,
) -> Result<ExitStatus, AllocError> {
    match matches.subcommand() {
        Some(("script", matches)) => match script_arguments(rt.alloc(), matches) {
            Ok(asked) => answer_script(rt, &asked, reads_history(matches)),
            Err(fault) => refuse(rt, fault),
        },
        Some((_, matches)) => match pipe_arguments(rt.alloc(), matches) {
            Ok(asked) => answer(rt, &asked),
            Err(fault) => refuse(rt, fault),
        },
        None => Ok(ExitStatus::Usage),
    }
}

/// Looks at what a start of `serve` would find, and returns how the program ends.
///
/// Errors: lack of memory.
fn check_network<'a, R, T>(
    rt: &R,
    stores: &Stores<'a, T>,
    matches: &ArgMatches<'a>,
) -> Result<ExitStatus, AllocError>
where
    R: Log + AllocGlobal + Eprint + Network,
    T: Clock + Log,
{
    match check_words(rt, stores, matches) {
        Ok(can_start) => Ok(checked_status(can_start)),
        Err(fault) => refuse(rt, fault),
    }
}

/// Runs `serve`, for as long as the program lives, or only looks at what a start would find, and returns how the program
/// ends.
///
/// Errors: lack of memory.
fn perform_network<'a, R, T>(
    rt: &R,
    stores: &Stores<'a, T>,
    named: &'a NamedWords,
    matches: &ArgMatches<'a>,
) -> Result<ExitStatus, AllocError>
where
    R: Threads + Wait + Clock + Log + Sync + AllocGlobal + Print + Eprint + Network,
    T: Clock + Log,
{
    if matches.get_flag("check") {
        return check_network(rt, stores, matches);
    }
    let book = stores.peers_file(named);
    match serve_words(rt, stores, book, matches, u64::MAX, u64::MAX) {
        Ok(left) => server_status(left),
        Err(fault) => refuse(rt, fault),
    }
}

/// Prints where the program comes from, behind its version.
fn tell_provenance<R: Print>(rt: &R, asked: AskedKind) {
    if asked == AskedKind::DisplayVersion {
        let _ = println!(rt; "{}", provenance());
    }
}

/// Parses the words of the command line; or returns how the program ends, if they only ask for the usage or the
/// version, or are invalid.
///
/// Errors: lack of memory.
fn matches_of<'a, R: Print + Eprint + AllocGlobal>(
    rt: &R,
    words: &'a [String],
) -> Result<Result<ArgMatches<'a>, ExitStatus>, AllocError> {
    match command(rt.alloc())?.try_get_matches_from(words) {
        Ok(matches) => Ok(Ok(matches)),
        Err(error) => {
            let _ = error.print(rt);
            tell_provenance(rt, error.kind());
            Ok(Err(parse_status(error.kind())))
        }
    }
}

/// Returns how the program ends, and prints if that is for lack of memory.
fn end_of<R: Eprint>(rt: &R, performed: Result<ExitStatus, AllocError>) -> ExitStatus {
    match performed {
        Ok(status) => status,
        Err(_) => {
            let _ = eprintln!(rt; "upsd: out of memory");
            ExitStatus::Memory
        }
    }
}

/// Does what the command line asks, and returns how the program ends. A server has its own runtime, whose log does not
/// keep its threads waiting.
fn run<'a, R, S, T>(
    rt: &R,
    serving: &S,
    stores: &Stores<'a, T>,
    named: &'a NamedWords,
) -> ExitStatus
where
    R: AllocGlobal + Input + Print + Eprint,
    S: Threads + Wait + Clock + Log + Sync + AllocGlobal + Print + Eprint + Network,
    T: Clock + Log,
{
    let performed = match matches_of(rt, named.as_slice()) {
        Ok(Ok(matches)) => match matches.subcommand() {
            Some(("serve", matches)) => perform_network(serving, stores, named, matches),
            Some(("init", matches)) => perform_init(stores, matches),
            Some(("compact", matches)) => perform_compact(stores, matches),
            Some(("history", matches)) => perform_history(stores.rt, matches),
            _ => perform(rt, &matches),
        },
        Ok(Err(status)) => Ok(status),
        Err(fault) => Err(fault),
    };
    end_of(rt, performed)
}

/// Returns the words of the command line.
fn words(rt: &HostRuntime) -> io::Result<Vec<String>> {
    let words: Vec<String> = std::env::args(rt)?.collect(rt.alloc())?;
    Ok(words)
}

/// Prints why the words of the command line could not be read, and returns how the program ends: they are not UTF-8, or
/// memory ran out.
fn unread<R: Eprint>(rt: &R, error: ErrorKind) -> ExitStatus {
    if error == ErrorKind::OutOfMemory {
        let _ = eprintln!(rt; "upsd: out of memory");
        return ExitStatus::Memory;
    }
    let _ = eprintln!(rt; "upsd: the command line is not UTF-8");
    ExitStatus::Usage
}

/// Returns the words after the name of the program as one text, which a store keeps for those who want to know how it
/// was opened.
///
/// Errors: lack of memory.
fn text_of(alloc: Global, words: &[String]) -> Result<String, AllocError> {
    let mut text = String::new(alloc);
    for word in words.iter().skip(1) {
        if !text.is_empty() {
            text.push(' ')?;
        }
        text.push_str(word.as_str())?;
    }
    Ok(text)
}

/// Returns what is told of the server that a command line asks for; nothing if it is of no server, or invalid.
///
/// Errors: lack of memory.
fn asked_in(alloc: Global, words: &[String]) -> Result<AskedServer, AllocError> {
    let Ok(matches) = command(alloc)?.try_get_matches_from(words) else {
        return Ok(AskedServer::none(alloc));
    };
    server_asked(alloc, &matches)
}

/// Returns whether the command line asks for something that logs: a server, or a compaction.
fn asks_for_log(words: &[String]) -> bool {
    match words.get(1) {
        Some(word) => matches!(word.as_str(), "serve" | "compact"),
        None => false,
    }
}

/// Returns the log of the program: one with its own thread, which writes to `output`, if the command line asks for
/// something that logs.
///
/// Errors: lack of memory, or of a thread.
fn log_of<R, O>(
    rt: R,
    output: O,
    alloc: Global,
    style: LineStyle,
    words: &[String],
) -> Result<LossyLog<R>, AllocError>
where
    R: Threads + Wait + Clock + Copy + Send + 'static,
    O: Print + Drop + Send + 'static,
{
    if asks_for_log(words) {
        return LossyLog::start(rt, output, alloc, style);
    }
    Ok(LossyLog::silent(rt, alloc))
}

fn main(rt: HostRuntime) -> ExitCode {
    let words = match words(&rt) {
        Ok(words) => words,
        Err(error) => return ExitCode::from(unread(&rt, error.kind())),
    };
    let log = match log_of(rt, rt.stderr(), rt.alloc(), LineStyle::of(&rt), &words) {
        Ok(log) => log,
        Err(fault) => return ExitCode::from(end_of(&rt, Err(fault))),
    };
    let text = match text_of(rt.alloc(), &words) {
        Ok(text) => text,
        Err(fault) => return ExitCode::from(end_of(&rt, Err(fault))),
    };
    let named = match with_peers(&rt, words) {
        Ok(Ok(named)) => named,
        Ok(Err(status)) => return ExitCode::from(status),
        Err(fault) => return ExitCode::from(end_of(&rt, Err(fault))),
    };
    let asked = match asked_in(rt.alloc(), named.as_slice()) {
        Ok(asked) => asked,
        Err(fault) => return ExitCode::from(end_of(&rt, Err(fault))),
    };
    let serving = Logged::new(rt, LevelFilter::Info, log);
    let telling = StartLog::new(&serving);
    let stores = Stores::new(&rt, &telling, text.as_str(), &asked);
    let status = run(&rt, &serving, &stores, &named);
    serving.flush();
    ExitCode::from(status)
}
