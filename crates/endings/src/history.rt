//! The contents of a manager's history.

use crate::texts::no_words;
use std::alloc::Global;
use std::{io, str};
use ups_life::{Entry, Request};

/// Returns what a request asks, in a word or two.
fn verb_of(request: &Request<Global>) -> &'static str {
    match request {
        Request::Create { .. } => "create",
        Request::Change { .. } => "change",
        Request::AskCancel { .. } => "ask to cancel",
        Request::Set { .. } => "set",
        Request::Subscribe { .. } => "subscribe",
        Request::Unsubscribe { .. } => "unsubscribe",
        Request::Suspend { .. } => "suspend",
        Request::Ack { .. } => "ack",
        Request::Sweep => "sweep",
        Request::Reserve { .. } => "reserve",
    }
}

/// Prints who made an entry, by number and title, and what it asks.
///
/// Errors: those of the output.
fn tell_entry<R: Print>(rt: &R, entry: &Entry<Global>) -> io::Result<()> {
    let Ok(title) = str::from_utf8(entry.ae.as_bytes()) else {
        return Err(no_words());
    };
    let verb = verb_of(&entry.request);
    match entry.request {
        Request::Ack { upto } => println!(rt; "{} {title} {verb} {upto}", entry.caller),
        _ => println!(rt; "{} {title} {verb}", entry.caller),
    }
}

/// Prints each entry of a history on a line.
///
/// Errors: those of the output.
pub(crate) fn tell_history<R: Print>(rt: &R, history: &[Entry<Global>]) -> io::Result<()> {
    for entry in history {
        tell_entry(rt, entry)?;
    }
    Ok(())
}
