//! A course of a service whose history has no end: it may let requests leave memory, and be given its compacted history.

ghost use Rattle.std.specs.Prelude.{◌≡◌, [], IfOk};

use crate::courses::{KEEP, three_peers};
use crate::lines::{lacking, moment_of, no_course, number_of};
use crate::parts::{PartEnd, add_end, add_part};
use std::alloc::Global;
use std::io;
use ups_life::MAX_PEERS;
use ups_manager::{LASTING_LIMIT, Manager};
use ups_restore::compact;

/// Runs each part of a course with a new service, and adds its outcome.
///
/// Errors: InvalidData if the course or the offset is not valid; lack of memory.
pub(crate) fn add_lasting(
    alloc: Global,
    text: &mut String,
    offset: i16,
    parts: &str,
) -> io::Result<()> {
    let Ok(mut manager) = Manager::lasting(alloc, &three_peers()?, KEEP, offset) else {
        return Err(no_course());
    };
    for part in parts.split(' ') {
        add_one(alloc, &mut manager, text, part)?;
    }
    Ok(text.push_str("all")?)
}

/// Runs a part, and adds its outcome: of `go` how many requests are then no longer in memory.
fn add_one(
    alloc: Global,
    manager: &mut Manager<Global>,
    text: &mut String,
    word: &str,
) -> io::Result<()> {
    match word.split_once(':') {
        Some(("go", number)) => let_go(alloc, manager, text, number),
        Some(("compact", moment)) => give_compacted(alloc, manager, text, moment),
        _ => add_part(alloc, alloc, manager, text, word),
    }
}

/// Lets the requests before the one at an index leave memory, and adds the outcome.
fn let_go(
    alloc: Global,
    manager: &mut Manager<Global>,
    text: &mut String,
    number: &str,
) -> io::Result<()> {
    manager.let_go(usize::from(number_of(number)?));
    let entries = manager.entries();
    let gone = entries.saturating_sub(manager.history().len());
    let told = format!(in alloc; "{gone}")?;
    add_end(alloc, text, told.as_bytes(), PartEnd::Done, entries)?;
    Ok(text.push_str(" | ")?)
}

/// Gives a service its compacted history, and adds the outcome.
fn give_compacted(
    alloc: Global,
    manager: &mut Manager<Global>,
    text: &mut String,
    moment: &str,
) -> io::Result<()> {
    let moment = moment_of(moment)?;
    let mut fresh = emptied(alloc, manager)?;
    if compact(alloc, manager, &mut fresh, moment).is_err() {
        return Err(lacking());
    }
    *manager = fresh;
    add_end(alloc, text, b"", PartEnd::Done, manager.entries())?;
    Ok(text.push_str(" | ")?)
}

/// Returns a manager without requests that has the settings of another.
fn emptied(alloc: Global, manager: &Manager<Global>) -> io::Result<Manager<Global>>
    ensures settings { IfOk result (λ fresh. fresh.settings ≡ manager.now.settings) }
    ensures history { IfOk result (λ fresh. fresh.history ≡ []) }
{
    let peers = manager.peers();
    if peers.len() > MAX_PEERS || manager.limit() != LASTING_LIMIT {
        return Err(no_course());
    }
    match Manager::lasting(alloc, peers, manager.keep(), manager.offset()) {
        Ok(fresh) => Ok(fresh),
        Err(_) => Err(lacking()),
    }
}
