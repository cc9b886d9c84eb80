//! A part of a course: an association that a peer asks for, one that this side asks for, a script, or a question about
//! the service.

use crate::associations::add_association;
use crate::lines::{bytes_of, no_course, number_of, text_of, title_of};
use crate::options::{ServiceKind, ServicePart};
use crate::plainly::{counts_of, due_of, found_by, lists_of, size_of};
use std::alloc::{Allocator, Global};
use std::io;
use ups_manager::Manager;
use ups_script::{ScriptFault, answer_lines};

/// The end of a part.
#[derive(Clone, Copy, Debug, PartialEq, Eq)]
pub(crate) enum PartEnd {
    Released,
    AbortSent,
    AbortReceived,
    Closed,
    Rejected,
    /// A script was answered to its end, or a question was answered.
    Done,
    Read,
    Write,
    /// There were more PDUs or lines than the part may read.
    Turns,
    /// A script has an invalid line.
    Stopped,
    Memory,
}

/// Returns the end of a script.
fn end_of_script(ended: Result<(), ScriptFault>) -> PartEnd {
    match ended {
        Ok(()) => PartEnd::Done,
        Err(ScriptFault::BadLine(_)) => PartEnd::Stopped,
        Err(ScriptFault::TooManyLines) => PartEnd::Turns,
        Err(ScriptFault::Read) => PartEnd::Read,
        Err(ScriptFault::Write) => PartEnd::Write,
        Err(ScriptFault::Memory) => PartEnd::Memory,
    }
}

/// Adds the output of a part, how it ends, and the number of requests in the history.
pub(crate) fn add_end(
    alloc: Global,
    text: &mut String,
    written: &[u8],
    end: PartEnd,
    entries: usize,
) -> io::Result<()> {
    let digits = hex::encode(alloc, written)?;
    Ok(write!(text, "{digits} {end:?} {entries}")?)
}

/// Runs a script, and adds its outcome.
fn add_script<A: Allocator + Copy>(
    alloc: Global,
    heap: A,
    manager: &mut Manager<A>,
    text: &mut String,
    turns: u16,
    given: &[u8],
) -> io::Result<()> {
    let mut lines = given;
    let mut output = Vec::new(alloc);
    let ended = answer_lines(heap, manager, &mut lines, &mut output, u64::from(turns));
    add_end(
        alloc,
        text,
        &output,
        end_of_script(ended),
        manager.entries(),
    )
}

/// Acknowledges the events of a peer, and adds the outcome. Given are the moment, the title and the number that is less by
/// one than how many of the newest events are left out, so that 0 acknowledges one event too many.
fn add_ack<A: Allocator + Copy>(
    alloc: Global,
    heap: A,
    manager: &mut Manager<A>,
    text: &mut String,
    given: &[u8],
) -> io::Result<()> {
    let (front, less) = text_of(given)?.rsplit_once(' ').unwrap_or(("", ""));
    let (_, title) = front.split_once(' ').unwrap_or(("", ""));
    let made = manager.events_made(title_of(title.as_bytes())?);
    let less = u64::from(number_of(less)?);
    let upto = made.saturating_add(1).saturating_sub(less);
    let line = format!(in alloc; "{front} ack {upto}\n")?;
    add_script(alloc, heap, manager, text, 1, line.as_bytes())
}

/// Adds the answer to a question about the service.
fn add_told<A: Allocator + Copy>(
    alloc: Global,
    heap: A,
    manager: &Manager<A>,
    text: &mut String,
    kind: ServiceKind,
    given: &[u8],
) -> io::Result<()> {
    let told = match kind {
        ServiceKind::Due => due_of(alloc, heap, manager, given)?,
        ServiceKind::Size => size_of(alloc, manager, given)?,
        ServiceKind::Find => found_by(alloc, heap, manager, given)?,
        ServiceKind::Counts => counts_of(alloc, manager)?,
        _ => lists_of(alloc, heap, manager)?,
    };
    add_end(
        alloc,
        text,
        told.as_bytes(),
        PartEnd::Done,
        manager.entries(),
    )
}

/// Runs a part, and adds its outcome.
///
/// Errors: InvalidData if the word is not valid; lack of memory.
pub(crate) fn add_part<A: Allocator + Copy>(
    alloc: Global,
    heap: A,
    manager: &mut Manager<A>,
    text: &mut String,
    word: &str,
) -> io::Result<()> {
    let Some((front, digits)) = word.split_once(':') else {
        return Err(no_course());
    };
    let part = ServicePart::of(front)?;
    let given = bytes_of(alloc, digits)?;
    add_by_kind(alloc, heap, manager, text, part, &given)?;
    Ok(text.push_str(" | ")?)
}

/// Runs a part of any kind, and adds its outcome.
fn add_by_kind<A: Allocator + Copy>(
    alloc: Global,
    heap: A,
    manager: &mut Manager<A>,
    text: &mut String,
    part: ServicePart,
    given: &[u8],
) -> io::Result<()> {
    match part.kind {
        ServiceKind::Serve | ServiceKind::Deliver => add_association(
            alloc, heap, manager, text, part, given,
        ),
        ServiceKind::Script => add_script(alloc, heap, manager, text, part.turns, given),
        ServiceKind::Ack => add_ack(alloc, heap, manager, text, given),
        _ => add_told(alloc, heap, manager, text, part.kind, given),
    }
}
