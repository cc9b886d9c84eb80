//! An association that a peer asks for, or that this side asks W1 for, over devices that may fail.

use crate::devices::Interrupted;
use crate::lines::{lacking, text_of, title_of};
use crate::options::{ServiceKind, ServicePart};
use crate::parts::{PartEnd, add_end};
use std::alloc::{Allocator, Global};
use std::io::{self, Read, Write};
use ups_assoc::Config;
use ups_life::{Entry, Reply};
use ups_manager::Manager;
use ups_session::{
    CutReader, CutWriter, End, GateCall, ListGate, SessionFault, WatchedReader, WatchedWriter,
    deliver, serve,
};

/// 2024-02-29 12:00:00 UTC, and a minute later.
const MOMENTS: [u64; 2] = [1_709_208_000, 1_709_208_060];

/// Returns the end of an association.
fn end_of(ended: Result<End, SessionFault>) -> PartEnd {
    match ended {
        Ok(End::Released) => PartEnd::Released,
        Ok(End::AbortSent) => PartEnd::AbortSent,
        Ok(End::AbortReceived) => PartEnd::AbortReceived,
        Ok(End::Closed) => PartEnd::Closed,
        Ok(End::Rejected) => PartEnd::Rejected,
        Err(SessionFault::Read) => PartEnd::Read,
        Err(SessionFault::Write) => PartEnd::Write,
        Err(SessionFault::Turns) => PartEnd::Turns,
        Err(SessionFault::Memory) => PartEnd::Memory,
    }
}

/// Returns the configuration of this side, with the local time of a manager.
fn config_of<A: Allocator + Copy>(manager: &Manager<A>) -> io::Result<Config> {
    Ok(Config {
        ae: title_of(b"UPSD")?,
        offset: manager.offset(),
    })
}

/// Serves an association that a peer asks for, and returns how it ends.
fn served<A: Allocator + Copy, R: Read + Drop, W: Write + Drop>(
    heap: A,
    manager: &mut Manager<A>,
    gate: &mut ListGate<'_, Global>,
    reader: R,
    writer: W,
    turns: u64,
) -> io::Result<PartEnd> {
    let config = config_of(manager)?;
    let mut reader = WatchedReader::new(reader);
    let mut writer = WatchedWriter::new(writer);
    Ok(end_of(serve(
        heap,
        &mut reader,
        &mut writer,
        manager,
        gate,
        &config,
        turns,
    )))
}

/// Asks W1, whose answers are the bytes of the reader, for an association, and returns how it ends.
fn delivered<A: Allocator + Copy, R: Read + Drop, W: Write + Drop>(
    heap: A,
    manager: &mut Manager<A>,
    gate: &mut ListGate<'_, Global>,
    reader: R,
    writer: W,
    turns: u64,
) -> io::Result<PartEnd> {
    let config = config_of(manager)?;
    let watcher = title_of(b"W1")?;
    let mut reader = WatchedReader::new(reader);
    let mut writer = WatchedWriter::new(writer);
    Ok(end_of(deliver(
        heap,
        &mut reader,
        &mut writer,
        manager,
        gate,
        &config,
        watcher,
        turns,
    )))
}

/// Runs an association over devices that may fail, and returns how it ends. `taken` gets what is written, as far as
/// there is room.
fn ended<A: Allocator + Copy>(
    heap: A,
    manager: &mut Manager<A>,
    gate: &mut ListGate<'_, Global>,
    taken: &mut CutWriter<Global>,
    part: ServicePart,
    given: &[u8],
) -> io::Result<PartEnd> {
    let reader = Interrupted::new(CutReader::new(given, part.fails), part.reads);
    let writer = Interrupted::new(taken, part.writes);
    let turns = u64::from(part.turns);
    if part.kind == ServiceKind::Deliver {
        delivered(heap, manager, gate, reader, writer, turns)
    } else {
        served(heap, manager, gate, reader, writer, turns)
    }
}

/// Runs an association, and adds its outcome. The moments of its requests come from the gate: first those that the gate
/// is given, and then 1970-01-01, 00:00 UTC.
///
/// Errors: InvalidData if a title is not valid, which does not happen; lack of memory.
pub(crate) fn add_association<A: Allocator + Copy>(
    alloc: Global,
    heap: A,
    manager: &mut Manager<A>,
    text: &mut String,
    part: ServicePart,
    given: &[u8],
) -> io::Result<()> {
    let moments: &[u64] = if part.is_timed { &MOMENTS } else { &[] };
    let mut gate = ListGate::new(alloc, moments);
    let mut taken = CutWriter::new(alloc, part.room);
    let end = ended(heap, manager, &mut gate, &mut taken, part, given)?;
    add_end(alloc, text, taken.written(), end, manager.entries())?;
    add_more(text, manager, part, gate.calls())
}

/// Adds what is reported after the end of an association.
fn add_more<A: Allocator + Copy>(
    text: &mut String,
    manager: &Manager<A>,
    part: ServicePart,
    calls: &[GateCall],
) -> io::Result<()> {
    if part.is_full {
        add_calls(text, calls)?;
        add_entries(text, manager.history())?;
    }
    if part.has_pending {
        add_pending(text, manager)?;
    }
    Ok(())
}

/// Adds the calls of a gate.
fn add_calls(text: &mut String, calls: &[GateCall]) -> io::Result<()> {
    for call in calls {
        write!(text, " {call:?}")?;
    }
    Ok(())
}

/// Adds the caller, the title and the moment of each entry.
fn add_entries<A: Allocator + Copy>(text: &mut String, history: &[Entry<A>]) -> io::Result<()> {
    for entry in history {
        let title = text_of(entry.ae.as_bytes())?;
        write!(text, " {} {title} {}", entry.caller, entry.moment)?;
    }
    Ok(())
}

/// Adds the numbers of the events that are pending for W1.
///
/// Errors: lack of memory, also if a growth of the service is refused.
fn add_pending<A: Allocator + Copy>(text: &mut String, manager: &Manager<A>) -> io::Result<()> {
    text.push_str(", pending")?;
    let Reply::Reports(reports) = manager.pending(title_of(b"W1")?, u64::MAX) else {
        return Err(lacking());
    };
    for report in reports.as_slice() {
        write!(text, " {}", report.event.number)?;
    }
    Ok(())
}
