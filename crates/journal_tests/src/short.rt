//! Memory that runs out.

use crate::days::{SETTINGS, a_day, a_manager, told_of_the_day, whole};
use crate::lines::record_of_line;
use crate::recorded::{SECTIONS, entry_of_words};
use fixtures::Refusing;
use fixtures::rows::{check, check_same, cut_twice};
use std::alloc::Global;
use std::test::Fail;
use ups_journal::{Record, RecordFault, RecordingFault, entry_of, record_of};
use ups_life::Entry;
use ups_manager::*;
use ups_restore::{Refusal, Restoration, RestoreRefusal};

/// The maximum number of growths that a test refuses in turn.
const GROWTHS: u64 = 100;

/// Returns how many growths are refused in turn before an entry is recorded.
///
/// Errors: if a fault other than lack of memory is reported.
fn growths_of_recording<'a>(
    heap: &'a Refusing<Global>,
    entry: &Entry<&'a Refusing<Global>>,
) -> Result<u64, Fail> {
    for growth in 1..GROWTHS {
        heap.refuse(growth);
        let recorded = record_of(heap, entry);
        heap.refuse(0);
        match recorded {
            Ok(_) => return Ok(growth - 1),
            Err(RecordingFault::Memory) => {}
            Err(_) => return Err("another fault".into()),
        }
    }
    Err("too many growths".into())
}

/// The same for the entry of words.
fn growths_of_words_in(heap: &Refusing<Global>, words: &str, line: &str) -> Result<u64, Fail> {
    let entry = entry_of_words(heap, words, line)?;
    growths_of_recording(heap, &entry)
}

/// The same with its own memory.
fn growths_of_words(rt: &impl AllocGlobal, words: &str, line: &str) -> Result<u64, Fail> {
    let heap = Refusing::new(rt.alloc());
    growths_of_words_in(&heap, words, line)
}

/// Returns how many growths are refused in turn before a record is read.
///
/// Errors: if a fault other than lack of memory is reported.
fn growths_of_reading<'a>(
    heap: &'a Refusing<Global>,
    stored: &Record<&'a Refusing<Global>>,
) -> Result<u64, Fail> {
    for growth in 1..GROWTHS {
        heap.refuse(growth);
        let read = entry_of(heap, stored);
        heap.refuse(0);
        match read {
            Ok(_) => return Ok(growth - 1),
            Err(RecordFault::Memory) => {}
            Err(_) => return Err("another fault".into()),
        }
    }
    Err("too many growths".into())
}

/// The same for the record of a line.
fn growths_of_line_in(
    rt: &impl AllocGlobal,
    heap: &Refusing<Global>,
    line: &str,
) -> Result<u64, Fail> {
    let stored = record_of_line(rt, heap, line)?;
    growths_of_reading(heap, &stored)
}

/// The same with its own memory.
fn growths_of_line(rt: &impl AllocGlobal, line: &str) -> Result<u64, Fail> {
    let heap = Refusing::new(rt.alloc());
    growths_of_line_in(rt, &heap, line)
}

/// Returns whether a line has attributes, which take memory to read.
fn has_attributes(line: &str) -> bool {
    line.contains(" \"")
}

#[test]
fn nothing_but_want_of_memory_is_told_where_a_growth_is_refused(
    rt: HostRuntime,
) -> Result<(), Fail> {
    for section in SECTIONS.split("\n# ") {
        let (heading, words, line) = cut_twice(section, "\n", "\n")?;
        check(heading, growths_of_words(&rt, words, line)? > 0)?;
        let is_enough = growths_of_line(&rt, line)? > 0 || !has_attributes(line);
        check(heading, is_enough)?;
    }
    Ok(())
}

/// Returns whether a refusal is for lack of memory.
fn is_want(refusal: RestoreRefusal) -> bool {
    matches!(
        refusal,
        RestoreRefusal::Record(RecordFault::Memory) | RestoreRefusal::Entry(Refusal::NoRoom)
    )
}

/// Makes a manager take a record, with each growth refused in turn until it is entered, and returns whether lack of
/// memory is reported each time, and neither the history nor a count changes.
fn is_taken<'a>(
    heap: &'a Refusing<Global>,
    manager: &mut Manager<&'a Refusing<Global>>,
    counts: &mut Restoration,
    stored: &Record<&'a Refusing<Global>>,
) -> bool {
    let entries = manager.history().len();
    let before = *counts;
    for growth in 1..GROWTHS {
        heap.refuse(growth);
        let taken = counts.take(heap, manager, stored, true);
        heap.refuse(0);
        match taken {
            Ok(_) => return manager.history().len() == entries + 1,
            Err(refusal) => {
                if !is_want(refusal) || manager.history().len() != entries || *counts != before {
                    return false;
                }
            }
        }
    }
    false
}

/// Makes a manager take each record, with each growth refused in turn, and returns the counts.
fn take_all<'a>(
    heap: &'a Refusing<Global>,
    manager: &mut Manager<&'a Refusing<Global>>,
    records: &[Record<&'a Refusing<Global>>],
) -> Result<Restoration, Fail> {
    let mut counts = Restoration::new();
    for stored in records {
        if !is_taken(heap, manager, &mut counts, stored) {
            return Err(Fail::new(format_args!("record {}", counts.entered)));
        }
    }
    Ok(counts)
}

/// Makes a manager take each record, with each growth refused in turn, and returns all that it tells then.
fn told_after<'a>(
    rt: &impl AllocGlobal,
    heap: &'a Refusing<Global>,
    manager: &mut Manager<&'a Refusing<Global>>,
    records: &[Record<&'a Refusing<Global>>],
) -> Result<String, Fail> {
    let counts = take_all(heap, manager, records)?;
    check("the counts", counts.entered == 15 && counts.left_out == 0)?;
    whole(rt, heap, manager)
}

/// The same with a new manager.
fn told_anew<'a>(
    rt: &impl AllocGlobal,
    heap: &'a Refusing<Global>,
    records: &[Record<&'a Refusing<Global>>],
) -> Result<String, Fail> {
    let mut manager = a_manager(rt, heap, SETTINGS)?;
    told_after(rt, heap, &mut manager, records)
}

/// The same with the records of the day.
fn told_of_records_in(rt: &impl AllocGlobal, heap: &Refusing<Global>) -> Result<String, Fail> {
    let records = a_day(rt, heap)?;
    told_anew(rt, heap, &records)
}

/// The same with its own memory.
fn told_of_records(rt: &impl AllocGlobal) -> Result<String, Fail> {
    let heap = Refusing::new(rt.alloc());
    told_of_records_in(rt, &heap)
}

#[test]
fn no_record_is_lost_or_entered_twice_where_a_growth_is_refused(
    rt: HostRuntime,
) -> Result<(), Fail> {
    let wanted = told_of_the_day(&rt)?;
    check_same("the day", told_of_records(&rt)?.as_str(), wanted.as_str())
}
