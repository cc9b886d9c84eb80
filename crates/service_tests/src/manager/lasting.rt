//! A manager whose history has no end: what it remembers of requests that have left memory.

use super::counted::rows_are_so;
use super::{a_lasting_manager, answer_to};
use fixtures::rows::{check, check_same};
use fixtures::{described, title};
use std::alloc::{Allocator, Global};
use std::test::Fail;
use ups_life::{EventReport, Reply};
use ups_manager::*;
use ups_pdu::Ae;

/// The number of requests that pass behind others, so that these leave memory.
pub(super) const MANY: usize = 64;

/// A request that is entered each time and makes no event.
pub(super) const PASSING: &str = "0 W3 1709208000 words 1.2.3.1 - -|5 global 00741234=W3";

/// A step that is performed and removed, of which a watcher is told five times.
const REMOVED: &str = "\
0 W1 1709208000 words 1.2.3.1 - -|3 global 00741234=W1 00741230=FALSE -> 0000
0 SCHED1 1709208000 create 1.2.3.1 - -| -> 0000
0 P1 1709208000 change 1.2.3.1 IN_PROGRESS 2.1| -> 0000
0 W2 1709208000 words 1.2.3.1 - -|2 1.2.3.1 00741238=stop 0074100C=DOE -> 0000
0 P1 1709208000 words 1.2.3.1 - -|set 1.2.3.1 00741002=[00741004=50] 00741216=[00404050=20240229120100,00404051=20240229120200] 00081195=2.1 -> 0000
0 P1 1709208000 change 1.2.3.1 COMPLETED 2.1| -> 0000
0 SCHED1 1709208060 words 1.2.3.1 - -|sweep -> 0000+1
0 SCHED1 1709208060 get 1.2.3.1 - -| -> C307";

/// The reports of these that are pending: those of the cancel request, of the progress and of the final state.
const PENDING: &str = "\
3 of 3: 0074100c=DOE_ 00741236=W2 00741238=stop
4 of 4: 00741002=[00741004=50 ]
5 of 5: 00404041=READY_ 00741000=COMPLETED_";

/// An acknowledgement of all of them.
const ACKNOWLEDGED: &str = "\
0 W1 1709208060 words 1.2.3.1 - -|ack 5 -> 0000";

/// A creation under the UID of the removed step, and another one.
const CREATIONS: &str = "\
0 SCHED1 1709208060 create 1.2.3.1 - -| -> 0111
0 SCHED1 1709208060 create 1.2.3.2 - -| -> 0000
0 SCHED1 1709208060 create 1.2.3.2 - -| -> 0111";

/// The report of the creation, which is the only one that is pending.
const CREATED: &str = "6 of 72: 00404041=READY_ 00741000=SCHEDULED_";

/// Adds a report as a line: its number, the index of its request, and its Event Information.
fn put_report<A: Allocator + Copy>(
    rt: &impl AllocGlobal,
    text: &mut String,
    report: &EventReport<A>,
) -> Result<(), Fail> {
    write!(text, "{} of {}: ", report.event.number, report.event.entry)?;
    text.push_str(described(&report.information, rt)?.as_str().trim_end())?;
    Ok(text.push('\n')?)
}

/// Adds the reports that are pending for a peer, one a line.
pub(super) fn put_reports<A: Allocator + Copy>(
    rt: &impl AllocGlobal,
    text: &mut String,
    manager: &Manager<A>,
    ae: Ae,
) -> Result<(), Fail> {
    let Reply::Reports(reports) = manager.pending(ae, 1_000) else {
        return Err("a status alone".into());
    };
    for report in reports.as_slice() {
        put_report(rt, text, report)?;
    }
    Ok(())
}

/// Returns the reports that are pending for the watcher, one a line.
fn pending(rt: &impl AllocGlobal, manager: &Manager<Global>) -> Result<String, Fail> {
    let mut text = String::new(rt.alloc());
    put_reports(rt, &mut text, manager, title("W1")?)?;
    Ok(text)
}

/// Makes many requests, and lets go of all.
fn pass(rt: &impl AllocGlobal, manager: &mut Manager<Global>) -> Result<(), Fail> {
    for _ in 0..MANY {
        answer_to(rt, manager, PASSING, false)?;
    }
    let entries = manager.entries();
    manager.let_go(entries);
    Ok(())
}

/// Returns a manager in which a step is removed, and then what further rows say happens, before many requests pass.
fn a_manager_behind(rt: &impl AllocGlobal, rows: &str) -> Result<Manager<Global>, Fail> {
    let mut manager = a_lasting_manager(rt.alloc())?;
    rows_are_so(rt, &mut manager, REMOVED)?;
    rows_are_so(rt, &mut manager, rows)?;
    pass(rt, &mut manager)?;
    Ok(manager)
}

/// Fails unless these reports are pending for the watcher.
fn expect_pending(
    rt: &impl AllocGlobal,
    manager: &Manager<Global>,
    wanted: &str,
) -> Result<(), Fail> {
    check_same("pending", pending(rt, manager)?.as_str().trim_end(), wanted)
}

/// Fails unless a manager has this many requests, of which as many as `recent` are shown.
fn expect_entries(manager: &Manager<Global>, entries: usize, recent: usize) -> Result<(), Fail> {
    check("requests", manager.entries() == entries)?;
    check("recent requests", manager.history().len() == recent)
}

#[test]
fn a_uid_stays_used_after_the_requests_on_its_step_have_left(rt: HostRuntime) -> Result<(), Fail> {
    let mut manager = a_manager_behind(&rt, "")?;
    check("some have left", manager.whole().is_none())?;
    rows_are_so(&rt, &mut manager, CREATIONS)
}

#[test]
fn pending_reports_of_a_removed_step_keep_their_content(rt: HostRuntime) -> Result<(), Fail> {
    let manager = a_manager_behind(&rt, "")?;
    expect_entries(&manager, 7 + MANY, 0)?;
    expect_pending(&rt, &manager, PENDING)
}

#[test]
fn requests_leave_after_their_reports_are_acknowledged(rt: HostRuntime) -> Result<(), Fail> {
    let manager = a_manager_behind(&rt, ACKNOWLEDGED)?;
    expect_entries(&manager, 8 + MANY, 0)?;
    check("some have left", manager.whole().is_none())?;
    expect_pending(&rt, &manager, "")
}

/// Returns how many requests a manager has, if all are in memory.
fn in_memory(manager: &Manager<Global>) -> Option<usize> {
    Some(manager.whole()?.len())
}

#[test]
fn all_requests_are_there_until_some_are_let_go_of(rt: HostRuntime) -> Result<(), Fail> {
    let mut manager = a_lasting_manager(rt.alloc())?;
    rows_are_so(&rt, &mut manager, REMOVED)?;
    expect_entries(&manager, 7, 7)?;
    check("all in memory", in_memory(&manager) == Some(7))?;
    expect_pending(&rt, &manager, PENDING)
}

#[test]
fn requests_and_events_are_counted_on_behind_those_that_have_left(
    rt: HostRuntime,
) -> Result<(), Fail> {
    let mut manager = a_manager_behind(&rt, ACKNOWLEDGED)?;
    expect_entries(&manager, 8 + MANY, 0)?;
    rows_are_so(&rt, &mut manager, CREATIONS)?;
    expect_entries(&manager, 9 + MANY, 1)?;
    expect_pending(&rt, &manager, CREATED)
}

#[test]
fn a_lasting_manager_has_a_limit_that_no_history_reaches(rt: HostRuntime) -> Result<(), Fail> {
    let manager = a_lasting_manager(rt.alloc())?;
    check("limit", manager.limit() == LASTING_LIMIT)
}
