//! What happens in a day, as lines: the moment, the title of who asks, and the words of the request.

use crate::lines::{told, word_at};
use fixtures::rows::{cut_twice, number};
use fixtures::words::{message_of, set_of};
use fixtures::{described, title, uid};
use std::alloc::{Allocator, Global};
use std::test::Fail;
use ups_dataset::DataSet;
use ups_journal::{Record, record_of};
use ups_life::{Ask, Entry, MAX_MOMENT, Peer, Reply, Request, StepUid, read_request};
use ups_manager::*;
use ups_match::{Keys, Probe};

/// A short day. WATCH2 may lock, and does so until after the sweep.
const DAY: &str = "\
1709208000 SCHED1 create 1.2.3.1 B 00741202=READS
1709208005 WATCH1 3 global 00741234=WATCH1 00741230=FALSE
1709208010 WATCH2 3 1.2.3.1 00741234=WATCH2 00741230=TRUE
1709208020 SCHED1 create 1.2.3.2 B 00741202=REPROC
1709208060 PERFORM1 1 1.2.3.1 00741000=IN_PROGRESS 00081195=2.1
1709208070 PERFORM1 set 1.2.3.1 00741216=[00404050=20240229120100,00404051=20240229120200] 00081195=2.1
1709208080 SCHED1 2 1.2.3.2 00741238=stop
1709208090 WATCH1 ack 2
1709208100 PERFORM1 1 1.2.3.1 00741000=COMPLETED 00081195=2.1
1709208110 WATCH3 3 filtered 00741234=WATCH3 00741230=FALSE 00741202=RE*
1709208120 WATCH1 5 global 00741234=WATCH1
1709208130 SCHED1 create 1.2.3.3 B 00741202=REREAD
1709208140 PERFORM2 1 1.2.3.3 00741000=IN_PROGRESS 00081195=2.2
1709208150 SERVER sweep
1709208160 WATCH2 4 1.2.3.1 00741234=WATCH2";

/// The settings of a manager: its peers, of which the second may lock; how long it keeps finished steps, in seconds;
/// its offset from UTC in minutes; and the limit of its history in requests.
#[derive(Clone, Copy)]
pub(crate) struct DaySettings<'a> {
    pub(crate) peers: &'a str,
    pub(crate) keep: u32,
    pub(crate) offset: i16,
    pub(crate) limit: u64,
}

/// The settings with which the day goes well.
pub(crate) const SETTINGS: DaySettings<'static> = DaySettings {
    peers: "WATCH1,WATCH2,WATCH3",
    keep: 60,
    offset: 60,
    limit: 1_000,
};

/// Returns the request of these words, whose keys are read with an offset.
pub(crate) fn request_of<A: Allocator + Copy>(
    alloc: A,
    words: &str,
    offset: i16,
) -> Result<Request<A>, Fail> {
    if words == "sweep" {
        return Ok(Request::Sweep);
    }
    if let Some(digits) = words.strip_prefix("ack ") {
        let upto = number(digits)?;
        return Ok(Request::Ack { upto });
    }
    if let Some(name) = words.strip_prefix("reserve ") {
        let step = StepUid::of(uid(name)?).ok_or("the UID of a step")?;
        return Ok(Request::Reserve { step });
    }
    let (operation, set) = message_of(alloc, words)?;
    match read_request(alloc, &operation, set, offset) {
        Ok(Ask::Do(request)) => Ok(request),
        _ => Err("no request".into()),
    }
}

/// Returns the peers with these titles, of which the second may lock.
fn peers_of(alloc: Global, titles: &str) -> Result<Vec<Peer>, Fail> {
    let mut peers = Vec::new(alloc);
    for (place, text) in titles.split(',').enumerate() {
        peers.push(Peer {
            ae: title(text)?,
            lock: place == 1,
        })?;
    }
    Ok(peers)
}

/// Returns a manager with these settings.
pub(crate) fn a_manager<A: Allocator + Copy>(
    rt: &impl AllocGlobal,
    alloc: A,
    settings: DaySettings<'_>,
) -> Result<Manager<A>, Fail> {
    let peers = peers_of(rt.alloc(), settings.peers)?;
    if peers.len() > 1_000 {
        return Err("too many peers".into());
    }
    Ok(Manager::new(
        alloc,
        &peers,
        settings.keep,
        settings.offset,
        settings.limit,
    )?)
}

/// Makes a manager enter what a line says, as the caller with this number.
fn enter<A: Allocator + Copy>(
    alloc: A,
    manager: &mut Manager<A>,
    caller: u32,
    line: &str,
) -> Result<(), Fail> {
    let (digits, name, words) = cut_twice(line, " ", " ")?;
    let moment = number(digits)?;
    if moment > MAX_MOMENT {
        return Err("no moment".into());
    }
    let entries = manager.history().len();
    let request = request_of(alloc, words, manager.offset())?;
    manager.submit(Entry {
        caller,
        ae: title(name)?,
        moment,
        request,
    });
    if manager.history().len() == entries {
        return Err(line.into());
    }
    Ok(())
}

/// Makes a manager enter each line, by callers numbered from 1.
pub(crate) fn go_on<A: Allocator + Copy>(
    alloc: A,
    manager: &mut Manager<A>,
    lines: &str,
) -> Result<(), Fail> {
    let mut caller = 0_u32;
    for line in lines.lines() {
        caller = caller.saturating_add(1);
        enter(alloc, manager, caller, line)?;
    }
    Ok(())
}

/// Returns the records of a manager's history.
fn records_of<A: Allocator + Copy>(
    alloc: A,
    manager: &Manager<A>,
) -> Result<Vec<Record<A>, A>, Fail> {
    let mut records = Vec::new(alloc);
    for entry in manager.history() {
        records.push(record_of(alloc, entry)?)?;
    }
    Ok(records)
}

/// Makes a manager enter the day, and returns the records of its history.
fn records_after<A: Allocator + Copy>(
    alloc: A,
    manager: &mut Manager<A>,
) -> Result<Vec<Record<A>, A>, Fail> {
    go_on(alloc, manager, DAY)?;
    records_of(alloc, manager)
}

/// Returns the records of the day.
pub(crate) fn a_day<A: Allocator + Copy>(
    rt: &impl AllocGlobal,
    alloc: A,
) -> Result<Vec<Record<A>, A>, Fail> {
    let mut manager = a_manager(rt, alloc, SETTINGS)?;
    records_after(alloc, &mut manager)
}

/// Adds the history of a manager, a record a line.
fn put_history<A: Allocator + Copy>(
    rt: &impl AllocGlobal,
    text: &mut String,
    alloc: A,
    manager: &Manager<A>,
) -> Result<(), Fail> {
    for entry in manager.history() {
        let stored = record_of(alloc, entry)?;
        text.push_str(told(rt, &stored)?.as_str())?;
        text.push('\n')?;
    }
    Ok(())
}

/// Adds the bytes of a text.
fn put_bytes(text: &mut String, bytes: &[u8]) -> Result<(), Fail> {
    Ok(text.push_str(str::from_utf8(bytes).ok().ok_or("a text")?)?)
}

/// Adds the holder of a step, by the number of the caller and its title, or a dash.
fn put_holder<A: Allocator + Copy>(
    text: &mut String,
    manager: &Manager<A>,
    name: &str,
) -> Result<(), Fail> {
    let step = StepUid::of(uid(name)?).ok_or("the UID of a step")?;
    write!(text, "{name} ")?;
    match manager.holder(step) {
        Some(holder) => {
            write!(text, "{} ", holder.caller)?;
            put_bytes(text, holder.ae.as_bytes())?;
        }
        None => text.push('-')?,
    }
    Ok(text.push('\n')?)
}

/// Adds sets as text, one a line.
fn put_sets<A: Allocator + Copy>(
    rt: &impl AllocGlobal,
    text: &mut String,
    sets: &[DataSet<A>],
) -> Result<(), Fail> {
    for set in sets {
        text.push_str(described(set, rt)?.as_str().trim_end())?;
        text.push('\n')?;
    }
    Ok(())
}

/// Adds each step that is held, with its state.
fn put_worklist<A: Allocator + Copy>(
    rt: &impl AllocGlobal,
    text: &mut String,
    manager: &mut Manager<A>,
    keys: &Keys<A>,
) -> Result<(), Fail> {
    match manager.find(keys, &mut Probe::new()) {
        Reply::Sets(sets) => put_sets(rt, text, sets.as_slice()),
        _ => Err("a status alone".into()),
    }
}

/// Returns the keys that ask for the instance and the state of each step.
fn universal_keys<A: Allocator + Copy>(alloc: A) -> Result<Keys<A>, Fail> {
    Ok(Keys::of(set_of(alloc, "00080018= 00741000=")?, 0)?)
}

/// Adds the events that are pending for a watcher: number, entry, kind and step.
fn put_pending<A: Allocator + Copy>(
    text: &mut String,
    manager: &Manager<A>,
    name: &str,
) -> Result<(), Fail> {
    let Reply::Reports(reports) = manager.pending(title(name)?, 1_000) else {
        return Err("a status alone".into());
    };
    for report in reports.as_slice() {
        let event = report.event;
        write!(
            text,
            "{name} {} {} {:?} ",
            event.number, event.entry, event.kind
        )?;
        put_bytes(text, event.step.as_bytes())?;
        text.push('\n')?;
    }
    Ok(())
}

/// Returns what a manager tells about its steps and its watchers.
pub(crate) fn picture<A: Allocator + Copy>(
    rt: &impl AllocGlobal,
    alloc: A,
    manager: &mut Manager<A>,
) -> Result<String, Fail> {
    let mut text = String::new(rt.alloc());
    for name in ["1.2.3.1", "1.2.3.2", "1.2.3.3"] {
        put_holder(&mut text, manager, name)?;
    }
    put_worklist(rt, &mut text, manager, &universal_keys(alloc)?)?;
    for name in ["WATCH1", "WATCH2", "WATCH3"] {
        put_pending(&mut text, manager, name)?;
    }
    Ok(text)
}

/// Returns all that a manager tells, including its history.
pub(crate) fn whole<A: Allocator + Copy>(
    rt: &impl AllocGlobal,
    alloc: A,
    manager: &mut Manager<A>,
) -> Result<String, Fail> {
    let mut text = picture(rt, alloc, manager)?;
    put_history(rt, &mut text, alloc, manager)?;
    Ok(text)
}

/// Makes a manager enter the day, and returns all that it tells then.
fn told_after(rt: &impl AllocGlobal, manager: &mut Manager<Global>) -> Result<String, Fail> {
    go_on(rt.alloc(), manager, DAY)?;
    whole(rt, rt.alloc(), manager)
}

/// Returns all that a new manager tells after the day.
pub(crate) fn told_of_the_day(rt: &impl AllocGlobal) -> Result<String, Fail> {
    let mut manager = a_manager(rt, rt.alloc(), SETTINGS)?;
    told_after(rt, &mut manager)
}

/// Returns the number in a word of a row.
pub(crate) fn number_at(row: &str, place: usize) -> Result<u64, Fail> {
    number(word_at(row, place))
}
