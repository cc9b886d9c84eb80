use super::counted::counts;
use super::lasting::{MANY, PASSING, put_reports};
use super::{
    STEPS, a_lasting_manager, a_manager, answer_to, ask_of, keys_of, line_of, picture, reply_to,
    step_of, text_of, told,
};
use fixtures::rows::{check, cut, cut_twice, number};
use fixtures::{Refusing, title};
use std::alloc::{Allocator, Global};
use std::test::Fail;
use ups_life::{Event, Reply, Subscription};
use ups_manager::*;
use ups_pdu::Ae;

/// The maximum number of growths that a test refuses in turn.
const GROWTHS: u64 = 100;

/// The size in bytes of the blocks that a creation leaves free if it cannot leave all in one: that of the largest
/// message.
const LARGE: usize = 1_048_576;

/// Lines, each with the least number of growths that it makes, its reply if one is refused, and its reply if none is.
const ROWS: &str = "\
0 SCHED1 1709208000 create 1.2.3.1 - -| -> 8 0213 0000
0 SCHED1 1709208000 get 1.2.3.1 - -| -> 1 0213 0000 00080016=1.2.840.10008.5.1.4.34.6.1 00080018=1.2.3.1_ 00404005=20240229120000 00404041=READY_ 00741000=SCHEDULED_ 00741200=MEDIUM 00741204=CT_READ_
0 SCHED1 1709208000 find 1.2.3.1 - -|00080018=|00741000=SCHEDULED -> 4 A700 0000 00080018=1.2.3.1_ 00741000=SCHEDULED_
0 SCHED1 1709208000 create 1.2.3.2 - -| -> 5 0213 0000
9 PERFORM2 1709208120 change 1.2.3.1 IN_PROGRESS 2.1| -> 5 0213 0000
0 SCHED1 1709208000 set 1.2.3.2 - -|00741204=MR READ -> 4 0213 0000
9 PERFORM2 1709208120 set 1.2.3.1 - 2.1|00741216/00404050=20240229120100,00404051=20240229120200 -> 6 0213 0000
0 SCHED1 1709208000 cancel 1.2.3.1 - -|00741238=stop -> 5 0213 0000
0 SCHED1 1709208000 cancel 1.2.3.2 - -|00741238=stop -> 6 0213 0000
9 PERFORM2 1709208120 change 1.2.3.1 COMPLETED 2.1| -> 5 0213 0000";

/// The same for watchers and the reports to them. What takes no memory is answered even if the first growth is refused:
/// an acknowledgement that was already made or is ahead, and a sweep that finds nothing.
const WATCHING: &str = "\
0 SCHED1 1709208000 words 1.2.3.1 - -|create 1.2.3.1 B 00741202=READS -> 6 0213 0000
0 SCHED1 1709208000 words 1.2.3.1 - -|create 1.2.3.2 B 00741202=REPROC -> 6 0213 0000
0 W1 1709208000 words 1.2.3.1 - -|3 1.2.3.1 00741234=W1 00741230=TRUE -> 2 0213 0000
0 W2 1709208000 words 1.2.3.1 - -|3 global 00741234=W2 00741230=FALSE -> 2 0213 0000
0 W3 1709208000 words 1.2.3.1 - -|3 filtered 00741234=W3 00741230=FALSE 00741202=REPROC -> 1 0213 0000
0 SCHED1 1709208000 words 1.2.3.1 - -|set 1.2.3.1 00741202=REPROC 00081195= -> 5 0213 0000
0 SCHED1 1709208000 words 1.2.3.1 - -|create 1.2.3.3 B 00741202=REPROC -> 4 0213 0000
0 P1 1709208060 words 1.2.3.1 - -|1 1.2.3.1 00741000=IN_PROGRESS 00081195=2.1 -> 4 0213 0000
0 W1 1709208060 words 1.2.3.1 - -|2 1.2.3.1 00741238=stop -> 2 0213 0000
0 W1 1709208060 words 1.2.3.1 - -|2 1.2.3.2 00741238=stop -> 6 0213 0000
0 W2 1709208060 words 1.2.3.1 - -|ack 2 -> 0 0213 0000
0 W2 1709208060 words 1.2.3.1 - -|ack 2 -> 0 FFFF FFFF
0 W2 1709208060 words 1.2.3.1 - -|ack 99 -> 0 FFFF FFFF
0 P1 1709208060 words 1.2.3.1 - -|set 1.2.3.1 00741216=[00404050=20240229120100,00404051=20240229120200] 00081195=2.1 -> 6 0213 0000
0 P1 1709208060 words 1.2.3.1 - -|1 1.2.3.1 00741000=COMPLETED 00081195=2.1 -> 5 0213 0000
0 SCHED1 1709208060 words 1.2.3.1 - -|sweep -> 0 0000+0 0000+0
0 SCHED1 1709208120 words 1.2.3.1 - -|sweep -> 0 0213 0000+1
0 W1 1709208120 words 1.2.3.1 - -|4 1.2.3.1 00741234=W1 -> 0 0213 0000
0 W3 1709208120 words 1.2.3.1 - -|5 global 00741234=W3 -> 0 0213 0000
0 W2 1709208120 words 1.2.3.1 - -|4 global 00741234=W2 -> 0 0213 0000
0 SCHED1 1709208120 words 1.2.3.1 - -|sweep -> 0 0213 0000+1";

/// Acknowledgements of all reports of these.
const ACKNOWLEDGED: &str = "\
0 W1 1709208120 words 1.2.3.1 - -|ack 4 -> 0 0213 0000
0 W2 1709208120 words 1.2.3.1 - -|ack 8 -> 0 0213 0000
0 W3 1709208120 words 1.2.3.1 - -|ack 8 -> 0 0213 0000";

/// Adds how a peer is subscribed to steps, one a line.
fn put_watches<A: Allocator + Copy>(
    text: &mut String,
    manager: &Manager<A>,
    ae: Ae,
) -> Result<(), Fail> {
    for watched in manager.watches(ae)?.iter() {
        text.push_str(text_of(watched.step.as_bytes())?)?;
        text.push_str(match watched.subscription {
            Subscription::Free => " free\n",
            Subscription::Locked => " locked\n",
        })?;
    }
    Ok(())
}

/// Adds an event: its number, its entry, its type and its step.
fn put_event(text: &mut String, event: &Event) -> Result<(), Fail> {
    write!(text, "{} {} {:?} ", event.number, event.entry, event.kind)?;
    text.push_str(text_of(event.step.as_bytes())?)?;
    Ok(text.push('\n')?)
}

/// Adds the events that are pending for a peer, one a line.
fn put_pending<A: Allocator + Copy>(
    text: &mut String,
    manager: &Manager<A>,
    ae: Ae,
) -> Result<(), Fail> {
    let Reply::Reports(reports) = manager.pending(ae, 1_000) else {
        return Err("a status alone".into());
    };
    for report in reports.as_slice() {
        put_event(text, &report.event)?;
    }
    Ok(())
}

/// The keys to find by in each manager.
const FINDS: &str = "\
00741202=READS
00741202=REPROC
00741000=IN PROGRESS
00741000=CANCELED
00404005=20240229-";

/// Adds for each of the keys a line with the number of steps that a matcher is asked about and the number that match.
fn put_finds<A: Allocator + Copy>(
    text: &mut String,
    alloc: A,
    manager: &mut Manager<A>,
) -> Result<(), Fail> {
    for keys in FINDS.lines() {
        let (asked, found) = counts(manager, &keys_of(alloc, keys)?)?;
        write!(text, "{asked}/{found}\n")?;
    }
    Ok(())
}

/// Returns all that a manager tells: its history, its steps, what is found among them, and its watchers.
fn whole<A: Allocator + Copy>(
    rt: &impl AllocGlobal,
    alloc: A,
    manager: &mut Manager<A>,
) -> Result<String, Fail> {
    let mut text = picture(rt, manager)?;
    put_finds(&mut text, alloc, manager)?;
    for name in ["W1", "W2", "W3"] {
        let ae = title(name)?;
        put_watches(&mut text, manager, ae)?;
        put_pending(&mut text, manager, ae)?;
    }
    Ok(text)
}

/// Returns whether this is all that a manager tells.
fn is_whole<A: Allocator + Copy>(
    rt: &impl AllocGlobal,
    alloc: A,
    manager: &mut Manager<A>,
    text: &str,
) -> Result<bool, Fail> {
    Ok(whole(rt, alloc, manager)?.as_str() == text)
}

/// The memory that is refused.
#[derive(Clone, Copy)]
enum Lack {
    /// The growth with this number.
    Growth(u64),
    /// Each block of more bytes than this.
    Above(usize),
}

/// Makes memory refuse what it is to.
fn arm(heap: &Refusing<Global>, lack: Lack) {
    match lack {
        Lack::Growth(number) => heap.refuse(number),
        Lack::Above(size) => heap.refuse_above(size),
    }
}

/// Makes memory refuse nothing.
fn disarm(heap: &Refusing<Global>) {
    heap.refuse(0);
    heap.refuse_above(usize::MAX);
}

/// Asks what a line says while memory is lacking, and returns the reply as a text.
fn lacking<'a>(
    rt: &impl AllocGlobal,
    heap: &'a Refusing<Global>,
    manager: &mut Manager<&'a Refusing<Global>>,
    line: &str,
    is_service: bool,
    lack: Lack,
) -> Result<String, Fail> {
    let (front, attributes) = line.split_once('|').ok_or("attributes")?;
    let line = line_of(front)?;
    let ask = ask_of(heap, &line, attributes)?;
    arm(heap, lack);
    let reply = reply_to(manager, &line, ask, is_service);
    disarm(heap);
    told(rt, &reply?)
}

/// What a row says about its line: the least number of growths that it makes, its reply if one is refused, and its
/// reply if none is.
#[derive(Clone, Copy)]
struct Due<'a> {
    line: &'a str,
    least: u64,
    refused: &'a str,
    answered: &'a str,
}

/// Returns what a row says.
fn due_of(row: &str) -> Result<Due<'_>, Fail> {
    let (line, rest) = cut(row, " -> ")?;
    let (least, refused, answered) = cut_twice(rest, " ", " ")?;
    Ok(Due {
        line,
        least: number(least)?,
        refused,
        answered,
    })
}

/// The outcome of a line when memory is lacking.
#[derive(Clone, Copy, PartialEq, Eq)]
enum Outcome {
    /// It was answered as if nothing were refused.
    Answered,
    /// It was refused, and the manager tells what it told before.
    Refused,
    /// Anything else.
    Odd,
}

/// Asks the line of a row while memory is lacking.
fn tried<'a>(
    rt: &impl AllocGlobal,
    heap: &'a Refusing<Global>,
    manager: &mut Manager<&'a Refusing<Global>>,
    due: &Due<'_>,
    is_service: bool,
    lack: Lack,
    before: &str,
) -> Result<Outcome, Fail> {
    let found = lacking(rt, heap, manager, due.line, is_service, lack)?;
    if found.as_str() == due.answered {
        return Ok(Outcome::Answered);
    }
    if found.as_str() != due.refused || !is_whole(rt, heap, manager, before)? {
        return Ok(Outcome::Odd);
    }
    Ok(Outcome::Refused)
}

/// Asks what a row says with each growth refused in turn, until the line is answered; returns whether at least the
/// least number were refused, each with the status of the row, and without a change to what the manager tells.
fn is_so<'a>(
    rt: &impl AllocGlobal,
    heap: &'a Refusing<Global>,
    manager: &mut Manager<&'a Refusing<Global>>,
    row: &str,
    is_service: bool,
) -> Result<bool, Fail> {
    let due = due_of(row)?;
    let before = whole(rt, heap, manager)?;
    for growth in 1..GROWTHS {
        let lack = Lack::Growth(growth);
        match tried(rt, heap, manager, &due, is_service, lack, before.as_str())? {
            Outcome::Answered => return Ok(growth > due.least),
            Outcome::Refused => {}
            Outcome::Odd => return Ok(false),
        }
    }
    Ok(false)
}

/// Asks a manager all rows of requests, one after the other.
fn rows_are_so<'a, R: AllocGlobal>(
    rt: &R,
    heap: &'a Refusing<Global>,
    manager: &mut Manager<&'a Refusing<Global>>,
    is_service: bool,
) -> Result<(), Fail> {
    for row in ROWS.lines() {
        check(row, is_so(rt, heap, manager, row, is_service)?)?;
    }
    check("8 requests", manager.history().len() == 8)
}

/// The same with a new manager.
fn rows_are_so_anew<R: AllocGlobal>(rt: &R, is_service: bool) -> Result<(), Fail> {
    let heap = Refusing::new(rt.alloc());
    let mut manager = Manager::new(&heap, &[], 60, 0, 10)?;
    rows_are_so(rt, &heap, &mut manager, is_service)
}

#[test]
fn nothing_is_entered_shown_or_found_where_a_growth_is_refused(
    rt: HostRuntime,
) -> Result<(), Fail> {
    rows_are_so_anew(&rt, false)?;
    rows_are_so_anew(&rt, true)
}

/// Returns whether a row is so, and a manager with ample memory, which is asked the same, tells the same afterwards.
fn is_so_beside<'a>(
    rt: &impl AllocGlobal,
    heap: &'a Refusing<Global>,
    manager: &mut Manager<&'a Refusing<Global>>,
    ample: &mut Manager<Global>,
    row: &str,
    is_service: bool,
) -> Result<bool, Fail> {
    if !is_so(rt, heap, manager, row, is_service)? {
        return Ok(false);
    }
    let (line, _) = row.split_once(" -> ").ok_or("a line")?;
    answer_to(rt, ample, line, is_service)?;
    let told = whole(rt, heap, manager)?;
    is_whole(rt, rt.alloc(), ample, told.as_str())
}

/// Asks a manager, and one with ample memory beside it, all rows about watchers, one after the other.
fn rows_are_so_beside<'a, R: AllocGlobal>(
    rt: &R,
    heap: &'a Refusing<Global>,
    manager: &mut Manager<&'a Refusing<Global>>,
    ample: &mut Manager<Global>,
    is_service: bool,
) -> Result<(), Fail> {
    for row in WATCHING.lines() {
        check(
            row,
            is_so_beside(rt, heap, manager, ample, row, is_service)?,
        )?;
    }
    Ok(())
}

/// The same with a new manager with ample memory.
fn rows_are_so_beside_a_new_one<'a, R: AllocGlobal>(
    rt: &R,
    heap: &'a Refusing<Global>,
    manager: &mut Manager<&'a Refusing<Global>>,
    is_service: bool,
) -> Result<(), Fail> {
    let mut ample = a_manager(rt.alloc())?;
    rows_are_so_beside(rt, heap, manager, &mut ample, is_service)
}

/// The same with two new managers.
fn rows_are_so_beside_anew<R: AllocGlobal>(rt: &R, is_service: bool) -> Result<(), Fail> {
    let heap = Refusing::new(rt.alloc());
    let mut manager = a_manager(&heap)?;
    rows_are_so_beside_a_new_one(rt, &heap, &mut manager, is_service)
}

#[test]
fn watchers_are_told_nothing_where_a_growth_is_refused(rt: HostRuntime) -> Result<(), Fail> {
    rows_are_so_beside_anew(&rt, false)?;
    rows_are_so_beside_anew(&rt, true)
}

/// Returns the outcome of the line of a row if no block can be larger than `size` bytes.
fn confined<'a>(
    rt: &impl AllocGlobal,
    heap: &'a Refusing<Global>,
    manager: &mut Manager<&'a Refusing<Global>>,
    row: &str,
    size: usize,
) -> Result<Outcome, Fail> {
    let due = due_of(row)?;
    let before = whole(rt, heap, manager)?;
    tried(
        rt,
        heap,
        manager,
        &due,
        false,
        Lack::Above(size),
        before.as_str(),
    )
}

/// Returns whether the line of a row creates a step.
fn is_creation(row: &str) -> bool {
    row.contains(" create ") || row.contains("|create ")
}

/// Returns whether a row leaves the reserve, or need not: a creation is refused if no block can have the size of the
/// largest message, and answered if one can; any other request is answered in either case.
fn is_so_confined<'a>(
    rt: &impl AllocGlobal,
    heap: &'a Refusing<Global>,
    manager: &mut Manager<&'a Refusing<Global>>,
    row: &str,
) -> Result<bool, Fail> {
    let outcome = confined(rt, heap, manager, row, LARGE - 1)?;
    if !is_creation(row) {
        return Ok(outcome == Outcome::Answered);
    }
    Ok(outcome == Outcome::Refused && confined(rt, heap, manager, row, LARGE)? == Outcome::Answered)
}

/// Asks a manager rows, one after the other.
fn rows_are_so_confined<'a, R: AllocGlobal>(
    rt: &R,
    heap: &'a Refusing<Global>,
    manager: &mut Manager<&'a Refusing<Global>>,
    rows: &str,
) -> Result<(), Fail> {
    for row in rows.lines() {
        check(row, is_so_confined(rt, heap, manager, row)?)?;
    }
    Ok(())
}

/// The same with a new manager.
fn rows_are_so_confined_anew<R: AllocGlobal>(rt: &R, rows: &str) -> Result<(), Fail> {
    let heap = Refusing::new(rt.alloc());
    let mut manager = a_manager(&heap)?;
    rows_are_so_confined(rt, &heap, &mut manager, rows)
}

#[test]
fn a_creation_alone_is_refused_where_it_would_not_leave_the_reserve(
    rt: HostRuntime,
) -> Result<(), Fail> {
    rows_are_so_confined_anew(&rt, ROWS)?;
    rows_are_so_confined_anew(&rt, WATCHING)
}

/// Returns all that a manager tells but its history: its steps, and for each watcher its subscriptions and reports.
fn told_by<A: Allocator + Copy>(
    rt: &impl AllocGlobal,
    manager: &Manager<A>,
) -> Result<String, Fail> {
    let mut text = String::new(rt.alloc());
    for step in STEPS {
        text.push_str(step_of(rt, manager, step)?.as_str())?;
    }
    for name in ["W1", "W2", "W3"] {
        let ae = title(name)?;
        put_watches(&mut text, manager, ae)?;
        put_reports(rt, &mut text, manager, ae)?;
    }
    Ok(text)
}

/// Lets requests leave memory with each growth refused in turn, until none is, and returns how many were refused. Each
/// time the manager tells the same as before.
fn growths_of_leaving<'a>(
    rt: &impl AllocGlobal,
    heap: &'a Refusing<Global>,
    manager: &mut Manager<&'a Refusing<Global>>,
) -> Result<u64, Fail> {
    let before = told_by(rt, manager)?;
    let entries = manager.entries();
    for growth in 1..GROWTHS {
        arm(heap, Lack::Growth(growth));
        manager.let_go(entries);
        let is_armed = heap.is_armed();
        disarm(heap);
        check(
            "something is lost",
            told_by(rt, manager)?.as_str() == before.as_str(),
        )?;
        if is_armed {
            return Ok(growth - 1);
        }
    }
    Err("a growth is refused each time".into())
}

/// Asks a manager rows, one after the other, and refuses nothing.
fn ask_rows<'a>(
    rt: &impl AllocGlobal,
    heap: &'a Refusing<Global>,
    manager: &mut Manager<&'a Refusing<Global>>,
    rows: &str,
) -> Result<(), Fail> {
    for row in rows.lines() {
        let due = due_of(row)?;
        let found = lacking(rt, heap, manager, due.line, false, Lack::Growth(0))?;
        check(row, found.as_str() == due.answered)?;
    }
    Ok(())
}

/// Makes many requests that no report is of.
fn pass<'a>(
    rt: &impl AllocGlobal,
    heap: &'a Refusing<Global>,
    manager: &mut Manager<&'a Refusing<Global>>,
) -> Result<(), Fail> {
    for _ in 0..MANY {
        lacking(rt, heap, manager, PASSING, false, Lack::Growth(0))?;
    }
    Ok(())
}

/// Asks a manager the rows about watchers and further rows, and returns how many growths it makes as all requests leave
/// the recent ones.
fn growths_behind<'a>(
    rt: &impl AllocGlobal,
    heap: &'a Refusing<Global>,
    manager: &mut Manager<&'a Refusing<Global>>,
    rows: &str,
) -> Result<u64, Fail> {
    ask_rows(rt, heap, manager, WATCHING)?;
    ask_rows(rt, heap, manager, rows)?;
    pass(rt, heap, manager)?;
    let growths = growths_of_leaving(rt, heap, manager)?;
    check("a request has not left", manager.history().is_empty())?;
    Ok(growths)
}

/// The same with a new manager.
fn growths_behind_anew(rt: &impl AllocGlobal, rows: &str) -> Result<u64, Fail> {
    let heap = Refusing::new(rt.alloc());
    let mut manager = a_lasting_manager(&heap)?;
    growths_behind(rt, &heap, &mut manager, rows)
}

#[test]
fn nothing_is_lost_where_a_growth_is_refused_as_requests_leave(
    rt: HostRuntime,
) -> Result<(), Fail> {
    check("growths", growths_behind_anew(&rt, "")? > 1)
}

#[test]
fn no_memory_is_taken_for_requests_whose_reports_are_acknowledged(
    rt: HostRuntime,
) -> Result<(), Fail> {
    check("growths", growths_behind_anew(&rt, ACKNOWLEDGED)? <= 1)
}
