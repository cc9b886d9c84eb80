use crate::steps::{digit_of, step_of};
use fixtures::Refusing;
use fixtures::rows::{check, check_same, cut, number};
use std::alloc::{Allocator, Global};
use std::fmt::Write;
use std::test::Fail;
use ups_cycle::StepState;
use ups_events::{AckFault, Queue, Queues};
use ups_life::{Event, EventKind, Report};

/// Returns the kind that a word names.
fn kind_of(word: &str) -> Result<EventKind, Fail> {
    match word {
        "state" => Ok(EventKind::StateReport),
        "cancel" => Ok(EventKind::CancelRequested),
        "progress" => Ok(EventKind::ProgressReport),
        "assigned" => Ok(EventKind::Assigned),
        _ => Err("no kind".into()),
    }
}

/// Returns the first letter of the word for a kind.
fn letter_of(kind: EventKind) -> char {
    match kind {
        EventKind::StateReport => 's',
        EventKind::CancelRequested => 'c',
        EventKind::ProgressReport => 'p',
        EventKind::Assigned => 'a',
    }
}

/// Returns a report of this kind on a step.
fn report_of(alloc: Global, kind: &str, step: &str) -> Result<Report, Fail> {
    Ok(Report {
        kind: kind_of(kind)?,
        step: step_of(alloc, step)?,
        state: StepState::InProgress,
        readiness: None,
    })
}

/// Makes room for a report, and puts it into a queue.
fn put<A: Allocator + Copy>(queue: &mut Queue<A>, report: Report) -> Result<(), Fail> {
    queue.reserve(1)?;
    queue.put(0, report);
    Ok(())
}

/// Returns the outcome of an acknowledgement.
fn outcome(answer: Result<(), AckFault>) -> &'static str {
    match answer {
        Ok(()) => "done",
        Err(AckFault::AckAhead) => "ahead",
        Err(AckFault::AckStale) => "stale",
    }
}

/// Does what a line says, and returns the outcome.
fn act(alloc: Global, queue: &mut Queue<Global>, line: &str) -> Result<&'static str, Fail> {
    let (verb, word) = cut(line, " ")?;
    match verb {
        "ack" => Ok(outcome(queue.ack(number(word)?))),
        kind => {
            put(queue, report_of(alloc, kind, word)?)?;
            Ok("put")
        }
    }
}

/// Adds an event as text: its number, the letter of its kind, and the digit of its step.
fn add_event(text: &mut String, event: &Event) -> Result<(), Fail> {
    let letter = letter_of(event.kind);
    let digit = digit_of(event.step);
    write!(text, " {}{letter}{digit}", event.number)?;
    Ok(())
}

/// Returns the first nine events that are pending.
fn events_of<A: Allocator + Copy>(alloc: Global, queue: &Queue<A>) -> Result<String, Fail> {
    let mut text = String::new(alloc);
    for event in &queue.pending(9)? {
        add_event(&mut text, event)?;
    }
    Ok(text)
}

/// What is done, one line after the other, its outcome, and which events are pending then.
const CALLS: &str = "\
state 1 = put 1s1
cancel 1 = put 1s1 2c1
state 2 = put 1s1 2c1 3s2
state 1 = put 2c1 3s2 4s1
progress 2 = put 2c1 3s2 4s1 5p2
assigned 2 = put 2c1 3s2 4s1 5p2 6a2
ack 7 = ahead 2c1 3s2 4s1 5p2 6a2
ack 0 = stale 2c1 3s2 4s1 5p2 6a2
ack 1 = done 2c1 3s2 4s1 5p2 6a2
ack 1 = stale 2c1 3s2 4s1 5p2 6a2
ack 4 = done 5p2 6a2
state 1 = put 5p2 6a2 7s1
state 1 = put 5p2 6a2 8s1
ack 8 = done
ack 8 = stale
state 2 = put 9s2";

/// Does what a line says, and returns the outcome and the events that are pending then.
fn told(alloc: Global, queue: &mut Queue<Global>, line: &str) -> Result<String, Fail> {
    let outcome = act(alloc, queue, line)?;
    let events = events_of(alloc, queue)?;
    Ok(format!(in alloc; "{outcome}{events}")?)
}

/// Does what a row says.
fn row_is_so(alloc: Global, queue: &mut Queue<Global>, row: &str) -> Result<(), Fail> {
    let (line, wanted) = cut(row, " = ")?;
    check_same(line, told(alloc, queue, line)?.as_str(), wanted)
}

/// Does what the rows say, one after the other.
fn rows_are_so(alloc: Global, queue: &mut Queue<Global>) -> Result<(), Fail> {
    for row in CALLS.lines() {
        row_is_so(alloc, queue, row)?;
    }
    Ok(())
}

#[test]
fn a_later_state_report_supersedes_the_one_before(rt: HostRuntime) -> Result<(), Fail> {
    rows_are_so(rt.alloc(), &mut Queue::new(rt.alloc()))
}

/// Puts `count` State Reports, of the steps 1 and 2 in turn, after a request to cancel; returns the events that are
/// pending and the greatest number.
fn many_in(alloc: Global, queue: &mut Queue<Global>, count: u64) -> Result<(String, u64), Fail> {
    let one = report_of(alloc, "state", "1")?;
    let other = report_of(alloc, "state", "2")?;
    put(queue, report_of(alloc, "cancel", "1")?)?;
    for number in 0..count {
        put(queue, if number % 2 == 0 { one } else { other })?;
    }
    Ok((events_of(alloc, queue)?, queue.made()))
}

/// The same with a new queue.
fn many(alloc: Global, count: u64) -> Result<(String, u64), Fail> {
    let mut queue = Queue::new(alloc);
    many_in(alloc, &mut queue, count)
}

#[test]
fn what_is_superseded_leaves_the_queue_however_much_it_is(rt: HostRuntime) -> Result<(), Fail> {
    let (events, made) = many(rt.alloc(), 1_000)?;
    check("the greatest number", made == 1_001)?;
    check_same("pending", events.as_str(), " 1c1 1000s1 1001s2")
}

/// Returns the events of two peers, of which the second gets two reports and acknowledges the first.
fn told_to_one(alloc: Global) -> Result<(String, String), Fail> {
    let reports = [
        report_of(alloc, "cancel", "1")?,
        report_of(alloc, "state", "1")?,
    ];
    let mut queues = Queues::new(alloc, 2)?;
    queues.reserve(1, 2)?;
    queues.tell(1, 7, &reports);
    if queues.ack(1, 1).is_err() {
        return Err("not acknowledged".into());
    }
    Ok((
        events_of(alloc, queues.of_peer(0))?,
        events_of(alloc, queues.of_peer(1))?,
    ))
}

#[test]
fn each_peer_has_a_queue_of_its_own(rt: HostRuntime) -> Result<(), Fail> {
    let (one, other) = told_to_one(rt.alloc())?;
    check_same("the first", one.as_str(), "")?;
    check_same("the second", other.as_str(), " 2s1")
}

/// Returns the digits of the entries to which queues may refer, of the first ten of the history.
fn entries_of<A: Allocator + Copy>(alloc: Global, queues: &Queues<A>) -> Result<String, Fail> {
    let mut text = String::new(alloc);
    for entry in 0u64..10 {
        if queues.refers_to(entry) {
            write!(text, "{entry}")?;
        }
    }
    Ok(text)
}

/// Tells one peer of entry 2, and another of the entries 4 and 7, of which it acknowledges the first; returns the
/// entries to which the queues may refer before and after that.
fn referred(alloc: Global) -> Result<(String, String), Fail> {
    let reports = [report_of(alloc, "cancel", "1")?];
    let mut queues = Queues::new(alloc, 2)?;
    queues.reserve(0, 1)?;
    queues.tell(0, 2, &reports);
    queues.reserve(1, 1)?;
    queues.tell(1, 4, &reports);
    queues.reserve(1, 1)?;
    queues.tell(1, 7, &reports);
    let before = entries_of(alloc, &queues)?;
    if queues.ack(1, 1).is_err() {
        return Err("not acknowledged".into());
    }
    Ok((before, entries_of(alloc, &queues)?))
}

#[test]
fn queues_refer_to_the_entries_of_pending_events(rt: HostRuntime) -> Result<(), Fail> {
    let (before, after) = referred(rt.alloc())?;
    check_same("before", before.as_str(), "247")?;
    check_same("after", after.as_str(), "27")
}

/// Adds events of the entries 7 and 3, the later one first, and returns whether the queue may refer to each.
fn referred_against_the_order(alloc: Global) -> Result<(bool, bool), Fail> {
    let mut queue = Queue::new(alloc);
    queue.reserve(1)?;
    queue.put(7, report_of(alloc, "cancel", "1")?);
    queue.reserve(1)?;
    queue.put(3, report_of(alloc, "cancel", "2")?);
    Ok((queue.refers_to(7), queue.refers_to(3)))
}

#[test]
fn a_queue_refers_to_entries_in_any_order(rt: HostRuntime) -> Result<(), Fail> {
    let (later, earlier) = referred_against_the_order(rt.alloc())?;
    check("both are referred to", later && earlier)
}

/// Makes room for events and takes what is pending while the growth with this number is refused; returns whether both
/// succeed, and what is pending in either case.
fn pending_in<'a>(
    alloc: Global,
    heap: &'a Refusing<Global>,
    queue: &mut Queue<&'a Refusing<Global>>,
    growth: u64,
) -> Result<(bool, String), Fail> {
    put(queue, report_of(alloc, "state", "1")?)?;
    heap.refuse(growth);
    let is_reserved = queue.reserve(100).is_ok();
    let is_shown = queue.pending(9).is_ok();
    heap.refuse(0);
    Ok((is_reserved && is_shown, events_of(alloc, queue)?))
}

/// The same with a new queue.
fn pending_lacking(alloc: Global, growth: u64) -> Result<(bool, String), Fail> {
    let heap = Refusing::new(alloc);
    let mut queue = Queue::new(&heap);
    pending_in(alloc, &heap, &mut queue, growth)
}

/// Returns whether both succeed; the event must stay pending in either case.
fn is_shown(alloc: Global, growth: u64) -> Result<bool, Fail> {
    let (is_whole, events) = pending_lacking(alloc, growth)?;
    check_same("pending", events.as_str(), " 1s1")?;
    Ok(is_whole)
}

#[test]
fn a_queue_stays_where_a_growth_is_refused(rt: HostRuntime) -> Result<(), Fail> {
    let mut refused = 0u64;
    for growth in 1..20 {
        if !is_shown(rt.alloc(), growth)? {
            refused = growth;
        }
    }
    check(
        "the map of steps, the list of events and the returned list grow at least once each, and the rest succeeds",
        refused >= 3 && refused < 19,
    )
}
