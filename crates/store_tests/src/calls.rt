//! One call of the disk that fails, and two, in a course of an append, a tidying up, and another append; and one in a course
//! with two compactions, which keep all requests.
//!
//! A call that fails has done nothing, and a sync that fails so has lost what was not synced; or, if it is no read, it has
//! done all that it was asked. Calls are counted from the first append on, as the course makes them: those of opening the
//! store anew too. A course is run for each call that it makes, and for each pair: with one call that fails, each later
//! call of what the course then does fails as well, alone or with all calls after it. After each append, and in the end,
//! holds what `appends` says; a call from which on all calls fail is also a crash at that call.

use crate::bench::Bench;
use crate::course::{Counts, Course, Verdict, begun, history, made};
use crate::plan::{CallEnd, Fault, NO_FAULT};
use log::Log;
use std::alloc::Global;
use std::test::Fail;
use std::time::Clock;
use ups_journal::Record;
use ups_ledger::Ledger;

/// No course makes as many calls.
const MOST: u32 = 10_000;

/// The number of requests of the history: one for each append.
const REQUESTS: u64 = 2;

/// How calls fail, the second time.
#[derive(Clone, Copy, PartialEq, Eq)]
enum Second {
    /// One call, which has done nothing.
    Undone,
    /// One call, which has done all that it was asked.
    Done,
    /// One call, which finds no room.
    NoRoom,
    /// That call, and each one after it.
    Lasting,
}

/// What a course does.
#[derive(Clone, Copy, PartialEq, Eq)]
enum Work {
    /// It appends, tidies up, and appends.
    Tidying,
    /// It appends and compacts, twice.
    Compacting,
}

/// How many slices a compaction has at most, with those that empty the table of the one before.
const SLICES: u32 = 16;

/// What a course does, and which calls fail in it: one, and those from a later one on.
#[derive(Clone, Copy)]
struct Trouble {
    work: Work,
    first: Fault,
    /// The number of the second call.
    call: u32,
    second: Second,
}

/// Returns how one call fails.
fn end_of(second: Second) -> CallEnd {
    match second {
        Second::Undone | Second::Lasting => CallEnd::Undone,
        Second::Done => CallEnd::Done,
        Second::NoRoom => CallEnd::NoRoom,
    }
}

/// Plans the failures of a course.
fn plan<L: Ledger>(course: &Course<'_, '_, L>, trouble: Trouble) {
    let second = Fault {
        call: trouble.call,
        end: end_of(trouble.second),
    };
    let last = if trouble.second == Second::Lasting {
        trouble.call
    } else {
        u32::MAX
    };
    course.bench.plan.fail_calls(trouble.first, second, last);
}

/// What a course shows, how many calls it made before nothing failed any more, and whether the last of the failed ones
/// was a read.
#[derive(Clone, Copy)]
struct Told {
    verdict: Verdict,
    calls: u32,
    is_read: bool,
}

/// What is told of a course that could not begin.
const UNMADE: Told = Told {
    verdict: Verdict::Unmade,
    calls: 0,
    is_read: true,
};

/// Lets a request arrive, and appends.
fn appended<L: Ledger>(course: &mut Course<'_, '_, L>) -> Verdict {
    let _ = course.commit(1);
    course.verdict()
}

/// Appends, tidies up, and appends.
fn tidied<L: Ledger>(course: &mut Course<'_, '_, L>) -> Verdict {
    match appended(course) {
        Verdict::Right => {
            course.tidy();
            appended(course)
        }
        wrong => wrong,
    }
}

/// Compacts, as far as no call fails.
fn compact<L: Ledger>(course: &mut Course<'_, '_, L>) {
    for _slice in 0..SLICES {
        if course.tend() {
            return;
        }
    }
}

/// Appends, and compacts.
fn appended_and_compacted<L: Ledger>(course: &mut Course<'_, '_, L>) -> Verdict {
    match appended(course) {
        Verdict::Right => {
            compact(course);
            course.verdict()
        }
        wrong => wrong,
    }
}

/// Does the work of a course.
fn taken<L: Ledger>(course: &mut Course<'_, '_, L>, work: Work) -> Verdict {
    if work == Work::Tidying {
        return tidied(course);
    }
    match appended_and_compacted(course) {
        Verdict::Right => appended_and_compacted(course),
        wrong => wrong,
    }
}

/// Takes a course with this trouble.
fn told_by<L: Ledger>(course: &mut Course<'_, '_, L>, trouble: Trouble) -> Told {
    plan(course, trouble);
    let verdict = taken(course, trouble.work);
    let calls = course.bench.plan.calls();
    let is_read = course.bench.plan.failed_to_read();
    let verdict = match verdict {
        Verdict::Right => course.finish(),
        wrong => wrong,
    };
    Told {
        verdict,
        calls,
        is_read,
    }
}

/// The same, with this ledger in these files.
fn told_with<'a, L: Ledger>(
    ledger: L,
    alloc: Global,
    bench: &'a Bench,
    history: &'a [Record<Global>],
    trouble: Trouble,
) -> Told {
    let mut ledger = ledger;
    told_by(
        &mut Course::new(alloc, bench, history, &mut ledger),
        trouble,
    )
}

/// The same, with the ledger that a start returns.
fn told_on<'a, R: Clock + Log>(
    rt: &R,
    alloc: Global,
    bench: &'a Bench,
    history: &'a [Record<Global>],
    trouble: Trouble,
) -> Told {
    match begun(rt, alloc, bench) {
        Some(ledger) => told_with(ledger, alloc, bench, history, trouble),
        None => UNMADE,
    }
}

/// The same, in a copy of these files.
fn told_of<R: Clock + Log>(
    rt: &R,
    alloc: Global,
    made: &Bench,
    history: &[Record<Global>],
    trouble: Trouble,
) -> Told {
    match made.copied(alloc) {
        Some(bench) => told_on(rt, alloc, &bench, history, trouble),
        None => UNMADE,
    }
}

/// Counts the courses in which a call fails, and each later one as well, one after the other.
fn count_second<R: Clock + Log>(
    rt: &R,
    alloc: Global,
    made: &Bench,
    history: &[Record<Global>],
    counts: &mut Counts,
    trouble: Trouble,
) {
    for earlier in trouble.first.call..MOST {
        let call = earlier.saturating_add(1);
        let trouble = Trouble { call, ..trouble };
        let told = told_of(rt, alloc, made, history, trouble);
        if told.calls < call {
            return;
        }
        if trouble.second != Second::Done || !told.is_read {
            counts.add(told.verdict);
        }
    }
}

/// Returns the trouble of a course in which a call fails, and a second one, that is none of the course's.
fn trouble_of(work: Work, first: Fault, second: Second) -> Trouble {
    Trouble {
        work,
        first,
        call: MOST,
        second,
    }
}

/// Counts the courses in which two calls fail.
fn counted<R: Clock + Log>(
    rt: &R,
    alloc: Global,
    made: &Bench,
    history: &[Record<Global>],
    end: CallEnd,
    second: Second,
) -> Counts {
    let mut counts = Counts::new();
    for call in 1..MOST {
        let first = Fault { call, end };
        let alone = trouble_of(Work::Tidying, first, Second::Undone);
        let told = told_of(rt, alloc, made, history, alone);
        if told.calls < call {
            return counts;
        }
        if end != CallEnd::Done || !told.is_read {
            let trouble = trouble_of(Work::Tidying, first, second);
            count_second(rt, alloc, made, history, &mut counts, trouble);
        }
    }
    counts
}

/// Returns the counts of the courses in which two calls fail.
fn pairs<R: Clock + Log>(
    rt: &R,
    alloc: Global,
    end: CallEnd,
    second: Second,
) -> Result<Counts, Fail> {
    let history = history(alloc, REQUESTS)?;
    let made = made(rt, alloc)?;
    Ok(counted(rt, alloc, &made, &history, end, second))
}

/// Returns the counts of the courses in which one call fails, or all from one on.
fn singles<R: Clock + Log>(
    rt: &R,
    alloc: Global,
    work: Work,
    second: Second,
) -> Result<Counts, Fail> {
    let history = history(alloc, REQUESTS)?;
    let made = made(rt, alloc)?;
    let mut counts = Counts::new();
    let trouble = trouble_of(work, NO_FAULT, second);
    count_second(rt, alloc, &made, &history, &mut counts, trouble);
    Ok(counts)
}

/// Fails unless there were courses, and each was right.
fn expect_all_right(counts: Counts) -> Result<(), Fail> {
    let wrong = (counts.unmade, counts.lost, counts.broken);
    if wrong != (0, 0, 0) || counts.right == 0 {
        return Err(Fail::new(format_args!("{counts:?}")));
    }
    Ok(())
}

#[test]
fn a_call_that_does_nothing_breaks_nothing(rt: HostRuntime) -> Result<(), Fail> {
    expect_all_right(singles(&rt, rt.alloc(), Work::Tidying, Second::Undone)?)
}

#[test]
fn a_call_that_does_all_breaks_nothing(rt: HostRuntime) -> Result<(), Fail> {
    expect_all_right(singles(&rt, rt.alloc(), Work::Tidying, Second::Done)?)
}

#[test]
fn a_call_without_room_breaks_nothing(rt: HostRuntime) -> Result<(), Fail> {
    expect_all_right(singles(&rt, rt.alloc(), Work::Tidying, Second::NoRoom)?)
}

#[test]
fn failures_that_last_break_nothing(rt: HostRuntime) -> Result<(), Fail> {
    expect_all_right(singles(&rt, rt.alloc(), Work::Tidying, Second::Lasting)?)
}

#[test]
fn a_call_that_does_nothing_breaks_no_compaction(rt: HostRuntime) -> Result<(), Fail> {
    expect_all_right(singles(&rt, rt.alloc(), Work::Compacting, Second::Undone)?)
}

#[test]
fn a_call_that_does_all_breaks_no_compaction(rt: HostRuntime) -> Result<(), Fail> {
    expect_all_right(singles(&rt, rt.alloc(), Work::Compacting, Second::Done)?)
}

#[test]
fn a_call_without_room_breaks_no_compaction(rt: HostRuntime) -> Result<(), Fail> {
    expect_all_right(singles(&rt, rt.alloc(), Work::Compacting, Second::NoRoom)?)
}

#[test]
fn failures_that_last_break_no_compaction(rt: HostRuntime) -> Result<(), Fail> {
    expect_all_right(singles(&rt, rt.alloc(), Work::Compacting, Second::Lasting)?)
}

#[test]
fn two_calls_that_do_nothing_break_nothing(rt: HostRuntime) -> Result<(), Fail> {
    expect_all_right(pairs(&rt, rt.alloc(), CallEnd::Undone, Second::Undone)?)
}

#[test]
fn nothing_and_then_all_done_breaks_nothing(rt: HostRuntime) -> Result<(), Fail> {
    expect_all_right(pairs(&rt, rt.alloc(), CallEnd::Undone, Second::Done)?)
}

#[test]
fn nothing_done_and_then_failures_that_last_break_nothing(rt: HostRuntime) -> Result<(), Fail> {
    expect_all_right(pairs(&rt, rt.alloc(), CallEnd::Undone, Second::Lasting)?)
}

#[test]
fn all_and_then_nothing_done_breaks_nothing(rt: HostRuntime) -> Result<(), Fail> {
    expect_all_right(pairs(&rt, rt.alloc(), CallEnd::Done, Second::Undone)?)
}

#[test]
fn two_calls_that_do_all_break_nothing(rt: HostRuntime) -> Result<(), Fail> {
    expect_all_right(pairs(&rt, rt.alloc(), CallEnd::Done, Second::Done)?)
}

#[test]
fn all_done_and_then_failures_that_last_break_nothing(rt: HostRuntime) -> Result<(), Fail> {
    expect_all_right(pairs(&rt, rt.alloc(), CallEnd::Done, Second::Lasting)?)
}
