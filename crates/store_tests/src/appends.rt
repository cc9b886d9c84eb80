//! Three appends in a row, with each outcome.
//!
//! A turn has one of 24 forms: first 0, 1 or 2 further requests arrive; if the ledger has to open the store anew, that
//! fails or not; and the append of all that is not committed ends in one of four ways.
//!
//! - It succeeds.
//! - It is full: no write finds room, so nothing is written, and the store stays open.
//! - It fails at the sync that commits, though its data got there.
//! - It fails at the sync that commits, and its data is gone.
//!
//! At first the store is open, and without a request there is no append. So a sequence of three turns begins with one of 8
//! forms, and there are 4,608: 1,152 for each outcome of the first append. Those of one or two turns are among them, since
//! no append is left to do in a turn where none arrives and all is committed.
//!
//! After each turn the files are read as a process that dies leaves them, and as a power cut does (for all sequences that
//! begin with the same turns this is done once): they have a beginning of the history, with at least what was told
//! committed. In the end one more append succeeds, and they have the whole history, each request once and in its order. The
//! store is never told to be lost.

use crate::bench::Bench;
use crate::course::{Counts, Course, Verdict, begun, history, made};
use crate::plan::CallOutcome;
use log::Log;
use std::alloc::Global;
use std::test::Fail;
use std::time::Clock;
use ups_journal::Record;
use ups_ledger::{Ledger, LedgerFault};

/// How many outcomes an append has.
const OUTCOMES: u32 = 4;

/// How many forms a turn has: outcomes, times whether an opening fails, times how many requests arrive.
const TURNS: u32 = OUTCOMES * 2 * 3;

/// How many forms the first turn has for each outcome: 1 or 2 requests arrive.
const FIRST: u32 = 2;

/// How many sequences begin with each outcome.
const SEQUENCES: u32 = FIRST * TURNS * TURNS;

/// The counts of these, if all are right.
const ALL_RIGHT: Counts = Counts {
    right: SEQUENCES,
    unmade: 0,
    lost: 0,
    broken: 0,
};

/// The number of requests of the history: two for each turn.
const REQUESTS: u64 = 6;

/// Returns the outcome with this number.
fn outcome_of(number: u32) -> CallOutcome {
    match number {
        0 => CallOutcome::Success,
        1 => CallOutcome::Full,
        2 => CallOutcome::SyncKept,
        _ => CallOutcome::SyncLost,
    }
}

/// Takes a later turn, which has the form with this number.
fn take_turn<L: Ledger>(course: &mut Course<'_, '_, L>, number: u32) {
    let others = number / OUTCOMES;
    let plan = &course.bench.plan;
    plan.end_append(outcome_of(number % OUTCOMES), others % 2 == 1);
    let _ = course.commit((others / 2 % 3) as usize);
}

/// Takes the first turn, in which 1 or 2 requests arrive.
fn take_first<L: Ledger>(course: &mut Course<'_, '_, L>, outcome: u32, number: u32) {
    course.bench.plan.end_append(outcome_of(outcome), false);
    let _ = course.commit(if number == 0 { 1 } else { 2 });
}

/// Takes the second turn, and the third, and returns what the course shows. What it shows before a turn is looked at if
/// only turns of the first form follow.
fn take_others<L: Ledger>(course: &mut Course<'_, '_, L>, others: u32) -> Verdict {
    let mut rest = others;
    for _turn in 0..2 {
        if rest == 0 && course.verdict() != Verdict::Right {
            return course.verdict();
        }
        take_turn(course, rest % TURNS);
        rest /= TURNS;
    }
    match course.verdict() {
        Verdict::Right => course.finish(),
        wrong => wrong,
    }
}

/// Returns the verdict on the sequence with this number that begins with this outcome, of a ledger in these files.
fn verdict_by<'a, L: Ledger>(
    ledger: L,
    alloc: Global,
    bench: &'a Bench,
    history: &'a [Record<Global>],
    outcome: u32,
    sequence: u32,
) -> Verdict {
    let mut ledger = ledger;
    let mut course = Course::new(alloc, bench, history, &mut ledger);
    take_first(&mut course, outcome, sequence % FIRST);
    take_others(&mut course, sequence / FIRST)
}

/// The same, with the ledger that a start returns.
fn verdict_on<'a, R: Clock + Log>(
    rt: &R,
    alloc: Global,
    bench: &'a Bench,
    history: &'a [Record<Global>],
    outcome: u32,
    sequence: u32,
) -> Verdict {
    match begun(rt, alloc, bench) {
        Some(ledger) => verdict_by(ledger, alloc, bench, history, outcome, sequence),
        None => Verdict::Unmade,
    }
}

/// The same, in a copy of these files.
fn verdict_of<R: Clock + Log>(
    rt: &R,
    alloc: Global,
    made: &Bench,
    history: &[Record<Global>],
    outcome: u32,
    sequence: u32,
) -> Verdict {
    match made.copied(alloc) {
        Some(bench) => verdict_on(rt, alloc, &bench, history, outcome, sequence),
        None => Verdict::Unmade,
    }
}

/// Counts the verdicts on the sequences that begin with the outcome that has this number.
fn counted<R: Clock + Log>(
    rt: &R,
    alloc: Global,
    made: &Bench,
    history: &[Record<Global>],
    outcome: u32,
) -> Counts {
    let mut counts = Counts::new();
    for sequence in 0..SEQUENCES {
        counts.add(verdict_of(rt, alloc, made, history, outcome, sequence));
    }
    counts
}

/// The same, in a store that is made for it.
fn counted_from<R: Clock + Log>(rt: &R, alloc: Global, outcome: u32) -> Result<Counts, Fail> {
    let history = history(alloc, REQUESTS)?;
    let made = made(rt, alloc)?;
    Ok(counted(rt, alloc, &made, &history, outcome))
}

/// An answer of an append, and how many requests a process that dies and a power cut leave.
type Answer = (Result<(), LedgerFault>, Option<u64>, Option<u64>);

/// Returns the answer of an append of one request, which ends in the way that has this number, by a ledger in these files.
fn answer_by<'a, L: Ledger>(
    ledger: L,
    alloc: Global,
    bench: &'a Bench,
    history: &'a [Record<Global>],
    outcome: u32,
) -> Answer {
    let mut ledger = ledger;
    let mut course = Course::new(alloc, bench, history, &mut ledger);
    bench.plan.end_append(outcome_of(outcome), false);
    let answer = course.commit(1);
    (answer, course.left(false), course.left(true))
}

/// The same, by the ledger that a start returns.
fn answer_on<'a, R: Clock + Log>(
    rt: &R,
    alloc: Global,
    bench: &'a Bench,
    history: &'a [Record<Global>],
    outcome: u32,
) -> Option<Answer> {
    match begun(rt, alloc, bench) {
        Some(ledger) => Some(answer_by(ledger, alloc, bench, history, outcome)),
        None => None,
    }
}

/// The same, in a store that is made for it.
fn answer_of<R: Clock + Log>(rt: &R, alloc: Global, outcome: u32) -> Result<Option<Answer>, Fail> {
    let history = history(alloc, 1)?;
    let made = made(rt, alloc)?;
    Ok(answer_on(rt, alloc, &made, &history, outcome))
}

#[test]
fn an_append_ends_as_planned(rt: HostRuntime) -> Result<(), Fail> {
    let alloc = rt.alloc();
    let (full, write) = (Err(LedgerFault::Full), Err(LedgerFault::Write));
    assert_eq!(rt; answer_of(&rt, alloc, 0)?, Some((Ok(()), Some(1), Some(1))));
    assert_eq!(rt; answer_of(&rt, alloc, 1)?, Some((full, Some(0), Some(0))));
    assert_eq!(rt; answer_of(&rt, alloc, 2)?, Some((write, Some(1), Some(1))));
    assert_eq!(rt; answer_of(&rt, alloc, 3)?, Some((write, Some(0), Some(0))));
    Ok(())
}

#[test]
fn sequences_that_begin_with_a_success_are_right(rt: HostRuntime) -> Result<(), Fail> {
    let counts = counted_from(&rt, rt.alloc(), 0)?;
    assert_eq!(rt; counts, ALL_RIGHT);
    Ok(())
}

#[test]
fn sequences_that_begin_with_a_full_disk_are_right(rt: HostRuntime) -> Result<(), Fail> {
    let counts = counted_from(&rt, rt.alloc(), 1)?;
    assert_eq!(rt; counts, ALL_RIGHT);
    Ok(())
}

#[test]
fn sequences_that_begin_with_data_kept_at_a_failed_sync_are_right(
    rt: HostRuntime,
) -> Result<(), Fail> {
    let counts = counted_from(&rt, rt.alloc(), 2)?;
    assert_eq!(rt; counts, ALL_RIGHT);
    Ok(())
}

#[test]
fn sequences_that_begin_with_data_lost_at_a_failed_sync_are_right(
    rt: HostRuntime,
) -> Result<(), Fail> {
    let counts = counted_from(&rt, rt.alloc(), 3)?;
    assert_eq!(rt; counts, ALL_RIGHT);
    Ok(())
}
