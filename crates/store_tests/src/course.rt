//! A ledger in a store, used as the committer uses it: what is not committed yet is handed in again, with what has
//! arrived since behind it.

use crate::bench::{Bench, created};
use crate::keeping::{BenchNaming, BenchStore};
use crate::place::BenchPlace;
use crate::recovering::recovered;
use log::Log;
use std::alloc::{AllocError, Global};
use std::test::Fail;
use std::time::Clock;
use ups_journal::{Columns, Record, RecordedOperation};
use ups_lasting::LastingLedger;
use ups_ledger::{DropHere, Keeper, Ledger, LedgerFault, Tending};
use ups_manager::Manager;
use ups_pdu::Bytes;
use ups_start::{Run, StartChoices, begin};

/// What a course shows of the ledger.
#[derive(Clone, Copy, Debug, PartialEq, Eq)]
pub(crate) enum Verdict {
    /// Nothing is wrong.
    Right,
    /// The course could not begin.
    Unmade,
    /// A store that is sound is told to be lost.
    Lost,
    /// The store has other requests than the first of the history, or fewer than were told committed, or does not have
    /// all of them in the end.
    Broken,
}

/// How many courses ended with each verdict.
#[derive(Clone, Copy, Debug, PartialEq, Eq)]
pub(crate) struct Counts {
    /// How many are right.
    pub(crate) right: u32,
    /// How many could not begin.
    pub(crate) unmade: u32,
    /// In how many the store is told to be lost.
    pub(crate) lost: u32,
    /// In how many the store has other requests.
    pub(crate) broken: u32,
}

impl Counts {
    /// Returns the counts of no course.
    pub(crate) fn new() -> Counts {
        Counts {
            right: 0,
            unmade: 0,
            lost: 0,
            broken: 0,
        }
    }

    /// Counts a course.
    pub(crate) fn add(&mut self, verdict: Verdict) {
        let count = match verdict {
            Verdict::Right => &mut self.right,
            Verdict::Unmade => &mut self.unmade,
            Verdict::Lost => &mut self.lost,
            Verdict::Broken => &mut self.broken,
        };
        *count = count.saturating_add(1);
    }
}

/// Returns the request with this number in the history, from 0. It reserves a UID, so each compaction keeps it.
fn record_of(alloc: Global, number: u64) -> Result<Record<Global>, AllocError> {
    let uid = format!(in alloc; "1.2.{number}")?;
    Ok(Record {
        caller: 0,
        title: Bytes::copy_of(alloc, b"A")?,
        moment: number,
        request: Columns {
            operation: RecordedOperation::Reserve,
            instance: Some(Bytes::copy_of(alloc, uid.as_bytes())?),
            transaction_uid: None,
            state: None,
            receiver: None,
            deletion_lock: None,
            event: None,
            utc_offset: None,
            attributes: None,
        },
    })
}

/// Returns a history of `count` requests.
pub(crate) fn history(alloc: Global, count: u64) -> Result<Vec<Record<Global>>, Fail> {
    let mut records = Vec::new(alloc);
    for number in 0..count {
        records.push(record_of(alloc, number)?)?;
    }
    Ok(records)
}

/// The terms of the service, as a run notes them.
const TERMS: &str = "keep=60\noffset=0\n";

/// Begins on the store in the files of a bench.
pub(crate) fn begun<'a, R: Clock + Log>(
    rt: &R,
    alloc: Global,
    bench: &'a Bench,
) -> Option<LastingLedger<BenchStore<'a>>> {
    let Ok(mut manager) = Manager::new(alloc, &[], 60, 0, 1_000) else {
        return None;
    };
    let choices = StartChoices {
        may_leave_out: false,
        may_compact: false,
        may_change_terms: false,
    };
    let about = Run {
        moment: 0,
        version: "",
        settings: "",
        terms: TERMS,
    };
    let place = BenchPlace::new(alloc, bench);
    match begin(alloc, rt, &BenchNaming, place, choices, about, &mut manager) {
        Ok(Keeper { ledger, .. }) => Some(ledger),
        Err(_) => None,
    }
}

/// Drops a ledger. Where its type is known, the proof of a drop goes through all of its parts.
fn close<L: Ledger>(_ledger: L) {}

/// Begins on the store in the files of a bench, and returns whether it did.
fn has_begun<R: Clock + Log>(rt: &R, alloc: Global, bench: &Bench) -> bool {
    match begun(rt, alloc, bench) {
        Some(ledger) => {
            close(ledger);
            true
        }
        None => false,
    }
}

/// Returns the files of a store that has a run, and no requests.
pub(crate) fn made<R: Clock + Log>(rt: &R, alloc: Global) -> Result<Bench, Fail> {
    let bench = created(alloc)?;
    if !has_begun(rt, alloc, &bench) {
        return Err("no run".into());
    }
    Ok(bench)
}

/// A ledger, with how many requests of a history have arrived, and how many it told committed.
#[derive(Drop)]
pub(crate) struct Course<'a, 'l, L: Ledger> {
    alloc: Global,
    /// The files.
    pub(crate) bench: &'a Bench,
    history: &'a [Record<Global>],
    ledger: &'l mut L,
    arrived: usize,
    committed: usize,
    is_lost: bool,
}

impl<'a, 'l, L: Ledger> Course<'a, 'l, L> {
    /// Returns the course in which no request has arrived.
    pub(crate) fn new(
        alloc: Global,
        bench: &'a Bench,
        history: &'a [Record<Global>],
        ledger: &'l mut L,
    ) -> Course<'a, 'l, L> {
        Course {
            alloc,
            bench,
            history,
            ledger,
            arrived: 0,
            committed: 0,
            is_lost: false,
        }
    }

    /// Lets `more` requests arrive, and appends all that are not committed, if there are any.
    pub(crate) fn commit(&mut self, more: usize) -> Result<(), LedgerFault> {
        self.arrived = self.arrived.saturating_add(more);
        let Some(pending) = self.history.get(self.committed..self.arrived) else {
            return Ok(());
        };
        if pending.is_empty() {
            return Ok(());
        }
        let answer = self.ledger.append(pending);
        match answer {
            Ok(()) => self.committed = self.arrived,
            Err(LedgerFault::Lost) => self.is_lost = true,
            Err(_) => {}
        }
        answer
    }

    /// Does a slice of a compaction, which is due after one request, and returns whether it is done.
    pub(crate) fn tend(&mut self) -> bool {
        match self.ledger.tend(0, 1, &DropHere) {
            Ok(Tending::Compacted { .. }) => true,
            Ok(_) | Err(_) => false,
        }
    }

    /// Tidies up the ledger.
    pub(crate) fn tidy(&mut self) {
        self.ledger.tidy();
    }

    /// Returns how many requests a start finds after a crash, or None if they are not the first that have arrived.
    pub(crate) fn left(&self, by_power_cut: bool) -> Option<u64> {
        recovered(self.alloc, self.bench, by_power_cut, self.arrived as u64)
    }

    /// Returns whether such a crash leaves the first requests of the history, and at least `least`.
    fn leaves(&self, by_power_cut: bool, least: usize) -> bool {
        match self.left(by_power_cut) {
            Some(count) => count >= least as u64,
            None => false,
        }
    }

    /// Returns whether each crash leaves the first requests of the history, and at least `least`.
    fn is_safe(&self, least: usize) -> bool {
        if !self.leaves(false, least) {
            return false;
        }
        self.bench.is_synced() || self.leaves(true, least)
    }

    /// Returns what the course shows, if a crash should leave at least `least` requests.
    fn verdict_of(&self, least: usize) -> Verdict {
        if self.is_lost {
            return Verdict::Lost;
        }
        if self.is_safe(least) {
            Verdict::Right
        } else {
            Verdict::Broken
        }
    }

    /// Returns what the course shows now.
    pub(crate) fn verdict(&self) -> Verdict {
        let committed = self.committed;
        self.verdict_of(committed)
    }

    /// Commits all that has arrived, with no call that fails, and returns what the course shows.
    pub(crate) fn finish(&mut self) -> Verdict {
        self.bench.plan.heal();
        let answer = self.commit(0);
        let arrived = self.arrived;
        match answer {
            Ok(()) => self.verdict_of(arrived),
            Err(LedgerFault::Lost) => Verdict::Lost,
            Err(_) => Verdict::Broken,
        }
    }
}
