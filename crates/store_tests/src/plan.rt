//! Which calls on the files fail, and how.

use std::cell::Cell;

/// How a call on a file ends.
#[derive(Clone, Copy, Debug, PartialEq, Eq)]
pub(crate) enum CallEnd {
    /// It succeeds.
    Success,
    /// It fails, since there is no room, and does nothing.
    NoRoom,
    /// It fails, and does nothing. A sync loses what was not synced before.
    Undone,
    /// It fails, though it has done what was asked.
    Done,
}

/// A kind of call on a file.
#[derive(Clone, Copy, Debug, PartialEq, Eq)]
pub(crate) enum Call {
    /// A read, or the question for the length.
    Read,
    /// A write, or a change of the length.
    Write,
    /// A sync.
    Sync,
}

/// How an append ends.
#[derive(Clone, Copy, Debug, PartialEq, Eq)]
pub(crate) enum CallOutcome {
    /// It succeeds.
    Success,
    /// No write finds room, so nothing is written, and the store stays open.
    Full,
    /// It fails at the sync that commits, though its data got there.
    SyncKept,
    /// It fails at the sync that commits, and its data is gone.
    SyncLost,
}

/// The number of the sync of a commit without which the commit is not on the disk: the first only prepares it.
const COMMITTING: u32 = 2;

/// A call that fails: its number, from 1, and its end.
#[derive(Clone, Copy)]
pub(crate) struct Fault {
    /// The number of the call.
    pub(crate) call: u32,
    /// Its end.
    pub(crate) end: CallEnd,
}

/// No call that fails.
pub(crate) const NO_FAULT: Fault = Fault {
    call: 0,
    end: CallEnd::Success,
};

/// Which calls fail: the two with certain numbers, those of an append with a certain outcome, all from one on, and an
/// opening.
#[derive(Drop)]
pub(crate) struct CallPlan {
    calls: Cell<u32>,
    first: Cell<Fault>,
    second: Cell<Fault>,
    /// The number of the call from which on each fails.
    last: Cell<u32>,
    /// The last call that failed by its number.
    failed: Cell<Call>,
    outcome: Cell<CallOutcome>,
    syncs: Cell<u32>,
    is_opening: Cell<bool>,
    refuses_opening: Cell<bool>,
}

impl CallPlan {
    /// Returns the plan in which nothing fails.
    pub(crate) fn new() -> CallPlan {
        CallPlan {
            calls: Cell::new(0),
            first: Cell::new(NO_FAULT),
            second: Cell::new(NO_FAULT),
            last: Cell::new(u32::MAX),
            failed: Cell::new(Call::Read),
            outcome: Cell::new(CallOutcome::Success),
            syncs: Cell::new(0),
            is_opening: Cell::new(false),
            refuses_opening: Cell::new(false),
        }
    }

    /// Plans two failing calls, counted from now on, and the call from which on each fails.
    pub(crate) fn fail_calls(&self, first: Fault, second: Fault, last: u32) {
        self.calls.set(0);
        self.first.set(first);
        self.second.set(second);
        self.last.set(last);
    }

    /// Plans the outcome of the next append, and whether the opening before it fails.
    pub(crate) fn end_append(&self, outcome: CallOutcome, refuses_opening: bool) {
        self.syncs.set(0);
        self.outcome.set(outcome);
        self.refuses_opening.set(refuses_opening);
    }

    /// Plans that nothing fails any more.
    pub(crate) fn heal(&self) {
        self.fail_calls(NO_FAULT, NO_FAULT, u32::MAX);
        self.end_append(CallOutcome::Success, false);
    }

    /// Returns how many calls there were.
    pub(crate) fn calls(&self) -> u32 {
        self.calls.get()
    }

    /// Returns whether the last call that failed by its number is a read.
    pub(crate) fn failed_to_read(&self) -> bool {
        self.failed.get() == Call::Read
    }

    /// Returns whether an opening is refused.
    pub(crate) fn refuses_opening(&self) -> bool {
        self.refuses_opening.get()
    }

    /// Notes that a store is being opened, or that it was.
    pub(crate) fn open(&self, is_opening: bool) {
        self.is_opening.set(is_opening);
    }

    /// Returns the end of the call with this number, as far as that depends on the number.
    fn end_of(&self, number: u32) -> CallEnd {
        let (first, second) = (self.first.get(), self.second.get());
        if first.call == number {
            return first.end;
        }
        if second.call == number {
            return second.end;
        }
        if number >= self.last.get() {
            return CallEnd::Undone;
        }
        CallEnd::Success
    }

    /// Returns the end of a sync in an append that fails at a sync.
    fn end_of_sync(&self, end: CallEnd) -> CallEnd {
        let number = self.syncs.get().saturating_add(1);
        self.syncs.set(number);
        if number == COMMITTING {
            return end;
        }
        CallEnd::Success
    }

    /// Returns the end of a call in an append.
    fn end_in_append(&self, call: Call) -> CallEnd {
        match (self.outcome.get(), call) {
            (CallOutcome::Full, Call::Write) => CallEnd::NoRoom,
            (CallOutcome::SyncKept, Call::Sync) => self.end_of_sync(CallEnd::Done),
            (CallOutcome::SyncLost, Call::Sync) => self.end_of_sync(CallEnd::Undone),
            _ => CallEnd::Success,
        }
    }

    /// Counts a call, and returns its end.
    pub(crate) fn next(&self, call: Call) -> CallEnd {
        let number = self.calls.get().saturating_add(1);
        self.calls.set(number);
        let end = self.end_of(number);
        if end != CallEnd::Success {
            self.failed.set(call);
            return end;
        }
        if self.is_opening.get() {
            return CallEnd::Success;
        }
        self.end_in_append(call)
    }
}
