//! A disk that fails at certain calls.

ghost use Rattle.std.specs.Prelude.{◌≡◌, ◌+◌, ◌≤◌, ◌&&◌, not, false, MatchBool};
ghost use Rattle.sqlite_disk.specs.Disk.{CountsFault, MoreFaults};
ghost use Rattle.sqlite_disk.specs.Refusal.{is_no_room};

use crate::contents::Contents;
use crate::plan::{Call, CallEnd, CallPlan};
use sqlite_disk::{Disk, Tally};
use std::io::{self, ErrorKind};
use std::rc::Rc;

/// A disk whose calls fail as planned, and whose contents outlive it.
#[derive(Drop)]
pub(crate) struct Failing<D: Disk> {
    inner: D,
    contents: Rc<Contents>,
    plan: Rc<CallPlan>,
    /// How many calls failed that the inner disk did not refuse.
    failed: u64,
    /// How many of these found no room.
    full: u64,
    is_sync_failed: bool,
}

impl<D: Disk> Failing<D> {
    /// Returns a disk with what the inner one has, which is what `contents` has.
    pub(crate) fn new(inner: D, contents: Rc<Contents>, plan: Rc<CallPlan>) -> Failing<D> {
        Failing {
            inner,
            contents,
            plan,
            failed: 0,
            full: 0,
            is_sync_failed: false,
        }
    }
}

/// Returns the error of a call that fails.
fn fault() -> io::Error
    ensures { is_no_room result ≡ false }
{
    io::Error::other("the call fails")
}

/// Counts a call that fails, and returns its error.
fn failure(end: CallEnd, failed: &mut u64, full: &mut u64) -> io::Error
    ensures faults { MoreFaults failed.old failed.new × (failed.old ≤ failed.new) }
    ensures full { MatchBool (is_no_room result) (MoreFaults full.old full.new) (full.new ≡ full.old) }
{
    *failed = failed.saturating_add(1);
    if end == CallEnd::NoRoom {
        *full = full.saturating_add(1);
        return io::Error::from(ErrorKind::StorageFull);
    }
    fault()
}

/// Ends a read, and counts it if it fails.
fn read_ended(end: CallEnd, failed: &mut u64) -> io::Result<()>
    ensures faults { CountsFault result failed.old failed.new }
{
    if end == CallEnd::Success {
        return Ok(());
    }
    *failed = failed.saturating_add(1);
    Err(fault())
}

/// Syncs the contents if the call does what was asked, or else loses what was not synced. Returns the end.
fn settled(end: CallEnd, contents: &Contents) -> CallEnd {
    if end == CallEnd::Success || end == CallEnd::Done {
        return match contents.sync() {
            Ok(()) => end,
            Err(_) => CallEnd::Undone,
        };
    }
    let _ = contents.lose();
    end
}

impl<D: Disk> Disk for Failing<D> {
    ghost seen = { λ f. D.Disk.seen f.inner };

    ghost may_leave = { λ f. D.Disk.may_leave f.inner };

    ghost is_usable = { λ f. not f.is_sync_failed && D.Disk.is_usable f.inner };

    ghost faults = { λ f. D.Disk.faults f.inner + f.failed };

    ghost tally_of = { λ f. record { caught = (D.Disk.tally_of f.inner).caught; refused = f.full } };

    ghost is_rotten = { λ f. D.Disk.is_rotten f.inner };

    ghost key_of = { λ f. D.Disk.key_of f.inner };

    ghost is_clean = { λ f. D.Disk.is_clean f.inner };

    ghost is_fair = { λ f. D.Disk.is_fair f.inner };

    ghost fair_if_clean = { λ f. D.Disk.fair_if_clean f.inner };

    ghost seen_may_stay = { λ f. D.Disk.seen_may_stay f.inner };

    ghost is_mixing = { λ f. D.Disk.is_mixing f.inner };

    fn mixes(&self) -> bool {
        self.inner.mixes()
    }

    fn key(&self) -> u64 {
        self.inner.key()
    }

    fn tally(&self) -> Tally {
        Tally {
            caught: self.inner.tally().caught,
            refused: self.full,
        }
    }

    fn may_be_used(&self) -> bool {
        !self.is_sync_failed && self.inner.may_be_used()
    }

    fn len(&mut self) -> io::Result<usize> {
        read_ended(self.plan.next(Call::Read), &mut self.failed)?;
        self.inner.len()
    }

    fn read_at(&mut self, at: usize, buf: &mut [u8]) -> io::Result<()> {
        read_ended(self.plan.next(Call::Read), &mut self.failed)?;
        self.inner.read_at(at, buf)
    }

    fn read_checked(&mut self, key: u64, want: u64, at: usize, buf: &mut [u8]) -> io::Result<()> {
        read_ended(self.plan.next(Call::Read), &mut self.failed)?;
        self.inner.read_checked(key, want, at, buf)
    }

    fn write_at(&mut self, at: usize, bytes: &[u8]) -> io::Result<()> {
        let end = self.plan.next(Call::Write);
        if end == CallEnd::Undone || end == CallEnd::NoRoom {
            return Err(failure(end, &mut self.failed, &mut self.full));
        }
        if self.inner.write_at(at, bytes).is_err() {
            return Err(fault());
        }
        let is_kept = self.contents.write(at, bytes).is_ok();
        if !is_kept || end == CallEnd::Done {
            return Err(failure(CallEnd::Done, &mut self.failed, &mut self.full));
        }
        Ok(())
    }

    fn set_len(&mut self, len: usize) -> io::Result<()> {
        let end = self.plan.next(Call::Write);
        if end == CallEnd::Undone || end == CallEnd::NoRoom {
            return Err(failure(end, &mut self.failed, &mut self.full));
        }
        if self.inner.set_len(len).is_err() {
            return Err(fault());
        }
        let is_kept = self.contents.resize(len).is_ok();
        if !is_kept || end == CallEnd::Done {
            return Err(failure(CallEnd::Done, &mut self.failed, &mut self.full));
        }
        Ok(())
    }

    fn sync(&mut self) -> io::Result<()> {
        let end = settled(self.plan.next(Call::Sync), &self.contents);
        if end != CallEnd::Success {
            self.is_sync_failed = true;
            return Err(failure(end, &mut self.failed, &mut self.full));
        }
        if self.inner.sync().is_err() {
            return Err(fault());
        }
        Ok(())
    }
}
