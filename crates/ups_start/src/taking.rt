//! Entering the requests of a store again, one by one.

ghost use Rattle.std.specs.Prelude.{◌≡◌, [], map, false, None, All, OnOk, IfOk, IsTrue};
ghost use Rattle.sqlite_trees.specs.View.{IsClean};
ghost use Rattle.ups_journal.specs.Writable.{IsWritableEntry};
ghost use Rattle.ups_restore.specs.Leaving.{AreTaken};
ghost use Rattle.ups_store.specs.Shown.{shown_by, all_of, given_out, has_ended};
ghost use Rattle.ups_start.specs.Digested.{IsDigested, AreDigested};
ghost use Rattle.ups_start.specs.Started.{said, TakesRecord};

use crate::fault::StartFault;
use crate::progress::Progress;
use crate::reading::Reading;
use log::{Log, warn};
use sqlite_trees::store::Store;
use std::alloc::Global;
use std::time::Clock;
use ups_life::MAX_HISTORY;
use ups_manager::Manager;
use ups_restore::{Restoration, RestoreFault, Restored};
use ups_store::StoreFault;

/// Which of the requests that were entered again stay in memory.
#[derive(Clone, Copy, Debug, PartialEq, Eq)]
pub(crate) enum Remembered {
    /// All of them.
    All,
    /// Those that something can still ask for.
    Needed,
}

/// The number of requests that are entered before some that nothing can ask for leave memory.
const BATCH: u64 = 128;

/// The number of those after which all leave that stayed for an event which was acknowledged meanwhile.
const TOUR: u64 = 65_536;

/// The calls that look at as many entries as can be in memory, 64 each.
const CALLS: u64 = MAX_HISTORY / 10 * 11 / 64 + 1;

/// Returns how often to let requests leave memory once so many are entered.
fn calls_behind(count: u64) -> u64 {
    if count % TOUR == 0 {
        return CALLS;
    }
    if count % BATCH == 0 { 1 } else { 0 }
}

impl Remembered {
    /// Returns `All` if all are to stay, and otherwise `Needed`.
    pub(crate) fn of(all: bool) -> Remembered {
        if all {
            return Remembered::All;
        }
        Remembered::Needed
    }

    /// Lets requests leave memory that need not stay, once `count` are entered: so there is always room for those that
    /// were entered in a run.
    fn let_go(self, manager: &mut Manager<Global>, count: u64)
        ensures history { manager.new.history ≡ manager.old.history }
        ensures settings { manager.new.settings ≡ manager.old.settings }
    {
        if self == Remembered::All {
            return;
        }
        for _ in 0..calls_behind(count) {
            let entries = manager.entries();
            manager.let_go(entries);
        }
    }
}

/// Enters the next request of a store, which has the number `number`, or leaves it out if allowed, and logs that.
/// Returns None at the end.
///
/// Errors: Read; Restore if the request is neither entered nor left out.
fn take_next<S: Store, R: Log>(
    telling: &R,
    alloc: Global,
    reading: &mut Reading<S>,
    number: u64,
    manager: &mut Manager<Global>,
    counts: &mut Restoration,
    may_leave_out: bool,
) -> Result<Option<Restored>, StartFault>
    ensures taken { IfOk result (λ found. IsClean (shown_by reading.new.replay) → TakesRecord reading.old.replay reading.new.replay manager.old manager.new counts.old counts.new may_leave_out found) }
    ensures ended { IfOk result (λ found. found ≡ None → IsTrue (has_ended reading.new.replay)) }
    ensures clean { IsClean (shown_by reading.new.replay) → IsClean (shown_by reading.old.replay) }
    ensures digested { OnOk result (IsDigested reading.old → IsDigested reading.new) }
    ensures written { OnOk result (All (λ e. IsWritableEntry e) manager.old.history → All (λ e. IsWritableEntry e) manager.new.history) }
    ensures settings { manager.new.settings ≡ manager.old.settings }
{
    let request = match reading.next_request() {
        Ok(Some(request)) => request,
        Ok(None) => return Ok(None),
        Err(fault) => return Err(StartFault::Read(fault)),
    };
    let operation = request.asked.request.operation;
    match counts.take(alloc, manager, &request.asked, may_leave_out) {
        Ok(Restored::Entered) => Ok(Some(Restored::Entered)),
        Ok(Restored::LeftOut) => {
            warn!(telling; target: "upsd", "store: request {number} ({operation}) is left out: it is not accepted after those before it, with these settings");
            Ok(Some(Restored::LeftOut))
        }
        Err(refusal) => Err(StartFault::Restore(RestoreFault {
            number,
            operation,
            refusal,
        })),
    }
}

/// Enters all requests of a store again, in their order, leaving requests out if allowed; counts them, and logs their
/// number every second. The reading then has the digest of all. Of the requests those stay in memory that are to be
/// remembered.
///
/// Errors: Read; Restore at the first request that is neither entered nor left out.
pub(crate) fn take_all<S: Store, R: Clock + Log>(
    telling: &R,
    alloc: Global,
    reading: &mut Reading<S>,
    manager: &mut Manager<Global>,
    may_leave_out: bool,
    remembered: Remembered,
) -> Result<Restoration, StartFault>
    requires first { given_out reading.old.replay ≡ [] }
    requires none { IsDigested reading.old }
    ensures taken { IfOk result (λ counts. IsClean (shown_by reading.new.replay) → AreTaken manager.old.settings manager.old.history (said (all_of reading.new.replay)) may_leave_out counts manager.new.history) }
    ensures same { OnOk result (IsClean (shown_by reading.new.replay) → all_of reading.new.replay ≡ all_of reading.old.replay) }
    ensures ended { OnOk result (IsTrue (has_ended reading.new.replay)) }
    ensures clean { IsClean (shown_by reading.new.replay) → IsClean (shown_by reading.old.replay) }
    ensures digested { OnOk result (AreDigested reading.new) }
    ensures written { OnOk result (All (λ e. IsWritableEntry e) manager.old.history → All (λ e. IsWritableEntry e) manager.new.history) }
    ensures settings { manager.new.settings ≡ manager.old.settings }
{
    let mut counts = Restoration::new();
    let mut progress = Progress::begin(telling);
    for before in 0..u64::MAX {
        let found = take_next(
            telling,
            alloc,
            reading,
            before + 1,
            manager,
            &mut counts,
            may_leave_out,
        )?;
        match found {
            Some(_) => {
                remembered.let_go(manager, before + 1);
                progress.tell(telling, before + 1);
            }
            None => return Ok(counts),
        }
    }
    Err(StartFault::Read(StoreFault::TooMany))
}
