//! Compacting the requests of a store of which most have left memory: they are read once more.

ghost use Rattle.std.specs.Prelude.{◌≡◌, ◌≤◌, List, [], map, length, false, All, IfOk, IfSome, IsTrue, OnOk};
ghost use Rattle.std.specs.Global.{Global};
ghost use Rattle.sqlite_trees.specs.View.{IsClean};
ghost use Rattle.ups_life.specs.declared.entry.Entry.{Entry};
ghost use Rattle.ups_life.specs.Steps.{past};
ghost use Rattle.ups_journal.specs.Columns.{recorded};
ghost use Rattle.ups_journal.specs.Writable.{IsWritableEntry};
ghost use Rattle.ups_compact.specs.Compacting.{compacted_for, left_for, steps_needed};
ghost use Rattle.ups_service.specs.Law.{is_legal};
ghost use Rattle.ups_restore.specs.declared.acknowledging.TheConstants.{COMPACTOR};
ghost use Rattle.ups_store.specs.Shown.{shown_by, all_of, given_out, has_ended};
ghost use Rattle.ups_start.specs.Carried.{CarriesNext};
ghost use Rattle.ups_start.specs.Digested.{IsDigested, AreDigested};
ghost use Rattle.ups_start.specs.Started.{said, moment_in};

use crate::compacting::{emptied, moment_of};
use crate::fault::StartFault;
use crate::reading::Reading;
use sqlite_trees::store::Store;
use std::alloc::Global;
use ups_compact::{KeptSteps, pays};
use ups_manager::Manager;
use ups_restore::{acknowledge, carry_record, steps_needed};
use ups_store::{Run, StoreFault};

/// Returns the steps of which a compaction loses nothing: those held, and those of which an event is pending.
///
/// Errors: Memory.
pub(crate) fn steps_to_keep(
    alloc: Global,
    manager: &Manager<Global>,
) -> Result<KeptSteps<Global>, StartFault>
    ensures { IfOk result (λ steps. steps ≡ steps_needed manager.now.settings (past manager.now.history)) }
{
    match steps_needed(alloc, manager) {
        Ok(steps) => Ok(steps),
        Err(_) => Err(StartFault::Memory),
    }
}

/// Enters the next request of a store into a manager if it is kept for these steps, unless the manager has more than `most`
/// requests already. Returns whether there was one.
///
/// Errors: Read; Compact if it is not entered.
fn carry_next<S: Store>(
    alloc: Global,
    reading: &mut Reading<S>,
    steps: &KeptSteps<Global>,
    fresh: &mut Manager<Global>,
    most: usize,
) -> Result<bool, StartFault>
    ensures carried { IfOk result (λ found. IsClean (shown_by reading.new.replay) → CarriesNext reading.old.replay reading.new.replay fresh.old.settings steps.now fresh.old.history fresh.new.history most found) }
    ensures more { length fresh.old.history ≤ length fresh.new.history }
    ensures ended { IfOk result (λ found. found ≡ false → IsTrue (has_ended reading.new.replay)) }
    ensures clean { IsClean (shown_by reading.new.replay) → IsClean (shown_by reading.old.replay) }
    ensures digested { OnOk result (IsDigested reading.old → IsDigested reading.new) }
    ensures settings { fresh.new.settings ≡ fresh.old.settings }
{
    let request = match reading.next_request() {
        Ok(Some(request)) => request,
        Ok(None) => return Ok(false),
        Err(fault) => return Err(StartFault::Read(fault)),
    };
    if fresh.entries() > most {
        return Ok(true);
    }
    match carry_record(alloc, steps, fresh, &request.asked) {
        Ok(()) => Ok(true),
        Err(fault) => Err(StartFault::Compact(fault)),
    }
}

/// Enters those requests of a store that are kept for these steps into a manager without requests: all of them, or more
/// than `most`.
///
/// Errors: Read; Compact at the first that is not entered.
pub(crate) fn carry_all<S: Store>(
    alloc: Global,
    reading: &mut Reading<S>,
    steps: &KeptSteps<Global>,
    fresh: &mut Manager<Global>,
    most: usize,
) -> Result<(), StartFault>
    requires first { given_out reading.old.replay ≡ [] }
    requires none { IsDigested reading.old }
    requires new { fresh.old.history ≡ [] }
    ensures carried { OnOk result (IsClean (shown_by reading.new.replay) → (h : List (Entry Global)) → All (λ e. IsWritableEntry e) h → map recorded h ≡ said (all_of reading.new.replay) → is_legal fresh.old.settings h → length fresh.new.history ≤ most → past fresh.new.history ≡ left_for fresh.old.settings steps.now (past h)) }
    ensures same { OnOk result (IsClean (shown_by reading.new.replay) → all_of reading.new.replay ≡ all_of reading.old.replay) }
    ensures ended { OnOk result (IsTrue (has_ended reading.new.replay)) }
    ensures clean { IsClean (shown_by reading.new.replay) → IsClean (shown_by reading.old.replay) }
    ensures digested { OnOk result (AreDigested reading.new) }
    ensures settings { fresh.new.settings ≡ fresh.old.settings }
{
    for _before in 0..u64::MAX {
        let found = carry_next(alloc, reading, steps, fresh, most)?;
        if !found {
            return Ok(());
        }
    }
    Err(StartFault::Read(StoreFault::TooMany))
}

/// Returns a manager with the compacted history of one that has entered all requests of a store, or None if a compaction
/// does not pay. It reads the requests once more, and takes the memory of those that are kept.
///
/// Errors: Read, Memory, Compact.
pub(crate) fn compacted_anew<S: Store>(
    alloc: Global,
    reading: &mut Reading<S>,
    about: &Run<'_>,
    manager: &Manager<Global>,
) -> Result<Option<Manager<Global>>, StartFault>
    requires ended { IsTrue (has_ended reading.old.replay) }
    requires written { All (λ e. IsWritableEntry e) manager.now.history }
    requires whole { IsClean (shown_by reading.old.replay) → said (all_of reading.old.replay) ≡ map recorded manager.now.history }
    ensures compacted { IfOk result (λ found. IfSome found (λ fresh. IsClean (shown_by reading.new.replay) → past fresh.history ≡ compacted_for COMPACTOR (moment_in about.now) manager.now.settings (steps_needed manager.now.settings (past manager.now.history)) (past manager.now.history))) }
    ensures same { OnOk result (IsClean (shown_by reading.new.replay) → all_of reading.new.replay ≡ all_of reading.old.replay) }
    ensures ended { OnOk result (IsTrue (has_ended reading.new.replay)) }
    ensures clean { IsClean (shown_by reading.new.replay) → IsClean (shown_by reading.old.replay) }
    ensures digested { OnOk result (AreDigested reading.new) }
    ensures settings { IfOk result (λ found. IfSome found (λ fresh. fresh.settings ≡ manager.now.settings)) }
{
    let steps = steps_to_keep(alloc, manager)?;
    let mut fresh = emptied(alloc, manager)?;
    let all = manager.entries();
    reading.again();
    carry_all(alloc, reading, &steps, &mut fresh, all / 2)?;
    if !pays(fresh.entries(), all) {
        return Ok(None);
    }
    match acknowledge(alloc, manager, &mut fresh, moment_of(about)) {
        Ok(()) => Ok(Some(fresh)),
        Err(fault) => Err(StartFault::Compact(fault)),
    }
}
