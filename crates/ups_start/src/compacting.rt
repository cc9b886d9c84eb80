//! Compacting a store at a start.

ghost use Rattle.std.specs.Prelude.{◌≡◌, ◌≤◌, [], map, length, IfOk, IsTrue, OnOk};
ghost use Rattle.sqlite_trees.specs.View.{IsClean};
ghost use Rattle.ups_life.specs.Settings.{IsMoment};
ghost use Rattle.ups_life.specs.Steps.{past};
ghost use Rattle.ups_compact.specs.Compacting.{compacted_for, steps_needed};
ghost use Rattle.ups_journal.specs.Columns.{recorded};
ghost use Rattle.ups_restore.specs.declared.acknowledging.TheConstants.{COMPACTOR};
ghost use Rattle.ups_store.specs.Shown.{requests_shown, requests};
ghost use Rattle.ups_start.specs.Started.{said, moment_in};

use crate::beginning::StartedRun;
use crate::fault::StartFault;
use crate::rewriting::Anew;
use log::{Log, info};
use sqlite_trees::store::Store;
use std::alloc::Global;
use ups_life::{MAX_MOMENT, MAX_PEERS};
use ups_manager::{LASTING_LIMIT, Manager};
use ups_restore::compact_into;
use ups_store::Run;

/// Returns a manager with the settings of another, without history.
///
/// Errors: Memory.
pub(crate) fn emptied(
    alloc: Global,
    manager: &Manager<Global>,
) -> Result<Manager<Global>, StartFault>
    ensures settings { IfOk result (λ fresh. fresh.settings ≡ manager.now.settings) }
    ensures history { IfOk result (λ fresh. fresh.history ≡ []) }
{
    let peers = manager.peers();
    if peers.len() > MAX_PEERS {
        return Err(StartFault::Memory);
    }
    let (keep, offset, limit) = (manager.keep(), manager.offset(), manager.limit());
    let made = if limit == LASTING_LIMIT {
        Manager::lasting(alloc, peers, keep, offset)
    } else {
        Manager::new(alloc, peers, keep, offset, limit)
    };
    match made {
        Ok(fresh) => Ok(fresh),
        Err(_) => Err(StartFault::Memory),
    }
}

/// Returns the time at which a run began, or the last one that has a date if it is later.
pub(crate) fn moment_of(about: &Run<'_>) -> u64
    ensures is { result ≡ moment_in about.now }
    ensures dated { IsMoment result }
{
    about.moment.min(MAX_MOMENT)
}

/// Replaces the requests of the store by those of the compacted history of a manager, and gives a new manager that
/// history.
///
/// Errors: Write, Compact. The store keeps its requests, or may have the new ones if the commit failed.
pub(crate) fn compacted_to<S: Store + Drop>(
    alloc: Global,
    begun: StartedRun<S>,
    about: &Run<'_>,
    manager: &Manager<Global>,
    fresh: &mut Manager<Global>,
) -> Result<StartedRun<S>, StartFault>
    requires settings { fresh.old.settings ≡ manager.now.settings }
    requires new { fresh.old.history ≡ [] }
    ensures compacted { OnOk result (past fresh.new.history ≡ compacted_for COMPACTOR (moment_in about.now) manager.now.settings (steps_needed manager.now.settings (past manager.now.history)) (past manager.now.history)) }
    ensures kept { IfOk result (λ b. IsClean (requests_shown b.store) → said (requests b.store) ≡ map recorded fresh.new.history) }
    ensures is_open { IfOk result (λ b. IsClean (requests_shown b.store) → IsTrue (requests_shown b.store).is_open) }
    ensures clean { IfOk result (λ b. IsClean (requests_shown b.store) → IsClean (requests_shown begun.store)) }
    ensures settings { fresh.new.settings ≡ fresh.old.settings }
{
    let mut anew = match Anew::begin(begun) {
        Ok(anew) => anew,
        Err(fault) => return Err(fault),
    };
    match compact_into(alloc, manager, fresh, moment_of(about), &mut anew) {
        Ok(()) => anew.commit(about),
        Err(fault) => Err(StartFault::Compact(fault)),
    }
}

/// Logs that a store was compacted.
pub(crate) fn tell_compacted<R: Log>(telling: &R, before: usize, after: usize) {
    info!(telling; target: "upsd", "store: compacted from {before} requests to {after}");
}

/// Replaces the requests of the store and the history of the manager by the compacted history.
///
/// Errors: Write, Compact, Memory. The store keeps its requests, or may have the new ones if the commit failed; the
/// manager is as it was.
pub(crate) fn compacted<S: Store + Drop, R: Log>(
    alloc: Global,
    telling: &R,
    begun: StartedRun<S>,
    about: &Run<'_>,
    manager: &mut Manager<Global>,
) -> Result<StartedRun<S>, StartFault>
    ensures compacted { OnOk result (past manager.new.history ≡ compacted_for COMPACTOR (moment_in about.now) manager.old.settings (steps_needed manager.old.settings (past manager.old.history)) (past manager.old.history)) }
    ensures kept { IfOk result (λ b. IsClean (requests_shown b.store) → said (requests b.store) ≡ map recorded manager.new.history) }
    ensures is_open { IfOk result (λ b. IsClean (requests_shown b.store) → IsTrue (requests_shown b.store).is_open) }
    ensures clean { IfOk result (λ b. IsClean (requests_shown b.store) → IsClean (requests_shown begun.store)) }
    ensures settings { manager.new.settings ≡ manager.old.settings }
{
    let mut fresh = match emptied(alloc, manager) {
        Ok(fresh) => fresh,
        Err(fault) => return Err(fault),
    };
    let begun = match compacted_to(alloc, begun, about, manager, &mut fresh) {
        Ok(begun) => begun,
        Err(fault) => return Err(fault),
    };
    tell_compacted(telling, manager.entries(), fresh.entries());
    *manager = fresh;
    Ok(begun)
}
