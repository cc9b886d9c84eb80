//! A manager with the compacted history of another.

ghost use Rattle.std.specs.Prelude.{◌≡◌, ◌-◌, nat_lt, List, [], ◌∷◌, ◌++◌, true, false, length, map, All, OnOk, IfOk, IfErr, MatchResult};
ghost use Rattle.std.specs.Global.{Global};
ghost use Rattle.ups_life.specs.declared.entry.Entry.{Entry};
ghost use Rattle.ups_life.specs.History.{legal};
ghost use Rattle.ups_life.specs.Settings.{IsMoment};
ghost use Rattle.ups_life.specs.Steps.{past};
ghost use Rattle.ups_journal.specs.Columns.{recorded};
ghost use Rattle.ups_service.specs.Law.{is_legal};
ghost use Rattle.ups_compact.specs.Compacting.{left, left_for, compacted_for, steps_needed, has_title_twice};
ghost use Rattle.ups_restore.specs.declared.acknowledging.TheConstants.{COMPACTOR};
ghost use Rattle.ups_restore.specs.Compacting.{HasPut, IsNoRefusal};

use crate::acknowledging::acknowledge;
use crate::carrying::{carry_record, enter_reservation, is_sweep};
use crate::fault::{CompactFault, RestoreRefusal};
use crate::needed::steps_needed;
use crate::putting::put_history;
use std::alloc::{AllocError, Global};
use ups_compact::laws::with_the_steps_needed_nothing_is_lost;
use ups_compact::{KeptSteps, pays};
use ups_journal::{RecordingFault, record_of};
use ups_ledger::Ledger;
use ups_life::Entry;
use ups_manager::Manager;

/// Enters an entry of another history again, as read from its record, after those in `fresh`, if it is kept for these
/// steps, and otherwise what remains of it. `fresh` has what is kept of the entries before it.
///
/// Errors: those of an entry that can't be recorded; lack of memory. The manager then stays the same.
fn carry(
    alloc: Global,
    steps: &KeptSteps<Global>,
    fresh: &mut Manager<Global>,
    entry: &Entry<Global>,
) -> Result<(), CompactFault>
    ensures carried { (es : List (Entry Global)) → legal fresh.old.settings (entry.now ∷ es) ≡ true → past fresh.old.history ≡ left_for fresh.old.settings steps.now es → MatchResult result (λ _. past fresh.new.history ≡ left_for fresh.old.settings steps.now (entry.now ∷ es)) (λ fault. IsMoment entry.now.moment → IsNoRefusal fault) }
    ensures settings { fresh.new.settings ≡ fresh.old.settings }
    ensures legal { is_legal fresh.new.settings fresh.new.history }
{
    let _history = fresh.history();
    if !is_sweep(&entry.request) && !steps.is_left(&entry.request) {
        return match enter_reservation(steps, fresh, entry) {
            Ok(()) => Ok(()),
            Err(refusal) => Err(CompactFault::Entering(RestoreRefusal::Entry(refusal))),
        };
    }
    let stored = record_of(alloc, entry)?;
    carry_record(alloc, steps, fresh, &stored)
}

/// Enters the entries of another history that are kept for these steps into a manager without entries.
///
/// Errors: at the first entry that is not entered: those of one that can't be recorded; lack of memory.
fn carry_each(
    alloc: Global,
    steps: &KeptSteps<Global>,
    fresh: &mut Manager<Global>,
    history: &[Entry<Global>],
) -> Result<(), CompactFault>
    requires moments { All (λ e. IsMoment e.moment) history.now }
    requires legally { is_legal fresh.old.settings history.now }
    requires new { fresh.old.history ≡ [] }
    ensures entered { MatchResult result (λ _. past fresh.new.history ≡ left_for fresh.old.settings steps.now (past history.now)) IsNoRefusal }
    ensures settings { fresh.new.settings ≡ fresh.old.settings }
    ensures legal { is_legal fresh.new.settings fresh.new.history }
{
    let _history = fresh.history();
    for entry in history {
        if let Err(fault) = carry(alloc, steps, fresh, entry) {
            return Err(fault);
        }
    }
    Ok(())
}

/// Gives a new manager the compacted history of another: the entries that are kept for the steps needed, which are those
/// held and those of which an event is pending, with a reservation of the UID in the place of the creation of each other
/// step, followed by one acknowledgement of each watcher that knows some of its events. So no watcher is told again what
/// it knows, none misses a report, and no UID is used again. The acknowledgements are made at `moment`, by
/// [`COMPACTOR`](crate::COMPACTOR).
///
/// # Errors
///
/// `Recording` at the first entry that has no record, or if one has left memory; `Entering` at the first that is not
/// entered (unless two peers have the same title, only if memory runs out); `Memory` if memory runs out.
pub fn compact(
    alloc: Global,
    manager: &Manager<Global>,
    fresh: &mut Manager<Global>,
    moment: u64,
) -> Result<(), CompactFault>
    requires moment { IsMoment moment }
    requires settings { fresh.old.settings ≡ manager.now.settings }
    requires new { fresh.old.history ≡ [] }
    ensures compacted { OnOk result (past fresh.new.history ≡ compacted_for COMPACTOR moment manager.now.settings (steps_needed manager.now.settings (past manager.now.history)) (past manager.now.history)) }
    ensures only { has_title_twice manager.now.settings.peers ≡ false → IfErr result IsNoRefusal }
    ensures settings { fresh.new.settings ≡ fresh.old.settings }
    ensures legal { is_legal fresh.new.settings fresh.new.history }
{
    with_the_steps_needed_nothing_is_lost::<Global>();
    let _history = fresh.history();
    let Some(history) = manager.whole() else {
        return Err(CompactFault::Recording(RecordingFault::Gone));
    };
    let steps = steps_needed(alloc, manager)?;
    carry_each(alloc, &steps, fresh, history)?;
    acknowledge(alloc, manager, fresh, moment)
}

/// Gives a new manager the compacted history of another, as [`compact`] does. Then appends the records of the new history to
/// a ledger, in groups.
///
/// # Errors
///
/// Those of [`compact`]; `Ledger` if the ledger does not take records (those that it took stay there).
pub fn compact_into<L: Ledger>(
    alloc: Global,
    manager: &Manager<Global>,
    fresh: &mut Manager<Global>,
    moment: u64,
    ledger: &mut L,
) -> Result<(), CompactFault>
    requires moment { IsMoment moment }
    requires settings { fresh.old.settings ≡ manager.now.settings }
    requires new { fresh.old.history ≡ [] }
    ensures compacted { OnOk result (past fresh.new.history ≡ compacted_for COMPACTOR moment manager.now.settings (steps_needed manager.now.settings (past manager.now.history)) (past manager.now.history)) }
    ensures kept { OnOk result (L.is_sound ledger.new → L.kept ledger.new ≡ L.kept ledger.old ++ map recorded fresh.new.history) }
    ensures begun { L.is_sound ledger.new → HasPut (L.kept ledger.old) fresh.new.history (L.kept ledger.new) }
    ensures sound { L.is_sound ledger.new → L.is_sound ledger.old }
    ensures only { has_title_twice manager.now.settings.peers ≡ false → IfErr result IsNoRefusal }
    ensures settings { fresh.new.settings ≡ fresh.old.settings }
    ensures legal { is_legal fresh.new.settings fresh.new.history }
{
    compact(alloc, manager, fresh, moment)?;
    match fresh.whole() {
        Some(history) => put_history(alloc, history, ledger),
        None => Err(CompactFault::Recording(RecordingFault::Gone)),
    }
}

/// Returns whether a compaction of a manager's history pays: fewer of its entries are left for the steps needed than go,
/// sweeps and new reservations not counted.
///
/// # Errors
///
/// If memory runs out, or if an entry has left memory.
pub fn compaction_pays(alloc: Global, manager: &Manager<Global>) -> Result<bool, AllocError>
    ensures { IfOk result (λ pays. pays ≡ (let after = length (left (steps_needed manager.now.settings (past manager.now.history)) (past manager.now.history)) in nat_lt after (length manager.now.history - after))) }
{
    let Ok(steps) = steps_needed(alloc, manager) else {
        return Err(AllocError);
    };
    let Some(history) = manager.whole() else {
        return Err(AllocError);
    };
    Ok(pays(steps.count_left(history), history.len()))
}
