//! Entering those entries of a history that are kept in a compacted one.

ghost use Rattle.std.specs.Prelude.{◌≡◌, ◌≤◌, ◌∷◌, ℕ, List, length, true, false, MatchResult};
ghost use Rattle.std.specs.Global.{Global};
ghost use Rattle.ups_life.specs.declared.entry.Entry.{Entry};
ghost use Rattle.ups_life.specs.History.{legal};
ghost use Rattle.ups_life.specs.Settings.{IsMoment};
ghost use Rattle.ups_life.specs.Steps.{past};
ghost use Rattle.ups_journal.specs.Columns.{recorded};
ghost use Rattle.ups_journal.specs.Writable.{IsWritableEntry};
ghost use Rattle.ups_service.specs.Law.{is_legal};
ghost use Rattle.ups_compact.specs.Compacting.{is_left, left_for};
ghost use Rattle.ups_restore.specs.declared.fault.Refusal.TheVariants.{NoRoom};
ghost use Rattle.ups_restore.specs.Compacting.{is_sweep, IsNoRefusal};

use crate::fault::{CompactFault, Refusal, RestoreRefusal};
use crate::replaying::replay_one;
use std::alloc::Global;
use ups_compact::{KeptSteps, reservation};
use ups_journal::{Record, entry_of};
use ups_life::{Entry, Request};
use ups_manager::Manager;

/// Returns whether a request is a sweep.
pub(crate) fn is_sweep(request: &Request<Global>) -> bool
    ensures { result ≡ is_sweep request.now }
{
    match request {
        Request::Sweep => true,
        _ => false,
    }
}

/// Enters a sweep, after the entries in the manager, if it removes a step there. Of the steps for which a history is kept
/// it removes those that it removed in the whole history.
///
/// Errors: `BadMoment` or `NoRoom`; the manager then stays the same.
fn enter_sweep(fresh: &mut Manager<Global>, entry: Entry<Global>) -> Result<(), Refusal>
    requires sweep { is_sweep entry.request ≡ true }
    ensures carried { (steps : List (List ℕ)) → (es : List (Entry Global)) → legal fresh.old.settings (entry ∷ es) ≡ true → past fresh.old.history ≡ left_for fresh.old.settings steps es → MatchResult result (λ _. past fresh.new.history ≡ left_for fresh.old.settings steps (entry ∷ es)) (λ refusal. IsMoment entry.moment → refusal ≡ NoRoom) }
    ensures more { length fresh.old.history ≤ length fresh.new.history }
    ensures settings { fresh.new.settings ≡ fresh.old.settings }
    ensures legal { is_legal fresh.new.settings fresh.new.history }
{
    match replay_one(fresh, entry) {
        Ok(()) => Ok(()),
        Err(Refusal::Refused) => Ok(()),
        Err(refusal) => Err(refusal),
    }
}

/// Enters what remains of an entry that is not kept for these steps, after those in the manager: of a creation, the
/// reservation of its UID (PS3.4 CC.2.5).
///
/// Errors: `BadMoment`, `Refused` or `NoRoom`; the manager then stays the same.
pub(crate) fn enter_reservation(
    steps: &KeptSteps<Global>,
    fresh: &mut Manager<Global>,
    entry: &Entry<Global>,
) -> Result<(), Refusal>
    requires off { is_left steps.now entry.now.request ≡ false }
    requires other { is_sweep entry.now.request ≡ false }
    ensures carried { (es : List (Entry Global)) → legal fresh.old.settings (entry.now ∷ es) ≡ true → past fresh.old.history ≡ left_for fresh.old.settings steps.now es → MatchResult result (λ _. past fresh.new.history ≡ left_for fresh.old.settings steps.now (entry.now ∷ es)) (λ refusal. IsMoment entry.now.moment → refusal ≡ NoRoom) }
    ensures more { length fresh.old.history ≤ length fresh.new.history }
    ensures settings { fresh.new.settings ≡ fresh.old.settings }
    ensures legal { is_legal fresh.new.settings fresh.new.history }
{
    match reservation(entry) {
        Some(reserving) => replay_one(fresh, reserving),
        None => {
            let _history = fresh.history();
            Ok(())
        }
    }
}

/// Enters an entry, after those in the manager, if it is kept for these steps: it is left for them, or is a sweep that
/// removes one of them. Otherwise enters what remains of it.
///
/// Errors: `BadMoment`, `Refused` or `NoRoom`; the manager then stays the same.
fn enter_kept(
    steps: &KeptSteps<Global>,
    fresh: &mut Manager<Global>,
    entry: Entry<Global>,
) -> Result<(), Refusal>
    ensures carried { (es : List (Entry Global)) → legal fresh.old.settings (entry ∷ es) ≡ true → past fresh.old.history ≡ left_for fresh.old.settings steps.now es → MatchResult result (λ _. past fresh.new.history ≡ left_for fresh.old.settings steps.now (entry ∷ es)) (λ refusal. IsMoment entry.moment → refusal ≡ NoRoom) }
    ensures more { length fresh.old.history ≤ length fresh.new.history }
    ensures settings { fresh.new.settings ≡ fresh.old.settings }
    ensures legal { is_legal fresh.new.settings fresh.new.history }
{
    if is_sweep(&entry.request) {
        return enter_sweep(fresh, entry);
    }
    if steps.is_left(&entry.request) {
        return replay_one(fresh, entry);
    }
    enter_reservation(steps, fresh, &entry)
}

/// Enters the entry of a record of another history, after those in the manager, if it is kept for these steps: it is left
/// for them, or is a sweep that removes one of them. Of another creation it enters a reservation of the UID. The manager
/// has what is kept of the entries before it.
///
/// # Errors
///
/// `Entering` if it is not the record of an entry, or its entry is not entered. The manager then stays the same. It is only
/// for want of memory or room if the entry was accepted in the other history, and its moment has a date.
pub fn carry_record(
    alloc: Global,
    steps: &KeptSteps<Global>,
    fresh: &mut Manager<Global>,
    stored: &Record<Global>,
) -> Result<(), CompactFault>
    ensures carried { (e : Entry Global) → IsWritableEntry e → recorded e ≡ stored.now → (es : List (Entry Global)) → legal fresh.old.settings (e ∷ es) ≡ true → past fresh.old.history ≡ left_for fresh.old.settings steps.now es → MatchResult result (λ _. past fresh.new.history ≡ left_for fresh.old.settings steps.now (e ∷ es)) (λ fault. IsMoment e.moment → IsNoRefusal fault) }
    ensures more { length fresh.old.history ≤ length fresh.new.history }
    ensures settings { fresh.new.settings ≡ fresh.old.settings }
    ensures legal { is_legal fresh.new.settings fresh.new.history }
{
    let entry = match entry_of(alloc, stored) {
        Ok(entry) => entry,
        Err(fault) => {
            let _history = fresh.history();
            return Err(CompactFault::Entering(RestoreRefusal::Record(fault)));
        }
    };
    match enter_kept(steps, fresh, entry) {
        Ok(()) => Ok(()),
        Err(refusal) => Err(CompactFault::Entering(RestoreRefusal::Entry(refusal))),
    }
}
