//! Enters records again.

ghost use Rattle.std.specs.Prelude.{◌≡◌, [], ◌∷◌, ◌++◌, List, All, OnOk, OnErr, IfErr, MatchResult};
ghost use Rattle.ups_life.specs.declared.entry.Entry.{Entry};
ghost use Rattle.ups_journal.specs.Writable.{IsWritableEntry};
ghost use Rattle.ups_service.specs.Law.{is_legal};
ghost use Rattle.ups_restore.specs.Replaying.{IsWant, IsRecordOf, IsFailure, AreOf, GoesOnBy, StopsAtRecord};

use crate::fault::{RestoreFault, RestoreRefusal};
use crate::replaying::replay_one;
use std::alloc::Allocator;
use ups_journal::{Record, entry_of};
use ups_manager::Manager;

/// Enters the entry of a record again, after those in the manager.
///
/// # Errors
///
/// `Record` if it is not the record of an entry, or memory ran out; `Entry` if its entry is not entered. The manager
/// then stays the same.
pub fn restore_one<A: Allocator + Copy>(
    alloc: A,
    manager: &mut Manager<A>,
    stored: &Record<A>,
) -> Result<(), RestoreRefusal>
    ensures entered { OnOk result (GoesOnBy manager.old.history (stored.now ∷ []) manager.new.history) }
    ensures written { OnOk result (All (λ e. IsWritableEntry e) manager.old.history → All (λ e. IsWritableEntry e) manager.new.history) }
    ensures only { (e : Entry A) → IsRecordOf manager.old.settings manager.old.history stored.now e → MatchResult result (λ _. manager.new.history ≡ manager.old.history ++ e ∷ []) IsWant }
    ensures why { IfErr result (IsFailure manager.old.settings manager.old.history stored.now) }
    ensures stays { OnErr result (manager.new.history ≡ manager.old.history) }
    ensures settings { manager.new.settings ≡ manager.old.settings }
    ensures legal { is_legal manager.new.settings manager.new.history }
{
    let entry = match entry_of(alloc, stored) {
        Ok(entry) => entry,
        Err(fault) => {
            let _history = manager.history();
            return Err(RestoreRefusal::Record(fault));
        }
    };
    match replay_one(manager, entry) {
        Ok(()) => Ok(()),
        Err(refusal) => Err(RestoreRefusal::Entry(refusal)),
    }
}

/// Enters the entries of records again, one after the other. If these are the records of entries that legally continue
/// the manager's history, it then has exactly these entries after those that it had.
///
/// # Errors
///
/// `Record` or `Entry` at the first record that is not entered; those before it are. With records as they were made,
/// this happens only if memory runs out.
pub fn restore<A: Allocator + Copy>(
    alloc: A,
    manager: &mut Manager<A>,
    records: &[Record<A>],
) -> Result<(), RestoreFault>
    ensures entered { OnOk result (GoesOnBy manager.old.history records.now manager.new.history) }
    ensures only { (es : List (Entry A)) → AreOf manager.old.settings manager.old.history records.now es → MatchResult result (λ _. manager.new.history ≡ manager.old.history ++ es) (λ f. IsWant f.refusal) }
    ensures stops { IfErr result (λ f. StopsAtRecord manager.old.settings manager.old.history records.now f manager.new.history) }
    ensures settings { manager.new.settings ≡ manager.old.settings }
    ensures legal { is_legal manager.new.settings manager.new.history }
{
    let _history = manager.history();
    for (place, stored) in records.iter().enumerate() {
        if let Err(refusal) = restore_one(alloc, manager, stored) {
            return Err(RestoreFault {
                number: (place + 1) as u64,
                operation: stored.request.operation,
                refusal,
            });
        }
    }
    Ok(())
}
