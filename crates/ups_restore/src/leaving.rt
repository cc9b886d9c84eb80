//! Enters records again one by one, and may leave some of them out.

ghost use Rattle.std.specs.Prelude.{◌≡◌, [], ◌∷◌, ◌++◌, List, All, OnOk, OnErr, IfOk, IfErr, MatchResult};
ghost use Rattle.ups_life.specs.declared.entry.Entry.{Entry};
ghost use Rattle.ups_journal.specs.Writable.{IsWritableEntry};
ghost use Rattle.ups_service.specs.Law.{is_legal};
ghost use Rattle.ups_restore.specs.declared.leaving.Restored.TheVariants.{Entered};
ghost use Rattle.ups_restore.specs.Replaying.{IsRecordOf, AreOf, IsWant};
ghost use Rattle.ups_restore.specs.Leaving.{Becomes, IsNone, counted_with, AreTaken, StopsTaking};

use crate::fault::{Refusal, RestoreFault, RestoreRefusal};
use crate::restoring::restore_one;
use std::alloc::Allocator;
use ups_journal::Record;
use ups_manager::Manager;

/// What became of a record.
#[derive(Clone, Copy, Debug, PartialEq, Eq)]
pub enum Restored {
    /// Its entry was entered.
    Entered,
    /// It was left out: its entry is not accepted after those before it, with these settings.
    LeftOut,
}

/// The numbers of the records that were entered again and of those that were left out.
#[derive(Clone, Copy, Debug, PartialEq, Eq)]
pub struct Restoration {
    /// The number of records that were entered.
    pub entered: u64,
    /// The number of records that were left out.
    pub left_out: u64,
}

impl Restoration {
    /// Returns counts of zero.
    pub fn new() -> Restoration
        ensures { result ≡ record { entered = 0; left_out = 0 } }
    {
        Restoration {
            entered: 0,
            left_out: 0,
        }
    }

    /// Enters the entry of a record again, after those in the manager, or leaves the record out if it may be left out
    /// and its entry is not accepted after those before it, with the manager's settings. Counts the record accordingly.
    ///
    /// # Errors
    ///
    /// `Record` if it is not the record of an entry, or memory ran out; `Entry` if its entry is not entered, with
    /// `Refused` only if the record may not be left out. The manager and the counts then stay the same.
    pub fn take<A: Allocator + Copy>(
        &mut self,
        alloc: A,
        manager: &mut Manager<A>,
        stored: &Record<A>,
        may_be_left_out: bool,
    ) -> Result<Restored, RestoreRefusal>
        ensures became { IfOk result (λ r. Becomes manager.old.settings manager.old.history stored.now may_be_left_out r manager.new.history) }
        ensures counts { IfOk result (λ r. self.new ≡ counted_with self.old r) }
        ensures written { OnOk result (All (λ e. IsWritableEntry e) manager.old.history → All (λ e. IsWritableEntry e) manager.new.history) }
        ensures only { (e : Entry A) → IsRecordOf manager.old.settings manager.old.history stored.now e → MatchResult result (λ r. (r ≡ Entered) × (manager.new.history ≡ manager.old.history ++ e ∷ [])) IsWant }
        ensures why { IfErr result (IsNone manager.old.settings manager.old.history stored.now may_be_left_out) }
        ensures stays { OnErr result (manager.new.history ≡ manager.old.history) }
        ensures same { OnErr result (self.new ≡ self.old) }
        ensures settings { manager.new.settings ≡ manager.old.settings }
        ensures legal { is_legal manager.new.settings manager.new.history }
    {
        match restore_one(alloc, manager, stored) {
            Ok(()) => {
                self.entered = self.entered.saturating_add(1);
                Ok(Restored::Entered)
            }
            Err(RestoreRefusal::Entry(Refusal::Refused)) if may_be_left_out => {
                self.left_out = self.left_out.saturating_add(1);
                Ok(Restored::LeftOut)
            }
            Err(refusal) => Err(refusal),
        }
    }
}

/// Enters the entries of records again, one after the other, or leaves records out if they may be, as
/// [`Restoration::take`] does, and counts them.
///
/// # Errors
///
/// `Record` or `Entry`, with the number of the first record that is neither entered nor left out; those before it are.
/// With records as they were made, and the settings of their time, this happens only if memory runs out, and none of
/// them is left out.
pub fn restore_each<A: Allocator + Copy>(
    alloc: A,
    manager: &mut Manager<A>,
    records: &[Record<A>],
    may_be_left_out: bool,
) -> Result<Restoration, RestoreFault>
    ensures taken { IfOk result (λ counts. AreTaken manager.old.settings manager.old.history records.now may_be_left_out counts manager.new.history) }
    ensures only { (es : List (Entry A)) → AreOf manager.old.settings manager.old.history records.now es → MatchResult result (λ _. manager.new.history ≡ manager.old.history ++ es) (λ f. IsWant f.refusal) }
    ensures stops { IfErr result (λ f. StopsTaking manager.old.settings manager.old.history records.now may_be_left_out f manager.new.history) }
    ensures settings { manager.new.settings ≡ manager.old.settings }
    ensures legal { is_legal manager.new.settings manager.new.history }
{
    let _history = manager.history();
    let mut counts = Restoration::new();
    for (place, stored) in records.iter().enumerate() {
        if let Err(refusal) = counts.take(alloc, manager, stored, may_be_left_out) {
            return Err(RestoreFault {
                number: (place + 1) as u64,
                operation: stored.request.operation,
                refusal,
            });
        }
    }
    Ok(counts)
}
