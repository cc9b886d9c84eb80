//! A ledger with drafts.

use std::alloc::Global;
use ups_journal::Record;
use ups_ledger::LedgerFault;

/// Permanent storage of records with drafts beside them: other records, which are written while the records still count,
/// and take their place in one commit. The contracts speak of records, drafts and crashes as those of
/// [`Ledger`](ups_ledger::Ledger) do.
pub trait DraftLedger: Drop {
    ghost use Rattle.std.specs.Prelude.{◌≡◌, ◌⊎◌, ◌+◌, ◌≤◌, ◌++◌, ℕ, List, [], true, length, take, drop, IfOk, OnOk, OnErr};
    ghost use Rattle.std.specs.Global.{Global};
    ghost use Rattle.ups_journal.specs.declared.record.Record.{Record};
    ghost use Rattle.ups_ledger.specs.Behind.{AreBehind};

    /// The records that are committed, oldest first.
    ghost kept: { Self → List (Record Global) };

    /// The drafts that are committed, oldest first.
    ghost drafts: { Self → List (Record Global) };

    /// The number of records that it had at first or that an append returned `Ok` for; after an exchange, that of the drafts.
    ghost told: { Self → ℕ };

    /// That it is sound.
    ghost is_sound: { Self → Type 0 };

    /// That its disk has done what it is supposed to do since the storage was last opened; so too if it is not open.
    ghost is_honest: { Self → Type 0 };

    /// That the storage was never opened anew.
    ghost is_first: { Self → Type 0 };

    /// That a crash can leave these records, if the disk has done what it is supposed to do.
    ghost recovers: { Self → List (Record Global) → Type 0 };

    /// While it is sound, a crash leaves what it has.
    ghost settled: { (l : Self) → is_sound l → (rs : List (Record Global)) → recovers l rs → rs ≡ kept l };

    /// Returns the number of the run of the program that appends, which no compaction resets; 0 if nothing is kept.
    fn run(&self) -> u64;

    /// Returns the number of records that are committed.
    fn len(&self) -> u64
        ensures { is_sound self.now → result ≡ length (kept self.now) };

    /// Returns whether it is open: if not, the next append opens it anew.
    fn is_up(&self) -> bool
        ensures sound { is_sound self.now → result ≡ true }
        ensures up { result ≡ true → is_first self.now → (rs : List (Record Global)) → recovers self.now rs → is_sound self.now };

    /// Appends records, all or none, and returns once they are committed.
    ///
    /// # Errors
    ///
    /// Those of [`Ledger::append`](ups_ledger::Ledger::append).
    fn append(&mut self, records: &[Record<Global>]) -> Result<(), LedgerFault>
        ensures put { OnOk result (is_sound self.new → kept self.new ≡ kept self.old ++ records.now) }
        ensures same { OnErr result (is_sound self.new → kept self.new ≡ kept self.old) }
        ensures drafts { is_sound self.new → drafts self.new ≡ drafts self.old }
        ensures sound { is_sound self.new → is_sound self.old }
        ensures behind { OnOk result (is_honest self.new → AreBehind (kept self.new) (told self.old) records.now) }
        ensures first { is_first self.new → is_first self.old }
        ensures crash { is_first self.new → (rs : List (Record Global)) → recovers self.new rs → recovers self.old rs ⊎ (is_sound self.old × (rs ≡ kept self.old ++ records.now)) }
        ensures left { OnOk result (is_first self.new → (rs : List (Record Global)) → recovers self.new rs → is_sound self.new × (rs ≡ kept self.new)) }
        ensures more { OnOk result (told self.new ≡ told self.old + length records.now) }
        ensures no_more { OnErr result (told self.new ≡ told self.old) };

    /// Tidies up, such as copying what is stored next to a file into it.
    fn tidy(&mut self)
        ensures same { is_sound self.new → kept self.new ≡ kept self.old }
        ensures drafts { is_sound self.new → drafts self.new ≡ drafts self.old }
        ensures sound { is_sound self.new → is_sound self.old }
        ensures told { told self.new ≡ told self.old }
        ensures first { is_first self.new → is_first self.old }
        ensures crash { (rs : List (Record Global)) → recovers self.new rs → recovers self.old rs ⊎ ((is_first self.old → is_sound self.old) × (rs ≡ kept self.old)) };

    /// Returns the committed records from an index on, at most `most`.
    ///
    /// # Errors
    ///
    /// Full if memory runs out; Write, Shut.
    fn read(&mut self, from: u64, most: usize) -> Result<Vec<Record<Global>, Global>, LedgerFault>
        ensures read { IfOk result (λ v. is_sound self.new → v.items ≡ take most (drop from (kept self.old))) }
        ensures same { is_sound self.new → kept self.new ≡ kept self.old }
        ensures drafts { is_sound self.new → drafts self.new ≡ drafts self.old }
        ensures sound { is_sound self.new → is_sound self.old }
        ensures told { told self.new ≡ told self.old }
        ensures first { is_first self.new → is_first self.old }
        ensures crash { is_first self.new → (rs : List (Record Global)) → recovers self.new rs → recovers self.old rs };

    /// Deletes drafts, at most `most`, and returns whether none is left, once that is committed.
    ///
    /// # Errors
    ///
    /// Full, Write, Shut.
    fn clear(&mut self, most: u32) -> Result<bool, LedgerFault>
        ensures none { IfOk result (λ cleared. cleared ≡ true → is_sound self.new → drafts self.new ≡ []) }
        ensures same { is_sound self.new → kept self.new ≡ kept self.old }
        ensures sound { is_sound self.new → is_sound self.old }
        ensures told { told self.new ≡ told self.old }
        ensures first { is_first self.new → is_first self.old }
        ensures crash { is_first self.new → (rs : List (Record Global)) → recovers self.new rs → recovers self.old rs ⊎ (is_sound self.old × (rs ≡ kept self.old)) };

    /// Appends drafts, all or none, and returns once they are committed. All drafts were deleted before the first.
    ///
    /// # Errors
    ///
    /// Full, Write, Shut.
    fn draft(&mut self, records: &[Record<Global>]) -> Result<(), LedgerFault>
        ensures put { OnOk result (is_sound self.new → drafts self.new ≡ drafts self.old ++ records.now) }
        ensures same { is_sound self.new → kept self.new ≡ kept self.old }
        ensures sound { is_sound self.new → is_sound self.old }
        ensures told { told self.new ≡ told self.old }
        ensures first { is_first self.new → is_first self.old }
        ensures crash { is_first self.new → (rs : List (Record Global)) → recovers self.new rs → recovers self.old rs ⊎ (is_sound self.old × (rs ≡ kept self.old)) };

    /// Puts the drafts in the place of the records, and returns once that is committed: until then, the records count.
    ///
    /// # Errors
    ///
    /// Full: nothing has changed. Write, Shut: nobody knows which of them count if the storage is not open then, which
    /// [`Self::settle`] finds out. Lost: the ledger takes no more records.
    fn exchange(&mut self) -> Result<(), LedgerFault>
        ensures put { OnOk result (is_sound self.new → kept self.new ≡ drafts self.old) }
        ensures same { OnErr result (is_sound self.new → kept self.new ≡ kept self.old) }
        ensures sound { is_sound self.new → is_sound self.old }
        ensures first { is_first self.new → is_first self.old }
        ensures crash { is_first self.new → (rs : List (Record Global)) → recovers self.new rs → recovers self.old rs ⊎ (is_sound self.old × (rs ≡ drafts self.old)) }
        ensures left { OnOk result (is_first self.new → (rs : List (Record Global)) → recovers self.new rs → is_sound self.new × (rs ≡ kept self.new)) };

    /// Opens the storage anew after an exchange of which nobody knows whether it was made, and returns whether it was: by
    /// their number and their digest, the records are the drafts, or else those that counted before. Appends go on from
    /// there.
    ///
    /// # Errors
    ///
    /// Shut if the storage can't be opened now, or no exchange is in doubt; Lost if the records are neither.
    fn settle(&mut self) -> Result<bool, LedgerFault>
        ensures anew { OnOk result (¬ is_first self.new) }
        ensures same { is_sound self.new → kept self.new ≡ kept self.old }
        ensures sound { is_sound self.new → is_sound self.old }
        ensures first { is_first self.new → is_first self.old }
        ensures crash { is_first self.new → (rs : List (Record Global)) → recovers self.new rs → recovers self.old rs };
}
