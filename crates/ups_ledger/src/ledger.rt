//! Permanent storage of records.

use crate::disposing::Disposer;
use crate::fault::LedgerFault;
use crate::tending::Tending;
use std::alloc::Global;
use ups_journal::Record;

/// Permanent storage of records, such as a file. Most contracts are about a sound ledger: one whose disk has done what
/// it is supposed to do, and that no failed write has ever shut. Those on [`Self::append`] that speak of an honest one
/// ask for no more than the first, so they also say what an append has done that opened the storage anew. Those on a
/// crash ask for no more than that the storage was never opened anew, so they speak of failed calls too.
pub trait Ledger: Drop {
    ghost use Rattle.std.specs.Prelude.{◌≡◌, ◌⊎◌, ◌+◌, ◌++◌, ℕ, List, length, OnOk, OnErr};
    ghost use Rattle.std.specs.Global.{Global};
    ghost use Rattle.ups_journal.specs.declared.record.Record.{Record};
    ghost use Rattle.ups_ledger.specs.Behind.{AreBehind};

    /// The records that are committed, oldest first.
    ghost kept: { Self → List (Record Global) };

    /// The number of records that it had at first or that an append returned `Ok` for.
    ghost told: { Self → ℕ };

    /// That it is sound.
    ghost is_sound: { Self → Type 0 };

    /// That its disk has done what it is supposed to do since the storage was last opened; so too if it is not open.
    ghost is_honest: { Self → Type 0 };

    /// That the storage was never opened anew.
    ghost is_first: { Self → Type 0 };

    /// That a crash can leave these records, if the disk has done what it is supposed to do.
    ghost recovers: { Self → List (Record Global) → Type 0 };

    /// Returns the number of the run of the program that appends, which no compaction resets; 0 if nothing is kept.
    fn run(&self) -> u64;

    /// Appends records, all or none, and returns once they are committed.
    ///
    /// # Errors
    ///
    /// Full: nothing is appended. Write, Shut: the records are appended or not, which the next append finds out if it is
    /// handed these records again, with or without others behind them. Lost: the ledger takes no more records.
    fn append(&mut self, records: &[Record<Global>]) -> Result<(), LedgerFault>
        ensures put { OnOk result (is_sound self.new → kept self.new ≡ kept self.old ++ records.now) }
        ensures same { OnErr result (is_sound self.new → kept self.new ≡ kept self.old) }
        ensures sound { is_sound self.new → is_sound self.old }
        ensures behind { OnOk result (is_honest self.new → AreBehind (kept self.new) (told self.old) records.now) }
        ensures first { is_first self.new → is_first self.old }
        ensures crash { is_first self.new → (rs : List (Record Global)) → recovers self.new rs → recovers self.old rs ⊎ (is_sound self.old × (rs ≡ kept self.old ++ records.now)) }
        ensures left { OnOk result (is_first self.new → (rs : List (Record Global)) → recovers self.new rs → is_sound self.new × (rs ≡ kept self.new)) }
        ensures more { OnOk result (told self.new ≡ told self.old + length records.now) }
        ensures no_more { OnErr result (told self.new ≡ told self.old) };

    /// Tidies up, such as copying what is stored next to a file into it. Call it when no requests arrive. What is
    /// committed stays, and so does what a crash can leave.
    fn tidy(&mut self)
        ensures same { is_sound self.new → kept self.new ≡ kept self.old }
        ensures sound { is_sound self.new → is_sound self.old }
        ensures told { told self.new ≡ told self.old }
        ensures first { is_first self.new → is_first self.old }
        ensures crash { (rs : List (Record Global)) → recovers self.new rs → recovers self.old rs ⊎ ((is_first self.old → is_sound self.old) × (rs ≡ kept self.old)) };

    /// Does a slice of a compaction of what is stored, and begins one if at least `at` records, and no fewer than the last
    /// compaction left, were appended since. What is stored then stands for the records, which to the outside stay as they
    /// are. Call it between appends, again soon while a compaction is under way. `moment` is the time in seconds since
    /// 1970-01-01 UTC. What the compaction no longer needs and takes long to drop goes to `disposer`. A ledger that is
    /// never compacted does nothing.
    ///
    /// # Errors
    ///
    /// Full, Write, Shut: nothing is lost. The compaction is given up, unless nobody knows whether the new records are
    /// stored already, which the next append finds out. The next one begins anew.
    fn tend<B: Disposer>(
        &mut self,
        moment: u64,
        at: u64,
        disposer: &B,
    ) -> Result<Tending, LedgerFault>
        ensures same { is_sound self.new → kept self.new ≡ kept self.old }
        ensures sound { is_sound self.new → is_sound self.old }
        ensures told { told self.new ≡ told self.old }
        ensures first { is_first self.new → is_first self.old }
        ensures crash { is_first self.new → (rs : List (Record Global)) → recovers self.new rs → recovers self.old rs ⊎ (is_sound self.old × (rs ≡ kept self.old)) }
    {
        Ok(Tending::Resting)
    }
}
