//! Laws of records that go on: each is the contract of a function that does nothing.

ghost use Rattle.std.specs.Prelude.{◌≡◌, ◌++◌, ℕ, List, All, map, false};
ghost use Rattle.std.specs.declared.alloc.Global.{Global};
ghost use Rattle.ups_life.specs.declared.entry.Entry.{Entry};
ghost use Rattle.ups_life.specs.Settings.{Settings};
ghost use Rattle.ups_life.specs.Steps.{past};
ghost use Rattle.ups_journal.specs.Columns.{recorded};
ghost use Rattle.ups_journal.specs.Writable.{IsWritableEntry};
ghost use Rattle.ups_service.specs.Law.{is_legal};
ghost use Rattle.ups_compact.specs.Compacting.{has_title_twice};
ghost use Rattle.ups_compact.specs.Course.{IsLeftOf};
ghost use Rattle.ups_compact.specs.Shifting.{shift};
ghost use Rattle.ups_restore.specs.Lessening.{lessened};

/// Does nothing at run time: its contract tells a proof that what is left of a log goes on with the later entries of the
/// log. The records of those that it goes on with are the records of the later entries, made less by the shift at the
/// beginning, which stays as it was (PS3.4 CC.2.4), and they can be read back.
pub fn the_records_of_what_is_left_go_on()
    ensures { (s : Settings) → (by log later : List (Entry Global)) → has_title_twice s.peers ≡ false → IsLeftOf s by log → is_legal s (log ++ later) → All (λ e. IsWritableEntry e) later
        → (more : List (Entry Global)) × IsLeftOf s (by ++ more) (log ++ later) × (map recorded more ≡ map (lessened (shift s (past by) (past log))) (map recorded later)) × All (λ e. IsWritableEntry e) more
        × ((w : List ℕ) → shift s (past (by ++ more)) (past (log ++ later)) w ≡ shift s (past by) (past log) w) }
{}
