//! Laws of records that stand for the log, each stated by the contract of a function without effect.

ghost use Rattle.std.specs.Prelude.{◌≡◌, ◌+◌, ◌++◌, ℕ, List, map};
ghost use Rattle.std.specs.Global.{Global};
ghost use Rattle.ups_life.specs.Settings.{Settings};
ghost use Rattle.ups_journal.specs.declared.record.Record.{Record};
ghost use Rattle.ups_restore.specs.Lessening.{lessened};
ghost use Rattle.ups_lasting.specs.Standing.{StandsForLog, StandsForSome};
ghost use Rattle.ups_lasting.specs.declared.lasting.LastingLedger.{LastingLedger};

use crate::draft_ledger::DraftLedger;
use crate::lasting::LastingLedger;
use std::alloc::Global;
use ups_compact::laws::{
    what_stands_for_it_stands_for_its_log, what_stands_with_less_numbers_lasts,
};
use ups_ledger::Ledger;

/// Does nothing at run time: its contract tells a proof that the records of a log stand for it, that what stands for a
/// log goes on to do so with the records of later entries, made less by the shifts (PS3.4 CC.2.4), and that what stands
/// for records that stand for a log stands for that log.
pub fn what_stands_for_a_log_goes_on()
    ensures itself { (s : Settings) → (said : List (Record Global)) → (less : List ℕ → ℕ) → ((w : List ℕ) → less w ≡ 0) → StandsForLog s said said less }
    ensures on { (s : Settings) → (content said more : List (Record Global)) → (less : List ℕ → ℕ) → StandsForLog s content said less → StandsForLog s (content ++ map (lessened less) more) (said ++ more) less }
    ensures alike { (s : Settings) → (content said : List (Record Global)) → (less other : List ℕ → ℕ) → ((w : List ℕ) → less w ≡ other w) → StandsForLog s content said less → StandsForLog s content said other }
    ensures through { (s : Settings) → (other content said : List (Record Global)) → (extra less : List ℕ → ℕ) → StandsForLog s content said less → StandsForLog s other content extra → StandsForLog s other said (λ w. extra w + less w) }
{
    what_stands_with_less_numbers_lasts::<Global>();
    what_stands_for_it_stands_for_its_log::<Global>();
}

/// Does nothing at run time: its contract tells a proof that whatever records a crash leaves of a lasting ledger stand,
/// with some shifts, for records of the log that, to the outside, it can leave.
pub fn a_crash_leaves_what_stands_for_the_log<D: DraftLedger>()
    ensures { (l : LastingLedger D D.DraftLedger) → D.is_first l.ledger → (found : List (Record Global)) → D.recovers l.ledger found
        → ∥ ((rs : List (Record Global)) × ⟦<LastingLedger<D> as Ledger>⟧.recovers l rs × StandsForSome l.compaction.empty.settings found rs) ∥₁ }
{}
