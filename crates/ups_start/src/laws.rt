//! Laws of starts: each is the contract of a function that changes nothing.

ghost use Rattle.std.specs.Prelude.{◌≡◌, ◌⊎◌, ℕ, List, map, take, false, IsTrue};
ghost use Rattle.std.specs.declared.alloc.Global.{Global};
ghost use Rattle.ups_compact.specs.Compacting.{has_title_twice, compacted_for, steps_needed};
ghost use Rattle.ups_compact.specs.Course.{IsLeftOf};
ghost use Rattle.ups_journal.specs.Columns.{recorded};
ghost use Rattle.ups_journal.specs.declared.record.Record.{Record};
ghost use Rattle.ups_life.specs.declared.entry.Entry.{Entry};
ghost use Rattle.ups_life.specs.Settings.{Settings};
ghost use Rattle.ups_life.specs.Steps.{past};
ghost use Rattle.ups_restore.specs.declared.acknowledging.TheConstants.{COMPACTOR};
ghost use Rattle.ups_terms.specs.declared.choices.StartChoices.{StartChoices};
ghost use Rattle.ups_start.specs.Started.{Begins};

/// A start that may leave nothing out enters all records that it finds, in their order. So if the first of these are the
/// first entries of an earlier history, the first entries are the same again; it begins with all of them, or, if it may
/// compact, with their compaction.
pub fn a_start_has_what_answers_rest_on()
    ensures { (s : Settings) → (found : List (Record Global)) → (choices : StartChoices) → (moment rests : ℕ) → (after seen : List (Entry Global)) → choices.may_leave_out ≡ false → Begins s found choices moment after → take rests found ≡ map recorded (take rests seen)
        → (entered : List (Entry Global)) × (map recorded entered ≡ found) × (map recorded (take rests entered) ≡ map recorded (take rests seen))
        × ((after ≡ entered) ⊎ (IsTrue choices.may_compact × (past after ≡ compacted_for COMPACTOR moment s (steps_needed s (past entered)) (past entered)))) }
{}

/// A start stands for the same log as the history of the requests that it enters: it begins with that history, or with its
/// compaction. So it gives each request the reply of that log, by the law of `ups_compact` on what is left of one. That the
/// entries which it enters are those of the run before is not said here: only their records are found in the store.
pub fn a_start_stands_for_the_same_log()
    ensures { (s : Settings) → (found : List (Record Global)) → (choices : StartChoices) → (moment : ℕ) → (after log : List (Entry Global)) → has_title_twice s.peers ≡ false
        → (b : Begins s found choices moment after) → IsLeftOf s b.entered log → IsLeftOf s after log }
{}
