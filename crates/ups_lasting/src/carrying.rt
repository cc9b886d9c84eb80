//! Reading the records of a ledger once more, and drafting those that are kept.

ghost use Rattle.std.specs.Prelude.{◌≡◌, ◌≤◌, ◌++◌, [], true, List, All, map, length, IfOk, OnOk};
ghost use Rattle.std.specs.Global.{Global};
ghost use Rattle.ups_life.specs.declared.entry.Entry.{Entry};
ghost use Rattle.ups_life.specs.Settings.{Settings};
ghost use Rattle.ups_life.specs.Steps.{past};
ghost use Rattle.ups_journal.specs.declared.record.Record.{Record};
ghost use Rattle.ups_journal.specs.Columns.{recorded};
ghost use Rattle.ups_journal.specs.Writable.{IsWritableEntry};
ghost use Rattle.ups_service.specs.Law.{is_legal};
ghost use Rattle.ups_compact.specs.Compacting.{left_for, steps_needed};
ghost use Rattle.ups_lasting.specs.Slices.{Stays};
ghost use Rattle.ups_lasting.specs.Stages.{IsSurveyed, IsSorting, IsCarried};
ghost use Rattle.ups_lasting.specs.Standing.{firsts};

use crate::draft_ledger::DraftLedger;
use crate::drafting::draft_on;
use crate::stage::{Carriage, SLICE, SORTED, Sorting};
use crate::surveying::emptied;
use http_server::Log;
use std::alloc::Global;
use ups_compact::{KeptSteps, StepSorting};
use ups_journal::Record;
use ups_ledger::{Disposer, LedgerFault, Waste};
use ups_manager::Manager;
use ups_restore::{Survey, carry_record, list_needed};

/// Returns the steps of which a compaction of the records in a manager loses nothing, none of them in order.
///
/// Errors: Full.
pub(crate) fn begin_sorting<B: Disposer>(
    alloc: Global,
    whole: Manager<Global>,
    disposer: &B,
) -> Result<Sorting, LedgerFault>
    ensures sorting { IfOk result (λ n. (s : Settings) → (content : List (Record Global)) → IsSurveyed s content whole → IsSorting s content n) }
    ensures same { IfOk result (λ n. length n.whole.history ≡ length whole.history) }
{
    let Ok(steps) = list_needed(&whole) else {
        disposer.dispose(Waste::Manager(whole));
        return Err(LedgerFault::Full);
    };
    Ok(Sorting {
        whole,
        steps: StepSorting::new(alloc, steps),
    })
}

/// Puts further steps in order.
///
/// Errors: Full.
pub(crate) fn sort_on<B: Disposer>(
    alloc: Global,
    n: Sorting,
    disposer: &B,
) -> Result<Sorting, LedgerFault>
    ensures sorting { IfOk result (λ next. (s : Settings) → (content : List (Record Global)) → IsSorting s content n → IsSorting s content next) }
    ensures same { IfOk result (λ next. length next.whole.history ≡ length n.whole.history) }
{
    let Sorting { whole, steps } = n;
    match steps.sort_on(alloc, SORTED) {
        Ok(steps) => Ok(Sorting { whole, steps }),
        Err(_) => {
            disposer.dispose(Waste::Manager(whole));
            Err(LedgerFault::Full)
        }
    }
}

/// Returns the beginning of the second reading: no record was read once more. `steps` are the steps needed of the records
/// in a manager. That one is no longer needed.
///
/// Errors: Full.
pub(crate) fn begin_carriage<B: Disposer>(
    alloc: Global,
    whole: Manager<Global>,
    steps: KeptSteps<Global>,
    disposer: &B,
) -> Result<Carriage, LedgerFault>
    ensures carried { IfOk result (λ c. (s : Settings) → (content : List (Record Global)) → IsSurveyed s content whole → steps ≡ steps_needed s (past whole.history) → IsCarried s content c) }
    ensures same { IfOk result (λ c. length c.survey.history ≡ length whole.history) }
    ensures drafts { IfOk result (λ c. firsts c.drafts.items ≡ []) }
{
    let Ok(fresh) = emptied(alloc, &whole) else {
        disposer.dispose(Waste::Manager(whole));
        disposer.dispose(Waste::Steps(steps));
        return Err(LedgerFault::Full);
    };
    let Ok(survey) = Survey::of(alloc, &whole) else {
        disposer.dispose(Waste::Manager(whole));
        disposer.dispose(Waste::Steps(steps));
        return Err(LedgerFault::Full);
    };
    disposer.dispose(Waste::Manager(whole));
    Ok(Carriage {
        survey,
        steps,
        fresh,
        read: 0,
        drafted: 0,
        drafts: Log::new(),
    })
}

/// Enters the entries of records that are kept for some steps into the manager that has what is kept of those before them.
///
/// Errors: Full if one is not entered.
fn carry_all(
    alloc: Global,
    steps: &KeptSteps<Global>,
    fresh: &mut Manager<Global>,
    records: &[Record<Global>],
) -> Result<(), LedgerFault>
    ensures carried { OnOk result ((front es : List (Entry Global)) → All (λ e. IsWritableEntry e) es → map recorded es ≡ records.now → is_legal fresh.old.settings (front ++ es) → past fresh.old.history ≡ left_for fresh.old.settings steps.now (past front) → past fresh.new.history ≡ left_for fresh.old.settings steps.now (past (front ++ es))) }
    ensures settings { fresh.new.settings ≡ fresh.old.settings }
{
    for stored in records {
        let Ok(()) = carry_record(alloc, steps, fresh, stored) else {
            return Err(LedgerFault::Full);
        };
    }
    Ok(())
}

/// Enters such records as `carry_all` does, and lets entries before the one at index `drafted` leave memory.
///
/// Errors: Full if one is not entered.
fn carry_part(
    alloc: Global,
    steps: &KeptSteps<Global>,
    fresh: &mut Manager<Global>,
    records: &[Record<Global>],
    drafted: usize,
) -> Result<(), LedgerFault>
    ensures carried { OnOk result ((front es : List (Entry Global)) → All (λ e. IsWritableEntry e) es → map recorded es ≡ records.now → is_legal fresh.old.settings (front ++ es) → past fresh.old.history ≡ left_for fresh.old.settings steps.now (past front) → past fresh.new.history ≡ left_for fresh.old.settings steps.now (past (front ++ es))) }
    ensures settings { fresh.new.settings ≡ fresh.old.settings }
{
    carry_all(alloc, steps, fresh, records)?;
    fresh.let_go(drafted);
    Ok(())
}

/// Reads the next records once more, at most `SLICE`, and enters those that are kept.
///
/// Errors: those of the ledger; Full if one is not entered.
fn carry<D: DraftLedger>(alloc: Global, ledger: &mut D, c: &mut Carriage) -> Result<(), LedgerFault>
    ensures carried { OnOk result (D.is_sound ledger.new → (s : Settings) → IsCarried s (D.kept ledger.old) c.old → IsCarried s (D.kept ledger.old) c.new) }
    ensures survey { c.new.survey ≡ c.old.survey }
    ensures noted { firsts c.new.drafts.items ≡ firsts c.old.drafts.items }
    ensures drafts { D.is_sound ledger.new → D.drafts ledger.new ≡ D.drafts ledger.old }
    ensures stays { Stays D.DraftLedger ledger.old ledger.new }
{
    let left = c.survey.entries().saturating_sub(c.read);
    let records = ledger.read(c.read as u64, left.min(SLICE))?;
    let Some(next) = c.read.checked_add(records.len()) else {
        return Err(LedgerFault::Full);
    };
    carry_part(alloc, &c.steps, &mut c.fresh, &records, c.drafted)?;
    c.read = next;
    Ok(())
}

/// Reads the next records once more, enters those that are kept, and drafts what is entered, at most `SLICE`. Returns whether
/// all were read.
///
/// Errors: those of the ledger; Full if one is not entered.
pub(crate) fn carry_on<D: DraftLedger>(
    alloc: Global,
    ledger: &mut D,
    c: &mut Carriage,
) -> Result<bool, LedgerFault>
    ensures carried { OnOk result (D.is_sound ledger.new → (s : Settings) → IsCarried s (D.kept ledger.old) c.old → IsCarried s (D.kept ledger.old) c.new) }
    ensures put { OnOk result (D.is_sound ledger.new → D.drafts ledger.old ≡ firsts c.old.drafts.items → D.drafts ledger.new ≡ firsts c.new.drafts.items) }
    ensures survey { c.new.survey ≡ c.old.survey }
    ensures all { IfOk result (λ all. all ≡ true → length c.new.survey.history ≤ c.new.read) }
    ensures stays { Stays D.DraftLedger ledger.old ledger.new }
{
    carry(alloc, ledger, c)?;
    draft_on(alloc, ledger, &c.fresh, &mut c.drafted, &mut c.drafts)?;
    Ok(c.survey.entries() <= c.read)
}
