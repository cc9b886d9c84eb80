//! From one stage of a compaction to the next.

ghost use Rattle.std.specs.Prelude.{◌≡◌, ℕ, List, IfOk};
ghost use Rattle.std.specs.Global.{Global};
ghost use Rattle.ups_journal.specs.declared.record.Record.{Record};
ghost use Rattle.ups_life.specs.Settings.{Settings, IsMoment};
ghost use Rattle.ups_lasting.specs.Slices.{Stays};
ghost use Rattle.ups_lasting.specs.Stages.{Agrees, Covers};

use crate::carrying::{begin_carriage, begin_sorting, carry_on, sort_on};
use crate::draft_ledger::DraftLedger;
use crate::finishing::{begin_follow, finish, finish_on};
use crate::stage::{Carriage, Finish, SLICE, Sorting, Stage};
use crate::surveying::{emptied, survey};
use std::alloc::Global;
use ups_ledger::{Disposer, LedgerFault, Waste};
use ups_manager::Manager;

/// Deletes drafts of an earlier compaction. Returns the stage after that.
///
/// Errors: those of the ledger; Full.
fn clear<D: DraftLedger>(
    alloc: Global,
    ledger: &mut D,
    empty: &Manager<Global>,
) -> Result<Stage, LedgerFault>
    ensures agrees { IfOk result (λ next. D.is_sound ledger.new → Agrees empty.now.settings next (D.kept ledger.old) (D.drafts ledger.new)) }
    ensures covers { IfOk result (λ next. (begun : ℕ) → Covers begun Stage.Clearing (D.kept ledger.old) → Covers begun next (D.kept ledger.old)) }
    ensures stays { Stays D.DraftLedger ledger.old ledger.new }
{
    let fresh = emptied(alloc, empty)?;
    if ledger.clear(SLICE as u32)? {
        return Ok(Stage::Surveying(fresh));
    }
    Ok(Stage::Clearing)
}

/// Hands the managers and steps of a compaction that is given up to the disposer.
fn discard<B: Disposer>(stage: Stage, disposer: &B) {
    match stage {
        Stage::Surveying(whole) => disposer.dispose(Waste::Manager(whole)),
        Stage::Carrying(c) => {
            disposer.dispose(Waste::Manager(c.fresh));
            disposer.dispose(Waste::Steps(c.steps));
        }
        Stage::Finishing(f) => disposer.dispose(Waste::Manager(f.fresh)),
        _ => {}
    }
}

/// Enters further records into a manager, until it has the first `upto`. Returns the stage after that.
///
/// Errors: those of the ledger; Full.
fn survey_next<D: DraftLedger, B: Disposer>(
    alloc: Global,
    ledger: &mut D,
    whole: Manager<Global>,
    upto: u64,
    disposer: &B,
) -> Result<Stage, LedgerFault>
    ensures agrees { IfOk result (λ next. D.is_sound ledger.new → (s : Settings) → Agrees s (Stage.Surveying whole) (D.kept ledger.old) (D.drafts ledger.old) → Agrees s next (D.kept ledger.old) (D.drafts ledger.new)) }
    ensures covers { IfOk result (λ next. D.is_sound ledger.new → Covers upto (Stage.Surveying whole) (D.kept ledger.old) → Covers upto next (D.kept ledger.old)) }
    ensures stays { Stays D.DraftLedger ledger.old ledger.new }
{
    let mut whole = whole;
    match survey(alloc, ledger, &mut whole, upto) {
        Ok(true) => Ok(Stage::Sorting(begin_sorting(alloc, whole, disposer)?)),
        Ok(false) => Ok(Stage::Surveying(whole)),
        Err(fault) => {
            discard(Stage::Surveying(whole), disposer);
            Err(fault)
        }
    }
}

/// Puts further steps in order. Returns the stage after that.
///
/// Errors: Full.
fn sort_next<B: Disposer>(alloc: Global, n: Sorting, disposer: &B) -> Result<Stage, LedgerFault>
    ensures agrees { IfOk result (λ next. (s : Settings) → (content drafts : List (Record Global)) → Agrees s (Stage.Sorting n) content drafts → Agrees s next content drafts) }
    ensures covers { IfOk result (λ next. (begun : ℕ) → (content : List (Record Global)) → Covers begun (Stage.Sorting n) content → Covers begun next content) }
{
    let Sorting { whole, steps } = sort_on(alloc, n, disposer)?;
    match steps.finish() {
        Ok(steps) => Ok(Stage::Carrying(begin_carriage(alloc, whole, steps, disposer)?)),
        Err(steps) => Ok(Stage::Sorting(Sorting { whole, steps })),
    }
}

/// Reads further records once more. Returns the stage after that.
///
/// Errors: those of the ledger; Full.
fn carry_next<D: DraftLedger, B: Disposer>(
    alloc: Global,
    ledger: &mut D,
    c: Carriage,
    moment: u64,
    disposer: &B,
) -> Result<Stage, LedgerFault>
    requires { IsMoment moment }
    ensures agrees { IfOk result (λ next. D.is_sound ledger.new → (s : Settings) → Agrees s (Stage.Carrying c) (D.kept ledger.old) (D.drafts ledger.old) → Agrees s next (D.kept ledger.old) (D.drafts ledger.new)) }
    ensures covers { IfOk result (λ next. (begun : ℕ) → Covers begun (Stage.Carrying c) (D.kept ledger.old) → Covers begun next (D.kept ledger.old)) }
    ensures stays { Stays D.DraftLedger ledger.old ledger.new }
{
    let mut c = c;
    match carry_on(alloc, ledger, &mut c) {
        Ok(true) => Ok(Stage::Finishing(finish(alloc, c, moment, disposer)?)),
        Ok(false) => Ok(Stage::Carrying(c)),
        Err(fault) => {
            discard(Stage::Carrying(c), disposer);
            Err(fault)
        }
    }
}

/// Drafts further entries of a compacted history. Returns the stage after that.
///
/// Errors: those of the ledger; Full.
fn finish_next<D: DraftLedger, B: Disposer>(
    alloc: Global,
    ledger: &mut D,
    f: Finish,
    disposer: &B,
) -> Result<Stage, LedgerFault>
    ensures agrees { IfOk result (λ next. D.is_sound ledger.new → (s : Settings) → Agrees s (Stage.Finishing f) (D.kept ledger.old) (D.drafts ledger.old) → Agrees s next (D.kept ledger.old) (D.drafts ledger.new)) }
    ensures covers { IfOk result (λ next. (begun : ℕ) → Covers begun (Stage.Finishing f) (D.kept ledger.old) → Covers begun next (D.kept ledger.old)) }
    ensures stays { Stays D.DraftLedger ledger.old ledger.new }
{
    let mut f = f;
    match finish_on(alloc, ledger, &mut f) {
        Ok(true) => Ok(Stage::Following(begin_follow(f, disposer))),
        Ok(false) => Ok(Stage::Finishing(f)),
        Err(fault) => {
            discard(Stage::Finishing(f), disposer);
            Err(fault)
        }
    }
}

/// Does a slice of a compaction of the first `upto` records, up to the end of the compacted history. Returns the stage
/// after that.
///
/// Errors: those of the ledger; Full.
pub(crate) fn move_on<D: DraftLedger, B: Disposer>(
    alloc: Global,
    ledger: &mut D,
    empty: &Manager<Global>,
    stage: Stage,
    upto: u64,
    moment: u64,
    disposer: &B,
) -> Result<Stage, LedgerFault>
    requires { IsMoment moment }
    ensures agrees { IfOk result (λ next. D.is_sound ledger.new → Agrees empty.now.settings stage (D.kept ledger.old) (D.drafts ledger.old) → Agrees empty.now.settings next (D.kept ledger.old) (D.drafts ledger.new)) }
    ensures covers { IfOk result (λ next. D.is_sound ledger.new → Covers upto stage (D.kept ledger.old) → Covers upto next (D.kept ledger.old)) }
    ensures stays { Stays D.DraftLedger ledger.old ledger.new }
{
    match stage {
        Stage::Clearing => clear(alloc, ledger, empty),
        Stage::Surveying(whole) => survey_next(alloc, ledger, whole, upto, disposer),
        Stage::Sorting(n) => sort_next(alloc, n, disposer),
        Stage::Carrying(c) => carry_next(alloc, ledger, c, moment, disposer),
        Stage::Finishing(f) => finish_next(alloc, ledger, f, disposer),
        stage => Ok(stage),
    }
}
