//! Entering the records of a ledger into a manager.

ghost use Rattle.std.specs.Prelude.{◌≡◌, ◌≤◌, ◌+◌, ◌++◌, [], ◌∷◌, true, List, All, map, length, IfOk, OnOk};
ghost use Rattle.std.specs.Global.{Global};
ghost use Rattle.ups_life.specs.declared.entry.Entry.{Entry};
ghost use Rattle.ups_life.specs.Settings.{Settings};
ghost use Rattle.ups_journal.specs.Columns.{recorded};
ghost use Rattle.ups_journal.specs.Writable.{IsWritableEntry};
ghost use Rattle.ups_lasting.specs.Slices.{Stays};
ghost use Rattle.ups_lasting.specs.Stages.{IsSurveyed};

use crate::draft_ledger::DraftLedger;
use crate::stage::SLICE;
use std::alloc::Global;
use ups_journal::{Record, entry_of};
use ups_ledger::LedgerFault;
use ups_life::MAX_PEERS;
use ups_manager::{LASTING_LIMIT, Manager};
use ups_restore::replay_one;

/// Returns a manager with the settings of another, without history.
///
/// Errors: Full.
pub(crate) fn emptied(
    alloc: Global,
    manager: &Manager<Global>,
) -> Result<Manager<Global>, LedgerFault>
    ensures settings { IfOk result (λ fresh. fresh.settings ≡ manager.now.settings) }
    ensures history { IfOk result (λ fresh. fresh.history ≡ []) }
{
    let peers = manager.peers();
    if peers.len() > MAX_PEERS {
        return Err(LedgerFault::Full);
    }
    let (keep, offset, limit) = (manager.keep(), manager.offset(), manager.limit());
    let made = if limit == LASTING_LIMIT {
        Manager::lasting(alloc, peers, keep, offset)
    } else {
        Manager::new(alloc, peers, keep, offset, limit)
    };
    match made {
        Ok(fresh) => Ok(fresh),
        Err(_) => Err(LedgerFault::Full),
    }
}

/// Enters the entry of a record, after those in a manager.
///
/// Errors: Full if it is not entered.
fn survey_record(
    alloc: Global,
    whole: &mut Manager<Global>,
    stored: &Record<Global>,
) -> Result<(), LedgerFault>
    ensures entered { (e : Entry Global) → IsWritableEntry e → recorded e ≡ stored.now → OnOk result (whole.new.history ≡ whole.old.history ++ e ∷ []) }
    ensures more { OnOk result (length whole.new.history ≡ length whole.old.history + 1) }
    ensures settings { whole.new.settings ≡ whole.old.settings }
{
    let Ok(entry) = entry_of(alloc, stored) else {
        return Err(LedgerFault::Full);
    };
    match replay_one(whole, entry) {
        Ok(()) => Ok(()),
        Err(_) => Err(LedgerFault::Full),
    }
}

/// Enters the entries of records, after those in a manager.
///
/// Errors: Full if one is not entered.
fn survey_all(
    alloc: Global,
    whole: &mut Manager<Global>,
    records: &[Record<Global>],
) -> Result<(), LedgerFault>
    ensures entered { OnOk result ((es : List (Entry Global)) → All (λ e. IsWritableEntry e) es → map recorded es ≡ records.now → whole.new.history ≡ whole.old.history ++ es) }
    ensures more { OnOk result (length whole.new.history ≡ length whole.old.history + length records.now) }
    ensures settings { whole.new.settings ≡ whole.old.settings }
{
    for stored in records {
        survey_record(alloc, whole, stored)?;
    }
    Ok(())
}

/// Enters the entries of records as `survey_all` does, and lets entries leave memory that nothing is pending of.
///
/// Errors: Full if one is not entered.
fn survey_part(
    alloc: Global,
    whole: &mut Manager<Global>,
    records: &[Record<Global>],
) -> Result<(), LedgerFault>
    ensures entered { OnOk result ((es : List (Entry Global)) → All (λ e. IsWritableEntry e) es → map recorded es ≡ records.now → whole.new.history ≡ whole.old.history ++ es) }
    ensures more { OnOk result (length whole.new.history ≡ length whole.old.history + length records.now) }
    ensures settings { whole.new.settings ≡ whole.old.settings }
{
    survey_all(alloc, whole, records)?;
    let entries = whole.entries();
    whole.let_go(entries);
    Ok(())
}

/// Reads the next records of a ledger, at most `SLICE`, and enters them into the manager that has those before them. Returns
/// whether it has the first `upto` of them then, or none was left.
///
/// Errors: those of the ledger; Full if one is not entered.
pub(crate) fn survey<D: DraftLedger>(
    alloc: Global,
    ledger: &mut D,
    whole: &mut Manager<Global>,
    upto: u64,
) -> Result<bool, LedgerFault>
    ensures surveyed { OnOk result (D.is_sound ledger.new → (s : Settings) → IsSurveyed s (D.kept ledger.old) whole.old → IsSurveyed s (D.kept ledger.old) whole.new) }
    ensures all { IfOk result (λ all. all ≡ true → D.is_sound ledger.new → upto ≤ length (D.kept ledger.old) → upto ≤ length whole.new.history) }
    ensures drafts { D.is_sound ledger.new → D.drafts ledger.new ≡ D.drafts ledger.old }
    ensures stays { Stays D.DraftLedger ledger.old ledger.new }
{
    let records = ledger.read(whole.entries() as u64, SLICE)?;
    if records.is_empty() {
        return Ok(true);
    }
    survey_part(alloc, whole, &records)?;
    Ok(upto <= whole.entries() as u64)
}
