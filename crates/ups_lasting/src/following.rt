//! Drafting what was appended meanwhile, and putting the drafts in the place of the records.

ghost use Rattle.std.specs.Prelude.{◌≡◌, ◌≤◌, ◌+◌, true, List, length, take, drop, IfOk, OnOk};
ghost use Rattle.std.specs.Global.{Global};
ghost use Rattle.ups_life.specs.Settings.{Settings};
ghost use Rattle.ups_journal.specs.declared.record.Record.{Record};
ghost use Rattle.ups_lasting.specs.Exchanging.{Drafts, Follows, EndsExchange};
ghost use Rattle.ups_lasting.specs.Slices.{Stays};
ghost use Rattle.ups_lasting.specs.Stages.{IsFollowed};
ghost use Rattle.ups_lasting.specs.Standing.{firsts};

use crate::draft_ledger::DraftLedger;
use crate::drafting::draft;
use crate::stage::{FOLLOWED, Follow};
use std::alloc::Global;
use ups_journal::Record;
use ups_ledger::LedgerFault;
use ups_restore::lessen_all;

/// What following has come to.
#[derive(Clone, Copy, Debug, PartialEq, Eq)]
pub enum Followed {
    /// More is drafted.
    Drafted,
    /// The drafts have taken the place of the records.
    Exchanged,
    /// Nobody knows whether the drafts have taken the place of the records, after this fault.
    Doubtful(LedgerFault),
}

/// Drafts records behind those that are drafted, with lesser numbers.
///
/// Errors: those of the ledger; Full.
fn follow_with<D: DraftLedger>(
    alloc: Global,
    ledger: &mut D,
    f: &mut Follow,
    records: &[Record<Global>],
) -> Result<(), LedgerFault>
    ensures followed { OnOk result ((s : Settings) → (content : List (Record Global)) → records.now ≡ take FOLLOWED (drop f.old.read content) → IsFollowed s content f.old → IsFollowed s content f.new) }
    ensures read { OnOk result (f.new.read ≡ f.old.read + length records.now) }
    ensures shifts { f.new.shifts ≡ f.old.shifts }
    ensures from { f.new.from ≡ f.old.from }
    ensures put { OnOk result (D.is_sound ledger.new → D.drafts ledger.old ≡ firsts f.old.drafts.items → D.drafts ledger.new ≡ firsts f.new.drafts.items) }
    ensures stays { Stays D.DraftLedger ledger.old ledger.new }
{
    let Some(next) = f.read.checked_add(records.len()) else {
        return Err(LedgerFault::Full);
    };
    let Ok(copies) = lessen_all(alloc, &f.shifts, records) else {
        return Err(LedgerFault::Full);
    };
    draft(ledger, &mut f.drafts, &copies)?;
    f.read = next;
    Ok(())
}

/// Puts the drafts in the place of the records.
///
/// Errors: those of the ledger; the records stay.
fn exchange<D: DraftLedger>(ledger: &mut D) -> Result<Followed, LedgerFault>
    ensures { EndsExchange D.DraftLedger ledger.old ledger.new result }
{
    match ledger.exchange() {
        Ok(()) => Ok(Followed::Exchanged),
        Err(fault) => {
            if ledger.is_up() {
                return Err(fault);
            }
            Ok(Followed::Doubtful(fault))
        }
    }
}

/// Drafts the next records that were appended meanwhile, at most `FOLLOWED`, with lesser numbers. Returns whether none is
/// left.
///
/// Errors: those of the ledger; Full.
fn catch_up<D: DraftLedger>(
    alloc: Global,
    ledger: &mut D,
    f: &mut Follow,
) -> Result<bool, LedgerFault>
    ensures drafts { OnOk result (Drafts D.DraftLedger ledger.old ledger.new f.old f.new) }
    ensures all { IfOk result (λ all. all ≡ true → D.is_sound ledger.new → length (D.kept ledger.old) ≤ f.new.read) }
    ensures shifts { f.new.shifts ≡ f.old.shifts }
    ensures stays { Stays D.DraftLedger ledger.old ledger.new }
{
    let records = ledger.read(f.read as u64, FOLLOWED)?;
    if records.is_empty() {
        return Ok(true);
    }
    follow_with(alloc, ledger, f, &records)?;
    Ok(records.len() < FOLLOWED)
}

/// Drafts the next records that were appended meanwhile, at most `FOLLOWED`, with lesser numbers. If none is left then, it
/// puts the drafts in the place of the records at once, before others are appended.
///
/// Errors: those of the ledger; Full. The records stay.
pub(crate) fn follow_on<D: DraftLedger>(
    alloc: Global,
    ledger: &mut D,
    f: &mut Follow,
) -> Result<Followed, LedgerFault>
    ensures follows { Follows D.DraftLedger ledger.old ledger.new f.old f.new result }
{
    match catch_up(alloc, ledger, f) {
        Ok(true) => exchange(ledger),
        Ok(false) => Ok(Followed::Drafted),
        Err(fault) => Err(fault),
    }
}
