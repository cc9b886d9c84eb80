//! Drafting records.

ghost use Rattle.std.specs.Prelude.{◌≡◌, ◌≤◌, ◌++◌, true, length, OnOk, IfOk};
ghost use Rattle.ups_lasting.specs.Slices.{Stays};
ghost use Rattle.ups_lasting.specs.Stages.{AreDrafted};
ghost use Rattle.ups_lasting.specs.Standing.{firsts};

use crate::draft_ledger::DraftLedger;
use crate::ghost_records::grow;
use crate::stage::SLICE;
use http_server::Log;
use std::alloc::Global;
use ups_journal::Record;
use ups_ledger::LedgerFault;
use ups_manager::Manager;
use ups_restore::records_from;

/// Appends drafts to a ledger, and notes them.
///
/// Errors: those of the ledger.
pub(crate) fn draft<D: DraftLedger>(
    ledger: &mut D,
    drafts: &mut Log<Record<Global>, ()>,
    records: &[Record<Global>],
) -> Result<(), LedgerFault>
    ensures noted { OnOk result (firsts drafts.new.items ≡ firsts drafts.old.items ++ records.now) }
    ensures put { OnOk result (D.is_sound ledger.new → D.drafts ledger.old ≡ firsts drafts.old.items → D.drafts ledger.new ≡ firsts drafts.new.items) }
    ensures stays { Stays D.DraftLedger ledger.old ledger.new }
{
    ledger.draft(records)?;
    grow(drafts, records);
    Ok(())
}

/// Drafts the next records of a manager's history, at most `SLICE`, behind those of its first entries, `drafted` of them.
/// Returns whether none was left.
///
/// Errors: those of the ledger; Full if an entry can't be recorded.
pub(crate) fn draft_on<D: DraftLedger>(
    alloc: Global,
    ledger: &mut D,
    fresh: &Manager<Global>,
    drafted: &mut usize,
    drafts: &mut Log<Record<Global>, ()>,
) -> Result<bool, LedgerFault>
    ensures drafted { OnOk result (AreDrafted fresh.now.history drafted.old (firsts drafts.old.items) → AreDrafted fresh.now.history drafted.new (firsts drafts.new.items)) }
    ensures all { IfOk result (λ none. none ≡ true → length fresh.now.history ≤ drafted.new) }
    ensures put { OnOk result (D.is_sound ledger.new → D.drafts ledger.old ≡ firsts drafts.old.items → D.drafts ledger.new ≡ firsts drafts.new.items) }
    ensures stays { Stays D.DraftLedger ledger.old ledger.new }
{
    if fresh.entries() <= *drafted {
        return Ok(true);
    }
    let Ok(records) = records_from(alloc, fresh, *drafted, SLICE) else {
        return Err(LedgerFault::Full);
    };
    let Some(next) = drafted.checked_add(records.len()) else {
        return Err(LedgerFault::Full);
    };
    draft(ledger, drafts, &records)?;
    *drafted = next;
    Ok(false)
}
