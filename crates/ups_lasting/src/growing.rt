//! Records that are appended, made less by the shifts of watchers.

ghost use Rattle.std.specs.Prelude.{◌≡◌, ◌++◌, List, map, MatchResult};
ghost use Rattle.ups_compact.specs.Shifts.{less_by};
ghost use Rattle.ups_restore.specs.Lessening.{lessened};
ghost use Rattle.ups_lasting.specs.Leaving.{Appended, Failed};

use crate::draft_ledger::DraftLedger;
use crate::ghost_records::GhostRecords;
use std::alloc::Global;
use ups_compact::Shifts;
use ups_journal::Record;
use ups_ledger::LedgerFault;
use ups_restore::lessen_all;

/// Appends records, and adds them to the content of the ledger.
///
/// Errors: those of the ledger.
fn append_all<D: DraftLedger>(
    ledger: &mut D,
    content: &mut GhostRecords,
    records: &[Record<Global>],
) -> Result<(), LedgerFault>
    ensures { MatchResult result (λ _. Appended D.DraftLedger ledger.old records.now ledger.new × (content.new ≡ content.old ++ records.now)) (λ _. Failed D.DraftLedger ledger.old records.now ledger.new × (content.new ≡ content.old)) }
{
    match ledger.append(records) {
        Ok(()) => {
            content.grow(records);
            Ok(())
        }
        Err(fault) => Err(fault),
    }
}

/// Appends records, made less by shifts, and adds them so to the content of the ledger.
///
/// Errors: those of the ledger; Full if memory runs out.
pub(crate) fn append_less<D: DraftLedger>(
    alloc: Global,
    ledger: &mut D,
    shifts: &Shifts<Global>,
    content: &mut GhostRecords,
    records: &[Record<Global>],
) -> Result<(), LedgerFault>
    ensures { MatchResult result (λ _. Appended D.DraftLedger ledger.old (map (lessened (less_by shifts.now)) records.now) ledger.new × (content.new ≡ content.old ++ map (lessened (less_by shifts.now)) records.now)) (λ _. Failed D.DraftLedger ledger.old (map (lessened (less_by shifts.now)) records.now) ledger.new × (content.new ≡ content.old)) }
{
    if shifts.is_none() {
        return append_all(ledger, content, records);
    }
    match lessen_all(alloc, shifts, records) {
        Ok(less) => append_all(ledger, content, &less),
        Err(_) => Err(LedgerFault::Full),
    }
}
