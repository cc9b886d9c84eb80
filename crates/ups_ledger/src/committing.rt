//! Committing the entries of a history.

ghost use Rattle.std.specs.Prelude.{◌≡◌, ◌+◌, ◌<◌, ◌≤◌, length, map, take, drop, IfOk, MatchResult};
ghost use Rattle.ups_journal.specs.Columns.{recorded};
ghost use Rattle.ups_ledger.specs.Behind.{AreBehind};
ghost use Rattle.ups_ledger.specs.Keeping.{AreFirst, HasWatched, LeavesFirst};

use crate::fault::{CommitFault, LedgerFault};
use crate::ledger::Ledger;
use crate::recorder::Recorder;
use std::alloc::Global;
use std::sync::Wait;
use ups_service::SharedService;
use ups_turn::{Desk, Pass};

/// Appends those entries of the history behind a desk that a ledger does not have yet, in their order, at most `most`
/// of them and as one group. Returns how many it has then, of which it had `committed` before. If these were a prefix
/// of the history, it still has one: what it has is a prefix at any time. The turn of the pass lasts as long as
/// recording takes, and ends before the ledger is called; it is one of its calls.
///
/// # Errors
///
/// Spent if the pass has made all of its calls; Recording and Ledger with their faults. No more entries are committed
/// then, and a crash leaves at least as many.
pub fn commit<M: SharedService<Global>, L: Ledger, R: Wait>(
    rt: &R,
    alloc: Global,
    desk: &Desk<M, Global>,
    pass: &mut Pass<M, Global>,
    ledger: &mut L,
    committed: usize,
    most: usize,
) -> Result<usize, CommitFault>
    requires here { pass.old.table ≡ desk.now.table }
    ensures stays { pass.new.table ≡ pass.old.table }
    ensures watched { HasWatched pass.old pass.new }
    ensures calls { pass.new.calls ≤ pass.old.calls + 1 }
    ensures sound { L.is_sound ledger.new → L.is_sound ledger.old }
    ensures beginning { L.is_sound ledger.new → AreFirst (L.kept ledger.old) pass.old.seen committed → MatchResult result (λ count. AreFirst (L.kept ledger.new) pass.new.seen count) (λ _. AreFirst (L.kept ledger.new) pass.new.seen committed) }
    ensures number { IfOk result (λ count. count ≡ committed + length (take most (drop committed pass.new.seen))) }
    ensures told { L.told ledger.old ≡ committed → MatchResult result (λ count. L.told ledger.new ≡ count) (λ _. L.told ledger.new ≡ committed) }
    ensures behind { IfOk result (λ count. L.told ledger.old ≡ committed → committed < count → L.is_honest ledger.new → AreBehind (L.kept ledger.new) committed (map recorded (take most (drop committed pass.new.seen)))) }
    ensures safe { (L.is_sound ledger.old → AreFirst (L.kept ledger.old) pass.old.seen committed) → LeavesFirst L.Ledger ledger.old pass.old.seen committed → MatchResult result (λ count. LeavesFirst L.Ledger ledger.new pass.new.seen count) (λ _. LeavesFirst L.Ledger ledger.new pass.new.seen committed) }
{
    let mut recorder = Recorder::new(alloc, committed, most);
    if !desk.observe(rt, pass, &mut recorder) {
        return Err(CommitFault::Spent);
    }
    let records = match recorder.into_records() {
        Ok(records) => records,
        Err(fault) => return Err(CommitFault::Recording(fault)),
    };
    if records.is_empty() {
        return Ok(committed);
    }
    let Some(count) = committed.checked_add(records.len()) else {
        return Err(CommitFault::Ledger(LedgerFault::Full));
    };
    match ledger.append(&records) {
        Ok(()) => Ok(count),
        Err(fault) => Err(CommitFault::Ledger(fault)),
    }
}
