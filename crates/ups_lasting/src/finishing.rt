//! Drafting the rest of a compacted history.

ghost use Rattle.std.specs.Prelude.{◌≡◌, ◌≤◌, true, List, length, IfOk, OnOk};
ghost use Rattle.std.specs.Global.{Global};
ghost use Rattle.ups_life.specs.Settings.{Settings, IsMoment};
ghost use Rattle.ups_journal.specs.declared.record.Record.{Record};
ghost use Rattle.ups_lasting.specs.Slices.{Stays};
ghost use Rattle.ups_lasting.specs.Stages.{IsCarried, IsFinished, IsFollowed};
ghost use Rattle.ups_lasting.specs.Standing.{firsts};

use crate::draft_ledger::DraftLedger;
use crate::drafting::draft_on;
use crate::stage::{Carriage, Finish, Follow};
use std::alloc::Global;
use ups_ledger::{Disposer, LedgerFault, Waste};
use ups_restore::{acknowledge_surveyed, shifts_between};

/// Enters the acknowledgements behind what is kept, and returns the compacted history.
///
/// Errors: Full.
pub(crate) fn finish<B: Disposer>(
    alloc: Global,
    c: Carriage,
    moment: u64,
    disposer: &B,
) -> Result<Finish, LedgerFault>
    requires { IsMoment moment }
    ensures finished { IfOk result (λ f. (s : Settings) → (content : List (Record Global)) → IsCarried s content c → length c.survey.history ≤ c.read → IsFinished s content f) }
    ensures from { IfOk result (λ f. f.from ≡ c.read) }
    ensures drafts { IfOk result (λ f. firsts f.drafts.items ≡ firsts c.drafts.items) }
{
    let Carriage {
        survey,
        steps,
        mut fresh,
        read,
        drafted,
        drafts,
    } = c;
    disposer.dispose(Waste::Steps(steps));
    let Ok(()) = acknowledge_surveyed(alloc, &survey, &mut fresh, moment) else {
        disposer.dispose(Waste::Manager(fresh));
        return Err(LedgerFault::Full);
    };
    let Ok(shifts) = shifts_between(alloc, &survey, &fresh) else {
        disposer.dispose(Waste::Manager(fresh));
        return Err(LedgerFault::Full);
    };
    Ok(Finish {
        fresh,
        shifts,
        from: read,
        drafted,
        drafts,
    })
}

/// Drafts the next records of a compacted history. Returns whether none was left.
///
/// Errors: those of the ledger; Full if an entry can't be recorded.
pub(crate) fn finish_on<D: DraftLedger>(
    alloc: Global,
    ledger: &mut D,
    f: &mut Finish,
) -> Result<bool, LedgerFault>
    ensures finished { OnOk result ((s : Settings) → (content : List (Record Global)) → IsFinished s content f.old → IsFinished s content f.new) }
    ensures put { OnOk result (D.is_sound ledger.new → D.drafts ledger.old ≡ firsts f.old.drafts.items → D.drafts ledger.new ≡ firsts f.new.drafts.items) }
    ensures from { f.new.from ≡ f.old.from }
    ensures all { IfOk result (λ all. all ≡ true → length f.new.fresh.history ≤ f.new.drafted) }
    ensures stays { Stays D.DraftLedger ledger.old ledger.new }
{
    draft_on(alloc, ledger, &f.fresh, &mut f.drafted, &mut f.drafts)
}

/// Returns the beginning of what follows, once all of a compacted history is drafted.
pub(crate) fn begin_follow<B: Disposer>(f: Finish, disposer: &B) -> Follow
    ensures followed { (s : Settings) → (content : List (Record Global)) → IsFinished s content f → length f.fresh.history ≤ f.drafted → IsFollowed s content result }
    ensures from { result.from ≡ f.from }
    ensures drafts { firsts result.drafts.items ≡ firsts f.drafts.items }
{
    let Finish {
        fresh,
        shifts,
        from,
        drafted: _,
        drafts,
    } = f;
    disposer.dispose(Waste::Manager(fresh));
    Follow {
        shifts,
        from,
        read: from,
        drafts,
    }
}
