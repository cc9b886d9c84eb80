//! Laws about what is withheld until it is committed, and about what a crash leaves of that, each stated by the contract
//! of a function without effect.

ghost use Rattle.std.specs.Prelude.{◌≡◌, ◌≢◌, ◌≤◌, ℕ, List, Option, length, map, take};
ghost use Rattle.std.specs.Global.{Global};
ghost use Rattle.ups_life.specs.declared.entry.Entry.{Entry};
ghost use Rattle.ups_journal.specs.declared.record.Record.{Record};
ghost use Rattle.ups_journal.specs.Columns.{recorded};
ghost use Rattle.ups_service.specs.Law.{BeginsHistory};
ghost use Rattle.ups_ledger.specs.declared.keeper.Keeper.{Keeper};
ghost use Rattle.ups_ledger.specs.Keeping.{AreFirst, AreKept, AreSafe, IsKept, IsSafe, KeepsSeen, LeavesFirst};

use crate::commits::{Committed, Keeping};
use crate::due::{CommitDue, Noted};
use crate::ledger::Ledger;
use crate::withheld::Withheld;
use std::alloc::Global;
use std::sync::Wait;
use ups_service::SharedService;
use ups_turn::Fixed;

/// Does nothing at run time: its contract tells a proof that, while at least as many entries are committed as are due,
/// as at each write on a connection, what holds once they are committed holds of as many entries as the pass has seen, if
/// it has made a call since the count began.
pub fn what_may_be_sent_is_committed<F, D, M, K, R>(
    due: &mut CommitDue<D>,
    committed: &Committed<K>,
    withheld: &mut Withheld<'_, F, D, M, R>,
)
where
    F: Fixed,
    D: Noted,
    M: SharedService<Global>,
    K: Keeping,
    R: Wait,
    requires { due.old.seen.total ≤ committed.now.count }
    ensures { withheld.old.seated.pass.calls ≢ D.calls → ∥ K.had (length withheld.old.seated.pass.seen) ∥₁ }
{
    due.audit(&mut withheld.share);
}

/// Does nothing at run time: its contract tells a proof that a number of entries names them. Where a ledger has the
/// records of the first entries of a history, as it has after each commit, it has those of each beginning of this
/// history that is no longer, as each pass at its desk has seen one.
pub fn a_number_of_entries_names_them()
    ensures { (records : List (Record Global)) → (history seen : List (Entry Global)) → (count : ℕ) → AreFirst records history count → BeginsHistory seen history → length seen ≤ count → take (length seen) records ≡ map recorded seen }
{}

/// Does nothing at run time: its contract tells a proof what is left of the ledger after a power cut. A pass has seen a
/// beginning of a history, and an answer of it that was sent rests on the first `rests` entries of that. The ledger's pass
/// has seen a beginning of the same history, of which a crash would leave the first entries, and at least as many as are
/// committed. Then whatever records a crash leaves begin with those of the entries on which the answer rests, since these
/// are no more than were committed when it was sent.
pub fn a_crash_leaves_what_answers_rest_on<L: Ledger>()
    ensures { (ledger : L) → (watched seen history : List (Entry Global)) → (committed rests : ℕ) → (records : List (Record Global))
        → LeavesFirst L.Ledger ledger watched committed → BeginsHistory watched history → BeginsHistory seen history → rests ≤ committed → rests ≤ length seen
        → L.is_first ledger → L.recovers ledger records → take rests records ≡ map recorded (take rests seen) }
{}

/// Does nothing at run time: its contract tells a proof that the first entries of what a pass has seen are those of each
/// history that begins with that, such as the one of a closed desk: a ledger that has them, and of which a crash leaves
/// them, has those of that history, too.
pub fn a_ledger_has_the_first_of_a_longer_history<L: Ledger>()
    ensures kept { (keeper : Option (Keeper L L.Ledger)) → (seen history : List (Entry Global)) → BeginsHistory seen history → AreKept L.Ledger keeper seen → AreKept L.Ledger keeper history }
    ensures safe { (keeper : Option (Keeper L L.Ledger)) → (seen history : List (Entry Global)) → BeginsHistory seen history → AreSafe L.Ledger keeper seen → AreSafe L.Ledger keeper history }
{}

/// Does nothing at run time: its contract tells a proof that a ledger keeps what each pass has seen, as far as that is
/// committed, though it has the history from one pass alone: if both have seen a beginning of one history, as all passes at
/// a desk have, the first entries of both are the same.
pub fn a_ledger_keeps_what_each_pass_has_seen<L: Ledger>()
    ensures { (keeper : Keeper L L.Ledger) → (watched seen history : List (Entry Global)) → BeginsHistory watched history → BeginsHistory seen history → IsKept L.Ledger keeper watched → IsSafe L.Ledger keeper watched → KeepsSeen L.Ledger keeper seen }
{}
