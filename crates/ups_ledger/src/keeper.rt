//! A ledger with the number of committed entries.

ghost use Rattle.std.specs.Prelude.{◌≡◌};
ghost use Rattle.ups_ledger.specs.Backed.{HadAtLeast};

use crate::committing::commit;
use crate::disposing::Disposer;
use crate::fault::{CommitFault, LedgerFault};
use crate::ledger::Ledger;
use crate::tending::Tending;
use std::alloc::Global;
use std::sync::Wait;
use ups_service::SharedService;
use ups_turn::{Desk, Pass};

/// A ledger of the history behind a desk, with the number of committed entries, which is the number that the ledger has
/// told. At some time it had told so while it had as many records, if its disk was honest then.
#[derive(Drop)]
pub struct Keeper<L: Ledger> {
    /// The ledger.
    pub ledger: L,
    /// The number of committed entries, whose records the ledger has.
    pub committed: usize,
    ghost told: { L.told ledger ≡ committed },
    ghost had: { ∥ HadAtLeast L.Ledger committed ∥₁ },
}

impl<L: Ledger> Keeper<L> {
    ghost use Rattle.std.specs.Prelude.{◌+◌, ◌<◌, ◌≤◌, List, length, map, take, drop, OnOk};
    ghost use Rattle.std.specs.Global.{Global};
    ghost use Rattle.ups_life.specs.declared.entry.Entry.{Entry};
    ghost use Rattle.ups_journal.specs.Columns.{recorded};
    ghost use Rattle.ups_ledger.specs.Behind.{AreBehind};
    ghost use Rattle.ups_ledger.specs.Keeping.{HasWatched, IsKept, IsSafe};

    /// Returns the number of committed entries.
    pub fn count(&self) -> u64
        ensures { result ≡ self.now.committed }
    {
        self.committed as u64
    }

    /// Appends the entries of the history behind a desk that the ledger does not have yet, at most `most`, as
    /// [`commit`] does.
    ///
    /// # Errors
    ///
    /// Those of [`commit`]; the number of committed entries is then unchanged.
    pub fn commit<M: SharedService<Global>, R: Wait>(
        &mut self,
        rt: &R,
        alloc: Global,
        desk: &Desk<M, Global>,
        pass: &mut Pass<M, Global>,
        most: usize,
    ) -> Result<(), CommitFault>
        requires here { pass.old.table ≡ desk.now.table }
        ensures stays { pass.new.table ≡ pass.old.table }
        ensures watched { HasWatched pass.old pass.new }
        ensures calls { pass.new.calls ≤ pass.old.calls + 1 }
        ensures kept { IsKept L.Ledger self.old pass.old.seen → IsKept L.Ledger self.new pass.new.seen }
        ensures number { OnOk result (self.new.committed ≡ self.old.committed + length (take most (drop self.old.committed pass.new.seen))) }
        ensures behind { OnOk result (self.old.committed < self.new.committed → L.is_honest self.new.ledger → AreBehind (L.kept self.new.ledger) self.old.committed (map recorded (take most (drop self.old.committed pass.new.seen)))) }
        ensures safe { IsKept L.Ledger self.old pass.old.seen → IsSafe L.Ledger self.old pass.old.seen → IsSafe L.Ledger self.new pass.new.seen }
        ensures more { self.old.committed ≤ self.new.committed }
        ensures sound { L.is_sound self.new.ledger → L.is_sound self.old.ledger }
    {
        let committed = commit(
            rt,
            alloc,
            desk,
            pass,
            &mut self.ledger,
            self.committed,
            most,
        )?;
        self.committed = committed;
        Ok(())
    }

    /// Tidies up the ledger. Call it when no requests arrive. What is committed stays.
    pub fn tidy(&mut self)
        ensures kept { (history : List (Entry Global)) → IsKept L.Ledger self.old history → IsKept L.Ledger self.new history }
        ensures safe { (history : List (Entry Global)) → IsKept L.Ledger self.old history → IsSafe L.Ledger self.old history → IsSafe L.Ledger self.new history }
        ensures more { self.old.committed ≤ self.new.committed }
        ensures sound { L.is_sound self.new.ledger → L.is_sound self.old.ledger }
    {
        self.ledger.tidy();
    }

    /// Does a slice of a compaction of the ledger, as [`Ledger::tend`] does. What is committed stays.
    ///
    /// # Errors
    ///
    /// Those of [`Ledger::tend`].
    pub fn tend<B: Disposer>(
        &mut self,
        moment: u64,
        at: u64,
        disposer: &B,
    ) -> Result<Tending, LedgerFault>
        ensures kept { (history : List (Entry Global)) → IsKept L.Ledger self.old history → IsKept L.Ledger self.new history }
        ensures safe { (history : List (Entry Global)) → IsKept L.Ledger self.old history → IsSafe L.Ledger self.old history → IsSafe L.Ledger self.new history }
        ensures more { self.old.committed ≤ self.new.committed }
        ensures sound { L.is_sound self.new.ledger → L.is_sound self.old.ledger }
    {
        self.ledger.tend(moment, at, disposer)
    }
}
