//! A ledger in a store.

ghost use Rattle.std.specs.Prelude.{◌≡◌, ◌⊎◌, ◌+◌, ◌≤◌, ◌++◌, List, [], false, true, length, take, drop, IfOk, IfErr, IsTrue, OnOk, OnErr};
ghost use Rattle.std.specs.Global.{Global};
ghost use Rattle.sqlite_trees.specs.View.{IsClean};
ghost use Rattle.ups_store.specs.Shown.{requests_shown, requests};
ghost use Rattle.ups_journal.specs.declared.record.Record.{Record};
ghost use Rattle.ups_ledger.specs.Behind.{AreBehind};
ghost use Rattle.ups_ledger.specs.declared.fault.LedgerFault.TheVariants.{Full};
ghost use Rattle.ups_start.specs.Started.{said};
ghost use Rattle.ups_start.specs.Front.{front_with};
ghost use Rattle.ups_start.specs.Reopened.{HasBehind, AreBehindSame};
ghost use Rattle.ups_start.specs.Shelved.{kept_in, drafts_of, LeavesRecords, Recovers, IsSound, IsHonest, IsCounted, IsDrafted, IsInDoubt, IsOpenOrInDoubt, HasSettled, leaves_kept};
ghost use Rattle.ups_start.specs.declared.shelf.DraftFront.TheVariants.{Known};

use crate::beginning::StartedRun;
use crate::front::Front;
use crate::place::StorePlace;
use crate::reopening::{Reopened, append_rest, fault_of_open, go_through};
use crate::settling::open_exchanged;
use crate::shelf::{DraftFront, Shelf, tidy};
use std::alloc::Global;
use ups_journal::Record;
use ups_lasting::DraftLedger;
use ups_ledger::LedgerFault;
use ups_store::Run;

/// A ledger with drafts in the store at a place. If a failed sync has shut the store, the next append reopens it: it must
/// then have as many requests as are committed, with their digest, followed by nothing but records that the failed append was
/// to add. If an exchange has shut it, it must be settled first.
#[derive(Drop)]
pub struct StoreLedger<'a, P: StorePlace> {
    alloc: Global,
    place: P,
    about: Run<'a>,
    /// The number of the run.
    run: u64,
    shelf: Shelf<P::Store>,
    ghost counted: { IsCounted shelf },
    ghost drafted: { IsDrafted shelf },
}

impl<'a, P: StorePlace> StoreLedger<'a, P> {
    /// Returns the ledger that continues a start on `committed` requests.
    pub(crate) fn of(
        alloc: Global,
        place: P,
        about: Run<'a>,
        begun: StartedRun<P::Store>,
        committed: u64,
    ) -> StoreLedger<'a, P>
        requires { IsTrue (requests_shown begun.store).is_open → length (said (requests begun.store)) ≡ committed }
        ensures clean { IsSound result.shelf → IsClean (requests_shown begun.store) }
        ensures honest { IsHonest result.shelf → IsClean (requests_shown begun.store) }
        ensures at_first { IsSound result.shelf → IsHonest result.shelf }
        ensures sound { IsTrue (requests_shown begun.store).is_open → IsSound result.shelf }
        ensures leaves { (rs : List (Record Global)) → Recovers result.shelf.held rs → LeavesRecords begun.store rs }
        ensures kept { kept_in result.shelf ≡ said (requests begun.store) }
        ensures committed { result.shelf.front.count ≡ committed }
    {
        let StartedRun { store, run, digest } = begun;
        StoreLedger {
            alloc,
            place,
            about,
            run,
            shelf: Shelf::first(
                store,
                Front {
                    count: committed,
                    digest,
                },
            ),
        }
    }

    /// Returns the number of the run.
    pub fn run(&self) -> u64
        ensures { result ≡ self.now.run }
    {
        self.run
    }

    /// Reopens the store, and returns it with the number of these records that it already has. The ledger is without it.
    ///
    /// Errors: Shut if it can't be opened now; Lost if it is damaged, or its requests have another number or digest than
    /// those that were committed.
    fn reopen(&mut self, records: &[Record<Global>]) -> Result<Reopened<P::Store>, LedgerFault>
        ensures within { IfOk result (λ r. r.there ≤ length records.now) }
        ensures behind { IfOk result (λ r. IsClean (requests_shown r.store) → HasBehind (said (requests r.store)) self.old.shelf.front records.now r.there) }
        ensures same { self.new.shelf.front ≡ self.old.shelf.front }
        ensures drafts { self.new.shelf.drafts ≡ self.old.shelf.drafts }
        ensures doubtful { self.new.shelf.is_first ≡ false }
    {
        let front = self.shelf.let_go()?;
        let replay = match self.place.open() {
            Ok(replay) => replay,
            Err(fault) => return Err(self.missed(fault_of_open(fault))),
        };
        match go_through(replay, front, records) {
            Ok(reopened) => Ok(reopened),
            Err(fault) => Err(self.missed(fault)),
        }
    }

    /// Notes why reopening failed, and returns the fault.
    fn missed(&mut self, fault: LedgerFault) -> LedgerFault
        ensures same { self.new.shelf.front ≡ self.old.shelf.front }
        ensures drafts { self.new.shelf.drafts ≡ self.old.shelf.drafts }
        ensures doubtful { self.old.shelf.is_first ≡ false → self.new.shelf.is_first ≡ false }
    {
        if fault == LedgerFault::Lost {
            self.shelf.give_up();
        }
        fault
    }

    /// Reopens the store, and appends the records that it does not have yet. If that fails it has to be reopened again.
    fn append_anew(&mut self, records: &[Record<Global>]) -> Result<(), LedgerFault>
        ensures behind { OnOk result (IsHonest self.new.shelf → AreBehindSame (kept_in self.new.shelf) self.old.shelf.front records.now) }
        ensures more { OnOk result (self.new.shelf.front ≡ front_with self.old.shelf.front records.now) }
        ensures no_more { OnErr result (self.new.shelf.front ≡ self.old.shelf.front) }
        ensures no_drafts { OnErr result (self.new.shelf.drafts ≡ self.old.shelf.drafts) }
        ensures doubtful { self.new.shelf.is_first ≡ false }
    {
        let reopened = self.reopen(records)?;
        let Some(front) = self.shelf.front_with(records) else {
            return Err(LedgerFault::Full);
        };
        match append_rest(reopened, self.run, records) {
            Ok(store) => {
                self.shelf.take_up(store, front);
                Ok(())
            }
            Err(fault) => Err(fault),
        }
    }
}

impl<P: StorePlace> DraftLedger for StoreLedger<'_, P> {
    ghost kept = { λ l. kept_in l.shelf };

    ghost drafts = { λ l. drafts_of l.shelf };

    ghost told = { λ l. l.shelf.front.count };

    ghost is_sound = { λ l. IsSound l.shelf };

    ghost is_honest = { λ l. IsHonest l.shelf };

    ghost is_first = { λ l. IsTrue l.shelf.is_first };

    ghost recovers = { λ l rs. Recovers l.shelf.held rs };

    ghost settled = { λ l sound rs left. leaves_kept l.shelf.held rs sound.1 left };

    fn run(&self) -> u64 {
        StoreLedger::run(self)
    }

    fn len(&self) -> u64 {
        self.shelf.count()
    }

    fn is_up(&self) -> bool {
        self.shelf.is_up()
    }

    #[tactic(auto, using(crate::proofs::Digested::are_behind))]
    fn append(&mut self, records: &[Record<Global>]) -> Result<(), LedgerFault>
        ensures put { OnOk result (IsSound self.new.shelf → kept_in self.new.shelf ≡ kept_in self.old.shelf ++ records.now) }
        ensures same { OnErr result (IsSound self.new.shelf → kept_in self.new.shelf ≡ kept_in self.old.shelf) }
        ensures drafts { IsSound self.new.shelf → drafts_of self.new.shelf ≡ drafts_of self.old.shelf }
        ensures sound { IsSound self.new.shelf → IsSound self.old.shelf }
        ensures behind { OnOk result (IsHonest self.new.shelf → AreBehind (kept_in self.new.shelf) self.old.shelf.front.count records.now) }
        ensures compared { OnOk result (IsHonest self.new.shelf → AreBehindSame (kept_in self.new.shelf) self.old.shelf.front records.now) }
        ensures first { IsTrue self.new.shelf.is_first → IsTrue self.old.shelf.is_first }
        ensures crash { IsTrue self.new.shelf.is_first → (rs : List (Record Global)) → Recovers self.new.shelf.held rs → Recovers self.old.shelf.held rs ⊎ (IsSound self.old.shelf × (rs ≡ kept_in self.old.shelf ++ records.now)) }
        ensures left { OnOk result (IsTrue self.new.shelf.is_first → (rs : List (Record Global)) → Recovers self.new.shelf.held rs → IsSound self.new.shelf × (rs ≡ kept_in self.new.shelf)) }
        ensures more { OnOk result (self.new.shelf.front.count ≡ self.old.shelf.front.count + length records.now) }
        ensures no_more { OnErr result (self.new.shelf.front.count ≡ self.old.shelf.front.count) }
        ensures digest { OnOk result (self.new.shelf.front ≡ front_with self.old.shelf.front records.now) }
        ensures no_digest { OnErr result (self.new.shelf.front ≡ self.old.shelf.front) }
        ensures sure { OnOk result (¬ IsInDoubt self.old.shelf.drafts) }
        ensures no_drafts { OnErr result (self.new.shelf.drafts ≡ self.old.shelf.drafts) }
    {
        if let DraftFront::InDoubt(_) = self.shelf.drafts {
            return Err(LedgerFault::Shut);
        }
        match self.shelf.append(self.run, records) {
            Err(LedgerFault::Shut) => self.append_anew(records),
            answer => answer,
        }
    }

    fn tidy(&mut self) {
        tidy::<P>(&mut self.shelf, self.run, &self.about);
    }

    fn read(&mut self, from: u64, most: usize) -> Result<Vec<Record<Global>, Global>, LedgerFault> {
        self.shelf.read(self.alloc, from, most)
    }

    fn clear(&mut self, most: u32) -> Result<bool, LedgerFault> {
        self.shelf.clear(most)
    }

    fn draft(&mut self, records: &[Record<Global>]) -> Result<(), LedgerFault> {
        self.shelf.draft(self.run, records)
    }

    fn exchange(&mut self) -> Result<(), LedgerFault>
        ensures put { OnOk result (IsSound self.new.shelf → kept_in self.new.shelf ≡ drafts_of self.old.shelf) }
        ensures same { OnErr result (IsSound self.new.shelf → kept_in self.new.shelf ≡ kept_in self.old.shelf) }
        ensures sound { IsSound self.new.shelf → IsSound self.old.shelf }
        ensures full { IfErr result (λ fault. fault ≡ Full → IsSound self.old.shelf → IsHonest self.new.shelf → IsSound self.new.shelf) }
        ensures doubt { OnErr result (IsSound self.old.shelf → IsHonest self.new.shelf → IsOpenOrInDoubt self.old.shelf self.new.shelf) }
        ensures front { OnOk result (self.old.shelf.drafts ≡ Known self.new.shelf.front) }
        ensures no_front { OnErr result (self.new.shelf.front ≡ self.old.shelf.front) }
        ensures first { IsTrue self.new.shelf.is_first → IsTrue self.old.shelf.is_first }
        ensures crash { IsTrue self.new.shelf.is_first → (rs : List (Record Global)) → Recovers self.new.shelf.held rs → Recovers self.old.shelf.held rs ⊎ (IsSound self.old.shelf × (rs ≡ drafts_of self.old.shelf)) }
        ensures left { OnOk result (IsTrue self.new.shelf.is_first → (rs : List (Record Global)) → Recovers self.new.shelf.held rs → IsSound self.new.shelf × (rs ≡ kept_in self.new.shelf)) }
    {
        self.shelf.exchange(self.run, &self.about)
    }

    fn settle(&mut self) -> Result<bool, LedgerFault>
        ensures anew { OnOk result (¬ IsTrue self.new.shelf.is_first) }
        ensures same { IsSound self.new.shelf → kept_in self.new.shelf ≡ kept_in self.old.shelf }
        ensures sound { IsSound self.new.shelf → IsSound self.old.shelf }
        ensures settled { IfOk result (λ made. HasSettled self.old.shelf self.new.shelf made) }
        ensures no_front { OnErr result (self.new.shelf.front ≡ self.old.shelf.front) }
        ensures no_doubt { OnErr result (self.new.shelf.drafts ≡ self.old.shelf.drafts) }
        ensures first { IsTrue self.new.shelf.is_first → IsTrue self.old.shelf.is_first }
        ensures crash { IsTrue self.new.shelf.is_first → (rs : List (Record Global)) → Recovers self.new.shelf.held rs → Recovers self.old.shelf.held rs }
    {
        let DraftFront::InDoubt(drafted) = self.shelf.drafts else {
            return Err(LedgerFault::Shut);
        };
        let before = self.shelf.let_go()?;
        match open_exchanged(&self.place, before, drafted) {
            Ok(settled) => {
                self.shelf.take_up(settled.store, settled.front);
                Ok(settled.is_made)
            }
            Err(fault) => Err(self.missed(fault)),
        }
    }
}
