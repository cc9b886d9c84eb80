//! The drafts in a store: writing them, and putting them in the place of the requests.

ghost use Rattle.std.specs.Prelude.{◌≡◌, ◌⊎◌, ◌++◌, List, [], true, take, drop, IfOk, IfErr, OnOk, OnErr, IsTrue};
ghost use Rattle.std.specs.Global.{Global};
ghost use Rattle.ups_journal.specs.declared.record.Record.{Record};
ghost use Rattle.ups_ledger.specs.declared.fault.LedgerFault.TheVariants.{Full};
ghost use Rattle.ups_start.specs.Shelved.{records_in, drafts_on, IsOpenStore, IsHonestStore, Recovers, kept_in, drafts_of, IsSound, IsHonest, IsCounted, IsDrafted, IsInDoubt, IsOpenOrInDoubt};
ghost use Rattle.ups_start.specs.Started.{said};

use crate::fault::fault_of_append;
use crate::front::Front;
use crate::shelf::{DraftFront, HeldStore, Shelf};
use sqlite_trees::store::{Alter, Store};
use std::alloc::Global;
use ups_journal::Record;
use ups_ledger::LedgerFault;
use ups_store::{Run, StoredRequest};

/// Returns the records of requests, without the runs in which they were entered.
///
/// Errors: Full if memory runs out.
fn records_of(
    alloc: Global,
    requests: Vec<StoredRequest>,
) -> Result<Vec<Record<Global>, Global>, LedgerFault>
    ensures { IfOk result (λ records. records.items ≡ said requests.items) }
{
    let mut records = Vec::new(alloc);
    for request in requests {
        let StoredRequest { run: _, asked } = request;
        if records.push(asked).is_err() {
            return Err(LedgerFault::Full);
        }
    }
    Ok(records)
}

/// Returns the committed requests from a place on, at most `most`.
fn read_in<S: Store>(
    alloc: Global,
    held: &mut HeldStore<S>,
    from: u64,
    most: usize,
) -> Result<Vec<StoredRequest>, LedgerFault>
    ensures read { IfOk result (λ requests. IsOpenStore held.new → said requests.items ≡ take most (drop from (records_in held.old))) }
    ensures same { IsOpenStore held.new → records_in held.new ≡ records_in held.old }
    ensures drafts { IsOpenStore held.new → drafts_on held.new ≡ drafts_on held.old }
    ensures sound { IsOpenStore held.new → IsOpenStore held.old }
    ensures crash { (rs : List (Record Global)) → Recovers held.new rs → Recovers held.old rs }
{
    match held {
        HeldStore::Open(store) => match store.read_from(alloc, from, most) {
            Ok(requests) => Ok(requests),
            Err(fault) => Err(fault_of_append(fault, store.is_shut())),
        },
        HeldStore::Shut => Err(LedgerFault::Shut),
        HeldStore::Lost => Err(LedgerFault::Lost),
    }
}

/// Deletes drafts, at most `most`, and returns whether it found that none is left.
fn clear_in<S: Store>(held: &mut HeldStore<S>, most: u32) -> Result<bool, LedgerFault>
    ensures none { IfOk result (λ none. none ≡ true → IsOpenStore held.new → drafts_on held.new ≡ []) }
    ensures same { IsOpenStore held.new → records_in held.new ≡ records_in held.old }
    ensures sound { IsOpenStore held.new → IsOpenStore held.old }
    ensures crash { (rs : List (Record Global)) → Recovers held.new rs → Recovers held.old rs ⊎ (IsOpenStore held.old × (rs ≡ records_in held.old)) }
{
    match held {
        HeldStore::Open(store) => match store.clear_drafts(most) {
            Ok(none) => Ok(none),
            Err(fault) => Err(fault_of_append(fault, store.is_shut())),
        },
        HeldStore::Shut => Err(LedgerFault::Shut),
        HeldStore::Lost => Err(LedgerFault::Lost),
    }
}

/// Appends drafts, as entered in the run `run`, all or none.
fn draft_in<S: Store>(
    held: &mut HeldStore<S>,
    run: u64,
    records: &[Record<Global>],
) -> Result<(), LedgerFault>
    ensures put { OnOk result (IsOpenStore held.new → drafts_on held.new ≡ drafts_on held.old ++ records.now) }
    ensures unchanged { OnErr result (IsOpenStore held.new → drafts_on held.new ≡ drafts_on held.old) }
    ensures same { IsOpenStore held.new → records_in held.new ≡ records_in held.old }
    ensures sound { IsOpenStore held.new → IsOpenStore held.old }
    ensures crash { (rs : List (Record Global)) → Recovers held.new rs → Recovers held.old rs ⊎ (IsOpenStore held.old × (rs ≡ records_in held.old)) }
{
    match held {
        HeldStore::Open(store) => match store.draft(run, records) {
            Ok(()) => Ok(()),
            Err(fault) => Err(fault_of_append(fault, store.is_shut())),
        },
        HeldStore::Shut => Err(LedgerFault::Shut),
        HeldStore::Lost => Err(LedgerFault::Lost),
    }
}

/// Puts the drafts in the place of the requests, and notes their number in the row of the run `run`.
fn exchange_in<S: Alter>(
    held: &mut HeldStore<S>,
    run: u64,
    about: &Run<'_>,
) -> Result<(), LedgerFault>
    ensures put { OnOk result (IsOpenStore held.new → records_in held.new ≡ drafts_on held.old) }
    ensures same { OnErr result (IsOpenStore held.new → records_in held.new ≡ records_in held.old) }
    ensures unchanged { OnErr result (IsOpenStore held.new → drafts_on held.new ≡ drafts_on held.old) }
    ensures sound { IsOpenStore held.new → IsOpenStore held.old }
    ensures full { IfErr result (λ fault. fault ≡ Full → IsHonestStore held.new → IsOpenStore held.new) }
    ensures left { OnOk result ((rs : List (Record Global)) → Recovers held.new rs → IsOpenStore held.new × (rs ≡ records_in held.new)) }
    ensures crash { (rs : List (Record Global)) → Recovers held.new rs → Recovers held.old rs ⊎ (IsOpenStore held.old × (rs ≡ drafts_on held.old)) }
{
    match held {
        HeldStore::Open(store) => match store.exchange(run, about) {
            Ok(()) => Ok(()),
            Err(fault) => Err(fault_of_append(fault, store.is_shut())),
        },
        HeldStore::Shut => Err(LedgerFault::Shut),
        HeldStore::Lost => Err(LedgerFault::Lost),
    }
}

impl<S: Store> Shelf<S> {
    /// Returns the committed records from a place on, at most `most`: the first is at 0.
    ///
    /// Errors: Full if memory runs out; Write; Shut if the store has to be reopened; Lost.
    pub(crate) fn read(
        &mut self,
        alloc: Global,
        from: u64,
        most: usize,
    ) -> Result<Vec<Record<Global>, Global>, LedgerFault>
        ensures read { IfOk result (λ records. IsSound self.new → records.items ≡ take most (drop from (kept_in self.old))) }
        ensures same { IsSound self.new → kept_in self.new ≡ kept_in self.old }
        ensures drafts { IsSound self.new → drafts_of self.new ≡ drafts_of self.old }
        ensures sound { IsSound self.new → IsSound self.old }
        ensures front { self.new.front ≡ self.old.front }
        ensures counted { IsCounted self.old → IsCounted self.new }
        ensures drafted { IsDrafted self.old → IsDrafted self.new }
        ensures first { self.new.is_first ≡ self.old.is_first }
        ensures crash { (rs : List (Record Global)) → Recovers self.new.held rs → Recovers self.old.held rs }
    {
        let requests = read_in(alloc, &mut self.held, from, most)?;
        records_of(alloc, requests)
    }

    /// Deletes drafts, at most `most`, and returns whether it found that none is left: then others may be written.
    ///
    /// Errors: Full: nothing is deleted; Write; Shut if the store has to be reopened, or an exchange is in doubt; Lost.
    #[tactic(auto, using(crate::proofs::Digested::nothing_known))]
    pub(crate) fn clear(&mut self, most: u32) -> Result<bool, LedgerFault>
        ensures none { IfOk result (λ none. none ≡ true → IsSound self.new → drafts_of self.new ≡ []) }
        ensures doubt { IsInDoubt self.old.drafts → self.new.drafts ≡ self.old.drafts }
        ensures same { IsSound self.new → kept_in self.new ≡ kept_in self.old }
        ensures sound { IsSound self.new → IsSound self.old }
        ensures front { self.new.front ≡ self.old.front }
        ensures counted { IsCounted self.old → IsCounted self.new }
        ensures drafted { IsDrafted self.old → IsDrafted self.new }
        ensures first { self.new.is_first ≡ self.old.is_first }
        ensures crash { (rs : List (Record Global)) → Recovers self.new.held rs → Recovers self.old.held rs ⊎ (IsOpenStore self.old.held × (rs ≡ kept_in self.old)) }
    {
        if let DraftFront::InDoubt(_) = self.drafts {
            return Err(LedgerFault::Shut);
        }
        self.drafts = DraftFront::Unknown;
        let none = clear_in(&mut self.held, most)?;
        if none {
            self.drafts = DraftFront::Known(Front::empty());
            return Ok(true);
        }
        Ok(false)
    }

    /// Appends drafts as entered in the run `run`, all or none.
    ///
    /// Errors: Full: none is appended; Write; Shut if the store has to be reopened, if the drafts that it has were not
    /// deleted before, or if an exchange is in doubt; Lost.
    pub(crate) fn draft(&mut self, run: u64, records: &[Record<Global>]) -> Result<(), LedgerFault>
        ensures put { OnOk result (IsSound self.new → drafts_of self.new ≡ drafts_of self.old ++ records.now) }
        ensures same { IsSound self.new → kept_in self.new ≡ kept_in self.old }
        ensures sound { IsSound self.new → IsSound self.old }
        ensures front { self.new.front ≡ self.old.front }
        ensures counted { IsCounted self.old → IsCounted self.new }
        ensures drafted { IsDrafted self.old → IsDrafted self.new }
        ensures first { self.new.is_first ≡ self.old.is_first }
        ensures crash { (rs : List (Record Global)) → Recovers self.new.held rs → Recovers self.old.held rs ⊎ (IsOpenStore self.old.held × (rs ≡ kept_in self.old)) }
    {
        let DraftFront::Known(drafted) = self.drafts else {
            return Err(LedgerFault::Shut);
        };
        let Some(front) = drafted.with(records) else {
            return Err(LedgerFault::Full);
        };
        match draft_in(&mut self.held, run, records) {
            Ok(()) => {
                self.drafts = DraftFront::Known(front);
                Ok(())
            }
            Err(fault) => Err(fault),
        }
    }
}

impl<S: Alter> Shelf<S> {
    ghost use Rattle.ups_start.specs.declared.shelf.DraftFront.TheVariants.{Known};

    /// Puts the drafts in the place of the requests, and notes their number in the row of the run `run`.
    ///
    /// Errors: Full: nothing has changed; Write; Shut if the store has to be reopened, if nothing is known of its drafts,
    /// or if an exchange is in doubt; Lost. An error that shuts the store leaves the exchange in doubt.
    #[tactic(auto, using(crate::proofs::Digested::nothing_known, crate::proofs::Digested::doubt_known, crate::proofs::Digested::known_same))]
    pub(crate) fn exchange(&mut self, run: u64, about: &Run<'_>) -> Result<(), LedgerFault>
        ensures put { OnOk result (IsSound self.new → kept_in self.new ≡ drafts_of self.old) }
        ensures same { OnErr result (IsSound self.new → kept_in self.new ≡ kept_in self.old) }
        ensures sound { IsSound self.new → IsSound self.old }
        ensures full { IfErr result (λ fault. fault ≡ Full → IsSound self.old → IsHonest self.new → IsSound self.new) }
        ensures doubt { OnErr result (IsSound self.old → IsHonest self.new → IsOpenOrInDoubt self.old self.new) }
        ensures front { OnOk result (self.old.drafts ≡ Known self.new.front) }
        ensures no_front { OnErr result (self.new.front ≡ self.old.front) }
        ensures counted { IsDrafted self.old → IsCounted self.old → IsCounted self.new }
        ensures drafted { IsDrafted self.old → IsDrafted self.new }
        ensures first { self.new.is_first ≡ self.old.is_first }
        ensures left { OnOk result ((rs : List (Record Global)) → Recovers self.new.held rs → IsOpenStore self.new.held × (rs ≡ kept_in self.new)) }
        ensures crash { (rs : List (Record Global)) → Recovers self.new.held rs → Recovers self.old.held rs ⊎ (IsOpenStore self.old.held × (rs ≡ drafts_of self.old)) }
    {
        let DraftFront::Known(front) = self.drafts else {
            return Err(LedgerFault::Shut);
        };
        if !self.held.is_up() {
            return Err(LedgerFault::Shut);
        }
        match exchange_in(&mut self.held, run, about) {
            Ok(()) => {
                self.front = front;
                self.drafts = DraftFront::Unknown;
                Ok(())
            }
            Err(fault) => {
                if self.held.is_up() {
                    return Err(fault);
                }
                self.drafts = DraftFront::InDoubt(front);
                Err(fault)
            }
        }
    }
}
