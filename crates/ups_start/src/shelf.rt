//! The store of a ledger, which may have to be reopened.

ghost use Rattle.std.specs.Prelude.{◌≡◌, ◌⊎◌, ◌++◌, List, false, true, IfOk, IfErr, IfSome, IsTrue, OnOk, OnErr};
ghost use Rattle.sqlite_trees.specs.View.{IsClean};
ghost use Rattle.std.specs.Global.{Global};
ghost use Rattle.ups_journal.specs.declared.record.Record.{Record};
ghost use Rattle.ups_store.specs.Shown.{requests_shown, requests};
ghost use Rattle.ups_ledger.specs.declared.fault.LedgerFault.TheVariants.{Full};
ghost use Rattle.ups_start.specs.Front.{AreFront, front_with};
ghost use Rattle.ups_start.specs.Reopened.{AreBehindSame};
ghost use Rattle.ups_start.specs.Started.{said};
ghost use Rattle.ups_start.specs.Shelved.{records_in, drafts_on, IsOpenStore, IsHonestStore, LeavesRecords, Recovers, kept_in, drafts_of, IsSound, IsHonest, IsCounted, IsDrafted};
ghost use Rattle.ups_start.specs.declared.shelf.DraftFront.TheVariants.{Unknown};
ghost use Rattle.ups_start.specs.declared.shelf.HeldStore.TheVariants.{Open, Lost};

use crate::fault::fault_of_append;
use crate::front::Front;
use crate::place::StorePlace;
use sqlite_trees::store::Store;
use std::alloc::Global;
use ups_journal::Record;
use ups_ledger::LedgerFault;
use ups_store::{RequestStore, Run};

/// A store, open or not.
#[derive(Drop)]
pub enum HeldStore<S: Store> {
    /// It is open.
    Open(RequestStore<S>),
    /// It has to be reopened.
    Shut,
    /// It can't be reopened, or has other requests than were committed.
    Lost,
}

/// What is known of the drafts in a store.
#[derive(Clone, Copy, Debug, PartialEq, Eq)]
pub enum DraftFront {
    /// Nothing: they have to be deleted before others are written.
    Unknown,
    /// Their front.
    Known(Front),
    /// Their front, and nobody knows whether they have taken the place of the requests.
    InDoubt(Front),
}

/// A store in which records are kept.
#[derive(Drop)]
pub struct Shelf<S: Store> {
    pub(crate) held: HeldStore<S>,
    /// The requests that are committed: those that it had at first, and those that an append returned `Ok` for; after an
    /// exchange, the drafts. A store that a failed sync has shut may have more, or others if an exchange is in doubt.
    pub(crate) front: Front,
    /// What is known of the drafts.
    pub(crate) drafts: DraftFront,
    /// Whether it never had to be reopened.
    is_first: bool,
}

impl<S: Store> HeldStore<S> {
    /// Returns whether the store is open.
    pub(crate) fn is_up(&self) -> bool
        ensures sound { IsOpenStore self.now → result ≡ true }
        ensures honest { result ≡ true → IsHonestStore self.now → IsOpenStore self.now }
        ensures up { result ≡ true → (rs : List (Record Global)) → Recovers self.now rs → IsOpenStore self.now }
    {
        match self {
            HeldStore::Open(store) => !store.is_shut(),
            HeldStore::Shut | HeldStore::Lost => false,
        }
    }
}

/// Appends records.
fn append_to<S: Store>(
    held: &mut HeldStore<S>,
    run: u64,
    records: &[Record<Global>],
) -> Result<(), LedgerFault>
    ensures put { OnOk result (IsOpenStore held.new → records_in held.new ≡ records_in held.old ++ records.now) }
    ensures same { OnErr result (IsOpenStore held.new → records_in held.new ≡ records_in held.old) }
    ensures drafts { IsOpenStore held.new → drafts_on held.new ≡ drafts_on held.old }
    ensures sound { IsOpenStore held.new → IsOpenStore held.old }
    ensures is_open { OnOk result (IsHonestStore held.new → IsOpenStore held.new) }
    ensures full { IfErr result (λ fault. fault ≡ Full → IsHonestStore held.new → IsOpenStore held.new) }
    ensures left { OnOk result ((rs : List (Record Global)) → Recovers held.new rs → IsOpenStore held.new × (rs ≡ records_in held.new)) }
    ensures crash { (rs : List (Record Global)) → Recovers held.new rs → Recovers held.old rs ⊎ (IsOpenStore held.old × (rs ≡ records_in held.old ++ records.now)) }
{
    match held {
        HeldStore::Open(store) => match store.append(run, records) {
            Ok(()) => Ok(()),
            Err(fault) => Err(fault_of_append(fault, store.is_shut())),
        },
        HeldStore::Shut => Err(LedgerFault::Shut),
        HeldStore::Lost => Err(LedgerFault::Lost),
    }
}

/// Writes the number of requests into an open store, and returns whether it did.
fn note_in<S: Store>(held: &mut HeldStore<S>, run: u64, about: &Run<'_>) -> bool
    ensures same { IsOpenStore held.new → records_in held.new ≡ records_in held.old }
    ensures drafts { IsOpenStore held.new → drafts_on held.new ≡ drafts_on held.old }
    ensures sound { IsOpenStore held.new → IsOpenStore held.old }
    ensures crash { (rs : List (Record Global)) → Recovers held.new rs → Recovers held.old rs ⊎ (IsOpenStore held.old × (rs ≡ records_in held.old)) }
{
    match held {
        HeldStore::Open(store) => match store.note_requests(run, about) {
            Ok(()) => true,
            Err(_) => false,
        },
        _ => false,
    }
}

/// Copies what is stored next to an open store into it.
fn copy_in<P: StorePlace>(held: &mut HeldStore<P::Store>)
    ensures same { IsOpenStore held.new → records_in held.new ≡ records_in held.old }
    ensures drafts { IsOpenStore held.new → drafts_on held.new ≡ drafts_on held.old }
    ensures sound { IsOpenStore held.new → IsOpenStore held.old }
    ensures crash { (rs : List (Record Global)) → Recovers held.new rs → Recovers held.old rs }
{
    if let HeldStore::Open(store) = held {
        let _ = P::checkpoint(store);
    }
}

impl<S: Store> Shelf<S> {
    /// Returns the shelf of a store that was opened for the first time and has the committed requests.
    #[tactic(auto, using(crate::proofs::Digested::nothing_known))]
    pub(crate) fn first(store: RequestStore<S>, front: Front) -> Shelf<S>
        requires { IsTrue (requests_shown store).is_open → AreFront (said (requests store)) front }
        ensures clean { IsSound result → IsClean (requests_shown store) }
        ensures honest { IsHonest result → IsClean (requests_shown store) }
        ensures at_first { IsSound result → IsHonest result }
        ensures sound { IsTrue (requests_shown store).is_open → IsSound result }
        ensures leaves { (rs : List (Record Global)) → Recovers result.held rs → LeavesRecords store rs }
        ensures kept { kept_in result ≡ said (requests store) }
        ensures counted { IsCounted result }
        ensures drafted { IsDrafted result }
        ensures front { result.front ≡ front }
    {
        Shelf {
            held: HeldStore::Open(store),
            front,
            drafts: DraftFront::Unknown,
            is_first: true,
        }
    }

    /// Returns the number of committed requests.
    pub(crate) fn count(&self) -> u64
        ensures { result ≡ self.now.front.count }
    {
        self.front.count
    }

    /// Returns whether the store is open.
    pub(crate) fn is_up(&self) -> bool
        ensures sound { IsSound self.now → result ≡ true }
        ensures up { result ≡ true → (rs : List (Record Global)) → Recovers self.now.held rs → IsOpenStore self.now.held }
    {
        self.held.is_up()
    }

    /// Returns the front with these records behind it, or None if they are too many.
    pub(crate) fn front_with(&self, records: &[Record<Global>]) -> Option<Front>
        ensures { IfSome result (λ front. front ≡ front_with self.now.front records.now) }
    {
        self.front.with(records)
    }

    /// Appends records as entered in the run `run`, all or none.
    ///
    /// Errors: Full: nothing is appended, and the store stays open; Write: nobody knows, if the store is shut; Shut if it
    /// has to be reopened; Lost.
    pub(crate) fn append(&mut self, run: u64, records: &[Record<Global>]) -> Result<(), LedgerFault>
        ensures put { OnOk result (IsSound self.new → kept_in self.new ≡ kept_in self.old ++ records.now) }
        ensures same { OnErr result (IsSound self.new → kept_in self.new ≡ kept_in self.old) }
        ensures drafts { IsSound self.new → drafts_of self.new ≡ drafts_of self.old }
        ensures sound { IsSound self.new → IsSound self.old }
        ensures behind { OnOk result (IsCounted self.old → IsHonest self.new → AreBehindSame (kept_in self.new) self.old.front records.now) }
        ensures full { IfErr result (λ fault. fault ≡ Full → IsSound self.old → IsHonest self.new → IsSound self.new) }
        ensures left { OnOk result ((rs : List (Record Global)) → Recovers self.new.held rs → IsOpenStore self.new.held × (rs ≡ kept_in self.new)) }
        ensures first { self.new.is_first ≡ self.old.is_first }
        ensures crash { (rs : List (Record Global)) → Recovers self.new.held rs → Recovers self.old.held rs ⊎ (IsOpenStore self.old.held × (rs ≡ kept_in self.old ++ records.now)) }
        ensures more { OnOk result (self.new.front ≡ front_with self.old.front records.now) }
        ensures no_more { OnErr result (self.new.front ≡ self.old.front) }
        ensures known { self.new.drafts ≡ self.old.drafts }
        ensures counted { IsCounted self.old → IsCounted self.new }
        ensures drafted { IsDrafted self.old → IsDrafted self.new }
    {
        let Some(front) = self.front_with(records) else {
            return Err(LedgerFault::Full);
        };
        match append_to(&mut self.held, run, records) {
            Ok(()) => {
                self.front = front;
                Ok(())
            }
            Err(fault) => Err(fault),
        }
    }

    /// Drops the store, so that it has to be reopened, and returns its front.
    ///
    /// Errors: Lost.
    pub(crate) fn let_go(&mut self) -> Result<Front, LedgerFault>
    where
        S: Drop,
        ensures front { IfOk result (λ front. front ≡ self.old.front) }
        ensures same { self.new.front ≡ self.old.front }
        ensures drafts { self.new.drafts ≡ self.old.drafts }
        ensures doubtful { self.new.is_first ≡ false }
        ensures shut { ¬ IsOpenStore self.new.held }
    {
        self.is_first = false;
        if let HeldStore::Lost = &self.held {
            return Err(LedgerFault::Lost);
        }
        self.held = HeldStore::Shut;
        Ok(self.front)
    }

    /// Takes the reopened store, which has this front. Of its drafts nothing is known.
    pub(crate) fn take_up(&mut self, store: RequestStore<S>, front: Front)
    where
        S: Drop,
        ensures { self.new ≡ record { held = Open store; front = front; drafts = Unknown; is_first = false } }
    {
        self.is_first = false;
        self.front = front;
        self.drafts = DraftFront::Unknown;
        self.held = HeldStore::Open(store);
    }

    /// Gives up the store for good.
    pub(crate) fn give_up(&mut self)
    where
        S: Drop,
        ensures { self.new ≡ record { held = Lost; front = self.old.front; drafts = self.old.drafts; is_first = false } }
    {
        self.is_first = false;
        self.held = HeldStore::Lost;
    }
}

/// Writes the number of requests into the store, and copies what is stored next to it into it. A failure shows at the
/// next call.
pub(crate) fn tidy<P: StorePlace>(shelf: &mut Shelf<P::Store>, run: u64, about: &Run<'_>)
    ensures same { IsSound shelf.new → kept_in shelf.new ≡ kept_in shelf.old }
    ensures drafts { IsSound shelf.new → drafts_of shelf.new ≡ drafts_of shelf.old }
    ensures sound { IsSound shelf.new → IsSound shelf.old }
    ensures front { shelf.new.front ≡ shelf.old.front }
    ensures counted { IsCounted shelf.old → IsCounted shelf.new }
    ensures drafted { IsDrafted shelf.old → IsDrafted shelf.new }
    ensures first { shelf.new.is_first ≡ shelf.old.is_first }
    ensures crash { (rs : List (Record Global)) → Recovers shelf.new.held rs → Recovers shelf.old.held rs ⊎ (IsOpenStore shelf.old.held × (rs ≡ kept_in shelf.old)) }
{
    if note_in(&mut shelf.held, run, about) {
        copy_in::<P>(&mut shelf.held);
    }
}
