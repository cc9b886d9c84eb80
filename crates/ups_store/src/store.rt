//! The open store, to which requests are appended.

ghost use Rattle.std.specs.Prelude.{◌≡◌, ◌⊎◌, ◌+◌, ◌++◌, ◌<◌, ◌≤◌, ◌^◌, ◌∷◌, [], ⊤, false, ℕ, pos, map, length, IsTrue, IfOk, IfErr, OnOk, MatchOption};
ghost use Rattle.sqlite_disk.specs.Disk.{MoreFaults};
ghost use Rattle.sqlite_trees.specs.declared.store.Shape.TheVariants.{Table};
ghost use Rattle.sqlite_trees.specs.Tree.{Trees};
ghost use Rattle.sqlite_trees.specs.View.{IsClean, IsQuiet, KeepsSchema, KeepsCommitted, HasCause, IsStorableRow};
ghost use Rattle.ups_store.specs.Rows.{stored_in_run, request_row, requests_in, table_in, IsNumbered};
ghost use Rattle.ups_store.specs.Held.{HasTables, HoldsIfOpen, HoldsDraft, IsAdding, Adds, LeavesOthers};
ghost use Rattle.ups_store.specs.Concluding.{KeepsStore};
ghost use Rattle.ups_store.specs.Storing.{HasTooLarge};
ghost use Rattle.ups_store.specs.Faults.{HasReason};
ghost use Rattle.sqlite_store.specs.FileStore.{faults, HasSpilled, log_frames};
ghost use Rattle.sqlite_store.specs.Calls.{IsQuietCall};

use crate::concluding::concluded;
use crate::fault::StoreFault;
use crate::request;
use crate::runs::{Run, enter_run, put_run};
use sqlite_disk::Disk;
use sqlite_store::FileStore;
use sqlite_trees::error::StoreError;
use sqlite_trees::store::Store;
use sqlite_value::row::Row;
use std::alloc::Global;
use ups_journal::Record;

/// The maximum number of requests.
const MOST: u64 = (1 << 63) - 1;

/// The accepted requests on a disk, to which more can be appended.
#[derive(Drop)]
pub struct RequestStore<S: Store> {
    pub(crate) alloc: Global,
    pub(crate) store: S,
    /// The number of the tree of requests: 0 or 2.
    pub(crate) table: u32,
    /// The number of requests.
    pub(crate) count: u64,
    /// The number of requests in the draft if they are known to be numbered from 1.
    pub(crate) drafted: Option<u64>,
    pub(crate) row: Row,
    ghost held: { HoldsIfOpen (S.Store.view store) table count },
    ghost draft: { HoldsDraft (S.Store.view store) table drafted },
}

/// Appends the row of a record to this table in a transaction.
fn put_one<S: Store>(
    store: &mut S,
    row: &mut Row,
    table: u32,
    count: u64,
    run: u64,
    asked: &Record<Global>,
) -> Result<(), StoreError>
    requires table { IsClean (S.Store.view store.old) → (S.Store.view store.old).shape table ≡ Table }
    requires adding { IsClean (S.Store.view store.old) → IsAdding (S.Store.view store.old) table count }
    requires few { count + 1 < 2 ^ 63 }
    ensures added { OnOk result (IsClean (S.Store.view store.new) → Adds (S.Store.view store.old) (S.Store.view store.new) table (stored_in_run run asked.now ∷ []) count) }
    ensures others { OnOk result (IsClean (S.Store.view store.new) → LeavesOthers (S.Store.view store.old) (S.Store.view store.new) table) }
    ensures kept { KeepsCommitted (S.Store.view store.old) (S.Store.view store.new) }
    ensures schema { KeepsSchema (S.Store.view store.old) (S.Store.view store.new) }
    ensures cause { IsClean (S.Store.view store.new) → IfErr result (HasCause (S.Store.view store.old) (MoreFaults (S.Store.faults store.old) (S.Store.faults store.new))
        (¬ IsStorableRow ((S.Store.view store.old).reals table) (request_row (pos (count + 1)) (stored_in_run run asked.now)))) }
    ensures quiet { IsQuiet S.Store.view S.Store.faults S.Store.recovers S.Store.is_shielded store.old store.new }
{
    request::lay(row, (count + 1) as i64, run, asked)?;
    store.put(table, row)
}

/// Appends the rows of records to this table in a transaction.
pub(crate) fn put_all<S: Store>(
    store: &mut S,
    row: &mut Row,
    table: u32,
    count: u64,
    run: u64,
    records: &[Record<Global>],
) -> Result<(), StoreError>
    requires table { IsClean (S.Store.view store.old) → (S.Store.view store.old).is_broken ≡ false → (S.Store.view store.old).shape table ≡ Table }
    requires adding { IsClean (S.Store.view store.old) → (S.Store.view store.old).is_broken ≡ false → IsAdding (S.Store.view store.old) table count }
    requires few { count + length records.now < 2 ^ 63 }
    ensures added { OnOk result (IsClean (S.Store.view store.new) → Adds (S.Store.view store.old) (S.Store.view store.new) table (map (stored_in_run run) records.now) count) }
    ensures others { OnOk result (IsClean (S.Store.view store.new) → LeavesOthers (S.Store.view store.old) (S.Store.view store.new) table) }
    ensures sound { OnOk result (IsClean (S.Store.view store.new) → (S.Store.view store.old).is_broken ≡ false) }
    ensures kept { KeepsCommitted (S.Store.view store.old) (S.Store.view store.new) }
    ensures schema { KeepsSchema (S.Store.view store.old) (S.Store.view store.new) }
    ensures cause { IsClean (S.Store.view store.new) → IfErr result (HasCause (S.Store.view store.old) (MoreFaults (S.Store.faults store.old) (S.Store.faults store.new)) (HasTooLarge (S.Store.view store.old) table run records.now)) }
    ensures quiet { IsQuiet S.Store.view S.Store.faults S.Store.recovers S.Store.is_shielded store.old store.new }
{
    if store.is_broken() {
        return Err(StoreError::Broken);
    }
    for at in 0..records.len() {
        match put_one(store, row, table, count + at as u64, run, &records[at]) {
            Ok(()) => {}
            Err(error) => return Err(error),
        }
    }
    Ok(())
}

/// Returns the number of requests after adding `more`, or None if there would be too many.
pub(crate) fn count_with(count: u64, more: usize) -> Option<u64>
    ensures { MatchOption result (2 ^ 63 ≤ count + more) (λ all. (all ≡ count + more) × (count + more < 2 ^ 63)) }
{
    let all = count.checked_add(more as u64)?;
    if all > MOST {
        return None;
    }
    Some(all)
}

impl<S: Store> RequestStore<S> {
    ghost use Rattle.ups_store.specs.Shown.{requests_shown, requests, drafts, count_of, tree_of, is_drafting, draft_count};

    /// Returns a store of `count` requests in this table, of whose draft nothing is known.
    pub(crate) fn of(alloc: Global, store: S, table: u32, count: u64, row: Row) -> RequestStore<S>
        requires { HoldsIfOpen (S.Store.view store) table count }
        ensures { requests_shown result ≡ S.Store.view store }
    {
        RequestStore {
            alloc,
            store,
            table,
            count,
            drafted: None,
            row,
        }
    }

    /// Returns the inner store.
    pub(crate) fn into_store(self) -> S
        ensures { result ≡ self.store }
    {
        let RequestStore {
            alloc: _,
            store,
            table: _,
            count: _,
            drafted: _,
            row: _,
        } = self;
        store
    }

    /// Returns the number of requests.
    pub fn len(&self) -> u64
        ensures { IsTrue (requests_shown self.now).is_open → result ≡ length (requests self.now) }
    {
        self.count
    }

    /// Returns whether an error has shut the store, so that only reopening repairs it.
    pub fn is_shut(&self) -> bool
        ensures open { IsClean (requests_shown self.now) → result ≡ false → IsTrue (requests_shown self.now).is_open }
        ensures shut { IsTrue (requests_shown self.now).is_open → result ≡ false }
    {
        self.store.is_broken()
    }

    /// Appends records entered in the run `run`, all or none, and returns once they are on the disk. After a crash the
    /// store has all requests that were committed, followed by the records or by none of them.
    ///
    /// Errors: Memory, Disk, Damaged, Full; Shut after an error that only reopening repairs; TooLarge if the row of a
    /// record has a billion bytes or more; TooMany.
    pub fn append(&mut self, run: u64, records: &[Record<Global>]) -> Result<(), StoreFault>
        ensures added { OnOk result (IsClean (requests_shown self.new) → requests self.new ≡ requests self.old ++ map (stored_in_run run) records.now) }
        ensures runs { OnOk result (IsClean (requests_shown self.new) → (requests_shown self.new).committed 1 ≡ (requests_shown self.old).committed 1) }
        ensures drafts { OnOk result (IsClean (requests_shown self.new) → drafts self.new ≡ drafts self.old) }
        ensures drafting { (is_drafting self.new ≡ is_drafting self.old) × (draft_count self.new ≡ draft_count self.old) }
        ensures keeps { KeepsStore (requests_shown self.old) (requests_shown self.new) result }
        ensures tables { IsTrue (requests_shown self.old).is_open → IsClean (requests_shown self.new) → HasTables (requests_shown self.new) }
        ensures crash { (db : Trees) → S.Store.recovers self.new.store db
            → S.Store.recovers self.old.store db ⊎ (IsTrue (requests_shown self.old).is_open × (requests_in db ≡ requests self.old ++ map (stored_in_run run) records.now) × IsNumbered (db (table_in db))) }
        ensures cause { IsClean (requests_shown self.new) → IfErr result (HasReason (record {
          Failed = MoreFaults (S.Store.faults self.old.store) (S.Store.faults self.new.store);
          WasShut = IsTrue (requests_shown self.old).is_broken;
          IsTooLarge = HasTooLarge (requests_shown self.old) (tree_of self.old) run records.now;
          AreTooMany = 2 ^ 63 ≤ count_of self.old + length records.now;
          IsNotRequest = ⊥;
        })) }
    {
        let Some(count) = count_with(self.count, records.len()) else {
            return Err(StoreFault::TooMany);
        };
        let edited = put_all(
            &mut self.store,
            &mut self.row,
            self.table,
            self.count,
            run,
            records,
        );
        match concluded(&mut self.store, edited) {
            Ok(()) => {
                self.count = count;
                Ok(())
            }
            Err(fault) => Err(fault),
        }
    }
}

impl<S: Store> RequestStore<S> {
    ghost use Rattle.std.specs.Prelude.{IfSome};
    ghost use Rattle.sqlite_trees.specs.Tree.{put_row};
    ghost use Rattle.ups_store.specs.Faults.{HasRunReason};
    ghost use Rattle.ups_store.specs.Format.{IsCurrent};
    ghost use Rattle.ups_store.specs.Runs.{row_of_run, last_runs, last_number, last_requests};
    ghost use Rattle.ups_store.specs.Shown.{requests_shown, requests, drafts, runs, count_of, is_drafting, draft_count};

    /// Appends a run of the program, with the current number of requests, and returns the number of the run: the first
    /// is 1. The store has to be of the format of this version: call `upgrade` before. The last hundred runs are kept, and those before them are deleted. The requests stay as they are, also
    /// after a crash.
    ///
    /// Errors: Short if the row of the last run counts more requests than there are; those of `append`, with TooLarge
    /// and TooMany for the row of the run. An error that leaves the store open changes nothing.
    pub fn begin_run(&mut self, run: &Run<'_>) -> Result<u64, StoreFault>
        requires format { IsClean (requests_shown self.old) → IsCurrent (requests_shown self.old).committed }
        ensures number { IfOk result (λ number. IsClean (requests_shown self.new) → (number ≡ last_number (runs self.old) + 1) × (number < 2 ^ 63)) }
        ensures enough { OnOk result (IsClean (requests_shown self.new) → last_requests (runs self.old) ≤ length (requests self.old)) }
        ensures begun { IfOk result (λ number. IsClean (requests_shown self.new) → runs self.new ≡ last_runs number (runs self.old ++ row_of_run number run.now (length (requests self.old)) ∷ [])) }
        ensures requests { OnOk result (IsClean (requests_shown self.new) → requests self.new ≡ requests self.old) }
        ensures keeps { KeepsStore (requests_shown self.old) (requests_shown self.new) result }
        ensures tables { IsTrue (requests_shown self.old).is_open → IsClean (requests_shown self.new) → HasTables (requests_shown self.new) }
        ensures crash { (db : Trees) → S.Store.recovers self.new.store db
            → S.Store.recovers self.old.store db ⊎ ((requests_in db ≡ requests self.old) × IsNumbered (db (table_in db))) }
        ensures cause { IsClean (requests_shown self.new) → IfErr result (HasRunReason (record {
          Failed = MoreFaults (S.Store.faults self.old.store) (S.Store.faults self.new.store);
          WasShut = IsTrue (requests_shown self.old).is_broken;
          IsTooLarge = ¬ IsStorableRow ((requests_shown self.old).reals 1) (row_of_run (last_number (runs self.old) + 1) run.now (count_of self.old));
          AreTooMany = 2 ^ 63 ≤ last_number (runs self.old) + 1;
          IsNotRequest = ⊥;
        }) (count_of self.old < last_requests (runs self.old))) }
    {
        let edited = enter_run(&mut self.store, &mut self.row, run, self.count);
        concluded(&mut self.store, edited)
    }

    /// Rewrites the row of a run with the current number of requests. Call it before `checkpoint`.
    ///
    /// Errors: those of `begin_run` except Short and TooMany. An error that leaves the store open changes nothing.
    pub fn note_requests(&mut self, number: u64, run: &Run<'_>) -> Result<(), StoreFault>
        ensures noted { OnOk result (IsClean (requests_shown self.new) → runs self.new ≡ put_row (row_of_run number run.now (length (requests self.old))) (runs self.old)) }
        ensures requests { OnOk result (IsClean (requests_shown self.new) → requests self.new ≡ requests self.old) }
        ensures drafts { OnOk result (IsClean (requests_shown self.new) → drafts self.new ≡ drafts self.old) }
        ensures drafting { (is_drafting self.new ≡ is_drafting self.old) × (draft_count self.new ≡ draft_count self.old) }
        ensures keeps { KeepsStore (requests_shown self.old) (requests_shown self.new) result }
        ensures tables { IsTrue (requests_shown self.old).is_open → IsClean (requests_shown self.new) → HasTables (requests_shown self.new) }
        ensures crash { (db : Trees) → S.Store.recovers self.new.store db
            → S.Store.recovers self.old.store db ⊎ (IsTrue (requests_shown self.old).is_open × (requests_in db ≡ requests self.old) × IsNumbered (db (table_in db))) }
        ensures cause { IsClean (requests_shown self.new) → IfErr result (HasReason (record {
          Failed = MoreFaults (S.Store.faults self.old.store) (S.Store.faults self.new.store);
          WasShut = IsTrue (requests_shown self.old).is_broken;
          IsTooLarge = ¬ IsStorableRow ((requests_shown self.old).reals 1) (row_of_run number run.now (count_of self.old));
          AreTooMany = ⊥;
          IsNotRequest = ⊥;
        })) }
    {
        let edited = put_run(&mut self.store, &mut self.row, number, run, self.count);
        concluded(&mut self.store, edited)
    }
}

impl<D: Disk> RequestStore<FileStore<D>> {
    ghost use Rattle.ups_store.specs.Shown.{requests_shown, drafts, is_drafting, draft_count};

    /// Copies the log into the file, so that the file alone has the requests. Call it when no requests arrive.
    ///
    /// Errors: Memory, Disk, Damaged, Full; Shut after an error that only reopening repairs. An error that leaves the
    /// store open changes nothing.
    pub fn checkpoint(&mut self) -> Result<(), StoreFault>
        ensures same { IsTrue (requests_shown self.new).is_open → requests_shown self.new ≡ requests_shown self.old }
        ensures drafts { IsTrue (requests_shown self.new).is_open → drafts self.new ≡ drafts self.old }
        ensures drafting { (is_drafting self.new ≡ is_drafting self.old) × (draft_count self.new ≡ draft_count self.old) }
        ensures copied { OnOk result (¬ HasSpilled self.old.store → log_frames self.new.store ≡ 0) }
        ensures is_open { OnOk result (IsClean (requests_shown self.new) → IsTrue (requests_shown self.new).is_open) }
        ensures cause { IsClean (requests_shown self.new) → IfErr result (HasReason (record {
          Failed = MoreFaults (faults self.old.store) (faults self.new.store);
          WasShut = IsTrue (requests_shown self.old).is_broken;
          IsTooLarge = ⊥;
          AreTooMany = ⊥;
          IsNotRequest = ⊥;
        })) }
        ensures quiet { IsQuietCall self.old.store self.new.store }
    {
        self.store.checkpoint()?;
        Ok(())
    }
}
