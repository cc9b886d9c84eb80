//! Replacing all requests of a store by others, in one transaction.

ghost use Rattle.std.specs.Prelude.{◌≡◌, ◌⊎◌, ◌+◌, ◌-◌, ◌++◌, ◌<◌, ◌≤◌, ◌^◌, [], ⊤, false, map, length, is_some, IsTrue, IfSome, IfErr, OnOk};
ghost use Rattle.sqlite_disk.specs.Disk.{MoreFaults};
ghost use Rattle.sqlite_trees.specs.declared.store.Shape.TheVariants.{Table};
ghost use Rattle.sqlite_trees.specs.Tree.{Trees, put_row};
ghost use Rattle.sqlite_trees.specs.View.{doubt, IsClean, IsQuiet, KeepsSchema, KeepsCommitted, HasCause, IsStorableRow};
ghost use Rattle.ups_store.specs.Rows.{stored_in_run, requests_in, table_in, IsNumbered};
ghost use Rattle.ups_store.specs.Held.{HasTables, HasTable, HoldsIfOpen, IsAdding, IsPuttingIn, LeavesOthers};
ghost use Rattle.ups_store.specs.Storing.{HasTooLarge};
ghost use Rattle.ups_store.specs.Faults.{HasReason};
ghost use Rattle.ups_store.specs.Runs.{row_of_run};
ghost use Rattle.ups_store.specs.declared.rewriting.Progress.TheVariants.{Resting, Putting};

use crate::fault::StoreFault;
use crate::runs::{Run, put_run};
use crate::store::{RequestStore, count_with, put_all};
use sqlite_trees::error::StoreError;
use sqlite_trees::store::Store;
use sqlite_value::row::Row;
use std::alloc::Global;
use ups_journal::Record;

/// The progress of a rewrite.
#[derive(Clone, Copy, Debug, PartialEq, Eq)]
enum Progress {
    /// Nothing is written that is not committed.
    Resting,
    /// The old requests are deleted, and each group that was put is there as a whole.
    Putting,
    Failed,
}

/// A store whose requests are replaced in one transaction: `begin`, `put` as often as needed, `commit`, `finish`.
#[derive(Drop)]
pub struct Rewrite<S: Store> {
    alloc: Global,
    store: S,
    row: Row,
    /// The number of the tree of requests.
    table: u32,
    /// The number of requests that were put, or of all requests while nothing is written.
    count: u64,
    progress: Progress,
    ghost held: { progress ≡ Resting → HoldsIfOpen (S.Store.view store) table count },
    ghost tables: { progress ≡ Putting → IsTrue (S.Store.view store).is_open → HasTable (S.Store.view store) table },
    ghost adding: { progress ≡ Putting → (S.Store.view store).is_broken ≡ false → IsPuttingIn (S.Store.view store) table count },
}

/// Deletes the last of `count` rows of requests in this table.
fn delete_last<S: Store>(store: &mut S, table: u32, count: u64) -> Result<(), StoreError>
    requires table { IsClean (S.Store.view store.old) → (S.Store.view store.old).shape table ≡ Table }
    requires adding { IsClean (S.Store.view store.old) → IsAdding (S.Store.view store.old) table count }
    requires some { 0 < count }
    requires few { count < 2 ^ 63 }
    ensures shorter { OnOk result (IsClean (S.Store.view store.new) → IsAdding (S.Store.view store.new) table (count - 1)) }
    ensures others { OnOk result (IsClean (S.Store.view store.new) → LeavesOthers (S.Store.view store.old) (S.Store.view store.new) table) }
    ensures kept { KeepsCommitted (S.Store.view store.old) (S.Store.view store.new) }
    ensures schema { KeepsSchema (S.Store.view store.old) (S.Store.view store.new) }
    ensures cause { IsClean (S.Store.view store.new) → IfErr result (HasCause (S.Store.view store.old) (MoreFaults (S.Store.faults store.old) (S.Store.faults store.new)) ⊥) }
    ensures quiet { IsQuiet S.Store.view S.Store.faults S.Store.recovers S.Store.is_shielded store.old store.new }
{
    store.delete(table, count as i64)
}

/// Deletes the rows of all requests, from last to first, so that each is at the end of its tree.
fn delete_all<S: Store>(store: &mut S, table: u32, count: u64) -> Result<(), StoreError>
    requires table { IsClean (S.Store.view store.old) → (S.Store.view store.old).is_broken ≡ false → (S.Store.view store.old).shape table ≡ Table }
    requires adding { IsClean (S.Store.view store.old) → (S.Store.view store.old).is_broken ≡ false → IsAdding (S.Store.view store.old) table count }
    requires few { count < 2 ^ 63 }
    ensures none { OnOk result (IsClean (S.Store.view store.new) → IsAdding (S.Store.view store.new) table 0) }
    ensures others { OnOk result (IsClean (S.Store.view store.new) → LeavesOthers (S.Store.view store.old) (S.Store.view store.new) table) }
    ensures sound { OnOk result (IsClean (S.Store.view store.new) → (S.Store.view store.old).is_broken ≡ false) }
    ensures kept { KeepsCommitted (S.Store.view store.old) (S.Store.view store.new) }
    ensures schema { KeepsSchema (S.Store.view store.old) (S.Store.view store.new) }
    ensures cause { IsClean (S.Store.view store.new) → IfErr result (HasCause (S.Store.view store.old) (MoreFaults (S.Store.faults store.old) (S.Store.faults store.new)) ⊥) }
    ensures quiet { IsQuiet S.Store.view S.Store.faults S.Store.recovers S.Store.is_shielded store.old store.new }
{
    if store.is_broken() {
        return Err(StoreError::Broken);
    }
    for gone in 0..count {
        match delete_last(store, table, count - gone) {
            Ok(()) => {}
            Err(error) => return Err(error),
        }
    }
    Ok(())
}

impl<S: Store> RequestStore<S> {
    ghost use Rattle.ups_store.specs.Shown.{requests_shown, count_of};
    ghost use Rattle.ups_store.specs.Rewriting.{seen, written_count, is_resting};

    /// Returns the store as one whose requests can be replaced. Nothing is read or written.
    pub fn rewrite(self) -> Rewrite<S>
        ensures rests { IsTrue (is_resting result) }
        ensures same { result.store ≡ self.store }
        ensures count { written_count result ≡ count_of self }
    {
        let RequestStore {
            alloc,
            store,
            table,
            count,
            drafted: _,
            row,
        } = self;
        Rewrite {
            alloc,
            store,
            row,
            table,
            count,
            progress: Progress::Resting,
        }
    }
}

impl<S: Store> Rewrite<S> {
    ghost use Rattle.ups_store.specs.Shown.{requests_shown};
    ghost use Rattle.ups_store.specs.Rewriting.{seen, written_anew, written_count, written_table, is_resting, records_of, GoesOnRewriting, IsReplaced};

    /// Returns the inner store.
    pub(crate) fn into_store(self) -> S
        ensures { result ≡ self.store }
    {
        let Rewrite {
            alloc: _,
            store,
            row: _,
            table: _,
            count: _,
            progress: _,
        } = self;
        store
    }

    /// Begins to replace all requests: deletes them in a transaction. What is committed stays until `commit`, and after
    /// a crash before that the store has the requests that it had.
    ///
    /// Errors: Memory, Disk, Damaged, Full; TooMany if there are 2^63 requests or more; Shut if a rewrite has begun, or
    /// after an error.
    pub fn begin(&mut self) -> Result<(), StoreFault>
        ensures empty { OnOk result (IsClean (seen self.new) → written_anew self.new ≡ []) }
        ensures goes_on { OnOk result (IsClean (seen self.new) → GoesOnRewriting self.new) }
        ensures runs { OnOk result (IsClean (seen self.new) → (seen self.new).trees 1 ≡ (seen self.old).committed 1) }
        ensures kept { KeepsCommitted (seen self.old) (seen self.new) }
        ensures schema { KeepsSchema (seen self.old) (seen self.new) }
        ensures cause { IsClean (seen self.new) → IfErr result (HasReason (record {
          Failed = MoreFaults (S.Store.faults self.old.store) (S.Store.faults self.new.store);
          WasShut = IsTrue (seen self.old).is_broken ⊎ (is_resting self.old ≡ false);
          IsTooLarge = ⊥;
          AreTooMany = 2 ^ 63 ≤ written_count self.old;
          IsNotRequest = ⊥;
        })) }
        ensures quiet { IsQuiet S.Store.view S.Store.faults S.Store.recovers S.Store.is_shielded self.old.store self.new.store }
    {
        match self.progress {
            Progress::Resting => {}
            _ => return Err(StoreFault::Shut),
        }
        self.progress = Progress::Failed;
        let Some(count) = count_with(self.count, 0) else {
            return Err(StoreFault::TooMany);
        };
        delete_all(&mut self.store, self.table, count)?;
        self.count = 0;
        self.progress = Progress::Putting;
        Ok(())
    }

    /// Returns the number of requests that were put.
    pub fn len(&self) -> u64
        ensures { GoesOnRewriting self.now → result ≡ length (written_anew self.now) }
    {
        self.count
    }

    /// Appends records, entered in the run `run`, to those that were put so far. Nothing is committed.
    ///
    /// Errors: Memory, Disk, Damaged, Full; TooLarge if the row of a record has a billion bytes or more; TooMany; Shut
    /// after an error.
    pub fn put(&mut self, run: u64, records: &[Record<Global>]) -> Result<(), StoreFault>
        ensures added { OnOk result (IsClean (seen self.new) → written_anew self.new ≡ written_anew self.old ++ map (stored_in_run run) records.now) }
        ensures goes_on { OnOk result (IsClean (seen self.new) → GoesOnRewriting self.new) }
        ensures runs { OnOk result (IsClean (seen self.new) → (seen self.new).trees 1 ≡ (seen self.old).trees 1) }
        ensures kept { KeepsCommitted (seen self.old) (seen self.new) }
        ensures schema { KeepsSchema (seen self.old) (seen self.new) }
        ensures cause { IsClean (seen self.new) → IfErr result (HasReason (record {
          Failed = MoreFaults (S.Store.faults self.old.store) (S.Store.faults self.new.store);
          WasShut = ¬ GoesOnRewriting self.old;
          IsTooLarge = HasTooLarge (seen self.old) (written_table self.old) run records.now;
          AreTooMany = 2 ^ 63 ≤ written_count self.old + length records.now;
          IsNotRequest = ⊥;
        })) }
        ensures quiet { IsQuiet S.Store.view S.Store.faults S.Store.recovers S.Store.is_shielded self.old.store self.new.store }
    {
        match self.progress {
            Progress::Putting => {}
            _ => return Err(StoreFault::Shut),
        }
        let Some(count) = count_with(self.count, records.len()) else {
            return Err(StoreFault::TooMany);
        };
        self.progress = Progress::Failed;
        put_all(
            &mut self.store,
            &mut self.row,
            self.table,
            self.count,
            run,
            records,
        )?;
        self.count = count;
        self.progress = Progress::Putting;
        Ok(())
    }

    /// Puts groups of records, one after the other.
    fn put_groups(&mut self, run: u64, groups: &[Vec<Record<Global>>]) -> Result<(), StoreFault>
        ensures added { OnOk result (IsClean (seen self.new) → written_anew self.new ≡ written_anew self.old ++ map (stored_in_run run) (records_of groups.now)) }
        ensures schema { KeepsSchema (seen self.old) (seen self.new) }
        ensures quiet { IsQuiet S.Store.view S.Store.faults S.Store.recovers S.Store.is_shielded self.old.store self.new.store }
    {
        for at in 0..groups.len() {
            self.put(run, &groups[at])?;
        }
        Ok(())
    }

    /// Commits, and returns once the disk has the records: the store then has exactly the records that were put, and
    /// the row of the run `number` has their number. After a crash it has the requests that it had, or all these.
    ///
    /// Errors: Memory, Disk, Damaged, Full; TooLarge if the row of the run has a billion bytes or more; Shut before
    /// `begin` and after an error. The next open finds the requests that the store had, or all the records that were
    /// put.
    pub fn commit(&mut self, number: u64, run: &Run<'_>) -> Result<(), StoreFault>
        ensures rests { OnOk result (IsTrue (is_resting self.new)) }
        ensures replaced { OnOk result (IsClean (seen self.new) → requests_in (seen self.new).committed ≡ written_anew self.old) }
        ensures is_open { OnOk result (IsClean (seen self.new) → IsTrue (seen self.new).is_open) }
        ensures runs { OnOk result (IsClean (seen self.new) → (seen self.new).committed 1 ≡ put_row (row_of_run number run.now (length (written_anew self.old))) ((seen self.old).trees 1)) }
        ensures tables { HasTables (seen self.old) → IsClean (seen self.new) → HasTables (seen self.new) }
        ensures clean { doubt (seen self.old).is_clean ≤ doubt (seen self.new).is_clean }
        ensures crash { (db : Trees) → S.Store.recovers self.new.store db → S.Store.recovers self.old.store db ⊎ IsReplaced self.old db }
        ensures cause { IsClean (seen self.new) → IfErr result (HasReason (record {
          Failed = MoreFaults (S.Store.faults self.old.store) (S.Store.faults self.new.store);
          WasShut = ¬ GoesOnRewriting self.old;
          IsTooLarge = ¬ IsStorableRow ((seen self.old).reals 1) (row_of_run number run.now (written_count self.old));
          AreTooMany = ⊥;
          IsNotRequest = ⊥;
        })) }
    {
        match self.progress {
            Progress::Putting => {}
            _ => return Err(StoreFault::Shut),
        }
        self.progress = Progress::Failed;
        put_run(&mut self.store, &mut self.row, number, run, self.count)?;
        self.store.commit()?;
        self.progress = Progress::Resting;
        Ok(())
    }

    /// Returns the store before `begin` or after `commit`, or else None.
    pub fn finish(self) -> Option<RequestStore<S>>
    where
        S: Drop,
        ensures when { is_some result ≡ is_resting self }
        ensures same { IfSome result (λ it. requests_shown it ≡ seen self) }
    {
        match self.progress {
            Progress::Resting => Some(self.into_requests()),
            _ => None,
        }
    }

    fn into_requests(self) -> RequestStore<S>
        requires { IsTrue (is_resting self) }
        ensures { requests_shown result ≡ seen self }
    {
        let Rewrite {
            alloc,
            store,
            row,
            table,
            count,
            progress: _,
        } = self;
        RequestStore::of(alloc, store, table, count, row)
    }

    /// Deletes the requests, puts groups of records in their place, and commits.
    pub(crate) fn replace(
        &mut self,
        entered_in: u64,
        groups: &[Vec<Record<Global>>],
        number: u64,
        run: &Run<'_>,
    ) -> Result<(), StoreFault>
        ensures replaced { OnOk result (IsClean (seen self.new) → requests_in (seen self.new).committed ≡ map (stored_in_run entered_in) (records_of groups.now)) }
        ensures is_open { OnOk result (IsClean (seen self.new) → IsTrue (seen self.new).is_open) }
        ensures tables { HasTables (seen self.old) → IsClean (seen self.new) → HasTables (seen self.new) }
        ensures crash { (db : Trees) → S.Store.recovers self.new.store db
            → S.Store.recovers self.old.store db ⊎ ((requests_in db ≡ map (stored_in_run entered_in) (records_of groups.now)) × IsNumbered (db (table_in db))) }
    {
        self.begin()?;
        self.put_groups(entered_in, groups)?;
        self.commit(number, run)
    }
}
