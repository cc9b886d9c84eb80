//! Reading the requests of an open store from a place on, writing the draft, and exchanging it for the requests.

ghost use Rattle.std.specs.Prelude.{◌≡◌, ◌⊎◌, ◌+◌, ◌-◌, ◌++◌, ◌<◌, ◌≤◌, ◌^◌, ◌∷◌, [], false, true, min, map, take, drop, length, FitsSigned, IsTrue, IfOk, IfErr, IfSome, OnOk};
ghost use Rattle.sqlite_disk.specs.Disk.{MoreFaults};
ghost use Rattle.sqlite_trees.specs.declared.store.Shape.TheVariants.{Table};
ghost use Rattle.std.specs.Int.{w64};
ghost use Rattle.sqlite_trees.specs.Tree.{Trees, rowid, put_row};
ghost use Rattle.sqlite_trees.specs.Objects.{catalog_tree};
ghost use Rattle.ups_store.specs.Exchanging.{CannotExchange, CanExchange, ListsExchanged, Exchanges};
ghost use Rattle.ups_store.specs.Runs.{row_of_run};
ghost use Rattle.ups_store.specs.Upgrading.{KeepsLastCommit};
ghost use Rattle.sqlite_trees.specs.View.{doubt, IsClean, IsQuiet, KeepsSchema, KeepsCommitted, HasCause, IsStorableRow};
ghost use Rattle.ups_store.specs.Drafting.{id_in, Drains, Cuts};
ghost use Rattle.ups_store.specs.Concluding.{KeepsStore};
ghost use Rattle.ups_store.specs.Held.{HasTables};
ghost use Rattle.ups_store.specs.Storing.{HasTooLarge};
ghost use Rattle.ups_store.specs.Faults.{HasReason};
ghost use Rattle.ups_store.specs.Rows.{stored_in_run, requests_in_tree, requests_in, table_in, IsNumbered};

use crate::concluding::concluded;
use crate::fault::StoreFault;
use crate::format::{draft_table, request_table};
use crate::reading::next_number;
use crate::request::{self, StoredRequest};
use crate::runs::{Run, put_run, read_last};
use crate::store::{RequestStore, count_with, put_all};
use sqlite_trees::error::StoreError;
use sqlite_trees::store::{Alter, Shape, Store};
use sqlite_value::row::Row;
use sqlite_value::value::ValueRef;
use std::alloc::Global;
use ups_journal::Record;

/// Reads the request of this table that follows `before` others.
fn read_one<S: Store>(
    alloc: Global,
    store: &mut S,
    row: &mut Row,
    again: &mut Row,
    table: u32,
    before: u64,
) -> Result<StoredRequest, StoreFault>
    requires table { IsClean (S.Store.view store.old) → (S.Store.view store.old).shape table ≡ Table }
    requires numbered { IsClean (S.Store.view store.old) → IsNumbered ((S.Store.view store.old).trees table) }
    requires within { IsClean (S.Store.view store.old) → before < length ((S.Store.view store.old).trees table) }
    ensures read { IfOk result (λ r. IsClean (S.Store.view store.new) → drop before (requests_in_tree (S.Store.view store.old).trees table) ≡ r ∷ drop (before + 1) (requests_in_tree (S.Store.view store.old).trees table)) }
    ensures same { OnOk result (IsClean (S.Store.view store.new) → S.Store.view store.new ≡ S.Store.view store.old) }
    ensures kept { KeepsCommitted (S.Store.view store.old) (S.Store.view store.new) }
    ensures schema { KeepsSchema (S.Store.view store.old) (S.Store.view store.new) }
    ensures cause { IsClean (S.Store.view store.new) → IfErr result (HasReason (record {
      Failed = MoreFaults (S.Store.faults store.old) (S.Store.faults store.new);
      WasShut = IsTrue (S.Store.view store.old).is_broken;
      IsTooLarge = ⊥;
      AreTooMany = 2 ^ 63 ≤ before + 1;
      IsNotRequest = ⊥;
    })) }
    ensures quiet { IsQuiet S.Store.view S.Store.faults S.Store.recovers S.Store.is_shielded store.old store.new }
{
    let Some(number) = next_number(before) else {
        return Err(StoreFault::TooMany);
    };
    if !store.get(table, number, row)? {
        return Err(StoreFault::NotRequest);
    }
    match request::read(alloc, number, row, again)? {
        Some(request) => Ok(request),
        None => Err(StoreFault::NotRequest),
    }
}

/// Returns how many of `count` requests there are from a place on, at most `most`.
fn number_from(count: u64, from: u64, most: usize) -> usize
    ensures { result ≡ min most (count - from) }
{
    let left = count.saturating_sub(from);
    if left < most as u64 {
        left as usize
    } else {
        most
    }
}

/// Reads `many` requests of this table from the one on that follows `from` others.
fn read_rows<S: Store>(
    alloc: Global,
    store: &mut S,
    row: &mut Row,
    table: u32,
    from: u64,
    many: usize,
) -> Result<Vec<StoredRequest>, StoreFault>
    requires table { IsClean (S.Store.view store.old) → (S.Store.view store.old).shape table ≡ Table }
    requires sound { IsClean (S.Store.view store.old) → (S.Store.view store.old).is_broken ≡ false }
    requires numbered { IsClean (S.Store.view store.old) → IsNumbered ((S.Store.view store.old).trees table) }
    requires within { IsClean (S.Store.view store.old) → from + many ≤ length ((S.Store.view store.old).trees table) }
    requires few { from + many < 2 ^ 64 }
    ensures read { IfOk result (λ rs. IsClean (S.Store.view store.new) → rs.items ≡ take many (drop from (requests_in_tree (S.Store.view store.old).trees table))) }
    ensures same { OnOk result (IsClean (S.Store.view store.new) → S.Store.view store.new ≡ S.Store.view store.old) }
    ensures kept { KeepsCommitted (S.Store.view store.old) (S.Store.view store.new) }
    ensures schema { KeepsSchema (S.Store.view store.old) (S.Store.view store.new) }
    ensures cause { IsClean (S.Store.view store.new) → IfErr result (HasReason (record {
      Failed = MoreFaults (S.Store.faults store.old) (S.Store.faults store.new);
      WasShut = ⊥;
      IsTooLarge = ⊥;
      AreTooMany = 2 ^ 63 ≤ from + many;
      IsNotRequest = ⊥;
    })) }
    ensures quiet { IsQuiet S.Store.view S.Store.faults S.Store.recovers S.Store.is_shielded store.old store.new }
{
    let mut again = Row::new(alloc);
    let mut found = Vec::new(alloc);
    for at in 0..many {
        let request = match read_one(alloc, store, row, &mut again, table, from + at as u64) {
            Ok(request) => request,
            Err(fault) => return Err(fault),
        };
        if found.push(request).is_err() {
            return Err(StoreFault::Memory);
        }
    }
    Ok(found)
}

/// Returns the number of the tree of the draft of a store with this table of requests.
fn draft_beside(table: u32) -> u32
    ensures { result ≡ 2 - table }
{
    2u32.saturating_sub(table)
}

/// Returns the number of a row, or None of an empty row.
fn number_of(row: &Row) -> Option<i64>
    ensures id { result ≡ id_in (rowid row.now) }
    ensures fits { IfSome result (λ id. FitsSigned w64 id) }
{
    match row.get(0) {
        ValueRef::Int(id) => Some(id),
        _ => None,
    }
}

/// Deletes the last row of this table in a transaction, and returns whether there was one.
fn delete_end<S: Store>(store: &mut S, row: &mut Row, table: u32) -> Result<bool, StoreError>
    requires table { IsClean (S.Store.view store.old) → (S.Store.view store.old).is_broken ≡ false → (S.Store.view store.old).shape table ≡ Table }
    ensures drained { IfOk result (λ goes_on. IsClean (S.Store.view store.new) → Drains (S.Store.view store.old) (S.Store.view store.new) table goes_on) }
    ensures kept { KeepsCommitted (S.Store.view store.old) (S.Store.view store.new) }
    ensures schema { KeepsSchema (S.Store.view store.old) (S.Store.view store.new) }
    ensures cause { IsClean (S.Store.view store.new) → IfErr result (HasCause (S.Store.view store.old) (MoreFaults (S.Store.faults store.old) (S.Store.faults store.new)) ⊥) }
    ensures quiet { IsQuiet S.Store.view S.Store.faults S.Store.recovers S.Store.is_shielded store.old store.new }
{
    read_last(store, row, table)?;
    match number_of(row) {
        Some(id) => {
            store.delete(table, id)?;
            Ok(true)
        }
        None => Ok(false),
    }
}

/// Deletes the last rows of this table in a transaction, at most `most`, and returns whether it found that none is left.
fn delete_ends<S: Store>(
    store: &mut S,
    row: &mut Row,
    table: u32,
    most: u32,
) -> Result<bool, StoreError>
    requires table { IsClean (S.Store.view store.old) → (S.Store.view store.old).is_broken ≡ false → (S.Store.view store.old).shape table ≡ Table }
    ensures cut { IfOk result (λ none. IsClean (S.Store.view store.new) → Cuts (S.Store.view store.old) (S.Store.view store.new) table most none) }
    ensures kept { KeepsCommitted (S.Store.view store.old) (S.Store.view store.new) }
    ensures schema { KeepsSchema (S.Store.view store.old) (S.Store.view store.new) }
    ensures cause { IsClean (S.Store.view store.new) → IfErr result (HasCause (S.Store.view store.old) (MoreFaults (S.Store.faults store.old) (S.Store.faults store.new)) ⊥) }
    ensures quiet { IsQuiet S.Store.view S.Store.faults S.Store.recovers S.Store.is_shielded store.old store.new }
{
    if store.is_broken() {
        return Err(StoreError::Broken);
    }
    for _gone in 0..most {
        match delete_end(store, row, table) {
            Ok(true) => {}
            Ok(false) => return Ok(true),
            Err(error) => return Err(error),
        }
    }
    Ok(false)
}

impl<S: Store> RequestStore<S> {
    ghost use Rattle.ups_store.specs.Shown.{requests_shown, requests, drafts, runs, count_of, draft_of, draft_count, is_drafting, HasNoDraft};

    /// Returns the committed requests from a place on, at most `most`: the first is at 0.
    ///
    /// Errors: Memory, Disk, Damaged, Full; Shut after an error that only reopening repairs; TooMany if 2^63 requests
    /// or more come before. An error that leaves the store open changes nothing.
    pub fn read_from(
        &mut self,
        alloc: Global,
        from: u64,
        most: usize,
    ) -> Result<Vec<StoredRequest>, StoreFault>
        ensures read { IfOk result (λ rs. IsClean (requests_shown self.new) → rs.items ≡ take most (drop from (requests self.old))) }
        ensures same { IsTrue (requests_shown self.new).is_open → (requests_shown self.new).committed ≡ (requests_shown self.old).committed }
        ensures drafting { (is_drafting self.new ≡ is_drafting self.old) × (draft_count self.new ≡ draft_count self.old) }
        ensures is_open { OnOk result (IsClean (requests_shown self.new) → IsTrue (requests_shown self.new).is_open) }
        ensures was_open { IsTrue (requests_shown self.new).is_open → IsTrue (requests_shown self.old).is_open }
        ensures clean { doubt (requests_shown self.old).is_clean ≤ doubt (requests_shown self.new).is_clean }
        ensures crash { (db : Trees) → S.Store.recovers self.new.store db → S.Store.recovers self.old.store db }
        ensures cause { IsClean (requests_shown self.new) → IfErr result (HasReason (record {
          Failed = MoreFaults (S.Store.faults self.old.store) (S.Store.faults self.new.store);
          WasShut = IsTrue (requests_shown self.old).is_broken;
          IsTooLarge = ⊥;
          AreTooMany = 2 ^ 63 ≤ count_of self.old;
          IsNotRequest = ⊥;
        })) }
    {
        if self.store.is_broken() {
            return Err(StoreFault::Shut);
        }
        let many = number_from(self.count, from, most);
        match read_rows(
            alloc,
            &mut self.store,
            &mut self.row,
            self.table,
            from.min(self.count),
            many,
        ) {
            Ok(found) => Ok(found),
            Err(fault) => {
                self.store.rollback();
                Err(fault)
            }
        }
    }

    /// Deletes the last requests of the draft, at most `most`, in one transaction, and returns whether it found that
    /// none is left. Then `draft` and `exchange` may be called. The requests and the runs stay as they are, also after a
    /// crash.
    ///
    /// Errors: Memory, Disk, Damaged, Full; Shut after an error that only reopening repairs, and if the store is of a
    /// format without a draft. An error that leaves the store open changes nothing.
    pub fn clear_drafts(&mut self, most: u32) -> Result<bool, StoreFault>
        ensures left { OnOk result (IsClean (requests_shown self.new) → drafts self.new ≡ take (length (drafts self.old) - most) (drafts self.old)) }
        ensures none { IfOk result (λ none. IsClean (requests_shown self.new) → none ≡ true → drafts self.new ≡ []) }
        ensures some { IfOk result (λ none. IsClean (requests_shown self.new) → none ≡ false → most ≤ length (drafts self.old)) }
        ensures drafting { IfOk result (λ none. none ≡ true → IsTrue (is_drafting self.new)) }
        ensures requests { OnOk result (IsClean (requests_shown self.new) → requests self.new ≡ requests self.old) }
        ensures runs { OnOk result (IsClean (requests_shown self.new) → runs self.new ≡ runs self.old) }
        ensures keeps { KeepsStore (requests_shown self.old) (requests_shown self.new) result }
        ensures tables { IsTrue (requests_shown self.old).is_open → IsClean (requests_shown self.new) → HasTables (requests_shown self.new) }
        ensures crash { (db : Trees) → S.Store.recovers self.new.store db
            → S.Store.recovers self.old.store db ⊎ (IsTrue (requests_shown self.old).is_open × (requests_in db ≡ requests self.old) × IsNumbered (db (table_in db))) }
        ensures cause { IsClean (requests_shown self.new) → IfErr result (HasReason (record {
          Failed = MoreFaults (S.Store.faults self.old.store) (S.Store.faults self.new.store);
          WasShut = IsTrue (requests_shown self.old).is_broken ⊎ HasNoDraft self.old;
          IsTooLarge = ⊥;
          AreTooMany = ⊥;
          IsNotRequest = ⊥;
        })) }
    {
        let spare = draft_beside(self.table);
        match self.store.shape(spare) {
            Shape::Table => {}
            _ => return Err(StoreFault::Shut),
        }
        self.drafted = None;
        let edited = delete_ends(&mut self.store, &mut self.row, spare, most);
        match concluded(&mut self.store, edited) {
            Ok(none) => {
                self.drafted = none.then_some(0);
                Ok(none)
            }
            Err(fault) => Err(fault),
        }
    }

    /// Appends records, entered in the run `run`, to the draft, all or none, and returns once they are on the disk. Call
    /// `clear_drafts` before, until it returns true. The requests and the runs stay as they are, also after a crash.
    ///
    /// Errors: Memory, Disk, Damaged, Full; Shut after an error that only reopening repairs, and if the number of
    /// requests in the draft is not known, since the draft was not cleared; TooLarge if the row of a record has a
    /// billion bytes or more; TooMany. An error that leaves the store open changes nothing.
    pub fn draft(&mut self, run: u64, records: &[Record<Global>]) -> Result<(), StoreFault>
        ensures added { OnOk result (IsClean (requests_shown self.new) → drafts self.new ≡ drafts self.old ++ map (stored_in_run run) records.now) }
        ensures counted { OnOk result (draft_count self.new ≡ draft_count self.old + length records.now) }
        ensures drafting { is_drafting self.new ≡ is_drafting self.old }
        ensures requests { OnOk result (IsClean (requests_shown self.new) → requests self.new ≡ requests self.old) }
        ensures runs { OnOk result (IsClean (requests_shown self.new) → runs self.new ≡ runs self.old) }
        ensures keeps { KeepsStore (requests_shown self.old) (requests_shown self.new) result }
        ensures tables { IsTrue (requests_shown self.old).is_open → IsClean (requests_shown self.new) → HasTables (requests_shown self.new) }
        ensures crash { (db : Trees) → S.Store.recovers self.new.store db
            → S.Store.recovers self.old.store db ⊎ (IsTrue (requests_shown self.old).is_open × (requests_in db ≡ requests self.old) × IsNumbered (db (table_in db))) }
        ensures cause { IsClean (requests_shown self.new) → IfErr result (HasReason (record {
          Failed = MoreFaults (S.Store.faults self.old.store) (S.Store.faults self.new.store);
          WasShut = IsTrue (requests_shown self.old).is_broken ⊎ (is_drafting self.old ≡ false);
          IsTooLarge = HasTooLarge (requests_shown self.old) (draft_of self.old) run records.now;
          AreTooMany = 2 ^ 63 ≤ draft_count self.old + length records.now;
          IsNotRequest = ⊥;
        })) }
    {
        let Some(drafted) = self.drafted else {
            return Err(StoreFault::Shut);
        };
        let Some(all) = count_with(drafted, records.len()) else {
            return Err(StoreFault::TooMany);
        };
        let spare = draft_beside(self.table);
        let edited = put_all(&mut self.store, &mut self.row, spare, drafted, run, records);
        match concluded(&mut self.store, edited) {
            Ok(()) => {
                self.drafted = Some(all);
                Ok(())
            }
            Err(fault) => Err(fault),
        }
    }
}

/// Lists the table of requests as the draft, and the draft as the table of requests, in a transaction.
fn list_exchanged<S: Alter>(store: &mut S, table: u32) -> Result<(), StoreError>
    requires can { IsClean (S.Store.view store.old) → CanExchange (S.Store.view store.old) table }
    ensures listed { OnOk result (IsClean (S.Store.view store.new) → ListsExchanged (S.Store.view store.old) (S.Store.view store.new) table) }
    ensures stands { IsClean (S.Store.view store.new) → KeepsLastCommit (S.Store.view store.old) (S.Store.view store.new) }
    ensures cause { IsClean (S.Store.view store.new) → IfErr result (HasCause (S.Store.view store.old) (MoreFaults (S.Store.faults store.old) (S.Store.faults store.new)) (CannotExchange table ((S.Store.view store.old).trees catalog_tree))) }
    ensures quiet { IsQuiet S.Store.view S.Store.faults S.Store.recovers S.Store.is_shielded store.old store.new }
{
    let spare = draft_beside(table);
    store.relist(&[(table, draft_table()), (spare, request_table())])
}

/// Puts the row of the run `number`, which counts the requests of the draft, and exchanges the names of the two tables,
/// in a transaction.
fn exchange_tables<S: Alter>(
    store: &mut S,
    row: &mut Row,
    table: u32,
    drafted: u64,
    number: u64,
    run: &Run<'_>,
) -> Result<(), StoreError>
    requires can { IsClean (S.Store.view store.old) → (S.Store.view store.old).is_broken ≡ false → CanExchange (S.Store.view store.old) table }
    ensures exchanges { OnOk result (IsClean (S.Store.view store.new) → Exchanges (S.Store.view store.old) (S.Store.view store.new) table (row_of_run number run.now drafted)) }
    ensures stands { IsClean (S.Store.view store.new) → KeepsLastCommit (S.Store.view store.old) (S.Store.view store.new) }
    ensures cause { IsClean (S.Store.view store.new) → IfErr result (HasCause (S.Store.view store.old) (MoreFaults (S.Store.faults store.old) (S.Store.faults store.new))
        ((¬ IsStorableRow ((S.Store.view store.old).reals 1) (row_of_run number run.now drafted)) ⊎ CannotExchange table ((S.Store.view store.old).trees catalog_tree))) }
    ensures quiet { IsQuiet S.Store.view S.Store.faults S.Store.recovers S.Store.is_shielded store.old store.new }
{
    put_run(store, row, number, run, drafted)?;
    list_exchanged(store, table)
}

impl<S: Alter> RequestStore<S> {
    ghost use Rattle.ups_store.specs.Shown.{requests_shown, requests, drafts, runs, tree_of, draft_count, is_drafting};

    /// Makes the draft the table of requests and that one the draft, in one short transaction that rewrites no row, and
    /// rewrites the row of the run `number` with the number of the requests. After a crash the store has the requests
    /// that it had, or exactly those of the draft. Call `clear_drafts` and `draft` before; both are needed again after
    /// that.
    ///
    /// Errors: Memory, Disk, Damaged, Full; Shut after an error that only reopening repairs, and if the number of
    /// requests in the draft is not known, since the draft was not cleared; TooLarge if the row of the run has a billion
    /// bytes or more, or SQLite would not load the list of tables. An error that leaves the store open changes nothing.
    pub fn exchange(&mut self, number: u64, run: &Run<'_>) -> Result<(), StoreFault>
        ensures exchanged { OnOk result (IsClean (requests_shown self.new) → requests self.new ≡ drafts self.old) }
        ensures left { OnOk result (IsClean (requests_shown self.new) → drafts self.new ≡ requests self.old) }
        ensures noted { OnOk result (IsClean (requests_shown self.new) → runs self.new ≡ put_row (row_of_run number run.now (length (drafts self.old))) (runs self.old)) }
        ensures keeps { KeepsStore (requests_shown self.old) (requests_shown self.new) result }
        ensures tables { IsTrue (requests_shown self.new).is_open → HasTables (requests_shown self.new) }
        ensures numbered { IsTrue (requests_shown self.old).is_open → IsClean (requests_shown self.new) → IsTrue (requests_shown self.new).is_numbered }
        ensures crash { (db : Trees) → S.Store.recovers self.new.store db
            → S.Store.recovers self.old.store db ⊎ (IsTrue (requests_shown self.old).is_open × (requests_in db ≡ drafts self.old) × IsNumbered (db (table_in db))) }
        ensures cause { IsClean (requests_shown self.new) → IfErr result (HasReason (record {
          Failed = MoreFaults (S.Store.faults self.old.store) (S.Store.faults self.new.store);
          WasShut = IsTrue (requests_shown self.old).is_broken ⊎ (is_drafting self.old ≡ false);
          IsTooLarge = (¬ IsStorableRow ((requests_shown self.old).reals 1) (row_of_run number run.now (draft_count self.old)))
              ⊎ CannotExchange (tree_of self.old) ((requests_shown self.old).trees catalog_tree);
          AreTooMany = ⊥;
          IsNotRequest = ⊥;
        })) }
    {
        let Some(drafted) = self.drafted else {
            return Err(StoreFault::Shut);
        };
        let spare = draft_beside(self.table);
        let edited = exchange_tables(
            &mut self.store,
            &mut self.row,
            self.table,
            drafted,
            number,
            run,
        );
        match concluded(&mut self.store, edited) {
            Ok(()) => {
                self.table = spare;
                self.count = drafted;
                self.drafted = None;
                Ok(())
            }
            Err(fault) => Err(fault),
        }
    }
}
