//! The table of the runs of the program.

ghost use Rattle.std.specs.Prelude.{◌≡◌, ◌+◌, ◌<◌, ◌≤◌, ◌^◌, Some, FitsSigned, false, reverse, map, IfOk, IfSome, IfErr, IsSome, IsTrue, OnOk};
ghost use Rattle.sqlite_disk.specs.Disk.{MoreFaults};
ghost use Rattle.sqlite_trees.specs.declared.store.Shape.TheVariants.{Table};
ghost use Rattle.sqlite_trees.specs.Tree.{put_row, rowid};
ghost use Rattle.sqlite_trees.specs.View.{IsClean, IsQuiet, KeepsSchema, KeepsCommitted, SetsTree, HasCause, IsStorableRow};
ghost use Rattle.sqlite_value.specs.Order.{column};
ghost use Rattle.sqlite_value.specs.Value.{owned};
ghost use Rattle.std.specs.Int.{w64};
ghost use Rattle.ups_store.specs.Cells.{number_in};
ghost use Rattle.ups_store.specs.Faults.{HasReason, HasRunReason};
ghost use Rattle.ups_store.specs.Held.{LeavesOthers};
ghost use Rattle.ups_store.specs.Runs.{run_cells, row_of_run, old_in, first_old, DropsRuns, last_row, last_number, last_requests, terms_in, IsFirst, Enters};

use crate::cells;
use crate::fault::StoreFault;
use sqlite_trees::error::StoreError;
use sqlite_trees::store::{Direction, Store};
use sqlite_value::row::Row;
use sqlite_value::value::ValueRef;
use std::alloc::{AllocError, Global};
use ups_pdu::Bytes;

/// The number of the tree of runs.
pub(crate) const RUNS: u32 = 1;

/// The column of the number of requests in the row of a run.
const REQUESTS: usize = 5;

/// The column of the terms in the row of a run.
const TERMS: usize = 6;

/// The highest number that a run may have.
const LAST: u64 = (1 << 63) - 1;

/// How many runs are kept.
const KEPT: u64 = 100;

/// A run of the program. Runs are numbered from 1.
#[derive(Clone, Copy)]
pub struct Run<'a> {
    /// When it began, in seconds since 1970-01-01 00:00 UTC.
    pub moment: u64,
    /// The version of the program.
    pub version: &'a str,
    /// The settings with which it was started.
    pub settings: &'a str,
    /// The terms of the service, under which its requests were accepted: keep, offset, titles and rights, as lines.
    pub terms: &'a str,
}

/// Returns the cells of a run, in the order of their columns, at a time when there are `requests` requests.
fn cells_of<'a>(run: &Run<'a>, requests: u64) -> [ValueRef<'a>; 5]
    ensures { map owned result ≡ run_cells run.now requests }
{
    [
        cells::number_cell(run.moment),
        ValueRef::Text(run.version.as_bytes()),
        ValueRef::Text(run.settings.as_bytes()),
        cells::number_cell(requests),
        ValueRef::Text(run.terms.as_bytes()),
    ]
}

/// Makes `row` the row of the run `number`, written when there were `requests` requests.
fn lay(row: &mut Row, number: u64, run: &Run<'_>, requests: u64) -> Result<(), AllocError>
    ensures { OnOk result (row.new ≡ row_of_run number run.now requests) }
{
    row.clear();
    row.push(cells::number_cell(number))?;
    row.push(ValueRef::Null)?;
    cells::lay(row, &cells_of(run, requests))
}

/// Puts the row of the run `number` in a transaction, replacing the row with the same number if there is one.
pub(crate) fn put_run<S: Store>(
    store: &mut S,
    row: &mut Row,
    number: u64,
    run: &Run<'_>,
    requests: u64,
) -> Result<(), StoreError>
    requires table { IsClean (S.Store.view store.old) → (S.Store.view store.old).is_broken ≡ false → (S.Store.view store.old).shape 1 ≡ Table }
    ensures put { OnOk result (IsClean (S.Store.view store.new) → SetsTree (S.Store.view store.old) (S.Store.view store.new) 1 (put_row (row_of_run number run.now requests))) }
    ensures others { OnOk result (IsClean (S.Store.view store.new) → LeavesOthers (S.Store.view store.old) (S.Store.view store.new) 1) }
    ensures kept { KeepsCommitted (S.Store.view store.old) (S.Store.view store.new) }
    ensures schema { KeepsSchema (S.Store.view store.old) (S.Store.view store.new) }
    ensures cause { IsClean (S.Store.view store.new) → IfErr result (HasCause (S.Store.view store.old) (MoreFaults (S.Store.faults store.old) (S.Store.faults store.new))
        (¬ IsStorableRow ((S.Store.view store.old).reals 1) (row_of_run number run.now requests))) }
    ensures quiet { IsQuiet S.Store.view S.Store.faults S.Store.recovers S.Store.is_shielded store.old store.new }
{
    if store.is_broken() {
        return Err(StoreError::Broken);
    }
    lay(row, number, run, requests)?;
    store.put(RUNS, row)
}

/// Moves the cursor to the last row of this table.
fn seek_last<S: Store>(store: &mut S, row: &mut Row, table: u32) -> Result<(), StoreError>
    ensures live { OnOk result (IsSome ((S.Store.view store.new).cursors 0)) }
    ensures left { OnOk result (IsClean (S.Store.view store.new) → (S.Store.view store.new).cursors 0 ≡ Some (reverse ((S.Store.view store.old).trees table))) }
    ensures same { OnOk result (IsClean (S.Store.view store.new) → S.Store.view store.new ≡ record (S.Store.view store.old) { cursors = (S.Store.view store.new).cursors }) }
    ensures sound { OnOk result (IsClean (S.Store.view store.new) → (S.Store.view store.old).is_broken ≡ false) }
    ensures kept { KeepsCommitted (S.Store.view store.old) (S.Store.view store.new) }
    ensures schema { KeepsSchema (S.Store.view store.old) (S.Store.view store.new) }
    ensures cause { IsClean (S.Store.view store.new) → IfErr result (HasCause (S.Store.view store.old) (MoreFaults (S.Store.faults store.old) (S.Store.faults store.new)) ⊥) }
    ensures quiet { IsQuiet S.Store.view S.Store.faults S.Store.recovers S.Store.is_shielded store.old store.new }
{
    row.clear();
    store.seek(0, table, row, Direction::Backward)
}

/// Reads the row at the cursor, or an empty one at the end.
fn take_row<S: Store>(store: &mut S, row: &mut Row) -> Result<(), StoreError>
    requires live { IsSome ((S.Store.view store.old).cursors 0) }
    ensures row { OnOk result (IsClean (S.Store.view store.new) → IsFirst ((S.Store.view store.old).cursors 0) row.new) }
    ensures same { OnOk result (IsClean (S.Store.view store.new) → S.Store.view store.new ≡ record (S.Store.view store.old) { cursors = (S.Store.view store.new).cursors }) }
    ensures sound { OnOk result (IsClean (S.Store.view store.new) → (S.Store.view store.old).is_broken ≡ false) }
    ensures kept { KeepsCommitted (S.Store.view store.old) (S.Store.view store.new) }
    ensures schema { KeepsSchema (S.Store.view store.old) (S.Store.view store.new) }
    ensures cause { IsClean (S.Store.view store.new) → IfErr result (HasCause (S.Store.view store.old) (MoreFaults (S.Store.faults store.old) (S.Store.faults store.new)) ⊥) }
    ensures quiet { IsQuiet S.Store.view S.Store.faults S.Store.recovers S.Store.is_shielded store.old store.new }
{
    if store.next(0, row)? {
        return Ok(());
    }
    row.clear();
    Ok(())
}

/// Makes `row` the last row of this table, or empty if there is none.
pub(crate) fn read_last<S: Store>(
    store: &mut S,
    row: &mut Row,
    table: u32,
) -> Result<(), StoreError>
    ensures last { OnOk result (IsClean (S.Store.view store.new) → row.new ≡ last_row ((S.Store.view store.old).trees table)) }
    ensures same { OnOk result (IsClean (S.Store.view store.new) → S.Store.view store.new ≡ record (S.Store.view store.old) { cursors = (S.Store.view store.new).cursors }) }
    ensures sound { OnOk result (IsClean (S.Store.view store.new) → (S.Store.view store.old).is_broken ≡ false) }
    ensures kept { KeepsCommitted (S.Store.view store.old) (S.Store.view store.new) }
    ensures schema { KeepsSchema (S.Store.view store.old) (S.Store.view store.new) }
    ensures cause { IsClean (S.Store.view store.new) → IfErr result (HasCause (S.Store.view store.old) (MoreFaults (S.Store.faults store.old) (S.Store.faults store.new)) ⊥) }
    ensures quiet { IsQuiet S.Store.view S.Store.faults S.Store.recovers S.Store.is_shielded store.old store.new }
{
    seek_last(store, row, table)?;
    take_row(store, row)
}

/// Returns the terms in the row of the last run, or None if there is no run or its row has none.
pub(crate) fn last_terms<S: Store>(
    alloc: Global,
    store: &mut S,
    row: &mut Row,
) -> Result<Option<Bytes<Global>>, StoreError>
    ensures terms { IfOk result (λ terms. IsClean (S.Store.view store.new) → terms ≡ terms_in (last_row ((S.Store.view store.old).trees 1))) }
    ensures same { OnOk result (IsClean (S.Store.view store.new) → S.Store.view store.new ≡ record (S.Store.view store.old) { cursors = (S.Store.view store.new).cursors }) }
    ensures cause { IsClean (S.Store.view store.new) → IfErr result (HasCause (S.Store.view store.old) (MoreFaults (S.Store.faults store.old) (S.Store.faults store.new)) ⊥) }
    ensures quiet { IsQuiet S.Store.view S.Store.faults S.Store.recovers S.Store.is_shielded store.old store.new }
{
    read_last(store, row, RUNS)?;
    Ok(cells::bytes_in(alloc, row.get(TERMS))?)
}

/// Returns how many requests the row of the last run counts, or 0 if there is no run.
pub(crate) fn last_requests<S: Store>(store: &mut S, row: &mut Row) -> Result<u64, StoreError>
    ensures requests { IfOk result (λ requests. IsClean (S.Store.view store.new) → requests ≡ last_requests ((S.Store.view store.old).trees 1)) }
    ensures same { OnOk result (IsClean (S.Store.view store.new) → S.Store.view store.new ≡ record (S.Store.view store.old) { cursors = (S.Store.view store.new).cursors }) }
    ensures cause { IsClean (S.Store.view store.new) → IfErr result (HasCause (S.Store.view store.old) (MoreFaults (S.Store.faults store.old) (S.Store.faults store.new)) ⊥) }
    ensures quiet { IsQuiet S.Store.view S.Store.faults S.Store.recovers S.Store.is_shielded store.old store.new }
{
    read_last(store, row, RUNS)?;
    Ok(cells::number_in(row.get(REQUESTS)))
}

/// Returns the number of the run with this row if it began a hundred runs or more before the run `number`.
fn old_in(row: &Row, number: u64) -> Option<i64>
    ensures old { result ≡ old_in number (rowid row.now) }
    ensures fits { IfSome result (λ id. FitsSigned w64 id) }
{
    match row.get(0) {
        ValueRef::Int(id) if number.saturating_sub(id.cast_unsigned()) >= KEPT => Some(id),
        _ => None,
    }
}

/// Moves the cursor to the first row of the runs.
fn seek_first<S: Store>(store: &mut S, row: &mut Row) -> Result<(), StoreError>
    ensures live { OnOk result (IsSome ((S.Store.view store.new).cursors 0)) }
    ensures left { OnOk result (IsClean (S.Store.view store.new) → (S.Store.view store.new).cursors 0 ≡ Some ((S.Store.view store.old).trees 1)) }
    ensures same { OnOk result (IsClean (S.Store.view store.new) → S.Store.view store.new ≡ record (S.Store.view store.old) { cursors = (S.Store.view store.new).cursors }) }
    ensures sound { OnOk result (IsClean (S.Store.view store.new) → (S.Store.view store.old).is_broken ≡ false) }
    ensures kept { KeepsCommitted (S.Store.view store.old) (S.Store.view store.new) }
    ensures schema { KeepsSchema (S.Store.view store.old) (S.Store.view store.new) }
    ensures cause { IsClean (S.Store.view store.new) → IfErr result (HasCause (S.Store.view store.old) (MoreFaults (S.Store.faults store.old) (S.Store.faults store.new)) ⊥) }
    ensures quiet { IsQuiet S.Store.view S.Store.faults S.Store.recovers S.Store.is_shielded store.old store.new }
{
    row.clear();
    store.seek(0, RUNS, row, Direction::Forward)
}

/// Returns the number of the first run, if it began a hundred runs or more before the run `number`.
fn first_old<S: Store>(store: &mut S, row: &mut Row, number: u64) -> Result<Option<i64>, StoreError>
    ensures found { IfOk result (λ id. IsClean (S.Store.view store.new) → id ≡ first_old number ((S.Store.view store.old).trees 1)) }
    ensures fits { IfOk result (λ first. IfSome first (λ id. FitsSigned w64 id)) }
    ensures same { OnOk result (IsClean (S.Store.view store.new) → S.Store.view store.new ≡ record (S.Store.view store.old) { cursors = (S.Store.view store.new).cursors }) }
    ensures sound { OnOk result (IsClean (S.Store.view store.new) → (S.Store.view store.old).is_broken ≡ false) }
    ensures kept { KeepsCommitted (S.Store.view store.old) (S.Store.view store.new) }
    ensures schema { KeepsSchema (S.Store.view store.old) (S.Store.view store.new) }
    ensures cause { IsClean (S.Store.view store.new) → IfErr result (HasCause (S.Store.view store.old) (MoreFaults (S.Store.faults store.old) (S.Store.faults store.new)) ⊥) }
    ensures quiet { IsQuiet S.Store.view S.Store.faults S.Store.recovers S.Store.is_shielded store.old store.new }
{
    seek_first(store, row)?;
    take_row(store, row)?;
    Ok(old_in(row, number))
}

/// Deletes the first run in a transaction, if it began a hundred runs or more before the run `number`, and returns
/// whether it did.
fn drop_first<S: Store>(store: &mut S, row: &mut Row, number: u64) -> Result<bool, StoreError>
    requires table { IsClean (S.Store.view store.old) → (S.Store.view store.old).is_broken ≡ false → (S.Store.view store.old).shape 1 ≡ Table }
    ensures dropped { IfOk result (λ goes_on. IsClean (S.Store.view store.new) → DropsRuns (S.Store.view store.old) (S.Store.view store.new) number goes_on) }
    ensures kept { KeepsCommitted (S.Store.view store.old) (S.Store.view store.new) }
    ensures schema { KeepsSchema (S.Store.view store.old) (S.Store.view store.new) }
    ensures cause { IsClean (S.Store.view store.new) → IfErr result (HasCause (S.Store.view store.old) (MoreFaults (S.Store.faults store.old) (S.Store.faults store.new)) ⊥) }
    ensures quiet { IsQuiet S.Store.view S.Store.faults S.Store.recovers S.Store.is_shielded store.old store.new }
{
    match first_old(store, row, number) {
        Ok(Some(id)) => {
            store.delete(RUNS, id)?;
            Ok(true)
        }
        Ok(None) => Ok(false),
        Err(error) => Err(error),
    }
}

/// Deletes the runs before the first that is among the last hundred up to the run `number`, in a transaction.
fn drop_old<S: Store>(store: &mut S, row: &mut Row, number: u64) -> Result<(), StoreError>
    requires table { IsClean (S.Store.view store.old) → (S.Store.view store.old).is_broken ≡ false → (S.Store.view store.old).shape 1 ≡ Table }
    ensures dropped { OnOk result (IsClean (S.Store.view store.new) → DropsRuns (S.Store.view store.old) (S.Store.view store.new) number false) }
    ensures kept { KeepsCommitted (S.Store.view store.old) (S.Store.view store.new) }
    ensures schema { KeepsSchema (S.Store.view store.old) (S.Store.view store.new) }
    ensures cause { IsClean (S.Store.view store.new) → IfErr result (HasCause (S.Store.view store.old) (MoreFaults (S.Store.faults store.old) (S.Store.faults store.new)) ⊥) }
    ensures quiet { IsQuiet S.Store.view S.Store.faults S.Store.recovers S.Store.is_shielded store.old store.new }
{
    for _ in 0..u64::MAX {
        match drop_first(store, row, number) {
            Ok(true) => {}
            Ok(false) => return Ok(()),
            Err(error) => return Err(error),
        }
    }
    // No memory holds so many rows.
    Err(StoreError::OutOfMemory)
}

/// Returns the number of the run after the last one, whose row is `last`.
fn number_behind(last: &Row, requests: u64) -> Result<u64, StoreFault>
    ensures number { IfOk result (λ number. (number ≡ number_in (rowid last.now) + 1) × (number < 2 ^ 63)) }
    ensures enough { OnOk result (number_in (column last.now 5) ≤ requests) }
    ensures cause { IfErr result (HasRunReason (record {
      Failed = ⊥;
      WasShut = ⊥;
      IsTooLarge = ⊥;
      AreTooMany = 2 ^ 63 ≤ number_in (rowid last.now) + 1;
      IsNotRequest = ⊥;
    }) (requests < number_in (column last.now 5))) }
{
    if cells::number_in(last.get(REQUESTS)) > requests {
        return Err(StoreFault::Short);
    }
    let number = cells::number_in(last.get(0));
    if number >= LAST {
        return Err(StoreFault::TooMany);
    }
    Ok(number + 1)
}

/// Appends the row of a run in a transaction, deletes the runs before the last hundred, and returns its number.
pub(crate) fn enter_run<S: Store>(
    store: &mut S,
    row: &mut Row,
    run: &Run<'_>,
    requests: u64,
) -> Result<u64, StoreFault>
    requires table { IsClean (S.Store.view store.old) → (S.Store.view store.old).is_broken ≡ false → (S.Store.view store.old).shape 1 ≡ Table }
    ensures enters { IfOk result (λ number. IsClean (S.Store.view store.new) → Enters (S.Store.view store.old) (S.Store.view store.new) number run.now requests) }
    ensures kept { KeepsCommitted (S.Store.view store.old) (S.Store.view store.new) }
    ensures schema { KeepsSchema (S.Store.view store.old) (S.Store.view store.new) }
    ensures cause { IsClean (S.Store.view store.new) → IfErr result (HasRunReason (record {
      Failed = MoreFaults (S.Store.faults store.old) (S.Store.faults store.new);
      WasShut = IsTrue (S.Store.view store.old).is_broken;
      IsTooLarge = ((S.Store.view store.old).is_broken ≡ false) × (¬ IsStorableRow ((S.Store.view store.old).reals 1) (row_of_run (last_number ((S.Store.view store.old).trees 1) + 1) run.now requests));
      AreTooMany = ((S.Store.view store.old).is_broken ≡ false) × (2 ^ 63 ≤ last_number ((S.Store.view store.old).trees 1) + 1);
      IsNotRequest = ⊥;
    }) (((S.Store.view store.old).is_broken ≡ false) × (requests < last_requests ((S.Store.view store.old).trees 1)))) }
    ensures quiet { IsQuiet S.Store.view S.Store.faults S.Store.recovers S.Store.is_shielded store.old store.new }
{
    read_last(store, row, RUNS)?;
    let number = number_behind(row, requests)?;
    put_run(store, row, number, run, requests)?;
    drop_old(store, row, number)?;
    Ok(number)
}
