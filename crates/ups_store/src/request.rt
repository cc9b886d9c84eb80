//! A request as a row of the table.

ghost use Rattle.std.specs.Prelude.{◌≡◌, ◌≢◌, map, Ok, None, IfOk, IfSome, OnOk};
ghost use Rattle.sqlite_value.specs.Value.{owned};
ghost use Rattle.ups_store.specs.Rows.{stored_in_run, record_cells, request_row, columns_in, record_in, request_in, IsReadAgain};

use crate::cells;
use sqlite_value::row::Row;
use sqlite_value::value::ValueRef;
use std::alloc::{AllocError, Global};
use ups_journal::{Columns, Record};

/// An accepted request in the store. Its number is its position, from 1.
#[derive(Drop)]
pub struct StoredRequest {
    /// The run of the program in which it was entered.
    pub run: u64,
    /// What was requested, by whom and when.
    pub asked: Record<Global>,
}

/// Returns the cells of a record, in the order of their columns.
pub(crate) fn cells_of(asked: &Record<Global>) -> [ValueRef<'_>; 12]
    ensures is { map owned result ≡ record_cells asked.now }
    ensures again { IsReadAgain asked.now }
{
    [
        cells::short_cell(asked.caller),
        cells::number_cell(asked.moment),
        ValueRef::Text(asked.title.as_slice()),
        ValueRef::Text(asked.request.operation.name()),
        cells::text_cell(&asked.request.instance),
        cells::text_cell(&asked.request.transaction_uid),
        cells::state_cell(asked.request.state),
        cells::text_cell(&asked.request.receiver),
        cells::lock_cell(asked.request.deletion_lock),
        cells::event_cell(asked.request.event),
        cells::offset_cell(asked.request.utc_offset),
        cells::blob_cell(&asked.request.attributes),
    ]
}

/// Makes `row` the row with the number `number` of a record entered in the run `run`.
pub(crate) fn lay(
    row: &mut Row,
    number: i64,
    run: u64,
    asked: &Record<Global>,
) -> Result<(), AllocError>
    ensures laid { OnOk result (row.new ≡ request_row number (stored_in_run run asked.now)) }
    ensures says { OnOk result (request_in row.new ≡ stored_in_run run asked.now) }
{
    row.clear();
    row.push(ValueRef::Int(number))?;
    row.push(ValueRef::Null)?;
    row.push(cells::number_cell(run))?;
    cells::lay(row, &cells_of(asked))
}

fn columns_in(alloc: Global, row: &Row) -> Result<Columns<Global>, AllocError>
    ensures { IfOk result (λ c. c ≡ columns_in row.now) }
{
    Ok(Columns {
        operation: cells::operation_in(row.get(6)),
        instance: cells::bytes_in(alloc, row.get(7))?,
        transaction_uid: cells::bytes_in(alloc, row.get(8))?,
        state: cells::state_in(row.get(9)),
        receiver: cells::bytes_in(alloc, row.get(10))?,
        deletion_lock: cells::lock_in(row.get(11)),
        event: cells::event_in(row.get(12)),
        utc_offset: cells::offset_in(row.get(13)),
        attributes: cells::bytes_in(alloc, row.get(14))?,
    })
}

fn record_in(alloc: Global, row: &Row) -> Result<Record<Global>, AllocError>
    ensures { IfOk result (λ r. r ≡ record_in row.now) }
{
    Ok(Record {
        caller: cells::short_in(row.get(3)),
        title: cells::text_in(alloc, row.get(5))?,
        moment: cells::number_in(row.get(4)),
        request: columns_in(alloc, row)?,
    })
}

/// Returns the request in a row.
fn request_in(alloc: Global, row: &Row) -> Result<StoredRequest, AllocError>
    ensures { IfOk result (λ r. r ≡ request_in row.now) }
{
    Ok(StoredRequest {
        run: cells::number_in(row.get(2)),
        asked: record_in(alloc, row)?,
    })
}

/// Returns the request with the number `number` if this is its row, or None. `again` becomes the row of what was read.
pub(crate) fn read(
    alloc: Global,
    number: i64,
    row: &Row,
    again: &mut Row,
) -> Result<Option<StoredRequest>, AllocError>
    ensures some { IfOk result (λ found. IfSome found (λ r. (row.now ≡ request_row number r) × (request_in row.now ≡ r))) }
    ensures none { result ≡ Ok None → row.now ≢ request_row number (request_in row.now) }
{
    let request = request_in(alloc, row)?;
    lay(again, number, request.run, &request.asked)?;
    if again.is_same(row) {
        Ok(Some(request))
    } else {
        Ok(None)
    }
}
