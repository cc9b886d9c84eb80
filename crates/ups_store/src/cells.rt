//! The cells of a row, and the values in them. A cell without a valid value reads as zero, as empty or as None: whether
//! a row was written here is found out by writing it again.

ghost use Rattle.std.specs.Prelude.{◌≡◌, ◌++◌, map, IfOk, OnOk};
ghost use Rattle.sqlite_value.specs.Value.{owned};
ghost use Rattle.sqlite_value.specs.Order.{bytes};
ghost use Rattle.ups_store.specs.Cells.{number_cell, number_in, short_in, event_cell, event_in, lock_cell, lock_in_cell, offset_cell, offset_in, text_cell, blob_cell, bytes_in, state_cell, state_in, operation_in};

use crate::words::state_named;
use sqlite_value::row::Row;
use sqlite_value::value::ValueRef;
use std::alloc::{AllocError, Global};
use ups_cycle::StepState;
use ups_journal::RecordedOperation;
use ups_pdu::Bytes;

/// Returns the cell of a number. One of 2^63 or more becomes a negative integer.
pub(crate) fn number_cell(number: u64) -> ValueRef<'static>
    ensures is { owned result ≡ number_cell number }
    ensures again { number_in (number_cell number) ≡ number }
{
    ValueRef::Int(number.cast_signed())
}

/// Returns the cell of a 32-bit number.
pub(crate) fn short_cell(number: u32) -> ValueRef<'static>
    ensures is { owned result ≡ number_cell number }
    ensures again { short_in (number_cell number) ≡ number }
{
    ValueRef::Int(u64::from(number).cast_signed())
}

/// Returns the cell of the number of an event, or NULL.
pub(crate) fn event_cell(event: Option<u64>) -> ValueRef<'static>
    ensures is { owned result ≡ event_cell event }
    ensures again { event_in (event_cell event) ≡ event }
{
    match event {
        Some(number) => ValueRef::Int(number.cast_signed()),
        None => ValueRef::Null,
    }
}

/// Returns the cell of a Deletion Lock, or NULL.
pub(crate) fn lock_cell(lock: Option<bool>) -> ValueRef<'static>
    ensures is { owned result ≡ lock_cell lock }
    ensures again { lock_in_cell (lock_cell lock) ≡ lock }
{
    match lock {
        Some(true) => ValueRef::Int(1),
        Some(false) => ValueRef::Int(0),
        None => ValueRef::Null,
    }
}

/// Returns the cell of an offset from UTC, in minutes, or NULL.
pub(crate) fn offset_cell(offset: Option<i16>) -> ValueRef<'static>
    ensures is { owned result ≡ offset_cell offset }
    ensures again { offset_in (offset_cell offset) ≡ offset }
{
    match offset {
        Some(minutes) => ValueRef::Int(i64::from(minutes)),
        None => ValueRef::Null,
    }
}

/// Returns the cell of a text, or NULL.
pub(crate) fn text_cell(text: &Option<Bytes<Global>>) -> ValueRef<'_>
    ensures { owned result ≡ text_cell text.now }
{
    match text {
        Some(text) => ValueRef::Text(text.as_slice()),
        None => ValueRef::Null,
    }
}

/// Returns the cell of bytes, or NULL.
pub(crate) fn blob_cell(blob: &Option<Bytes<Global>>) -> ValueRef<'_>
    ensures { owned result ≡ blob_cell blob.now }
{
    match blob {
        Some(blob) => ValueRef::Blob(blob.as_slice()),
        None => ValueRef::Null,
    }
}

/// Returns the cell of the text of a state, or NULL.
pub(crate) fn state_cell(state: Option<StepState>) -> ValueRef<'static>
    ensures { owned result ≡ state_cell state }
{
    match state {
        Some(state) => ValueRef::Text(state.text()),
        None => ValueRef::Null,
    }
}

/// Appends cells to a row.
pub(crate) fn lay(row: &mut Row, cells: &[ValueRef<'_>]) -> Result<(), AllocError>
    ensures { OnOk result (row.new ≡ row.old ++ map owned cells.now) }
{
    for at in 0..cells.len() {
        row.push(cells[at])?;
    }
    Ok(())
}

pub(crate) fn number_in(cell: ValueRef<'_>) -> u64
    ensures { result ≡ number_in (owned cell.entry) }
{
    match cell {
        ValueRef::Int(number) => number.cast_unsigned(),
        _ => 0,
    }
}

pub(crate) fn short_in(cell: ValueRef<'_>) -> u32
    ensures { result ≡ short_in (owned cell.entry) }
{
    let number = number_in(cell);
    if number < 1 << 32 { number as u32 } else { 0 }
}

pub(crate) fn event_in(cell: ValueRef<'_>) -> Option<u64>
    ensures { result ≡ event_in (owned cell.entry) }
{
    match cell {
        ValueRef::Int(number) => Some(number.cast_unsigned()),
        _ => None,
    }
}

pub(crate) fn lock_in(cell: ValueRef<'_>) -> Option<bool>
    ensures { result ≡ lock_in_cell (owned cell.entry) }
{
    match cell {
        ValueRef::Int(number) => Some(number.cast_unsigned() == 1),
        _ => None,
    }
}

pub(crate) fn offset_in(cell: ValueRef<'_>) -> Option<i16>
    ensures { result ≡ offset_in (owned cell.entry) }
{
    match cell {
        ValueRef::Int(minutes) => {
            if minutes >= -32768 && minutes < 32768 {
                Some(minutes as i16)
            } else {
                Some(0)
            }
        }
        _ => None,
    }
}

pub(crate) fn bytes_in(
    alloc: Global,
    cell: ValueRef<'_>,
) -> Result<Option<Bytes<Global>>, AllocError>
    ensures { IfOk result (λ b. b ≡ bytes_in (owned cell.entry)) }
{
    match cell {
        ValueRef::Text(bytes) | ValueRef::Blob(bytes) => Ok(Some(Bytes::copy_of(alloc, bytes)?)),
        _ => Ok(None),
    }
}

/// Returns the bytes of a text or a blob, or no bytes for another cell.
fn lent(cell: ValueRef<'_>) -> &[u8]
    ensures { result.now ≡ bytes (owned cell.entry) }
{
    match cell {
        ValueRef::Text(bytes) | ValueRef::Blob(bytes) => bytes,
        _ => &[],
    }
}

pub(crate) fn text_in(alloc: Global, cell: ValueRef<'_>) -> Result<Bytes<Global>, AllocError>
    ensures { IfOk result (λ b. b ≡ bytes (owned cell.entry)) }
{
    Bytes::copy_of(alloc, lent(cell))
}

pub(crate) fn state_in(cell: ValueRef<'_>) -> Option<StepState>
    ensures { result ≡ state_in (owned cell.entry) }
{
    state_named(lent(cell))
}

pub(crate) fn operation_in(cell: ValueRef<'_>) -> RecordedOperation
    ensures { result ≡ operation_in (owned cell.entry) }
{
    RecordedOperation::named(lent(cell)).unwrap_or(RecordedOperation::Create)
}
