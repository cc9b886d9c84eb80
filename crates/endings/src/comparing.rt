//! The comparison of records with the entries of a history.

use crate::texts::out_of_memory;
use std::alloc::Global;
use std::io;
use ups_journal::{Columns, Record, record_of};
use ups_life::Entry;
use ups_pdu::Bytes;

/// Returns whether two optional texts are equal.
fn same_bytes(a: &Option<Bytes<Global>>, b: &Option<Bytes<Global>>) -> bool {
    match (a, b) {
        (Some(a), Some(b)) => a.as_slice() == b.as_slice(),
        (None, None) => true,
        _ => false,
    }
}

/// Returns whether all texts in the columns of two requests are equal.
fn same_texts(a: &Columns<Global>, b: &Columns<Global>) -> bool {
    same_bytes(&a.instance, &b.instance)
        && same_bytes(&a.transaction_uid, &b.transaction_uid)
        && same_bytes(&a.receiver, &b.receiver)
        && same_bytes(&a.attributes, &b.attributes)
}

/// Returns whether all other columns of two requests are equal.
fn same_values(a: &Columns<Global>, b: &Columns<Global>) -> bool {
    a.operation == b.operation
        && a.state == b.state
        && a.deletion_lock == b.deletion_lock
        && a.event == b.event
        && a.utc_offset == b.utc_offset
}

/// Returns whether two records are equal.
fn is_same(a: &Record<Global>, b: &Record<Global>) -> bool {
    a.caller == b.caller
        && a.moment == b.moment
        && a.title.as_slice() == b.title.as_slice()
        && same_values(&a.request, &b.request)
        && same_texts(&a.request, &b.request)
}

/// Returns whether a record is that of an entry.
///
/// Errors: lack of memory.
fn is_of(alloc: Global, stored: &Record<Global>, entry: &Entry<Global>) -> io::Result<bool> {
    match record_of(alloc, entry) {
        Ok(made) => Ok(is_same(&made, stored)),
        Err(_) => Err(out_of_memory()),
    }
}

/// Returns whether records are those of the first entries of a history.
///
/// Errors: lack of memory.
pub(crate) fn are_of_first(
    alloc: Global,
    records: &[Record<Global>],
    history: &[Entry<Global>],
) -> io::Result<bool> {
    for (place, stored) in records.iter().enumerate() {
        let Some(entry) = history.get(place) else {
            return Ok(false);
        };
        if !is_of(alloc, stored, entry)? {
            return Ok(false);
        }
    }
    Ok(true)
}
