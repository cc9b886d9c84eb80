//! A digest of records, by which those in a file are compared with those that were appended. It is SipHash-1-3, with which
//! the kit's pages are tested too: it tells 64 bits of difference, and is no seal against one who chooses the records.

ghost use Rattle.std.specs.Prelude.{◌≡◌, map};
ghost use Rattle.std.specs.List.{fold};
ghost use Rattle.std.specs.Hash.DefaultHasher as sip;
ghost use Rattle.sqlite_value.specs.Value.{owned};
ghost use Rattle.ups_store.specs.Digest.{bytes_input, cell_input, cells_input, digest_with, digest_after};

use crate::request::cells_of;
use sqlite_value::value::ValueRef;
use std::alloc::Global;
use std::hash::{DefaultHasher, Hasher};
use ups_journal::Record;

/// Hashes a text or a blob.
fn feed_bytes(state: &mut DefaultHasher, kind: u8, bytes: &[u8])
    ensures { state.new ≡ fold sip.write state.old (bytes_input kind bytes.now) }
{
    state.write_u8(kind);
    state.write_usize(bytes.len());
    state.write(bytes);
}

/// Hashes a cell.
fn feed(state: &mut DefaultHasher, cell: ValueRef<'_>)
    ensures { state.new ≡ fold sip.write state.old (cell_input (owned cell.entry)) }
{
    match cell {
        ValueRef::Null => state.write_u8(0),
        ValueRef::Int(number) => {
            state.write_u8(1);
            state.write_i64(number);
        }
        ValueRef::Real(_) => state.write_u8(2),
        ValueRef::Text(text) => feed_bytes(state, 3, text),
        ValueRef::Blob(blob) => feed_bytes(state, 4, blob),
    }
}

/// Hashes cells, one after the other.
fn feed_all(state: &mut DefaultHasher, cells: &[ValueRef<'_>])
    ensures { state.new ≡ fold sip.write state.old (cells_input (map owned cells.now)) }
{
    for at in 0..cells.len() {
        feed(state, cells[at]);
    }
}

/// Returns the digest of records with one more behind them, where `before` is the digest of those: 0 is that of none.
#[tactic(auto, unfolding(crate::specs::Digest::digest_with))]
pub fn digest_with(before: u64, asked: &Record<Global>) -> u64
    ensures { result ≡ digest_with before asked.now }
{
    let mut state = DefaultHasher::new();
    state.write_u64(before);
    feed_all(&mut state, &cells_of(asked));
    state.finish()
}

/// Returns the digest of records with these behind them, where `before` is the digest of those before.
pub fn digest_after(before: u64, records: &[Record<Global>]) -> u64
    ensures { result ≡ digest_after before records.now }
{
    let mut digest = before;
    for at in 0..records.len() {
        digest = digest_with(digest, &records[at]);
    }
    digest
}
