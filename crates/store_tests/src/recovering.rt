//! What a start would find in the files of a store.

use crate::bench::{Bench, SEED};
use sqlite_disk::{Disk, Files, Memory};
use sqlite_store::FileStore;
use std::alloc::Global;
use std::cell::RefCell;
use ups_store::{Replay, open_files};

/// Returns a disk that holds these bytes, or None if memory runs out.
fn holding(alloc: Global, bytes: &[u8]) -> Option<Memory> {
    let mut memory = Memory::new(alloc);
    if memory.write_at(0, bytes).is_err() || memory.sync().is_err() {
        return None;
    }
    Some(memory)
}

/// Returns a disk that holds what a cell has, or None if memory runs out.
pub(crate) fn loaded(alloc: Global, bytes: &RefCell<Vec<u8>>) -> Option<Memory> {
    match bytes.try_borrow() {
        Ok(bytes) => holding(alloc, &bytes),
        Err(_) => None,
    }
}

/// Opens the store in a copy of what the files have after a crash.
fn reopened(alloc: Global, bench: &Bench, by_power_cut: bool) -> Option<Replay<FileStore<Memory>>> {
    let log = loaded(alloc, bench.log.left(by_power_cut))?;
    let db = loaded(alloc, bench.db.left(by_power_cut))?;
    if !log.may_be_used() || !db.may_be_used() {
        return None;
    }
    open_files(alloc, Files { log, db }, SEED).ok()
}

/// Returns whether the next request is the one with this number, or None at the end.
fn is_next(replay: &mut Replay<FileStore<Memory>>, number: u64) -> Option<bool> {
    match replay.next_request() {
        Ok(Some(request)) => Some(request.asked.moment == number),
        Ok(None) => None,
        Err(_) => Some(false),
    }
}

/// Returns how many requests follow, or None if they are not those of the history in their order.
fn count_in(replay: &mut Replay<FileStore<Memory>>, most: u64) -> Option<u64> {
    for number in 0..most {
        match is_next(replay, number) {
            Some(true) => {}
            Some(false) => return None,
            None => return Some(number),
        }
    }
    match is_next(replay, most) {
        None => Some(most),
        Some(_) => None,
    }
}

/// Returns how many requests a start finds after a crash of the process, or after a power cut, or None if they are not
/// the first of the history in their order, or more than `most`.
pub(crate) fn recovered(
    alloc: Global,
    bench: &Bench,
    by_power_cut: bool,
    most: u64,
) -> Option<u64> {
    let mut replay = reopened(alloc, bench, by_power_cut)?;
    count_in(&mut replay, most)
}
