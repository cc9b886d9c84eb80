//! Reopening a store that a failed sync has shut.

ghost use Rattle.std.specs.Prelude.{◌≡◌, ◌+◌, ◌≤◌, ◌++◌, ◌∷◌, [], false, true, None, length, take, IfOk, IfSome, OnOk, IsTrue};
ghost use Rattle.sqlite_trees.specs.View.{IsClean};
ghost use Rattle.ups_store.specs.Shown.{requests_shown, requests, shown_by, all_of, given_out, has_ended, GivesRequest};
ghost use Rattle.ups_start.specs.declared.front.Front.{Front};
ghost use Rattle.ups_start.specs.Front.{AreFront};
ghost use Rattle.ups_start.specs.Digested.{IsDigested};
ghost use Rattle.ups_start.specs.Started.{said};
ghost use Rattle.ups_start.specs.Reopened.{ComesNext, HasBehind, AreBehindSame};

use crate::comparing::is_same;
use crate::fault::fault_of;
use crate::front::Front;
use crate::reading::Reading;
use sqlite_trees::store::Store;
use std::alloc::Global;
use ups_journal::Record;
use ups_ledger::LedgerFault;
use ups_store::{OpenFault, Replay, RequestStore, StoreFault, StoredRequest};

/// A store that was reopened.
#[derive(Drop)]
pub(crate) struct Reopened<S: Store> {
    /// The store.
    pub(crate) store: RequestStore<S>,
    /// How many of the records to be appended it already has.
    pub(crate) there: usize,
}

/// Returns the `LedgerFault` for a store that could not be reopened: Shut if another try may succeed, as where a volume
/// that was unmounted comes back.
pub(crate) fn fault_of_open(fault: OpenFault) -> LedgerFault {
    match fault {
        OpenFault::Memory
        | OpenFault::Busy
        | OpenFault::Unopened
        | OpenFault::Missing
        | OpenFault::Disk
        | OpenFault::Full => LedgerFault::Shut,
        OpenFault::AtLimit
        | OpenFault::Damaged
        | OpenFault::NotStore
        | OpenFault::LogAlone
        | OpenFault::Exists
        | OpenFault::OtherFormat => LedgerFault::Lost,
    }
}

/// Returns the `LedgerFault` for a store that could not be read.
fn fault_of_reading(fault: StoreFault) -> LedgerFault {
    match fault {
        StoreFault::Memory | StoreFault::Disk | StoreFault::Full | StoreFault::Shut => {
            LedgerFault::Shut
        }
        _ => LedgerFault::Lost,
    }
}

/// Returns the next request, or None at the end.
///
/// Errors: Shut; Lost if the store is not what was written.
fn next_of<S: Store>(reading: &mut Reading<S>) -> Result<Option<StoredRequest>, LedgerFault>
    ensures given { IfOk result (λ found. IsClean (shown_by reading.new.replay) → GivesRequest (all_of reading.new.replay) (given_out reading.old.replay) (given_out reading.new.replay) found) }
    ensures ended { IfOk result (λ found. found ≡ None → IsTrue (has_ended reading.new.replay)) }
    ensures clean { IsClean (shown_by reading.new.replay) → IsClean (shown_by reading.old.replay) }
    ensures digested { OnOk result (IsDigested reading.old → IsDigested reading.new) }
{
    match reading.next_request() {
        Ok(found) => Ok(found),
        Err(fault) => Err(fault_of_reading(fault)),
    }
}

/// Skips the first `count` requests.
///
/// Errors: Lost if there are fewer; those of reading.
fn pass_over<S: Store>(reading: &mut Reading<S>, count: u64) -> Result<(), LedgerFault>
    ensures passed { OnOk result (IsClean (shown_by reading.new.replay) → length (said (given_out reading.new.replay)) ≡ length (said (given_out reading.old.replay)) + count) }
    ensures clean { IsClean (shown_by reading.new.replay) → IsClean (shown_by reading.old.replay) }
    ensures digested { OnOk result (IsDigested reading.old → IsDigested reading.new) }
{
    for _passed in 0..count {
        match next_of(reading)? {
            Some(_) => {}
            None => return Err(LedgerFault::Lost),
        }
    }
    Ok(())
}

/// Reads the committed requests.
///
/// Errors: Lost if the store has fewer, or others; those of reading.
fn pass_committed<S: Store>(reading: &mut Reading<S>, committed: Front) -> Result<(), LedgerFault>
    requires first { given_out reading.old.replay ≡ [] }
    requires none { IsDigested reading.old }
    ensures committed { OnOk result (IsClean (shown_by reading.new.replay) → AreFront (said (given_out reading.new.replay)) committed) }
    ensures clean { IsClean (shown_by reading.new.replay) → IsClean (shown_by reading.old.replay) }
{
    pass_over(reading, committed.count)?;
    if reading.digest != committed.digest {
        return Err(LedgerFault::Lost);
    }
    Ok(())
}

/// Returns whether the next request is this record, or false at the end.
///
/// Errors: Lost if it is another one; those of reading.
fn is_next<S: Store>(
    reading: &mut Reading<S>,
    expected: &Record<Global>,
) -> Result<bool, LedgerFault>
    ensures next { IfOk result (λ next. IsClean (shown_by reading.new.replay) → ComesNext reading.old.replay reading.new.replay expected.now next) }
    ensures ended { IfOk result (λ next. next ≡ false → IsTrue (has_ended reading.new.replay)) }
    ensures clean { IsClean (shown_by reading.new.replay) → IsClean (shown_by reading.old.replay) }
{
    let request = match next_of(reading)? {
        Some(request) => request,
        None => return Ok(false),
    };
    if !is_same(&request.asked, expected) {
        return Err(LedgerFault::Lost);
    }
    Ok(true)
}

/// Checks that all requests were read.
///
/// Errors: Lost if there is one more; those of reading.
fn is_end<S: Store>(reading: &mut Reading<S>) -> Result<(), LedgerFault>
    ensures end { OnOk result (IsClean (shown_by reading.new.replay) → (given_out reading.new.replay ≡ given_out reading.old.replay) × (given_out reading.new.replay ≡ all_of reading.new.replay)) }
    ensures ended { OnOk result (IsTrue (has_ended reading.new.replay)) }
    ensures clean { IsClean (shown_by reading.new.replay) → IsClean (shown_by reading.old.replay) }
{
    match next_of(reading)? {
        Some(_) => Err(LedgerFault::Lost),
        None => Ok(()),
    }
}

/// Returns how many of these records come next, as the last requests.
///
/// Errors: Lost if another request comes; those of reading.
fn count_there<S: Store>(
    reading: &mut Reading<S>,
    records: &[Record<Global>],
) -> Result<usize, LedgerFault>
    ensures within { IfOk result (λ there. there ≤ length records.now) }
    ensures there { IfOk result (λ there. IsClean (shown_by reading.new.replay) → said (all_of reading.new.replay) ≡ said (given_out reading.old.replay) ++ take there records.now) }
    ensures ended { OnOk result (IsTrue (has_ended reading.new.replay)) }
    ensures clean { IsClean (shown_by reading.new.replay) → IsClean (shown_by reading.old.replay) }
{
    for (place, expected) in records.iter().enumerate() {
        if !is_next(reading, expected)? {
            return Ok(place);
        }
    }
    is_end(reading)?;
    Ok(records.len())
}

/// Reads the requests of a store that was reopened: those that are committed, and after them those of these records,
/// from the first on, that an append wrote without returning `Ok`.
///
/// Errors: Lost if it has others; Shut if it could not be read.
pub(crate) fn go_through<S: Store + Drop>(
    replay: Replay<S>,
    committed: Front,
    records: &[Record<Global>],
) -> Result<Reopened<S>, LedgerFault>
    requires first { given_out replay ≡ [] }
    ensures within { IfOk result (λ r. r.there ≤ length records.now) }
    ensures behind { IfOk result (λ r. IsClean (requests_shown r.store) → HasBehind (said (requests r.store)) committed records.now r.there) }
{
    let mut reading = Reading::over(replay);
    pass_committed(&mut reading, committed)?;
    let there = count_there(&mut reading, records)?;
    match reading.replay.finish() {
        Some(store) => Ok(Reopened { store, there }),
        None => Err(LedgerFault::Shut),
    }
}

/// Appends to a store that was reopened, as entered in the run `run`, those of these records that it does not have yet,
/// and returns it.
///
/// Errors: those of an append. The store is dropped, so that the next try counts its requests anew.
pub(crate) fn append_rest<S: Store + Drop>(
    reopened: Reopened<S>,
    run: u64,
    records: &[Record<Global>],
) -> Result<RequestStore<S>, LedgerFault>
    requires within { reopened.there ≤ length records.now }
    ensures behind { IfOk result (λ store. (committed : Front) → (IsClean (requests_shown reopened.store) → HasBehind (said (requests reopened.store)) committed records.now reopened.there)
        → IsClean (requests_shown store) → AreBehindSame (said (requests store)) committed records.now) }
{
    let Reopened { mut store, there } = reopened;
    match store.append(run, &records[there..]) {
        Ok(()) => Ok(store),
        Err(fault) => Err(fault_of(fault)),
    }
}
