//! Reading the requests of a store that was just opened, one by one.

ghost use Rattle.std.specs.Prelude.{◌≡◌, ◌≢◌, ◌⊎◌, ◌<◌, Some, drop, ◌+◌, ◌≤◌, ◌^◌, ⊤, [], false, None, pos, length, is_some, IfOk, IfErr, IfSome, MatchOption, OnOk, IsSome, IsTrue};
ghost use Rattle.sqlite_disk.specs.Disk.{MoreFaults};
ghost use Rattle.sqlite_trees.specs.View.{IsClean, IsQuiet, HasCause};
ghost use Rattle.ups_store.specs.Held.{IsFresh, HasGiven};
ghost use Rattle.ups_store.specs.declared.reading.Phase.TheVariants.{Fresh, Reading, Ended, Failed};
ghost use Rattle.ups_store.specs.Taken.{TakesNext, IsLow};
ghost use Rattle.ups_store.specs.Faults.{HasReason};
ghost use Rattle.ups_store.specs.Rows.{table_in, IsNumbered};
ghost use Rattle.ups_store.specs.Runs.{last_requests};

use crate::fault::StoreFault;
use crate::request::{self, StoredRequest};
use crate::runs::{last_requests, last_terms};
use crate::store::RequestStore;
use sqlite_trees::error::StoreError;
use sqlite_trees::store::{Direction, Store};
use sqlite_value::row::Row;
use std::alloc::Global;
use ups_pdu::Bytes;

/// The progress of the reading.
#[derive(Clone, Copy, Debug, PartialEq, Eq)]
enum Phase {
    Fresh,
    Reading,
    Ended,
    Failed,
}

/// What was read at a position of the table.
#[derive(Drop)]
enum Taken {
    End,
    /// A row that is not a request, or has another number.
    Other,
    /// A row after the last possible number.
    Beyond,
    One(StoredRequest),
}

/// Returns the number of the request that follows `count` requests, or None if there is no such number.
pub(crate) fn next_number(count: u64) -> Option<i64>
    ensures { MatchOption result (2 ^ 63 ≤ count + 1) (λ number. (number ≡ pos (count + 1)) × (count + 1 < 2 ^ 63)) }
{
    let count = count.checked_add(1)?;
    i64::try_from(count).ok()
}

/// Reads the next row, which should be the request that follows `count` requests.
fn take_next<S: Store>(
    alloc: Global,
    store: &mut S,
    row: &mut Row,
    again: &mut Row,
    count: u64,
) -> Result<Taken, StoreError>
    requires live { IsSome ((S.Store.view store.old).cursors 0) }
    ensures live { IfOk result (λ taken. IsSome ((S.Store.view store.new).cursors 0)) }
    ensures taken { IfOk result (λ taken. IsClean (S.Store.view store.new) → TakesNext (S.Store.view store.old) (S.Store.view store.new) count taken) }
    ensures low { IfOk result (IsLow count) }
    ensures sound { OnOk result (IsClean (S.Store.view store.new) → (S.Store.view store.old).is_broken ≡ false) }
    ensures cause { IsClean (S.Store.view store.new) → IfErr result (HasCause (S.Store.view store.old) (MoreFaults (S.Store.faults store.old) (S.Store.faults store.new)) ⊥) }
    ensures quiet { IsQuiet S.Store.view S.Store.faults S.Store.recovers S.Store.is_shielded store.old store.new }
{
    if !store.next(0, row)? {
        return Ok(Taken::End);
    }
    let Some(number) = next_number(count) else {
        return Ok(Taken::Beyond);
    };
    match request::read(alloc, number, row, again)? {
        Some(request) => Ok(Taken::One(request)),
        None => Ok(Taken::Other),
    }
}

/// Moves the cursor to the first row of the requests, which are in this table.
fn rewind<S: Store>(store: &mut S, row: &mut Row, table: u32) -> Result<(), StoreError>
    requires fresh { IsClean (S.Store.view store.old) → IsFresh (S.Store.view store.old) }
    requires tabled { IsClean (S.Store.view store.old) → table_in (S.Store.view store.old).trees ≡ table }
    ensures live { OnOk result (IsSome ((S.Store.view store.new).cursors 0)) }
    ensures first { OnOk result (IsClean (S.Store.view store.new) → HasGiven (S.Store.view store.new) table 0) }
    ensures left { OnOk result (IsClean (S.Store.view store.new) → (S.Store.view store.new).cursors 0 ≡ Some ((S.Store.view store.new).trees table)) }
    ensures same { OnOk result (IsClean (S.Store.view store.new) → (S.Store.view store.new).committed ≡ (S.Store.view store.old).committed) }
    ensures cause { IsClean (S.Store.view store.new) → IfErr result (HasCause (S.Store.view store.old) (MoreFaults (S.Store.faults store.old) (S.Store.faults store.new)) ⊥) }
    ensures quiet { IsQuiet S.Store.view S.Store.faults S.Store.recovers S.Store.is_shielded store.old store.new }
{
    row.clear();
    store.seek(0, table, row, Direction::Forward)
}

/// The requests of a store that was just opened, returned one by one.
#[derive(Drop)]
pub struct Replay<S: Store> {
    alloc: Global,
    store: S,
    row: Row,
    again: Row,
    /// The number of the tree of requests.
    table: u32,
    /// The number of requests that were returned.
    count: u64,
    phase: Phase,
    ghost live: { phase ≡ Reading → IsSome ((S.Store.view store).cursors 0) },
    ghost read: { phase ≢ Failed → IsClean (S.Store.view store) → HasGiven (S.Store.view store) table count },
    ghost none: { phase ≡ Fresh → count ≡ 0 },
    ghost left: { phase ≡ Reading → IsClean (S.Store.view store) → (S.Store.view store).cursors 0 ≡ Some (drop count ((S.Store.view store).trees table)) },
    ghost ended: { phase ≡ Ended → IsClean (S.Store.view store) → length ((S.Store.view store).trees table) ≡ count },
}

impl<S: Store> Replay<S> {
    ghost use Rattle.ups_store.specs.Shown.{shown_by, all_of, given_out, last_terms_of, GivesRequest, IsUnderWay, HasFailedToShow, has_ended, requests_shown};

    /// Returns the requests of a store that was just opened, which are in this table, before the first is read.
    pub(crate) fn over(alloc: Global, store: S, table: u32) -> Replay<S>
        requires fresh { IsClean (S.Store.view store) → IsFresh (S.Store.view store) }
        requires tabled { IsClean (S.Store.view store) → table_in (S.Store.view store).trees ≡ table }
        ensures first { given_out result ≡ [] }
        ensures store { result.store ≡ store }
    {
        Replay {
            alloc,
            store,
            row: Row::new(alloc),
            again: Row::new(alloc),
            table,
            count: 0,
            phase: Phase::Fresh,
        }
    }

    /// Returns the terms of the service in the row of the last run, or None if there is no run, or only one that a
    /// version without terms began. Call it before the first request is read; the reading then goes on as if it had not
    /// been called.
    ///
    /// Errors: Memory, Disk, Damaged, Full; Shut after an error, or once a request was asked for.
    pub fn last_terms(&mut self) -> Result<Option<Bytes<Global>>, StoreFault>
        ensures terms { IfOk result (λ terms. IsClean (shown_by self.new) → terms ≡ last_terms_of self.old) }
        ensures same { OnOk result (IsClean (shown_by self.new) → (shown_by self.new).committed ≡ (shown_by self.old).committed) }
        ensures first { OnOk result (given_out self.new ≡ []) }
        ensures cause { IsClean (shown_by self.new) → IfErr result (HasReason (record {
          Failed = MoreFaults (S.Store.faults self.old.store) (S.Store.faults self.new.store);
          WasShut = IsUnderWay self.old;
          IsTooLarge = ⊥;
          AreTooMany = ⊥;
          IsNotRequest = ⊥;
        })) }
        ensures quiet { IsQuiet S.Store.view S.Store.faults S.Store.recovers S.Store.is_shielded self.old.store self.new.store }
    {
        match self.phase {
            Phase::Fresh => {}
            _ => return Err(StoreFault::Shut),
        }
        self.phase = Phase::Failed;
        let terms = last_terms(self.alloc, &mut self.store, &mut self.row)?;
        self.phase = Phase::Fresh;
        Ok(terms)
    }

    /// Returns how many requests the row of the last run counts, or 0 if there is no run: a store with fewer has lost some.
    /// Call it before the first request is read; the reading then goes on as if it had not been called.
    ///
    /// Errors: Memory, Disk, Damaged, Full; Shut after an error, or once a request was asked for.
    pub fn last_requests(&mut self) -> Result<u64, StoreFault>
        ensures requests { IfOk result (λ requests. IsClean (shown_by self.new) → requests ≡ last_requests ((shown_by self.old).committed 1)) }
        ensures same { OnOk result (IsClean (shown_by self.new) → (shown_by self.new).committed ≡ (shown_by self.old).committed) }
        ensures first { OnOk result (given_out self.new ≡ []) }
        ensures cause { IsClean (shown_by self.new) → IfErr result (HasReason (record {
          Failed = MoreFaults (S.Store.faults self.old.store) (S.Store.faults self.new.store);
          WasShut = IsUnderWay self.old;
          IsTooLarge = ⊥;
          AreTooMany = ⊥;
          IsNotRequest = ⊥;
        })) }
        ensures quiet { IsQuiet S.Store.view S.Store.faults S.Store.recovers S.Store.is_shielded self.old.store self.new.store }
    {
        match self.phase {
            Phase::Fresh => {}
            _ => return Err(StoreFault::Shut),
        }
        self.phase = Phase::Failed;
        let requests = last_requests(&mut self.store, &mut self.row)?;
        self.phase = Phase::Fresh;
        Ok(requests)
    }

    /// Moves the cursor to the first request.
    fn begin(&mut self) -> Result<(), StoreFault>
        requires fresh { self.old.phase ≡ Fresh }
        ensures reading { OnOk result (self.new.phase ≡ Reading) }
        ensures same { OnOk result (IsClean (shown_by self.new) → (all_of self.new ≡ all_of self.old) × (given_out self.new ≡ given_out self.old)) }
        ensures rows { OnOk result (IsClean (shown_by self.new) → (shown_by self.new).committed ≡ (shown_by self.old).committed) }
        ensures cause { IsClean (shown_by self.new) → IfErr result (HasReason (record {
          Failed = MoreFaults (S.Store.faults self.old.store) (S.Store.faults self.new.store);
          WasShut = ⊥;
          IsTooLarge = ⊥;
          AreTooMany = ⊥;
          IsNotRequest = ⊥;
        })) }
        ensures quiet { IsQuiet S.Store.view S.Store.faults S.Store.recovers S.Store.is_shielded self.old.store self.new.store }
    {
        self.phase = Phase::Failed;
        rewind(&mut self.store, &mut self.row, self.table)?;
        self.phase = Phase::Reading;
        Ok(())
    }

    /// Reads the row at the cursor.
    fn take(&mut self) -> Result<Option<StoredRequest>, StoreFault>
        requires reading { self.old.phase ≡ Reading }
        ensures given { IfOk result (λ found. IsClean (shown_by self.new) → GivesRequest (all_of self.new) (given_out self.old) (given_out self.new) found) }
        ensures same { OnOk result (IsClean (shown_by self.new) → all_of self.new ≡ all_of self.old) }
        ensures ended { IfOk result (λ found. found ≡ None → IsTrue (has_ended self.new)) }
        ensures cause { IsClean (shown_by self.new) → IfErr result (HasReason (record {
          Failed = MoreFaults (S.Store.faults self.old.store) (S.Store.faults self.new.store);
          WasShut = ⊥;
          IsTooLarge = ⊥;
          AreTooMany = 2 ^ 63 ≤ length (given_out self.old) + 1;
          IsNotRequest = ¬ IsNumbered ((shown_by self.old).committed (table_in (shown_by self.old).committed));
        })) }
        ensures quiet { IsQuiet S.Store.view S.Store.faults S.Store.recovers S.Store.is_shielded self.old.store self.new.store }
    {
        self.phase = Phase::Failed;
        match take_next(
            self.alloc,
            &mut self.store,
            &mut self.row,
            &mut self.again,
            self.count,
        )? {
            Taken::End => {
                self.phase = Phase::Ended;
                Ok(None)
            }
            Taken::Other => Err(StoreFault::NotRequest),
            Taken::Beyond => Err(StoreFault::TooMany),
            Taken::One(request) => {
                self.count += 1;
                self.phase = Phase::Reading;
                Ok(Some(request))
            }
        }
    }

    /// Returns the next request, or None once all have been returned. Those returned so far are the first of the
    /// committed requests, and all of them at the end.
    ///
    /// Errors: Memory, Disk, Damaged, Full; NotRequest if the rows are not requests numbered from 1; TooMany; Shut
    /// after an error.
    pub fn next_request(&mut self) -> Result<Option<StoredRequest>, StoreFault>
        ensures given { IfOk result (λ found. IsClean (shown_by self.new) → GivesRequest (all_of self.new) (given_out self.old) (given_out self.new) found) }
        ensures same { OnOk result (IsClean (shown_by self.new) → all_of self.new ≡ all_of self.old) }
        ensures ended { IfOk result (λ found. found ≡ None → IsTrue (has_ended self.new)) }
        ensures cause { IsClean (shown_by self.new) → IfErr result (HasReason (record {
          Failed = MoreFaults (S.Store.faults self.old.store) (S.Store.faults self.new.store);
          WasShut = HasFailedToShow self.old;
          IsTooLarge = ⊥;
          AreTooMany = 2 ^ 63 ≤ length (given_out self.old) + 1;
          IsNotRequest = ¬ IsNumbered ((shown_by self.old).committed (table_in (shown_by self.old).committed));
        })) }
        ensures quiet { IsQuiet S.Store.view S.Store.faults S.Store.recovers S.Store.is_shielded self.old.store self.new.store }
    {
        match self.phase {
            Phase::Fresh => self.begin()?,
            Phase::Reading => {}
            Phase::Ended => return Ok(None),
            Phase::Failed => return Err(StoreFault::Shut),
        }
        self.take()
    }

    /// Goes back to before the first request, once `next_request` has returned None; until then it does nothing.
    pub fn again(&mut self)
        ensures first { IsTrue (has_ended self.old) → given_out self.new ≡ [] }
        ensures same { shown_by self.new ≡ shown_by self.old }
    {
        if self.phase == Phase::Ended {
            self.count = 0;
            self.phase = Phase::Fresh;
        }
    }

    /// Returns the store once `next_request` has returned None, or else None.
    pub fn finish(self) -> Option<RequestStore<S>>
    where
        S: Drop,
        ensures when { is_some result ≡ has_ended self }
        ensures same { IfSome result (λ it. requests_shown it ≡ shown_by self) }
    {
        match self.phase {
            Phase::Ended => Some(self.into_store()),
            _ => None,
        }
    }

    fn into_store(self) -> RequestStore<S>
        requires { IsTrue (has_ended self) }
        ensures { requests_shown result ≡ shown_by self }
    {
        let Replay {
            alloc,
            store,
            row,
            again: _,
            table,
            count,
            phase: _,
        } = self;
        RequestStore::of(alloc, store, table, count, row)
    }
}
