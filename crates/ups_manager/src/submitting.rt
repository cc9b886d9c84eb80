//! Decides whether a request is entered, and makes the row and the holder of its step after it.

ghost use Rattle.std.specs.Prelude.{◌≡◌, ℕ, nat_le, List, length, true, false, IfOk, IfErr, OnOk};
ghost use Rattle.std.specs.Option.{unwrap_or, option_or, option_copied};
ghost use Rattle.ups_cycle.specs.declared.status.Status.TheVariants.{Success};
ghost use Rattle.ups_cycle.specs.Statuses.{is_done};
ghost use Rattle.ups_life.specs.Settings.{IsMoment, IsOffset};
ghost use Rattle.ups_life.specs.Steps.{past, used, row_after, nothing};
ghost use Rattle.ups_life.specs.Verdict.{verdict};
ghost use Rattle.ups_life.specs.History.{is_sized, fits, repeats};
ghost use Rattle.ups_tables.specs.HeldSteps.{claims_it};
ghost use Rattle.ups_tables.specs.Fit.{uses};
ghost use Rattle.ups_tables.specs.Held.{held_at};
ghost use Rattle.ups_tables.specs.Keyed.{row_held, holder_held};
ghost use Rattle.ups_manager.specs.declared.submitting.SubmitFault.TheVariants.{Refused};
ghost use Rattle.ups_manager.specs.Deciding.{repeats_in};
ghost use Rattle.ups_manager.specs.Room.{in_memory, most_for};
ghost use Rattle.ups_manager.specs.Faults.{status_of, RowFails, StepFails};

use crate::rows::{find, is_used, row_of};
use std::alloc::Allocator;
use ups_cycle::{Status, StepState};
use ups_history::History;
use ups_life::{
    ChangeFault, Configuration, Entry, Holder, MAX_HISTORY, MAX_ROW_BYTES, Request, Row, StepUid,
    Transaction,
};
use ups_rows::SharedRow;
use ups_rules::{change, verdict};
use ups_tables::{HeldRow, Tables};

/// The reason why a request is not entered.
#[derive(Clone, Copy, Debug, PartialEq, Eq)]
pub(crate) enum SubmitFault {
    /// It is refused with this status.
    Refused(Status),
    /// Memory ran out.
    Memory,
}

impl SubmitFault {
    /// Returns the status to reply with: 0213 if memory ran out.
    pub fn status(self) -> Status
        ensures { result ≡ status_of self }
    {
        match self {
            SubmitFault::Refused(status) => status,
            SubmitFault::Memory => Status::ResourceLimitation,
        }
    }
}

/// Returns whether a history has as many entries as it may have, so that no further request is entered.
pub(crate) fn is_full<A: Allocator + Copy>(
    configuration: &Configuration<A>,
    history: &History<A>,
) -> bool
    ensures { result ≡ nat_le configuration.now.limit (length history.now.entries) }
{
    configuration.limit() <= history.len() as u64
}

/// The most entries in memory for which one is entered again, or one that makes room or ends a subscription: a tenth
/// more than for others, so that a full memory can be emptied, and a start never lacks room that the run before it had.
/// None of these is of an event, so none stays in memory once it is committed. Only a compaction reserves a UID, in the
/// place of an entry that the run before it had.
pub(crate) const MOST_IN_MEMORY: u64 = MAX_HISTORY / 10 * 11;

/// Returns how many entries may be in memory so that a request is entered that is asked for.
pub(crate) fn most_in_memory<A: Allocator + Copy>(request: &Request<A>) -> u64
    ensures { result ≡ most_for request.now }
{
    match request {
        Request::Ack { .. }
        | Request::Unsubscribe { .. }
        | Request::Suspend { .. }
        | Request::Sweep
        | Request::Reserve { .. } => MOST_IN_MEMORY,
        _ => MAX_HISTORY,
    }
}

/// Returns whether `most` entries of a history are in memory.
pub(crate) fn is_memory_full<A: Allocator + Copy>(history: &History<A>, most: u64) -> bool
    ensures { result ≡ nat_le most (in_memory history.now) }
{
    history.in_memory() as u64 >= most
}

/// Returns whether a request creates a step under a UID that was used.
fn repeats<A: Allocator + Copy>(request: &Request<A>, tables: &Tables<A>) -> bool
    ensures { result ≡ repeats_in (λ u. uses tables.now u) request.now }
{
    match request {
        Request::Create { step, .. } => is_used(tables, *step),
        _ => false,
    }
}

/// Checks whether a request is allowed, by the row of its step and by the UIDs that were used, provided that there is
/// room (PS3.4 CC.2.1, CC.2.2, CC.2.5, CC.2.6).
///
/// Errors: the status with which it is refused.
fn check_allowed<A: Allocator + Copy>(
    row: Option<&Row<A>>,
    history: &History<A>,
    request: &Request<A>,
    tables: &Tables<A>,
) -> Result<(), SubmitFault>
    requires { (u : List ℕ) → uses tables.now u ≡ used (past history.now.entries) u }
    ensures allowed { OnOk result (verdict (option_copied row.entry) (repeats (past history.now.entries) request.now) request.now ≡ Success) }
    ensures refused { IfErr result (λ fault. fault ≡ Refused (verdict (option_copied row.entry) (repeats (past history.now.entries) request.now) request.now)) }
    ensures error { IfErr result (λ fault. is_done (verdict (option_copied row.entry) (repeats (past history.now.entries) request.now) request.now) ≡ false) }
{
    let status = verdict(row, repeats(request, tables), request);
    if status.is_done() {
        Ok(())
    } else {
        Err(SubmitFault::Refused(status))
    }
}

/// Returns whether the row has to fit after a request: after any but a change of state.
fn is_sized<A: Allocator + Copy>(request: &Request<A>) -> bool
    ensures { result ≡ is_sized request.now }
{
    match request {
        Request::Create { .. } | Request::AskCancel { .. } | Request::Set { .. } => true,
        _ => false,
    }
}

/// Returns the row of a step after a request at a moment.
///
/// Errors: 0213 if the row would be too large or its items would nest too deep; `Memory`.
fn row_for<A: Allocator + Copy>(
    alloc: A,
    row: Option<&Row<A>>,
    request: &Request<A>,
    moment: u64,
    offset: i16,
) -> Result<Row<A>, SubmitFault>
    requires moment { IsMoment moment }
    requires offset { IsOffset offset }
    ensures row { IfOk result (λ after. after ≡ row_after offset moment (unwrap_or (option_copied row.entry) nothing) request.now) }
    ensures fits { IfOk result (λ after. is_sized request.now ≡ true → fits after.attributes ≡ true) }
    ensures fault { IfErr result (RowFails offset moment (unwrap_or (option_copied row.entry) nothing) request.now) }
{
    let after = match change(alloc, row, request, moment, offset) {
        Ok(after) => after,
        Err(ChangeFault::TooDeep) => {
            return Err(SubmitFault::Refused(Status::ResourceLimitation));
        }
        Err(ChangeFault::Memory) => return Err(SubmitFault::Memory),
    };
    if !is_sized(request) {
        return Ok(after);
    }
    if after.attributes.size() > MAX_ROW_BYTES {
        return Err(SubmitFault::Refused(Status::ResourceLimitation));
    }
    after.attributes.is_a_data_set();
    Ok(after)
}

/// Returns the holder of a step after an accepted call on it.
fn holder_after<A: Allocator + Copy>(before: Option<&HeldRow<A>>, call: &Entry<A>) -> Option<Holder>
    ensures { result ≡ option_or (claims_it call.now) (holder_held (option_copied before.entry)) }
{
    if let Request::Change {
        state: StepState::InProgress,
        transaction: Transaction::Proper(_),
        ..
    } = &call.request
    {
        return Some(Holder {
            caller: call.caller,
            ae: call.ae,
        });
    }
    before?.holder
}

/// Returns the row and the holder of a step after a call that creates or changes it.
///
/// Errors: the status with which the call is refused; `Memory`.
pub(crate) fn step_for<A: Allocator + Copy>(
    alloc: A,
    offset: i16,
    history: &History<A>,
    tables: &Tables<A>,
    call: &Entry<A>,
    step: StepUid,
) -> Result<HeldRow<A>, SubmitFault>
    requires moment { IsMoment call.now.moment }
    requires offset { IsOffset offset }
    requires used { (u : List ℕ) → uses tables.now u ≡ used (past history.now.entries) u }
    ensures allowed { OnOk result (verdict (row_held (held_at step tables.now.steps.entries)) (repeats (past history.now.entries) call.now.request) call.now.request ≡ Success) }
    ensures row { IfOk result (λ h. h.row ≡ row_after offset call.now.moment (unwrap_or (row_held (held_at step tables.now.steps.entries)) nothing) call.now.request) }
    ensures holder { IfOk result (λ h. h.holder ≡ option_or (claims_it call.now) (holder_held (held_at step tables.now.steps.entries))) }
    ensures fits { IfOk result (λ h. is_sized call.now.request ≡ true → fits h.row.attributes ≡ true) }
    ensures fault { IfErr result (StepFails offset call.now.moment (row_held (held_at step tables.now.steps.entries)) (repeats (past history.now.entries) call.now.request) call.now.request) }
{
    let held = find(tables, step);
    let row = row_of(held);
    check_allowed(row, history, &call.request, tables)?;
    let row = row_for(alloc, row, &call.request, call.moment, offset)?;
    let holder = holder_after(held, call);
    match SharedRow::new(alloc, row) {
        Ok(row) => Ok(HeldRow { row, holder }),
        Err(_) => Err(SubmitFault::Memory),
    }
}
