//! What a request tells the watchers of its step (PS3.4 CC.2.4).

ghost use Rattle.std.specs.Prelude.{◌≡◌, ◌∷◌, [], IfOk};
ghost use Rattle.std.specs.Option.{option_copied, unwrap_or};
ghost use Rattle.ups_life.specs.Readiness.{readiness_in};
ghost use Rattle.ups_life.specs.Steps.{nothing};
ghost use Rattle.ups_tables.specs.Live.{news_by, report_now};

use std::alloc::{AllocError, Allocator};
use ups_cycle::StepState;
use ups_life::{EventKind, InputReadiness, Report, Request, Row, StepUid};
use ups_rules::{cancel_reports, readiness_in, set_reports};
use ups_steps::HeldRow;

/// Returns a State Report of the present state of a step, from its row (PS3.4 CC.2.4).
pub(crate) fn report_now<A: Allocator + Copy>(step: StepUid, row: &Row<A>) -> Report
    ensures { result ≡ report_now step row.now }
{
    Report {
        kind: EventKind::StateReport,
        step,
        state: row.state,
        readiness: readiness_in(&row.attributes),
    }
}

/// Returns a State Report of the present state of a held step (PS3.4 CC.2.4).
pub(crate) fn report_held<A: Allocator + Copy>(step: StepUid, held: &HeldRow<A>) -> Report
    ensures { result ≡ report_now step held.now.row }
{
    report_now(step, held.row.get())
}

/// Returns a list of one report.
///
/// Errors: if memory runs out.
pub(crate) fn alone<A: Allocator + Copy>(
    alloc: A,
    report: Report,
) -> Result<Vec<Report, A>, AllocError>
    ensures { IfOk result (λ v. v.items ≡ report ∷ []) }
{
    let mut reports = Vec::new(alloc);
    reports.push(report)?;
    Ok(reports)
}

/// Returns the state of a step from its row before the request, or SCHEDULED if it had none.
fn state_of<A: Allocator + Copy>(before: Option<&Row<A>>) -> StepState
    ensures { result ≡ (unwrap_or (option_copied before.entry) nothing).state }
{
    match before {
        Some(row) => row.state,
        None => StepState::Scheduled,
    }
}

/// Returns the readiness of a step's input from its row before the request, or None if it had none.
fn readiness_of<A: Allocator + Copy>(before: Option<&Row<A>>) -> Option<InputReadiness>
    ensures { result ≡ readiness_in (unwrap_or (option_copied before.entry) nothing).attributes }
{
    match before {
        Some(row) => readiness_in(&row.attributes),
        None => None,
    }
}

/// Returns the reports that a request makes of its step, from the row before the request, if there was one, and the row
/// after it. A request that is not on a step makes none.
///
/// Errors: if memory runs out.
pub(crate) fn news<A: Allocator + Copy>(
    alloc: A,
    step: StepUid,
    before: Option<&Row<A>>,
    after: &Row<A>,
    request: &Request<A>,
) -> Result<Vec<Report, A>, AllocError>
    ensures { IfOk result (λ v. v.items ≡ news_by step (unwrap_or (option_copied before.entry) nothing) after.now request.now) }
{
    let current = report_now(step, after);
    match request {
        Request::Create { .. } | Request::Change { .. } => alone(alloc, current),
        Request::AskCancel { .. } => cancel_reports(
            alloc,
            step,
            state_of(before),
            current.readiness,
        ),
        Request::Set { attributes, .. } => set_reports(
            alloc,
            step,
            state_of(before),
            readiness_of(before),
            current.readiness,
            attributes,
        ),
        Request::Subscribe { .. }
        | Request::Unsubscribe { .. }
        | Request::Suspend { .. }
        | Request::Ack { .. }
        | Request::Sweep
        | Request::Reserve { .. } => Ok(Vec::new(alloc)),
    }
}
