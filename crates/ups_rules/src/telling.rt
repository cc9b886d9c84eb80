//! The reports that a request makes of its step.

ghost use Rattle.std.specs.Prelude.{◌≡◌, ◌++◌, IfOk, OnOk, OnErr};
ghost use Rattle.ups_life.specs.Readiness.{readiness_in, readiness_word, is_same_readiness};
ghost use Rattle.ups_life.specs.Events.{report, only_if, cancel_reports, has, set_reports};

use std::alloc::{AllocError, Allocator};
use ups_cycle::StepState;
use ups_dataset::dictionary::{
    INPUT_READINESS_STATE, PROCEDURE_STEP_PROGRESS_INFORMATION_SEQUENCE,
    SCHEDULED_HUMAN_PERFORMERS_SEQUENCE, SCHEDULED_STATION_NAME_CODE_SEQUENCE,
};
use ups_dataset::{DataSet, Tag, Value};
use ups_life::{EventKind, InputReadiness, Report, StepUid};

/// Returns the readiness state that attributes name, or None if they name none.
pub fn readiness_in<A: Allocator + Copy>(attributes: &DataSet<A>) -> Option<InputReadiness>
    ensures { result ≡ readiness_in attributes.now }
{
    match &attributes.get(INPUT_READINESS_STATE)?.value {
        Value::Bytes(bytes) => InputReadiness::of(bytes.as_slice()),
        Value::Items(_) => None,
    }
}

/// Returns the text of a readiness state, or an empty one if there is none.
fn readiness_word(readiness: Option<InputReadiness>) -> &'static [u8]
    ensures { result.now ≡ readiness_word readiness }
{
    match readiness {
        Some(readiness) => readiness.text(),
        None => b"",
    }
}

/// Returns whether two readiness states are the same.
fn is_same_readiness(one: Option<InputReadiness>, other: Option<InputReadiness>) -> bool
    ensures { result ≡ is_same_readiness one other }
{
    readiness_word(one) == readiness_word(other)
}

/// Returns a report of a step.
pub fn report(
    kind: EventKind,
    step: StepUid,
    state: StepState,
    readiness: Option<InputReadiness>,
) -> Report
    ensures { result ≡ report kind step state readiness }
{
    Report {
        kind,
        step,
        state,
        readiness,
    }
}

/// Returns whether a set has an attribute.
fn has<A: Allocator + Copy>(attributes: &DataSet<A>, tag: Tag) -> bool
    ensures { result ≡ has attributes.now tag }
{
    attributes.get(tag).is_some()
}

/// Adds a report if `told`.
///
/// # Errors
///
/// If memory runs out. The reports are then unchanged.
pub fn add_if<A: Allocator + Copy>(
    reports: &mut Vec<Report, A>,
    told: bool,
    report: Report,
) -> Result<(), AllocError>
    ensures ok { OnOk result (reports.new.items ≡ reports.old.items ++ only_if told report) }
    ensures err { OnErr result (reports.new.items ≡ reports.old.items) }
{
    if told {
        reports.push(report)?;
    }
    Ok(())
}

/// Returns the reports of a cancel request on a step in this state (PS3.4 CC.2.2).
///
/// # Errors
///
/// If memory runs out.
pub fn cancel_reports<A: Allocator + Copy>(
    alloc: A,
    step: StepUid,
    state: StepState,
    readiness: Option<InputReadiness>,
) -> Result<Vec<Report, A>, AllocError>
    ensures { IfOk result (λ v. v.items ≡ cancel_reports step state readiness) }
{
    let mut reports = Vec::new(alloc);
    match state {
        StepState::Scheduled => {
            let state = StepState::InProgress;
            reports.push(report(EventKind::StateReport, step, state, readiness))?;
            let state = StepState::Canceled;
            reports.push(report(EventKind::StateReport, step, state, readiness))?;
        }
        StepState::InProgress => {
            reports.push(report(EventKind::CancelRequested, step, state, readiness))?;
        }
        StepState::Completed | StepState::Canceled => {}
    }
    Ok(reports)
}

/// Returns the reports of an N-SET on a step in this state, by the readiness of its input before and after (PS3.4
/// CC.2.6).
///
/// # Errors
///
/// If memory runs out.
pub fn set_reports<A: Allocator + Copy>(
    alloc: A,
    step: StepUid,
    state: StepState,
    before: Option<InputReadiness>,
    after: Option<InputReadiness>,
    attributes: &DataSet<A>,
) -> Result<Vec<Report, A>, AllocError>
    ensures { IfOk result (λ v. v.items ≡ set_reports step state before after attributes.now) }
{
    let is_other = has(attributes, INPUT_READINESS_STATE) && !is_same_readiness(before, after);
    let progress = has(attributes, PROCEDURE_STEP_PROGRESS_INFORMATION_SEQUENCE);
    let assigned = has(attributes, SCHEDULED_STATION_NAME_CODE_SEQUENCE)
        || has(attributes, SCHEDULED_HUMAN_PERFORMERS_SEQUENCE);
    let mut reports = Vec::new(alloc);
    add_if(
        &mut reports,
        is_other,
        report(EventKind::StateReport, step, state, after),
    )?;
    add_if(
        &mut reports,
        progress,
        report(EventKind::ProgressReport, step, state, after),
    )?;
    add_if(
        &mut reports,
        assigned,
        report(EventKind::Assigned, step, state, after),
    )?;
    Ok(reports)
}
