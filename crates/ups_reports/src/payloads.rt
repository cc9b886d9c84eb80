//! The Event Information of events.

ghost use Rattle.std.specs.Prelude.{◌≡◌, ◌≢◌, ◌%◌, ◌≤◌, ◌+◌, [], ◌∷◌, false, length, MatchOption, IfOk, OnOk, OnErr};
ghost use Rattle.ups_dataset.specs.declared.vr.Vr.TheVariants.{Sq};
ghost use Rattle.ups_dataset.specs.Data.{put, element_at};
ghost use Rattle.ups_dataset.specs.Tag.{is_mark, is_group_length};
ghost use Rattle.ups_dataset.specs.View.{value_view};
ghost use Rattle.ups_life.specs.Readiness.{readiness_word};
ghost use Rattle.ups_life.specs.Values.{text_value};
ghost use Rattle.ups_reports.specs.Payloads.{text_element, reason_told, state_report, cancel_requested, NO_PERFORMER, first_item, performer, assignment, sent_to_set, given_of, payload};

use std::alloc::{AllocError, Allocator};
use ups_cycle::StepState;
use ups_dataset::dictionary::{
    CONTACT_DISPLAY_NAME, CONTACT_URI, HUMAN_PERFORMER_CODE_SEQUENCE, HUMAN_PERFORMER_ORGANIZATION,
    INPUT_READINESS_STATE, PROCEDURE_STEP_DISCONTINUATION_REASON_CODE_SEQUENCE,
    PROCEDURE_STEP_PROGRESS_INFORMATION_SEQUENCE, PROCEDURE_STEP_STATE, REASON_FOR_CANCELLATION,
    REQUESTING_AE, SCHEDULED_HUMAN_PERFORMERS_SEQUENCE, SCHEDULED_STATION_NAME_CODE_SEQUENCE,
};
use ups_dataset::{DataSet, Element, Tag, Value, ValueBytes, Vr};
use ups_life::{Entry, Event, EventKind, InputReadiness, Request};

/// The attributes for the reason of a cancel request: a code and a text (PS3.4 CC.2.2).
const REASONS: [Tag; 2] = [
    PROCEDURE_STEP_DISCONTINUATION_REASON_CODE_SEQUENCE,
    REASON_FOR_CANCELLATION,
];

/// The attributes of a cancel request that its report has: whom to contact, and the reason (PS3.4 CC.2.4).
const CANCEL_ATTRIBUTES: [Tag; 4] = [
    CONTACT_URI,
    CONTACT_DISPLAY_NAME,
    PROCEDURE_STEP_DISCONTINUATION_REASON_CODE_SEQUENCE,
    REASON_FOR_CANCELLATION,
];

/// Encodes a text as a value, with a space after it if its length is odd (PS3.5 section 6.2).
fn padded<A: Allocator + Copy>(alloc: A, text: &[u8]) -> Result<ValueBytes<A>, AllocError>
    ensures value { IfOk result (λ b. b ≡ text_value text.now) }
    ensures even { IfOk result (λ b. (length b % 2) ≡ 0) }
    ensures short { IfOk result (λ b. length b ≤ length text.now + 1) }
{
    if text.len() % 2 == 0 {
        return ValueBytes::copy_of(alloc, text);
    }
    ValueBytes::joined(alloc, text, b" ")
}

/// Inserts a text element, replacing the one with the same tag if there is one.
fn put_text<A: Allocator + Copy>(
    alloc: A,
    set: &mut DataSet<A>,
    tag: Tag,
    vr: Vr,
    text: &[u8],
) -> Result<(), AllocError>
    requires no_mark { is_mark tag ≡ false }
    requires no_group_length { is_group_length tag ≡ false }
    requires no_sequence { vr ≢ Sq }
    requires short { length text.now ≤ 64 }
    ensures { OnOk result (set.new ≡ put (text_element tag vr text.now) set.old) }
{
    let value = padded(alloc, text)?;
    set.replace(Element::of_bytes(tag, vr, value))
}

/// Returns the text of a readiness, or an empty text if it is not known.
fn readiness_text(readiness: Option<InputReadiness>) -> &'static [u8]
    ensures text { result.now ≡ readiness_word readiness }
    ensures short { length result.now ≤ 64 }
{
    match readiness {
        Some(readiness) => readiness.text(),
        None => b"",
    }
}

/// Returns the reason of a cancel request for the report that its step is CANCELED.
fn reason_told<A: Allocator + Copy>(
    alloc: A,
    state: StepState,
    request: &Request<A>,
) -> Result<DataSet<A>, AllocError>
    ensures { IfOk result (λ set. set ≡ reason_told state request.now) }
{
    match (state, request) {
        (StepState::Canceled, Request::AskCancel { reasons, .. }) => reasons.project(&REASONS),
        _ => Ok(DataSet::new(alloc)),
    }
}

/// Returns what a State Report tells: the state of a step, the readiness of its input, and why it was canceled.
fn state_report<A: Allocator + Copy>(
    alloc: A,
    event: &Event,
    request: &Request<A>,
) -> Result<DataSet<A>, AllocError>
    ensures { IfOk result (λ set. set ≡ state_report event.now request.now) }
{
    let mut set = reason_told(alloc, event.state, request)?;
    put_text(
        alloc,
        &mut set,
        PROCEDURE_STEP_STATE,
        Vr::Cs,
        event.state.text(),
    )?;
    put_text(
        alloc,
        &mut set,
        INPUT_READINESS_STATE,
        Vr::Cs,
        readiness_text(event.readiness),
    )?;
    Ok(set)
}

/// Returns what the performer of a step is told of a request to cancel it: who asks, whom to contact about it, and why.
fn cancel_requested<A: Allocator + Copy>(
    alloc: A,
    entry: &Entry<A>,
) -> Result<DataSet<A>, AllocError>
    ensures { IfOk result (λ set. set ≡ cancel_requested entry.now) }
{
    let mut set = match &entry.request {
        Request::AskCancel { reasons, .. } => reasons.project(&CANCEL_ATTRIBUTES)?,
        _ => DataSet::new(alloc),
    };
    put_text(alloc, &mut set, REQUESTING_AE, Vr::Ae, entry.ae.as_bytes())?;
    Ok(set)
}

/// Returns what a Progress Report tells: the progress information that is set.
fn progress_report<A: Allocator + Copy>(
    alloc: A,
    request: &Request<A>,
) -> Result<DataSet<A>, AllocError>
    ensures { IfOk result (λ set. set ≡ given_of (PROCEDURE_STEP_PROGRESS_INFORMATION_SEQUENCE ∷ []) (sent_to_set request.now)) }
{
    match request {
        Request::Set { attributes, .. } => {
            attributes.project(&[PROCEDURE_STEP_PROGRESS_INFORMATION_SEQUENCE])
        }
        _ => Ok(DataSet::new(alloc)),
    }
}

/// Returns a human performer with an empty code and organization.
fn no_performer<A: Allocator + Copy>(alloc: A) -> Result<DataSet<A>, AllocError>
    ensures { IfOk result (λ set. set ≡ NO_PERFORMER) }
{
    let mut set = DataSet::new(alloc);
    set.replace(Element::of_items(HUMAN_PERFORMER_CODE_SEQUENCE, Vec::new(alloc)))?;
    let nothing = ValueBytes::empty();
    set.replace(Element::of_bytes(HUMAN_PERFORMER_ORGANIZATION, Vr::Lo, nothing))?;
    Ok(set)
}

/// Returns the first item of a sequence.
fn first_item<A: Allocator + Copy>(value: &Value<A>) -> Option<&DataSet<A>>
    ensures { MatchOption result (first_item (value_view value.now) ≡ []) (λ item. first_item (value_view value.now) ≡ item.now) }
{
    match value {
        Value::Items(sets) => sets.first(),
        Value::Bytes(_) => None,
    }
}

/// Returns the code and organization of the first human performer that an N-SET gives.
fn performer<A: Allocator + Copy>(
    alloc: A,
    attributes: &DataSet<A>,
) -> Result<DataSet<A>, AllocError>
    ensures { IfOk result (λ set. set ≡ performer (element_at SCHEDULED_HUMAN_PERFORMERS_SEQUENCE attributes.now)) }
{
    let Some(performers) = attributes.get(SCHEDULED_HUMAN_PERFORMERS_SEQUENCE) else {
        return Ok(DataSet::new(alloc));
    };
    let nobody = no_performer(alloc)?;
    match first_item(&performers.value) {
        Some(item) => item.answer(&nobody),
        None => Ok(nobody),
    }
}

/// Returns what an Assigned event tells: the station and the human performer for a step.
fn assignment<A: Allocator + Copy>(
    alloc: A,
    attributes: &DataSet<A>,
) -> Result<DataSet<A>, AllocError>
    ensures { IfOk result (λ set. set ≡ assignment attributes.now) }
{
    let station = attributes.project(&[SCHEDULED_STATION_NAME_CODE_SEQUENCE])?;
    performer(alloc, attributes)?.laid_over(&station)
}

/// Returns what an Assigned event tells of an N-SET that assigns a step.
fn assigned<A: Allocator + Copy>(alloc: A, request: &Request<A>) -> Result<DataSet<A>, AllocError>
    ensures { IfOk result (λ set. set ≡ assignment (sent_to_set request.now)) }
{
    match request {
        Request::Set { attributes, .. } => assignment(alloc, attributes),
        _ => Ok(DataSet::new(alloc)),
    }
}

/// Returns the Event Information of an event (PS3.4 table CC.2.4-1). `entry` is the request that caused the event: the
/// one at the index `event.entry` of the history.
///
/// # Errors
///
/// Returns an error if memory runs out.
pub fn payload<A: Allocator + Copy>(
    alloc: A,
    event: &Event,
    entry: &Entry<A>,
) -> Result<DataSet<A>, AllocError>
    ensures { IfOk result (λ set. set ≡ payload event.now entry.now) }
{
    match event.kind {
        EventKind::StateReport => state_report(alloc, event, &entry.request),
        EventKind::CancelRequested => cancel_requested(alloc, entry),
        EventKind::ProgressReport => progress_report(alloc, &entry.request),
        EventKind::Assigned => assigned(alloc, &entry.request),
    }
}
