//! The effect of a request on the row of its step.

ghost use Rattle.std.specs.Prelude.{◌≡◌, ◌%◌, ◌&&◌, not, ◌∷◌, [], length, false, None, Some, IfOk, IfErr, OnOk, if◌then◌else◌};
ghost use Rattle.std.specs.List.{list_any};
ghost use Rattle.std.specs.Option.{option_copied, unwrap_or};
ghost use Rattle.ups_dataset.specs.declared.vr.Vr.TheVariants.{Ui};
ghost use Rattle.ups_dataset.specs.Data.{bytes, put, laid_over};
ghost use Rattle.ups_dataset.specs.Valid.{IsElement};
ghost use Rattle.ups_dataset.specs.View.{element_view};
ghost use Rattle.ups_life.specs.Settings.{IsMoment, IsOffset};
ghost use Rattle.ups_cycle.specs.declared.state.StepState.TheVariants.{Scheduled};
ghost use Rattle.ups_life.specs.Deep.{IsShallow, ChangeFails, nest_too_deep, is_deep_reason};
ghost use Rattle.ups_cycle.specs.States.{is_final};
ghost use Rattle.ups_life.specs.Values.{padded, uid_value, text_value};
ghost use Rattle.ups_life.specs.Steps.{new_row, state_element, cancellation, progress_element, cancel_gives, given, state_then, taken, nothing, row_after};

use std::alloc::{AllocError, Allocator};
use ups_cycle::StepState;
use ups_dataset::dictionary::{
    PROCEDURE_STEP_CANCELLATION_DATE_TIME, PROCEDURE_STEP_DISCONTINUATION_REASON_CODE_SEQUENCE,
    PROCEDURE_STEP_PROGRESS_INFORMATION_SEQUENCE, PROCEDURE_STEP_STATE, REASON_FOR_CANCELLATION,
    SOP_CLASS_UID, SOP_INSTANCE_UID, TRANSACTION_UID,
};
use ups_dataset::{DataSet, Element, MAX_DEPTH, Tag, ValueBytes, Vr};
use ups_life::{ChangeFault, Request, Row, StepUid, Transaction};
use ups_match::write_dt;
use ups_pdu::{RegisteredUid, Uid};

/// The attributes kept of a cancel request: its reason, as a code and as a text (PS3.4 CC.2.2).
const REASONS: [Tag; 2] = [
    PROCEDURE_STEP_DISCONTINUATION_REASON_CODE_SEQUENCE,
    REASON_FOR_CANCELLATION,
];

/// Returns a text as a value, followed by the padding `pad` if its length is odd (PS3.5 section 6.2).
fn padded<A: Allocator + Copy>(alloc: A, pad: u8, text: &[u8]) -> Result<ValueBytes<A>, AllocError>
    ensures value { IfOk result (λ b. b ≡ padded pad text.now) }
    ensures even { IfOk result (λ b. (length b % 2) ≡ 0) }
{
    if text.len() % 2 == 0 {
        return ValueBytes::copy_of(alloc, text);
    }
    ValueBytes::joined(alloc, text, &[pad])
}

/// Returns an element that holds a UID.
fn uid_element<A: Allocator + Copy>(
    alloc: A,
    tag: Tag,
    uid: &[u8],
) -> Result<Element<A>, AllocError>
    ensures { IfOk result (λ e. element_view e ≡ record { tag = tag; vr = Ui; value = bytes (uid_value uid.now) }) }
{
    let value = padded(alloc, 0, uid)?;
    Ok(Element::of_bytes(tag, Vr::Ui, value))
}

/// Returns an element that holds a text.
fn text_element<A: Allocator + Copy>(
    alloc: A,
    tag: Tag,
    vr: Vr,
    text: &[u8],
) -> Result<Element<A>, AllocError>
    ensures { IfOk result (λ e. element_view e ≡ record { tag = tag; vr = vr; value = bytes (text_value text.now) }) }
{
    let value = padded(alloc, b' ', text)?;
    Ok(Element::of_bytes(tag, vr, value))
}

/// Returns the attributes of a new step: those that were sent, without a Transaction UID, and its class and instance
/// UIDs (PS3.4 CC.2.5).
fn new_row<A: Allocator + Copy>(
    alloc: A,
    step: StepUid,
    attributes: &DataSet<A>,
) -> Result<DataSet<A>, AllocError>
    ensures { IfOk result (λ row. row ≡ new_row step attributes.now) }
{
    let class = RegisteredUid::UpsPush.text();
    let mut row = attributes.without(TRANSACTION_UID, 2)?;
    row.replace(uid_element(alloc, SOP_INSTANCE_UID, step.as_bytes())?)?;
    row.replace(uid_element(alloc, SOP_CLASS_UID, class)?)?;
    Ok(row)
}

/// Returns a state as an element.
fn state_element<A: Allocator + Copy>(alloc: A, state: StepState) -> Result<Element<A>, AllocError>
    ensures { IfOk result (λ e. element_view e ≡ state_element state) }
{
    text_element(alloc, PROCEDURE_STEP_STATE, Vr::Cs, state.text())
}

/// Returns a set that holds only a state.
fn state_alone<A: Allocator + Copy>(alloc: A, state: StepState) -> Result<DataSet<A>, AllocError>
    ensures { IfOk result (λ set. set ≡ state_element state ∷ []) }
{
    let mut set = DataSet::new(alloc);
    set.replace(state_element(alloc, state)?)?;
    Ok(set)
}

/// Returns a set that says when a step was canceled, and why.
#[tactic(auto, unfolding(ups_life::specs::Steps::cancellation))]
fn cancellation<A: Allocator + Copy>(
    alloc: A,
    moment: u64,
    offset: i16,
    reasons: &DataSet<A>,
) -> Result<DataSet<A>, AllocError>
    requires moment { IsMoment moment }
    requires offset { IsOffset offset }
    ensures { IfOk result (λ set. set ≡ cancellation offset moment reasons.now) }
{
    let mut item = reasons.project(&REASONS)?;
    let text = write_dt(moment, offset);
    item.replace(text_element(alloc, PROCEDURE_STEP_CANCELLATION_DATE_TIME, Vr::Dt, &text)?)?;
    Ok(item)
}

/// Returns a set as the only item of a sequence.
fn one_item<A: Allocator + Copy>(
    alloc: A,
    set: DataSet<A>,
) -> Result<Vec<DataSet<A>, A>, AllocError>
    ensures { IfOk result (λ v. v.items ≡ set ∷ []) }
{
    let mut items = Vec::new(alloc);
    items.push(set)?;
    Ok(items)
}

/// Returns the progress information of a step that is canceled by request (PS3.4 CC.2.2).
fn progress_element<A: Allocator + Copy>(
    alloc: A,
    moment: u64,
    offset: i16,
    reasons: &DataSet<A>,
) -> Result<Element<A>, AllocError>
    requires moment { IsMoment moment }
    requires offset { IsOffset offset }
    ensures { IfOk result (λ e. element_view e ≡ progress_element offset moment reasons.now) }
{
    let items = one_item(alloc, cancellation(alloc, moment, offset, reasons)?)?;
    Ok(Element::of_items(PROCEDURE_STEP_PROGRESS_INFORMATION_SEQUENCE, items))
}

/// Returns a set of an element and a state. The state replaces the element if they have the same tag.
fn state_over<A: Allocator + Copy>(
    alloc: A,
    state: StepState,
    element: Element<A>,
) -> Result<DataSet<A>, AllocError>
    requires { IsElement (element_view element) }
    ensures { IfOk result (λ set. set ≡ put (state_element state) (put (element_view element) [])) }
{
    let mut set = DataSet::new(alloc);
    set.replace(element)?;
    set.replace(state_element(alloc, state)?)?;
    Ok(set)
}

/// Returns whether an element is a reason for a cancellation that nests too deep to be in an item.
fn is_deep_reason<A: Allocator + Copy>(element: &Element<A>) -> bool
    ensures { result ≡ is_deep_reason (element_view element.now) }
{
    REASONS.iter().any(|tag| *tag == element.tag) && element.value.depth() >= MAX_DEPTH
}

/// Returns whether one of these elements is such a reason.
fn has_deep_reason<A: Allocator + Copy>(elements: &[Element<A>]) -> bool
    ensures { result ≡ list_any (λ e. is_deep_reason (element_view e)) elements.now }
{
    elements.iter().any(|element| is_deep_reason(element))
}

/// Returns whether the reasons of a cancel request nest too deep to be in an item.
fn nest_too_deep<A: Allocator + Copy>(reasons: &DataSet<A>) -> bool
    ensures { result ≡ nest_too_deep reasons.now }
{
    has_deep_reason(reasons.elements())
}

/// Returns what a cancel request gives to a step that nobody has claimed: CANCELED, and when and why.
#[tactic(auto, using(crate::proofs::Cancels::good))]
fn canceled<A: Allocator + Copy>(
    alloc: A,
    moment: u64,
    offset: i16,
    reasons: &DataSet<A>,
) -> Result<DataSet<A>, AllocError>
    requires moment { IsMoment moment }
    requires offset { IsOffset offset }
    requires shallow { nest_too_deep reasons.now ≡ false }
    ensures { IfOk result (λ set. set ≡ cancel_gives Scheduled offset moment reasons.now) }
{
    let progress = progress_element(alloc, moment, offset, reasons)?;
    state_over(alloc, StepState::Canceled, progress)
}

/// Does the same as `canceled`, if the items of the reasons do not nest too deep.
///
/// Errors: TooDeep if the items of the reasons nest 8 deep; Memory.
#[tactic(auto, using(crate::proofs::Cancels::too_deep, crate::proofs::Cancels::not_too_deep))]
fn canceled_by_request<A: Allocator + Copy>(
    alloc: A,
    moment: u64,
    offset: i16,
    reasons: &DataSet<A>,
) -> Result<DataSet<A>, ChangeFault>
    requires moment { IsMoment moment }
    requires offset { IsOffset offset }
    ensures given { IfOk result (λ set. set ≡ cancel_gives Scheduled offset moment reasons.now) }
    ensures shallow { OnOk result (IsShallow (cancel_gives Scheduled offset moment reasons.now)) }
    ensures deep { IfErr result (ChangeFails (cancel_gives Scheduled offset moment reasons.now)) }
{
    if nest_too_deep(reasons) {
        return Err(ChangeFault::TooDeep);
    }
    Ok(canceled(alloc, moment, offset, reasons)?)
}

/// Returns the attributes that a request gives at a moment to its step, whose state was `before`.
#[tactic(auto, using(crate::proofs::Cancels::new_shallow, crate::proofs::Cancels::set_shallow))]
fn given<A: Allocator + Copy>(
    alloc: A,
    moment: u64,
    offset: i16,
    before: StepState,
    request: &Request<A>,
) -> Result<DataSet<A>, ChangeFault>
    requires moment { IsMoment moment }
    requires offset { IsOffset offset }
    ensures given { IfOk result (λ set. set ≡ given offset moment before request.now) }
    ensures shallow { OnOk result (IsShallow (given offset moment before request.now)) }
    ensures deep { IfErr result (ChangeFails (given offset moment before request.now)) }
{
    request.is_well_formed();
    match request {
        Request::Create { step, attributes } => Ok(new_row(alloc, *step, attributes)?),
        Request::Change { state, .. } => Ok(state_alone(alloc, *state)?),
        Request::AskCancel { reasons, .. } => match before {
            StepState::Scheduled => canceled_by_request(alloc, moment, offset, reasons),
            _ => Ok(DataSet::new(alloc)),
        },
        Request::Set { attributes, .. } => Ok(attributes.without(TRANSACTION_UID, 0)?),
        _ => Ok(DataSet::new(alloc)),
    }
}

/// Returns the state of a step after a request on it (PS3.4 CC.1.1).
pub fn state_then<A: Allocator + Copy>(before: StepState, request: &Request<A>) -> StepState
    ensures { result ≡ state_then before request.now }
{
    match request {
        Request::Create { .. } => StepState::Scheduled,
        Request::Change { state, .. } => *state,
        Request::AskCancel { .. } => match before {
            StepState::Scheduled => StepState::Canceled,
            _ => before,
        },
        _ => before,
    }
}

/// Returns the Transaction UID with which a request claims its step, if it does.
fn taken<A: Allocator + Copy>(request: &Request<A>) -> Option<Uid>
    ensures { result ≡ taken request.now }
{
    match request {
        Request::Change {
            state: StepState::InProgress,
            transaction: Transaction::Proper(uid),
            ..
        } => Some(*uid),
        _ => None,
    }
}

/// Returns the moment of a request, if it makes the state final.
pub fn finished(before: StepState, moment: u64, after: StepState) -> Option<u64>
    ensures { result ≡ (if not (is_final before) && is_final after then Some moment else None) }
{
    if !before.is_final() && after.is_final() {
        Some(moment)
    } else {
        None
    }
}

/// Returns the state of a row, or that of a new step if there is none.
fn state_of<A: Allocator + Copy>(row: Option<&Row<A>>) -> StepState
    ensures { result ≡ (unwrap_or (option_copied row.entry) nothing).state }
{
    match row {
        Some(row) => row.state,
        None => StepState::Scheduled,
    }
}

/// Returns the Transaction UID of the claim of a row.
fn transaction_of<A: Allocator + Copy>(row: Option<&Row<A>>) -> Option<Uid>
    ensures { result ≡ (unwrap_or (option_copied row.entry) nothing).transaction }
{
    row?.transaction
}

/// Returns when the state of a row became final.
fn final_of<A: Allocator + Copy>(row: Option<&Row<A>>) -> Option<u64>
    ensures { result ≡ (unwrap_or (option_copied row.entry) nothing).final_at }
{
    row?.final_at
}

/// Returns a set laid over the attributes of a row, or alone if there is no row.
#[tactic(auto, using(crate::proofs::Laying::laid_over_nothing))]
fn over<A: Allocator + Copy>(
    set: DataSet<A>,
    row: Option<&Row<A>>,
) -> Result<DataSet<A>, AllocError>
    ensures { IfOk result (λ s. s ≡ laid_over set (unwrap_or (option_copied row.entry) nothing).attributes) }
{
    match row {
        Some(row) => set.laid_over(&row.attributes),
        None => {
            set.is_a_data_set();
            Ok(set)
        }
    }
}

/// Returns the row of a step after an accepted request; `row` is the one before, or None. `moment` is in seconds since
/// 1970-01-01 UTC, `offset` is that of the local time in minutes east of UTC.
///
/// # Errors
///
/// `TooDeep` if the items that a cancel request gives would nest more than 8 deep, and only then; otherwise `Memory` if
/// memory runs out.
pub fn change<A: Allocator + Copy>(
    alloc: A,
    row: Option<&Row<A>>,
    request: &Request<A>,
    moment: u64,
    offset: i16,
) -> Result<Row<A>, ChangeFault>
    requires moment { IsMoment moment }
    requires offset { IsOffset offset }
    ensures row { IfOk result (λ after. after ≡ row_after offset moment (unwrap_or (option_copied row.entry) nothing) request.now) }
    ensures shallow { OnOk result (IsShallow (given offset moment (unwrap_or (option_copied row.entry) nothing).state request.now)) }
    ensures deep { IfErr result (ChangeFails (given offset moment (unwrap_or (option_copied row.entry) nothing).state request.now)) }
{
    let before = state_of(row);
    let after = state_then(before, request);
    let given = given(alloc, moment, offset, before, request)?;
    Ok(Row {
        attributes: over(given, row)?,
        state: after,
        transaction: taken(request).or(transaction_of(row)),
        final_at: finished(before, moment, after).or(final_of(row)),
    })
}
