use fixtures::uid;
use std::alloc::Global;
use std::test::Fail;
use ups_life::StepUid;

/// Returns the step with a number: 1.2.3.1, 1.2.3.2, and so on.
pub(super) fn step_of(alloc: Global, number: &str) -> Result<StepUid, Fail> {
    let text = format!(in alloc; "1.2.3.{number}")?;
    Ok(StepUid::of(uid(text.as_str())?).ok_or("a step")?)
}

/// Returns the last digit of a step's UID.
pub(super) fn digit_of(step: StepUid) -> char {
    match step.as_bytes().last() {
        Some(digit) => char::from(*digit),
        None => '?',
    }
}
