//! The names of states.

ghost use Rattle.std.specs.Prelude.{◌≡◌};
ghost use Rattle.ups_store.specs.Words.{state_named};

use ups_cycle::StepState;

/// Returns the state with this text (PS3.4 CC.1.1), without padding.
#[tactic(auto, unfolding(crate::specs::Words::state_named))]
pub(crate) fn state_named(text: &[u8]) -> Option<StepState>
    ensures { result ≡ state_named text.now }
{
    if text == StepState::Scheduled.text() {
        Some(StepState::Scheduled)
    } else if text == StepState::InProgress.text() {
        Some(StepState::InProgress)
    } else if text == StepState::Completed.text() {
        Some(StepState::Completed)
    } else if text == StepState::Canceled.text() {
        Some(StepState::Canceled)
    } else {
        None
    }
}
