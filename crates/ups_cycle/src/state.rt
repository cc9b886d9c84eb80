//! The states of a step.

ghost use Rattle.std.specs.Prelude.{◌≡◌, List, ℕ, Option, None, Some, MatchOption};
ghost use Rattle.ups_cycle.specs.declared.state.StepState.{StepState};
ghost use Rattle.ups_cycle.specs.States.{is_final, state_text, state_of};

use ups_pdu::without_padding;

/// The state of a step, Procedure Step State (0074,1000) (PS3.3 C.30.1, PS3.4 CC.1.1).
#[derive(Clone, Copy, Debug, PartialEq, Eq)]
pub enum StepState {
    /// SCHEDULED: nobody has claimed it.
    Scheduled,
    /// IN PROGRESS: a performer has claimed it.
    InProgress,
    /// COMPLETED: it was done. This state is final.
    Completed,
    /// CANCELED: it was given up. This state is final.
    Canceled,
}

impl StepState {
    /// Returns whether the state is final: no request changes COMPLETED or CANCELED.
    pub fn is_final(self) -> bool
        ensures { result ≡ is_final self }
    {
        match self {
            StepState::Scheduled | StepState::InProgress => false,
            StepState::Completed | StepState::Canceled => true,
        }
    }

    /// Returns the text of the state, without padding (PS3.3 C.30.1).
    pub fn text(self) -> &'static [u8]
        ensures { result.now ≡ state_text self }
    {
        match self {
            StepState::Scheduled => b"SCHEDULED",
            StepState::InProgress => b"IN PROGRESS",
            StepState::Completed => b"COMPLETED",
            StepState::Canceled => b"CANCELED",
        }
    }

    /// Returns the state that a value names, which may be padded, or None if it names none.
    pub fn of(value: &[u8]) -> Option<StepState>
        ensures { result ≡ state_of value.now }
    {
        let text = without_padding(value);
        if text == b"SCHEDULED".as_slice() {
            Some(StepState::Scheduled)
        } else if text == b"IN PROGRESS".as_slice() {
            Some(StepState::InProgress)
        } else if text == b"COMPLETED".as_slice() {
            Some(StepState::Completed)
        } else if text == b"CANCELED".as_slice() {
            Some(StepState::Canceled)
        } else {
            None
        }
    }
}
