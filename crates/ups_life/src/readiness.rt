//! The readiness of the input of a step.

ghost use Rattle.std.specs.Prelude.{◌≡◌};
ghost use Rattle.ups_life.specs.Readiness.{readiness_text, readiness_of};

use ups_pdu::without_padding;

/// The readiness of the input of a step: Input Readiness State (0040,4041) (PS3.3 C.30.2).
#[derive(Clone, Copy, Debug, PartialEq, Eq)]
pub enum InputReadiness {
    /// INCOMPLETE: not all that the step needs is known yet.
    Incomplete,
    /// UNAVAILABLE: all of it is known, but not all of it is available.
    Unavailable,
    /// READY: all of it is available.
    Ready,
}

impl InputReadiness {
    /// Returns the text of the readiness, without padding (PS3.3 C.30.2).
    pub fn text(self) -> &'static [u8]
        ensures { result.now ≡ readiness_text self }
    {
        match self {
            InputReadiness::Incomplete => b"INCOMPLETE",
            InputReadiness::Unavailable => b"UNAVAILABLE",
            InputReadiness::Ready => b"READY",
        }
    }

    /// Returns the readiness that a value names, ignoring padding, or None if it names none.
    pub fn of(value: &[u8]) -> Option<InputReadiness>
        ensures { result ≡ readiness_of value.now }
    {
        let text = without_padding(value);
        if text == b"INCOMPLETE".as_slice() {
            Some(InputReadiness::Incomplete)
        } else if text == b"UNAVAILABLE".as_slice() {
            Some(InputReadiness::Unavailable)
        } else if text == b"READY".as_slice() {
            Some(InputReadiness::Ready)
        } else {
            None
        }
    }
}
