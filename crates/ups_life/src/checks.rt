//! The attributes whose values are checked.

ghost use Rattle.std.specs.Prelude.{◌≡◌};
ghost use Rattle.ups_life.specs.Values.{allows};

use ups_dataset::Tag;
use ups_dataset::dictionary::{
    INPUT_READINESS_STATE, PROCEDURE_STEP_LABEL, SCHEDULED_PROCEDURE_STEP_PRIORITY,
    SCHEDULED_PROCEDURE_STEP_START_DATE_TIME,
};
use ups_match::read_dt;

/// The rule for the text of an attribute.
#[derive(Clone, Copy, Debug, PartialEq, Eq)]
pub enum ValueRule {
    /// Any text that is not empty.
    AnyText,
    /// A date and time (PS3.5 section 6.2, DT).
    DateTime,
    /// INCOMPLETE, UNAVAILABLE or READY (PS3.3 C.30.2).
    Readiness,
    /// HIGH, MEDIUM or LOW (PS3.3 C.30.2).
    Priority,
}

/// An attribute that an N-CREATE must give and an N-SET may give, and the rule for its text.
#[derive(Clone, Copy, Debug, PartialEq, Eq)]
pub struct Checked {
    /// The tag of the attribute.
    pub tag: Tag,
    /// The rule for its text.
    pub rule: ValueRule,
}

/// The attributes that are checked, in ascending order of tags (PS3.4 table CC.2.5-3).
pub const CHECKED: [Checked; 4] = [
    Checked {
        tag: SCHEDULED_PROCEDURE_STEP_START_DATE_TIME,
        rule: ValueRule::DateTime,
    },
    Checked {
        tag: INPUT_READINESS_STATE,
        rule: ValueRule::Readiness,
    },
    Checked {
        tag: SCHEDULED_PROCEDURE_STEP_PRIORITY,
        rule: ValueRule::Priority,
    },
    Checked {
        tag: PROCEDURE_STEP_LABEL,
        rule: ValueRule::AnyText,
    },
];

impl ValueRule {
    /// Returns whether the rule allows a text that is not empty.
    pub fn allows(self, text: &[u8]) -> bool
        ensures { result ≡ allows self text.now }
    {
        match self {
            ValueRule::AnyText => true,
            ValueRule::DateTime => read_dt(text, 0, false).is_some(),
            ValueRule::Readiness => {
                text == b"INCOMPLETE".as_slice()
                    || text == b"UNAVAILABLE".as_slice()
                    || text == b"READY".as_slice()
            }
            ValueRule::Priority => {
                text == b"HIGH".as_slice()
                    || text == b"MEDIUM".as_slice()
                    || text == b"LOW".as_slice()
            }
        }
    }
}
