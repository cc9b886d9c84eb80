//! Why a line is invalid.

ghost use Rattle.std.specs.Prelude.{◌≡◌};
ghost use Rattle.ups_lines.specs.declared.fault.LineFault.TheVariants.{Malformed, Memory};

use std::alloc::{AllocError, AllocFailed};
use thiserror::Error;

/// Why a line is invalid: it is too long, or the first of its words that is wrong has this fault.
#[derive(Clone, Copy, Debug, PartialEq, Eq, Error)]
pub enum LineReason {
    /// It has more than 16,777,216 bytes before its line feed.
    #[error("it has more than 16,777,216 bytes")]
    TooLong,
    /// A word is empty: the line is empty, begins or ends with a space, or has two spaces in a row.
    #[error("a word is empty")]
    EmptyWord,
    /// It ends before the last word that its verb needs.
    #[error("a word is missing")]
    MissingWord,
    /// It goes on after the last word that its verb takes.
    #[error("it has too many words")]
    ExtraWord,
    /// Its moment is not a number of seconds up to 253402250399.
    #[error("its moment is not a number of seconds up to 253402250399")]
    Moment,
    /// Its title is not valid (PS3.5 section 6.2, AE).
    #[error("its title is not an AE title")]
    Title,
    /// Its verb is unknown.
    #[error("its verb is unknown")]
    Verb,
    /// A `%` is not followed by two hex digits.
    #[error("two hex digits are missing behind a %")]
    Escape,
    /// A word is not a tag.
    #[error("a word is not a tag")]
    Tag,
    /// A word is not a number in decimal digits, up to 18,446,744,073,709,551,615.
    #[error("a word is not a number")]
    Number,
    /// A word is not an attribute.
    #[error("a word is not an attribute")]
    Attribute,
    /// Its attributes make more than 131,072 items.
    #[error("its attributes make more than 131,072 items")]
    TooManyItems,
    /// A word is not the UID of a step.
    #[error("a word is not the UID of a step")]
    Step,
    /// Only a history has such a line.
    #[error("it is a line of a history: give --history")]
    OfHistory,
}

/// Why a line makes no request.
#[derive(Clone, Copy, Debug, PartialEq, Eq)]
pub enum LineFault {
    /// It is not a valid line of a script.
    Malformed(LineReason),
    /// Memory ran out.
    Memory,
}

impl From<LineReason> for LineFault {
    ghost from_gives = { λ reason e. e ≡ Malformed reason };

    fn from(reason: LineReason) -> LineFault {
        LineFault::Malformed(reason)
    }
}

impl From<AllocError> for LineFault {
    ghost from_gives = { λ _ e. e ≡ Memory };

    fn from(_e: AllocError) -> LineFault {
        LineFault::Memory
    }
}

impl<T: Drop> From<AllocFailed<T>> for LineFault {
    ghost from_gives = { λ _ e. e ≡ Memory };

    fn from(_e: AllocFailed<T>) -> LineFault {
        LineFault::from(AllocError)
    }
}
