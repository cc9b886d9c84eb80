//! The reasons why bytes are not a command set.

ghost use Rattle.std.specs.Prelude.{◌≡◌};
ghost use Rattle.ups_dimse.specs.declared.fault.DimseFault.TheVariants.{Memory};

use std::alloc::{AllocError, AllocFailed};
use thiserror::Error;
use ups_dataset::Tag;

/// The reason why no command was read: the first of the tests that fails.
#[derive(Clone, Copy, Debug, PartialEq, Eq, Error)]
pub enum DimseFault {
    /// An element that the message must have is missing (PS3.7 sections 9.3 and 10.3).
    #[error("the command set has no element ({:04x},{:04x})", .0.group, .0.element)]
    Missing(Tag),
    /// A value does not have the length of its value representation (PS3.5 section 6.2). With (0000,0000): the bytes
    /// are not elements of group 0000 with rising tags (PS3.7 section 6.3.1).
    #[error("the command set has a bad value at ({:04x},{:04x})", .0.group, .0.element)]
    BadValue(Tag),
    /// The Command Field (0000,0100) is that of no known message (PS3.7 annex E.1).
    #[error("no known message has this Command Field (0000,0100)")]
    UnknownField,
    /// Memory ran out.
    #[error("out of memory")]
    Memory,
}

impl From<AllocError> for DimseFault {
    ghost from_gives = { λ _ e. e ≡ Memory };

    fn from(_e: AllocError) -> DimseFault {
        DimseFault::Memory
    }
}

impl<T: Drop> From<AllocFailed<T>> for DimseFault {
    ghost from_gives = { λ _ e. e ≡ Memory };

    fn from(_e: AllocFailed<T>) -> DimseFault {
        DimseFault::from(AllocError)
    }
}
