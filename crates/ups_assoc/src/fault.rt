//! The reasons why fragments do not make a message.

ghost use Rattle.std.specs.Prelude.{◌≡◌};
ghost use Rattle.ups_assoc.specs.declared.fault.AssocFault.TheVariants.{Memory};

use std::alloc::{AllocError, AllocFailed};
use thiserror::Error;

/// The reason why a fragment was not taken: `Failed`, or else the first check that failed, in this order (PS3.8 annex
/// E).
#[derive(Clone, Copy, Debug, PartialEq, Eq, Error)]
pub enum AssocFault {
    /// The fragment is on a presentation context that was not accepted.
    #[error("the PDV is on a presentation context that was not accepted")]
    UnknownContext,
    /// The fragment is on another presentation context than the message that was begun, or it belongs to a command
    /// set when a data set is expected.
    #[error("the PDV is of another message than the one that was begun")]
    MixedContext,
    /// The fragment belongs to a data set, and no whole command set announced one.
    #[error("the PDV is of a data set, and no whole command announced one")]
    DataWithoutCommand,
    /// The message would be longer than 1,048,576 bytes.
    #[error("the message is longer than 1,048,576 bytes")]
    TooLong,
    /// Memory ran out.
    #[error("out of memory")]
    Memory,
    /// An earlier fragment was not taken.
    #[error("an earlier PDV of this association was not taken")]
    Failed,
}

impl From<AllocError> for AssocFault {
    ghost from_gives = { λ _ e. e ≡ Memory };

    fn from(_e: AllocError) -> AssocFault {
        AssocFault::Memory
    }
}

impl<T: Drop> From<AllocFailed<T>> for AssocFault {
    ghost from_gives = { λ _ e. e ≡ Memory };

    fn from(_e: AllocFailed<T>) -> AssocFault {
        AssocFault::from(AllocError)
    }
}
