//! How a session ends.

ghost use Rattle.std.specs.Prelude.{◌≡◌};
ghost use Rattle.ups_session.specs.declared.fault.SessionFault.TheVariants.{Memory};

use std::alloc::{AllocError, AllocFailed};
use thiserror::Error;

/// How an association ended (PS3.8 sections 7.2 to 7.4).
#[derive(Clone, Copy, Debug, PartialEq, Eq)]
pub enum End {
    /// It was released.
    Released,
    /// This side aborted it.
    AbortSent,
    /// The peer aborted it.
    AbortReceived,
    /// The transport connection was closed before it was released or aborted.
    Closed,
    /// It was rejected.
    Rejected,
}

/// Why a session stopped before its association ended.
#[derive(Clone, Copy, Debug, PartialEq, Eq, Error)]
pub enum SessionFault {
    /// A read failed, or the input ended inside a PDU.
    #[error("a read failed, or the input ended inside a PDU")]
    Read,
    /// A write failed.
    #[error("a write failed")]
    Write,
    /// As many PDUs were read as were allowed, and the association had not ended.
    #[error("the association did not end within the number of PDUs that are read at most")]
    Turns,
    /// Memory ran out.
    #[error("out of memory")]
    Memory,
}

impl From<AllocError> for SessionFault {
    ghost from_gives = { λ _ e. e ≡ Memory };

    fn from(_e: AllocError) -> SessionFault {
        SessionFault::Memory
    }
}

impl<T: Drop> From<AllocFailed<T>> for SessionFault {
    ghost from_gives = { λ _ e. e ≡ Memory };

    fn from(_e: AllocFailed<T>) -> SessionFault {
        SessionFault::from(AllocError)
    }
}
