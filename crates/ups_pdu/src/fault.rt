//! The reasons why bytes are not a PDU.

ghost use Rattle.std.specs.Prelude.{◌≡◌};
ghost use Rattle.ups_pdu.specs.declared.fault.PduFault.TheVariants.{Memory};

use std::alloc::{AllocError, AllocFailed};
use thiserror::Error;

/// The reason why no PDU was read: the first check that failed (PS3.8 section 9.3).
#[derive(Clone, Copy, Debug, PartialEq, Eq, Error)]
pub enum PduFault {
    /// The bytes end before the PDU does.
    #[error("the bytes end before the PDU does")]
    Short,
    /// The first byte is not the type of a PDU.
    #[error("no PDU has this type")]
    UnknownType,
    /// A length does not match what it measures.
    #[error("a length does not fill what it is the length of")]
    BadLength,
    /// An item or a fragment is not allowed there.
    #[error("an item is not one that may stand there")]
    BadItem,
    /// The length is over the limit for this type of PDU.
    #[error("the PDU is longer than the limit")]
    TooLong,
    /// Memory ran out.
    #[error("out of memory")]
    Memory,
}

impl From<AllocError> for PduFault {
    ghost from_gives = { λ _ e. e ≡ Memory };

    fn from(_e: AllocError) -> PduFault {
        PduFault::Memory
    }
}

impl<T: Drop> From<AllocFailed<T>> for PduFault {
    ghost from_gives = { λ _ e. e ≡ Memory };

    fn from(_e: AllocFailed<T>) -> PduFault {
        PduFault::from(AllocError)
    }
}
