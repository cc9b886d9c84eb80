//! The error of making a manager.

ghost use Rattle.std.specs.Prelude.{◌≡◌};
ghost use Rattle.ups_settings.specs.declared.fault.ManagerFault.TheVariants.{Memory};

use std::alloc::{AllocError, AllocFailed};
use thiserror::Error;

/// The reason why no manager was made: the first test that failed.
#[derive(Clone, Copy, Debug, PartialEq, Eq, Error)]
pub enum ManagerFault {
    /// Two of the peers have the same application entity title.
    #[error("an application entity is named as a peer twice")]
    TwicePeer,
    /// The limit of the history is 0 or above 1,000,000.
    #[error("the limit of the history has to be from 1 to 1000000")]
    BadLimit,
    /// The offset from UTC is below -720 minutes or above 840 (PS3.5 section 6.2, DT).
    #[error("the offset from UTC has to be from -720 to 840 minutes")]
    BadOffset,
    /// Memory ran out.
    #[error("out of memory")]
    Memory,
}

impl From<AllocError> for ManagerFault {
    ghost from_gives = { λ _ e. e ≡ Memory };

    fn from(_e: AllocError) -> ManagerFault {
        ManagerFault::Memory
    }
}

impl<T: Drop> From<AllocFailed<T>> for ManagerFault {
    ghost from_gives = { λ _ e. e ≡ Memory };

    fn from(_e: AllocFailed<T>) -> ManagerFault {
        ManagerFault::Memory
    }
}
