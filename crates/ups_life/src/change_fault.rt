//! The error of a change of a row.

ghost use Rattle.std.specs.Prelude.{◌≡◌};
ghost use Rattle.ups_life.specs.declared.change_fault.ChangeFault.TheVariants.{Memory};

use std::alloc::AllocError;
use thiserror::Error;

/// The reason why a request makes no row of its step.
#[derive(Clone, Copy, Debug, PartialEq, Eq, Error)]
pub enum ChangeFault {
    /// The items of the step would nest more than 8 deep.
    #[error("the items of the step would nest more than 8 deep")]
    TooDeep,
    /// Memory ran out.
    #[error("out of memory")]
    Memory,
}

impl From<AllocError> for ChangeFault {
    ghost from_gives = { λ _ e. e ≡ Memory };

    fn from(_e: AllocError) -> ChangeFault {
        ChangeFault::Memory
    }
}
