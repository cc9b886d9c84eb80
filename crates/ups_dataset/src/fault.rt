//! The reasons why bytes are not a data set.

ghost use Rattle.std.specs.Prelude.{◌≡◌};
ghost use Rattle.ups_dataset.specs.declared.fault.SetFault.TheVariants.{Memory};

use std::alloc::{AllocError, AllocFailed};
use thiserror::Error;

/// The reason why no data set was read: at the first place with a fault, the first check that failed.
#[derive(Clone, Copy, Debug, PartialEq, Eq, Error)]
pub enum SetFault {
    /// The bytes end inside a header or a value.
    #[error("the bytes end inside an element")]
    Short,
    /// A length is odd (PS3.5 section 7.1.1).
    #[error("a length is odd")]
    OddLength,
    /// A tag is not above the one before it (PS3.5 section 7.1).
    #[error("the tags do not rise")]
    TagOrder,
    /// Two letters are not a value representation (PS3.5 section 6.2).
    #[error("no value representation has these letters")]
    BadVr,
    /// Items nest more than 8 deep.
    #[error("items nest more than 8 deep")]
    Depth,
    /// An item or an end is missing or misplaced, or a value other than items has an undefined length (PS3.5 section
    /// 7.5).
    #[error("an item or an end is not one that may stand there")]
    BadItem,
    /// Memory ran out.
    #[error("out of memory")]
    Memory,
}

impl From<AllocError> for SetFault {
    ghost from_gives = { λ _ e. e ≡ Memory };

    fn from(_e: AllocError) -> SetFault {
        SetFault::Memory
    }
}

impl<T: Drop> From<AllocFailed<T>> for SetFault {
    ghost from_gives = { λ _ e. e ≡ Memory };

    fn from(_e: AllocFailed<T>) -> SetFault {
        SetFault::from(AllocError)
    }
}
