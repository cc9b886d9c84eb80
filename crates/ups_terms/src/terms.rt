//! The terms of the service.

ghost use Rattle.std.specs.Prelude.{◌≡◌};
ghost use Rattle.ups_terms.specs.declared.terms.TermsFault.TheVariants.{Memory};

use std::alloc::{AllocError, AllocFailed, Allocator};
use thiserror::Error;
use ups_life::Peer;

/// The terms of the service in a run: the settings on which the effect of a request depends.
#[derive(Drop)]
pub struct Terms<A: Allocator> {
    /// The number of seconds for which a finished step is kept.
    pub keep: u32,
    /// The offset of the local time from UTC, in minutes, positive to the east (PS3.5 section 6.2, DT).
    pub offset: i16,
    /// The application entities that may watch steps, and which of them may lock steps against removal.
    pub peers: Vec<Peer, A>,
}

/// Why terms were not read from a text.
#[derive(Clone, Copy, Debug, PartialEq, Eq, Error)]
pub enum TermsFault {
    /// Memory ran out.
    #[error("out of memory")]
    Memory,
    /// The text is not that of terms.
    #[error("the terms of the last run are unreadable")]
    Unreadable,
}

impl From<AllocError> for TermsFault {
    ghost from_gives = { λ _ e. e ≡ Memory };

    fn from(_e: AllocError) -> TermsFault {
        TermsFault::Memory
    }
}

impl<T: Drop> From<AllocFailed<T>> for TermsFault {
    ghost from_gives = { λ _ e. e ≡ Memory };

    fn from(_e: AllocFailed<T>) -> TermsFault {
        TermsFault::Memory
    }
}
