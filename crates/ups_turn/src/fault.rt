//! The reasons why a desk does not open, or does not close.

use thiserror::Error;

/// The reason why no desk was opened: the first of the tests that fails.
#[derive(Clone, Copy, Debug, PartialEq, Eq, Error)]
pub enum DeskFault {
    /// There are no seats, or more than 1,024.
    #[error("a desk has from 1 to 1024 seats")]
    BadSeats,
    /// Memory ran out.
    #[error("out of memory")]
    Memory,
}

/// The reason why a desk was not closed.
#[derive(Clone, Copy, Debug, PartialEq, Eq, Error)]
pub enum CloseFault {
    /// Not all of its passes are there.
    #[error("not all passes of the desk are back")]
    Missing,
}
