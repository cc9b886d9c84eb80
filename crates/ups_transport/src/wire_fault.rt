//! Why a call on a connection failed.

use std::alloc::AllocError;
use std::io::{self, ErrorKind};

/// Why a call on a connection failed: the kind of an `io::Error`, which itself takes 72 bytes that each caller would
/// copy.
#[derive(Clone, Copy, Debug, PartialEq, Eq)]
pub struct WireFault {
    kind: ErrorKind,
}

impl WireFault {
    /// Returns the fault of this kind.
    pub(crate) fn of(kind: ErrorKind) -> WireFault {
        WireFault { kind }
    }

    /// Returns whether the call failed because its time was over.
    pub(crate) fn is_late(self) -> bool {
        matches!(self.kind, ErrorKind::TimedOut | ErrorKind::WouldBlock)
    }
}

impl From<io::Error> for WireFault {
    fn from(error: io::Error) -> WireFault {
        WireFault::of(error.kind())
    }
}

impl From<AllocError> for WireFault {
    fn from(_: AllocError) -> WireFault {
        WireFault::of(ErrorKind::OutOfMemory)
    }
}

impl From<WireFault> for io::Error {
    fn from(fault: WireFault) -> io::Error {
        io::Error::from(fault.kind)
    }
}
