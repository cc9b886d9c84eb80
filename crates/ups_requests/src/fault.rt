//! Why a line tells no accepted request, or a request has no line.

ghost use Rattle.std.specs.Prelude.{◌≡◌};
ghost use Rattle.ups_lines.specs.declared.fault.LineFault.{LineFault};
ghost use Rattle.ups_journal.specs.declared.fault.RecordingFault.{RecordingFault};
ghost use Rattle.ups_requests.specs.declared.fault.Untold.TheVariants.{Memory};
ghost use Rattle.ups_requests.specs.Faults.{untold_line, untold_record};

use std::alloc::AllocError;
use thiserror::Error;
use ups_journal::RecordingFault;
use ups_lines::LineFault;

/// Why a line tells no accepted request, or a request has no line.
#[derive(Clone, Copy, Debug, PartialEq, Eq, Error)]
pub enum Untold {
    /// No line tells it: its keys were read by another offset, or the line is not exact.
    #[error("no line of a script tells it")]
    Unsayable,
    /// Memory ran out.
    #[error("out of memory")]
    Memory,
}

impl From<AllocError> for Untold {
    ghost from_gives = { λ _ e. e ≡ Memory };

    fn from(_e: AllocError) -> Untold {
        Untold::Memory
    }
}

impl From<LineFault> for Untold {
    ghost from_gives = { λ fault e. e ≡ untold_line fault };

    fn from(fault: LineFault) -> Untold {
        match fault {
            LineFault::Memory => Untold::Memory,
            LineFault::Malformed(_) => Untold::Unsayable,
        }
    }
}

impl From<RecordingFault> for Untold {
    ghost from_gives = { λ fault e. e ≡ untold_record fault };

    fn from(fault: RecordingFault) -> Untold {
        match fault {
            RecordingFault::Memory => Untold::Memory,
            _ => Untold::Unsayable,
        }
    }
}
