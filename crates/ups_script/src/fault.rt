//! The errors that end a script early.

ghost use Rattle.std.specs.Prelude.{◌≡◌};
ghost use Rattle.ups_script.specs.declared.fault.ScriptFault.TheVariants.{Memory};

use std::alloc::AllocError;
use std::fmt::{self, Display, Formatter};
use thiserror::Error;
use ups_lines::LineReason;

/// An invalid line of a script.
#[derive(Clone, Copy, Debug, PartialEq, Eq)]
pub struct BadLine {
    /// Its number, counted from 1.
    pub number: u64,
    /// Why it is invalid.
    pub reason: LineReason,
    /// Whether it ends in a carriage return, which is a byte of its last word.
    pub ends_in_return: bool,
}

impl Display for BadLine {
    fn fmt<W: fmt::Write>(&self, f: &mut Formatter<W>) -> fmt::Result {
        write!(f, "line {} is invalid: {}", self.number, self.reason)?;
        if self.ends_in_return {
            f.write_str(" (its last word ends in a carriage return)")?;
        }
        Ok(())
    }
}

/// Why a script ended before its input did.
#[derive(Clone, Copy, Debug, PartialEq, Eq, Error)]
pub enum ScriptFault {
    /// A line is invalid. Its number was written among the replies.
    #[error("{0}")]
    BadLine(BadLine),
    /// The script has more than 1,000,000 lines.
    #[error("a script has at most 1,000,000 lines")]
    TooManyLines,
    /// A read failed.
    #[error("a read failed")]
    Read,
    /// A write failed.
    #[error("a write failed")]
    Write,
    /// Memory ran out outside of the service, which answers that with a status.
    #[error("out of memory")]
    Memory,
}

impl From<AllocError> for ScriptFault {
    ghost from_gives = { λ _ e. e ≡ Memory };

    fn from(_e: AllocError) -> ScriptFault {
        ScriptFault::Memory
    }
}
