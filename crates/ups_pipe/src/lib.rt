//! Answers one association from a reader to a writer, as bytes or as hex digits, with a manager of its own. This crate
//! may not know a command line, a socket or a thread.
#![tactic(auto)]

mod gate;
mod hexing;
mod limits;
mod piping;

pub use hexing::DigitFault;
pub use limits::limits_are_as_defined;
pub use piping::{Piped, pipe_told};
