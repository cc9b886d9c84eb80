//! Scripts: requests to a Unified Procedure Step service (PS3.4 annex CC), one per line, with one line for each reply.
//! A line becomes the operation and the data set of a message (`ups_requests`), and a manager answers it in the same way.
#![tactic(auto)]

mod fault;
pub mod laws;
mod limits;
mod printing;
mod reading;
mod running;
mod telling;

pub use fault::{BadLine, ScriptFault};
pub use limits::limits_are_as_defined;
pub use running::{answer_lines, run, run_history};
