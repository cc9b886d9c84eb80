//! Requests to a Unified Procedure Step service (PS3.4 annex CC) as lines of a script: reading them, and writing accepted
//! ones so that they are read again as they were. No manager is known here.
#![tactic(auto)]

mod asking;
mod comparing;
mod exact;
mod fault;
mod limits;
mod line;
mod meaning;
mod telling;
mod writing;

pub use asking::{Asked, Question, asked_by};
pub use exact::Grammar;
pub use fault::Untold;
pub use limits::{MAX_LINE, limits_are_as_defined};
pub use meaning::{Unasked, ask_of};
pub use telling::{entry_in, line_of};
