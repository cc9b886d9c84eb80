//! The rules for one request on one step (PS3.4 annex CC): the decision on the request, its effect on the step, and the
//! reports of it. The definitions are in `ups_life`.
#![tactic(auto)]

mod changing;
mod checks;
mod deciding;
mod telling;
mod values;

pub use changing::{change, finished, state_then};
pub use deciding::verdict;
pub use telling::{add_if, cancel_reports, readiness_in, report, set_reports};
