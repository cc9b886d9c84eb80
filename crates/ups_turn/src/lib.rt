//! The desk: passes held by threads take turns with one manager, and are answered from one history.
//!
//! A desk works like a ticket counter. A pass that makes a call draws the next ticket, waits until it is served, has
//! the manager to itself for one call, and serves the next ticket before the call returns. Each pass is a service of
//! the law given by `ups_service`, under its own caller number, and may make 2^40 calls.
//!
//! The manager is any `SharedService`, a type parameter, so this crate does not depend on the crate of the manager.
#![tactic(auto)]

mod at;
mod desk;
mod fault;
mod held;
pub mod laws;
mod pass;
mod rule;
mod seated;
mod turn;
mod view;

pub use at::At;
pub use desk::Desk;
pub use fault::{CloseFault, DeskFault};
pub use pass::Pass;
pub use seated::{Fixed, Seated};
