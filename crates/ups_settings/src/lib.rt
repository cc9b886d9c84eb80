//! The settings of a service, their defaults, and which of them are refused.
#![tactic(auto)]

mod checking;
mod defaults;
mod fault;

pub use checking::refusal;
pub use defaults::{KEEP, OFFSET, defaults_are_as_defined};
pub use fault::ManagerFault;
