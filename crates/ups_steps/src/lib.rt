//! The table of the held steps, in order of creation, from which a step is removed without moving the others.
#![tactic(auto)]

mod held;
mod iter;
mod parts;
mod places;
mod steps;

pub use held::HeldRow;
pub use iter::Iter;
pub use steps::Steps;
