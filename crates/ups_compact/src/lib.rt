//! Compact histories, without the entries about steps that are no longer held and without what watchers were told:
//! their definition, the laws that they obey, how they are made of entries, and by how much the numbers of events are less
//! in them.
#![tactic(auto)]

pub mod laws;
mod paying;
mod reserving;
mod shifts;
mod steps;
mod turn;

pub use paying::pays;
pub use reserving::reservation;
pub use shifts::{Shift, Shifts};
pub use steps::{KeptSteps, StepSorting};
pub use turn::Turn;
