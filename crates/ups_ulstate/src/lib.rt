//! The state machine of the DICOM upper layer: its states, events and actions, and the action that each event calls
//! for in each state (PS3.8 section 9.2).
#![tactic(auto)]

mod state;
mod table;

pub use state::{UlAction, UlEvent, UlState};
pub use table::next;
