//! The life cycle of a step: its states, the changes of state that it accepts, and how each request is answered (PS3.4
//! CC.1.1, CC.2.1, CC.2.2).
#![tactic(auto)]

mod cycle;
mod state;
mod status;

pub use cycle::{
    cancel_status, claim_status, complete_status, discontinue_status, set_status, wrong_status,
};
pub use state::StepState;
pub use status::Status;
