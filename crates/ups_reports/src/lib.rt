//! The content of event reports of Unified Procedure Steps (PS3.4 CC.2.4): the type of each event, and its Event
//! Information.
#![tactic(auto)]

mod kinds;
pub mod laws;
mod payloads;

pub use kinds::type_id;
pub use payloads::payload;
