//! Accepted requests as records of plain data, column by column, for a store that outlives the service, and the
//! requests that records stand for. The record of an entry is read back as that entry.
#![tactic(auto)]

mod fault;
mod keys;
pub mod laws;
mod operation;
mod reading;
mod record;
mod recording;
mod sets;
mod targets;
mod texts;

pub use fault::{RecordFault, RecordingFault};
pub use operation::RecordedOperation;
pub use reading::entry_of;
pub use record::{Columns, Record};
pub use recording::record_of;
