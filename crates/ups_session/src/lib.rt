//! Sessions: one association over a transport connection, on the side that accepts it, or on the side that requests it
//! and reports events over it.
//!
//! PDUs are read from any reader and written to any writer (PS3.8 section 9).
#![tactic(auto)]

mod acceptor;
mod asking;
mod association;
mod delivery;
mod devices;
mod dispatch;
mod driver;
mod effect;
mod environment;
mod fault;
mod gate;
mod indication;
pub mod laws;
mod party;
mod pdu_io;
mod proposing;
mod reports;
mod requestor;
mod response;
mod sending;
mod watched_io;

pub use acceptor::serve;
pub use devices::{CutReader, CutWriter, ListGate};
pub use fault::{End, SessionFault};
pub use gate::{Gate, GateCall};
pub use requestor::deliver;
pub use watched_io::{LastRead, WatchedReader, WatchedWriter};
