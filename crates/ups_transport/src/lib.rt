//! The transport connection of an association (PS3.8 section 9.1): how it comes, its two ends, its time limits, and what
//! leaves on it.
//!
//! All that leaves a connection rests on what is committed then. Nothing is promised about what a socket carries, or
//! when: no contract covers the keeping of a time limit, or the door.
#![tactic(auto)]

mod arrival;
mod backlog;
mod connection;
mod door;
mod grace;
mod memory;
mod network;
mod outbox;
mod outward;
mod patience;
mod requests;
mod responses;
mod sink;
mod socket;
mod source_address;
mod start_log;
mod supervisor;
mod tenants;
mod wire;
mod wire_fault;

pub use backlog::waiting_at;
pub use connection::{Connection, Inlet, Outlet, ends_of};
pub use door::{Caller, Door};
pub use grace::{Pressure, idle_grace, message_grace, request_grace, tenure_of};
pub use memory::{ProcessMemory, limit_in, memory_in};
pub use network::{MAX_ADDRESSES, Network};
pub use outbox::CommitWait;
pub use outward::Departing;
pub use patience::{Patience, answer_seconds, left_of, opening_milliseconds};
pub use sink::Sink;
pub use socket::{limit_of, tune};
pub use source_address::can_leave;
pub use start_log::StartLog;
pub use wire::{Deadline, TimeLimits, Wire, WirePeer, WireReader, WireWriter};
pub use wire_fault::WireFault;
