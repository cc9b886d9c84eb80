//! The service of Unified Procedure Steps (PS3.4 annex CC): its requests, and the definitions of how they are decided
//! and what a history of accepted requests makes of each step, with their laws.
#![tactic(auto)]

mod actions;
mod change_fault;
mod checks;
mod configuration;
mod entry;
mod event;
mod event_reports;
mod events;
mod instances;
pub mod laws;
mod limits;
mod peer;
mod readiness;
mod reading;
mod request;
mod row;
mod sets;
mod showing;
mod step;
mod subscribing;
mod watching;

pub use actions::{CHANGE_STATE, REQUEST_CANCEL, SUBSCRIBE, SUSPEND, UNSUBSCRIBE};
pub use change_fault::ChangeFault;
pub use checks::{CHECKED, Checked, ValueRule};
pub use configuration::Configuration;
pub use entry::Entry;
pub use event::{Event, EventKind, Report};
pub use event_reports::{EventReport, EventReports};
pub use events::Events;
pub use limits::{MAX_HISTORY, MAX_MOMENT, MAX_OFFSET, MAX_PEERS, MAX_ROW_BYTES, MIN_OFFSET};
pub use peer::{Peer, is_peer, may_lock};
pub use readiness::InputReadiness;
pub use reading::read_request;
pub use request::{Ask, Reply, Request, Transaction};
pub use row::{Holder, Row};
pub use sets::Sets;
pub use showing::shown;
pub use step::StepUid;
pub use watching::{Filter, Place, Subscriber, Subscription, Target, Watched};
