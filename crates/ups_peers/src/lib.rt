//! The peers of a server: what it allows them, and the watchers that it reports to.
#![tactic(auto)]

mod limits;
mod watcher;

pub use limits::{
    COMPACT_AT, DELIVERY_TIMEOUT, IDLE, MAX_COMPACT_AT, MAX_WORKERS, ServerLimits, TIMEOUT, TURNS,
    WAITING, WORKERS, limits_are_as_defined,
};
pub use watcher::{Watcher, WatcherAddress};
