//! The present subscriptions to Unified Procedure Steps (PS3.4 CC.2.3): the global subscription of each peer, and the
//! subscription of each peer to each step.
#![tactic(auto)]

mod cover;
mod row;
mod rows;
mod watchers;

pub use cover::Cover;
pub use watchers::Watchers;
