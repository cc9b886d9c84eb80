//! The queues of event reports (PS3.4 CC.2.4): for each watcher, the events that it has not acknowledged, without each
//! State Report that a later one of the same step supersedes.
#![tactic(auto)]

mod fault;
mod queue;
mod queues;
mod slots;

pub use fault::AckFault;
pub use queue::Queue;
pub use queues::Queues;
