//! The service that answers a session, and the law that it keeps over a history of accepted requests (PS3.4 annex CC).
//! A manager is a service, and so is a pass to a shared manager. The passes share one service, which has many callers.
#![tactic(auto)]

pub mod laws;
mod looking;
mod observer;
mod service;
mod shared_service;

pub use looking::{complete, found_among, is_look, shown_first};
pub use observer::Observer;
pub use service::Service;
pub use shared_service::SharedService;
