//! The accepted requests. To a contract they are all there; in memory are the recent ones, and those older ones that may
//! still be asked for.
#![tactic(auto)]

mod history;

pub use history::History;
