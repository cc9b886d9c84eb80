//! Plain programs that answer questions about a history by walking it, entry by entry. The contract of each is the
//! definition of its answer. Tests compare the answers from tables with them.
#![tactic(auto)]

mod rows;
mod walking;

pub use rows::{plain_find, repeats, used};
pub use walking::{is_due, plain_held, plain_watches, watched_among};
