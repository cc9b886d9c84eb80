//! The accepted requests on a disk: a table of a SQLite file that is appended to or replaced as a whole, a table of the
//! runs of the program, and a draft, which is a second table of requests. Only this crate and `ups_start` use the SQLite
//! crates.
#![tactic(auto)]

mod cells;
mod concluding;
mod digest;
mod drafting;
mod fault;
mod format;
mod laws;
mod opening;
mod path;
mod reading;
mod reopening;
mod replaced;
mod request;
mod rewriting;
mod runs;
mod store;
mod upgrading;
mod words;

pub use digest::{digest_after, digest_with};
pub use fault::{OpenFault, StoreFault};
pub use laws::{append_then_crash, exchange_then_crash};
pub use opening::{OpenRefusal, create_files, open_files};
pub use path::{create, open};
pub use reading::Replay;
pub use replaced::rewrite_then_crash;
pub use request::StoredRequest;
pub use rewriting::Rewrite;
pub use runs::Run;
pub use store::RequestStore;
