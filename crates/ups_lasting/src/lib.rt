//! Permanent storage of accepted requests that may be compacted while the server runs: what is stored stands for the log
//! of all of them, of which it is a ledger.
#![tactic(auto)]

mod carrying;
mod compaction;
mod doubt;
mod draft_ledger;
mod drafting;
mod finishing;
mod following;
mod ghost_records;
mod growing;
mod lasting;
pub mod laws;
mod moving;
mod stage;
mod surveying;

pub use compaction::{Compaction, Tended};
pub use draft_ledger::DraftLedger;
pub use lasting::LastingLedger;
