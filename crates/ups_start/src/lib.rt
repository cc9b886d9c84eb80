//! The start of a server on a store of accepted requests, and the ledger that continues it. Everything is generic over
//! the place of the store; only `file` and `making` name the type of a store in a file.
#![tactic(auto)]

mod beginning;
mod carrying;
mod compacting;
mod comparing;
mod drafting;
mod fault;
mod file;
mod front;
mod granting;
mod laws;
mod ledger;
mod making;
mod naming;
mod place;
mod progress;
mod reading;
mod reopening;
mod rewriting;
mod settling;
mod shelf;
mod shrinking;
mod taking;
mod terms;

pub use beginning::begin;
pub use fault::StartFault;
pub use file::{FilePlace, FileStoreOf};
pub use laws::{a_start_has_what_answers_rest_on, a_start_stands_for_the_same_log};
pub use ledger::StoreLedger;
pub use making::create;
pub use naming::LedgerNaming;
pub use place::StorePlace;
pub use shrinking::{Compacted, compact};
pub use sqlite_disk::Start;
pub use terms::{last_terms, look, look_at_terms};
pub use ups_restore::CompactFault;
pub use ups_store::{OpenFault, Replay, RequestStore, Run, StoreFault};
pub use ups_terms::{Difference, StartChoices, Terms};
