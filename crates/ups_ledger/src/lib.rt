//! Permanent storage of accepted requests: records in a ledger that outlives the service, in the order of the history
//! behind a desk. At any time a ledger has a prefix of that history.
#![tactic(auto)]

mod commits;
mod committing;
mod disposing;
mod due;
mod fault;
mod group;
mod keeper;
pub mod laws;
mod ledger;
mod no_ledger;
mod recorder;
mod tending;
mod withheld;

pub use commits::{AreCommitted, Commits, Committed, Keeping};
pub use committing::commit;
pub use disposing::{Disposer, DropHere, Waste};
pub use due::{CommitDue, Noted};
pub use fault::{CommitFault, LedgerFault};
pub use group::Group;
pub use keeper::Keeper;
pub use ledger::Ledger;
pub use no_ledger::NoLedger;
pub use recorder::{Recorder, group_of};
pub use tending::Tending;
pub use withheld::Withheld;
