//! Restores a manager by submitting the entries of its history again, or those of their records. Also makes a manager
//! with a shorter history: the compacted history of another, and the records that go on with it.
#![tactic(auto)]

mod acknowledging;
mod carrying;
mod compacting;
mod fault;
pub mod laws;
mod leaving;
mod lessening;
mod needed;
mod putting;
mod replaying;
mod restoring;
mod survey;

pub use acknowledging::{COMPACTOR, acknowledge, acknowledge_surveyed};
pub use carrying::carry_record;
pub use compacting::{compact, compact_into, compaction_pays};
pub use fault::{CompactFault, Refusal, ReplayFault, RestoreFault, RestoreRefusal};
pub use leaving::{Restoration, Restored, restore_each};
pub use lessening::{lessen, lessen_all, records_from, shifts_between};
pub use needed::{list_needed, steps_needed};
pub use putting::put_history;
pub use replaying::{replay, replay_one};
pub use restoring::{restore, restore_one};
pub use survey::Survey;
